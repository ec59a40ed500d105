//! Claims on several tables, merged into one opening of each table at one point.
//!
//! Each claim is the value of a table at a point, or of the table of next rows. A challenge is
//! drawn after the claimed values, and by its powers the claims become one sum over all tables, on
//! which quadratic rounds are played; after them each table is opened at the challenges.
//! [`audit_openings`] builds the rounds and openings or checks those of a proof, and answers the
//! report with its verdict, or why there is none, for every field, extension and challenger. What
//! it answers is one function of the definitions, `openings_result` in
//! `specs/OpeningsReports.antt`.
#![tactic(auto)]

mod audit;
mod building;
mod checking;
mod claim;
mod claimed;
mod drawing;
mod error;
mod openings;
mod refusals;
mod report;
mod shape;
mod values;
mod verdict;
mod weights;

pub use audit::audit_openings;
pub use claim::{MergeProof, OpeningClaim};
pub use error::MergeError;
pub use report::{MergeReport, MergeVerdict};
pub use sc_transcript::SumcheckData;
