//! Products of matrices: the claim that one matrix is the product of two others, as one call.
//!
//! A point is drawn after all entries were observed, and by its powers the claim becomes a sum over
//! two tables as long as the inner side, on which quadratic rounds are played. [`audit_matmul`]
//! builds these rounds or checks those of a proof, and answers the report with its verdict, or why
//! there is none, for every field, extension and challenger. What it answers is one function of the
//! definitions, `matmul_result` in `specs/MatmulReports.antt`.
#![tactic(auto)]

mod audit;
mod building;
mod checking;
mod drawing;
mod error;
mod matrix;
mod product;
mod refusals;
mod report;
mod shape;
mod tables;
mod verdict;

pub use audit::audit_matmul;
pub use error::MatmulError;
pub use matrix::Matrix;
pub use report::{MatmulReport, MatmulVerdict};
pub use sc_transcript::SumcheckData;
