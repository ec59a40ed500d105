//! The job of an audit and its report: what is asked, what is answered, and what is told of a job
//! before a round is played, which is whether its shape and its strategy fit, and which claims its
//! statements are.
#![tactic(auto)]

mod claims;
mod fit;
mod job;
mod report;
mod shape;

pub use claims::{Claimed, claims_of, first_other};
pub use fit::check_strategy;
pub use job::{Job, Mode};
pub use report::{Report, Verdict};
pub use sc_audit_errors::{AuditError, FitFault, ShapeFault};
pub use sc_svo::{Grid, Grids};
pub use sc_table::Strategy;
pub use shape::FittingJob;
