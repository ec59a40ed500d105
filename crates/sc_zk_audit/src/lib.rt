//! Rounds under masks as one call: they are played on a table with true statements, and replayed.
//!
//! [`audit_masked`] answers the report, or why there is none, for every field, extension, code,
//! commitment and challenger. What it answers is one function of the definitions, `masked_answer`
//! in `specs/MaskedReports.antt`.
#![tactic(auto)]

mod audit;
mod error;
mod job;
mod proving;
mod refusals;
mod report;
mod shape;

pub use audit::audit_masked;
pub use error::MaskedError;
pub use job::MaskedJob;
pub use report::MaskedReport;
pub use sc_audit_errors::ShapeFault;
pub use sc_zk_rounds::MaskedRun;
