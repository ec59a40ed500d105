//! A sumcheck as one call: a table, statements on it, and either the rounds are built, or those of
//! a proof are checked.
//!
//! [`audit`] answers the report with its verdict, or why there is none, for every field, extension,
//! representation and challenger.
#![tactic(auto)]

mod audits;
mod building;
mod checking;
mod common;
pub mod laws;
mod small_value;
mod stating;
mod strategies;
mod verdict;
mod ways;

pub use audits::{audit, audit_true};
pub use sc_audit_errors::{AuditError, FitFault, ShapeFault};
pub use sc_jobs::{Job, Mode, Report, Verdict};
pub use sc_svo::{Grid, Grids};
pub use sc_table::Strategy;
