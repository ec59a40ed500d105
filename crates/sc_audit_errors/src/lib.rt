//! What can be said of a sumcheck: why there is no report, and what rounds say of statements.
//!
//! Refusals are the variants of [`AuditError`]; a finding is a word of the definitions, `Finding` in
//! `specs/Findings.antt`. Audits, rounds over a product and the texts of the program share them.
#![tactic(auto)]

mod error;
mod shape;

pub use error::{AuditError, FitFault, ShapeFault};
pub use shape::arity;
