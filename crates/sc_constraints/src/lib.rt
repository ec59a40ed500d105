//! Groups of statements on a table's values, and their batch under the powers of one challenge.
//!
//! What a statement says, and the lists of one kind, are those of `sc_statements`, whose names are
//! passed on. A group is such a list, of whichever kind; contracts see it as the list of its
//! statements.
#![tactic(auto)]

mod constraint;
pub mod laws;
mod statement;

pub use constraint::Constraint;
pub use sc_statements::{
    Claim, EqIter, EqStatement, EqWeights, NextStatement, NextWeights, SelectIter, SelectStatement,
    SelectWeights, StatementList, Weights,
};
pub use statement::Statements;
