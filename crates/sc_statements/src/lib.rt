//! Statements on a table's values, in lists of one kind, and what is taken from them one after the
//! other.
//!
//! A statement says that a table has a given value at a given point, or through the successor map, or
//! that the sum of its entries times powers or products has a given value. Contracts see a statement
//! as a `Statement` of the definitions, its elements by their numbers, and a list of one kind as the
//! list of them.
#![tactic(auto)]

mod claim;
mod evaluated;
pub mod list;
mod statement;
mod weights;

pub use claim::Claim;
pub use list::StatementList;
pub use statement::{
    EqIter, EqStatement, EqWeights, NextStatement, NextWeights, SelectIter, SelectStatement,
    SelectWeights,
};
pub use weights::Weights;
