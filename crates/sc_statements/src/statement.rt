//! The kinds of statements, each in a list of its own.

mod eq;
mod next;
mod select;

pub use eq::{EqIter, EqStatement, EqWeights};
pub use next::{NextStatement, NextWeights};
pub use select::{SelectIter, SelectStatement, SelectWeights};
