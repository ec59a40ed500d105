//! Rounds over several tables in one: each table has its weights, and what is claimed is the sum
//! over all tables and rows of entry times weight.
//!
//! [`MergedTables`] measures and binds all tables, a round in one pass each, plays all rounds, and
//! [`find_turn`] finds the round that turned a false claim into the true one. The rounds are those
//! of `Merged` in `sc_soundness`, whose laws hold of them.
#![tactic(auto)]

mod play;
mod tables;
mod turn;
mod weighted;

pub use tables::MergedTables;
pub use turn::{FoundTurn, find_turn};
pub use weighted::WeightedPoly;
