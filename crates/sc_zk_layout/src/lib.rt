//! Masked rounds of a layout: a prover of all that is recorded of a table, whose rounds are read
//! off grids and go under masks, and what it hands on.
#![tactic(auto)]

mod grid_rounds;
mod layout;
mod played;
mod prover;
mod scaled;

pub use grid_rounds::GridRounds;
pub use layout::ZkLayout;
pub use prover::{ZkPrefixProver, ZkProver, ZkSuffixProver};
