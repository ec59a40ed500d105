//! What a job is made of.
use sc_table::Strategy;

/// What a job is made of, how its rounds are built aside.
#[derive(Clone, Copy, Debug, PartialEq, Eq)]
pub struct Recipe {
    /// How many variables its table has, from 1 to 24.
    pub variables: usize,
    /// The number that its values begin with, from 0 to 65536.
    pub number: u64,
    /// How its rounds are built. Small-value rounds are for as many variables as there are, at most
    /// 8.
    pub strategy: Strategy,
}
