//! The job of `audit`.
use sc_table::{Basis, Row, Strategy};
use sumcheck_members::Stated;

/// A proof that is handed in, by the numbers of its elements.
#[derive(Drop)]
pub struct Proof {
    /// The two values that each round sends.
    pub rounds: Row<(u64, u64)>,
    /// The witness of each round, and none where there is no difficulty.
    pub witnesses: Row<u64>,
}

/// What is done with a job.
#[derive(Drop)]
pub enum Mode {
    /// Its rounds are built, by a strategy.
    Build(Strategy),
    /// The rounds of a proof are checked. A table without a variable needs no proof.
    Check(Option<Proof>),
}

/// A job: what it states, what is done with it, and in which basis.
#[derive(Drop)]
pub struct Job {
    /// What it states.
    pub stated: Stated,
    /// What is done.
    pub mode: Mode,
    /// What the entries of the table and of the statements' weights are in the rounds: values at
    /// the rows, or coefficients of the monomials that the rows name.
    pub basis: Basis,
}
