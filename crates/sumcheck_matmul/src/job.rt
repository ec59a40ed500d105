//! The job of `matmul`.
use sc_table::Row;
use sumcheck_audit::Proof;
use sumcheck_members::{BuildOrCheck, Challenger, FieldName};

/// A job of `matmul`: two matrices, what is claimed to be their product, and a challenger. Elements
/// stand by their numbers.
#[derive(Drop)]
pub struct MatmulJob {
    /// Over which fields.
    pub field: FieldName,
    /// What answers draws and tests.
    pub challenger: Challenger,
    /// The difficulty of each round's test in bits, at most 65,535, or 0 for no test.
    pub bits: u64,
    /// The left matrix, row by row: one row or more, each of as many elements of the base field,
    /// one or more.
    pub left: Row<Row<u64>>,
    /// The right matrix, likewise.
    pub right: Row<Row<u64>>,
    /// What is claimed to be their product, likewise.
    pub claimed: Row<Row<u64>>,
    /// What is done with the rounds of the claim.
    pub mode: BuildOrCheck<Proof>,
}
