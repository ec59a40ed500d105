//! The job of `explain`.
use sc_table::Row;
use sumcheck_members::FieldName;

/// A job of `explain`: what an observer sees of masked rounds, and what is masked. There are as
/// many masks as rounds. Elements of the extension stand by their numbers.
#[derive(Drop)]
pub struct ExplainJob {
    /// Over which fields.
    pub field: FieldName,
    /// What the plain pieces are multiplied by.
    pub eps: u64,
    /// The plain piece of each round, from 1 to 64: its constant and its leading coefficient.
    pub plain: Row<(u64, u64)>,
    /// The challenge of each round.
    pub challenges: Row<u64>,
    /// The total of the masks: their sum over all bits.
    pub mu: u64,
    /// The wire of each round: all are of one length, from 2 to 63.
    pub wires: Row<Row<u64>>,
    /// The endpoint of each mask but the first.
    pub endpoints: Row<u64>,
}
