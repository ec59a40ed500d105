//! Claims on tables, and what is sent for them.
use sc_table::Point;
use sc_transcript::SumcheckData;

/// A claim on the value of a table at a point, or on that of the table of its next rows, in which
/// each row has the entry of the row after it, and the last one its own.
#[derive(Drop)]
pub struct OpeningClaim<EF> {
    /// The number of the table, counted from 0.
    pub table: usize,
    /// The point, with one coordinate for each variable.
    pub point: Point<EF>,
    /// Whether the value is that of the table of next rows.
    pub successor: bool,
    /// The claimed value.
    pub value: EF,
}

/// What is sent for claims.
#[derive(Drop)]
pub struct MergeProof<F, EF> {
    /// The rounds, one for each variable.
    pub rounds: SumcheckData<F, EF>,
    /// The value of each table at the challenges of the rounds.
    pub openings: Vec<EF>,
}
