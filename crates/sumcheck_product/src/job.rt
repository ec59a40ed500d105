//! The job of `product`.
use sc_table::Row;
use sumcheck_members::{BuildOrCheck, Challenger, FieldName};

/// A proof of rounds over a product that is handed in, by the numbers of its elements.
#[derive(Drop)]
pub struct ProductProof {
    /// The sum that the rounds begin with.
    pub claimed: u64,
    /// The values that each round sends, however many they are.
    pub rounds: Row<Row<u64>>,
    /// The witness of each round, and none where there is no difficulty.
    pub witnesses: Row<u64>,
}

/// A job of `product`: tables whose product is summed over all rows, and a challenger. Elements
/// stand by their numbers.
#[derive(Drop)]
pub struct ProductJob {
    /// Over which fields.
    pub field: FieldName,
    /// What answers draws and tests.
    pub challenger: Challenger,
    /// The difficulty of each round's test in bits, at most 65,535, or 0 for no test.
    pub bits: u64,
    /// From 1 to 8 tables of elements of the base field, row 0 first, of any lengths.
    pub tables: Row<Row<u64>>,
    /// What is done with its rounds.
    pub mode: BuildOrCheck<ProductProof>,
}
