//! The job of `openings`.
use sc_table::Row;
use sumcheck_audit::Proof;
use sumcheck_members::{BuildOrCheck, Challenger, FieldName};

/// A claim on a table, by the numbers of its elements.
#[derive(Drop)]
pub struct ClaimGiven {
    /// The number of the table, counted from 0, at most 65,535, whether there is such a table or
    /// not.
    pub table: u64,
    /// The point, elements of the extension, however many they are.
    pub point: Row<u64>,
    /// Whether the value is that of the table of next rows.
    pub successor: bool,
    /// The claimed value, an element of the extension.
    pub value: u64,
}

/// What a proof sends for claims, by the numbers of its elements.
#[derive(Drop)]
pub struct ProofGiven {
    /// The two values that each round sends, and the witnesses.
    pub rounds: Proof,
    /// The tables' values at the challenges, elements of the extension, however many they are.
    pub openings: Row<u64>,
}

/// A job of `openings`: tables, claims on them, and a challenger. Elements stand by their numbers.
#[derive(Drop)]
pub struct OpeningsJob {
    /// Over which fields.
    pub field: FieldName,
    /// What answers draws and tests.
    pub challenger: Challenger,
    /// The difficulty of each round's test in bits, at most 65,535, or 0 for no test.
    pub bits: u64,
    /// From 1 to 64 tables of elements of the base field, row 0 first, of any lengths.
    pub tables: Row<Row<u64>>,
    /// How many variables each table has, at most 64.
    pub variables: u64,
    /// The claims, at most 4,096.
    pub claims: Row<ClaimGiven>,
    /// What is done with the rounds and openings.
    pub mode: BuildOrCheck<ProofGiven>,
}
