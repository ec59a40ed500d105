//! The job of `circuit`.
use sc_circuit::Gate;
use sc_table::Row;
use sumcheck_members::{BuildOrCheck, Challenger, FieldName};

/// What a proof sends for a layer, by the numbers of its elements.
#[derive(Drop)]
pub struct LayerGiven {
    /// The values that each round sends, however many they are.
    pub rounds: Row<Row<u64>>,
    /// The witness of each round, and none where there is no difficulty.
    pub witnesses: Row<u64>,
    /// The values of the layer below at the first half of the challenges, and at the second.
    pub left: u64,
    pub right: u64,
}

/// A job of `circuit`: layers of gates over inputs, what is claimed to be their outputs, and a
/// challenger. Elements stand by their numbers.
#[derive(Drop)]
pub struct CircuitJob {
    /// Over which fields.
    pub field: FieldName,
    /// What answers draws and tests.
    pub challenger: Challenger,
    /// The difficulty of each round's test in bits, at most 65,535, or 0 for no test.
    pub bits: u64,
    /// The inputs, elements of the base field, however many they are.
    pub inputs: Row<u64>,
    /// The gates of each layer, the outputs' layer first. Places are at most 65,535.
    pub layers: Row<Row<Gate>>,
    /// What is claimed to be the outputs, elements of the base field.
    pub outputs: Row<u64>,
    /// What is done with the layers' rounds.
    pub mode: BuildOrCheck<Row<LayerGiven>>,
}
