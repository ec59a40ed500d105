//! The job of `veil`.
use sc_table::Row;
use sumcheck_members::Stated;

/// Masks that are written out, by the numbers of their elements.
#[derive(Drop)]
pub struct WrittenMasks {
    /// The coefficients of each mask, the constant first: all are of one length, from 1 to 64.
    pub messages: Row<Row<u64>>,
    /// What each mask is encoded with: 2 elements.
    pub randomness: Row<Row<u64>>,
}

/// Masks that are drawn from a generator.
#[derive(Drop)]
pub struct DrawnMasks {
    /// The seed of the generator.
    pub seed: u64,
    /// How many coefficients each mask has, from 1 to 64.
    pub length: u64,
}

/// Where masks come from.
#[derive(Drop)]
pub enum Masks {
    /// They are written out.
    Written(WrittenMasks),
    /// They are drawn.
    Drawn(DrawnMasks),
}

/// What rounds are played under.
#[derive(Drop)]
pub struct Veil {
    /// How many rounds are played, at most 64.
    pub rounds: u64,
    /// A mask for each of them.
    pub masks: Masks,
    /// What is added to the batched claim, and carried through the rounds.
    pub aux: u64,
}

/// A job of `veil`: what it states, and what its rounds are played under. Elements stand by their
/// numbers.
#[derive(Drop)]
pub struct VeilJob {
    /// What it states.
    pub stated: Stated,
    /// What its rounds are played under.
    pub veil: Veil,
}
