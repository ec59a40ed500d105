//! The steps of a masked batch.

/// A step of a masked batch.
#[derive(Clone, Copy, Debug, PartialEq, Eq)]
pub enum ZkStep {
    /// The batching challenge is drawn, or a claim is observed.
    Prelude,
    /// The masks are observed, and the combination is drawn.
    Masks,
    /// This round is played, counted from 0.
    Round(usize),
    /// All rounds were played.
    Done,
}

/// How much of a masked batch stands before the next step.
#[derive(Clone, Copy, Debug, PartialEq, Eq)]
pub enum ZkHead {
    /// The seed alone.
    Seed,
    /// The first step too.
    Prelude,
    /// The masks too, so that the rounds are next.
    Masks,
}
