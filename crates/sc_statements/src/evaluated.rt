//! Weights with the values that are claimed under them.

// That the sum of a table's entries times the weights is `eval`.
#[derive(Drop)]
pub(crate) struct EvaluatedConstraint<W, EF> {
    pub(crate) weights: W,
    pub(crate) eval: EF,
}
