//! What masked rounds are made of, and what is seen of them.

use sc_table::Row;

/// The plain part of a round: a polynomial of degree two, up to what its claim tells.
#[derive(Clone, Copy, Debug)]
pub struct PlainPiece<EF> {
    /// The constant.
    pub c0: EF,
    /// The leading coefficient, which is that of the square.
    pub c_inf: EF,
}

/// What an observer sees of masks.
#[derive(Drop)]
pub struct RealView<EF> {
    /// The total of the masks: their sum over all bits.
    pub mu_tilde: EF,
    /// The wire of each round, the first round first: the coefficients of the round's polynomial,
    /// the constant first, without that of X.
    pub wires: Row<Row<EF>>,
}
