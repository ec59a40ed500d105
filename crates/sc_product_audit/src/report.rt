//! What is answered.
use sc_degree::GenericDegreeProof;
use sc_table::{Point, Row};
use std::fmt;

/// What rounds say of the claimed sum.
#[derive(Drop)]
pub enum ProductVerdict<EF> {
    /// The residual is the product of the tables' values, and the claimed sum is the true one.
    Holds,
    /// The residual is not the product of the tables' values: the rounds are refused.
    Refuted,
    /// The residual is that product, and the claimed sum is false, but this round, the first such
    /// one, made the claim true. The polynomial is what the round sent less the true one, in one
    /// coefficient more than there are tables, the constant first. It is not zero, but vanishes at
    /// the round's challenge; `vanishing` is the number of all elements at which it vanishes, at
    /// most as many as there are tables.
    LuckyRound {
        round: usize,
        poly: Row<EF>,
        vanishing: u64,
    },
}

/// What the verdict says, without the polynomial of a lucky one.
impl<EF> fmt::Display for ProductVerdict<EF> {
    ghost use Rattle.std.specs.Prelude.{Some};
    ghost use Rattle.sc_product_audit.specs.VerdictTexts.{verdict_text};

    ghost output = { λ v. Some (verdict_text v) };

    fn fmt<W: fmt::Write>(&self, f: &mut fmt::Formatter<W>) -> fmt::Result {
        match self {
            ProductVerdict::Holds => f.write_str("holds"),
            ProductVerdict::Refuted => f.write_str("refuted"),
            ProductVerdict::LuckyRound {
                round,
                vanishing,
                ..
            } => { write!(f, "lucky-round {round} vanishing {vanishing}") }
        }
    }
}

/// The report on rounds that were built or checked.
#[derive(Drop)]
pub struct ProductReport<F, EF> {
    /// The claimed sum and the rounds, as they were built or handed in.
    pub proof: GenericDegreeProof<F, EF>,
    /// The rounds' challenges, in drawing order.
    pub challenges: Point<EF>,
    /// What the rounds leave of the claimed sum.
    pub residual: EF,
    /// The product of the tables' values at the challenges.
    pub product: EF,
    /// What the rounds say of the claimed sum.
    pub verdict: ProductVerdict<EF>,
}
