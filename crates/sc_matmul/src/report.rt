//! What is answered of a claimed product.
use sc_table::{Point, Row};
use sc_transcript::SumcheckData;
use std::fmt;

/// What rounds say of a claimed product.
#[derive(Drop)]
pub enum MatmulVerdict<EF> {
    /// The residual is the product of the two tables' values, and every claimed entry is true.
    Holds,
    /// The residual is not the product of the two tables' values: the rounds are refused.
    Refuted,
    /// The residual is that product, and an entry is false, but the claim is the true one. The
    /// polynomial has claimed less true entries as coefficients, row by row, the first one the
    /// constant. It is not zero, but vanishes at the point; `vanishing` is the number of all
    /// elements at which it vanishes, fewer than there are entries.
    LuckyPoint {
        poly: Row<EF>,
        vanishing: u64,
    },
    /// The residual is that product, and the claim is false, but this round, the first such one,
    /// made it true. The polynomial is what the round sent less the true one, in three
    /// coefficients, the constant first. It is not zero, but vanishes at the round's challenge;
    /// `vanishing` is the number of all elements at which it vanishes, at most 2.
    LuckyRound {
        round: usize,
        poly: Row<EF>,
        vanishing: u64,
    },
}

/// What the verdict says, without the polynomial of a lucky one.
impl<EF> fmt::Display for MatmulVerdict<EF> {
    ghost use Rattle.std.specs.Prelude.{Some};
    ghost use Rattle.sc_matmul.specs.VerdictTexts.{verdict_text};

    ghost output = { λ v. Some (verdict_text v) };

    fn fmt<W: fmt::Write>(&self, f: &mut fmt::Formatter<W>) -> fmt::Result {
        match self {
            MatmulVerdict::Holds => f.write_str("holds"),
            MatmulVerdict::Refuted => f.write_str("refuted"),
            MatmulVerdict::LuckyPoint { vanishing, .. } => {
                write!(f, "lucky-point vanishing {vanishing}")
            }
            MatmulVerdict::LuckyRound {
                round,
                vanishing,
                ..
            } => { write!(f, "lucky-round {round} vanishing {vanishing}") }
        }
    }
}

/// The report on rounds that were built or checked.
#[derive(Drop)]
pub struct MatmulReport<F, EF> {
    /// The point that was drawn after the entries.
    pub point: EF,
    /// The sum of the claimed entries, each times the power of the point by its place, row by row.
    pub claim: EF,
    /// The rounds, as they were built or handed in.
    pub rounds: SumcheckData<F, EF>,
    /// Their challenges, in drawing order.
    pub challenges: Point<EF>,
    /// What the rounds leave of the claim.
    pub residual: EF,
    /// The value at the challenges of the left table: the left matrix with its rows added up, each
    /// times the power of the point where its row of the product begins.
    pub left: EF,
    /// The value there of the right table: the right matrix with its columns added up, each times
    /// the power of the point by its place.
    pub right: EF,
    /// What the rounds say of the claimed entries.
    pub verdict: MatmulVerdict<EF>,
}
