//! What is answered.
use sc_svo::Grids;
use sc_table::{Point, Row};
use sc_transcript::SumcheckData;
use std::fmt;

/// What rounds say of the statements.
#[derive(Drop)]
pub enum Verdict<EF> {
    /// The residual is the product of the two values, and every statement is true of the table.
    Holds,
    /// The residual is not the product of the two values: the rounds are refused.
    Refuted,
    /// The residual is right, and a statement is false, but the batched claim is true. The polynomial is claimed less true value of each statement,
    /// after as many zeros as the initial power says, the constant first. It is not zero, but vanishes at the batching challenge; `vanishing` is the
    /// number of all elements at which it vanishes, which is less than that of its coefficients.
    LuckyBatch {
        poly: Row<EF>,
        vanishing: u64,
    },
    /// The residual is right, and the batched claim is false, but this round, the first such one, made it true. The polynomial is what the round sent
    /// less the true one, in three coefficients, the constant first. It is not zero, but vanishes at the round's challenge; `vanishing` is the number of
    /// all elements at which it vanishes, at most 2.
    LuckyRound {
        round: usize,
        poly: Row<EF>,
        vanishing: u64,
    },
}

/// What the verdict says, without the polynomial of a lucky one.
impl<EF> fmt::Display for Verdict<EF> {
    ghost use Rattle.std.specs.Prelude.{Some};
    ghost use Rattle.sc_jobs.specs.VerdictTexts.{verdict_text};

    ghost output = { λ v. Some (verdict_text v) };

    fn fmt<W: fmt::Write>(&self, f: &mut fmt::Formatter<W>) -> fmt::Result {
        match self {
            Verdict::Holds => f.write_str("holds"),
            Verdict::Refuted => f.write_str("refuted"),
            Verdict::LuckyBatch { vanishing, .. } => write!(f, "lucky-batch vanishing {vanishing}"),
            Verdict::LuckyRound {
                round,
                vanishing,
                ..
            } => { write!(f, "lucky-round {round} vanishing {vanishing}") }
        }
    }
}

/// The report on rounds that were built or checked.
#[derive(Drop)]
pub struct Report<F, EF> {
    /// The batched claim: the sum of the claimed values times the powers of the batching challenge.
    pub claim: EF,
    /// The rounds, as they were built or handed in.
    pub rounds: SumcheckData<F, EF>,
    /// Their challenges, in drawing order.
    pub challenges: Point<EF>,
    /// What the rounds leave of the claim.
    pub residual: EF,
    /// The value of the table at the challenges, which are taken from the last to the first in suffix order.
    pub eval: EF,
    /// The value of the batched weights there.
    pub weight: EF,
    /// The grids of small-value rounds; none for other builds, and none for a proof.
    pub grids: Grids<EF>,
    /// What the rounds say of the statements.
    pub verdict: Verdict<EF>,
}
