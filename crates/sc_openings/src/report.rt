//! What is answered of claims on tables.
use crate::claim::MergeProof;
use sc_table::{Point, Row};
use std::fmt;

/// What rounds and openings say of claims.
#[derive(Drop)]
pub enum MergeVerdict<EF> {
    /// The residual and the openings match, and every claim is true.
    Holds,
    /// The residual is not the sum of the openings times the weights' values, or an opening is not
    /// its table's value at the challenges: the proof is refused.
    Refuted,
    /// They match, and a claim is false, but the merged claim is the true one. The polynomial has
    /// claimed less true value of each claim as coefficients, the first one the constant. It is not
    /// zero, but vanishes at the challenge that merges the claims; `vanishing` is the number of all
    /// elements at which it vanishes, fewer than there are claims.
    LuckyBatch {
        poly: Row<EF>,
        vanishing: u64,
    },
    /// They match, and the merged claim is false, but this round, the first such one, made it true.
    /// The polynomial is what the round sent less the true one, in three coefficients, the constant
    /// first. It is not zero, but vanishes at the round's challenge; `vanishing` is the number of
    /// all elements at which it vanishes, at most 2.
    LuckyRound {
        round: usize,
        poly: Row<EF>,
        vanishing: u64,
    },
}

/// What the verdict says, without the polynomial of a lucky one.
impl<EF> fmt::Display for MergeVerdict<EF> {
    ghost use Rattle.std.specs.Prelude.{Some};
    ghost use Rattle.sc_openings.specs.VerdictTexts.{verdict_text};

    ghost output = { λ v. Some (verdict_text v) };

    fn fmt<W: fmt::Write>(&self, f: &mut fmt::Formatter<W>) -> fmt::Result {
        match self {
            MergeVerdict::Holds => f.write_str("holds"),
            MergeVerdict::Refuted => f.write_str("refuted"),
            MergeVerdict::LuckyBatch { vanishing, .. } => {
                write!(f, "lucky-batch vanishing {vanishing}")
            }
            MergeVerdict::LuckyRound {
                round,
                vanishing,
                ..
            } => { write!(f, "lucky-round {round} vanishing {vanishing}") }
        }
    }
}

/// The report on rounds and openings that were built or checked.
#[derive(Drop)]
pub struct MergeReport<F, EF> {
    /// The merged claim: the sum of the claimed values, each times the power of the merging
    /// challenge by its place.
    pub claim: EF,
    /// The rounds and openings, as they were built or handed in.
    pub proof: MergeProof<F, EF>,
    /// The challenges of the rounds, in drawing order.
    pub challenges: Point<EF>,
    /// What the rounds leave of the merged claim.
    pub residual: EF,
    /// The value of each table's weights at the challenges.
    pub weights: Row<EF>,
    /// What the rounds and openings say of the claims.
    pub verdict: MergeVerdict<EF>,
}
