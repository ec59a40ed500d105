//! What is answered of a circuit.
use crate::proof::CircuitProof;
use sc_memory::Row;
use std::fmt;

/// What the layers say of the outputs.
#[derive(Drop)]
pub enum CircuitVerdict<EF> {
    /// All layers agree, and the outputs are the circuit's.
    Holds,
    /// This layer, the first such one, does not agree.
    Refuted {
        layer: usize,
    },
    /// All layers agree although an output is false, and the claim of this layer is the true one
    /// although what it was made of is not. The polynomial is not zero, but vanishes at the
    /// challenge that made the claim.
    LuckyMerge {
        layer: usize,
        poly: Row<EF>,
        vanishing: u64,
    },
    /// The same, and this round turned the false claim of its layer into the true one.
    LuckyRound {
        layer: usize,
        round: usize,
        poly: Row<EF>,
        vanishing: u64,
    },
}

/// What the verdict says, without the polynomial of a lucky one.
impl<EF> fmt::Display for CircuitVerdict<EF> {
    ghost use Rattle.std.specs.Prelude.{Some};
    ghost use Rattle.sc_circuit.specs.VerdictTexts.{verdict_text};

    ghost output = { λ v. Some (verdict_text v) };

    fn fmt<W: fmt::Write>(&self, f: &mut fmt::Formatter<W>) -> fmt::Result {
        match self {
            CircuitVerdict::Holds => f.write_str("holds"),
            CircuitVerdict::Refuted { layer } => write!(f, "refuted layer {layer}"),
            CircuitVerdict::LuckyMerge {
                layer,
                vanishing,
                ..
            } => { write!(f, "lucky-merge layer {layer} vanishing {vanishing}") }
            CircuitVerdict::LuckyRound {
                layer,
                round,
                vanishing,
                ..
            } => {
                write!(
                    f,
                    "lucky-round layer {layer} round {round} vanishing {vanishing}"
                )
            }
        }
    }
}

/// The report on layers that were built or checked.
#[derive(Drop)]
pub struct CircuitReport<F, EF> {
    /// The claim on the outputs.
    pub claim: EF,
    /// The layers, as they were built or handed in.
    pub proof: CircuitProof<F, EF>,
    /// The challenges of each layer's rounds.
    pub challenges: Row<Row<EF>>,
    /// The challenges that merge the two values of each layer.
    pub merges: Row<EF>,
    /// The claim on the inputs.
    pub last: EF,
    /// What the layers say of the outputs.
    pub verdict: CircuitVerdict<EF>,
}
