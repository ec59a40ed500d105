//! What an audit of a circuit refuses.
use sc_degree::GenericDegreeError;
use sc_memory::NoMemory;
use thiserror::Error;

/// Why there is no circuit, or no report on one. The refusals are tested in this order, but that
/// [`CircuitError::NoMemory`] may come before any other. Layers, gates and rounds are counted from
/// 0.
#[derive(Clone, Copy, Debug, PartialEq, Eq, Error)]
pub enum CircuitError {
    /// There is no layer, or there are more than 32.
    #[error("a circuit of {layers} layers: it has from 1 to 32")]
    Depth {
        layers: usize,
    },
    /// The length of this layer, the inputs being the last, is no power of two up to 256.
    #[error("layer {layer} has {len} values, which are no power of two up to 256")]
    Width {
        layer: usize,
        len: usize,
    },
    /// This gate names a place past the layer below.
    #[error("gate {gate} of layer {layer} names a place past the layer below")]
    Wire {
        layer: usize,
        gate: usize,
    },
    /// There are more or fewer outputs than layer 0 has gates.
    #[error("expected {expected} outputs, but {actual} came")]
    OutputCount {
        expected: usize,
        actual: usize,
    },
    /// The difficulty is above the challenger's greatest one.
    #[error("the difficulty of {bits} bits is above the greatest one, {bound}")]
    Difficulty {
        bits: usize,
        bound: usize,
    },
    /// The layers are to be built, and this is the first output that is false. Both values are
    /// numbers of elements.
    #[error("output {gate} is claimed to be {claimed}, but it is {actual}")]
    FalseOutput {
        gate: usize,
        claimed: u64,
        actual: u64,
    },
    /// The proof has another number of layers than the circuit.
    #[error("expected {expected} layers, but the proof has {actual}")]
    LayerCount {
        expected: usize,
        actual: usize,
    },
    /// The rounds of this layer, the first such one, are refused.
    #[error("layer {layer}: {error}")]
    Layer {
        layer: usize,
        error: GenericDegreeError,
    },
    /// The layers are to be built, and no element of the base field passes the test of this round.
    #[error("no witness passes in round {round} of layer {layer}")]
    NoWitness {
        layer: usize,
        round: usize,
    },
    /// A call wanted more memory than there was.
    #[error("out of memory")]
    NoMemory,
}

impl From<NoMemory> for CircuitError {
    ghost use Rattle.std.specs.Prelude.{◌≡◌};
    ghost use Rattle.sc_circuit.specs.declared.error.CircuitError.TheVariants as errors;

    ghost from_gives = { λ _ e. e ≡ errors.NoMemory };

    fn from(_error: NoMemory) -> CircuitError {
        CircuitError::NoMemory
    }
}
