//! What is refused before a layer is played.
ghost use Rattle.std.specs.Prelude.{◌≡◌, length, map};
ghost use Rattle.std.specs.Result.{result_err};
ghost use Rattle.sc_soundness.specs.Differences.{first_difference};
ghost use Rattle.sc_circuit.specs.Refusals.{output_fault, difficulty_fault};
ghost use Rattle.sc_circuit.specs.Refusals.{told_output, layers_fault};

use crate::error::CircuitError;
use sc_field::Field;

// There are as many outputs as expected.
pub(crate) fn test_outputs(expected: usize, actual: usize) -> Result<(), CircuitError>
    ensures { result_err result ≡ output_fault expected actual }
{
    if actual != expected {
        return Err(CircuitError::OutputCount { expected, actual });
    }
    Ok(())
}

// The difficulty is at most the challenger's greatest one.
pub(crate) fn test_difficulty(bits: usize, bound: usize) -> Result<(), CircuitError>
    ensures { result_err result ≡ difficulty_fault bits bound }
{
    if bits > bound {
        return Err(CircuitError::Difficulty { bits, bound });
    }
    Ok(())
}

// As many layers came as expected.
pub(crate) fn test_layers(expected: usize, actual: usize) -> Result<(), CircuitError>
    ensures { result_err result ≡ layers_fault expected actual }
{
    if actual != expected {
        return Err(CircuitError::LayerCount { expected, actual });
    }
    Ok(())
}

// Each output is the value of its gate, of which there are as many.
pub(crate) fn test_values<F: Field>(outputs: &[F], values: &[F]) -> Result<(), CircuitError>
    requires { length outputs.now ≡ length values.now }
    ensures { result_err result
        ≡ told_output (first_difference 0 (map F.number outputs.now) (map F.number values.now)) }
{
    for gate in 0..outputs.len() {
        let (claimed, actual) = (outputs[gate].index(), values[gate].index());
        if claimed != actual {
            return Err(CircuitError::FalseOutput {
                gate,
                claimed,
                actual,
            });
        }
    }
    Ok(())
}
