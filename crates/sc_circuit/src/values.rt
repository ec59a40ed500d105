//! The values of a layer.
ghost use Rattle.std.specs.Prelude.{◌≡◌, ◌<◌, IfOk, length, map};
ghost use Rattle.sc_definitions.specs.Tables.{rows_of};
ghost use Rattle.sc_circuit_definitions.specs.Circuits.{gate_value, PlacesBelow};

use sc_circuit_definitions::Gate;
use sc_field::{ExtensionField, Field};
use sc_memory::{NoMemory, with_room};
use std::alloc::Global;

// The values of a layer's gates over those of the layer below.
pub(crate) fn values_over<F: Field>(
    alloc: Global,
    gates: &[Gate],
    below: &[F],
) -> Result<Vec<F>, NoMemory>
    requires { PlacesBelow (length below.now) gates.now }
    ensures { IfOk result (λ values. map F.number values.items
        ≡ map (gate_value F.ops (rows_of (map F.number below.now))) gates.now) }
{
    let mut values = with_room(alloc, gates.len())?;
    for gate in gates {
        values.push(value_over(*gate, below))?;
    }
    Ok(values)
}

// The images of a layer's values.
pub(crate) fn images<F: Field, EF: ExtensionField<F>>(
    alloc: Global,
    values: &[F],
) -> Result<Vec<EF>, NoMemory>
    ensures { IfOk result (λ v. map EF.number v.items
        ≡ map EF.embedding (map F.number values.now)) }
{
    let mut images = with_room(alloc, values.len())?;
    for value in values {
        images.push(EF::embed(*value))?;
    }
    Ok(images)
}

// The value of a gate over those of the layer below.
fn value_over<F: Field>(gate: Gate, below: &[F]) -> F
    requires left { gate.left < length below.now }
    requires right { gate.right < length below.now }
    ensures { F.number result ≡ gate_value F.ops (rows_of (map F.number below.now)) gate }
{
    let (left, right) = (below[gate.left], below[gate.right]);
    if gate.product {
        left.mul(right)
    } else {
        left.add(right)
    }
}
