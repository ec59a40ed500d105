//! What the replay of layers has reached.
ghost use Rattle.std.specs.Prelude.{◌≡◌, ◌+◌, ◌<◌, ◌≤◌, ◌^◌, All, OnOk, length, map};
ghost use Rattle.sc_circuit.specs.Options.{or_first, disagreement_at};

use crate::replay::ReplayedLayer;
use crate::weights::{equality_weights, gates_value};
use sc_circuit_definitions::Gate;
use sc_field::Field;
use sc_memory::{NoMemory, Row};
use sc_table::add_scaled;
use std::alloc::Global;

// The claim on the next layer and the weights of its values, and of the layers before it the
// challenges of their rounds, those that merge their two values, and the first one that does not
// agree.
#[derive(Drop)]
pub(crate) struct Reached<EF> {
    pub claim: EF,
    pub weights: Vec<EF>,
    pub challenges: Vec<Row<EF>>,
    pub merges: Vec<EF>,
    pub disagreement: Option<usize>,
}

impl<EF: Field> Reached<EF> {
    ghost use Rattle.sc_circuit.specs.Steps.{TakesPlayed};

    // Goes on to the layer below, of so many variables, after this layer of gates was replayed. The
    // values are the two that came.
    pub(crate) fn take(
        &mut self,
        alloc: Global,
        layer: usize,
        gates: &[Gate],
        variables: usize,
        values: (EF, EF),
        replayed: &ReplayedLayer<EF>,
    ) -> Result<(), NoMemory>
        requires few { variables ≤ 8 }
        requires halves { length replayed.now.challenges ≡ variables + variables }
        requires weights { length gates.now ≤ length self.old.weights.items }
        requires left { All (λ gate. gate.left < 2 ^ variables) gates.now }
        requires right { All (λ gate. gate.right < 2 ^ variables) gates.now }
        ensures { OnOk result (TakesPlayed EF.ops EF.number gates.now layer
            (EF.number replayed.now.residual) (record {
              variables = variables;
              challenges = map EF.number replayed.now.challenges;
              left = EF.number values.0;
              right = EF.number values.1;
              merge = EF.number replayed.now.merge;
            })
            self.old self.new) }
    {
        let (left, right) = values;
        let challenges = replayed.challenges.as_slice();
        let mut first = equality_weights(alloc, &challenges[..variables])?;
        let second = equality_weights(alloc, &challenges[variables..])?;
        let value = gates_value(gates, &self.weights, &first, &second, left, right);
        self.disagreement = first_of(self.disagreement, layer, replayed.residual, value);
        add_scaled::<EF, EF>(first.as_mut_slice(), &second, replayed.merge);
        self.weights = first;
        self.claim = left.add(replayed.merge.mul(right));
        self.merges.push(replayed.merge)?;
        self.challenges
            .push(Row::new(Vec::from_slice(alloc, challenges)?))?;
        Ok(())
    }
}

// The first disagreement, after a layer whose rounds left `rest` of its claim and sum `value`.
pub(crate) fn first_of<EF: Field>(
    disagreement: Option<usize>,
    layer: usize,
    rest: EF,
    value: EF,
) -> Option<usize>
    ensures { result ≡ or_first disagreement
        (disagreement_at layer (EF.number rest) (EF.number value)) }
{
    if disagreement.is_some() || rest.index() == value.index() {
        disagreement
    } else {
        Some(layer)
    }
}
