//! The rounds of a layer, in time linear in its gates and in the values below.
ghost use Rattle.std.specs.Prelude.{◌≡◌, ◌+◌, ◌<◌, ◌≤◌, ◌^◌, [], All, IfOk, length, map};
ghost use Rattle.std.specs.Prelude.{vec_capacity, vec_len};
ghost use Rattle.sc_definitions.specs.Tables.{entries};
ghost use Rattle.sc_circuit_definitions.specs.LayerRounds.{gate_tables};
ghost use Rattle.sc_circuit.specs.Phases.{phase_in, SameRows, left_after, phase_after};

use crate::phase::PhaseTables;
use sc_circuit_definitions::Gate;
use sc_degree::RoundProver;
use sc_field::Field;
use sc_memory::{NoMemory, with_room};
use std::alloc::Global;

/// What plays the rounds of a layer of gates, which have these weights, over the values below.
///
/// Its first rounds bind the first places of the gates, and then as many bind the second ones. A
/// half of the rounds goes over three tables as long as the values below, which one walk over the
/// gates makes. All memory is taken when the prover is made.
#[derive(Drop)]
pub(crate) struct LayerProver<'a, EF: Field> {
    gates: &'a [Gate],
    weights: &'a [EF],
    below: &'a [EF],
    drawn: Vec<EF>,
    phase: PhaseTables<EF>,
    ghost left_places: { All (λ gate. gate.left < 2 ^ phase.variables) gates.now },
    ghost right_places: { All (λ gate. gate.right < 2 ^ phase.variables) gates.now },
    ghost weighed: { length gates.now ≤ length weights.now },
    ghost filled: { length below.now ≡ 2 ^ phase.variables },
    ghost room: { phase.variables + phase.variables ≤ vec_capacity drawn },
    ghost within: { vec_len drawn ≤ phase.variables + phase.variables },
    ghost left: { phase.left ≡ left_after phase.variables (vec_len drawn) },
    ghost stands: { vec_len drawn < phase.variables + phase.variables
        → SameRows (2 ^ phase.left) (phase_in EF.number phase) (phase_after EF.ops
        (gate_tables EF.ops phase.variables (entries EF.number weights.now)
        (entries EF.number below.now) gates.now) (map EF.number drawn.items)) },
}

impl<'a, EF: Field> LayerProver<'a, EF> {
    // The prover of these gates, before all challenges.
    pub(crate) fn new(
        alloc: Global,
        gates: &'a [Gate],
        weights: &'a [EF],
        below: &'a [EF],
        variables: usize,
    ) -> Result<Self, NoMemory>
        requires few { variables ≤ 8 }
        requires weights { length gates.now ≤ length weights.now }
        requires below { length below.now ≡ 2 ^ variables }
        requires left { All (λ gate. gate.left < 2 ^ variables) gates.now }
        requires right { All (λ gate. gate.right < 2 ^ variables) gates.now }
        ensures tables { IfOk result (λ p. gate_tables EF.ops p.phase.variables
            (entries EF.number p.weights.now) (entries EF.number p.below.now) p.gates.now
            ≡ gate_tables EF.ops variables (entries EF.number weights.now)
            (entries EF.number below.now) gates.now) }
        ensures drawn { IfOk result (λ p. p.drawn.items ≡ []) }
    {
        let drawn = with_room(alloc, variables + variables)?;
        let mut phase = PhaseTables::new(alloc, variables)?;
        phase.begin_first(gates, weights, below);
        Ok(LayerProver {
            gates,
            weights,
            below,
            drawn,
            phase,
        })
    }
}

impl<'a, EF: Field> RoundProver<EF> for LayerProver<'a, EF> {
    ghost use Rattle.sc_circuit.specs.Provers.{layer_prover};
    ghost use Rattle.sc_circuit.specs.TiedLaws.{layer-tied};

    ghost meaning = { λ p. layer_prover EF.ops (gate_tables EF.ops p.phase.variables
        (entries EF.number p.weights.now) (entries EF.number p.below.now) p.gates.now)
        (map EF.number p.drawn.items) };

    ghost tied = { λ p. layer-tied EF.ops EF.is_field.ring (gate_tables EF.ops p.phase.variables
        (entries EF.number p.weights.now) (entries EF.number p.below.now) p.gates.now)
        (map EF.number p.drawn.items) };

    fn degree(&self) -> usize {
        2
    }

    fn num_variables(&self) -> usize {
        self.phase.variables() + self.phase.variables() - self.drawn.len()
    }

    fn fold(&mut self, r: EF) {
        self.drawn.push_reserved(r);
        if self.drawn.len() == self.phase.variables() {
            self.phase.begin_second(self.gates, self.weights, self.below, self.drawn.as_slice());
        } else {
            self.phase.bind(r);
        }
    }

    fn round_poly(&self, alloc: Global) -> Result<Vec<EF>, NoMemory> {
        let mut values = with_room(alloc, 2)?;
        values.push_reserved(self.phase.sum_at(EF::ZERO));
        values.push_reserved(self.phase.sum_at(EF::interpolation_node(2)));
        Ok(values)
    }
}
