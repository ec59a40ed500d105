//! The replay of a layer.
ghost use Rattle.std.specs.Prelude.{◌≡◌, ◌≤◌, ◌++◌, [], ◌∷◌, IfOk, OnErr, OnOk, map, replicate};
ghost use Rattle.sc_definitions.specs.declared.events.Event.TheVariants.{Draw};
ghost use Rattle.sc_definitions.specs.Events.{extension_draw};
ghost use Rattle.sc_definitions.specs.Transcript.{sent};
ghost use Rattle.sc_challenger.specs.Parties.{channel_by};
ghost use Rattle.sc_degree.specs.Proofs.{proof_wire};
ghost use Rattle.sc_circuit.specs.Runs.{layer_in, LeavesRun};

use crate::proof::LayerProof;
use sc_challenger::{Challenger, observe_ext, sample_ext};
use sc_degree::{GenericDegreeError, GenericDegreeProof};
use sc_field::{ExtensionField, Field};
use sc_memory::{NoMemory, with_room};
use sc_table::Point;
use std::alloc::Global;

// What the replay of a layer gives: the challenges of its rounds, what they leave of its claim, and
// the challenge that merges its two values.
#[derive(Drop)]
pub(crate) struct ReplayedLayer<EF> {
    pub challenges: Point<EF>,
    pub residual: EF,
    pub merge: EF,
}

// Replays the rounds that came for a layer, as many as expected, under a claim, and draws the
// challenge that merges its two values.
pub(crate) fn replay_layer<F: Field, EF: ExtensionField<F>, C: Challenger<F>>(
    alloc: Global,
    layer: &LayerProof<F, EF>,
    claim: EF,
    num_rounds: usize,
    pow_bits: usize,
    challenger: &mut C,
) -> Result<ReplayedLayer<EF>, GenericDegreeError>
    requires { pow_bits ≤ (C.party challenger.old).rules.max_bits }
    ensures rules { (C.party challenger.new).rules ≡ (C.party challenger.old).rules }
    ensures left { LeavesRun EF.number (record {
      ops = EF.ops;
      channel = channel_by (C.party challenger.old) EF.extension F.ops.size pow_bits;
      rounds = num_rounds;
      claim = EF.number claim;
      history = (C.party challenger.old).history;
    }) (layer_in F.number EF.number layer.now) result (C.party challenger.new).history }
{
    let rounds = rounds_under(alloc, layer, claim)?;
    let (challenges, residual) = rounds.verify(alloc, challenger, num_rounds, 2, pow_bits)?;
    let merge = merge_values(challenger, layer.left, layer.right)?;
    Ok(ReplayedLayer {
        challenges,
        residual,
        merge,
    })
}

// The rounds that came for a layer, under a claim, as a proof of their own.
fn rounds_under<F: Field, EF: Field>(
    alloc: Global,
    layer: &LayerProof<F, EF>,
    claim: EF,
) -> Result<GenericDegreeProof<F, EF>, NoMemory>
    ensures claim { IfOk result (λ p. p.claimed_sum ≡ claim) }
    ensures came { IfOk result (λ p. proof_wire F.number EF.number p
        ≡ (layer_in F.number EF.number layer.now).wire) }
{
    let round_polys = copied_values(alloc, &layer.round_polys)?;
    let pow_witnesses = Vec::from_slice(alloc, &layer.pow_witnesses)?;
    Ok(GenericDegreeProof {
        claimed_sum: claim,
        round_polys,
        pow_witnesses,
    })
}

// The values of rounds again.
pub(crate) fn copied_values<EF: Field>(
    alloc: Global,
    rounds: &[Vec<EF>],
) -> Result<Vec<Vec<EF>>, NoMemory>
    ensures { IfOk result (λ v. map (λ values. map EF.number values.items) v.items
        ≡ map (λ values. map EF.number values.items) rounds.now) }
{
    let mut found = with_room(alloc, rounds.len())?;
    for values in rounds {
        found.push(Vec::from_slice(alloc, values.as_slice())?)?;
    }
    Ok(found)
}

// Observes the two values of a layer, and draws the challenge that merges them. A refusal leaves
// the history as it was.
pub(crate) fn merge_values<F: Field, EF: ExtensionField<F>, C: Challenger<F>>(
    challenger: &mut C,
    left: EF,
    right: EF,
) -> Result<EF, NoMemory>
    ensures rules { (C.party challenger.new).rules ≡ (C.party challenger.old).rules }
    ensures merge { IfOk result (λ x. EF.number x ≡ extension_draw (C.party challenger.old).rules
        EF.extension ((C.party challenger.old).history
        ++ sent EF.extension (EF.number left ∷ EF.number right ∷ []))) }
    ensures history { OnOk result ((C.party challenger.new).history
        ≡ (C.party challenger.old).history
        ++ sent EF.extension (EF.number left ∷ EF.number right ∷ [])
        ++ replicate EF.DEGREE Draw) }
    ensures unmoved { OnErr result ((C.party challenger.new).history
        ≡ (C.party challenger.old).history) }
{
    challenger.reserve(EF::DEGREE + EF::DEGREE + EF::DEGREE)?;
    observe_ext::<F, EF, C>(challenger, left).unwrap();
    observe_ext::<F, EF, C>(challenger, right).unwrap();
    Ok(sample_ext::<F, EF, C>(challenger).unwrap())
}
