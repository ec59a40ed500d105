//! Where the layers begin: the outputs are observed, and the challenge that is drawn after them
//! makes the claim on them.
ghost use Rattle.std.specs.Prelude.{◌≡◌, ◌≤◌, [], IfOk, OnErr, OnOk, length, map};
ghost use Rattle.sc_definitions.specs.Events.{words};
ghost use Rattle.sc_definitions.specs.Ring.{power};
ghost use Rattle.sc_definitions.specs.Statements.{batched_by_powers};
ghost use Rattle.sc_definitions.specs.Tables.{entries};
ghost use Rattle.sc_challenger.specs.Parties.{Appends};
ghost use Rattle.sc_circuit_definitions.specs.CircuitPlays.{first_start, output_challenge};
ghost use Rattle.sc_circuit.specs.CircuitJobs.{fields, case_by};
ghost use Rattle.sc_circuit.specs.Steps.{AreSame};

use crate::asked::Asked;
use crate::reached::Reached;
use crate::weights::{power_weights, weighted};
use sc_challenger::{Challenger, sample_ext};
use sc_field::{ExtensionField, Field};
use sc_memory::NoMemory;
use std::alloc::Global;

// Observes the outputs, and draws the challenge for them. A refusal leaves the history as it was.
pub(crate) fn draw_challenge<F: Field, EF: ExtensionField<F>, C: Challenger<F>>(
    asked: &Asked<'_, F>,
    challenger: &mut C,
) -> Result<EF, NoMemory>
    ensures rules { (C.party challenger.new).rules ≡ (C.party challenger.old).rules }
    ensures drawn { IfOk result (λ x. EF.number x ≡ output_challenge
        (case_by (fields F.ops EF.ops EF.embedding EF.extension) F.number asked.now
        (C.party challenger.old))) }
    ensures after { OnOk result ((C.party challenger.new).history ≡ (first_start
        (case_by (fields F.ops EF.ops EF.embedding EF.extension) F.number asked.now
        (C.party challenger.old))).history) }
    ensures kept { OnErr result ((C.party challenger.new).history
        ≡ (C.party challenger.old).history) }
{
    // The room for all comes first, so that no refusal leaves a part.
    challenger.reserve(asked.outputs.len() + EF::DEGREE)?;
    observe_outputs::<F, C>(challenger, asked.outputs);
    Ok(sample_ext::<F, EF, C>(challenger).unwrap())
}

// Observes outputs in order. There is room for them, and no more is taken.
fn observe_outputs<F: Field, C: Challenger<F>>(challenger: &mut C, outputs: &[F])
    requires { length outputs.now ≤ (C.party challenger.old).spare }
    ensures { Appends (words (map F.number outputs.now)) (length outputs.now)
        (C.party challenger.old) (C.party challenger.new) }
{
    for output in outputs {
        challenger.observe(*output).unwrap();
    }
}

// Where layer 0 begins: the claim on the outputs, and the weights of its values.
pub(crate) fn begin<F: Field, EF: ExtensionField<F>>(
    alloc: Global,
    outputs: &[F],
    challenge: EF,
) -> Result<Reached<EF>, NoMemory>
    requires { length outputs.now ≤ 256 }
    ensures claim { IfOk result (λ r. EF.number r.claim
        ≡ batched_by_powers EF.ops (EF.number challenge) 0
        (map EF.embedding (map F.number outputs.now))) }
    ensures count { IfOk result (λ r. length r.weights.items ≡ length outputs.now) }
    ensures weights { IfOk result (λ r. AreSame (length outputs.now)
        (entries EF.number r.weights.items) (power EF.ops (EF.number challenge))) }
    ensures challenges { IfOk result (λ r. r.challenges.items ≡ []) }
    ensures merges { IfOk result (λ r. r.merges.items ≡ []) }
    ensures agrees { IfOk result (λ r. r.disagreement ≡ None) }
{
    let weights = power_weights(alloc, challenge, outputs.len())?;
    Ok(Reached {
        claim: weighted(outputs, &weights),
        weights,
        challenges: Vec::new(alloc),
        merges: Vec::new(alloc),
        disagreement: None,
    })
}
