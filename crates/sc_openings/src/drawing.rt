//! What is observed and drawn around the rounds: the claimed values and the challenge that merges
//! them, and the openings.
ghost use Rattle.std.specs.Prelude.{◌≡◌, ◌+◌, ◌*◌, ◌++◌, IfOk, IfSome, OnOk, OnErr};
ghost use Rattle.std.specs.Prelude.{length, map, replicate};
ghost use Rattle.sc_definitions.specs.declared.events.Event.TheVariants.{Draw};
ghost use Rattle.sc_definitions.specs.Events.{extension_draw};
ghost use Rattle.sc_definitions.specs.Transcript.{sent};
ghost use Rattle.sc_challenger.specs.Parties.{MayAppend};

use sc_challenger::{Challenger, sample_ext};
use sc_field::{ExtensionField, Field, NoMemory};
use sc_transcript::rounds::observe_values;

// Observes the claimed values, and draws the challenge that merges them. A refusal leaves the
// history as it was.
pub(crate) fn draw_challenge<F: Field, EF: ExtensionField<F>, C: Challenger<F>>(
    claimed: &[EF],
    challenger: &mut C,
) -> Result<EF, NoMemory>
    ensures rules { (C.party challenger.new).rules ≡ (C.party challenger.old).rules }
    ensures drawn { IfOk result (λ x. EF.number x ≡ extension_draw (C.party challenger.old).rules
        EF.extension ((C.party challenger.old).history
        ++ sent EF.extension (map EF.number claimed.now))) }
    ensures after { OnOk result ((C.party challenger.new).history
        ≡ (C.party challenger.old).history ++ sent EF.extension (map EF.number claimed.now)
        ++ replicate EF.extension.degree Draw) }
    ensures kept { OnErr result ((C.party challenger.new).history
        ≡ (C.party challenger.old).history) }
{
    // The room for all comes first, so that no refusal leaves a part.
    let Some(events) = words_of(EF::DEGREE, claimed.len(), 1) else {
        return Err(NoMemory);
    };
    challenger.reserve(events)?;
    observe_values::<F, EF, C, _>(challenger, &claimed);
    Ok(sample_ext::<F, EF, C>(challenger).unwrap())
}

// Observes the openings. A refusal leaves the history as it was.
pub(crate) fn observe_openings<F: Field, EF: ExtensionField<F>, C: Challenger<F>>(
    challenger: &mut C,
    openings: &[EF],
) -> Result<(), NoMemory>
    ensures { MayAppend (sent EF.extension (map EF.number openings.now))
        (length openings.now * EF.DEGREE) (C.party challenger.old) (C.party challenger.new)
        result }
{
    let Some(events) = words_of(EF::DEGREE, openings.len(), 0) else {
        return Err(NoMemory);
    };
    challenger.reserve(events)?;
    observe_values::<F, EF, C, _>(challenger, &openings);
    Ok(())
}

// How many words so many values have, and so many more, of a degree, where a `usize` holds that
// many.
fn words_of(degree: usize, some: usize, more: usize) -> Option<usize>
    ensures { IfSome result (λ n. n ≡ (some + more) * degree) }
{
    some.checked_add(more)?.checked_mul(degree)
}
