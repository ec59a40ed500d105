//! Elements of an extension, part by part.
ghost use Rattle.std.specs.Prelude.{◌≡◌, replicate, IfOk};
ghost use Rattle.sc_challenger.specs.Parties.{LeavesAppended};
ghost use Rattle.sc_definitions.specs.declared.events.Event.TheVariants.{Draw};
ghost use Rattle.sc_definitions.specs.Events.{words, extension_draw};

use crate::challenger::Challenger;
use sc_field::{ExtensionField, Field, NoMemory};

/// Observes the parts of an element, in order: as many words as the degree says. A refusal leaves the history as it was.
pub fn observe_ext<F: Field, EF: ExtensionField<F>, C: Challenger<F>>(
    challenger: &mut C,
    x: EF,
) -> Result<(), NoMemory>
    ensures { LeavesAppended (words (EF.extension.parts (EF.number x))) EF.DEGREE (C.party challenger.old) (C.party challenger.new) result }
{
    challenger.reserve(EF::DEGREE)?;
    for i in 0..EF::DEGREE {
        challenger.observe(x.part(i)).unwrap();
    }
    Ok(())
}

/// Draws the parts of an element, in order: as many draws as the degree says. A refusal leaves the history as it was.
#[tactic(auto, unfolding(sc_definitions::specs::Events::draws, sc_definitions::specs::Events::extension_draw))]
pub fn sample_ext<F: Field, EF: ExtensionField<F>, C: Challenger<F>>(
    challenger: &mut C,
) -> Result<EF, NoMemory>
    ensures drawn { IfOk result (λ x. EF.number x ≡ extension_draw (C.party challenger.old).rules EF.extension (C.party challenger.old).history) }
    ensures left { LeavesAppended (replicate EF.DEGREE Draw) EF.DEGREE (C.party challenger.old) (C.party challenger.new) result }
{
    challenger.reserve(EF::DEGREE)?;
    let mut x = EF::ZERO;
    for i in 0..EF::DEGREE {
        x = x.with_part(i, challenger.sample().unwrap());
    }
    Ok(x)
}
