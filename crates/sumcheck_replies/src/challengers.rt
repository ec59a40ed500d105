//! The challengers that jobs describe.
ghost use Rattle.std.specs.Prelude.{◌≡◌, IfOk, []};
ghost use Rattle.sc_definitions.specs.Scripted.{scripted_rules};
ghost use Rattle.sumcheck_members.specs.Stated.{ScriptFits};

use crate::numbers::{element_lists, elements};
use sc_challenger::{Challenger, ScriptedChallenger};
use sc_field::{Field, NoMemory};
use std::alloc::Global;
use sumcheck_members::Script;

/// The challenger with an empty history that a script describes.
pub fn scripted<F: Field>(alloc: Global, script: &Script) -> Result<ScriptedChallenger<F>, NoMemory>
    requires { ScriptFits F.ops.size script.now }
    ensures history { IfOk result (λ c. (⟦<ScriptedChallenger<F> as Challenger<F>>⟧.party c).history ≡ []) }
    ensures rules { IfOk result (λ c. (⟦<ScriptedChallenger<F> as Challenger<F>>⟧.party c).rules
        ≡ scripted_rules script.now.draws script.now.witnesses) }
{
    let draws = elements(alloc, script.draws.as_slice())?;
    let good = element_lists(alloc, script.witnesses.as_slice())?;
    Ok(ScriptedChallenger::new(alloc, draws, good))
}
