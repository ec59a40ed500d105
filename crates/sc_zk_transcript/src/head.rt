//! What stands before the rounds of a masked batch, after its seed: for whoever plays the rounds
//! without a driver.
ghost use Rattle.std.specs.Prelude.{◌≡◌, ◌<◌, ◌≤◌, ◌++◌, All, IfOk, length};
ghost use Rattle.sc_definitions.specs.Events.{words, extension_draw};
ghost use Rattle.sc_zk_definitions.specs.MaskedTranscripts.{prelude_events};
ghost use Rattle.sc_zk_definitions.specs.MaskedTranscripts.{commitment_events, masks_events};
ghost use Rattle.sc_challenger.specs.Parties.{Appends, LeavesAppended};

use sc_challenger::{Challenger, observe_ext, sample_ext};
use sc_field::{ExtensionField, Field, NoMemory};
use sc_zk_definitions::ZkPrelude;

/// Observes a claim that is handed on. A refusal leaves the history as it was.
pub fn observe_claim<F: Field, EF: ExtensionField<F>, C: Challenger<F>>(
    challenger: &mut C,
    claim: EF,
) -> Result<(), NoMemory>
    ensures { LeavesAppended
        (prelude_events EF.extension ZkPrelude.InheritedClaim (EF.number claim))
        (length (prelude_events EF.extension ZkPrelude.InheritedClaim (EF.number claim)))
        (C.party challenger.old) (C.party challenger.new) result }
{
    observe_ext::<F, EF, C>(challenger, claim)
}

/// Observes the words of the masks' commitment, 64 numbers below 16, and the masks' total, and
/// draws the combination. A refusal leaves the history as it was.
pub fn combine_masks<F: Field, EF: ExtensionField<F>, C: Challenger<F>>(
    challenger: &mut C,
    commitment: &[u8],
    mu_tilde: EF,
) -> Result<EF, NoMemory>
    requires count { length commitment.now ≡ 64 }
    requires below { All (λ w. w < 16) commitment.now }
    ensures drawn { IfOk result (λ x. EF.number x
        ≡ extension_draw (C.party challenger.old).rules EF.extension
        ((C.party challenger.old).history ++ commitment_events EF.extension commitment.now
        (EF.number mu_tilde))) }
    ensures left { LeavesAppended (masks_events EF.extension commitment.now (EF.number mu_tilde))
        (length (masks_events EF.extension commitment.now (EF.number mu_tilde)))
        (C.party challenger.old) (C.party challenger.new) result }
{
    // The room for all comes first, so that no refusal leaves a part.
    challenger.reserve(64 + 2 * EF::DEGREE)?;
    observe_words::<F, C>(challenger, commitment);
    observe_ext::<F, EF, C>(challenger, mu_tilde).unwrap();
    Ok(sample_ext::<F, EF, C>(challenger).unwrap())
}

// Observes words, each as the element of its number. There is room for them, and no more is taken.
fn observe_words<F: Field, C: Challenger<F>>(challenger: &mut C, commitment: &[u8])
    requires below { All (λ w. w < 16) commitment.now }
    requires room { length commitment.now ≤ (C.party challenger.old).spare }
    ensures { Appends (words commitment.now) (length commitment.now) (C.party challenger.old)
        (C.party challenger.new) }
{
    for word in commitment {
        challenger.observe(F::element(*word as u64)).unwrap();
    }
}
