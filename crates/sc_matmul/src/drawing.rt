//! The point: all entries are observed, and it is drawn after them.
ghost use Rattle.std.specs.Prelude.{◌≡◌, ◌≤◌, IfOk, OnOk, OnErr, length, map};
ghost use Rattle.sc_definitions.specs.Events.{words};
ghost use Rattle.sc_challenger.specs.Parties.{Appends};
ghost use Rattle.sc_merge_definitions.specs.Matrices.{drawn_point, after_point};
ghost use Rattle.sc_matmul.specs.FittingClaims.{case_by};

use crate::shape::FittingClaim;
use sc_challenger::{Challenger, sample_ext};
use sc_field::{ExtensionField, Field, NoMemory};

// Observes the entries of all three matrices, and draws the point. A refusal leaves the history as
// it was.
pub(crate) fn draw_point<F: Field, EF: ExtensionField<F>, C: Challenger<F>>(
    fitting: &FittingClaim<'_, F, EF>,
    challenger: &mut C,
) -> Result<EF, NoMemory>
    ensures rules { (C.party challenger.new).rules ≡ (C.party challenger.old).rules }
    ensures drawn { IfOk result (λ x. EF.number x
        ≡ drawn_point (case_by fitting.now (C.party challenger.old))) }
    ensures after { OnOk result ((C.party challenger.new).history
        ≡ after_point (case_by fitting.now (C.party challenger.old))) }
    ensures kept { OnErr result ((C.party challenger.new).history
        ≡ (C.party challenger.old).history) }
{
    let (left, right) = (fitting.left.as_slice(), fitting.right.as_slice());
    let claimed = fitting.claimed.as_slice();
    // The room for all comes first, so that no refusal leaves a part.
    challenger.reserve(left.len() + right.len() + claimed.len() + EF::DEGREE)?;
    observe_entries::<F, C>(challenger, left);
    observe_entries::<F, C>(challenger, right);
    observe_entries::<F, C>(challenger, claimed);
    Ok(sample_ext::<F, EF, C>(challenger).unwrap())
}

// Observes entries in order. There is room for them, and no more is taken.
fn observe_entries<F: Field, C: Challenger<F>>(challenger: &mut C, entries: &[F])
    requires { length entries.now ≤ (C.party challenger.old).spare }
    ensures { Appends (words (map F.number entries.now)) (length entries.now)
        (C.party challenger.old) (C.party challenger.new) }
{
    for entry in entries {
        challenger.observe(*entry).unwrap();
    }
}
