//! The search for a witness.
ghost use Rattle.std.specs.Prelude.{◌≡◌, ◌≢◌, ◌↔◌, ◌+◌, ◌≤◌, ◌++◌, [], ◌∷◌, Err, IfOk, IfSome, OnOk, OnErr, IsErrOf, IsNone, IsSome};
ghost use Rattle.sc_definitions.specs.declared.events.Event.TheVariants.{Word, Test};
ghost use Rattle.sc_definitions.specs.Events.{IsFirstWitness, NonePasses};
ghost use Rattle.sc_challenger.specs.Ground.{LeavesGround};

use crate::challenger::Challenger;
use sc_field::{Field, NoMemory};
use thiserror::Error;

/// Why no witness was appended.
#[derive(Clone, Copy, Debug, PartialEq, Eq, Error)]
pub enum GrindError {
    /// No element of the field passes.
    #[error("no element of the field passes")]
    NoWitness,
    /// A call wanted more memory than there was.
    #[error("out of memory")]
    NoMemory,
}

impl From<NoMemory> for GrindError {
    ghost use Rattle.sc_challenger.specs.declared.grinding.GrindError.TheVariants as errors;

    ghost from_gives = { λ _ e. e ≡ errors.NoMemory };

    fn from(_error: NoMemory) -> GrindError {
        GrindError::NoMemory
    }
}

/// Finds the first element, in the order of their numbers, that passes a test of this difficulty, from 1 to
/// [`Challenger::max_bits`] bits, and appends its word and the test to the history.
///
/// [`GrindError::NoWitness`] comes exactly where no element passes. After either refusal the history is as it was.
pub fn grind<F: Field, C: Challenger<F>>(challenger: &mut C, bits: usize) -> Result<F, GrindError>
    requires positive { 1 ≤ bits }
    requires at_most { bits ≤ (C.party challenger.old).rules.max_bits }
    ensures { LeavesGround F.number F.ops.size bits (C.party challenger.old) (C.party challenger.new) result }
{
    let Some(witness) = first_witness(challenger, bits) else {
        return Err(GrindError::NoWitness);
    };
    challenger.check_witness(bits, witness)?;
    Ok(witness)
}

// The first element that passes, if one does.
fn first_witness<F: Field, C: Challenger<F>>(challenger: &C, bits: usize) -> Option<F>
    requires positive { 1 ≤ bits }
    requires at_most { bits ≤ (C.party challenger.now).rules.max_bits }
    ensures first { IfSome result (λ w. IsFirstWitness (C.party challenger.now).rules (C.party challenger.now).history bits (F.number w)) }
    ensures some { IsSome result → NonePasses (C.party challenger.now).rules (C.party challenger.now).history bits F.ops.size → ⊥ }
    ensures none { IsNone result → NonePasses (C.party challenger.now).rules (C.party challenger.now).history bits F.ops.size }
{
    for index in 0..F::size() {
        let witness = F::element(index);
        if challenger.would_pass(bits, witness) {
            return Some(witness);
        }
    }
    None
}
