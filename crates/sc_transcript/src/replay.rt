//! The replay of rounds that came, whatever they send: they are counted, and each is taken in its turn and folds a claim.
ghost use Rattle.sc_challenger.specs.Parties.{channel_by};
ghost use Rattle.std.specs.Prelude.{◌≡◌, ℕ, ◌<◌, ◌≤◌, [], List, Some, IsSome, IfErr, OnOk, length, map, vec_capacity};
ghost use Rattle.std.specs.List.{slice_get};
ghost use Rattle.std.specs.Option.{option_map_or};
ghost use Rattle.sc_definitions.specs.Transcript.{Round, round_of};
ghost use Rattle.sc_definitions.specs.Channels.{verifier_state};
ghost use Rattle.sc_transcript.specs.Drivers.{answer_as};
ghost use Rattle.sc_transcript.specs.Walks.{walk, LeavesWalk};
ghost use Rattle.sc_transcript.specs.Replayed.{AreCounted, AreMiscounted};

use crate::error::RoundError;
use crate::rounds::{BatchShape, RoundValues, Rounds};
use sc_challenger::Challenger;
use sc_field::{ExtensionField, Field};

/// Rounds that came, as their replay reads them.
pub trait CameRounds<F: Field, EF: ExtensionField<F>> {
    /// What one of them sends.
    type Values: RoundValues<EF> + Copy;

    // The rounds; the witness of one is 0 where none came.
    ghost rounds: { Self → List Round };

    // How many witnesses came.
    ghost witnesses: { Self → ℕ };

    // How many values a round is to send.
    ghost width: { Self → ℕ };

    // What a round leaves of a claim, by the claim, its values and its challenge.
    ghost next: { Self → ℕ → List ℕ → ℕ → ℕ };

    /// The values of a round, and its witness if one came.
    fn round_at(&self, i: usize) -> (Self::Values, Option<F>)
        requires { i < length (rounds self.now) }
        ensures round { slice_get (rounds self.now) i
            ≡ Some (round_of (map EF.number (Self.Values.list result.0)) (option_map_or F.number result.1 0)) }
        ensures witness { i < witnesses self.now → IsSome result.1 };

    /// What a round of these values, which are as many as it is to send, leaves of a claim.
    fn next_claim(&self, values: &Self::Values, claim: EF, challenge: EF) -> EF
        requires { length (Self.Values.list values.now) ≡ width self.now }
        ensures { EF.number result ≡ next self.now (EF.number claim) (map EF.number (Self.Values.list values.now)) (EF.number challenge) };
}

/// Whether as many rounds came as a batch has, else `RoundCount`, and as many witnesses as its difficulty asks for, one a round or none, else
/// `WitnessCount`.
pub fn check_counts(shape: BatchShape, rounds: usize, witnesses: usize) -> Result<(), RoundError>
    ensures ok { OnOk result (AreCounted shape rounds witnesses) }
    ensures err { IfErr result (AreMiscounted shape rounds witnesses) }
{
    if rounds != shape.num_rounds {
        return Err(RoundError::RoundCount {
            expected: shape.num_rounds,
            actual: rounds,
        });
    }
    let expected = if shape.pow_bits == 0 {
        0
    } else {
        shape.num_rounds
    };
    if witnesses != expected {
        return Err(RoundError::WitnessCount {
            expected,
            actual: witnesses,
        });
    }
    Ok(())
}

/// Replays rounds, as many as the shape has and with as many witnesses as its difficulty asks for, which is at most the challenger's
/// [`Challenger::max_bits`]: answers their challenges in drawing order, and folds the claim once for each. There is room for the challenges.
///
/// `WrongWidth` names the first round that sends more or fewer values than the shape has, unless the witness of a round before it fails, and
/// `InvalidWitness` the first whose witness fails; the history ends after the rounds before it, or with that test. After `NoMemory` it ends after some
/// of the rounds. The claim is folded as many times.
pub fn replay<F: Field, EF: ExtensionField<F>, C: Challenger<F>, R: CameRounds<F, EF>>(
    came: &R,
    challenger: &mut C,
    claim: &mut EF,
    shape: BatchShape,
    mut challenges: Vec<EF>,
) -> Result<Vec<EF>, RoundError>
    requires tested { shape.pow_bits ≤ (C.party challenger.old).rules.max_bits }
    requires counted { AreCounted shape (length (R.rounds came.now)) (R.witnesses came.now) }
    requires wide { R.width came.now ≡ shape.width }
    requires empty { challenges.items ≡ [] }
    requires room { shape.num_rounds ≤ vec_capacity challenges }
    ensures rules { (C.party challenger.new).rules ≡ (C.party challenger.old).rules }
    ensures leaves { LeavesWalk (walk (R.next came.now) (channel_by (C.party challenger.old) EF.extension F.ops.size shape.pow_bits) shape.width
        (verifier_state (C.party challenger.old).history (EF.number claim.old)) (R.rounds came.now))
        (answer_as (λ out. map EF.number out.items) (λ e. Some e) result) (verifier_state (C.party challenger.new).history (EF.number claim.new)) }
{
    let mut rounds = Rounds::new(shape, ());
    'rounds: for i in 0..shape.num_rounds {
        let (values, witness) = came.round_at(i);
        match rounds.take::<F, EF, C, R::Values>(challenger, &values, witness) {
            Ok(challenge) => {
                *claim = came.next_claim(&values, *claim, challenge);
                challenges.push_reserved(challenge);
            }
            Err(error) => return Err(error),
        }
    }
    Ok(challenges)
}
