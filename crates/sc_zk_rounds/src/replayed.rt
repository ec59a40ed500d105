//! The replay of masked rounds, whatever their batch begins with.
ghost use Rattle.std.specs.Prelude.{◌≡◌, ◌≤◌, List, IfErr, OnOk, map, vec_len};
ghost use Rattle.sc_definitions.specs.declared.events.Event.{Event};
ghost use Rattle.sc_zk_definitions.specs.Masks.{next_target};
ghost use Rattle.sc_zk_definitions.specs.MaskedTranscripts.{head};
ghost use Rattle.sc_zk_transcript.specs.Shapes.{fixed_by};
ghost use Rattle.sc_zk_rounds.specs.Heads.{begun_at};
ghost use Rattle.sc_zk_rounds.specs.Data.{masked_wire_in, AreWords, HasRoomFor};
ghost use Rattle.sc_zk_rounds.specs.Verified.{at_history, claim_by, told_by, LeavesMaskedReplay};
ghost use Rattle.sc_zk_rounds.specs.Verified.{CanReplay, CannotReplay};

use crate::data::{ZkSumcheckData, ZkVerifierHandoff};
use crate::head::combine_begun;
use crate::sums::sum;
use sc_challenger::Challenger;
use sc_field::laws::poly_at;
use sc_field::{ExtensionField, Field};
use sc_table::Point;
use sc_transcript::SumcheckError;
use sc_transcript::driver::RoundShape;
use sc_transcript::replay::{CameRounds, check_counts, replay};
use sc_transcript::rounds::witness_at;
use sc_zk_transcript::ZkSumcheckShape;

/// Tests whether masked rounds that came can be replayed in a shape.
///
/// # Errors
///
/// In this order: `EvenCharacteristic`, `MaskTooShort` and `NoRounds` where the shape is unfit;
/// `RoundCountMismatch` and `PowWitnessCountMismatch` where another number of rounds or witnesses
/// came.
pub fn check_came<F: Field, EF: Field>(
    shape: ZkSumcheckShape,
    zk_data: &ZkSumcheckData<F, EF>,
) -> Result<(), SumcheckError>
    ensures ok { OnOk result
        (CanReplay F.ops shape (masked_wire_in F.number EF.number zk_data.now)) }
    ensures err { IfErr result
        (CannotReplay F.ops shape (masked_wire_in F.number EF.number zk_data.now)) }
{
    shape.validate::<F>()?;
    check_counts(
        shape.batch(),
        zk_data.round_coefficients.len(),
        zk_data.pow_witnesses.len(),
    )?;
    Ok(())
}

/// Replays masked rounds that came, where their batch has begun: after its seed and its first step,
/// under the claim that was handed on, or of the claims that were recorded. Observes the words of
/// the masks' commitment and the masks' total, draws the combination, and takes the rounds. The
/// first target is the combination times the claim, and the masks' total.
///
/// # Conditions
///
/// [`check_came`] accepts the rounds. There are 64 words below 16, and there is room for the
/// challenges. The difficulty is at most the challenger's [`Challenger::max_bits`].
///
/// # Errors
///
/// `WireSizeMismatch` names the first round whose wire has more or fewer values than the shape
/// says, unless the witness of a round before it fails: the history ends after the rounds before
/// it. `InvalidPowWitness` names the first round whose witness fails: the history ends with its
/// test. After `NoMemory` the history is as it was, or ends after the masks and some of the rounds.
pub fn replay_begun<F: Field, EF: ExtensionField<F>, C: Challenger<F>>(
    challenger: &mut C,
    zk_data: &ZkSumcheckData<F, EF>,
    shape: ZkSumcheckShape,
    claim: EF,
    words: &[u8],
    challenges: Vec<EF>,
) -> Result<ZkVerifierHandoff<EF>, SumcheckError>
    requires came { CanReplay F.ops shape (masked_wire_in F.number EF.number zk_data.now) }
    requires words { AreWords words.now }
    requires challenges { HasRoomFor shape.num_rounds challenges }
    requires difficulty { shape.pow_bits ≤ (C.party challenger.old).rules.max_bits }
    ensures rules { (C.party challenger.new).rules ≡ (C.party challenger.old).rules }
    ensures left { let p = C.party challenger.old in (h : List Event) → p.history
        ≡ begun_at EF.extension h (fixed_by shape) (EF.number claim)
        → LeavesMaskedReplay (told_by EF.number) (claim_by (at_history h p) F.ops EF.ops
        EF.extension shape (head (EF.number claim) words.now (EF.number zk_data.now.mu_tilde))
        (masked_wire_in F.number EF.number zk_data.now)) result (C.party challenger.new).history }
{
    let eps = combine_begun::<F, EF, C>(challenger, shape, words, zk_data.mu_tilde)?;
    let came = CameWires {
        data: zk_data,
        width: shape.wire_len(),
    };
    let mut target = eps.mul(claim).add(zk_data.mu_tilde);
    let batch = shape.batch();
    let drawn = replay::<F, EF, C, _>(&came, challenger, &mut target, batch, challenges)?;
    Ok(ZkVerifierHandoff {
        randomness: Point::new(drawn),
        claimed_residual: target,
        eps,
    })
}

// The wires of data, as their replay reads them: each has so many values, and makes the target
// after its round.
#[derive(Drop)]
struct CameWires<'a, F: Field, EF: ExtensionField<F>> {
    data: &'a ZkSumcheckData<F, EF>,
    width: usize,
}

impl<'a, F: Field, EF: ExtensionField<F>> CameRounds<F, EF> for CameWires<'a, F, EF> {
    type Values = &'a [EF];

    ghost use Rattle.sc_transcript.specs.Steps.{rounds_on};

    ghost rounds = { λ s. rounds_on (masked_wire_in F.number EF.number s.data.now) };

    ghost witnesses = { λ s. vec_len s.data.now.pow_witnesses };

    ghost width = { λ s. s.width };

    ghost next = { λ _. next_target EF.ops };

    fn round_at(&self, i: usize) -> (&'a [EF], Option<F>) {
        let data = self.data;
        (
            data.round_coefficients[i].as_slice(),
            witness_at(&data.pow_witnesses, i),
        )
    }

    fn next_claim(&self, values: &&'a [EF], claim: EF, challenge: EF) -> EF {
        target_after(claim, values, challenge)
    }
}

// The target after a round: what its wire makes under the target before it, at its challenge. The
// coefficient of X is the target less twice the constant and the other coefficients.
fn target_after<EF: Field>(target: EF, wire: &[EF], r: EF) -> EF
    ensures { EF.number result
        ≡ next_target EF.ops (EF.number target) (map EF.number wire.now) (EF.number r) }
{
    let [constant, rest @ ..] = wire else {
        return EF::ZERO;
    };
    let linear = target.sub(constant.add(*constant)).sub(sum(rest));
    constant.add(r.mul(linear.add(r.mul(poly_at(rest, r)))))
}
