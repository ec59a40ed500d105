//! The call.
ghost use Rattle.std.specs.Prelude.{◌≡◌, IfOk};
ghost use Rattle.sc_zk_audit.specs.MaskedAudits.{AddsUp, GivesMasked, LeavesMaskedHistory};
ghost use Rattle.sc_zk_audit.specs.MaskedCases.{masked_batch};
ghost use Rattle.sc_zk_audit.specs.MaskedJobs.{job_masks, masked_asked};
ghost use Rattle.sc_zk_audit.specs.MaskedReports.{answer_in, masked_answer};
ghost use Rattle.sc_zk_rounds.specs.Views.{AreCoded};

use crate::error::MaskedError;
use crate::job::MaskedJob;
use crate::proving::fitting_prover;
use crate::refusals::run_refusal;
use crate::report::MaskedReport;
use sc_challenger::Challenger;
use sc_commitments::{Mmcs, ZkEncoding};
use sc_field::{ExtensionField, Field};
use sc_jobs::{Job, Mode};
use sc_table::{Basis, Strategy};
use sc_zk_rounds::masked_in_step;
use std::alloc::Global;

/// Plays a round under each mask of a job on its table, replays them, and reports on them. What
/// does not fit is refused, in the order of [`MaskedError`].
///
/// The rounds are played on a copy of the challenger, and what was sent is then replayed on the
/// challenger itself: its transcript is the seed, the batched claim with aux, the words of the
/// commitment to the masks, their total, and the rounds that the report shows. A refusal before
/// that leaves the challenger's history as it was, and so does [`MaskedError::NoWitness`]. After
/// [`MaskedError::NoMemory`] it is as it was, or a part of this transcript stands after it, each of
/// its rounds whole.
///
/// # Conditions
///
/// Each mask has as many coefficients as a message of the encoding, and a list of randomness of its
/// own, as long as the encoding says.
pub fn audit_masked<
    F: Field,
    EF: ExtensionField<F>,
    Enc: ZkEncoding<EF>,
    M: Mmcs<EF>,
    C: Challenger<F>,
>(
    alloc: Global,
    job: MaskedJob<F, EF>,
    encoding: &Enc,
    mmcs: &M,
    challenger: &mut C,
) -> Result<MaskedReport<F, EF>, MaskedError>
    requires { AreCoded (Enc.message_length encoding.now) (Enc.randomness_length encoding.now)
        job.masks.items job.randomness.items }
    ensures rules { (C.party challenger.new).rules ≡ (C.party challenger.old).rules }

    // The answer is one function of what is asked, want of memory aside.
    ensures answer { GivesMasked (masked_answer (masked_asked job
        (job_masks ⟦<Enc as ZkEncoding<EF>>⟧ ⟦<M as Mmcs<EF>>⟧ encoding.now mmcs.now job)
        (C.party challenger.old))) (answer_in F.number EF.number result) }

    // What it leaves of the history, by the answer.
    ensures history { LeavesMaskedHistory (masked_batch (masked_asked job
        (job_masks ⟦<Enc as ZkEncoding<EF>>⟧ ⟦<M as Mmcs<EF>>⟧ encoding.now mmcs.now job)
        (C.party challenger.old))) (answer_in F.number EF.number result)
        (C.party challenger.new).history }

    // What the replay of the rounds leaves is the plain residual and what is left of aux, both
    // times the combination, and the masks at the challenges.
    ensures adds_up { IfOk (answer_in F.number EF.number result) (λ r. AddsUp EF.ops r.figures) }
{
    let MaskedJob {
        table,
        constraint,
        order,
        pow_bits,
        masks,
        randomness,
        aux,
    } = job;
    let plain = Job {
        table,
        constraint,
        order,
        basis: Basis::Evaluation,
        pow_bits,
        mode: Mode::Build(Strategy::Plain),
    };
    let prover = fitting_prover(
        alloc,
        plain,
        masks.len(),
        encoding.message_len(),
        challenger.max_bits(),
    )?;
    let claim = prover.claimed_sum().add(aux);
    match masked_in_step(
        alloc, prover, encoding, mmcs, masks, randomness, pow_bits, aux, challenger,
    ) {
        Ok(run) => Ok(MaskedReport { claim, run }),
        Err(error) => Err(run_refusal(error)),
    }
}
