//! The calls.
ghost use Rattle.sc_audit.specs.Asked.{asked_by};
ghost use Rattle.std.specs.Prelude.{◌≡◌, IfOk, IfErr, IfSome};
ghost use Rattle.sc_jobs.specs.Cases.{problem_in, task_in};
ghost use Rattle.sc_jobs.specs.Refusals.{refusal_of, shape_refusal};
ghost use Rattle.sc_jobs.specs.Figures.{report_in};
ghost use Rattle.sc_jobs.specs.Audits.{Answers, IsAnswer, IsRefusedBy, HoldsIfBuilt, IsValid, MayStopValid};
ghost use Rattle.sc_jobs.specs.Certified.{CertifiesLuck};
ghost use Rattle.sc_jobs.specs.Results.{GivesAnswer, answer_to};
ghost use Rattle.sc_jobs.specs.Stated.{IsRestated, LeavesStated};
ghost use Rattle.sc_audit.specs.Ways.{IsWayOf};

use crate::building::{build, play};
use crate::checking::check;
use crate::stating::state_truth;
use crate::ways::Way;
use sc_audit_errors::AuditError;
use sc_challenger::Challenger;
use sc_field::{ExtensionField, Field, IntoTranscriptField};
use sc_jobs::{FittingJob, Job, Mode, Report};
use std::alloc::Global;

/// Builds the rounds of a job, or checks those of its proof, and reports on them. There is no
/// condition on the job: what does not fit is refused, in the order of [`AuditError`].
///
/// The transcript is that of the rounds that the report shows, after their seed. A build plays on a
/// copy of the challenger, and its rounds are then replayed on the challenger itself, as those of a
/// proof are. A refusal before that leaves the challenger's history as it was, and so does
/// [`AuditError::NoWitness`]. After [`AuditError::InvalidPowWitness`] the history ends with the
/// test that failed. After [`AuditError::NoMemory`] it is as it was, or the seed and some of the
/// rounds, from the first on, stand after it, each of these rounds whole.
pub fn audit<F: Field, EF: ExtensionField<F>, R: IntoTranscriptField<EF>, C: Challenger<F>>(
    alloc: Global,
    job: &Job<F, EF>,
    challenger: &mut C,
) -> Result<Report<F, EF>, AuditError>
    ensures rules { (C.party challenger.new).rules ≡ (C.party challenger.old).rules }

    // A report shows the rounds of the job, and what they and their challenges determine; a refusal
    // has its one cause, want of memory aside.
    ensures answers { Answers F.number EF.number (refusal_of (asked_by job.now (C.party challenger.old)))
        (asked_by job.now (C.party challenger.old)) result (C.party challenger.new).history }

    // The verdict on a build is that the statements hold.
    ensures holds { IfOk result (λ r. HoldsIfBuilt (task_in F.number EF.number job.now.mode) (report_in F.number EF.number r).figures) }

    // Where the residual is right although a statement is false, a challenge is named lucky, and
    // certified: by a polynomial that is not zero and vanishes there, and the number of its roots.
    ensures certified { IfOk result (λ r. CertifiesLuck EF.ops (problem_in job.now)
        (report_in F.number EF.number r).figures) }

    // A cause is refused.
    ensures refused { IsRefusedBy (refusal_of (asked_by job.now (C.party challenger.old))) result }

    // A valid job is answered.
    ensures answered { IsValid (asked_by job.now (C.party challenger.old))
        → IfErr result MayStopValid }

    // All of it is one function of the job, the rules and the history, want of memory aside: so a
    // round without a witness, or with one that fails, is named exactly where it is the first.
    ensures given { GivesAnswer F.number EF.number
        (answer_to (asked_by job.now (C.party challenger.old))) result }
{
    audit_by::<F, EF, R, C>(alloc, job, None, challenger)
}

/// As [`audit`], of the job whose statements claim their true values, which are put in place of
/// what they claim. What they claim before makes no difference, and a build tests none of them.
///
/// All else of the job stays, and so does what it claims where its shape is refused. After
/// [`AuditError::NoMemory`] the statements claim what they did, or their true values. A build by
/// small-value rounds that fit finds the true values on the way to its grids; for any other job
/// each statement takes a pass over the table, and no memory.
pub fn audit_true<F: Field, EF: ExtensionField<F>, R: IntoTranscriptField<EF>, C: Challenger<F>>(
    alloc: Global,
    job: &mut Job<F, EF>,
    challenger: &mut C,
) -> Result<Report<F, EF>, AuditError>
    ensures rules { (C.party challenger.new).rules ≡ (C.party challenger.old).rules }

    // All of the job stays but what its statements claim.
    ensures kept { IsRestated job.old job.new }

    // They claim their true values, unless the shape is refused; after want of memory these or the
    // old ones.
    ensures stated { LeavesStated
        (shape_refusal (asked_by job.old (C.party challenger.old)))
        EF.ops (problem_in job.old) (problem_in job.new) result }

    // What is answered is said of the job as it is then, as by `audit`.
    ensures answers { Answers F.number EF.number
        (refusal_of (asked_by job.new (C.party challenger.old)))
        (asked_by job.new (C.party challenger.old))
        result (C.party challenger.new).history }
    ensures holds { IfOk result (λ r. HoldsIfBuilt (task_in F.number EF.number job.new.mode)
        (report_in F.number EF.number r).figures) }
    ensures certified { IfOk result (λ r. CertifiesLuck EF.ops (problem_in job.new)
        (report_in F.number EF.number r).figures) }
    ensures refused { IsRefusedBy
        (refusal_of (asked_by job.new (C.party challenger.old))) result }
    ensures answered { IsValid
        (asked_by job.new (C.party challenger.old))
        → IfErr result MayStopValid }
    ensures given { GivesAnswer F.number EF.number
        (answer_to (asked_by job.new (C.party challenger.old))) result }
{
    let way = state_truth(alloc, job, challenger.max_bits())?;
    audit_by::<F, EF, R, C>(alloc, job, way, challenger)
}

// As `audit`. A way that is given is that of the job's build, whose statements are true: they are
// not tested then.
fn audit_by<F: Field, EF: ExtensionField<F>, R: IntoTranscriptField<EF>, C: Challenger<F>>(
    alloc: Global,
    job: &Job<F, EF>,
    way: Option<Way<F, EF>>,
    challenger: &mut C,
) -> Result<Report<F, EF>, AuditError>
    requires { IfSome way (IsWayOf job.now) }
    ensures rules { (C.party challenger.new).rules ≡ (C.party challenger.old).rules }
    ensures answer { IsAnswer F.number EF.number
        (asked_by job.now (C.party challenger.old)) result
        (C.party challenger.new).history }
{
    let fitting = FittingJob::of(job, challenger.max_bits())?;
    match &job.mode {
        Mode::Build(strategy) => match way {
            Some(way) => play::<F, EF, R, C>(alloc, &fitting, way, challenger),
            None => build::<F, EF, R, C>(alloc, &fitting, *strategy, challenger),
        },
        Mode::Check(proof) => check(alloc, &fitting, proof, challenger),
    }
}
