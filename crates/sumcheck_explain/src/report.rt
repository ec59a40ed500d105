//! The answer to a job of `explain`.
ghost use Rattle.sc_commitments.specs.Matrices.{lists_in};
ghost use Rattle.sumcheck_explain.specs.ExplainJob.{ExplainJobFits};
ghost use Rattle.sumcheck_explain.specs.Explains.{explain_answer, explain_judged, told_reply};
ghost use Rattle.sumcheck_explain.specs.PromisedMasks.{ExplainPromise};
ghost use Rattle.sumcheck_members.specs.Elements.{sizes_of};
ghost use Rattle.sumcheck_replies.specs.Reply.{Replies};

use crate::asked::masks_of;
use crate::job::ExplainJob;
use crate::lines::{even_text, push_masks};
use sc_field::{Field, NoMemory};
use sc_sixteen::Tower16;
use sc_small_fields::{F257x2, F65537};
use std::alloc::Global;
use sumcheck_members::FieldName;
use sumcheck_replies::{Answer, Outcome};

/// The answer to a job of `explain`: the masks that its view tells, or why none are told.
///
/// So the masks that are told have the job's view and its endpoints, and no other masks of their
/// number and length do.
pub fn judge_explain(alloc: Global, job: ExplainJob) -> Result<Answer, NoMemory>
    requires { ExplainJobFits (sizes_of job.field).extension job }
    ensures reply { Replies result (explain_answer job) }
    ensures promised { ExplainPromise job }
{
    answer_named(alloc, &job)
}

// The same over the extension that it names.
fn answer_named(alloc: Global, job: &ExplainJob) -> Result<Answer, NoMemory>
    requires { ExplainJobFits (sizes_of job.now.field).extension job.now }
    ensures { Replies result (explain_answer job.now) }
{
    match job.field {
        FieldName::F65537 => answer_over::<F65537>(alloc, job),
        FieldName::F257x2 => answer_over::<F257x2>(alloc, job),
        FieldName::F16 => answer_over::<Tower16>(alloc, job),
    }
}

// The same over an extension of this type.
#[tactic(auto, unfolding(crate::specs::Explains::explain_judged))]
fn answer_over<EF: Field>(alloc: Global, job: &ExplainJob) -> Result<Answer, NoMemory>
    requires { ExplainJobFits EF.ops.size job.now }
    ensures { Replies result (explain_judged EF.ops job.now) }
{
    if EF::TWO.index() == 0 {
        let why = even_text(alloc)?;
        return Answer::refused(alloc, &why);
    }
    let masks = masks_of::<EF>(alloc, job)?;
    show_masks(alloc, &masks)
}

/// The answer that shows masks, a line each.
pub fn show_masks<EF: Field>(alloc: Global, masks: &[Vec<EF>]) -> Result<Answer, NoMemory>
    ensures { Replies result (told_reply (lists_in EF.number masks.now)) }
{
    let mut text = String::new(alloc);
    push_masks(&mut text, masks)?;
    Ok(Answer::new(Outcome::Told, text))
}
