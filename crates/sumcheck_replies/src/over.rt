//! Jobs over the fields and under the challengers that they name.
ghost use Rattle.std.specs.Prelude.{◌≡◌};
ghost use Rattle.sumcheck_members.specs.Elements.{sizes_of};
ghost use Rattle.sumcheck_members.specs.Stated.{ChallengerFits};
ghost use Rattle.sumcheck_replies.specs.Fields.{fields_over, sizes_over};
ghost use Rattle.sumcheck_replies.specs.Over.{Asks, own_reply, reply_over};
ghost use Rattle.sumcheck_replies.specs.Reply.{Replies};

use crate::challengers::scripted;
use crate::reply::Answer;
use sc_challenger::{Challenger, HashChallenger, ScriptedChallenger};
use sc_field::{ExtensionField, Field, IntoTranscriptField, NoMemory};
use sc_sixteen::{Poly16, Tower16};
use sc_small_fields::{F257, F257x2, F65537};
use std::alloc::Global;
use sumcheck_members::FieldName;

/// Jobs that are answered over any of the fields that jobs name, under any challenger.
pub trait FieldJobs {
    /// What such a job is.
    type Job: Drop;

    /// What such jobs ask: their field and their challenger, what their numbers have, and what they
    /// are replied over fields and under a challenger.
    ghost asks: { Asks Self.Job };

    /// The field of a job's tables.
    fn field(job: &Self::Job) -> FieldName
        ensures { result ≡ asks.field job.now };

    /// A job's challenger.
    fn challenger(job: &Self::Job) -> &sumcheck_members::Challenger
        ensures { result.now ≡ asks.challenger job.now };

    /// The answer to a job over these fields, under this challenger. Represented tables are in `R`.
    fn answer<F: Field, EF: ExtensionField<F>, R: IntoTranscriptField<EF>, C: Challenger<F>>(
        alloc: Global,
        job: Self::Job,
        challenger: &mut C,
    ) -> Result<Answer, NoMemory>
        requires { asks.fits (sizes_over F.ops EF.ops) job }
        ensures { Replies result (asks.replies (fields_over F.ops EF.ops EF.extension EF.embedding)
            job (C.party challenger.old).rules (C.party challenger.old).history) };
}

/// The answer to a job over the fields and under the challenger that it names.
pub fn answer_named<J: FieldJobs>(alloc: Global, job: J::Job) -> Result<Answer, NoMemory>
    requires numbers { J.asks.fits (sizes_of (J.asks.field job)) job }
    requires challenger { ChallengerFits (sizes_of (J.asks.field job)).base
        (J.asks.challenger job) }
    ensures { Replies result (own_reply J.asks job) }
{
    match J::field(&job) {
        FieldName::F65537 => answer_over::<F65537, F65537, F65537, J>(alloc, job),
        FieldName::F257x2 => answer_over::<F257, F257x2, F257x2, J>(alloc, job),
        FieldName::F16 => answer_over::<Tower16, Tower16, Poly16, J>(alloc, job),
    }
}

// The same over fields of these types.
fn answer_over<F: Field, EF: ExtensionField<F>, R: IntoTranscriptField<EF>, J: FieldJobs>(
    alloc: Global,
    job: J::Job,
) -> Result<Answer, NoMemory>
    requires numbers { J.asks.fits (sizes_over F.ops EF.ops) job }
    requires challenger { ChallengerFits F.ops.size (J.asks.challenger job) }
    ensures { Replies result (reply_over J.asks
        (fields_over F.ops EF.ops EF.extension EF.embedding) job) }
{
    match J::challenger(&job) {
        sumcheck_members::Challenger::Scripted(script) => {
            let mut challenger: ScriptedChallenger<F> = scripted(alloc, script)?;
            J::answer::<F, EF, R, ScriptedChallenger<F>>(alloc, job, &mut challenger)
        }
        sumcheck_members::Challenger::Hash => {
            let mut challenger: HashChallenger<F> = HashChallenger::new(alloc);
            J::answer::<F, EF, R, HashChallenger<F>>(alloc, job, &mut challenger)
        }
    }
}
