//! Kinds of jobs, and what is replied to an input that may describe one.
ghost use Rattle.std.specs.Prelude.{◌≡◌, Ok, Err, IfOk};
ghost use Rattle.serde_json.specs.View.{view};
ghost use Rattle.sumcheck_members.specs.Members.{member_name, misfit_text};
ghost use Rattle.sumcheck_replies.specs.Inputs.{IsReadAs};
ghost use Rattle.sumcheck_replies.specs.Kinds.{Jobs, json_reply, jobs_reply};
ghost use Rattle.sumcheck_replies.specs.Reply.{Replies, refused};

use crate::lines;
use crate::reply::Answer;
use sc_field::NoMemory;
use sc_forms::{NoValue, read_value};
use serde_json::Value;
use std::alloc::Global;
use sumcheck_members::{Member, Unread};

/// The greatest number of bytes of an input.
pub const MAX_INPUT: usize = 67_108_864;

/// A kind of jobs. A command that reads jobs has one.
pub trait JobKind {
    /// What a value of the kind describes.
    type Job: Drop;

    /// What such jobs are: which one a value describes, what it is replied, and what is promised of
    /// it.
    ghost jobs: { Jobs Self.Job };

    /// The job that a value describes, or its first member that is missing or not of its form. The
    /// value is given up.
    fn read(alloc: Global, value: Value) -> Result<Self::Job, Unread>
        ensures job { IfOk result (λ job. jobs.describes (view value) ≡ Ok job) }
        ensures misfit { (m : Member) → result ≡ Err (Unread.Misfit m)
            → jobs.describes (view value) ≡ Err (member_name m) }
        ensures fits { IfOk result jobs.fits };

    /// The answer to a job, which is given up.
    fn judge(alloc: Global, job: Self::Job) -> Result<Answer, NoMemory>
        requires { jobs.fits job }
        ensures reply { Replies result (jobs.replies job) }
        ensures promised { jobs.promises job };
}

/// The answer to an input that may describe a job of a kind. The bytes, and then the value that
/// they are, are given up before the job is judged.
pub fn reply_to<K: JobKind>(alloc: Global, input: Vec<u8>) -> Result<Answer, NoMemory>
    ensures { Replies result (json_reply (jobs_reply K.jobs) input.items) }
{
    let value = match parse(alloc, input)? {
        Input::Value(value) => value,
        Input::Refused(answer) => return Ok(answer),
    };
    match K::read(alloc, value) {
        Ok(job) => K::judge(alloc, job),
        Err(Unread::Misfit(member)) => refuse_misfit(alloc, member),
        Err(Unread::NoMemory) => Err(NoMemory),
    }
}

// What an input is.
#[derive(Drop)]
enum Input {
    // A JSON value.
    Value(Value),
    // None, or too long, which is answered so.
    Refused(Answer),
}

// The value that an input is, if it is one. The bytes are given up.
#[tactic(auto, unfolding(crate::specs::Kinds::too_long, crate::specs::Kinds::bad_json))]
fn parse(alloc: Global, input: Vec<u8>) -> Result<Input, NoMemory>
    ensures { IfOk result (IsReadAs input.items) }
{
    if input.len() > MAX_INPUT {
        return Ok(Input::Refused(Answer::refused(alloc, "too-long")?));
    }
    match read_value(alloc, &input) {
        Ok(value) => Ok(Input::Value(value)),
        Err(NoValue::Bad) => Ok(Input::Refused(Answer::refused(alloc, "bad-json")?)),
        Err(NoValue::NoMemory) => Err(NoMemory),
    }
}

fn refuse_misfit(alloc: Global, member: Member) -> Result<Answer, NoMemory>
    ensures { Replies result (refused (misfit_text (member_name member))) }
{
    let why = lines::misfit_text(alloc, member)?;
    Answer::refused(alloc, &why)
}
