//! The members of a job, each read in its form.
ghost use Rattle.std.specs.Prelude.{◌≡◌, Ok, Err, IfOk};
ghost use Rattle.serde_json.specs.View.{view};
ghost use Rattle.sumcheck_members.specs.Members.{member_name, needed, needed_or};

use sc_forms::{Form, Misread, member, take_member};
use serde_json::Value;
use std::alloc::Global;
use thiserror::Error;

/// The name of a member of a job, or `job` for the job as a whole.
#[derive(Clone, Copy, Debug, PartialEq, Eq)]
pub struct Member {
    word: &'static str,
}

/// Why a job was not read.
#[derive(Clone, Copy, Debug, PartialEq, Eq, Error)]
pub enum Unread {
    /// The value is no job: this is the first member that is missing, or not of its form.
    #[error("`{}` is missing, or not of its form", .0.name())]
    Misfit(Member),
    /// There was no memory for the job.
    #[error("out of memory")]
    NoMemory,
}

impl Member {
    /// The member of this name.
    pub fn named(word: &'static str) -> Self
        ensures { member_name result ≡ word.now }
    {
        Member { word }
    }

    /// The name that it has in a job, and in a refusal.
    pub fn name(self) -> &'static str
        ensures { result.now ≡ member_name self }
    {
        self.word
    }
}

/// A member of a job in its form.
pub fn need<F: Form>(
    alloc: Global,
    form: &F,
    value: &Value,
    name: &'static str,
) -> Result<F::Out, Unread>
    ensures ok { IfOk result (λ x. needed (F.reads form.now) name.now (view value.now) ≡ Ok x) }
    ensures misfit { (m : Member) → result ≡ Err (Unread.Misfit m)
        → needed (F.reads form.now) name.now (view value.now) ≡ Err (member_name m) }
    ensures fits { IfOk result (F.fits form.now) }
{
    match member(alloc, form, value, name) {
        Ok(found) => Ok(found),
        Err(error) => Err(told_of(error, name)),
    }
}

/// A member of a job in its form, or `missing` where it is not there.
pub fn need_or<F: Form>(
    alloc: Global,
    form: &F,
    value: &Value,
    name: &'static str,
    missing: F::Out,
) -> Result<F::Out, Unread>
    ensures ok { IfOk result (λ x.
        needed_or missing (F.reads form.now) name.now (view value.now) ≡ Ok x) }
    ensures misfit { (m : Member) → result ≡ Err (Unread.Misfit m)
        → needed_or missing (F.reads form.now) name.now (view value.now) ≡ Err (member_name m) }
{
    match value.get(name) {
        Some(_) => need(alloc, form, value, name),
        None => Ok(missing),
    }
}

/// A member of a job in its form, of an object that is given up.
pub fn take<F: Form>(
    alloc: Global,
    form: &F,
    value: Value,
    name: &'static str,
) -> Result<F::Out, Unread>
    ensures ok { IfOk result (λ x. needed (F.reads form.now) name.now (view value) ≡ Ok x) }
    ensures misfit { (m : Member) → result ≡ Err (Unread.Misfit m)
        → needed (F.reads form.now) name.now (view value) ≡ Err (member_name m) }
    ensures fits { IfOk result (F.fits form.now) }
{
    match take_member(alloc, form, value, name) {
        Ok(found) => Ok(found),
        Err(error) => Err(told_of(error, name)),
    }
}

// Why the job is not read whose member of this name is not read.
fn told_of(error: Misread, name: &'static str) -> Unread
    ensures { (m : Member) → result ≡ Unread.Misfit m
        → (error ≡ Misread.NotOfForm) × (member_name m ≡ name.now) }
{
    match error {
        Misread::NotOfForm => Unread::Misfit(Member::named(name)),
        Misread::NoMemory => Unread::NoMemory,
    }
}
