//! The job of `explain` that a JSON value describes, or the first member that is not of its form.
ghost use Rattle.std.specs.Prelude.{◌≡◌, ◌≢◌, Some, None, Ok, Err, IfOk, IsErrOf};
ghost use Rattle.serde_json.specs.View.{view};
ghost use Rattle.sumcheck_explain.specs.ExplainJob.{ExplainJobFits, PlainFits, WiresFit};
ghost use Rattle.sumcheck_explain.specs.ExplainJob.{are_long, explain_job_of};
ghost use Rattle.sumcheck_explain.specs.ExplainJob.{explain_members_over, one_width};
ghost use Rattle.sumcheck_explain.specs.ExplainJob.{plain_form, some_pieces};
ghost use Rattle.sumcheck_explain.specs.ExplainJob.{some_width, wires_form};
ghost use Rattle.sumcheck_members.specs.Elements.{sizes_of};
ghost use Rattle.sumcheck_members.specs.Members.{member_name};

use crate::job::ExplainJob;
use sc_forms::{Below, Form, ListOf, ListOfLength, Misread, PairOf, is_object};
use sc_table::Row;
use serde_json::Value;
use std::alloc::Global;
use sumcheck_members::{FieldForm, FieldName, Member, Unread, need};

// The greatest number of masks.
const MOST_MASKS: usize = 64;

// The least number of values of a wire.
const LEAST_WIDTH: usize = 2;

// The greatest number of them.
const MOST_WIDTH: usize = 63;

// From 1 to 64 plain pieces, over a field of so many elements.
#[derive(Clone, Copy)]
struct PlainForm {
    size: u64,
}

impl Form for PlainForm {
    type Out = Row<(u64, u64)>;

    ghost reads = { λ form. plain_form form.size };

    ghost fits = { λ form plain. PlainFits form.size plain };

    fn read(&self, alloc: Global, value: &Value) -> Result<Row<(u64, u64)>, Misread> {
        let coefficient = Below { bound: self.size };
        let pieces = ListOf {
            item: PairOf { item: coefficient },
        };
        some_pieces(pieces.read(alloc, value)?)
    }
}

// The pieces, if there are from 1 to 64.
fn some_pieces(pieces: Row<(u64, u64)>) -> Result<Row<(u64, u64)>, Misread>
    ensures ok { IfOk result (λ x. (x ≡ pieces) × (some_pieces pieces ≡ Some x)) }
    ensures not_of_form { IsErrOf result Misread.NotOfForm → some_pieces pieces ≡ None }
    ensures no_other { result ≢ Err Misread.NoMemory }
{
    if pieces.len() < 1 || pieces.len() > MOST_MASKS {
        return Err(Misread::NotOfForm);
    }
    Ok(pieces)
}

// So many wires, all of one length.
#[derive(Clone, Copy)]
struct WiresForm {
    size: u64,
    masks: usize,
}

impl Form for WiresForm {
    type Out = Row<Row<u64>>;

    ghost reads = { λ form. wires_form form.size form.masks };

    ghost fits = { λ form wires. WiresFit form.size form.masks wires };

    fn read(&self, alloc: Global, value: &Value) -> Result<Row<Row<u64>>, Misread> {
        let coefficient = Below { bound: self.size };
        let wires = ListOfLength {
            item: ListOf { item: coefficient },
            length: self.masks,
        };
        of_one_width(wires.read(alloc, value)?)
    }
}

// The wires, if they have one length, from 2 to 63.
fn of_one_width(wires: Row<Row<u64>>) -> Result<Row<Row<u64>>, Misread>
    ensures ok { IfOk result (λ x. (x ≡ wires) × (one_width wires ≡ Some x)) }
    ensures not_of_form { IsErrOf result Misread.NotOfForm → one_width wires ≡ None }
    ensures no_other { result ≢ Err Misread.NoMemory }
{
    if has_one_width(wires.as_slice()) {
        Ok(wires)
    } else {
        Err(Misread::NotOfForm)
    }
}

// Whether wires have one length, from 2 to 63.
fn has_one_width(wires: &[Row<u64>]) -> bool
    ensures { result ≡ some_width wires.now }
{
    match wires {
        [] => false,
        [first, ..] => {
            let width = first.len();
            width >= LEAST_WIDTH && width <= MOST_WIDTH && have_length(wires, width)
        }
    }
}

// Whether each list has this length.
fn have_length(lists: &[Row<u64>], length: usize) -> bool
    ensures { result ≡ are_long length lists.now }
{
    for list in lists {
        if list.len() != length {
            return false;
        }
    }
    true
}

/// The job of `explain` that a value describes, or its first member that is missing or not of its
/// form. The value is given up.
pub fn read_explain(alloc: Global, value: Value) -> Result<ExplainJob, Unread>
    ensures job { IfOk result (λ job. explain_job_of (view value) ≡ Ok job) }
    ensures misfit { (m : Member) → result ≡ Err (Unread.Misfit m)
        → explain_job_of (view value) ≡ Err (member_name m) }
    ensures fits { IfOk result (λ job. ExplainJobFits (sizes_of job.field).extension job) }
{
    if !is_object(&value) {
        return Err(Unread::Misfit(Member::named("job")));
    }
    let field = need(alloc, &FieldForm, &value, "field")?;
    read_members(alloc, &value, field, field.sizes().extension)
}

// The members after the field, whose extension has so many elements.
fn read_members(
    alloc: Global,
    value: &Value,
    field: FieldName,
    size: u64,
) -> Result<ExplainJob, Unread>
    ensures job { IfOk result (λ job.
        explain_members_over field size (view value.now) ≡ Ok job) }
    ensures misfit { (m : Member) → result ≡ Err (Unread.Misfit m)
        → explain_members_over field size (view value.now) ≡ Err (member_name m) }
    ensures field { IfOk result (λ job. job.field ≡ field) }
    ensures fits { IfOk result (λ job. ExplainJobFits size job) }
{
    let element = Below { bound: size };
    let eps = need(alloc, &element, value, "eps")?;
    let plain = need(alloc, &PlainForm { size }, value, "plain")?;
    let masks = plain.len();
    let each = ListOfLength {
        item: element,
        length: masks,
    };
    let challenges = need(alloc, &each, value, "challenges")?;
    let mu = need(alloc, &element, value, "mu")?;
    let wires = need(alloc, &WiresForm { size, masks }, value, "wires")?;
    let later = ListOfLength {
        item: element,
        length: masks - 1,
    };
    let endpoints = need(alloc, &later, value, "endpoints")?;
    Ok(ExplainJob {
        field,
        eps,
        plain,
        challenges,
        mu,
        wires,
        endpoints,
    })
}
