//! The job of `veil` that a JSON value describes, or the first member that is not of its form.
ghost use Rattle.std.specs.Prelude.{◌≡◌, ◌≢◌, ◌≤◌, Some, None, Ok, Err, IfOk, IsErrOf, length};
ghost use Rattle.serde_json.specs.View.{view};
ghost use Rattle.sumcheck_members.specs.Members.{member_name};
ghost use Rattle.sumcheck_members.specs.Elements.{sizes_of};
ghost use Rattle.sumcheck_veil.specs.VeilJob.{DrawnFits, MasksFit, MessagesFit, VeilFits};
ghost use Rattle.sumcheck_veil.specs.VeilJob.{VeilJobFits, WrittenFits};
ghost use Rattle.sumcheck_veil.specs.VeilJob.{are_long, drawn_form, masks_form, messages_form};
ghost use Rattle.sumcheck_veil.specs.VeilJob.{one_length, some_length, veil_job_of};
ghost use Rattle.sumcheck_veil.specs.VeilJob.{veil_members_over, veil_over, written_form};

use crate::job::{DrawnMasks, Masks, Veil, VeilJob, WrittenMasks};
use sc_forms::{AtMost, Below, Form, ListOf, ListOfLength, Misread, is_object, member};
use sc_table::Row;
use serde_json::Value;
use std::alloc::Global;
use sumcheck_members::{FieldForm, FieldName, Member, Sizes, Unread, need, read_stated};

// The greatest number of rounds.
const MOST_ROUNDS: u64 = 64;

// The greatest number of coefficients of a mask.
const MOST_LENGTH: usize = 64;

// How many elements a mask is encoded with.
const RANDOMNESS: usize = 2;

// So many masks, all of one length.
#[derive(Clone, Copy)]
struct MessagesForm {
    sizes: Sizes,
    rounds: usize,
}

impl Form for MessagesForm {
    type Out = Row<Row<u64>>;

    ghost reads = { λ form. messages_form form.sizes form.rounds };

    ghost fits = { λ form messages. MessagesFit form.sizes form.rounds messages };

    fn read(&self, alloc: Global, value: &Value) -> Result<Row<Row<u64>>, Misread> {
        let coefficient = Below {
            bound: self.sizes.extension,
        };
        let messages = ListOfLength {
            item: ListOf { item: coefficient },
            length: self.rounds,
        };
        of_one_length(messages.read(alloc, value)?)
    }
}

// The lists, if they have one length, from 1 to 64.
fn of_one_length(lists: Row<Row<u64>>) -> Result<Row<Row<u64>>, Misread>
    ensures ok { IfOk result (λ x. (x ≡ lists) × (one_length lists ≡ Some x)) }
    ensures not_of_form { IsErrOf result Misread.NotOfForm → one_length lists ≡ None }
    ensures no_other { result ≢ Err Misread.NoMemory }
{
    if has_one_length(lists.as_slice()) {
        Ok(lists)
    } else {
        Err(Misread::NotOfForm)
    }
}

// Whether lists have one length, from 1 to 64.
fn has_one_length(lists: &[Row<u64>]) -> bool
    ensures { result ≡ some_length lists.now }
{
    match lists {
        [] => true,
        [first, ..] => {
            let length = first.len();
            length >= 1 && length <= MOST_LENGTH && have_length(lists, length)
        }
    }
}

// Whether each list has this length.
fn have_length(lists: &[Row<u64>], length: usize) -> bool
    ensures { result ≡ are_long length lists.now }
{
    for list in lists {
        if list.len() != length {
            return false;
        }
    }
    true
}

// So many masks that are written out.
#[derive(Clone, Copy)]
struct WrittenForm {
    sizes: Sizes,
    rounds: usize,
}

impl Form for WrittenForm {
    type Out = WrittenMasks;

    ghost reads = { λ form. written_form form.sizes form.rounds };

    ghost fits = { λ form masks. WrittenFits form.sizes form.rounds masks };

    fn read(&self, alloc: Global, value: &Value) -> Result<WrittenMasks, Misread> {
        let messages = MessagesForm {
            sizes: self.sizes,
            rounds: self.rounds,
        };
        let messages = member(alloc, &messages, value, "messages")?;
        let entry = Below {
            bound: self.sizes.extension,
        };
        let lists = ListOfLength {
            item: ListOfLength {
                item: entry,
                length: RANDOMNESS,
            },
            length: self.rounds,
        };
        let randomness = member(alloc, &lists, value, "randomness")?;
        Ok(WrittenMasks {
            messages,
            randomness,
        })
    }
}

// A number from 1 to 64.
#[derive(Clone, Copy)]
struct LengthForm;

impl Form for LengthForm {
    ghost use Rattle.sumcheck_veil.specs.VeilJob.{IsLength, length_form};

    type Out = u64;

    ghost reads = { λ _. length_form };

    ghost fits = { λ _ n. IsLength n };

    fn read(&self, alloc: Global, value: &Value) -> Result<u64, Misread> {
        let most = AtMost {
            most: MOST_LENGTH as u64,
        };
        let length = most.read(alloc, value)?;
        if length < 1 {
            return Err(Misread::NotOfForm);
        }
        Ok(length)
    }
}

// Masks that are drawn.
#[derive(Clone, Copy)]
struct DrawnForm;

impl Form for DrawnForm {
    type Out = DrawnMasks;

    ghost reads = { λ _. drawn_form };

    ghost fits = { λ _ masks. DrawnFits masks };

    fn read(&self, alloc: Global, value: &Value) -> Result<DrawnMasks, Misread> {
        let any = AtMost { most: u64::MAX };
        let seed = member(alloc, &any, value, "seed")?;
        let length = member(alloc, &LengthForm, value, "length")?;
        Ok(DrawnMasks { seed, length })
    }
}

// So many masks: they are written out, or drawn.
#[derive(Clone, Copy)]
struct MasksForm {
    sizes: Sizes,
    rounds: usize,
}

impl Form for MasksForm {
    type Out = Masks;

    ghost reads = { λ form. masks_form form.sizes form.rounds };

    ghost fits = { λ form masks. MasksFit form.sizes form.rounds masks };

    fn read(&self, alloc: Global, value: &Value) -> Result<Masks, Misread> {
        match (value.get("messages"), value.get("seed")) {
            (Some(_), None) => {
                let written = WrittenForm {
                    sizes: self.sizes,
                    rounds: self.rounds,
                };
                let masks = written.read(alloc, value)?;
                Ok(Masks::Written(masks))
            }
            (None, Some(_)) => {
                let masks = DrawnForm.read(alloc, value)?;
                Ok(Masks::Drawn(masks))
            }
            _ => Err(Misread::NotOfForm),
        }
    }
}

/// The job of `veil` that a value describes, or its first member that is missing or not of its
/// form. The value is given up, and its table as it is read.
pub fn read_veil(alloc: Global, value: Value) -> Result<VeilJob, Unread>
    ensures job { IfOk result (λ job. veil_job_of (view value) ≡ Ok job) }
    ensures misfit { (m : Member) → result ≡ Err (Unread.Misfit m)
        → veil_job_of (view value) ≡ Err (member_name m) }
    ensures fits { IfOk result (λ job. VeilJobFits (sizes_of job.stated.field) job) }
{
    if !is_object(&value) {
        return Err(Unread::Misfit(Member::named("job")));
    }
    let field = need(alloc, &FieldForm, &value, "field")?;
    read_members(alloc, value, field, field.sizes())
}

// The members after the field, which has these sizes. What stands after the batching challenge is
// read first, since the value is given up for the others; where one of these is not of its form, it
// is told before them.
fn read_members(
    alloc: Global,
    value: Value,
    field: FieldName,
    sizes: Sizes,
) -> Result<VeilJob, Unread>
    ensures job { IfOk result (λ job. veil_members_over field sizes (view value) ≡ Ok job) }
    ensures misfit { (m : Member) → result ≡ Err (Unread.Misfit m)
        → veil_members_over field sizes (view value) ≡ Err (member_name m) }
    ensures field { IfOk result (λ job. job.stated.field ≡ field) }
    ensures fits { IfOk result (λ job. VeilJobFits sizes job) }
{
    let veil = read_masks(alloc, &value, sizes);
    let stated = read_stated(alloc, value, field, sizes)?;
    Ok(VeilJob {
        stated,
        veil: veil?,
    })
}

// What rounds are played under.
fn read_masks(alloc: Global, value: &Value, sizes: Sizes) -> Result<Veil, Unread>
    ensures veil { IfOk result (λ veil. veil_over sizes (view value.now) ≡ Ok veil) }
    ensures misfit { (m : Member) → result ≡ Err (Unread.Misfit m)
        → veil_over sizes (view value.now) ≡ Err (member_name m) }
    ensures fits { IfOk result (λ veil. VeilFits sizes veil) }
{
    let most = AtMost { most: MOST_ROUNDS };
    let rounds = need(alloc, &most, value, "rounds")?;
    let masks = MasksForm {
        sizes,
        rounds: rounds as usize,
    };
    let masks = need(alloc, &masks, value, "masks")?;
    let number = Below {
        bound: sizes.extension,
    };
    let aux = need(alloc, &number, value, "aux")?;
    Ok(Veil { rounds, masks, aux })
}
