//! The forms of tables, claims and proofs.
ghost use Rattle.std.specs.Prelude.{◌≡◌, ◌≢◌, ◌≤◌, Some, None, IfOk, IsErrOf, All, length};
ghost use Rattle.serde_json.specs.Find.{as_bool};
ghost use Rattle.sumcheck_openings.specs.OpeningsJob.{ClaimFits, ProofGivenFits, claim_form};
ghost use Rattle.sumcheck_openings.specs.OpeningsJob.{list_within_form, proof_given_form, within};

use crate::job::{ClaimGiven, ProofGiven};
use sc_forms::{AtMost, Below, Form, ListOf, Misread, member};
use sc_table::Row;
use serde_json::Value;
use std::alloc::Global;
use sumcheck_audit::ProofForm;
use sumcheck_members::Sizes;

// The greatest number of a table that a claim can name.
const MOST_TABLE: u64 = 65535;

/// A list of `least` items of a form or more, and at most `most`.
#[derive(Clone, Copy)]
pub(crate) struct ListWithin<F> {
    pub(crate) list: ListOf<F>,
    pub(crate) least: usize,
    pub(crate) most: usize,
}

impl<F: Form> Form for ListWithin<F> {
    type Out = Row<F::Out>;

    ghost reads = { λ form. list_within_form form.least form.most (F.reads form.list.item) };

    ghost fits = { λ form xs. All (F.fits form.list.item) xs × (form.least ≤ length xs) };

    fn read(&self, alloc: Global, value: &Value) -> Result<Row<F::Out>, Misread> {
        within(self.list.read(alloc, value)?, self.least, self.most)
    }

    fn take(&self, alloc: Global, value: Value) -> Result<Row<F::Out>, Misread> {
        within(self.list.take(alloc, value)?, self.least, self.most)
    }
}

// The items, if there are as many as there may be.
fn within<T: Drop>(items: Row<T>, least: usize, most: usize) -> Result<Row<T>, Misread>
    ensures ok { IfOk result (λ x. (x ≡ items) × (within least most items ≡ Some x)) }
    ensures some { IfOk result (λ x. least ≤ length x) }
    ensures not_of_form { IsErrOf result Misread.NotOfForm → within least most items ≡ None }
    ensures no_other { result ≢ Err Misread.NoMemory }
{
    if items.len() < least || items.len() > most {
        return Err(Misread::NotOfForm);
    }
    Ok(items)
}

// True or false.
#[derive(Clone, Copy)]
struct Truth;

impl Form for Truth {
    type Out = bool;

    ghost reads = { λ _. as_bool };

    fn read(&self, _alloc: Global, value: &Value) -> Result<bool, Misread> {
        match value.as_bool() {
            Some(truth) => Ok(truth),
            None => Err(Misread::NotOfForm),
        }
    }
}

/// A claim: the number of a table, a point, whether it is on the table of next rows, and the value.
#[derive(Clone, Copy)]
pub(crate) struct ClaimForm {
    pub(crate) sizes: Sizes,
}

impl Form for ClaimForm {
    type Out = ClaimGiven;

    ghost reads = { λ form. claim_form form.sizes };

    ghost fits = { λ form claim. ClaimFits form.sizes.extension claim };

    fn read(&self, alloc: Global, value: &Value) -> Result<ClaimGiven, Misread> {
        let element = Below {
            bound: self.sizes.extension,
        };
        let table = member(alloc, &AtMost { most: MOST_TABLE }, value, "table")?;
        let point = member(alloc, &ListOf { item: element }, value, "point")?;
        let successor = member(alloc, &Truth, value, "successor")?;
        let claimed = member(alloc, &element, value, "value")?;
        Ok(ClaimGiven {
            table,
            point,
            successor,
            value: claimed,
        })
    }
}

/// A proof: its rounds and witnesses, and the openings.
#[derive(Clone, Copy)]
pub(crate) struct ProofGivenForm {
    pub(crate) sizes: Sizes,
}

impl Form for ProofGivenForm {
    type Out = ProofGiven;

    ghost reads = { λ form. proof_given_form form.sizes };

    ghost fits = { λ form proof. ProofGivenFits form.sizes proof };

    fn read(&self, alloc: Global, value: &Value) -> Result<ProofGiven, Misread> {
        let opening = Below {
            bound: self.sizes.extension,
        };
        let rounds = ProofForm { sizes: self.sizes }.read(alloc, value)?;
        let openings = member(alloc, &ListOf { item: opening }, value, "openings")?;
        Ok(ProofGiven { rounds, openings })
    }
}
