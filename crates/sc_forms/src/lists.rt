// Forms of lists.
ghost use Rattle.std.specs.Prelude.{◌≡◌, All, length, Some, None, IfOk, IsErrOf};
ghost use Rattle.serde_json.specs.View.{view};
ghost use Rattle.sc_forms.specs.Forms.{all_of, list_form, list_of_length_form, pair_form};

use crate::{Form, Misread};
use sc_memory::Row;
use serde_json::Value;
use std::alloc::Global;

/// A list of items of a form.
#[derive(Clone, Copy, Debug, PartialEq, Eq)]
pub struct ListOf<F> {
    pub item: F,
}

/// A list of exactly `length` items of a form.
#[derive(Clone, Copy, Debug, PartialEq, Eq)]
pub struct ListOfLength<F> {
    pub item: F,
    pub length: usize,
}

/// A list of exactly two items of a form.
#[derive(Clone, Copy, Debug, PartialEq, Eq)]
pub struct PairOf<F> {
    pub item: F,
}

impl<F: Form> Form for ListOf<F> {
    type Out = Row<F::Out>;

    ghost reads = { λ form. list_form (F.reads form.item) };

    ghost fits = { λ form xs. All (F.fits form.item) xs };

    fn read(&self, alloc: Global, value: &Value) -> Result<Row<F::Out>, Misread> {
        let Some(items) = value.as_array() else {
            return Err(Misread::NotOfForm);
        };
        Ok(Row::new(read_items(alloc, &self.item, items)?))
    }

    fn take(&self, alloc: Global, value: Value) -> Result<Row<F::Out>, Misread> {
        match value {
            Value::Array(items) => Ok(Row::new(take_items(alloc, &self.item, items)?)),
            _ => Err(Misread::NotOfForm),
        }
    }
}

impl<F: Form> Form for ListOfLength<F> {
    type Out = Row<F::Out>;

    ghost reads = { λ form. list_of_length_form (F.reads form.item) form.length };

    ghost fits = { λ form xs. All (F.fits form.item) xs × (length xs ≡ form.length) };

    fn read(&self, alloc: Global, value: &Value) -> Result<Row<F::Out>, Misread> {
        let Some(items) = value.as_array() else {
            return Err(Misread::NotOfForm);
        };
        if items.len() != self.length {
            return Err(Misread::NotOfForm);
        }
        Ok(Row::new(read_items(alloc, &self.item, items)?))
    }
}

impl<F: Form> Form for PairOf<F> {
    type Out = (F::Out, F::Out);

    ghost reads = { λ form. pair_form (F.reads form.item) };

    ghost fits = { λ form pair. F.fits form.item pair.0 × F.fits form.item pair.1 };

    fn read(&self, alloc: Global, value: &Value) -> Result<(F::Out, F::Out), Misread> {
        let Some(items) = value.as_array() else {
            return Err(Misread::NotOfForm);
        };
        if items.len() != 2 {
            return Err(Misread::NotOfForm);
        }
        let left = self.item.read(alloc, &items[0])?;
        let right = self.item.read(alloc, &items[1])?;
        Ok((left, right))
    }
}

// Each item in turn, in a form. The room for all of them is taken at once.
fn read_items<F: Form>(alloc: Global, form: &F, items: &[Value]) -> Result<Vec<F::Out>, Misread>
    ensures ok { IfOk result (λ v. all_of (λ x. F.reads form.now (view x)) items.now ≡ Some v.items) }
    ensures not_of_form { IsErrOf result Misread.NotOfForm
        → all_of (λ x. F.reads form.now (view x)) items.now ≡ None }
    ensures fits { IfOk result (λ v. All (F.fits form.now) v.items) }
    ensures length { IfOk result (λ v. length v.items ≡ length items.now) }
{
    let mut found = Vec::with_capacity(alloc, items.len())?;
    for item in items {
        found.push_reserved(form.read(alloc, item)?);
    }
    Ok(found)
}

// The same of items that are given up.
fn take_items<F: Form>(alloc: Global, form: &F, items: Vec<Value>) -> Result<Vec<F::Out>, Misread>
    ensures ok { IfOk result (λ v. all_of (λ x. F.reads form.now (view x)) items.items
        ≡ Some v.items) }
    ensures not_of_form { IsErrOf result Misread.NotOfForm
        → all_of (λ x. F.reads form.now (view x)) items.items ≡ None }
    ensures fits { IfOk result (λ v. All (F.fits form.now) v.items) }
{
    let mut taken = Vec::with_capacity(alloc, items.len())?;
    for item in items {
        taken.push_reserved(form.take(alloc, item)?);
    }
    Ok(taken)
}
