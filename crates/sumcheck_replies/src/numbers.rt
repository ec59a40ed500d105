//! Numbers as elements of a field.
ghost use Rattle.std.specs.Prelude.{◌≡◌, ◌<◌, All, IfOk, map};
ghost use Rattle.std.specs.List.{slice_get};

use sc_field::{Field, NoMemory};
use sc_table::Row;
use std::alloc::Global;

/// The elements with these numbers, which are below the field's size.
pub fn elements<F: Field>(alloc: Global, numbers: &[u64]) -> Result<Vec<F>, NoMemory>
    requires { All (λ n. n < F.ops.size) numbers.now }
    ensures { IfOk result (λ v. map F.number v.items ≡ numbers.now) }
{
    let mut found = Vec::with_capacity(alloc, numbers.len())?;
    for n in numbers {
        found.push_reserved(F::element(*n));
    }
    Ok(found)
}

/// The lists of elements with these numbers, list by list.
pub fn element_lists<F: Field>(alloc: Global, lists: &[Row<u64>]) -> Result<Vec<Vec<F>>, NoMemory>
    requires { All (All (λ n. n < F.ops.size)) lists.now }
    ensures { IfOk result (λ v. map (λ list. map F.number list.items) v.items ≡ lists.now) }
{
    let mut found = Vec::with_capacity(alloc, lists.len())?;
    for list in lists {
        found.push(elements(alloc, list.as_slice())?)?;
    }
    Ok(found)
}

/// The number of the element at a place, if there is one.
pub fn number_at<F: Field>(elements: &[F], i: usize) -> Option<u64>
    ensures { result ≡ slice_get (map F.number elements.now) i }
{
    match elements.get(i) {
        Some(element) => Some(element.index()),
        None => None,
    }
}
