//! Openings: the tables' values at a point, and what they match.
ghost use Rattle.std.specs.Prelude.{◌≡◌, ◌^◌, ◌==◌, ◌&&◌, All, IfOk, length, map, nat_eq};
ghost use Rattle.std.specs.Cmp.Lexicographic.{pointwise};
ghost use Rattle.sc_definitions.specs.Tables.{entries, value};
ghost use Rattle.sc_merge_definitions.specs.Openings.{products_sum};

use sc_field::{ExtensionField, Field, NoMemory, with_room};
use sc_table::{Point, dot_slices, eval_slice};
use std::alloc::Global;

// The value of each table at a point of as many coordinates as it has variables.
pub(crate) fn true_openings<F: Field, EF: ExtensionField<F>>(
    alloc: Global,
    tables: &[Vec<F>],
    point: &Point<EF>,
) -> Result<Vec<EF>, NoMemory>
    requires { All (λ t. length t.items ≡ 2 ^ length point.now) tables.now }
    ensures { IfOk result (λ v. map EF.number v.items ≡ map (λ t. value EF.ops
        (entries (λ x. EF.embedding (F.number x)) t.items) (map EF.number point.now))
        tables.now) }
{
    let mut openings = with_room(alloc, tables.len())?;
    for i in 0..tables.len() {
        openings.push_reserved(eval_slice::<F, EF>(&tables[i], point.as_slice()));
    }
    Ok(openings)
}

// Whether a residual is the sum of the openings, each times its table's weight, and each opening is
// the true one.
pub(crate) fn do_match<EF: Field>(
    residual: EF,
    openings: &[EF],
    weights: &[EF],
    truths: &[EF],
) -> bool
    requires weighed { length openings.now ≡ length weights.now }
    requires opened { length openings.now ≡ length truths.now }
    ensures { result ≡ (EF.number residual
        == products_sum EF.ops (map EF.number openings.now) (map EF.number weights.now))
        && pointwise nat_eq (map EF.number openings.now) (map EF.number truths.now) }
{
    if residual.index() != weigh(openings, weights).index() {
        return false;
    }
    are_same(openings, truths)
}

// The sum of the openings, each times its table's weight.
fn weigh<EF: Field>(openings: &[EF], weights: &[EF]) -> EF
    requires { length openings.now ≡ length weights.now }
    ensures { EF.number result
        ≡ products_sum EF.ops (map EF.number openings.now) (map EF.number weights.now) }
{
    dot_slices::<EF, EF>(openings, weights)
}

// Whether these values are those, one by one, of which there are as many.
fn are_same<EF: Field>(values: &[EF], others: &[EF]) -> bool
    requires { length values.now ≡ length others.now }
    ensures { result ≡ pointwise nat_eq (map EF.number values.now) (map EF.number others.now) }
{
    for i in 0..values.len() {
        if values[i].index() != others[i].index() {
            return false;
        }
    }
    true
}
