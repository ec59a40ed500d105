//! Rows that gain multiples, and sums of products, of lists of any length.

ghost use Rattle.std.specs.Prelude.{◌≡◌, ℕ, ◌<◌, length};
ghost use Rattle.sc_definitions.specs.Ring.{◌+⟨◌⟩◌, ◌*⟨◌⟩◌};
ghost use Rattle.sc_definitions.specs.Tables.{entries};
ghost use Rattle.sc_field.specs.Products.{products};

use crate::strategy::BLOCK;
use sc_field::{Algebra, Field};

/// Adds `scale` times the image of each value to the row at the same place. There are as many
/// values as rows.
pub fn add_scaled<A: Field, E: Algebra<A>>(rows: &mut [E], values: &[A], scale: E)
    requires { length rows.old ≡ length values.now }
    ensures { (b : ℕ) → b < length rows.old →
        entries E.number rows.new b ≡ entries E.number rows.old b +⟨ E.ops ⟩ E.number scale
        *⟨ E.ops ⟩ entries (λ x. E.embedding (A.number x)) values.now b }
{
    for b in 0..rows.len() {
        rows[b] = rows[b].add(scale.mul_base(values[b]));
    }
}

/// The sum of the products of base elements' images and elements, of two lists of one length, which
/// may be any.
///
/// It goes by pieces, each as long as [`Algebra::dot_base`] takes, and takes no memory.
pub fn dot_slices<A: Field, E: Algebra<A>>(xs: &[A], ys: &[E]) -> E
    requires { length xs.now ≡ length ys.now }
    ensures { E.number result ≡ products E.ops (length xs.now)
        (entries (λ x. E.embedding (A.number x)) xs.now) (entries E.number ys.now) }
{
    let mut sum = E::ZERO;
    let mut from = 0;
    while from < xs.len() {
        let len = (xs.len() - from).min(BLOCK);
        sum = sum.add(E::dot_base(&xs[from..from + len], &ys[from..from + len]));
        from += len;
    }
    sum
}
