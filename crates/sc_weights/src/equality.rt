//! Equality weights: those of a point.

ghost use Rattle.std.specs.Prelude.{◌≡◌, ℕ, ◌*◌, ◌^◌, ◌<◌, length, map};
ghost use Rattle.sc_definitions.specs.Ring.{◌+⟨◌⟩◌, ◌*⟨◌⟩◌};
ghost use Rattle.sc_definitions.specs.Tables.{entries, equality_weight};
ghost use Rattle.sc_table.specs.Blocks.{block_weight};

use crate::row_weights::RowWeights;
use crate::values::equality_in;
use sc_field::{Algebra, Field};
use sc_table::{
    BLOCK_COORDINATES, Basis, Point, Poly, add_equality, add_scaled, block_weights, eval_slice,
    fits_in_blocks,
};

impl<EF: Field> RowWeights<EF> for Point<EF> {
    ghost use Rattle.sc_definitions.specs.Statements.{equality};

    ghost kind = { λ point. equality (map EF.number point) };

    fn add_to(&self, table: &mut Poly<EF>, scale: EF) {
        add_point(table.as_mut_slice(), self.as_slice(), scale);
    }

    fn true_value<A: Field>(&self, rows: &[A]) -> EF
    where
        EF: Algebra<A>,
    {
        eval_slice(rows, self.as_slice())
    }

    fn value_at(&self, basis: Basis, row: &Point<EF>) -> EF {
        equality_in(basis, self.as_slice(), row.as_slice())
    }
}

/// Adds `scale` times the equality weights of `z` to the rows of a table of as many variables, by
/// blocks.
pub(crate) fn add_point<EF: Field>(rows: &mut [EF], z: &[EF], scale: EF)
    requires { length rows.old ≡ 2 ^ length z.now }
    ensures { (b : ℕ) → b < 2 ^ length z.now →
        entries EF.number rows.new b
        ≡ entries EF.number rows.old b +⟨ EF.ops ⟩ EF.number scale
        *⟨ EF.ops ⟩ equality_weight EF.ops (map EF.number z.now) b }
{
    if z.len() < BLOCK_COORDINATES || !fits_in_blocks::<EF>() {
        add_equality(rows, z, scale);
        return;
    }
    let (outer, inner) = z.split_at(z.len() - BLOCK_COORDINATES);
    let weights = block_weights(inner);
    add_blocks(rows, outer, &weights, scale);
}

/// Adds `scale` times the weights of rows in blocks: that of the row in its block, times the
/// equality weight of the block at `outer`.
pub(crate) fn add_blocks<EF: Field>(rows: &mut [EF], outer: &[EF], weights: &[EF], scale: EF)
    requires size { length rows.old ≡ 2 ^ length outer.now * length weights.now }
    requires some { 0 < length weights.now }
    ensures { (b : ℕ) → b < length rows.old → entries EF.number rows.new b
        ≡ entries EF.number rows.old b
        +⟨ EF.ops ⟩ EF.number scale *⟨ EF.ops ⟩ block_weight EF.ops (map EF.number outer.now)
        (length weights.now) (entries EF.number weights.now) b }
{
    let [first, rest @ ..] = outer else {
        add_scaled(rows, weights, scale);
        return;
    };
    let half = rows.len() / 2;
    let at_one = scale.mul(*first);
    add_blocks(&mut rows[..half], rest, weights, scale.sub(at_one));
    add_blocks(&mut rows[half..], rest, weights, at_one);
}
