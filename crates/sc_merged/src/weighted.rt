//! A table and its weights.
ghost use Rattle.std.specs.Prelude.{◌≡◌, ℕ, ◌+◌, ◌^◌, ◌<◌, None, [], ◌∷◌, length, map};
ghost use Rattle.sc_definitions.specs.Ring.{◌+⟨◌⟩◌, ◌*⟨◌⟩◌};
ghost use Rattle.sc_definitions.specs.Tables.{evaluation, prefix, entries, value, inner_product};
ghost use Rattle.sc_definitions.specs.Messages.{message_of};
ghost use Rattle.sc_definitions.specs.ProverStates.{half_rows};
ghost use Rattle.sc_soundness.specs.Merged.{bound_table};
ghost use Rattle.sc_table.specs.Polys.{variables_of, table_of};
ghost use Rattle.sc_table.specs.SplitEqs.{split_variables, split_weight};
ghost use Rattle.sc_transcript.specs.Data.{pair_of};
ghost use Rattle.sc_merged.specs.SameRows.{HasSameRows};

use sc_field::Field;
use sc_table::{
    Point, Poly, RoundMessage, SplitEq, add_scaled, dot_slices, sumcheck_coefficients_prefix,
};

/// A table of values and a table of weights, of as many variables.
#[derive(Drop)]
pub struct WeightedPoly<EF> {
    table: Poly<EF>,
    weights: Poly<EF>,
    pub ghost same: { variables_of weights ≡ variables_of table },
}

impl<EF: Field> WeightedPoly<EF> {
    ghost use Rattle.sc_merged.specs.WeightedPolys.{arity_in, table_in, weights_in, weighted_in};

    /// These two, which have as many variables.
    pub fn new(table: Poly<EF>, weights: Poly<EF>) -> Self
        requires { variables_of weights ≡ variables_of table }
        ensures variables { arity_in result ≡ variables_of table }
        ensures table { table_in EF.number result ≡ table_of EF.number table }
        ensures weights { weights_in EF.number result ≡ table_of EF.number weights }
    {
        WeightedPoly { table, weights }
    }

    /// How many variables both have.
    pub fn num_variables(&self) -> usize
        ensures { result ≡ arity_in self.now }
    {
        self.table.num_variables()
    }

    /// The sum over all rows of entry times weight. It takes no memory.
    pub fn sum(&self) -> EF
        ensures { EF.number result ≡ inner_product EF.ops (arity_in self.now)
            (table_in EF.number self.now) (weights_in EF.number self.now) }
    {
        dot_slices::<EF, EF>(self.table.as_slice(), self.weights.as_slice())
    }

    /// The message of a round on the two. A variable is left.
    pub fn message(&self) -> RoundMessage<EF>
        requires { 0 < arity_in self.now }
        ensures { pair_of EF.number result
            ≡ message_of evaluation prefix EF.ops (half_rows (arity_in self.now))
            (table_in EF.number self.now) (weights_in EF.number self.now) }
    {
        sumcheck_coefficients_prefix::<EF, EF>(self.table.as_slice(), self.weights.as_slice())
    }

    /// Binds the first variable of both at `r`, in their places. A variable is left.
    pub fn bind(&mut self, r: EF)
        requires { 0 < arity_in self.old }
        ensures fewer { arity_in self.old ≡ arity_in self.new + 1 }
        ensures bound { HasSameRows (arity_in self.new) (weighted_in EF.number self.new)
            (bound_table EF.ops (EF.number r ∷ []) (arity_in self.new)
            (weighted_in EF.number self.old)) }
    {
        self.table.fix_prefix_var_mut::<EF>(r);
        self.weights.fix_prefix_var_mut::<EF>(r);
    }

    /// The value of the weights at a point of as many coordinates as there are variables.
    pub fn weights_at(&self, point: &Point<EF>) -> EF
        requires { length point.now ≡ arity_in self.now }
        ensures { EF.number result
            ≡ value EF.ops (weights_in EF.number self.now) (map EF.number point.now) }
    {
        self.weights.eval::<EF>(point)
    }

    /// Adds values, each times a scale, to the weights, row by row. There are as many of them as
    /// rows. The table stays.
    pub fn add_weights(&mut self, values: &[EF], scale: EF)
        requires { length values.now ≡ 2 ^ arity_in self.old }
        ensures variables { arity_in self.new ≡ arity_in self.old }
        ensures table { table_in EF.number self.new ≡ table_in EF.number self.old }
        ensures weights { (b : ℕ) → b < 2 ^ arity_in self.old → weights_in EF.number self.new b
            ≡ weights_in EF.number self.old b
            +⟨ EF.ops ⟩ EF.number scale *⟨ EF.ops ⟩ entries EF.number values.now b }
    {
        add_scaled::<EF, EF>(self.weights.as_mut_slice(), values, scale);
    }

    /// Adds the equality weights of a point to the weights, row by row. The point has as many
    /// coordinates as there are variables. The table stays.
    pub fn add_equality<F>(&mut self, weights: &SplitEq<F, EF>)
        requires { split_variables weights.now ≡ arity_in self.old }
        ensures variables { arity_in self.new ≡ arity_in self.old }
        ensures table { table_in EF.number self.new ≡ table_in EF.number self.old }
        ensures weights { (b : ℕ) → b < 2 ^ arity_in self.old → weights_in EF.number self.new b
            ≡ weights_in EF.number self.old b
            +⟨ EF.ops ⟩ 1 *⟨ EF.ops ⟩ split_weight EF.number EF.ops weights.now b }
    {
        weights.accumulate_into(self.weights.as_mut_slice(), None);
    }
}
