//! Several tables with weights, on which rounds are played in one.
ghost use Rattle.std.specs.Prelude.{◌≡◌, ◌+◌, ◌<◌, [], ◌∷◌, All, IfOk, length, map};
ghost use Rattle.sc_definitions.specs.Tables.{value};
ghost use Rattle.sc_definitions.specs.ProverStates.{half_rows};
ghost use Rattle.sc_soundness.specs.Merged.{bound_table, merged_inner, merged_message};
ghost use Rattle.sc_transcript.specs.Data.{pair_of};
ghost use Rattle.sc_merged.specs.SameRows.{HaveSameRows};
ghost use Rattle.sc_merged.specs.WeightedPolys.{arity_in, weighted_in};
ghost use Rattle.sc_merged.specs.BoundPolys.{AreBound};

use crate::weighted::WeightedPoly;
use sc_field::{Field, NoMemory, with_room};
use sc_table::{Point, RoundMessage};
use std::alloc::Global;

/// Tables with weights, all of as many variables. The claim on them is the sum over all tables and
/// rows of entry times weight.
///
/// A round is one pass that measures all of them, and one that binds them in their places. Neither
/// takes memory.
#[derive(Drop)]
pub struct MergedTables<EF> {
    pairs: Vec<WeightedPoly<EF>>,
    // How many variables each of them has.
    variables: usize,
    pub ghost same: { All (λ p. arity_in p ≡ variables) pairs.items },
}

impl<EF: Field> MergedTables<EF> {
    ghost use Rattle.sc_merged.specs.MergedViews.{left_in, pairs_in};

    /// These tables with their weights, each of so many variables.
    pub fn new(variables: usize, pairs: Vec<WeightedPoly<EF>>) -> Self
        requires { All (λ p. arity_in p ≡ variables) pairs.items }
        ensures variables { left_in result ≡ variables }
        ensures pairs { pairs_in EF.number result ≡ map (weighted_in EF.number) pairs.items }
    {
        MergedTables { pairs, variables }
    }

    /// How many variables are left.
    pub fn num_variables(&self) -> usize
        ensures { result ≡ left_in self.now }
    {
        self.variables
    }

    /// The sum over all tables and rows of entry times weight.
    pub fn sum(&self) -> EF
        ensures { EF.number result
            ≡ merged_inner EF.ops (left_in self.now) (pairs_in EF.number self.now) }
    {
        let mut sum = EF::ZERO;
        for i in 0..self.pairs.len() {
            sum = sum.add(self.pairs[i].sum());
        }
        sum
    }

    /// The message of a round: the sums of the messages of all tables. A variable is left.
    pub fn message(&self) -> RoundMessage<EF>
        requires { 0 < left_in self.now }
        ensures { pair_of EF.number result ≡ merged_message EF.ops (half_rows (left_in self.now))
            (pairs_in EF.number self.now) }
    {
        let mut c_a = EF::ZERO;
        let mut c_inf = EF::ZERO;
        for i in 0..self.pairs.len() {
            let message = self.pairs[i].message();
            c_a = c_a.add(message.c_a);
            c_inf = c_inf.add(message.c_inf);
        }
        RoundMessage { c_a, c_inf }
    }

    /// Binds the first variable of all tables and weights at `r`, in their places. A variable is
    /// left.
    pub fn bind(&mut self, r: EF)
        requires { 0 < left_in self.old }
        ensures fewer { left_in self.old ≡ left_in self.new + 1 }
        ensures bound { HaveSameRows (left_in self.new) (pairs_in EF.number self.new)
            (map (bound_table EF.ops (EF.number r ∷ []) (left_in self.new))
            (pairs_in EF.number self.old)) }
    {
        bind_all(self.pairs.as_mut_slice(), r);
        self.variables -= 1;
    }

    /// The value of each table's weights at a point of as many coordinates as variables are left.
    pub fn weights_at(&self, alloc: Global, point: &Point<EF>) -> Result<Vec<EF>, NoMemory>
        requires { length point.now ≡ left_in self.now }
        ensures { IfOk result (λ v. map EF.number v.items
            ≡ map (λ p. value EF.ops p.weights (map EF.number point.now))
            (pairs_in EF.number self.now)) }
    {
        let mut values = with_room(alloc, self.pairs.len())?;
        for i in 0..self.pairs.len() {
            values.push_reserved(self.pairs[i].weights_at(point));
        }
        Ok(values)
    }
}

// Binds the first variable of each of these at `r`.
fn bind_all<EF: Field>(pairs: &mut [WeightedPoly<EF>], r: EF)
    requires { All (λ p. 0 < arity_in p) pairs.old }
    ensures { AreBound EF.ops EF.number (EF.number r) (length pairs.old) pairs.old pairs.new }
{
    for pair in pairs.iter_mut() {
        pair.bind(r);
    }
}
