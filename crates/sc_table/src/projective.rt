//! Tables of coefficients: their values at points, and their first variable bound; and both for a
//! table in either basis.

ghost use Rattle.std.specs.Prelude.{◌≡◌, ◌↔◌, IsTrue, ℕ, suc, ◌+◌, ◌^◌, ◌<◌, ◌≤◌, List, ◌∷◌, length, map, IfOk};
ghost use Rattle.sc_definitions.specs.Tables.{IsOffered, entries, coefficient_value, value_in, bound_coefficients, folded_in};
ghost use Rattle.sc_table.specs.Blocks.{HasWritten};
ghost use Rattle.sc_table.specs.Polys.{variables_of, table_of, IsFixedIn};
ghost use Rattle.sc_table.specs.Strategy.{basis_of, order_of};

use crate::{Basis, Point, Poly, VariableOrder, eval_slice};
use sc_field::{Algebra, Field, NoMemory};
use std::alloc::Global;

impl<A: Field> Poly<A> {
    /// The value of a table of coefficients: the sum over all rows of coefficient times the product
    /// of the coordinates whose digit in the row is 1, at a point of as many coordinates as the
    /// table has variables. It takes no memory.
    pub fn eval_projective<E: Algebra<A>>(&self, z: &Point<E>) -> E
        requires { length z.now ≡ variables_of self.now }
        ensures { E.number result ≡ coefficient_value E.ops (λ b. E.embedding (table_of A.number self.now b)) (map E.number z.now) }
    {
        eval_slice_projective(self.as_slice(), z.as_slice())
    }

    /// The first variable of a table of coefficients is bound at `r`, and the table is halved, in
    /// its place: each coefficient of the first half becomes lo + hi r over the two halves, without
    /// a subtraction. The table has one variable or more.
    pub fn fix_prefix_var_projective_mut<Ch: Field>(&mut self, r: Ch)
    where
        A: Algebra<Ch>,
        requires { 0 < variables_of self.old }
        ensures fewer { variables_of self.old ≡ variables_of self.new + 1 }
        ensures bound { (b : ℕ) → b < 2 ^ variables_of self.new →
            table_of A.number self.new b ≡ bound_coefficients A.ops (2 ^ variables_of self.new) (A.embedding (Ch.number r)) (table_of A.number self.old) b }

        // The value at the other coordinates is the old value with `r` placed first.
        ensures value { (zs : List ℕ) → length zs ≡ variables_of self.new →
            coefficient_value A.ops (table_of A.number self.new) zs
            ≡ coefficient_value A.ops (table_of A.number self.old) (A.embedding (Ch.number r) ∷ zs) }
    {
        let half = self.num_evals() / 2;
        bind_coefficients(self.as_mut_slice(), half, r);
        self.keep_first_half();
    }
}

/// The value at `z` of the table of coefficients that a slice holds: as many as a power of two,
/// whose exponent is the number of coordinates.
///
/// It goes by halves, in time linear in the table's length, and takes no memory.
pub fn eval_slice_projective<A: Field, E: Algebra<A>>(coefficients: &[A], z: &[E]) -> E
    requires { length coefficients.now ≡ 2 ^ length z.now }
    ensures { E.number result ≡ coefficient_value E.ops (entries
        (λ x. E.embedding (A.number x)) coefficients.now) (map E.number z.now) }
{
    match z {
        [] => E::embed(coefficients[0]),

        // The line by its two coefficients, of which the second is an element of A.
        [only] => E::embed(coefficients[0]).add(only.mul_base(coefficients[1])),
        [first, rest @ ..] => {
            let half = coefficients.len() / 2;
            let lo = eval_slice_projective(&coefficients[..half], rest);
            let hi = eval_slice_projective(&coefficients[half..], rest);
            lo.add(hi.mul(*first))
        }
    }
}

/// The table that is left where the first variable of a table of these coefficients is bound at
/// `r`: half as many, each lo + hi r over the two halves; `NoMemory` where there is no memory for
/// them. The given table has one variable or more, and stays.
pub fn fix_prefix_var_slice_projective<B: Field, A: Algebra<B>>(
    alloc: Global,
    coefficients: &[B],
    r: A,
) -> Result<Poly<A>, NoMemory>
    requires { (m : ℕ) × (length coefficients.now ≡ 2 ^ suc m) }
    ensures fewer { IfOk result (λ p. length coefficients.now ≡ 2 ^ (variables_of p + 1)) }
    ensures rows { IfOk result (λ p. (b : ℕ) → b < 2 ^ variables_of p → table_of A.number p b
        ≡ bound_coefficients A.ops (2 ^ variables_of p) (A.number r) (λ b. A.embedding (entries B.number coefficients.now b)) b) }
{
    let half = coefficients.len() / 2;
    let mut bound = Vec::with_capacity(alloc, half)?;
    for b in 0..half {
        let (lo, hi) = (coefficients[b], coefficients[half + b]);
        bound.push_reserved(A::embed(lo).add(r.mul_base(hi)));
    }
    Ok(Poly::new(bound))
}

impl Basis {
    /// Whether this basis is offered with an order: the projective one only with prefix order.
    pub fn is_offered(self, order: VariableOrder) -> bool
        ensures { IsTrue result ↔ IsOffered (basis_of self) (order_of order) }
    {
        match self {
            Basis::Evaluation => true,
            Basis::Projective => match order {
                VariableOrder::Prefix => true,
                VariableOrder::Suffix => false,
            },
        }
    }

    /// The value at `z` of the table in this basis that a slice holds: as many entries as a power
    /// of two, whose exponent is the number of coordinates. It takes no memory.
    pub fn eval_slice<A: Field, E: Algebra<A>>(self, evals: &[A], z: &[E]) -> E
        requires { length evals.now ≡ 2 ^ length z.now }
        ensures { E.number result ≡ value_in (basis_of self) E.ops (entries
            (λ x. E.embedding (A.number x)) evals.now) (map E.number z.now) }
    {
        match self {
            Basis::Evaluation => eval_slice(evals, z),
            Basis::Projective => eval_slice_projective(evals, z),
        }
    }

    /// The variable of a table in this basis that comes next in this order is bound at `r`, and the
    /// table is halved, in its place. The table has one variable or more.
    pub fn fix_var<A: Algebra<Ch>, Ch: Field>(self, order: VariableOrder, poly: &mut Poly<A>, r: Ch)
        requires some { 0 < variables_of poly.old }

        // The projective basis only with prefix order.
        requires offered { IsOffered (basis_of self) (order_of order) }
        ensures { IsFixedIn (basis_of self) (order_of order) A.ops A.number (A.embedding (Ch.number r)) poly.old poly.new }
    {
        match self {
            Basis::Evaluation => order.fix_var(poly, r),
            Basis::Projective => poly.fix_prefix_var_projective_mut(r),
        }
    }

    /// The table that is left where the variable that comes next in this order is bound at `r`, of
    /// a table in this basis, half as many entries and in memory of its own; `NoMemory` where there
    /// is none. The given table has one variable or more, and stays.
    pub fn fix_var_slice<B: Field, A: Algebra<B>>(
        self,
        alloc: Global,
        order: VariableOrder,
        evals: &[B],
        r: A,
    ) -> Result<Poly<A>, NoMemory>
        requires some { (m : ℕ) × (length evals.now ≡ 2 ^ suc m) }

        // The projective basis only with prefix order.
        requires offered { IsOffered (basis_of self) (order_of order) }
        ensures fewer { IfOk result (λ p. length evals.now ≡ 2 ^ (variables_of p + 1)) }
        ensures rows { IfOk result (λ p. (b : ℕ) → b < 2 ^ variables_of p → table_of A.number p b
            ≡ folded_in (basis_of self) (order_of order) A.ops (variables_of p) (A.number r) (λ b. A.embedding (entries B.number evals.now b)) b) }
    {
        match self {
            Basis::Evaluation => order.fix_var_slice(alloc, evals, r),
            Basis::Projective => fix_prefix_var_slice_projective(alloc, evals, r),
        }
    }
}

// Each of the first `half` coefficients becomes lo + hi r over the two halves.
fn bind_coefficients<A: Algebra<Ch>, Ch: Field>(coefficients: &mut [A], half: usize, r: Ch)
    requires { half + half ≤ length coefficients.old }
    ensures { HasWritten A.number (bound_coefficients A.ops half (A.embedding (Ch.number r)) (entries A.number coefficients.old)) 0 half coefficients.old coefficients.new }
{
    for b in 0..half {
        let high = coefficients[half + b].mul_base(r);
        coefficients[b] = coefficients[b].add(high);
    }
}
