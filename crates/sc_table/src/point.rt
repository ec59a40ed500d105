//! Points, and the equality weight of two points.

ghost use Rattle.std.specs.Prelude.{◌≡◌, ◌≤◌, ◌++◌, List, length, map, reverse, IfOk};
ghost use Rattle.sc_definitions.specs.Ring.{power, ◌+⟨◌⟩◌};
ghost use Rattle.sc_definitions.specs.Tables.{eq_product, value};
ghost use Rattle.sc_definitions.specs.Statements.{successor_weight};
ghost use Rattle.sc_definitions.specs.Parts.{Carry, Done, Omega, part_at};

use sc_field::{Algebra, Field, NoMemory};
use std::alloc::Global;
use std::marker::Model;

/// A point: one coordinate for each variable. A contract sees the list of coordinates.
#[derive(Drop)]
pub struct Point<EF> {
    coords: Vec<EF>,
}

impl<EF> Model for Point<EF> {
    ghost Value = { List EF };

    ghost view = { λ point. point.coords.items };
}

impl<EF> Point<EF> {
    /// The point with these coordinates.
    pub fn new(coords: Vec<EF>) -> Self
        ensures { result ≡ coords.items }
    {
        Point { coords }
    }

    /// How many coordinates the point has.
    pub fn num_variables(&self) -> usize
        ensures { result ≡ length self.now }
    {
        self.coords.len()
    }

    /// The coordinates, the first one first.
    pub fn as_slice(&self) -> &[EF]
        ensures { result.now ≡ self.now }
    {
        &self.coords
    }
}

impl<EF: Copy> Point<EF> {
    /// The same point, in memory of its own; `NoMemory` where there is none.
    pub fn copy(&self, alloc: Global) -> Result<Self, NoMemory>
        ensures { IfOk result (λ p. p ≡ self.now) }
    {
        let coords = Vec::from_slice(alloc, &self.coords)?;
        Ok(Point { coords })
    }

    /// The point with the last coordinate first, in memory of its own; `NoMemory` where there is none.
    pub fn reversed(&self, alloc: Global) -> Result<Self, NoMemory>
        ensures { IfOk result (λ p. p ≡ reverse self.now) }
    {
        let mut coords = Vec::from_slice(alloc, &self.coords)?;
        coords.reverse();
        Ok(Point { coords })
    }

    /// The points of the first `k` coordinates and of the others, in memory of their own; `NoMemory`
    /// where there is none. `k` is at most as many as the point has.
    pub fn split_at(&self, alloc: Global, k: usize) -> Result<(Self, Self), NoMemory>
        requires { k ≤ length self.now }
        ensures front { IfOk result (λ parts. length parts.0 ≡ k) }
        ensures joined { IfOk result (λ parts. parts.0 ++ parts.1 ≡ self.now) }
    {
        let (front, back) = self.coords.split_at(k);
        let front = Vec::from_slice(alloc, front)?;
        let back = Vec::from_slice(alloc, back)?;
        Ok((Point { coords: front }, Point { coords: back }))
    }
}

impl<EF: Field> Point<EF> {
    /// The equality weight of two lists of coordinates of one length: the product of
    /// z x + (1 - z)(1 - x) over the pairs of coordinates. Of no coordinates it is one.
    pub fn eval_eq(z: &[EF], x: &[EF]) -> EF
        requires { length z.now ≡ length x.now }
        ensures { EF.number result ≡ eq_product EF.ops (map EF.number z.now) (map EF.number x.now) }
    {
        let mut product = EF::ONE;
        for (z_i, x_i) in z.iter().zip(x) {
            let both = z_i.mul(*x_i);
            let neither = EF::ONE.sub(*z_i).mul(EF::ONE.sub(*x_i));
            product = product.mul(both.add(neither));
        }
        product
    }

    /// The three sums that make the successor's value of two lists of coordinates of one length, by
    /// the equality weights of rows.
    ///
    /// The first is the weight of `z` at the last row, times that of `x` at row 0. The second is
    /// the sum over all rows but the last of the weight of `z` there, times that of `x` at the row
    /// after it. The third is the weights of both at the last row, multiplied. Of no coordinates
    /// they are 1, 0 and 1. They are the values at `x` of three parts of the weights of `z`.
    pub fn eval_next(z: &[EF], x: &[EF]) -> (EF, EF, EF)
        requires { length z.now ≡ length x.now }
        ensures carry { EF.number result.0
            ≡ part_at EF.ops Carry (map EF.number z.now) (map EF.number x.now) }
        ensures done { EF.number result.1
            ≡ part_at EF.ops Done (map EF.number z.now) (map EF.number x.now) }
        ensures omega { EF.number result.2
            ≡ part_at EF.ops Omega (map EF.number z.now) (map EF.number x.now) }

        // The last two make the value at `x` of the successor weights of `z`, as a table.
        ensures value { EF.number result.1 +⟨ EF.ops ⟩ EF.number result.2 ≡ value EF.ops
            (successor_weight EF.ops (map EF.number z.now)) (map EF.number x.now) }
    {
        let mut equal = EF::ONE;
        let mut carry = EF::ONE;
        let mut done = EF::ZERO;
        let mut omega = EF::ONE;
        for (z_i, x_i) in z.iter().zip(x) {
            let both = z_i.mul(*x_i);
            let falls = z_i.sub(both);
            let rises = x_i.sub(both);
            let neither = EF::ONE.sub(*z_i).sub(rises);
            done = done.mul(falls).add(equal.mul(rises));
            equal = equal.mul(both.add(neither));
            carry = carry.mul(falls);
            omega = omega.mul(both);
        }
        (carry, done, omega)
    }

    /// The value at `x` of the table of the powers of `var`: its row b has the power b, and row 0 has one.
    ///
    /// It is the product over the coordinates of 1 + x_i (v_i - 1), where v_i is the power of the row whose one digit is digit i.
    pub fn eval_select<F: Field>(var: F, x: &[EF]) -> EF
    where
        EF: Algebra<F>,
        ensures { EF.number result ≡ value EF.ops (power EF.ops (EF.embedding (F.number var))) (map EF.number x.now) }
    {
        let mut value = EF::ONE;
        let mut power = EF::embed(var);
        for x_i in x.iter().rev() {
            let factor = EF::ONE.add(x_i.mul(power.sub(EF::ONE)));
            value = factor.mul(value);
            power = power.square();
        }
        value
    }
}
