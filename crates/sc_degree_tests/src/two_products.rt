//! A prover by plain loops: the sum over all rows of two products of two tables.
ghost use Rattle.std.specs.Prelude.{◌≡◌, ◌/◌, ◌^◌, ◌<◌, [], ◌∷◌, length, map, vec_len};
ghost use Rattle.sc_definitions.specs.Ring.{◌+⟨◌⟩◌};
ghost use Rattle.sc_definitions.specs.Polynomials.{poly_at};
ghost use Rattle.sc_degree_tests.specs.Sums.{bound, constant, linear, leading, in_sum};

use sc_degree::RoundProver;
use sc_field::{Field, NoMemory};
use std::alloc::Global;

/// Four tables of as many rows each, of which the sum over all rows of `a` times `b` plus `c` times
/// `d` is claimed. A round binds the first variable, which is 0 in the first half of a table.
#[derive(Drop)]
pub struct TwoProducts<EF> {
    a: Vec<EF>,
    b: Vec<EF>,
    c: Vec<EF>,
    d: Vec<EF>,
    variables: usize,
    ghost first: { vec_len a ≡ vec_len b },
    ghost second: { vec_len c ≡ vec_len d },
    ghost rows: { vec_len a ≡ 2 ^ variables },
    ghost other_rows: { vec_len c ≡ 2 ^ variables },
}

impl<EF: Field> TwoProducts<EF> {
    /// The prover of these tables, of so many variables.
    pub fn new(a: Vec<EF>, b: Vec<EF>, c: Vec<EF>, d: Vec<EF>, variables: usize) -> Self
        requires first { vec_len a ≡ vec_len b }
        requires second { vec_len c ≡ vec_len d }
        requires rows { vec_len a ≡ 2 ^ variables }
        requires other_rows { vec_len c ≡ 2 ^ variables }
    {
        TwoProducts {
            a,
            b,
            c,
            d,
            variables,
        }
    }
}

impl<EF: Field> RoundProver<EF> for TwoProducts<EF> {
    ghost use Rattle.sc_degree_tests.specs.Sums.{sum_of_two};
    ghost use Rattle.sc_degree_tests.specs.Views.{tables_in};
    ghost use Rattle.sc_degree_tests.specs.TwoTied.{two-tied};

    ghost meaning = { λ p. sum_of_two EF.ops (tables_in EF.number p) p.variables };

    ghost tied = { λ p. two-tied EF.ops EF.is_field.ring EF.number p };

    fn degree(&self) -> usize {
        2
    }

    fn num_variables(&self) -> usize {
        self.variables
    }

    fn fold(&mut self, r: EF) {
        bind(&mut self.a, r);
        bind(&mut self.b, r);
        bind(&mut self.c, r);
        bind(&mut self.d, r);
        self.variables -= 1;
    }

    fn round_poly(&self, alloc: Global) -> Result<Vec<EF>, NoMemory> {
        let sum = product(&self.a, &self.b).plus(product(&self.c, &self.d));
        let mut values = Vec::new(alloc);
        values.push(sum.at(EF::ZERO))?;
        values.push(sum.at(EF::element(2)))?;
        Ok(values)
    }
}

// A polynomial of degree two, by its coefficients.
#[derive(Clone, Copy)]
struct Quadratic<EF> {
    constant: EF,
    linear: EF,
    leading: EF,
}

impl<EF: Field> Quadratic<EF> {
    ghost use Rattle.sc_degree_tests.specs.Views.{coefficients_in};

    // The sum.
    fn plus(self, other: Self) -> Self
        ensures constant { EF.number result.constant
            ≡ EF.number self.constant +⟨ EF.ops ⟩ EF.number other.constant }
        ensures linear { EF.number result.linear
            ≡ EF.number self.linear +⟨ EF.ops ⟩ EF.number other.linear }
        ensures leading { EF.number result.leading
            ≡ EF.number self.leading +⟨ EF.ops ⟩ EF.number other.leading }
    {
        Quadratic {
            constant: self.constant.add(other.constant),
            linear: self.linear.add(other.linear),
            leading: self.leading.add(other.leading),
        }
    }

    // The value at x.
    #[tactic(auto, unfolding(sc_definitions::specs::Polynomials::poly_at))]
    fn at(self, x: EF) -> EF
        ensures { EF.number result ≡ poly_at EF.ops (coefficients_in EF.number self) (EF.number x) }
    {
        let leading = self.leading.add(x.mul(EF::ZERO));
        let linear = self.linear.add(x.mul(leading));
        self.constant.add(x.mul(linear))
    }
}

// The sum over the rows of the product of two tables' lines.
fn product<EF: Field>(xs: &[EF], ys: &[EF]) -> Quadratic<EF>
    requires { length xs.now ≡ length ys.now }
    ensures constant { EF.number result.constant
        ≡ in_sum EF.ops constant (map EF.number xs.now) (map EF.number ys.now) }
    ensures linear { EF.number result.linear
        ≡ in_sum EF.ops linear (map EF.number xs.now) (map EF.number ys.now) }
    ensures leading { EF.number result.leading
        ≡ in_sum EF.ops leading (map EF.number xs.now) (map EF.number ys.now) }
{
    let half = xs.len() / 2;
    let mut constant = EF::ZERO;
    let mut linear = EF::ZERO;
    let mut leading = EF::ZERO;
    for k in 0..half {
        let (x, y) = (xs[k], ys[k]);
        let x_gap = xs[half + k].sub(x);
        let y_gap = ys[half + k].sub(y);
        constant = constant.add(x.mul(y));
        linear = linear.add(x.mul(y_gap).add(x_gap.mul(y)));
        leading = leading.add(x_gap.mul(y_gap));
    }
    Quadratic {
        constant,
        linear,
        leading,
    }
}

// Binds the first variable of a table at `r`, in its place.
fn bind<EF: Field>(xs: &mut Vec<EF>, r: EF)
    ensures bound { map EF.number xs.new.items
        ≡ bound EF.ops (EF.number r) (map EF.number xs.old.items) }
    ensures half { vec_len xs.new ≡ vec_len xs.old / 2 }
{
    let half = xs.len() / 2;
    for k in 0..half {
        let low = xs[k];
        let gap = xs[half + k].sub(low);
        xs[k] = low.add(gap.mul(r));
    }
    xs.truncate(half);
}
