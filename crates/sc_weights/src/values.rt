//! The values of weights at a point, coordinate after coordinate, in either basis.

ghost use Rattle.std.specs.Prelude.{◌≡◌, length, map};
ghost use Rattle.sc_definitions.specs.Ring.{power};
ghost use Rattle.sc_definitions.specs.Tables.{equality_weight, monomial, value, value_in};
ghost use Rattle.sc_definitions.specs.Statements.{successor_weight};
ghost use Rattle.sc_table.specs.Strategy.{basis_of};

use crate::coefficients;
use sc_field::{Algebra, Field};
use sc_table::{Basis, Point};

/// The value at `x` of the table whose entries are the equality weights of `z`.
pub(crate) fn equality_in<EF: Field>(basis: Basis, z: &[EF], x: &[EF]) -> EF
    requires { length z.now ≡ length x.now }
    ensures { EF.number result ≡ value_in (basis_of basis) EF.ops
        (equality_weight EF.ops (map EF.number z.now)) (map EF.number x.now) }
{
    match basis {
        Basis::Evaluation => Point::eval_eq(z, x),
        Basis::Projective => coefficients::equality_at(z, x),
    }
}

/// The value at `x` of the table whose entries are the successor weights of `z`.
pub(crate) fn successor_in<EF: Field>(basis: Basis, z: &[EF], x: &[EF]) -> EF
    requires { length z.now ≡ length x.now }
    ensures { EF.number result ≡ value_in (basis_of basis) EF.ops
        (successor_weight EF.ops (map EF.number z.now)) (map EF.number x.now) }
{
    let (_carry, done, omega) = match basis {
        Basis::Evaluation => Point::eval_next(z, x),
        Basis::Projective => coefficients::successor_at(z, x),
    };
    done.add(omega)
}

/// The value at `x` of the table whose entries are the powers of `var`, row 0 having one.
pub(crate) fn powers_in<F: Field, EF: Algebra<F>>(basis: Basis, var: F, x: &[EF]) -> EF
    ensures { EF.number result ≡ value_in (basis_of basis) EF.ops
        (power EF.ops (EF.embedding (F.number var))) (map EF.number x.now) }
{
    match basis {
        Basis::Evaluation => Point::eval_select(var, x),
        Basis::Projective => coefficients::powers_at(var, x).0,
    }
}

/// The value at `x` of the table whose entries are the products of the coordinates of `z`.
pub(crate) fn products_in<F: Field, EF: Algebra<F>>(basis: Basis, z: &[F], x: &[EF]) -> EF
    requires { length z.now ≡ length x.now }
    ensures { EF.number result ≡ value_in (basis_of basis) EF.ops
        (monomial EF.ops (map (λ y. EF.embedding (F.number y)) z.now)) (map EF.number x.now) }
{
    match basis {
        Basis::Evaluation => products_at(z, x),
        Basis::Projective => coefficients::products_at(z, x),
    }
}

// The value at `x` of the table whose entries are the products of the coordinates of `z`.
fn products_at<F: Field, EF: Algebra<F>>(z: &[F], x: &[EF]) -> EF
    requires { length z.now ≡ length x.now }
    ensures { EF.number result ≡ value EF.ops (monomial EF.ops (map
        (λ y. EF.embedding (F.number y)) z.now)) (map EF.number x.now) }
{
    let mut product = EF::ONE;
    for (z_i, x_i) in z.iter().zip(x) {
        let factor = EF::ONE.add(x_i.mul_base(z_i.sub(F::ONE)));
        product = product.mul(factor);
    }
    product
}
