//! The values of weights as coefficients: the table whose coefficients are a statement's weights, at
//! a point, by products and sums over the coordinates.

ghost use Rattle.std.specs.Prelude.{◌≡◌, ℕ, ◌^◌, length, map};
ghost use Rattle.sc_definitions.specs.Ring.{power};
ghost use Rattle.sc_definitions.specs.Tables.{equality_weight, monomial, coefficient_value};
ghost use Rattle.sc_definitions.specs.Parts.{Carry, Done, Omega, part_weight};

use sc_field::{Algebra, Field};

/// The value at `x` where the coefficients are the equality weights of `z`: the product of
/// 1 - z + z x over the pairs of coordinates.
pub(crate) fn equality_at<EF: Field>(z: &[EF], x: &[EF]) -> EF
    requires { length z.now ≡ length x.now }
    ensures { EF.number result
        ≡ coefficient_value EF.ops (equality_weight EF.ops (map EF.number z.now))
        (map EF.number x.now) }
{
    let [first, rest @ ..] = z else {
        return EF::ONE;
    };
    let factor = EF::ONE.sub(*first).add(first.mul(x[0]));
    factor.mul(equality_at(rest, &x[1..]))
}

/// The value at `x` where the coefficients are the products of the coordinates of `z`: the product
/// of 1 + z x over the pairs of coordinates.
pub(crate) fn products_at<F: Field, EF: Algebra<F>>(z: &[F], x: &[EF]) -> EF
    requires { length z.now ≡ length x.now }
    ensures { EF.number result ≡ coefficient_value EF.ops
        (monomial EF.ops (map (λ y. EF.embedding (F.number y)) z.now)) (map EF.number x.now) }
{
    let [first, rest @ ..] = z else {
        return EF::ONE;
    };
    let factor = EF::ONE.add(x[0].mul_base(*first));
    factor.mul(products_at(rest, &x[1..]))
}

/// The values at `x` where the coefficients are the parts of the successor weights of `z`: what is
/// carried out of the last row, what is done, and the last row's own. The last two in sum are the
/// value of the successor weights.
pub(crate) fn successor_at<EF: Field>(z: &[EF], x: &[EF]) -> (EF, EF, EF)
    requires { length z.now ≡ length x.now }
    ensures carry { EF.number result.0 ≡ coefficient_value EF.ops
        (part_weight EF.ops Carry (map EF.number z.now)) (map EF.number x.now) }
    ensures done { EF.number result.1 ≡ coefficient_value EF.ops
        (part_weight EF.ops Done (map EF.number z.now)) (map EF.number x.now) }
    ensures omega { EF.number result.2 ≡ coefficient_value EF.ops
        (part_weight EF.ops Omega (map EF.number z.now)) (map EF.number x.now) }
{
    let [first, rest @ ..] = z else {
        return (EF::ONE, EF::ZERO, EF::ONE);
    };
    let (carry, done, omega) = successor_at(rest, &x[1..]);
    let coordinate = x[0];
    let both = first.mul(coordinate);
    let falls = EF::ONE.sub(*first);
    let carried = falls.mul(coordinate).mul(carry);
    let done = falls.add(both).mul(done).add(carried);
    (first.mul(carry), done, both.mul(omega))
}

/// The value at `x` where the coefficients are the powers of `var`, row 0 having one: the product
/// over the coordinates of 1 + v x, where v is the power of the row whose one digit is that
/// coordinate's. And the power after the last row.
pub(crate) fn powers_at<F: Field, EF: Algebra<F>>(var: F, x: &[EF]) -> (EF, EF)
    ensures value { EF.number result.0 ≡ coefficient_value EF.ops
        (power EF.ops (EF.embedding (F.number var))) (map EF.number x.now) }
    ensures next { EF.number result.1 ≡ power EF.ops (EF.embedding (F.number var))
        (2 ^ length x.now) }
{
    let [first, rest @ ..] = x else {
        return (EF::ONE, EF::embed(var));
    };
    let (value, next) = powers_at(var, rest);
    let factor = EF::ONE.add(next.mul(*first));
    (factor.mul(value), next.square())
}
