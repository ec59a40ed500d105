//! Selecting weights: the powers of a scalar, or the products of a point's coordinates.

ghost use Rattle.std.specs.Prelude.{◌≡◌, ℕ, ◌-◌, ◌*◌, ◌^◌, ◌<◌, ◌≤◌, length, map, drop};
ghost use Rattle.sc_definitions.specs.Ring.{power, ◌+⟨◌⟩◌, ◌*⟨◌⟩◌};
ghost use Rattle.sc_definitions.specs.Tables.{entries, monomial, sum_below, inner_product, value};
ghost use Rattle.sc_table.specs.Blocks.{FitsInBlocks};

use crate::row_weights::RowWeights;
use crate::values::{powers_in, products_in};
use sc_field::{Algebra, ExtensionField, Field};
use sc_table::{BLOCK_COORDINATES, Basis, Point, Poly, add_scaled, fits_in_blocks};

/// What selects in a table.
#[derive(Drop)]
pub enum Selector<'a, F> {
    /// A scalar: row b has its power b, and row 0 has one.
    Scalar(F),
    /// A point: a row has the product of the coordinates whose digit in the row is 1.
    Direct(&'a Point<F>),
}

impl<'a, F: Field, EF: ExtensionField<F>> RowWeights<EF> for Selector<'a, F> {
    ghost use Rattle.sc_weights.specs.Selectors.{selected_kind};

    ghost kind = { selected_kind (λ x. EF.embedding (F.number x)) };

    fn add_to(&self, table: &mut Poly<EF>, scale: EF) {
        match self {
            Selector::Scalar(var) => {
                let variables = table.num_variables();
                add_powers(table.as_mut_slice(), variables, *var, scale)
            }
            Selector::Direct(point) => add_products(table.as_mut_slice(), point.as_slice(), scale),
        }
    }

    fn true_value<A: Field>(&self, rows: &[A]) -> EF
    where
        EF: Algebra<A>,
    {
        match self {
            Selector::Scalar(var) => {
                powers_value(rows, rows.len().trailing_zeros() as usize, *var)
            }
            Selector::Direct(point) => products_value(rows, point.as_slice()),
        }
    }

    fn value_at(&self, basis: Basis, row: &Point<EF>) -> EF {
        match self {
            Selector::Scalar(var) => powers_in(basis, *var, row.as_slice()),
            Selector::Direct(point) => products_in(basis, point.as_slice(), row.as_slice()),
        }
    }
}

// ---- powers

// Adds `scale` times the powers of `var`, by blocks.
fn add_powers<F: Field, EF: Algebra<F>>(rows: &mut [EF], variables: usize, var: F, scale: EF)
    requires { length rows.old ≡ 2 ^ variables }
    ensures { (b : ℕ) → b < length rows.old → entries EF.number rows.new b
        ≡ entries EF.number rows.old b +⟨ EF.ops ⟩ EF.number scale
        *⟨ EF.ops ⟩ power EF.ops (EF.embedding (F.number var)) b }
{
    if variables < BLOCK_COORDINATES || !fits_in_blocks::<EF>() {
        add_powers_by_rows(rows, var, scale);
        return;
    }
    let weights: [EF; 256] = power_weights(var);
    add_powers_by_blocks(rows, variables - BLOCK_COORDINATES, &weights, var, scale);
}

// Adds `scale` times the powers of `var`, row after row.
fn add_powers_by_rows<F: Field, EF: Algebra<F>>(rows: &mut [EF], var: F, scale: EF)
    ensures { (b : ℕ) → b < length rows.old → entries EF.number rows.new b
        ≡ entries EF.number rows.old b +⟨ EF.ops ⟩ EF.number scale
        *⟨ EF.ops ⟩ power EF.ops (EF.embedding (F.number var)) b }
{
    let mut power = scale;
    for row in rows.iter_mut() {
        *row = row.add(power);
        power = power.mul_base(var);
    }
}

// The powers of `var` at the rows of the first block.
fn power_weights<F: Field, EF: Algebra<F>>(var: F) -> [EF; 256]
    requires fits { FitsInBlocks EF.row }
    ensures { (b : ℕ) → b < 256 → entries EF.number result b
        ≡ power EF.ops (EF.embedding (F.number var)) b }
{
    let mut weights = [EF::ZERO; 256];
    add_powers_by_rows(&mut weights, var, EF::ONE);
    weights
}

// The table is halved so many times, to blocks of as many rows as there are weights. The answer is
// `scale` times the power after the last row.
fn add_powers_by_blocks<F: Field, EF: Algebra<F>>(
    rows: &mut [EF],
    halvings: usize,
    weights: &[EF],
    var: F,
    scale: EF,
) -> EF
    requires size { length rows.old ≡ 2 ^ halvings * length weights.now }
    requires some { 0 < length weights.now }
    requires weights { (c : ℕ) → c < length weights.now → entries EF.number weights.now c
        ≡ power EF.ops (EF.embedding (F.number var)) c }
    ensures rows { (b : ℕ) → b < length rows.old → entries EF.number rows.new b
        ≡ entries EF.number rows.old b +⟨ EF.ops ⟩ EF.number scale
        *⟨ EF.ops ⟩ power EF.ops (EF.embedding (F.number var)) b }
    ensures next { EF.number result ≡ EF.number scale
        *⟨ EF.ops ⟩ power EF.ops (EF.embedding (F.number var)) (length rows.old) }
{
    if halvings == 0 {
        add_scaled::<EF, EF>(rows, weights, scale);
        return scale.mul(weights[weights.len() - 1]).mul_base(var);
    }
    let half = rows.len() / 2;
    let between = add_powers_by_blocks(&mut rows[..half], halvings - 1, weights, var, scale);
    add_powers_by_blocks(&mut rows[half..], halvings - 1, weights, var, between)
}

// The sum of the entries times the powers of `var`, by blocks.
fn powers_value<F: Field, A: Field, EF: Algebra<F> + Algebra<A>>(
    rows: &[A],
    variables: usize,
    var: F,
) -> EF
    requires { length rows.now ≡ 2 ^ variables }
    ensures { EF.number result ≡ sum_below EF.ops (length rows.now)
        (λ b. ⟦<EF as Algebra<A>>⟧.embedding (entries A.number rows.now b)
        *⟨ EF.ops ⟩ power EF.ops (⟦<EF as Algebra<F>>⟧.embedding (F.number var)) b) }
{
    if variables < BLOCK_COORDINATES || !fits_in_blocks::<EF>() {
        return powers_value_by_rows(rows, var);
    }
    let weights: [EF; 256] = power_weights(var);
    let halvings = variables - BLOCK_COORDINATES;
    let (value, _next): (EF, EF) = powers_value_by_blocks(rows, halvings, &weights, var);
    value
}

// The same, and the power after the last row. The table is halved so many times, to blocks of as
// many rows as there are weights.
fn powers_value_by_blocks<F: Field, A: Field, EF: Algebra<F> + Algebra<A>>(
    rows: &[A],
    halvings: usize,
    weights: &[EF],
    var: F,
) -> (EF, EF)
    requires size { length rows.now ≡ 2 ^ halvings * length weights.now }
    requires some { 0 < length weights.now }
    requires few { length weights.now ≤ 512 }
    requires weights { (c : ℕ) → c < length weights.now → entries EF.number weights.now c
        ≡ power EF.ops (⟦<EF as Algebra<F>>⟧.embedding (F.number var)) c }
    ensures sum { EF.number result.0 ≡ sum_below EF.ops (length rows.now)
        (λ b. ⟦<EF as Algebra<A>>⟧.embedding (entries A.number rows.now b)
        *⟨ EF.ops ⟩ power EF.ops (⟦<EF as Algebra<F>>⟧.embedding (F.number var)) b) }
    ensures next { EF.number result.1 ≡ power EF.ops (⟦<EF as Algebra<F>>⟧.embedding (F.number var))
        (length rows.now) }
{
    if halvings == 0 {
        let sum: EF = EF::dot_base(rows, weights);
        return (sum, weights[weights.len() - 1].mul_base(var));
    }
    let (low, high) = rows.split_at(rows.len() / 2);
    let (lo, between): (EF, EF) = powers_value_by_blocks(low, halvings - 1, weights, var);
    let (hi, next): (EF, EF) = powers_value_by_blocks(high, halvings - 1, weights, var);
    (lo.add(between.mul(hi)), between.mul(next))
}

// The sum of the entries times the powers of `var`, the last entry first.
fn powers_value_by_rows<F: Field, A: Field, EF: Algebra<F> + Algebra<A>>(rows: &[A], var: F) -> EF
    ensures { EF.number result ≡ sum_below EF.ops (length rows.now)
        (λ b. ⟦<EF as Algebra<A>>⟧.embedding (entries A.number rows.now b)
        *⟨ EF.ops ⟩ power EF.ops (⟦<EF as Algebra<F>>⟧.embedding (F.number var)) b) }
{
    let mut sum = EF::ZERO;
    for row in rows.iter().rev() {
        sum = sum.mul_base(var).add(EF::embed(*row));
    }
    sum
}

// ---- products

// Adds `scale` times the products of the coordinates, by blocks.
fn add_products<F: Field, EF: Algebra<F>>(rows: &mut [EF], z: &[F], scale: EF)
    requires { length rows.old ≡ 2 ^ length z.now }
    ensures { (b : ℕ) → b < 2 ^ length z.now → entries EF.number rows.new b
        ≡ entries EF.number rows.old b +⟨ EF.ops ⟩ EF.number scale
        *⟨ EF.ops ⟩ monomial EF.ops (map (λ x. EF.embedding (F.number x)) z.now) b }
{
    if z.len() < BLOCK_COORDINATES || !fits_in_blocks::<EF>() {
        add_products_by_halves(rows, z, scale);
        return;
    }
    let weights: [EF; 256] = product_weights(&z[z.len() - BLOCK_COORDINATES..]);
    add_products_by_blocks(rows, z, &weights, scale);
}

// The products of the coordinates that tell the rows of a block apart.
fn product_weights<F: Field, EF: Algebra<F>>(z: &[F]) -> [EF; 256]
    requires fits { FitsInBlocks EF.row }
    requires coordinates { length z.now ≡ 8 }
    ensures { (b : ℕ) → b < 256 → entries EF.number result b ≡ monomial EF.ops (map
        (λ x. EF.embedding (F.number x)) z.now) b }
{
    let mut weights = [EF::ZERO; 256];
    add_products_by_halves(&mut weights, z, EF::ONE);
    weights
}

// The weights are the products of the last coordinates.
fn add_products_by_blocks<F: Field, EF: Algebra<F>>(
    rows: &mut [EF],
    z: &[F],
    weights: &[EF],
    scale: EF,
)
    requires size { length rows.old ≡ 2 ^ length z.now }
    requires long { 8 ≤ length z.now }
    requires block { length weights.now ≡ 256 }
    requires weights { (c : ℕ) → c < 256 → entries EF.number weights.now c ≡ monomial EF.ops (map
        (λ x. EF.embedding (F.number x)) (drop (length z.now - 8) z.now)) c }
    ensures { (b : ℕ) → b < 2 ^ length z.now → entries EF.number rows.new b
        ≡ entries EF.number rows.old b +⟨ EF.ops ⟩ EF.number scale
        *⟨ EF.ops ⟩ monomial EF.ops (map (λ x. EF.embedding (F.number x)) z.now) b }
{
    if z.len() == BLOCK_COORDINATES {
        add_scaled::<EF, EF>(rows, weights, scale);
        return;
    }
    let half = rows.len() / 2;
    add_products_by_blocks(&mut rows[..half], &z[1..], weights, scale);
    add_products_by_blocks(&mut rows[half..], &z[1..], weights, scale.mul_base(z[0]));
}

// Adds `scale` times the products of the coordinates, by halves.
fn add_products_by_halves<F: Field, EF: Algebra<F>>(rows: &mut [EF], z: &[F], scale: EF)
    requires { length rows.old ≡ 2 ^ length z.now }
    ensures { (b : ℕ) → b < 2 ^ length z.now → entries EF.number rows.new b
        ≡ entries EF.number rows.old b +⟨ EF.ops ⟩ EF.number scale
        *⟨ EF.ops ⟩ monomial EF.ops (map (λ x. EF.embedding (F.number x)) z.now) b }
{
    let [first, rest @ ..] = z else {
        rows[0] = rows[0].add(scale);
        return;
    };
    let half = rows.len() / 2;
    add_products_by_halves(&mut rows[..half], rest, scale);
    add_products_by_halves(&mut rows[half..], rest, scale.mul_base(*first));
}

// The sum of the entries times the products of the coordinates, by blocks.
fn products_value<F: Field, A: Field, EF: Algebra<F> + Algebra<A>>(rows: &[A], z: &[F]) -> EF
    requires { length rows.now ≡ 2 ^ length z.now }
    ensures { EF.number result ≡ inner_product EF.ops (length z.now)
        (λ b. ⟦<EF as Algebra<A>>⟧.embedding (entries A.number rows.now b)) (monomial EF.ops (map
        (λ x. ⟦<EF as Algebra<F>>⟧.embedding (F.number x)) z.now)) }
{
    if z.len() < BLOCK_COORDINATES || !fits_in_blocks::<EF>() {
        return products_value_by_halves(rows, z);
    }
    let weights: [EF; 256] = product_weights(&z[z.len() - BLOCK_COORDINATES..]);
    products_value_by_blocks(rows, z, &weights)
}

// The weights are the products of the last coordinates.
fn products_value_by_blocks<F: Field, A: Field, EF: Algebra<F> + Algebra<A>>(
    rows: &[A],
    z: &[F],
    weights: &[EF],
) -> EF
    requires size { length rows.now ≡ 2 ^ length z.now }
    requires long { 8 ≤ length z.now }
    requires block { length weights.now ≡ 256 }
    requires weights { (c : ℕ) → c < 256 → entries EF.number weights.now c ≡ monomial EF.ops (map
        (λ x. ⟦<EF as Algebra<F>>⟧.embedding (F.number x)) (drop (length z.now - 8) z.now)) c }
    ensures { EF.number result ≡ inner_product EF.ops (length z.now)
        (λ b. ⟦<EF as Algebra<A>>⟧.embedding (entries A.number rows.now b)) (monomial EF.ops (map
        (λ x. ⟦<EF as Algebra<F>>⟧.embedding (F.number x)) z.now)) }
{
    if z.len() == BLOCK_COORDINATES {
        return EF::dot_base(rows, weights);
    }
    let (low, high) = rows.split_at(rows.len() / 2);
    let lo: EF = products_value_by_blocks(low, &z[1..], weights);
    let hi: EF = products_value_by_blocks(high, &z[1..], weights);
    lo.add(hi.mul_base(z[0]))
}

// The sum of the entries times the products of the coordinates, by halves.
fn products_value_by_halves<F: Field, A: Field, EF: Algebra<F> + Algebra<A>>(
    rows: &[A],
    z: &[F],
) -> EF
    requires { length rows.now ≡ 2 ^ length z.now }
    ensures { EF.number result ≡ inner_product EF.ops (length z.now)
        (λ b. ⟦<EF as Algebra<A>>⟧.embedding (entries A.number rows.now b)) (monomial EF.ops (map
        (λ x. ⟦<EF as Algebra<F>>⟧.embedding (F.number x)) z.now)) }
{
    let [first, rest @ ..] = z else {
        return EF::embed(rows[0]);
    };
    let (low, high) = rows.split_at(rows.len() / 2);
    let lo: EF = products_value_by_halves(low, rest);
    let hi: EF = products_value_by_halves(high, rest);
    lo.add(hi.mul_base(*first))
}
