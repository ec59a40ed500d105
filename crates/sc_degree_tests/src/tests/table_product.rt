//! Products of tables against plain loops, and figures by hand.

ghost use Rattle.std.specs.Prelude.{◌≡◌, ◌+◌, ◌<◌, ◌≤◌, length, vec_len, IfOk};
ghost use Rattle.sc_table.specs.Polys.{variables_of};
ghost use Rattle.sc_degree.specs.Arities.{HaveArity};
ghost use Rattle.sc_degree.specs.Products.{tables_of, product_arity};

use sc_degree::{RoundProver, TableProduct};
use sc_field::{Field, NoMemory};
use sc_sixteen::Tower16;
use sc_small_fields::{F257x2, F65537};
use sc_table::Poly;
use sc_tests_common::{Wide, elements, entry, have_numbers, of, table};
use std::alloc::Global;

// So many tables of so many variables, which differ.
fn tables<F: Field>(alloc: Global, count: usize, variables: usize) -> Result<Vec<Poly<F>>, NoMemory>
    requires count { count ≤ 8 }
    requires variables { variables ≤ 16 }
    ensures length { IfOk result (λ v. length v.items ≡ count) }
    ensures arity { IfOk result (λ v. HaveArity variables v.items) }
{
    let mut list = Vec::new(alloc);
    for t in 0..count {
        list.push(table(alloc, variables, 12345 + 1000 * t as u64)?)?;
    }
    Ok(list)
}

// The values of tables, in memory of their own.
fn copies<F: Field>(alloc: Global, tables: &[Poly<F>]) -> Result<Vec<Vec<F>>, NoMemory> {
    let mut list = Vec::new(alloc);
    for table in tables {
        list.push(Vec::from_slice(alloc, table.as_slice())?)?;
    }
    Ok(list)
}

// ---- the plain loops

fn row<F: Field>(table: &[F], b: usize) -> F {
    match table.get(b) {
        Some(value) => *value,
        None => F::ZERO,
    }
}

fn line<F: Field>(low: F, high: F, x: F) -> F {
    low.add(high.sub(low).mul(x))
}

// The product of the tables' lines at `x`, from a row to another.
fn plain_product<F: Field>(tables: &[Vec<F>], low: usize, high: usize, x: F) -> F {
    let mut product = F::ONE;
    for table in tables {
        product = product.mul(line(row(table, low), row(table, high), x));
    }
    product
}

// The sum of these products over the rows of a half.
fn plain_value<F: Field>(tables: &[Vec<F>], half: usize, x: F) -> F
    requires { half ≤ 100000 }
{
    let mut sum = F::ZERO;
    for b in 0..half {
        sum = sum.add(plain_product(tables, b, half + b, x));
    }
    sum
}

// The sum of the products of all rows.
fn plain_sum<F: Field>(tables: &[Vec<F>], rows: usize) -> F {
    let mut sum = F::ZERO;
    for b in 0..rows {
        sum = sum.add(plain_product(tables, b, b, F::ZERO));
    }
    sum
}

fn bound<F: Field>(alloc: Global, table: &[F], r: F) -> Result<Vec<F>, NoMemory> {
    let half = table.len() / 2;
    let mut values = Vec::new(alloc);
    for b in 0..half {
        values.push(line(table[b], table[half + b], r))?;
    }
    Ok(values)
}

fn all_bound<F: Field>(alloc: Global, tables: &[Vec<F>], r: F) -> Result<Vec<Vec<F>>, NoMemory> {
    let mut list = Vec::new(alloc);
    for table in tables {
        list.push(bound(alloc, table, r)?)?;
    }
    Ok(list)
}

// Whether these are the values of a round at node 0 and at the nodes from 2 on, one for each table.
fn values_agree<F: Field>(values: &[F], tables: &[Vec<F>], half: usize) -> bool
    requires few { length values.now ≤ 8 }
    requires half { half ≤ 100000 }
{
    if values.len() != tables.len() {
        return false;
    }
    for index in 0..values.len() {
        let node = if index == 0 { 0 } else { index + 1 };
        if values[index] != plain_value(tables, half, F::element(node as u64)) {
            return false;
        }
    }
    true
}

// Whether the sum and each round of a product of so many tables are those of the plain loops.
fn rounds_agree<F: Field>(alloc: Global, count: usize, variables: usize) -> Result<bool, NoMemory>
    requires some { 1 ≤ count }
    requires count { count ≤ 8 }
    requires variables { variables ≤ 16 }
{
    let chosen = tables::<F>(alloc, count, variables)?;
    let mut plain = copies(alloc, &chosen)?;
    let mut product = TableProduct::new(chosen);
    if product.degree() != count || product.sum() != plain_sum(&plain, 1 << variables) {
        return Ok(false);
    }
    let mut left = variables;
    while left > 0 {
        if product.num_variables() != left {
            return Ok(false);
        }
        left -= 1;
        let values = product.round_poly(alloc)?;
        if values.len() != count || !values_agree(&values, &plain, 1 << left) {
            return Ok(false);
        }
        let r = entry(left + 1, 7777);
        product.fold(r);
        plain = all_bound(alloc, &plain, r)?;
    }
    Ok(product.num_variables() == 0 && product.sum() == plain_sum(&plain, 1))
}

#[test]
fn rounds_of_each_number_of_tables(rt: HostRuntime) {
    for count in 1..9 {
        assert!(rt;
            rounds_agree::<F65537>(rt.alloc(), count, 10) == Ok(true),
            "{count}"
        );
        assert!(rt;
            rounds_agree::<F257x2>(rt.alloc(), count, 10) == Ok(true),
            "{count}"
        );
        assert!(rt;
            rounds_agree::<Tower16>(rt.alloc(), count, 10) == Ok(true),
            "{count}"
        );
    }
}

// A block has 256 rows, as many as a half of 9 variables. Elements that are too large for blocks
// are taken row by row.
#[test]
fn rounds_around_a_block(rt: HostRuntime) {
    for variables in 0..13 {
        assert!(rt;
            rounds_agree::<F65537>(rt.alloc(), 3, variables) == Ok(true),
            "{variables}"
        );
        assert!(rt;
            rounds_agree::<Wide<F65537>>(rt.alloc(), 2, variables) == Ok(true),
            "{variables}"
        );
    }
}

// ---- by hand

// The table of two rows.
fn two_rows<F: Field>(alloc: Global, rows: (u64, u64)) -> Result<Poly<F>, NoMemory>
    ensures { IfOk result (λ p. variables_of p ≡ 1) }
{
    Ok(Poly::new(elements(alloc, &[rows.0, rows.1])?))
}

// The product of tables of these two rows each.
fn product_of<F: Field>(alloc: Global, rows: &[(u64, u64)]) -> Result<TableProduct<F>, NoMemory>
    requires { 0 < length rows.now }
    ensures arity { IfOk result (λ p. product_arity p ≡ 1) }
    ensures degree { IfOk result (λ p. length (tables_of F.number p) ≡ length rows.now) }
{
    let mut tables = Vec::new(alloc);
    for pair in rows {
        tables.push(two_rows(alloc, *pair)?)?;
    }
    Ok(TableProduct::new(tables))
}

#[test]
fn two_tables_by_hand(rt: HostRuntime) {
    let mut product: TableProduct<F65537> = product_of(rt.alloc(), &[(1, 2), (3, 4)]).expect(
        &rt,
        "an answer",
    );
    assert!(rt;
        product.degree() == 2 && product.num_variables() == 1 && product.sum().index() == 11
    );
    let values = product.round_poly(rt.alloc()).expect(&rt, "an answer");
    assert!(rt; have_numbers(&values, &[3, 15]));
    product.fold(of(5));
    assert!(rt;
        product.degree() == 2 && product.num_variables() == 0 && product.sum().index() == 48
    );
}

#[test]
fn three_tables_by_hand(rt: HostRuntime) {
    let mut product: TableProduct<F65537> = product_of(
        rt.alloc(),
        &[(1, 2), (3, 4), (5, 6)],
    ).expect(&rt, "an answer");
    assert!(rt; product.sum().index() == 63);
    let values = product.round_poly(rt.alloc()).expect(&rt, "an answer");
    assert!(rt; have_numbers(&values, &[15, 105, 192]));
    product.fold(of(5));
    assert!(rt;
        product.degree() == 3 && product.num_variables() == 0 && product.sum().index() == 480
    );
}
