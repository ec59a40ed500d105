//! Rounds over the product of several tables.
ghost use Rattle.std.specs.Prelude.{◌≡◌, ℕ, ◌+◌, ◌<◌, ◌≤◌, ◌^◌, [], All, length, map};
ghost use Rattle.std.specs.Prelude.{slice_index_or, vec_len};
ghost use Rattle.sc_definitions.specs.Ring.{◌+⟨◌⟩◌, ◌*⟨◌⟩◌};
ghost use Rattle.sc_definitions.specs.Tables.{prefix, sum_below, entries};
ghost use Rattle.sc_definitions.specs.Products.{product_claim};
ghost use Rattle.sc_table.specs.declared.poly.Poly.{Poly};
ghost use Rattle.sc_table.specs.Blocks.{FitsInBlocks};
ghost use Rattle.sc_table.specs.Polys.{variables_of, table_of, IsFixed};
ghost use Rattle.sc_degree.specs.Nodes.{node_of};
ghost use Rattle.sc_degree.specs.Lines.{line_at, lines_at};
ghost use Rattle.sc_degree.specs.Arities.{first_arity, HaveArity};

use crate::prover::RoundProver;
use crate::util::RoundPolyInterpolator;
use sc_field::{Field, NoMemory};
use sc_table::{Poly, fits_in_blocks};
use std::alloc::Global;

// How many rows a pass takes in one go.
const BLOCK: usize = 256;

/// The product of several tables of as many variables each, whose rounds have a degree of as many
/// as there are tables.
///
/// A round takes one pass over the tables, by blocks of rows, and a pass that binds its variable in
/// their places.
#[derive(Drop)]
pub struct TableProduct<A> {
    tables: Vec<Poly<A>>,

    // How many variables each of them has.
    variables: usize,
    ghost some: { 0 < vec_len tables },
    ghost same: { HaveArity variables tables.items },
}

impl<EF: Field> TableProduct<EF> {
    ghost use Rattle.sc_degree.specs.Products.{tables_of, product_arity};

    /// The product of these tables, one or more, of as many variables each.
    pub fn new(tables: Vec<Poly<EF>>) -> Self
        requires some { 0 < vec_len tables }
        requires same { HaveArity (first_arity tables.items) tables.items }
        ensures tables { tables_of EF.number result ≡ map (table_of EF.number) tables.items }
        ensures arity { product_arity result ≡ first_arity tables.items }
    {
        let variables = tables[0].num_variables();
        TableProduct { tables, variables }
    }

    /// The sum over all rows of the product of the tables.
    pub fn sum(&self) -> EF
        ensures { EF.number result ≡ product_claim EF.ops (tables_of EF.number self.now) []
            (product_arity self.now) }
    {
        // A line through one row twice is its value.
        let tables = self.tables.as_slice();
        let rows = tables[0].num_evals();
        if fits_in_blocks::<EF>() {
            sum_by_blocks(tables, rows)
        } else {
            sum_singly(tables, rows, 0, EF::ZERO)
        }
    }
}

impl<EF: Field> RoundProver<EF> for TableProduct<EF> {
    ghost use Rattle.sc_degree.specs.Products.{prover_of, tables_of, product_arity};
    ghost use Rattle.sc_degree.specs.TiedLaws.{product-tied};

    ghost meaning = { λ p. prover_of EF.ops (tables_of EF.number p) (product_arity p) };

    ghost tied = { λ p. product-tied EF.ops EF.is_field.ring (tables_of EF.number p) (product_arity p) };

    fn degree(&self) -> usize {
        self.tables.len()
    }

    fn num_variables(&self) -> usize {
        self.variables
    }

    fn fold(&mut self, r: EF) {
        bind_first(self.tables.as_mut_slice(), r);
        self.variables -= 1;
    }

    fn round_poly(&self, alloc: Global) -> Result<Vec<EF>, NoMemory> {
        let mut values = Vec::new(alloc);
        values.resize(self.tables.len(), EF::ZERO)?;
        let half = self.tables[0].num_evals() / 2;
        add_rows(values.as_mut_slice(), self.tables.as_slice(), half);
        Ok(values)
    }
}

// The sum, over so many rows, of the product of the tables, by blocks of rows.
fn sum_by_blocks<EF: Field>(tables: &[Poly<EF>], rows: usize) -> EF
    requires fits { FitsInBlocks EF.row }
    requires some { 0 < length tables.now }
    requires rows { All (λ t. rows ≤ 2 ^ variables_of t) tables.now }
    ensures { EF.number result ≡ sum_below EF.ops rows
        (λ b. lines_at EF.ops (map (table_of EF.number) tables.now) b b 0) }
{
    let mut products = [EF::ZERO; BLOCK];
    let ones = [EF::ONE; BLOCK];
    let mut sum = EF::ZERO;
    let mut from = 0;
    while from < rows {
        let block = (rows - from).min(BLOCK);
        let gained = block_sum(
            tables,
            from,
            from,
            EF::ZERO,
            &mut products[..block],
            &ones[..block],
        );
        sum = sum.add(gained);
        from += block;
    }
    sum
}

// The sum, over so many rows, of the product of the tables' lines at `x`, row after row: each line
// goes from a row to the one so many rows further on.
fn sum_singly<EF: Field>(tables: &[Poly<EF>], rows: usize, apart: usize, x: EF) -> EF
    requires fits { apart + rows < 2 ^ 64 }
    requires rows { All (λ t. apart + rows ≤ 2 ^ variables_of t) tables.now }
    ensures { EF.number result ≡ sum_below EF.ops rows
        (λ b. lines_at EF.ops (map (table_of EF.number) tables.now) b (apart + b) (EF.number x)) }
{
    let mut sum = EF::ZERO;
    for b in 0..rows {
        sum = sum.add(product_at(tables, b, apart + b, x));
    }
    sum
}

// The product of the values at `x` of the tables' lines through two rows.
fn product_at<EF: Field>(tables: &[Poly<EF>], low: usize, high: usize, x: EF) -> EF
    requires low { All (λ t. low < 2 ^ variables_of t) tables.now }
    requires high { All (λ t. high < 2 ^ variables_of t) tables.now }
    ensures { EF.number result
        ≡ lines_at EF.ops (map (table_of EF.number) tables.now) low high (EF.number x) }
{
    let mut product = EF::ONE;
    for index in 0..tables.len() {
        let table = tables[index].as_slice();
        let (lo, hi) = (table[low], table[high]);
        product = product.mul(lo.add(hi.sub(lo).mul(x)));
    }
    product
}

// Binds the first variable of each table at `r`, in its place.
fn bind_first<EF: Field>(tables: &mut [Poly<EF>], r: EF)
    requires { All (λ t. 0 < variables_of t) tables.old }
    ensures { (k : ℕ) (d : Poly EF) → k < length tables.old →
        IsFixed prefix EF.ops EF.number (EF.number r) (slice_index_or tables.old k d)
        (slice_index_or tables.new k d) }
{
    for table in tables.iter_mut() {
        table.fix_prefix_var_mut::<EF>(r);
    }
}

// Adds to the value at each node that a round sends the products of the tables' lines at it, over
// all rows of their first halves.
fn add_rows<EF: Field>(values: &mut [EF], tables: &[Poly<EF>], half: usize)
    requires some { 0 < length tables.now }
    requires halves { All (λ t. half + half ≡ 2 ^ variables_of t) tables.now }
    requires fits { half + half < 2 ^ 64 }
    requires nodes { length values.old < EF.ops.size }
    ensures { (k : ℕ) → k < length values.old → entries EF.number values.new k
        ≡ entries EF.number values.old k
        +⟨ EF.ops ⟩ sum_below EF.ops half
        (λ b. lines_at EF.ops (map (table_of EF.number) tables.now) b (half + b) (node_of k)) }
{
    if fits_in_blocks::<EF>() {
        add_rows_by_blocks(values, tables, half);
    } else {
        add_rows_singly(values, tables, half);
    }
}

// The same, row after row.
fn add_rows_singly<EF: Field>(values: &mut [EF], tables: &[Poly<EF>], half: usize)
    requires halves { All (λ t. half + half ≡ 2 ^ variables_of t) tables.now }
    requires fits { half + half < 2 ^ 64 }
    requires nodes { length values.old < EF.ops.size }
    ensures { (k : ℕ) → k < length values.old → entries EF.number values.new k
        ≡ entries EF.number values.old k
        +⟨ EF.ops ⟩ sum_below EF.ops half
        (λ b. lines_at EF.ops (map (table_of EF.number) tables.now) b (half + b) (node_of k)) }
{
    for index in 0..values.len() {
        let node = RoundPolyInterpolator::transmitted_node(index);
        let gained = sum_singly(tables, half, half, node);
        values[index] = values[index].add(gained);
    }
}

// The same, by blocks of rows.
fn add_rows_by_blocks<EF: Field>(values: &mut [EF], tables: &[Poly<EF>], half: usize)
    requires blocks { FitsInBlocks EF.row }
    requires some { 0 < length tables.now }
    requires halves { All (λ t. half + half ≡ 2 ^ variables_of t) tables.now }
    requires fits { half + half < 2 ^ 64 }
    requires nodes { length values.old < EF.ops.size }
    ensures { (k : ℕ) → k < length values.old → entries EF.number values.new k
        ≡ entries EF.number values.old k
        +⟨ EF.ops ⟩ sum_below EF.ops half
        (λ b. lines_at EF.ops (map (table_of EF.number) tables.now) b (half + b) (node_of k)) }
{
    let mut products = [EF::ZERO; BLOCK];
    let ones = [EF::ONE; BLOCK];
    let mut from = 0;
    while from < half {
        let rows = (half - from).min(BLOCK);
        add_block(
            values,
            tables,
            from,
            half + from,
            &mut products[..rows],
            &ones[..rows],
        );
        from += rows;
    }
}

// Adds to the value at each node that a round sends the products of the tables' lines at it, over a
// block of rows, as `block_sum` takes it.
fn add_block<EF: Field>(
    values: &mut [EF],
    tables: &[Poly<EF>],
    low: usize,
    high: usize,
    products: &mut [EF],
    ones: &[EF],
)
    requires some { 0 < length tables.now }
    requires low { All (λ t. low + length products.old ≤ 2 ^ variables_of t) tables.now }
    requires high { All (λ t. high + length products.old ≤ 2 ^ variables_of t) tables.now }
    requires ones { (b : ℕ) → b < length ones.now → entries EF.number ones.now b ≡ 1 }
    requires same { length ones.now ≡ length products.old }
    requires few { length products.old ≤ 512 }
    requires nodes { length values.old < EF.ops.size }
    ensures { (k : ℕ) → k < length values.old → entries EF.number values.new k
        ≡ entries EF.number values.old k
        +⟨ EF.ops ⟩ sum_below EF.ops (length products.old)
        (λ b. lines_at EF.ops (map (table_of EF.number) tables.now) (low + b) (high + b)
        (node_of k)) }
{
    for index in 0..values.len() {
        let node = RoundPolyInterpolator::transmitted_node(index);
        let gained = block_sum(tables, low, high, node, products, ones);
        values[index] = values[index].add(gained);
    }
}

// The sum, over a block of rows, of the product of the tables' lines at `x`: each line goes from a
// row of those from `low` on to the same one of those from `high` on. There is a one for each row
// of the block, and place for its product.
fn block_sum<EF: Field>(
    tables: &[Poly<EF>],
    low: usize,
    high: usize,
    x: EF,
    products: &mut [EF],
    ones: &[EF],
) -> EF
    requires some { 0 < length tables.now }
    requires low { All (λ t. low + length products.old ≤ 2 ^ variables_of t) tables.now }
    requires high { All (λ t. high + length products.old ≤ 2 ^ variables_of t) tables.now }
    requires ones { (b : ℕ) → b < length ones.now → entries EF.number ones.now b ≡ 1 }
    requires same { length ones.now ≡ length products.old }
    requires few { length products.old ≤ 512 }
    ensures { EF.number result ≡ sum_below EF.ops (length products.old)
        (λ b. lines_at EF.ops (map (table_of EF.number) tables.now) (low + b) (high + b)
        (EF.number x)) }
{
    let rows = products.len();
    let first = tables[0].as_slice();
    write_lines(
        products,
        &first[low..low + rows],
        &first[high..high + rows],
        x,
    );
    for index in 1..tables.len() {
        let table = tables[index].as_slice();
        multiply_lines(
            products,
            &table[low..low + rows],
            &table[high..high + rows],
            x,
        );
    }
    EF::dot(products, ones)
}

// Writes the values at `x` of the lines from the values at 0 to those at 1.
fn write_lines<EF: Field>(lines: &mut [EF], low: &[EF], high: &[EF], x: EF)
    requires low { length low.now ≡ length lines.old }
    requires high { length high.now ≡ length lines.old }
    ensures { (b : ℕ) → b < length lines.old → entries EF.number lines.new b ≡ line_at EF.ops
        (entries EF.number low.now b) (entries EF.number high.now b) (EF.number x) }
{
    if x == EF::ZERO {
        lines.copy_from_slice(low);
        return;
    }
    for b in 0..lines.len() {
        let (lo, hi) = (low[b], high[b]);
        lines[b] = lo.add(hi.sub(lo).mul(x));
    }
}

// Multiplies each product by the value at `x` of the line from its value at 0 to that at 1.
fn multiply_lines<EF: Field>(products: &mut [EF], low: &[EF], high: &[EF], x: EF)
    requires low { length low.now ≡ length products.old }
    requires high { length high.now ≡ length products.old }
    ensures { (b : ℕ) → b < length products.old → entries EF.number products.new b
        ≡ entries EF.number products.old b *⟨ EF.ops ⟩ line_at EF.ops (entries EF.number low.now b)
        (entries EF.number high.now b) (EF.number x) }
{
    if x == EF::ZERO {
        multiply(products, low);
        return;
    }
    for b in 0..products.len() {
        let (lo, hi) = (low[b], high[b]);
        products[b] = products[b].mul(lo.add(hi.sub(lo).mul(x)));
    }
}

// Multiplies each product by the factor at its place.
fn multiply<EF: Field>(products: &mut [EF], factors: &[EF])
    requires { length factors.now ≡ length products.old }
    ensures { (b : ℕ) → b < length products.old → entries EF.number products.new b
        ≡ entries EF.number products.old b *⟨ EF.ops ⟩ entries EF.number factors.now b }
{
    for b in 0..products.len() {
        products[b] = products[b].mul(factors[b]);
    }
}
