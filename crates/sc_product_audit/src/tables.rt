//! The product of the tables of a job.
ghost use Rattle.std.specs.Prelude.{◌≡◌, ◌<◌, ◌^◌, All, IfOk, length, map};
ghost use Rattle.sc_definitions.specs.Tables.{entries};
ghost use Rattle.sc_degree.specs.Products.{product_arity, tables_of};

use sc_degree::TableProduct;
use sc_field::{Field, NoMemory};
use sc_table::Poly;
use std::alloc::Global;

// The product of these tables, one or more, of `n` variables each.
pub(crate) fn product_of<EF: Field>(
    alloc: Global,
    tables: Vec<Vec<EF>>,
    n: usize,
) -> Result<TableProduct<EF>, NoMemory>
    requires some { 0 < length tables.items }
    requires sizes { All (λ t. length t.items ≡ 2 ^ n) tables.items }
    ensures tables { IfOk result (λ p. tables_of EF.number p
        ≡ map (λ t. entries EF.number t.items) tables.items) }
    ensures arity { IfOk result (λ p. product_arity p ≡ n) }
{
    let mut polys = Vec::with_capacity(alloc, tables.len())?;
    for table in tables {
        polys.push(Poly::new(table))?;
    }
    Ok(TableProduct::new(polys))
}
