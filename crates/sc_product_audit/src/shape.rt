//! Whether the tables and the difficulty of a job fit.
ghost use Rattle.std.specs.Prelude.{◌≡◌, ◌<◌, ◌≤◌, ◌^◌, All, IfOk, OnOk, length, map};
ghost use Rattle.sc_audit_errors.specs.Arities.{arity_of};
ghost use Rattle.sc_product_audit.specs.ProductShapes.{arity_over, shape_from};
ghost use Rattle.sc_product_audit.specs.ProductPlays.{IsDegree};

use crate::error::ProductError;
use sc_audit_errors::arity;
use sc_degree::nodes_distinct;
use sc_field::Field;

// How many variables the tables have, where their lengths and their number fit, and the difficulty
// is at most this bound.
pub(crate) fn fitting_arity<EF: Field>(
    tables: &[Vec<EF>],
    bits: usize,
    max_bits: usize,
) -> Result<usize, ProductError>
    ensures shape { result ≡ shape_from (arity_over (map (λ t. length t.items) tables.now))
        (length tables.now) EF.ops.size bits max_bits }
    ensures sizes { IfOk result (λ n. All (λ t. length t.items ≡ 2 ^ n) tables.now) }
    ensures degree { OnOk result (IsDegree EF.ops.size (length tables.now)) }
    ensures difficulty { OnOk result (bits ≤ max_bits) }
{
    let n = match common_arity(tables) {
        Ok(n) => n,
        Err(len) => return Err(ProductError::TableLength { len }),
    };
    if !nodes_distinct::<EF>(tables.len()) {
        return Err(ProductError::TableCount {
            tables: tables.len(),
            bound: EF::size() - 1,
        });
    }
    if bits > max_bits {
        return Err(ProductError::Difficulty {
            bits,
            bound: max_bits,
        });
    }
    Ok(n)
}

// How many variables the tables have, or the first length that does not fit. There is a table where
// they have a number.
fn common_arity<EF: Field>(tables: &[Vec<EF>]) -> Result<usize, usize>
    ensures arity { result ≡ arity_over (map (λ t. length t.items) tables.now) }
    ensures sizes { IfOk result (λ n. All (λ t. length t.items ≡ 2 ^ n) tables.now) }
    ensures some { OnOk result (1 ≤ length tables.now) }
{
    let Some(first) = tables.first() else {
        return Err(0);
    };
    let Some(n) = arity(first.len()) else {
        return Err(first.len());
    };
    for table in tables {
        if table.len() != 1 << n {
            return Err(table.len());
        }
    }
    Ok(n)
}
