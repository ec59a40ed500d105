//! Partial sums of batches, and the layouts that open tables by them.
ghost use Rattle.std.specs.Prelude.{◌≡◌, IfOk};
ghost use Rattle.sc_table.specs.Polys.{variables_of};

mod layout;
mod svo;

use sc_field::NoMemory;
use sc_small_fields::F65537;
use sc_table::Poly;
use sc_tests_common::elements;
use std::alloc::Global;

// The table 1, 2, 3, 4.
fn four(alloc: Global) -> Result<Poly<F65537>, NoMemory>
    ensures { IfOk result (λ p. variables_of p ≡ 2) }
{
    Ok(Poly::new(elements(alloc, &[1, 2, 3, 4])?))
}
