//! Tables by a rule.
ghost use Rattle.std.specs.Prelude.{◌≡◌, ◌≤◌, IfOk};
ghost use Rattle.sc_table.specs.Polys.{variables_of};

use sc_field::laws::field_laws;
use sc_field::{Field, NoMemory};
use sc_table::Poly;
use std::alloc::Global;

/// Entry i of a table: each third is the element before zero, and the others are `factor` times i.
pub fn entry<F: Field>(i: usize, factor: u64) -> F {
    field_laws::<F>();
    if i % 3 == 0 {
        F::ZERO.sub(F::ONE)
    } else {
        F::element((i as u64).wrapping_mul(factor) % F::size())
    }
}

/// The table of these entries.
pub fn table<A: Field>(alloc: Global, n: usize, factor: u64) -> Result<Poly<A>, NoMemory>
    requires { n ≤ 16 }
    ensures { IfOk result (λ p. variables_of p ≡ n) }
{
    let mut table = Poly::zero(alloc, n)?;
    let rows = table.as_mut_slice();
    for i in 0..rows.len() {
        rows[i] = entry(i, factor);
    }
    Ok(table)
}
