//! Rows of zeros.
ghost use Rattle.std.specs.Prelude.{◌≡◌, ℕ, ◌<◌, IfOk, length, vec_len};
ghost use Rattle.sc_definitions.specs.Tables.{entries};

use sc_field::Field;
use sc_memory::NoMemory;
use std::alloc::Global;

// So many zeros.
pub(crate) fn zeros<EF: Field>(alloc: Global, len: usize) -> Result<Vec<EF>, NoMemory>
    ensures len { IfOk result (λ rows. vec_len rows ≡ len) }
    ensures zero { IfOk result (λ rows. (b : ℕ) → entries EF.number rows.items b ≡ 0) }
{
    let mut rows = Vec::new(alloc);
    rows.resize(len, EF::ZERO)?;
    Ok(rows)
}

// Writes zero into each row.
pub(crate) fn clear<EF: Field>(rows: &mut [EF])
    ensures { (b : ℕ) → b < length rows.old → entries EF.number rows.new b ≡ 0 }
{
    for b in 0..rows.len() {
        rows[b] = EF::ZERO;
    }
}
