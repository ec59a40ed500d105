//! Rounds of degree 2: products of matrices, and claims on several tables.
mod matmuls;
mod openings;

use sc_field::{ExtensionField, Field, NoMemory};
use sc_matmul::SumcheckData;
use sc_table::RoundMessage;
use sc_tests_common::{elements, of};
use std::alloc::Global;

// The rounds of a proof, by the values and the witnesses that they send.
fn rounds_of<F: Field, EF: ExtensionField<F>>(
    alloc: Global,
    rounds: &[(u64, u64)],
    witnesses: &[u64],
) -> Result<SumcheckData<F, EF>, NoMemory> {
    let mut polynomial_evaluations = Vec::new(alloc);
    for (c_a, c_inf) in rounds {
        polynomial_evaluations.push(RoundMessage {
            c_a: of(*c_a),
            c_inf: of(*c_inf),
        })?;
    }
    Ok(SumcheckData {
        polynomial_evaluations,
        pow_witnesses: elements(alloc, witnesses)?,
    })
}
