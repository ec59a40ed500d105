//! Two tables of which one side is scaled.
ghost use Rattle.std.specs.Prelude.{◌≡◌, ◌^◌, ◌<◌, ℕ, None, length};
ghost use Rattle.sc_definitions.specs.Ring.{◌*⟨◌⟩◌};
ghost use Rattle.sc_definitions.specs.Tables.{entries};
ghost use Rattle.sc_definitions.specs.ProverViews.{IsTrueClaim};
ghost use Rattle.sc_table.specs.Polys.{variables_of, table_of};
ghost use Rattle.sc_table.specs.Strategy.{order_of};
ghost use Rattle.sc_rounds.specs.ProverViews.{shown_by, stored_by};
ghost use Rattle.sc_zk_layout.specs.Grids.{pair_shown, with_side_scaled, IsScaledPair};

use sc_field::{ExtensionField, Field};
use sc_rounds::{ProductPolynomial, SumcheckProver};
use sc_table::{Poly, VariableOrder};

// The pair of two tables with one side times a value: the weights in prefix order, the evaluations
// in suffix order.
pub(crate) fn scaled_pair<F: Field, EF: ExtensionField<F>>(
    order: VariableOrder,
    evals: Poly<EF>,
    weights: Poly<EF>,
    scale: EF,
) -> ProductPolynomial<F, EF>
    requires same { variables_of evals ≡ variables_of weights }
    ensures { IsScaledPair EF.number EF.ops
        (pair_shown EF.number (order_of order) evals weights) (EF.number scale) result }
{
    match order {
        VariableOrder::Prefix => {
            ProductPolynomial::new_unpacked(order, evals, scaled_table(weights, scale))
        }
        VariableOrder::Suffix => {
            ProductPolynomial::new_unpacked(order, scaled_table(evals, scale), weights)
        }
    }
}

// A prover of two tables with one side and a claim times a value.
pub(crate) fn scaled_prover<F: Field, EF: ExtensionField<F>>(
    order: VariableOrder,
    evals: Poly<EF>,
    weights: Poly<EF>,
    claim: EF,
    scale: EF,
) -> SumcheckProver<F, EF>
    requires same { variables_of evals ≡ variables_of weights }
    requires honest { IsTrueClaim EF.ops
        (pair_shown EF.number (order_of order) evals weights (EF.number claim)) }
    ensures shown { shown_by result ≡ with_side_scaled EF.ops
        (pair_shown EF.number (order_of order) evals weights (EF.number claim))
        (EF.number scale) }
    ensures settled { (stored_by result).held ≡ None }
{
    SumcheckProver::new(scaled_pair(order, evals, weights, scale), claim.mul(scale))
}

// A table times a value, in the memory that it has.
fn scaled_table<EF: Field>(table: Poly<EF>, scale: EF) -> Poly<EF>
    ensures variables { variables_of result ≡ variables_of table }
    ensures rows { (b : ℕ) → b < 2 ^ variables_of table → table_of EF.number result b
        ≡ table_of EF.number table b *⟨ EF.ops ⟩ EF.number scale }
{
    let mut table = table;
    scale_rows(table.as_mut_slice(), scale);
    table
}

// Multiplies each row by a value.
fn scale_rows<EF: Field>(rows: &mut [EF], scale: EF)
    ensures { (b : ℕ) → b < length rows.old → entries EF.number rows.new b
        ≡ entries EF.number rows.old b *⟨ EF.ops ⟩ EF.number scale }
{
    for i in 0..rows.len() {
        rows[i] = rows[i].mul(scale);
    }
}
