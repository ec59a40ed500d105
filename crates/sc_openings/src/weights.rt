//! The tables with the weights that merge the claims on them.
ghost use Rattle.std.specs.Prelude.{◌≡◌, ℕ, ◌<◌, ◌≤◌, ◌^◌, IfOk, OnOk, length, map};
ghost use Rattle.sc_definitions.specs.Ring.{◌+⟨◌⟩◌, ◌*⟨◌⟩◌};
ghost use Rattle.sc_definitions.specs.Statements.{weight_of};
ghost use Rattle.sc_challenger.specs.Parties.{Party};
ghost use Rattle.sc_merge_definitions.specs.Openings.{claim_kind, table_at, merging_challenge};
ghost use Rattle.sc_merged.specs.WeightedPolys.{arity_in, table_in, weights_in};
ghost use Rattle.sc_merged.specs.MergedViews.{left_in, pairs_in};
ghost use Rattle.sc_openings.specs.OpeningsJobs.{table_of_entries};
ghost use Rattle.sc_openings.specs.FittingClaims.{claimed_by, case_by};
ghost use Rattle.sc_openings.specs.ClaimedValues.{AreWeighted};
ghost use Rattle.sc_openings.specs.OpeningsPlays.{AreTablesOf};

use crate::claim::OpeningClaim;
use crate::shape::FittingClaims;
use sc_field::{ExtensionField, Field, NoMemory, with_room};
use sc_merged::{MergedTables, WeightedPoly};
use sc_table::{Poly, SplitEq};
use std::alloc::Global;

// The tables, each with the weights of the claims on it, a claim's weights times the power of the
// challenge by its place among all claims.
//
// It takes two tables in the extension for each one, and, while a claim on next rows is added, one
// more. The time is that of as many passes over a table as there are tables and claims.
pub(crate) fn merged_tables<F: Field, EF: ExtensionField<F>>(
    alloc: Global,
    fitting: &FittingClaims<'_, F, EF>,
    challenge: EF,
) -> Result<MergedTables<EF>, NoMemory>
    ensures variables { IfOk result (λ t. left_in t ≡ fitting.now.num_variables) }
    ensures count { IfOk result (λ t. length (pairs_in EF.number t)
        ≡ length fitting.now.tables.now) }
    ensures tables { IfOk result (λ t. (at : Party)
        → EF.number challenge ≡ merging_challenge (case_by fitting.now at)
        → AreTablesOf EF.number (case_by fitting.now at) t) }
{
    let mut pairs = unweighted(alloc, fitting)?;
    let mut power = EF::ONE;
    for i in 0..fitting.claims.len() {
        let claim = &fitting.claims[i];
        add_claim(alloc, &mut pairs[claim.table], claim, power)?;
        power = power.mul(challenge);
    }
    Ok(MergedTables::new(fitting.num_variables, pairs))
}

// The tables, without weights yet.
fn unweighted<F: Field, EF: ExtensionField<F>>(
    alloc: Global,
    fitting: &FittingClaims<'_, F, EF>,
) -> Result<Vec<WeightedPoly<EF>>, NoMemory>
    ensures { IfOk result (λ v. AreWeighted EF.number fitting.now.num_variables
        (length fitting.now.tables.now) (λ j. record {
          table = table_at (map (table_of_entries EF.embedding)
              (claimed_by fitting.now).tables) j;
          weights = λ b. 0;
        }) v.items) }
{
    let mut pairs = with_room(alloc, fitting.tables.len())?;
    for i in 0..fitting.tables.len() {
        let table = embedded(alloc, &fitting.tables[i])?;
        let weights = Poly::zero(alloc, fitting.num_variables)?;
        pairs.push_reserved(WeightedPoly::new(Poly::new(table), weights));
    }
    Ok(pairs)
}

// The images of a table's entries.
fn embedded<F: Field, EF: ExtensionField<F>>(
    alloc: Global,
    table: &[F],
) -> Result<Vec<EF>, NoMemory>
    ensures { IfOk result (λ v. map EF.number v.items
        ≡ map (λ x. EF.embedding (F.number x)) table.now) }
{
    let mut images = with_room(alloc, table.len())?;
    for x in table {
        images.push_reserved(EF::embed(*x));
    }
    Ok(images)
}

// Adds the weights of a claim, each times a scale, to those of its table.
fn add_claim<EF: Field>(
    alloc: Global,
    pair: &mut WeightedPoly<EF>,
    claim: &OpeningClaim<EF>,
    scale: EF,
) -> Result<(), NoMemory>
    requires point { length claim.now.point ≡ arity_in pair.old }
    requires few { length claim.now.point ≤ 16 }
    ensures variables { OnOk result (arity_in pair.new ≡ arity_in pair.old) }
    ensures table { OnOk result (table_in EF.number pair.new ≡ table_in EF.number pair.old) }
    ensures weights { OnOk result ((b : ℕ) → b < 2 ^ arity_in pair.old
        → weights_in EF.number pair.new b ≡ weights_in EF.number pair.old b
        +⟨ EF.ops ⟩ EF.number scale *⟨ EF.ops ⟩ weight_of EF.ops
        (claim_kind claim.now.successor (map EF.number claim.now.point)) b) }
{
    if claim.successor {
        let weights = Poly::new_next_from_point(alloc, claim.point.as_slice())?;
        pair.add_weights(weights.as_slice(), scale);
    } else {
        let weights = SplitEq::<EF, EF>::new_unpacked(alloc, &claim.point, scale)?;
        pair.add_equality(&weights);
    }
    Ok(())
}
