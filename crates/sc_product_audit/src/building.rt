//! Rounds over a product that are built.
ghost use Rattle.std.specs.Prelude.{◌≡◌, ◌≤◌, length};
ghost use Rattle.sc_challenger.specs.Parties.{channel_by};
ghost use Rattle.sc_degree.specs.Products.{tables_of};
ghost use Rattle.sc_product_audit.specs.ProductCases.{to_build, true_sum};
ghost use Rattle.sc_product_audit.specs.ProductReports.{result_in, task_result};
ghost use Rattle.sc_product_audit.specs.ProductAudits.{GivesResult, LeavesHistory};
ghost use Rattle.sc_product_audit.specs.ProductPlays.{IsDegree, LeavesBuilt, case_at};

use crate::error::ProductError;
use crate::refusals::refusal;
use crate::report::{ProductReport, ProductVerdict};
use sc_challenger::Challenger;
use sc_degree::{GenericDegreeError, GenericDegreeProof, RoundProver, TableProduct};
use sc_field::{ExtensionField, Field};
use std::alloc::Global;

// Rounds that were built, and the product of the tables' values at their challenges.
#[derive(Drop)]
struct Built<F, EF> {
    proof: GenericDegreeProof<F, EF>,
    product: EF,
}

// Builds the rounds of a product with its true sum on a copy of the challenger, and replays them on
// the challenger itself.
pub(crate) fn build<F: Field, EF: ExtensionField<F>, C: Challenger<F>>(
    alloc: Global,
    product: TableProduct<EF>,
    pow_bits: usize,
    challenger: &mut C,
) -> Result<ProductReport<F, EF>, ProductError>
    requires degree { IsDegree EF.ops.size (length (tables_of EF.number product)) }
    requires difficulty { pow_bits ≤ (C.party challenger.old).rules.max_bits }
    ensures rules { (C.party challenger.new).rules ≡ (C.party challenger.old).rules }
    ensures result { GivesResult (task_result (case_at EF.ops EF.number product
        (channel_by (C.party challenger.old) EF.extension F.ops.size pow_bits)
        (C.party challenger.old).history) to_build) (result_in F.number EF.number result) }
    ensures history { LeavesHistory (case_at EF.ops EF.number product
        (channel_by (C.party challenger.old) EF.extension F.ops.size pow_bits)
        (C.party challenger.old).history) to_build (result_in F.number EF.number result)
        (C.party challenger.new).history }
{
    let variables = product.num_variables();
    let degree = product.degree();
    let sum = product.sum();
    let built = match play(alloc, product, sum, pow_bits, challenger) {
        Ok(built) => built,
        Err(error) => return Err(refusal(error, pow_bits)),
    };
    let Built { proof, product } = built;
    match proof.verify(alloc, challenger, variables, degree, pow_bits) {
        Ok((challenges, residual)) => Ok(ProductReport {
            proof,
            challenges,
            residual,
            product,
            verdict: ProductVerdict::Holds,
        }),
        // what was built passes, memory aside
        Err(error) => Err(refusal(error, pow_bits)),
    }
}

// Builds the rounds of a product with its true sum in the transcript of a copy of the challenger.
fn play<F: Field, EF: ExtensionField<F>, C: Challenger<F>>(
    alloc: Global,
    product: TableProduct<EF>,
    sum: EF,
    pow_bits: usize,
    challenger: &C,
) -> Result<Built<F, EF>, GenericDegreeError>
    requires degree { IsDegree EF.ops.size (length (tables_of EF.number product)) }
    requires difficulty { pow_bits ≤ (C.party challenger.now).rules.max_bits }
    requires sum { EF.number sum ≡ true_sum (case_at EF.ops EF.number product
        (channel_by (C.party challenger.now) EF.extension F.ops.size pow_bits)
        (C.party challenger.now).history) }
    ensures { LeavesBuilt F.number EF.number (case_at EF.ops EF.number product
        (channel_by (C.party challenger.now) EF.extension F.ops.size pow_bits)
        (C.party challenger.now).history) result }
{
    let mut product = product;
    let variables = product.num_variables();
    let degree = product.degree();
    let mut copied = challenger.copy(alloc)?;
    let (proof, _) = product.prove(alloc, &mut copied, variables, degree, pow_bits, sum)?;
    Ok(Built {
        proof,
        product: product.sum(),
    })
}
