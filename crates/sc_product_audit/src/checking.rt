//! Rounds of a proof over a product that are checked.
ghost use Rattle.std.specs.Prelude.{◌≡◌, ◌≢◌, ◌<◌, ◌≤◌, ◌==◌, []};
ghost use Rattle.std.specs.Prelude.{IfOk, length, map, option_map};
ghost use Rattle.sc_definitions.specs.Lucky.{first_turn, product_course};
ghost use Rattle.sc_definitions.specs.Products.{values_product};
ghost use Rattle.sc_challenger.specs.Parties.{channel_by};
ghost use Rattle.sc_degree.specs.Products.{product_arity, tables_of};
ghost use Rattle.sc_degree.specs.Turns.{product_turn, messages_in, AreRoundsOf};
ghost use Rattle.sc_product_audit.specs.ProductCases.{to_check};
ghost use Rattle.sc_product_audit.specs.ProductJobs.{given_by};
ghost use Rattle.sc_product_audit.specs.ProductReports.{luck_found, product_finding, result_in};
ghost use Rattle.sc_product_audit.specs.ProductReports.{task_result, verdict_finding};
ghost use Rattle.sc_product_audit.specs.ProductAudits.{GivesResult, LeavesHistory};
ghost use Rattle.sc_product_audit.specs.ProductPlays.{IsDegree, case_at};

use crate::error::ProductError;
use crate::refusals::refusal;
use crate::report::{ProductReport, ProductVerdict};
use sc_challenger::Challenger;
use sc_degree::{FoundTurn, GenericDegreeProof, RoundProver, TableProduct, find_turn};
use sc_field::laws::count_roots;
use sc_field::{ExtensionField, Field, NoMemory};
use std::alloc::Global;

// Replays the rounds of a proof, and reports on them.
pub(crate) fn check<F: Field, EF: ExtensionField<F>, C: Challenger<F>>(
    alloc: Global,
    product: TableProduct<EF>,
    proof: GenericDegreeProof<F, EF>,
    pow_bits: usize,
    challenger: &mut C,
) -> Result<ProductReport<F, EF>, ProductError>
    requires degree { IsDegree EF.ops.size (length (tables_of EF.number product)) }
    requires difficulty { pow_bits ≤ (C.party challenger.old).rules.max_bits }
    ensures rules { (C.party challenger.new).rules ≡ (C.party challenger.old).rules }
    ensures result { GivesResult (task_result (case_at EF.ops EF.number product
        (channel_by (C.party challenger.old) EF.extension F.ops.size pow_bits)
        (C.party challenger.old).history) (to_check (given_by F.number EF.number proof)))
        (result_in F.number EF.number result) }
    ensures history { LeavesHistory (case_at EF.ops EF.number product
        (channel_by (C.party challenger.old) EF.extension F.ops.size pow_bits)
        (C.party challenger.old).history) (to_check (given_by F.number EF.number proof))
        (result_in F.number EF.number result) (C.party challenger.new).history }
{
    let variables = product.num_variables();
    let degree = product.degree();
    let sum = product.sum();
    match proof.verify(alloc, challenger, variables, degree, pow_bits) {
        Ok((challenges, residual)) => {
            let (product, turn) = end_at(alloc, product, sum, &proof, challenges.as_slice())?;
            let matched = residual.index() == product.index();
            let is_true = proof.claimed_sum.index() == sum.index();
            let verdict = verdict_on(matched, is_true, turn);
            Ok(ProductReport {
                proof,
                challenges,
                residual,
                product,
                verdict,
            })
        }
        Err(error) => Err(refusal(error, pow_bits)),
    }
}

// What rounds say of a claimed sum, as what they leave of it is the product of the tables' values
// or not, as it is the true sum or not, and this is the first round that turned it into the true
// one. Where it is false although what is left is the product there always is such a round.
fn verdict_on<EF: Field>(
    matched: bool,
    is_true: bool,
    turn: Option<FoundTurn<EF>>,
) -> ProductVerdict<EF>
    ensures { verdict_finding EF.number result
        ≡ product_finding matched is_true (luck_found EF.ops EF.number turn) }
{
    if !matched {
        return ProductVerdict::Refuted;
    }
    if is_true {
        return ProductVerdict::Holds;
    }
    match turn {
        Some(turn) => {
            let vanishing = count_roots(turn.polynomial.as_slice());
            ProductVerdict::LuckyRound {
                round: turn.round,
                poly: turn.polynomial,
                vanishing,
            }
        }
        None => ProductVerdict::Refuted,
    }
}

// The product of the tables' values at the challenges of rounds, and, where the claimed sum is not
// this true one, the first round after which the claim is the true one, if there is one. The tables
// are bound in their places.
fn end_at<F: Field, EF: ExtensionField<F>>(
    alloc: Global,
    product: TableProduct<EF>,
    sum: EF,
    proof: &GenericDegreeProof<F, EF>,
    challenges: &[EF],
) -> Result<(EF, Option<FoundTurn<EF>>), NoMemory>
    requires rounds { AreRoundsOf EF.number product proof.now.round_polys.items challenges.now }
    requires few { length (tables_of EF.number product) < EF.ops.size }
    ensures product { IfOk result (λ e. EF.number e.0 ≡ values_product EF.ops
        (tables_of EF.number product) (map EF.number challenges.now)) }
    ensures turn { IfOk result (λ e. EF.number proof.now.claimed_sum ≢ EF.number sum
        → option_map (product_turn EF.number) e.1
        ≡ first_turn (product_course EF.ops (tables_of EF.number product)) 0
        (EF.number proof.now.claimed_sum)
        (messages_in EF.number proof.now.round_polys.items) []
        (map EF.number challenges.now)) }
{
    if proof.claimed_sum.index() == sum.index() {
        return Ok((value_at(product, challenges), None));
    }
    let mut product = product;
    let turn = find_turn(
        alloc,
        &mut product,
        proof.claimed_sum,
        &proof.round_polys,
        challenges,
    )?;
    Ok((product.sum(), turn))
}

// The product of the tables' values at as many challenges as they have variables. The tables are
// bound in their places.
fn value_at<EF: Field>(product: TableProduct<EF>, challenges: &[EF]) -> EF
    requires { length challenges.now ≡ product_arity product }
    ensures { EF.number result ≡ values_product EF.ops (tables_of EF.number product)
        (map EF.number challenges.now) }
{
    let mut product = product;
    for r in challenges {
        product.fold(*r);
    }
    product.sum()
}
