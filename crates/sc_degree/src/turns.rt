//! The round of a proof that turned a false claim about a product of tables into the true one.
ghost use Rattle.std.specs.Prelude.{◌≡◌, ◌≢◌, ◌+◌, ◌<◌, ◌≤◌, [], length, map, option_map};
ghost use Rattle.std.specs.Prelude.{IfOk, IfSome, IsSome, OnErr, OnOk};
ghost use Rattle.sc_definitions.specs.Interpolation.{next_through, sent_through};
ghost use Rattle.sc_definitions.specs.Lucky.{IsTurn, first_turn};
ghost use Rattle.sc_definitions.specs.Polynomials.{poly_minus};
ghost use Rattle.sc_definitions.specs.Rounds.{claim_along};
ghost use Rattle.sc_degree.specs.Interpolators.{degree_of};
ghost use Rattle.sc_degree.specs.Products.{product_arity, prover_of, tables_of};
ghost use Rattle.sc_degree.specs.Provers.{IsFolded, IsFoldedInPart};
ghost use Rattle.sc_degree.specs.Turns.{product_turn, messages_in, own_sum, own_course, own_value};
ghost use Rattle.sc_degree.specs.Turns.{AreRoundsOf, IsBoundAt};

use crate::coefficients::difference;
use crate::prover::RoundProver;
use crate::table_product::TableProduct;
use crate::util::RoundPolyInterpolator;
use sc_field::{Field, NoMemory};
use sc_table::Row;
use std::alloc::Global;

/// A round, by its number, and the coefficients of what it sent less the true polynomial, the
/// constant first.
#[derive(Drop)]
pub struct FoundTurn<EF> {
    pub round: usize,
    pub polynomial: Row<EF>,
}

/// Of rounds that were played on a product of tables, as many as these have variables, under a
/// claim: the first one after which the claim is the true one, if there is one. The tables are
/// bound at all challenges in their places.
///
/// Where the claim before all rounds is false, the polynomial of a round that is found is not zero,
/// vanishes at the round's challenge, and has at most as many roots as there are tables; and where
/// the claim after all rounds is then the true one, a round is found.
///
/// Each round sends as many values as there are tables, and the nodes up to that number are
/// elements. After `NoMemory` the tables are bound at the challenges of some of the rounds, from
/// the first one on, or of none.
pub fn find_turn<EF: Field>(
    alloc: Global,
    product: &mut TableProduct<EF>,
    claim: EF,
    messages: &[Vec<EF>],
    challenges: &[EF],
) -> Result<Option<FoundTurn<EF>>, NoMemory>
    requires rounds { AreRoundsOf EF.number product.old messages.now challenges.now }
    requires few { length (tables_of EF.number product.old) < EF.ops.size }
    ensures found { IfOk result (λ found. option_map (product_turn EF.number) found
        ≡ first_turn (own_course EF.ops EF.number product.old) 0 (EF.number claim)
        (messages_in EF.number messages.now) [] (map EF.number challenges.now)) }
    ensures certified { EF.number claim ≢ own_sum EF.ops EF.number product.old → IfOk result
        (λ found. IfSome found (λ t. IsTurn EF.ops (length (tables_of EF.number product.old) + 1) 0
        (map EF.number challenges.now) (product_turn EF.number t))) }
    ensures some { EF.number claim ≢ own_sum EF.ops EF.number product.old
        → claim_along (next_through EF.ops) (EF.number claim) (messages_in EF.number messages.now)
        (map EF.number challenges.now)
        ≡ own_value EF.ops EF.number product.old (map EF.number challenges.now)
        → IfOk result IsSome }
    ensures bound { OnOk result (IsBoundAt EF.ops EF.number product.old
        (map EF.number challenges.now) product.new) }
    ensures refused { OnErr result (IsFoldedInPart (map EF.number challenges.now)
        (prover_of EF.ops (tables_of EF.number product.old) (product_arity product.old))
        (prover_of EF.ops (tables_of EF.number product.new) (product_arity product.new))) }
{
    let nodes = RoundPolyInterpolator::new(alloc, product.degree())?;
    let mut claim = claim;
    let mut truth = product.sum();
    for i in 0..challenges.len() {
        let values = messages[i].as_slice();
        let r = challenges[i];
        let honest = product.round_poly(alloc)?;
        let next = nodes.eval(values, claim, r);
        let next_truth = nodes.eval(honest.as_slice(), truth, r);
        if next.index() == next_truth.index() {
            let polynomial = excess(alloc, &nodes, values, claim, honest.as_slice(), truth)?;
            fold_all(product, &challenges[i..]);
            return Ok(Some(FoundTurn {
                round: i,
                polynomial,
            }));
        }
        product.fold(r);
        claim = next;
        truth = next_truth;
    }
    Ok(None)
}

// Binds the first variables of the tables at these challenges, of which there are at most as many.
fn fold_all<EF: Field>(product: &mut TableProduct<EF>, challenges: &[EF])
    requires { length challenges.now ≤ product_arity product.old }
    ensures { IsFolded (map EF.number challenges.now)
        (prover_of EF.ops (tables_of EF.number product.old) (product_arity product.old))
        (prover_of EF.ops (tables_of EF.number product.new) (product_arity product.new)) }
{
    for r in challenges {
        product.fold(*r);
    }
}

// What the values of one round send under a claim less what those of another one do, in
// coefficients.
fn excess<EF: Field>(
    alloc: Global,
    nodes: &RoundPolyInterpolator<EF>,
    values: &[EF],
    claim: EF,
    honest: &[EF],
    truth: EF,
) -> Result<Row<EF>, NoMemory>
    requires values { length values.now ≡ degree_of nodes.now }
    requires honest { length honest.now ≡ degree_of nodes.now }
    ensures { IfOk result (λ v. map EF.number v ≡ poly_minus EF.ops
        (sent_through EF.ops (EF.number claim) (map EF.number values.now))
        (sent_through EF.ops (EF.number truth) (map EF.number honest.now))) }
{
    let sent = nodes.coefficients(alloc, values, claim)?;
    let due = nodes.coefficients(alloc, honest, truth)?;
    Ok(Row::new(difference(alloc, sent.as_slice(), due.as_slice())?))
}
