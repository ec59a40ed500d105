//! The round of a proof that turned a false claim into the true one.
ghost use Rattle.std.specs.Prelude.{◌≡◌, ◌≢◌, ℕ, [], ◌∷◌, IfOk, IfSome, IsSome, length, map, option_map};
ghost use Rattle.sc_definitions.specs.Polynomials.{poly_minus};
ghost use Rattle.sc_definitions.specs.TwoTables.{TwoTables, end_of};
ghost use Rattle.sc_definitions.specs.Rounds.{sent_polynomial, next_claim, claim_along};
ghost use Rattle.sc_definitions.specs.Lucky.{course_on, first_turn, IsTurn};
ghost use Rattle.sc_table.specs.Strategy.{basis_of};
ghost use Rattle.sc_transcript.specs.Data.{pair_of};
ghost use Rattle.sc_rounds.specs.Products.{variables_in, basis_in, sum_in};
ghost use Rattle.sc_rounds.specs.Turns.{IsPairOf, own_tables, turn_in, three_of};

use crate::product_polynomial::ProductPolynomial;
use sc_field::{ExtensionField, Field, NoMemory};
use sc_table::{Basis, RoundMessage, Row};
use std::alloc::Global;

/// A round, by its number, and the three coefficients of what it sent less the true polynomial, the
/// constant first.
#[derive(Drop)]
pub struct FoundTurn<EF> {
    pub round: usize,
    pub polynomial: Row<EF>,
}

/// Of rounds that were played on a pair of tables, as many as they have variables, under a claim:
/// the first one after which the claim is the true one, if there is one. The tables are bound in
/// their places.
///
/// Where the claim before all rounds is false, the polynomial of a round that is found is not zero,
/// vanishes at the round's challenge, and has at most two roots; and where the claim after all
/// rounds is the product of both tables' values at the challenges, a round is found.
pub fn find_turn<F: Field, EF: ExtensionField<F>>(
    alloc: Global,
    mut pair: ProductPolynomial<F, EF>,
    claim: EF,
    messages: &[RoundMessage<EF>],
    challenges: &[EF],
) -> Result<Option<FoundTurn<EF>>, NoMemory>
    requires messages { length messages.now ≡ variables_in pair }
    requires challenges { length challenges.now ≡ variables_in pair }
    ensures found { IfOk result (λ found. (t : TwoTables) (n : ℕ) → IsPairOf EF.number t n pair
        → option_map (turn_in EF.number) found ≡ first_turn (course_on EF.ops t) 0
        (EF.number claim) (map (pair_of EF.number) messages.now) []
        (map EF.number challenges.now)) }
    ensures certified { EF.number claim ≢ sum_in EF.ops EF.number pair → IfOk result
        (λ found. IfSome found (λ t. IsTurn EF.ops 3 0 (map EF.number challenges.now)
        (turn_in EF.number t))) }
    ensures some { EF.number claim ≢ sum_in EF.ops EF.number pair
        → claim_along (next_claim (basis_in pair) EF.ops) (EF.number claim)
        (map (pair_of EF.number) messages.now) (map EF.number challenges.now)
        ≡ end_of EF.ops (own_tables EF.number pair) (map EF.number challenges.now)
        → IfOk result IsSome }
{
    let basis = pair.basis();
    let mut claim = claim;
    let mut truth = pair.dot_product();
    for i in 0..challenges.len() {
        let message = messages[i];
        let r = challenges[i];
        let honest = pair.measure();
        let next = basis.reduce_claim(message.c_a, message.c_inf, r, claim);
        let next_truth = basis.reduce_claim(honest.c_a, honest.c_inf, r, truth);
        if next.index() == next_truth.index() {
            let sent = sent_by(basis, message, claim);
            let due = sent_by(basis, honest, truth);
            let polynomial = difference(alloc, sent, due)?;
            return Ok(Some(FoundTurn {
                round: i,
                polynomial,
            }));
        }
        pair.bind(r);
        claim = next;
        truth = next_truth;
    }
    Ok(None)
}

// The three coefficients of what a message sends under a claim, the constant first.
fn sent_by<EF: Field>(basis: Basis, message: RoundMessage<EF>, claim: EF) -> (EF, EF, EF)
    ensures { three_of EF.number result ≡ sent_polynomial (basis_of basis) EF.ops
        (EF.number claim) (EF.number message.c_a ∷ EF.number message.c_inf ∷ []) }
{
    let RoundMessage { c_a, c_inf } = message;
    match basis {
        Basis::Evaluation => (c_a, claim.sub(c_a).sub(c_a).sub(c_inf), c_inf),
        Basis::Projective => (claim.sub(c_inf), c_a.sub(claim), c_inf),
    }
}

// One polynomial of three coefficients less another one.
fn difference<EF: Field>(
    alloc: Global,
    sent: (EF, EF, EF),
    due: (EF, EF, EF),
) -> Result<Row<EF>, NoMemory>
    ensures { IfOk result (λ v. map EF.number v
        ≡ poly_minus EF.ops (three_of EF.number sent) (three_of EF.number due)) }
{
    let mut polynomial = Vec::with_capacity(alloc, 3)?;
    polynomial.push_reserved(sent.0.sub(due.0));
    polynomial.push_reserved(sent.1.sub(due.1));
    polynomial.push_reserved(sent.2.sub(due.2));
    Ok(Row::new(polynomial))
}
