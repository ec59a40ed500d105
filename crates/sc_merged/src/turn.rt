//! The round that turned a false claim into the true one.
ghost use Rattle.std.specs.Prelude.{◌≡◌, ◌≢◌, [], IfOk, IfSome, IsSome, length, map, option_map};
ghost use Rattle.sc_definitions.specs.Tables.{evaluation};
ghost use Rattle.sc_definitions.specs.Polynomials.{poly_minus};
ghost use Rattle.sc_definitions.specs.Rounds.{sent_polynomial, next_claim, claim_along};
ghost use Rattle.sc_definitions.specs.Lucky.{first_turn, IsTurn};
ghost use Rattle.sc_soundness.specs.Merged.{merged_course, merged_inner, merged_value};
ghost use Rattle.sc_transcript.specs.Data.{pair_of};
ghost use Rattle.sc_merged.specs.MergedViews.{left_in, pairs_in};
ghost use Rattle.sc_merged.specs.MergedTurns.{turn_in, three_of};

use crate::tables::MergedTables;
use sc_field::{Field, NoMemory};
use sc_table::{Basis, RoundMessage, Row};
use std::alloc::Global;

/// A round, by its number, and the three coefficients of what it sent less the true polynomial, the
/// constant first.
#[derive(Drop)]
pub struct FoundTurn<EF> {
    pub round: usize,
    pub polynomial: Row<EF>,
}

/// Of rounds that were played on tables with weights, one for each variable, under a claim: the
/// first one after which the claim is the true one, if there is one. The tables are bound in their
/// places.
///
/// Where the claim before all rounds is false, the polynomial of a round that is found is not zero,
/// vanishes at the round's challenge, and has at most two roots; and where the claim after all
/// rounds is the sum of the products of the tables' and the weights' values at the challenges, a
/// round is found.
pub fn find_turn<EF: Field>(
    alloc: Global,
    mut tables: MergedTables<EF>,
    claim: EF,
    messages: &[RoundMessage<EF>],
    challenges: &[EF],
) -> Result<Option<FoundTurn<EF>>, NoMemory>
    requires messages { length messages.now ≡ left_in tables }
    requires challenges { length challenges.now ≡ left_in tables }
    ensures found { IfOk result (λ found. option_map (turn_in EF.number) found
        ≡ first_turn (merged_course EF.ops (pairs_in EF.number tables)) 0 (EF.number claim)
        (map (pair_of EF.number) messages.now) [] (map EF.number challenges.now)) }
    ensures certified { EF.number claim
        ≢ merged_inner EF.ops (left_in tables) (pairs_in EF.number tables)
        → IfOk result (λ found. IfSome found (λ t. IsTurn EF.ops 3 0
        (map EF.number challenges.now) (turn_in EF.number t))) }
    ensures some { EF.number claim
        ≢ merged_inner EF.ops (left_in tables) (pairs_in EF.number tables)
        → claim_along (next_claim evaluation EF.ops) (EF.number claim)
        (map (pair_of EF.number) messages.now) (map EF.number challenges.now)
        ≡ merged_value EF.ops (pairs_in EF.number tables) (map EF.number challenges.now)
        → IfOk result IsSome }
{
    let mut claim = claim;
    let mut truth = tables.sum();
    for i in 0..challenges.len() {
        let message = messages[i];
        let r = challenges[i];
        let honest = tables.message();
        let next = Basis::Evaluation.reduce_claim(message.c_a, message.c_inf, r, claim);
        let next_truth = Basis::Evaluation.reduce_claim(honest.c_a, honest.c_inf, r, truth);
        if next.index() == next_truth.index() {
            let sent = sent_by(message, claim);
            let due = sent_by(honest, truth);
            let polynomial = difference(alloc, sent, due)?;
            return Ok(Some(FoundTurn {
                round: i,
                polynomial,
            }));
        }
        tables.bind(r);
        claim = next;
        truth = next_truth;
    }
    Ok(None)
}

// The three coefficients of what a message sends under a claim, the constant first.
fn sent_by<EF: Field>(message: RoundMessage<EF>, claim: EF) -> (EF, EF, EF)
    ensures { three_of EF.number result
        ≡ sent_polynomial evaluation EF.ops (EF.number claim) (pair_of EF.number message) }
{
    let RoundMessage { c_a, c_inf } = message;
    (c_a, claim.sub(c_a).sub(c_a).sub(c_inf), c_inf)
}

// One polynomial of three coefficients less another one.
fn difference<EF: Field>(
    alloc: Global,
    sent: (EF, EF, EF),
    due: (EF, EF, EF),
) -> Result<Row<EF>, NoMemory>
    ensures { IfOk result (λ v. map EF.number v
        ≡ poly_minus EF.ops (three_of EF.number sent) (three_of EF.number due)) }
{
    let mut polynomial = Vec::with_capacity(alloc, 3)?;
    polynomial.push_reserved(sent.0.sub(due.0));
    polynomial.push_reserved(sent.1.sub(due.1));
    polynomial.push_reserved(sent.2.sub(due.2));
    Ok(Row::new(polynomial))
}
