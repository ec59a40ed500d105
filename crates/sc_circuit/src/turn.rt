//! The round of a layer that turned a false claim into the true one.
ghost use Rattle.std.specs.Prelude.{◌≡◌, ◌+◌, ◌<◌, ◌≤◌, ◌^◌, []};
ghost use Rattle.std.specs.Prelude.{All, IfOk, length, map, option_map};
ghost use Rattle.sc_definitions.specs.Interpolation.{sent_through};
ghost use Rattle.sc_definitions.specs.Lucky.{first_turn};
ghost use Rattle.sc_definitions.specs.Polynomials.{poly_minus};
ghost use Rattle.sc_degree.specs.Interpolators.{degree_of};
ghost use Rattle.sc_degree.specs.Turns.{product_turn, messages_in};
ghost use Rattle.sc_circuit.specs.Turns.{course_by};

use sc_degree::{FoundTurn, RoundPolyInterpolator, RoundProver};
use sc_field::Field;
use sc_memory::{NoMemory, Row};
use std::alloc::Global;

// Rounds that are left: their numbers from `first` on, what each sends, and their challenges.
#[derive(Clone, Copy)]
pub(crate) struct RoundsLeft<'a, EF> {
    pub first: usize,
    pub messages: &'a [Vec<EF>],
    pub challenges: &'a [EF],
}

// The first of these rounds, played on what a prover sums under a claim, after which the claim is
// the true one, if there is one. The prover folds in the challenges up to it.
pub(crate) fn turn_from<EF: Field, P: RoundProver<EF>>(
    alloc: Global,
    nodes: &RoundPolyInterpolator<EF>,
    prover: &mut P,
    claim: EF,
    truth: EF,
    left: RoundsLeft<'_, EF>,
) -> Result<Option<FoundTurn<EF>>, NoMemory>
    requires degree { (P.meaning prover.old).degree ≡ degree_of nodes.now }
    requires some { 1 ≤ degree_of nodes.now }
    requires nodes { degree_of nodes.now < EF.ops.size }
    requires variables { length left.messages.now ≤ (P.meaning prover.old).variables }
    requires count { length left.messages.now ≡ length left.challenges.now }
    requires widths { All (λ m. length m.items ≡ degree_of nodes.now) left.messages.now }
    requires few { left.first + length left.messages.now < 2 ^ 64 }
    requires truth { EF.number truth ≡ (P.meaning prover.old).claim [] }
    ensures { IfOk result (λ found. option_map (product_turn EF.number) found
        ≡ first_turn (course_by EF.ops (P.meaning prover.old)) left.entry.first (EF.number claim)
        (messages_in EF.number left.entry.messages.now) []
        (map EF.number left.entry.challenges.now)) }
{
    let [values, messages @ ..] = left.messages else {
        return Ok(None);
    };
    let [r, challenges @ ..] = left.challenges else {
        return Ok(None);
    };
    let honest = prover.round_poly(alloc)?;
    let next = nodes.eval(values, claim, *r);
    let next_truth = nodes.eval(honest.as_slice(), truth, *r);
    if next.index() == next_truth.index() {
        let polynomial = excess(alloc, nodes, values, claim, honest.as_slice(), truth)?;
        return Ok(Some(FoundTurn {
            round: left.first,
            polynomial,
        }));
    }
    prover.fold(*r);
    let rest = RoundsLeft {
        first: left.first + 1,
        messages,
        challenges,
    };
    turn_from(alloc, nodes, prover, next, next_truth, rest)
}

// What the values of one round send under a claim less what those of another one do, in
// coefficients.
fn excess<EF: Field>(
    alloc: Global,
    nodes: &RoundPolyInterpolator<EF>,
    values: &[EF],
    claim: EF,
    honest: &[EF],
    truth: EF,
) -> Result<Row<EF>, NoMemory>
    requires values { length values.now ≡ degree_of nodes.now }
    requires honest { length honest.now ≡ degree_of nodes.now }
    ensures { IfOk result (λ v. map EF.number v ≡ poly_minus EF.ops
        (sent_through EF.ops (EF.number claim) (map EF.number values.now))
        (sent_through EF.ops (EF.number truth) (map EF.number honest.now))) }
{
    let sent = nodes.coefficients(alloc, values, claim)?;
    let due = nodes.coefficients(alloc, honest, truth)?;
    Ok(Row::new(difference(alloc, sent.as_slice(), due.as_slice())?))
}

// A polynomial less another one, of no fewer coefficients.
pub(crate) fn difference<EF: Field>(
    alloc: Global,
    coeffs: &[EF],
    others: &[EF],
) -> Result<Vec<EF>, NoMemory>
    requires { length coeffs.now ≤ length others.now }
    ensures { IfOk result (λ v. map EF.number v.items
        ≡ poly_minus EF.ops (map EF.number coeffs.now) (map EF.number others.now)) }
{
    let mut less = Vec::with_capacity(alloc, coeffs.len())?;
    for i in 0..coeffs.len() {
        less.push_reserved(coeffs[i].sub(others[i]));
    }
    Ok(less)
}
