//! Claimed products of matrices, by figures by hand.
mod figures;
mod texts;

use super::rounds_of;
use figures::{CHECKED, IN_PARTS, PLAYED, REFUSED};
use sc_challenger::{Challenger, Event};
use sc_field::{ExtensionField, Field, NoMemory};
use sc_matmul::{MatmulError, MatmulReport, MatmulVerdict, Matrix, audit_matmul};
use sc_small_fields::{F257, F257x2, F65537};
use sc_tests_common::{are_pairs, elements, have_numbers, of, scripted};
use std::alloc::Global;
use std::process::Abort;

// A matrix, row by row.
#[derive(Clone, Copy)]
struct Sides {
    rows: usize,
    cols: usize,
    entries: &'static [u64],
}

// The values of the rounds and the witnesses of a proof.
#[derive(Clone, Copy)]
struct Proof {
    rounds: &'static [(u64, u64)],
    witnesses: &'static [u64],
}

// What rounds say of the entries: of a lucky point the polynomial and the number of its roots, and
// of a lucky round its number too.
#[derive(Clone, Copy)]
enum Found {
    Holds,
    Refuted,
    Point(&'static [u64], u64),
    Round(usize, &'static [u64], u64),
}

// A report.
#[derive(Clone, Copy)]
struct Shown {
    point: u64,
    claim: u64,
    proof: Proof,
    challenges: &'static [u64],
    residual: u64,
    left: u64,
    right: u64,
    found: Found,
}

// What is asked, which is a build without a proof, the draws and the witnesses that pass, the
// answer, and how many events are the history after it, with the last of them.
#[derive(Clone, Copy)]
struct Case {
    name: &'static str,
    left: Sides,
    right: Sides,
    claimed: Sides,
    pow_bits: usize,
    proof: Option<Proof>,
    draws: &'static [u64],
    good: &'static [&'static [u64]],
    answer: Result<Shown, MatmulError>,
    events: usize,
    last: &'static [Event],
}

// The matrix of these entries, with zeros after them where they are too few.
fn matrix<F: Field>(alloc: Global, sides: &Sides) -> Result<Matrix<F>, NoMemory> {
    filled(alloc, sides.rows, sides.cols, sides.entries)
}

fn filled<F: Field>(
    alloc: Global,
    rows: usize,
    cols: usize,
    entries: &[u64],
) -> Result<Matrix<F>, NoMemory> {
    let (rows, cols) = (rows.min(1 << 16), cols.min(1 << 16));
    let mut values = elements(alloc, entries)?;
    values.resize(rows * cols, F::ZERO)?;
    Ok(Matrix::new(rows, cols, values))
}

// The answer to a case.
fn answered<F: Field, EF: ExtensionField<F>, C: Challenger<F>>(
    alloc: Global,
    case: &Case,
    challenger: &mut C,
) -> Result<MatmulReport<F, EF>, MatmulError> {
    let left = matrix(alloc, &case.left)?;
    let right = matrix(alloc, &case.right)?;
    let claimed = matrix(alloc, &case.claimed)?;
    let proof = match &case.proof {
        None => None,
        Some(proof) => Some(rounds_of(alloc, proof.rounds, proof.witnesses)?),
    };
    audit_matmul(
        alloc,
        &left,
        &right,
        &claimed,
        case.pow_bits,
        proof.as_ref(),
        challenger,
    )
}

fn is_found<EF: Field>(verdict: &MatmulVerdict<EF>, wanted: Found) -> bool {
    match (verdict, wanted) {
        (MatmulVerdict::Holds, Found::Holds) => true,
        (MatmulVerdict::Refuted, Found::Refuted) => true,
        (MatmulVerdict::LuckyPoint { poly, vanishing }, Found::Point(numbers, roots)) => {
            have_numbers(poly.as_slice(), numbers) && *vanishing == roots
        }
        (
            MatmulVerdict::LuckyRound {
                round,
                poly,
                vanishing,
            },
            Found::Round(i, numbers, roots),
        ) => *round == i && have_numbers(poly.as_slice(), numbers) && *vanishing == roots,
        _ => false,
    }
}

fn is_shown<F: Field, EF: ExtensionField<F>>(report: &MatmulReport<F, EF>, shown: &Shown) -> bool {
    report.point.index() == shown.point
        && report.claim.index() == shown.claim
        && are_pairs(&report.rounds.polynomial_evaluations, shown.proof.rounds)
        && have_numbers(&report.rounds.pow_witnesses, shown.proof.witnesses)
        && have_numbers(report.challenges.as_slice(), shown.challenges)
        && report.residual.index() == shown.residual
        && report.left.index() == shown.left
        && report.right.index() == shown.right
        && is_found(&report.verdict, shown.found)
}

fn is_answer<F: Field, EF: ExtensionField<F>>(
    answer: &Result<MatmulReport<F, EF>, MatmulError>,
    wanted: &Result<Shown, MatmulError>,
) -> bool {
    match (answer, wanted) {
        (Ok(report), Ok(shown)) => is_shown(report, shown),
        (Err(error), Err(refusal)) => *error == *refusal,
        _ => false,
    }
}

fn assert_scripted<F: Field, EF: ExtensionField<F>, A: Abort>(rt: &A, alloc: Global, case: &Case) {
    let mut challenger = scripted::<F>(alloc, case.draws, case.good).expect(rt, "an answer");
    let answer = answered::<F, EF, _>(alloc, case, &mut challenger);
    assert!(rt; is_answer(&answer, &case.answer), "{}", case.name);
    assert!(rt; challenger.events().len() == case.events, "{}", case.name);
    assert!(rt; challenger.events().ends_with(case.last), "{}", case.name);
}

#[test]
fn rounds_that_are_built(rt: HostRuntime) {
    for case in &PLAYED {
        assert_scripted::<F65537, F65537, _>(&rt, rt.alloc(), case);
    }
}

#[test]
fn rounds_that_are_checked(rt: HostRuntime) {
    for case in &CHECKED {
        assert_scripted::<F65537, F65537, _>(&rt, rt.alloc(), case);
    }
}

#[test]
fn matrices_and_proofs_that_are_refused(rt: HostRuntime) {
    for case in &REFUSED {
        assert_scripted::<F65537, F65537, _>(&rt, rt.alloc(), case);
    }
}

#[test]
fn challenges_in_an_extension(rt: HostRuntime) {
    for case in &IN_PARTS {
        assert_scripted::<F257, F257x2, _>(&rt, rt.alloc(), case);
    }
}

// The matrix of these sides whose entries all are this number.
fn constant(
    alloc: Global,
    rows: usize,
    cols: usize,
    number: u64,
) -> Result<Matrix<F65537>, NoMemory> {
    let (rows, cols) = (rows.min(1 << 16), cols.min(1 << 16));
    let mut values = Vec::new(alloc);
    values.resize(rows * cols, of(number))?;
    Ok(Matrix::new(rows, cols, values))
}

// A build of matrices of ones, of whose product each entry is the inner side.
fn of_ones(
    alloc: Global,
    rows: usize,
    inner: usize,
    cols: usize,
) -> Result<MatmulReport<F65537, F65537>, MatmulError> {
    let left = constant(alloc, rows, inner, 1)?;
    let right = constant(alloc, inner, cols, 1)?;
    let claimed = constant(alloc, rows, cols, inner as u64)?;
    let draws = [5, 3, 11, 2, 7, 13, 4, 9];
    let mut challenger = scripted::<F65537>(alloc, &draws, &[])?;
    audit_matmul(alloc, &left, &right, &claimed, 0, None, &mut challenger)
}

fn holds(report: &MatmulReport<F65537, F65537>, rounds: usize) -> bool {
    report.rounds.num_rounds() == rounds && is_found(&report.verdict, Found::Holds)
}

#[test]
fn each_side_from_1_to_128(rt: HostRuntime) {
    for variables in 0..8 {
        let side = 1 << variables;
        let inner = of_ones(rt.alloc(), 1, side, 1).expect(&rt, "a report");
        assert!(&rt; holds(&inner, variables), "inner {side}");
        let rows = of_ones(rt.alloc(), side, 2, 1).expect(&rt, "a report");
        assert!(&rt; holds(&rows, 1), "rows {side}");
        let cols = of_ones(rt.alloc(), 1, 2, side).expect(&rt, "a report");
        assert!(&rt; holds(&cols, 1), "columns {side}");
    }
}

#[test]
fn the_largest_sides(rt: HostRuntime) {
    let report = of_ones(rt.alloc(), 128, 128, 128).expect(&rt, "a report");
    assert!(&rt; holds(&report, 7));
}
