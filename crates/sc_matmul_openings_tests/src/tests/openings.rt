//! Claims on tables, by figures by hand.
mod checked;
mod fields;
mod figures;
mod many;
mod refused;
mod texts;

use super::rounds_of;
use checked::CHECKED;
use fields::{HASHED, HASHED_IN_PARTS, IN_PARTS, OF_SIXTEEN};
use figures::PLAYED;
use refused::REFUSED;
use sc_challenger::{Challenger, Event, HashChallenger};
use sc_field::{ExtensionField, Field, NoMemory};
use sc_openings::{
    MergeError, MergeProof, MergeReport, MergeVerdict, OpeningClaim, audit_openings,
};
use sc_sixteen::Tower16;
use sc_small_fields::{F257, F257x2, F65537};
use sc_tests_common::{are_pairs, elements, have_numbers, of, point, scripted};
use std::alloc::Global;
use std::process::Abort;

// The value of a table at a point is claimed, or that of the table of its next rows.
#[derive(Clone, Copy)]
struct Claim {
    table: usize,
    point: &'static [u64],
    successor: bool,
    value: u64,
}

// The values of the rounds, the witnesses and the openings of a proof.
#[derive(Clone, Copy)]
struct Proof {
    rounds: &'static [(u64, u64)],
    witnesses: &'static [u64],
    openings: &'static [u64],
}

// What rounds and openings say of the claims: of a lucky batch the polynomial and the number of its
// roots, and of a lucky round its number too.
#[derive(Clone, Copy)]
enum Found {
    Holds,
    Refuted,
    Batch(&'static [u64], u64),
    Round(usize, &'static [u64], u64),
}

// A report.
#[derive(Clone, Copy)]
struct Shown {
    claim: u64,
    proof: Proof,
    challenges: &'static [u64],
    residual: u64,
    weights: &'static [u64],
    found: Found,
}

// What is asked, which is a build without a proof, the draws and the witnesses that pass, the
// answer, and how many events are the history after it, with the first and the last of them.
#[derive(Clone, Copy)]
struct Case {
    name: &'static str,
    variables: usize,
    tables: &'static [&'static [u64]],
    claims: &'static [Claim],
    pow_bits: usize,
    proof: Option<Proof>,
    draws: &'static [u64],
    good: &'static [&'static [u64]],
    answer: Result<Shown, MergeError>,
    events: usize,
    first: &'static [Event],
    last: &'static [Event],
}

fn tables<F: Field>(alloc: Global, entries: &[&[u64]]) -> Result<Vec<Vec<F>>, NoMemory> {
    let mut tables = Vec::new(alloc);
    for numbers in entries {
        tables.push(elements(alloc, numbers)?)?;
    }
    Ok(tables)
}

fn claims<EF: Field>(alloc: Global, wanted: &[Claim]) -> Result<Vec<OpeningClaim<EF>>, NoMemory> {
    let mut claims = Vec::new(alloc);
    for claim in wanted {
        claims.push(OpeningClaim {
            table: claim.table,
            point: point(alloc, claim.point)?,
            successor: claim.successor,
            value: of(claim.value),
        })?;
    }
    Ok(claims)
}

fn made_proof<F: Field, EF: ExtensionField<F>>(
    alloc: Global,
    proof: &Proof,
) -> Result<MergeProof<F, EF>, NoMemory> {
    Ok(MergeProof {
        rounds: rounds_of(alloc, proof.rounds, proof.witnesses)?,
        openings: elements(alloc, proof.openings)?,
    })
}

// The answer to a case.
fn answered<F: Field, EF: ExtensionField<F>, C: Challenger<F>>(
    alloc: Global,
    case: &Case,
    challenger: &mut C,
) -> Result<MergeReport<F, EF>, MergeError> {
    let tables = tables(alloc, case.tables)?;
    let claims = claims(alloc, case.claims)?;
    audited(alloc, case, &tables, &claims, challenger)
}

// The same with tables, of which there is one or more, and claims in memory.
fn audited<F: Field, EF: ExtensionField<F>, C: Challenger<F>>(
    alloc: Global,
    case: &Case,
    tables: &[Vec<F>],
    claims: &[OpeningClaim<EF>],
    challenger: &mut C,
) -> Result<MergeReport<F, EF>, MergeError> {
    if tables.is_empty() {
        return Err(MergeError::NoMemory);
    }
    let proof = match &case.proof {
        None => None,
        Some(wanted) => Some(made_proof(alloc, wanted)?),
    };
    let (variables, pow_bits, proof) = (case.variables, case.pow_bits, proof.as_ref());
    audit_openings(
        alloc, variables, tables, claims, pow_bits, proof, challenger,
    )
}

fn is_found<EF: Field>(verdict: &MergeVerdict<EF>, wanted: Found) -> bool {
    match (verdict, wanted) {
        (MergeVerdict::Holds, Found::Holds) => true,
        (MergeVerdict::Refuted, Found::Refuted) => true,
        (MergeVerdict::LuckyBatch { poly, vanishing }, Found::Batch(numbers, roots)) => {
            have_numbers(poly.as_slice(), numbers) && *vanishing == roots
        }
        (
            MergeVerdict::LuckyRound {
                round,
                poly,
                vanishing,
            },
            Found::Round(i, numbers, roots),
        ) => *round == i && have_numbers(poly.as_slice(), numbers) && *vanishing == roots,
        _ => false,
    }
}

fn is_shown<F: Field, EF: ExtensionField<F>>(report: &MergeReport<F, EF>, shown: &Shown) -> bool {
    let rounds = &report.proof.rounds;
    report.claim.index() == shown.claim
        && are_pairs(&rounds.polynomial_evaluations, shown.proof.rounds)
        && have_numbers(&rounds.pow_witnesses, shown.proof.witnesses)
        && have_numbers(&report.proof.openings, shown.proof.openings)
        && have_numbers(report.challenges.as_slice(), shown.challenges)
        && report.residual.index() == shown.residual
        && have_numbers(report.weights.as_slice(), shown.weights)
        && is_found(&report.verdict, shown.found)
}

fn is_answer<F: Field, EF: ExtensionField<F>>(
    answer: &Result<MergeReport<F, EF>, MergeError>,
    wanted: &Result<Shown, MergeError>,
) -> bool {
    match (answer, wanted) {
        (Ok(report), Ok(shown)) => is_shown(report, shown),
        (Err(error), Err(refusal)) => *error == *refusal,
        _ => false,
    }
}

// The answer is that of the case, and so is the history after it.
fn assert_answer<F: Field, EF: ExtensionField<F>, A: Abort>(
    rt: &A,
    case: &Case,
    answer: &Result<MergeReport<F, EF>, MergeError>,
    events: &[Event],
) {
    assert!(rt; is_answer(answer, &case.answer), "{}", case.name);
    assert!(rt; events.len() == case.events, "{}", case.name);
    assert!(rt; events.starts_with(case.first), "{}", case.name);
    assert!(rt; events.ends_with(case.last), "{}", case.name);
}

fn assert_scripted<F: Field, EF: ExtensionField<F>, A: Abort>(rt: &A, alloc: Global, case: &Case) {
    let mut challenger = scripted::<F>(alloc, case.draws, case.good).expect(rt, "an answer");
    let answer = answered::<F, EF, _>(alloc, case, &mut challenger);
    assert_answer(rt, case, &answer, challenger.events());
}

fn assert_hashed<F: Field, EF: ExtensionField<F>, A: Abort>(rt: &A, alloc: Global, case: &Case) {
    let mut challenger = HashChallenger::<F>::new(alloc);
    let answer = answered::<F, EF, _>(alloc, case, &mut challenger);
    assert_answer(rt, case, &answer, challenger.events());
}

#[test]
fn rounds_that_are_built(rt: HostRuntime) {
    for case in &PLAYED {
        assert_scripted::<F65537, F65537, _>(&rt, rt.alloc(), case);
    }
}

#[test]
fn rounds_that_are_checked(rt: HostRuntime) {
    for case in &CHECKED {
        assert_scripted::<F65537, F65537, _>(&rt, rt.alloc(), case);
    }
}

#[test]
fn tables_claims_and_proofs_that_are_refused(rt: HostRuntime) {
    for case in &REFUSED {
        assert_scripted::<F65537, F65537, _>(&rt, rt.alloc(), case);
    }
}

#[test]
fn challenges_in_an_extension(rt: HostRuntime) {
    for case in &IN_PARTS {
        assert_scripted::<F257, F257x2, _>(&rt, rt.alloc(), case);
    }
}

#[test]
fn a_field_of_16_elements(rt: HostRuntime) {
    for case in &OF_SIXTEEN {
        assert_scripted::<Tower16, Tower16, _>(&rt, rt.alloc(), case);
    }
}

#[test]
fn the_hash_challenger_with_bits(rt: HostRuntime) {
    for case in &HASHED {
        assert_hashed::<F65537, F65537, _>(&rt, rt.alloc(), case);
    }
}

#[test]
fn the_hash_challenger_in_an_extension(rt: HostRuntime) {
    for case in &HASHED_IN_PARTS {
        assert_hashed::<F257, F257x2, _>(&rt, rt.alloc(), case);
    }
}
