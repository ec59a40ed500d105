//! Rounds over products of tables, by figures by hand and by those of a model in another language,
//! which sums over all rows. Below, X and Y are the variables, the first one first.
mod figures;
mod texts;

use figures::{CHECKED, HASHED, IN_PARTS, PLAYED, REFUSED};
use sc_challenger::{Challenger, Event, HashChallenger};
use sc_field::{ExtensionField, Field, NoMemory};
use sc_product_audit::{
    GenericDegreeProof, ProductError, ProductJob, ProductMode, ProductReport, ProductVerdict,
    audit_product,
};
use sc_small_fields::{F257, F257x2, F65537};
use sc_tests_common::{elements, have_numbers, of, scripted};
use std::alloc::Global;
use std::process::Abort;

// The claimed sum, the values of the rounds and the witnesses of a proof.
#[derive(Clone, Copy)]
struct Proof {
    claimed: u64,
    rounds: &'static [&'static [u64]],
    witnesses: &'static [u64],
}

// What rounds say of the claimed sum: of a lucky one the round, the polynomial and the number of
// its roots.
#[derive(Clone, Copy)]
enum Found {
    Holds,
    Refuted,
    Lucky(usize, &'static [u64], u64),
}

// A report.
#[derive(Clone, Copy)]
struct Shown {
    proof: Proof,
    challenges: &'static [u64],
    residual: u64,
    product: u64,
    found: Found,
}

// A job, which is a build without a proof, the draws and the witnesses that pass, the answer, and
// how many events are the history after it, with the last of them.
#[derive(Clone, Copy)]
struct Case {
    name: &'static str,
    tables: &'static [&'static [u64]],
    pow_bits: usize,
    proof: Option<Proof>,
    draws: &'static [u64],
    good: &'static [&'static [u64]],
    answer: Result<Shown, ProductError>,
    events: usize,
    last: &'static [Event],
}

// Lists of elements of these numbers.
fn lists<F: Field>(alloc: Global, numbers: &[&[u64]]) -> Result<Vec<Vec<F>>, NoMemory> {
    let mut found = Vec::new(alloc);
    for list in numbers {
        found.push(elements(alloc, list)?)?;
    }
    Ok(found)
}

// What is done: the rounds are built, or those of this proof are checked.
fn mode_of<F: Field, EF: ExtensionField<F>>(
    alloc: Global,
    proof: &Option<Proof>,
) -> Result<ProductMode<F, EF>, NoMemory> {
    match proof {
        None => Ok(ProductMode::Build),
        Some(proof) => Ok(ProductMode::Check(GenericDegreeProof {
            claimed_sum: of(proof.claimed),
            round_polys: lists(alloc, proof.rounds)?,
            pow_witnesses: elements(alloc, proof.witnesses)?,
        })),
    }
}

// The answer to a case.
fn answered<F: Field, EF: ExtensionField<F>, C: Challenger<F>>(
    alloc: Global,
    case: &Case,
    challenger: &mut C,
) -> Result<ProductReport<F, EF>, ProductError> {
    let job = ProductJob {
        tables: lists(alloc, case.tables)?,
        pow_bits: case.pow_bits,
        mode: mode_of(alloc, &case.proof)?,
    };
    audit_product(alloc, job, challenger)
}

// Whether lists have these numbers.
fn are_lists<F: Field>(found: &[Vec<F>], numbers: &[&[u64]]) -> bool {
    found.len() == numbers.len()
        && found
            .iter()
            .zip(numbers)
            .all(|(list, wanted)| have_numbers(list.as_slice(), *wanted))
}

fn is_proof<F: Field, EF: Field>(proof: &GenericDegreeProof<F, EF>, wanted: &Proof) -> bool {
    proof.claimed_sum.index() == wanted.claimed
        && are_lists(&proof.round_polys, wanted.rounds)
        && have_numbers(&proof.pow_witnesses, wanted.witnesses)
}

fn is_found<EF: Field>(verdict: &ProductVerdict<EF>, wanted: Found) -> bool {
    match (verdict, wanted) {
        (ProductVerdict::Holds, Found::Holds) => true,
        (ProductVerdict::Refuted, Found::Refuted) => true,
        (
            ProductVerdict::LuckyRound {
                round,
                poly,
                vanishing,
            },
            Found::Lucky(i, numbers, roots),
        ) => *round == i && have_numbers(poly.as_slice(), numbers) && *vanishing == roots,
        _ => false,
    }
}

fn is_answer<F: Field, EF: Field>(
    answer: &Result<ProductReport<F, EF>, ProductError>,
    wanted: &Result<Shown, ProductError>,
) -> bool {
    match (answer, wanted) {
        (Ok(report), Ok(shown)) => is_proof(&report.proof, &shown.proof)
            && have_numbers(report.challenges.as_slice(), shown.challenges)
            && report.residual.index() == shown.residual
            && report.product.index() == shown.product
            && is_found(&report.verdict, shown.found),
        (Err(error), Err(refusal)) => *error == *refusal,
        _ => false,
    }
}

fn assert_scripted<F: Field, EF: ExtensionField<F>, A: Abort>(rt: &A, alloc: Global, case: &Case) {
    let mut challenger = scripted::<F>(alloc, case.draws, case.good).expect(rt, "an answer");
    let answer = answered::<F, EF, _>(alloc, case, &mut challenger);
    assert!(rt; is_answer(&answer, &case.answer), "{}", case.name);
    assert!(rt; challenger.events().len() == case.events, "{}", case.name);
    assert!(rt; challenger.events().ends_with(case.last), "{}", case.name);
}

#[test]
fn rounds_that_are_built(rt: HostRuntime) {
    for case in &PLAYED {
        assert_scripted::<F65537, F65537, _>(&rt, rt.alloc(), case);
    }
}

#[test]
fn rounds_that_are_checked(rt: HostRuntime) {
    for case in &CHECKED {
        assert_scripted::<F65537, F65537, _>(&rt, rt.alloc(), case);
    }
}

#[test]
fn jobs_and_proofs_that_are_refused(rt: HostRuntime) {
    for case in &REFUSED {
        assert_scripted::<F65537, F65537, _>(&rt, rt.alloc(), case);
    }
}

#[test]
fn challenges_in_an_extension(rt: HostRuntime) {
    for case in &IN_PARTS {
        assert_scripted::<F257, F257x2, _>(&rt, rt.alloc(), case);
    }
}

#[test]
fn rounds_under_the_hash_challenger(rt: HostRuntime) {
    for case in &HASHED {
        let mut challenger = HashChallenger::<F65537>::new(rt.alloc());
        let answer = answered::<F65537, F65537, _>(rt.alloc(), case, &mut challenger);
        assert!(&rt; is_answer(&answer, &case.answer), "{}", case.name);
    }
}

// So many tables of one row, 1, and a last one of these rows.
fn ones_and(alloc: Global, ones: usize, last: &[u64]) -> Result<Vec<Vec<F257>>, NoMemory> {
    let mut tables = Vec::new(alloc);
    for _table in 0..ones {
        tables.push(elements(alloc, &[1])?)?;
    }
    tables.push(elements(alloc, last)?)?;
    Ok(tables)
}

// The answer to a build of these, over a field of 257 elements.
fn of_many(
    alloc: Global,
    ones: usize,
    last: &[u64],
    pow_bits: usize,
) -> Result<ProductReport<F257, F257>, ProductError> {
    let job = ProductJob {
        tables: ones_and(alloc, ones, last)?,
        pow_bits,
        mode: ProductMode::Build,
    };
    let mut challenger = scripted::<F257>(alloc, &[], &[])?;
    audit_product(alloc, job, &mut challenger)
}

// A field of 257 elements has 257 nodes: one for each power of the product of 256 tables.
#[test]
fn as_many_tables_as_elements(rt: HostRuntime) {
    let alloc = rt.alloc();
    let most = of_many(alloc, 255, &[7], 0).expect(&rt, "a report");
    assert!(&rt; most.product.index() == 7);
    let too_many = ProductError::TableCount {
        tables: 257,
        bound: 256,
    };
    assert!(&rt; is_answer(&of_many(alloc, 256, &[7], 0), &Err(too_many)));
    // the lengths come before the number, and that before the difficulty
    assert!(&rt; is_answer(&of_many(alloc, 256, &[7], 17), &Err(too_many)));
    let length = ProductError::TableLength { len: 2 };
    assert!(&rt; is_answer(&of_many(alloc, 256, &[7, 7], 17), &Err(length)));
}
