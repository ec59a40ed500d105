//! Rounds under masks as one call. The figures are those of a model in another language, which sums
//! the masks over all bits; it has a ChaCha of eight rounds of its own, and counts events.
ghost use Rattle.std.specs.Prelude.{◌≡◌, IfOk, length};
ghost use Rattle.sc_statements.specs.EqStatements.{eq_arity};
ghost use Rattle.sc_constraints.specs.Groups.{group_arity};

mod cases;

use cases::{CASES, IN_PARTS};
use rand_chacha::ChaCha8Rng;
use rand_core::SeedableRng;
use sc_challenger::{Challenger, ScriptedChallenger};
use sc_commitments::{NodeCode, Sha2Mmcs, sample_masks};
use sc_constraints::{Constraint, EqStatement, Statements};
use sc_field::{ExtensionField, Field, NoMemory};
use sc_sixteen::Tower16;
use sc_small_fields::{F257, F257x2, F65537};
use sc_table::VariableOrder;
use sc_tests_common::{elements, have_numbers, of, point, scripted};
use sc_zk_audit::{MaskedError, MaskedJob, MaskedReport, audit_masked};
use std::alloc::Global;
use std::process::Abort;

// A report: the claim, the masks' total and the combination, the wires with the witnesses and the
// challenges, and what the replay leaves, with its three parts.
#[derive(Clone, Copy)]
struct Shown {
    claim: u64,
    mu: u64,
    eps: u64,
    wires: &'static [&'static [u64]],
    witnesses: &'static [u64],
    challenges: &'static [u64],
    left: [u64; 4],
}

// A table of four rows or fewer with a claim at a point, the masks by their number, their length
// and their seed, the draws and the witnesses that pass, the answer, and how many events are the
// history after it.
#[derive(Clone, Copy)]
struct Case {
    name: &'static str,
    table: &'static [u64],
    point: [u64; 2],
    value: u64,
    order: VariableOrder,
    pow_bits: usize,
    rounds: usize,
    length: usize,
    seed: u8,
    aux: u64,
    draws: &'static [u64],
    good: &'static [&'static [u64]],
    answer: Result<Shown, MaskedError>,
    events: usize,
}

// The claim that the table has a value at a point of two coordinates.
fn claimed<EF: Field>(alloc: Global, at: &[u64], value: u64) -> Result<EqStatement<EF>, NoMemory>
    requires { length at.now ≡ 2 }
    ensures { IfOk result (λ s. eq_arity s ≡ 2) }
{
    let mut statement = EqStatement::initialize(alloc, 2);
    statement.add_evaluated_constraint(point(alloc, at)?, of(value))?;
    Ok(statement)
}

// The statements of a case.
fn constraint<F: Field, EF: ExtensionField<F>>(
    alloc: Global,
    case: &Case,
) -> Result<Constraint<F, EF>, NoMemory> {
    let statement = claimed(alloc, case.point.as_slice(), case.value)?;
    let mut groups = Vec::new(alloc);
    groups.push(Statements::Eq(statement))?;
    Ok(Constraint::new(EF::ONE, 2, groups))
}

// The answer to a case. Its masks are the draws of the generator whose seed is a number in 8 bytes,
// the highest first, and 24 zeros.
fn answered<F: Field, EF: ExtensionField<F>, C: Challenger<F>>(
    alloc: Global,
    case: &Case,
    challenger: &mut C,
) -> Result<MaskedReport<F, EF>, MaskedError> {
    let mut seed = [0; 32];
    seed[7] = case.seed;
    let positions = case.length.saturating_add(2).saturating_mul(2);
    let code = NodeCode::<EF>::new(case.length, 2, positions.min(EF::size() as usize));
    let mut rng = ChaCha8Rng::from_seed(seed);
    let (masks, randomness) = sample_masks(alloc, &code, case.rounds, &mut rng)?;
    let job = MaskedJob {
        table: elements(alloc, case.table)?,
        constraint: constraint(alloc, case)?,
        order: case.order,
        pow_bits: case.pow_bits,
        masks,
        randomness,
        aux: of(case.aux),
    };
    audit_masked(alloc, job, &code, &Sha2Mmcs::new(), challenger)
}

// Whether wires have these numbers.
fn are_wires<EF: Field>(wires: &[Vec<EF>], numbers: &[&[u64]]) -> bool {
    wires.len() == numbers.len()
        && wires
            .iter()
            .zip(numbers)
            .all(|(wire, wanted)| have_numbers(wire.as_slice(), *wanted))
}

fn is_shown<F: Field, EF: Field>(report: &MaskedReport<F, EF>, shown: &Shown) -> bool {
    let run = &report.run;
    report.claim.index() == shown.claim
        && run.zk_data.mu_tilde.index() == shown.mu
        && run.eps.index() == shown.eps
        && are_wires(&run.zk_data.round_coefficients, shown.wires)
        && have_numbers(&run.zk_data.pow_witnesses, shown.witnesses)
        && have_numbers(run.randomness.as_slice(), shown.challenges)
        && run.claimed_residual.index() == shown.left[0]
        && run.scaled.index() == shown.left[1]
        && run.carried.index() == shown.left[2]
        && run.mask_residual.index() == shown.left[3]
}

fn is_answer<F: Field, EF: Field>(
    answer: &Result<MaskedReport<F, EF>, MaskedError>,
    wanted: &Result<Shown, MaskedError>,
) -> bool {
    match (answer, wanted) {
        (Ok(report), Ok(shown)) => is_shown(report, shown),
        (Err(error), Err(refusal)) => *error == *refusal,
        _ => false,
    }
}

fn assert_case<F: Field, EF: ExtensionField<F>, A: Abort>(rt: &A, alloc: Global, case: &Case) {
    let mut challenger: ScriptedChallenger<F> = scripted(alloc, case.draws, case.good).expect(
        rt,
        "room for a script",
    );
    let answer = answered::<F, EF, ScriptedChallenger<F>>(alloc, case, &mut challenger);
    assert!(rt; is_answer(&answer, &case.answer), "{}", case.name);
    assert!(rt; challenger.events().len() == case.events, "{}", case.name);
}

#[test]
fn rounds_under_masks(rt: HostRuntime) {
    for case in &CASES {
        assert_case::<F65537, F65537, _>(&rt, rt.alloc(), case);
    }
}

#[test]
fn challenges_of_two_parts(rt: HostRuntime) {
    assert_case::<F257, F257x2, _>(&rt, rt.alloc(), &IN_PARTS);
}

// The same job over a field in which two is zero.
#[test]
fn two_that_is_zero(rt: HostRuntime) {
    let case = Case {
        answer: Err(MaskedError::EvenCharacteristic),
        events: 0,
        ..CASES[0]
    };
    assert_case::<Tower16, Tower16, _>(&rt, rt.alloc(), &case);
}
