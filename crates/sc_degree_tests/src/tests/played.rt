//! A prover's rounds, played and replayed. What is left of the claim is worked out by a plain sum.
use super::{ends, replayed};
use crate::TwoProducts;
use sc_challenger::{Challenger, Event};
use sc_degree::{GenericDegreeError, GenericDegreeProof, RoundProver};
use sc_field::{ExtensionField, Field, NoMemory};
use sc_small_fields::{F257, F257x2, F65537};
use sc_table::Point;
use sc_tests_common::{elements, of, scripted};
use std::alloc::Global;
use std::process::Abort;

// How many words the seed of three rounds has with a test.
const THREE_TESTED_ROUNDS: usize = 848;

const A: [u64; 8] = [1, 2, 3, 4, 5, 6, 7, 8];

const B: [u64; 8] = [2, 0, 1, 3, 1, 4, 0, 2];

const C: [u64; 8] = [5, 1, 4, 1, 5, 9, 2, 6];

const D: [u64; 8] = [2, 7, 1, 8, 2, 8, 1, 8];

// The sum over the rows of A times B plus C times D.
const SUM: u64 = 223;

// The prover of these tables.
fn prover<EF: Field>(alloc: Global) -> Result<TwoProducts<EF>, NoMemory> {
    Ok(TwoProducts::new(
        elements(alloc, &A)?,
        elements(alloc, &B)?,
        elements(alloc, &C)?,
        elements(alloc, &D)?,
        3,
    ))
}

// The value of a table at a point, row by row.
fn value_at<EF: Field>(table: &[u64], point: &[EF]) -> EF {
    let mut sum = EF::ZERO;
    for (row, entry) in table.iter().enumerate() {
        let mut term: EF = of(*entry);
        let mut rows = table.len();
        for z in point {
            rows = (rows / 2).max(1);
            let factor = if row / rows % 2 == 1 {
                *z
            } else {
                EF::ONE.sub(*z)
            };
            term = term.mul(factor);
        }
        sum = sum.add(term);
    }
    sum
}

// The value of A times B plus C times D at a point.
fn value<EF: Field>(point: &[EF]) -> EF {
    let first = value_at(&A, point).mul(value_at(&B, point));
    first.add(value_at(&C, point).mul(value_at(&D, point)))
}

// Plays all rounds, at a difficulty that the challenger takes.
fn play<F: Field, EF: ExtensionField<F>, Ch: Challenger<F>>(
    alloc: Global,
    prover: &mut TwoProducts<EF>,
    challenger: &mut Ch,
    pow_bits: usize,
) -> Result<(GenericDegreeProof<F, EF>, Point<EF>), GenericDegreeError> {
    let (rounds, degree) = (prover.num_variables(), prover.degree());
    let pow_bits = pow_bits.min(challenger.max_bits());
    prover.prove(alloc, challenger, rounds, degree, pow_bits, of(SUM))
}

// The draws and the witnesses that pass, and the number of what is left of the claim.
struct Played {
    draws: &'static [u64],
    good: &'static [&'static [u64]],
    pow_bits: usize,
    left: u64,
}

static UNTESTED: Played = Played {
    draws: &[3, 4, 5],
    good: &[],
    pow_bits: 0,
    left: 62043,
};

static TESTED: Played = Played {
    draws: &[3, 4, 5],
    good: &[&[9, 2], &[0], &[7]],
    pow_bits: 2,
    left: 62043,
};

// The challenges are 3 + u, 4 + u and 5 + 9 u, and what is left is 92 + 194 u.
static IN_PARTS: Played = Played {
    draws: &[3, 1, 4, 1, 5, 9],
    good: &[&[9, 2], &[0], &[7]],
    pow_bits: 2,
    left: 49950,
};

fn assert_played<F: Field, EF: ExtensionField<F>, H: Abort>(
    rt: &H,
    alloc: Global,
    played: &Played,
) {
    let mut ours = scripted::<F>(alloc, played.draws, played.good).expect(rt, "an answer");
    let mut theirs = scripted::<F>(alloc, played.draws, played.good).expect(rt, "an answer");
    let mut tables = prover::<EF>(alloc).expect(rt, "an answer");
    let (proof, point) = play(alloc, &mut tables, &mut ours, played.pow_bits).expect(
        rt,
        "an answer",
    );
    assert!(rt; proof.num_rounds() == 3 && tables.num_variables() == 0);
    let (replay, left) = replayed(alloc, &proof, &mut theirs, 3, 2, played.pow_bits).expect(
        rt,
        "an answer",
    );
    assert!(rt;
        point.as_slice() == replay.as_slice()
            && ours.events() == theirs.events()
            && left == value(point.as_slice())
            && left.index() == played.left
    );
}

#[test]
fn a_prover_and_a_verifier_keep_in_step(rt: HostRuntime) {
    assert_played::<F65537, F65537, HostRuntime>(&rt, rt.alloc(), &UNTESTED);
    assert_played::<F65537, F65537, HostRuntime>(&rt, rt.alloc(), &TESTED);
    assert_played::<F257, F257x2, HostRuntime>(&rt, rt.alloc(), &IN_PARTS);
}

#[test]
fn a_prover_may_find_no_witness(rt: HostRuntime) {
    let mut challenger = scripted::<F65537>(rt.alloc(), &[3], &[&[4]]).expect(&rt, "an answer");
    let mut tables = prover::<F65537>(rt.alloc()).expect(&rt, "an answer");
    let answer = play::<F65537, F65537, _>(rt.alloc(), &mut tables, &mut challenger, 1);
    assert!(rt;
        answer.err() == Some(GenericDegreeError::NoWitness { round: 1 })
            && tables.num_variables() == 2
            && challenger.events().len() == THREE_TESTED_ROUNDS + 8
            && challenger.events()[THREE_TESTED_ROUNDS..].starts_with(&FIRST_ROUND)
    );
}

// The claimed sum, and the first round: its values at 0 and 2, its witness, and its draw.
static FIRST_ROUND: [Event; 6] = [
    Event::Word(SUM),
    Event::Word(46),
    Event::Word(332),
    Event::Word(4),
    Event::Test(1),
    Event::Draw,
];
