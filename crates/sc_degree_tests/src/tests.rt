//! Drivers and replays, by figures by hand and from a script that is no part of this.
mod interpolator;
mod played;
mod shapes;
mod table_product;
mod texts;
mod turns;

use sc_challenger::{Challenger, Event, ScriptedChallenger};
use sc_degree::{GenericDegreeError, GenericDegreeProof, GenericDegreeShape, VerifierTranscript};
use sc_field::{ExtensionField, Field, NoMemory};
use sc_small_fields::{F257, F257x2, F65537};
use sc_table::Point;
use sc_tests_common::{elements, have_numbers, of, scripted};
use std::alloc::Global;
use std::process::Abort;

// How many words the seeds of two rounds have without a test and with one.
const TWO_ROUNDS: usize = 484;

const TWO_TESTED_ROUNDS: usize = 624;

// Whether there are so many events, and these are the last.
fn ends<F: Field>(challenger: &ScriptedChallenger<F>, events: usize, last: &[Event]) -> bool {
    challenger.events().len() == events && challenger.events().ends_with(last)
}

// A verifier's first round of two, whose degree is 3, under the claimed sum 7: the difficulty, the
// values, for which no witness comes, the answer, and the history.
struct First {
    pow_bits: usize,
    values: &'static [u64],
    refusal: GenericDegreeError,
    events: usize,
    last: &'static [Event],
}

const NARROW: First = First {
    pow_bits: 0,
    values: &[1, 1],
    refusal: GenericDegreeError::PolyEvalCountMismatch {
        round: 0,
        expected: 3,
        actual: 2,
    },
    events: TWO_ROUNDS + 1,
    last: &[Event::Word(7)],
};

const UNWITNESSED: First = First {
    pow_bits: 4,
    values: &[1, 1, 1],
    refusal: GenericDegreeError::MissingPowWitness { round: 0 },
    events: TWO_TESTED_ROUNDS + 4,
    last: &[
        Event::Word(7),
        Event::Word(1),
        Event::Word(1),
        Event::Word(1),
    ],
};

static FIRST: [First; 2] = [NARROW, UNWITNESSED];

// The same where an element has two parts.
static FIRST_IN_PARTS: [First; 2] = [
    First {
        events: TWO_ROUNDS + 2,
        last: &[Event::Word(7), Event::Word(0)],
        ..NARROW
    },
    First {
        events: TWO_TESTED_ROUNDS + 8,
        last: &[
            Event::Word(7),
            Event::Word(0),
            Event::Word(1),
            Event::Word(0),
            Event::Word(1),
            Event::Word(0),
            Event::Word(1),
            Event::Word(0),
        ],
        ..UNWITNESSED
    },
];

// What a verifier answers to such a round, and how many rounds are left.
fn first_round<F: Field, EF: ExtensionField<F>, C: Challenger<F>>(
    alloc: Global,
    challenger: &mut C,
    first: &First,
) -> Result<(Result<EF, GenericDegreeError>, usize), NoMemory> {
    let pow_bits = first.pow_bits.min(challenger.max_bits());
    let shape = GenericDegreeShape::new(2, 3, pow_bits);
    let values = elements(alloc, first.values)?;
    let mut transcript: VerifierTranscript<'_, C, F, EF> = VerifierTranscript::new(
        alloc,
        challenger,
        shape,
        of(7),
    )?;
    let answer = transcript.round(&values, None);
    let left = transcript.rounds_left();
    transcript.abort();
    Ok((answer, left))
}

fn assert_first<F: Field, EF: ExtensionField<F>, A: Abort>(rt: &A, alloc: Global, first: &First) {
    let mut challenger = scripted::<F>(alloc, &[], &[]).expect(rt, "an answer");
    let (answer, left) = first_round::<F, EF, _>(alloc, &mut challenger, first).expect(
        rt,
        "an answer",
    );
    assert!(rt;
        answer == Err(first.refusal) && left == 2 && ends(&challenger, first.events, first.last)
    );
}

#[test]
fn a_round_wants_its_values_and_its_witness(rt: HostRuntime) {
    for first in &FIRST {
        assert_first::<F65537, F65537, _>(&rt, rt.alloc(), first);
    }
    for first in &FIRST_IN_PARTS {
        assert_first::<F257, F257x2, _>(&rt, rt.alloc(), first);
    }
}

// What a proof is and what is expected of it, and what the replay then answers and leaves.
#[derive(Clone, Copy)]
struct Replay {
    name: &'static str,
    claimed: u64,
    rounds: &'static [&'static [u64]],
    witnesses: &'static [u64],
    num_rounds: usize,
    degree: usize,
    pow_bits: usize,
    answer: Result<(&'static [u64], u64), GenericDegreeError>,
    events: usize,
    last: &'static [Event],
}

// The values at 0 and 2 of 1 + 2 X + 3 X^2, whose values at 0 and 1 are 7 in sum and which is 34 at
// 3; and of 10 + X + 13 X^2, whose values at 0 and 1 are 34 in sum and which is 222 at 4.
const WHOLE: Replay = Replay {
    name: "two rounds",
    claimed: 7,
    rounds: &[&[1, 17], &[10, 64]],
    witnesses: &[],
    num_rounds: 2,
    degree: 2,
    pow_bits: 0,
    answer: Ok((&[3, 4], 222)),
    events: TWO_ROUNDS + 7,
    last: &[
        Event::Word(7),
        Event::Word(1),
        Event::Word(17),
        Event::Draw,
        Event::Word(10),
        Event::Word(64),
        Event::Draw,
    ],
};

// The same rounds with tests.
const TESTED: Replay = Replay {
    name: "two tested rounds",
    witnesses: &[5, 7],
    pow_bits: 1,
    events: TWO_TESTED_ROUNDS + 11,
    last: &[Event::Word(64), Event::Word(7), Event::Test(1), Event::Draw],
    ..WHOLE
};

// A replay that is refused before any event.
const UNCOUNTED: Replay = Replay {
    events: 0,
    last: &[],
    ..WHOLE
};

static REPLAYS: [Replay; 10] = [
    WHOLE,
    TESTED,
    Replay {
        name: "a degree of zero, and another number of rounds",
        degree: 0,
        num_rounds: 3,
        answer: Err(GenericDegreeError::InvalidDegree { degree: 0 }),
        ..UNCOUNTED
    },
    Replay {
        name: "two rounds for three, and no witness",
        num_rounds: 3,
        pow_bits: 1,
        answer: Err(GenericDegreeError::RoundCountMismatch {
            expected: 3,
            actual: 2,
        }),
        ..UNCOUNTED
    },
    Replay {
        name: "no witnesses",
        pow_bits: 1,
        answer: Err(GenericDegreeError::PowWitnessCountMismatch {
            expected: 2,
            actual: 0,
        }),
        ..UNCOUNTED
    },
    Replay {
        name: "witnesses without a test",
        witnesses: &[5, 7],
        answer: Err(GenericDegreeError::PowWitnessCountMismatch {
            expected: 0,
            actual: 2,
        }),
        ..UNCOUNTED
    },
    Replay {
        name: "a second round of one value",
        rounds: &[&[1, 17], &[10]],
        answer: Err(GenericDegreeError::PolyEvalCountMismatch {
            round: 1,
            expected: 2,
            actual: 1,
        }),
        events: TWO_ROUNDS + 4,
        last: &[Event::Word(1), Event::Word(17), Event::Draw],
        ..WHOLE
    },
    Replay {
        name: "a witness that fails",
        witnesses: &[5, 6],
        answer: Err(GenericDegreeError::InvalidPowWitness { round: 1 }),
        events: TWO_TESTED_ROUNDS + 10,
        last: &[
            Event::Draw,
            Event::Word(10),
            Event::Word(64),
            Event::Word(6),
            Event::Test(1),
        ],
        ..TESTED
    },
    Replay {
        name: "a first witness that fails before a round of one value",
        rounds: &[&[1, 17], &[10]],
        witnesses: &[6, 7],
        answer: Err(GenericDegreeError::InvalidPowWitness { round: 0 }),
        events: TWO_TESTED_ROUNDS + 5,
        last: &[
            Event::Word(7),
            Event::Word(1),
            Event::Word(17),
            Event::Word(6),
            Event::Test(1),
        ],
        ..TESTED
    },
    Replay {
        name: "no rounds",
        rounds: &[],
        num_rounds: 0,
        answer: Ok((&[], 7)),
        events: 177,
        last: &[Event::Word(0), Event::Word(0), Event::Word(7)],
        ..WHOLE
    },
];

// The same two rounds where an element has two parts, and the draws are those of 3 and of 4.
const IN_PARTS: Replay = Replay {
    events: TWO_ROUNDS + 14,
    last: &[
        Event::Word(10),
        Event::Word(0),
        Event::Word(64),
        Event::Word(0),
        Event::Draw,
        Event::Draw,
    ],
    ..WHOLE
};

// The proof of a claimed sum, of these rounds and witnesses.
fn proof_of<F: Field, EF: ExtensionField<F>>(
    alloc: Global,
    replay: &Replay,
) -> Result<GenericDegreeProof<F, EF>, NoMemory> {
    let mut round_polys = Vec::new(alloc);
    for values in replay.rounds {
        round_polys.push(elements(alloc, values)?)?;
    }
    Ok(GenericDegreeProof {
        claimed_sum: of(replay.claimed),
        round_polys,
        pow_witnesses: elements(alloc, replay.witnesses)?,
    })
}

// Replays a proof, of a degree below 16 and at a difficulty that the challenger takes.
fn replayed<F: Field, EF: ExtensionField<F>, C: Challenger<F>>(
    alloc: Global,
    proof: &GenericDegreeProof<F, EF>,
    challenger: &mut C,
    num_rounds: usize,
    degree: usize,
    pow_bits: usize,
) -> Result<(Point<EF>, EF), GenericDegreeError> {
    let pow_bits = pow_bits.min(challenger.max_bits());
    proof.verify(alloc, challenger, num_rounds, degree.min(15), pow_bits)
}

// Whether an answer is this one: a point by its coordinates' numbers, and an element by its own.
fn answers<F: Field>(
    answer: &Result<(Point<F>, F), GenericDegreeError>,
    wanted: Result<(&[u64], u64), GenericDegreeError>,
) -> bool {
    match (answer, wanted) {
        (Ok((point, left)), Ok((numbers, number))) => have_numbers(point.as_slice(), numbers)
            && left.index() == number,
        (Err(error), Err(refusal)) => *error == refusal,
        _ => false,
    }
}

// Replays a proof on a challenger of these draws, and tells the first part that is wrong, if there
// is one.
fn wrong_in<F: Field, EF: ExtensionField<F>>(
    alloc: Global,
    wanted: &Replay,
    draws: &[u64],
) -> Result<Option<&'static str>, NoMemory> {
    let mut challenger = scripted::<F>(alloc, draws, &[&[5], &[7]])?;
    let proof: GenericDegreeProof<F, EF> = proof_of(alloc, wanted)?;
    let answer = replayed(
        alloc,
        &proof,
        &mut challenger,
        wanted.num_rounds,
        wanted.degree,
        wanted.pow_bits,
    );
    let wrong = if !answers(&answer, wanted.answer) {
        Some("answer")
    } else if !ends(&challenger, wanted.events, wanted.last) {
        Some("events")
    } else {
        None
    };
    Ok(wrong)
}

#[test]
fn a_replay_ends_where_it_is_refused(rt: HostRuntime) {
    for replay in &REPLAYS {
        let name = replay.name;
        assert!(rt;
            wrong_in::<F65537, F65537>(rt.alloc(), replay, &[3, 4]) == Ok(None),
            "{name}"
        );
    }
    assert!(rt; wrong_in::<F257, F257x2>(rt.alloc(), &IN_PARTS, &[3, 0, 4, 0]) == Ok(None));
}
