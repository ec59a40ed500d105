//! Drivers, data and replays, by figures by hand and from a script that is no part of this.
ghost use Rattle.std.specs.Prelude.{◌≡◌, ◌+◌, ◌<◌, ◌≤◌, OnOk};
ghost use Rattle.sc_transcript.specs.Drivers.{Continues, HasRoundsLeft};
ghost use Rattle.sc_transcript.specs.Transcripts.{driver_in};

mod driver;
mod shapes;
mod texts;

use sc_challenger::{Challenger, Event, ScriptedChallenger};
use sc_field::{ExtensionField, Field, NoMemory};
use sc_small_fields::F65537;
use sc_table::{Basis, Point, RoundMessage};
use sc_tests_common::{elements, have_numbers, of, scripted};
use sc_transcript::{
    ProverTranscript, SumcheckData, SumcheckError, SumcheckShape, VerifierTranscript,
    verify_final_sumcheck_rounds,
};
use std::alloc::Global;
use std::process::Abort;

// How many words the seeds of one round and of two have without a test, and of two with one.
const ONE_ROUND: usize = 248;

const TWO_ROUNDS: usize = 402;

const TWO_TESTED_ROUNDS: usize = 542;

// Whether there are so many events, and these are the last.
fn ends<F: Field>(challenger: &ScriptedChallenger<F>, events: usize, last: &[Event]) -> bool {
    challenger.events().len() == events && challenger.events().ends_with(last)
}

// What a verifier answers to a round of (1, 1) without a witness, the first of two at a difficulty of 4 bits, and how many rounds are left.
fn unwitnessed_round<F: Field, EF: ExtensionField<F>, C: Challenger<F>>(
    alloc: Global,
    challenger: &mut C,
) -> Result<(Result<EF, SumcheckError>, usize), NoMemory> {
    let difficulty = challenger.max_bits().min(4);
    let shape = SumcheckShape::new(2, difficulty, Basis::Evaluation);
    let mut transcript: VerifierTranscript<'_, C, F, EF> = VerifierTranscript::new(
        alloc, challenger, shape,
    )?;
    let answer = transcript.round(of(1), of(1), None);
    let left = transcript.rounds_left();
    transcript.abort();
    Ok((answer, left))
}

#[test]
fn a_difficulty_wants_a_witness(rt: HostRuntime) {
    let mut challenger = scripted::<F65537>(rt.alloc(), &[], &[]).expect(&rt, "an answer");
    let missing = SumcheckError::MissingPowWitness {
        round: 0,
        difficulty: 4,
    };
    let (answer, left) = unwitnessed_round::<F65537, F65537, _>(rt.alloc(), &mut challenger).expect(
        &rt,
        "an answer",
    );
    assert!(rt;
        answer == Err(missing)
            && left == 2
            && ends(
                &challenger,
                TWO_TESTED_ROUNDS + 2,
                &[Event::Word(1), Event::Word(1)]
            )
    );
}

// The numbers of a challenge and of a witness.
type Played = (u64, Option<u64>);

fn numbers<F: Field, EF: Field>(played: (EF, Option<F>)) -> Played {
    match played.1 {
        Some(witness) => (played.0.index(), Some(witness.index())),
        None => (played.0.index(), None),
    }
}

// Plays the rounds of (2, 65535) and (0, 65535).
fn two_rounds<F: Field, EF: ExtensionField<F>, C: Challenger<F>>(
    transcript: &mut ProverTranscript<'_, C, F, EF>,
) -> Result<(Played, Played), SumcheckError>
    requires { HasRoundsLeft 2 (driver_in transcript.old) }
    ensures continues { Continues (driver_in transcript.old) (driver_in transcript.new) }
    ensures played { OnOk result ((driver_in transcript.new).played ≡ (driver_in transcript.old).played + 2) }
{
    let first = transcript.round(of(2), of(65535))?;
    let second = transcript.round(of(0), of(65535))?;
    Ok((numbers(first), numbers(second)))
}

// Plays a batch of these rounds with tests of one bit.
fn tested_rounds<F: Field, EF: ExtensionField<F>, C: Challenger<F>>(
    alloc: Global,
    challenger: &mut C,
) -> Result<(Played, Played), SumcheckError> {
    let difficulty = challenger.max_bits().min(1);
    let shape = SumcheckShape::new(2, difficulty, Basis::Evaluation);
    let mut transcript: ProverTranscript<'_, C, F, EF> = ProverTranscript::new(
        alloc, challenger, shape,
    )?;
    match two_rounds(&mut transcript) {
        Ok(played) => {
            transcript.finish();
            Ok(played)
        }
        Err(error) => {
            transcript.abort();
            Err(error)
        }
    }
}

// The witnesses that pass, what a prover of these rounds then answers, how many events there are, and the last of them.
struct Tested {
    good: &'static [&'static [u64]],
    answer: Result<(Played, Played), SumcheckError>,
    events: usize,
    last: &'static [Event],
}

static FOUND: Tested = Tested {
    good: &[&[5, 9], &[6]],
    answer: Ok(((3, Some(5)), (4, Some(6)))),
    events: TWO_TESTED_ROUNDS + 10,
    last: &[
        Event::Word(2),
        Event::Word(65535),
        Event::Word(5),
        Event::Test(1),
        Event::Draw,
        Event::Word(0),
        Event::Word(65535),
        Event::Word(6),
        Event::Test(1),
        Event::Draw,
    ],
};

static NONE_FOUND: Tested = Tested {
    good: &[],
    answer: Err(SumcheckError::NoWitness { round: 0 }),
    events: TWO_TESTED_ROUNDS + 2,
    last: &[Event::Word(2), Event::Word(65535)],
};

fn assert_tested<A: Abort>(rt: &A, alloc: Global, tested: &Tested) {
    let mut challenger = scripted(alloc, &[3, 4], tested.good).expect(rt, "an answer");
    let answer = tested_rounds::<F65537, F65537, _>(alloc, &mut challenger);
    assert!(rt; answer == tested.answer && ends(&challenger, tested.events, tested.last));
}

#[test]
fn a_prover_sends_the_first_witness_that_passes(rt: HostRuntime) {
    assert_tested(&rt, rt.alloc(), &FOUND);
}

#[test]
fn a_prover_may_find_no_witness(rt: HostRuntime) {
    assert_tested(&rt, rt.alloc(), &NONE_FOUND);
}

// Appends the rounds of (2, 65535) and (0, 65535), and answers their challenges.
fn append_two<F: Field, EF: ExtensionField<F>, C: Challenger<F>>(
    data: &mut SumcheckData<F, EF>,
    transcript: &mut ProverTranscript<'_, C, F, EF>,
) -> Result<[EF; 2], SumcheckError>
    requires { HasRoundsLeft 2 (driver_in transcript.old) }
    ensures continues { Continues (driver_in transcript.old) (driver_in transcript.new) }
    ensures played { OnOk result ((driver_in transcript.new).played ≡ (driver_in transcript.old).played + 2) }
{
    let first = data.observe_and_sample(transcript, of(2), of(65535))?;
    let second = data.observe_and_sample(transcript, of(0), of(65535))?;
    Ok([first, second])
}

// Plays a batch of these rounds without a test.
fn untested_rounds<F: Field, EF: ExtensionField<F>, C: Challenger<F>>(
    alloc: Global,
    challenger: &mut C,
    data: &mut SumcheckData<F, EF>,
) -> Result<[EF; 2], SumcheckError> {
    let shape = SumcheckShape::new(2, 0, Basis::Evaluation);
    let mut transcript = ProverTranscript::new(alloc, challenger, shape)?;
    match append_two(data, &mut transcript) {
        Ok(challenges) => {
            transcript.finish();
            Ok(challenges)
        }
        Err(error) => {
            transcript.abort();
            Err(error)
        }
    }
}

// Replays data at a difficulty that the challenger takes.
fn replayed<F: Field, EF: ExtensionField<F>, C: Challenger<F>>(
    alloc: Global,
    data: &SumcheckData<F, EF>,
    challenger: &mut C,
    claim: &mut EF,
    rounds: usize,
    pow_bits: usize,
    basis: Basis,
) -> Result<Point<EF>, SumcheckError> {
    let pow_bits = pow_bits.min(challenger.max_bits());
    data.verify_rounds(alloc, challenger, claim, rounds, pow_bits, basis)
}

// Whether data is the two rounds, and no witness.
fn is_two<F: Field, EF: ExtensionField<F>>(
    alloc: Global,
    data: &SumcheckData<F, EF>,
) -> Result<bool, NoMemory> {
    let wanted: SumcheckData<F, EF> = data_of(alloc, &TWO, &[])?;
    Ok(
        data.num_rounds() == 2
            && data.polynomial_evaluations() == wanted.polynomial_evaluations()
            && data.pow_witnesses.len() == 0,
    )
}

#[test]
fn both_sides_keep_in_step(rt: HostRuntime) {
    let mut prover = scripted::<F65537>(rt.alloc(), &[3, 4], &[]).expect(&rt, "an answer");
    let mut verifier = scripted(rt.alloc(), &[3, 4], &[]).expect(&rt, "an answer");
    let mut data: SumcheckData<F65537, F65537> = SumcheckData::new(rt.alloc());
    data.reserve(2).expect(&rt, "an answer");
    let challenges = untested_rounds(rt.alloc(), &mut prover, &mut data).expect(&rt, "an answer");
    assert!(rt; have_numbers(&challenges, &[3, 4]) && data.num_rounds() == 2);
    let data = data.copy(rt.alloc()).expect(&rt, "an answer");
    assert!(rt; is_two(rt.alloc(), &data) == Ok(true));
    let mut claim = of(2);
    let point = replayed(
        rt.alloc(),
        &data,
        &mut verifier,
        &mut claim,
        2,
        0,
        Basis::Evaluation,
    );
    assert!(rt;
        answers(&point, Ok(&[3, 4]))
            && claim.index() == 65449
            && prover.events() == verifier.events()
            && verifier.events().len() == TWO_ROUNDS + 6
    );
}

// What a proof is and what is expected of it, and what the replay then answers and leaves.
#[derive(Clone, Copy)]
struct Replay {
    name: &'static str,
    rounds: &'static [(u64, u64)],
    witnesses: &'static [u64],
    claim: u64,
    expected_rounds: usize,
    pow_bits: usize,
    basis: Basis,
    answer: Result<&'static [u64], SumcheckError>,
    claim_left: u64,
    events: usize,
    last: &'static [Event],
}

const TWO: [(u64, u64); 2] = [(2, 65535), (0, 65535)];

// Two rounds whose witnesses pass and fail, and the first of whose challenges is 3.
const TESTED: Replay = Replay {
    name: "a witness that fails",
    rounds: &TWO,
    witnesses: &[5, 6],
    claim: 2,
    expected_rounds: 2,
    pow_bits: 1,
    basis: Basis::Evaluation,
    answer: Err(SumcheckError::InvalidPowWitness {
        round: 1,
        difficulty: 1,
    }),
    claim_left: 65521,
    events: TWO_TESTED_ROUNDS + 9,
    last: &[Event::Word(6), Event::Test(1)],
};

// A replay that is refused for its counts.
const UNCOUNTED: Replay = Replay {
    claim_left: 2,
    events: 0,
    last: &[],
    ..TESTED
};

// A replay of no rounds.
const EMPTY: Replay = Replay {
    name: "no rounds",
    rounds: &[],
    witnesses: &[],
    claim: 2,
    expected_rounds: 0,
    pow_bits: 0,
    basis: Basis::Evaluation,
    answer: Ok(&[]),
    claim_left: 2,
    events: 0,
    last: &[],
};

static REPLAYS: [Replay; 14] = [
    TESTED,
    Replay {
        name: "a first witness that fails",
        witnesses: &[6, 6],
        answer: Err(SumcheckError::InvalidPowWitness {
            round: 0,
            difficulty: 1,
        }),
        claim_left: 2,
        events: TWO_TESTED_ROUNDS + 4,
        ..TESTED
    },
    Replay {
        name: "one witness for two",
        witnesses: &[5],
        answer: Err(SumcheckError::PowWitnessCountMismatch {
            expected: 2,
            actual: 1,
        }),
        ..UNCOUNTED
    },
    Replay {
        name: "three witnesses for two",
        witnesses: &[5, 7, 7],
        answer: Err(SumcheckError::PowWitnessCountMismatch {
            expected: 2,
            actual: 3,
        }),
        ..UNCOUNTED
    },
    Replay {
        name: "no rounds for two",
        rounds: &[],
        answer: Err(SumcheckError::RoundCountMismatch {
            expected: 2,
            actual: 0,
        }),
        ..UNCOUNTED
    },
    Replay {
        name: "three rounds for two",
        rounds: &[(2, 65535), (0, 65535), (0, 0)],
        answer: Err(SumcheckError::RoundCountMismatch {
            expected: 2,
            actual: 3,
        }),
        ..UNCOUNTED
    },
    Replay {
        name: "a round for none",
        rounds: &[(2, 65535)],
        answer: Err(SumcheckError::RoundCountMismatch {
            expected: 0,
            actual: 1,
        }),
        ..EMPTY
    },
    Replay {
        name: "no witnesses",
        witnesses: &[],
        answer: Err(SumcheckError::PowWitnessCountMismatch {
            expected: 2,
            actual: 0,
        }),
        ..UNCOUNTED
    },
    Replay {
        name: "witnesses without a test",
        pow_bits: 0,
        answer: Err(SumcheckError::PowWitnessCountMismatch {
            expected: 0,
            actual: 2,
        }),
        ..UNCOUNTED
    },
    Replay {
        name: "one round for two",
        rounds: &[(2, 65535)],
        answer: Err(SumcheckError::RoundCountMismatch {
            expected: 2,
            actual: 1,
        }),
        ..UNCOUNTED
    },
    Replay {
        name: "one round for two, and no witness",
        rounds: &[(2, 65535)],
        witnesses: &[],
        answer: Err(SumcheckError::RoundCountMismatch {
            expected: 2,
            actual: 1,
        }),
        ..UNCOUNTED
    },
    EMPTY,
    Replay {
        name: "no rounds at a difficulty",
        pow_bits: 1,
        ..EMPTY
    },
    Replay {
        name: "a round of coefficients",
        rounds: &[(5, 2)],
        claim: 7,
        expected_rounds: 1,
        basis: Basis::Projective,
        answer: Ok(&[3]),
        claim_left: 17,
        events: ONE_ROUND + 3,
        last: &[Event::Word(5), Event::Word(2), Event::Draw],
        ..EMPTY
    },
];

// Data of these rounds and witnesses.
fn data_of<F: Field, EF: ExtensionField<F>>(
    alloc: Global,
    rounds: &[(u64, u64)],
    witnesses: &[u64],
) -> Result<SumcheckData<F, EF>, NoMemory> {
    let messages = rounds
        .iter()
        .map(|round| RoundMessage {
            c_a: of(round.0),
            c_inf: of(round.1),
        })
        .collect(alloc)?;
    Ok(SumcheckData {
        polynomial_evaluations: messages,
        pow_witnesses: elements(alloc, witnesses)?,
    })
}

// Whether an answer is this one; a point by its coordinates' numbers.
fn answers<F: Field>(
    answer: &Result<Point<F>, SumcheckError>,
    wanted: Result<&[u64], SumcheckError>,
) -> bool {
    match (answer, wanted) {
        (Ok(point), Ok(numbers)) => have_numbers(point.as_slice(), numbers),
        (Err(error), Err(refusal)) => *error == refusal,
        _ => false,
    }
}

// The first part of what a replay answers and leaves that is not as wanted, if there is one.
fn wrong_part<F: Field, EF: Field>(
    wanted: &Replay,
    answer: &Result<Point<EF>, SumcheckError>,
    claim: EF,
    challenger: &ScriptedChallenger<F>,
) -> Option<&'static str> {
    if !answers(answer, wanted.answer) {
        Some("answer")
    } else if claim.index() != wanted.claim_left {
        Some("claim")
    } else if !ends(challenger, wanted.events, wanted.last) {
        Some("events")
    } else {
        None
    }
}

// Replays a proof, and tells the first part that is wrong, if there is one.
fn wrong_in<F: Field, EF: ExtensionField<F>>(
    alloc: Global,
    wanted: &Replay,
) -> Result<Option<&'static str>, NoMemory> {
    let mut challenger = scripted::<F>(alloc, &[3, 4], &[&[5], &[7]])?;
    let data: SumcheckData<F, EF> = data_of(alloc, wanted.rounds, wanted.witnesses)?;
    let mut claim = of(wanted.claim);
    let answer = replayed(
        alloc,
        &data,
        &mut challenger,
        &mut claim,
        wanted.expected_rounds,
        wanted.pow_bits,
        wanted.basis,
    );
    Ok(wrong_part(wanted, &answer, claim, &challenger))
}

#[test]
fn a_replay_ends_where_it_is_refused(rt: HostRuntime) {
    for replay in &REPLAYS {
        let name = replay.name;
        assert!(rt;
            wrong_in::<F65537, F65537>(rt.alloc(), replay) == Ok(None),
            "{name}"
        );
    }
}

// A call for last rounds: whether it has data, how many rounds it wants, their difficulty, the answer, and what is left: the claim, and how many events
// there are then.
type Last = (
    bool,
    usize,
    usize,
    Result<&'static [u64], SumcheckError>,
    (u64, usize),
);

static NO_LAST: [Last; 2] = [
    (false, 0, 99, Ok(&[]), (2, 0)),
    (true, 0, 99, Ok(&[]), (2, 0)),
];

static LAST: [Last; 2] = [
    (
        false,
        2,
        0,
        Err(SumcheckError::MissingSumcheckData { expected_rounds: 2 }),
        (2, 0),
    ),
    (true, 2, 0, Ok(&[3, 4]), (65449, TWO_ROUNDS + 6)),
];

// A difficulty for so many rounds that the challenger takes.
fn taken<F: Field, C: Challenger<F>>(challenger: &C, rounds: usize, pow_bits: usize) -> usize
    ensures { 0 < rounds → result ≤ (C.party challenger.now).rules.max_bits }
{
    if rounds == 0 {
        pow_bits
    } else {
        pow_bits.min(challenger.max_bits())
    }
}

// Makes a call for so many last rounds, with data or without.
fn last_rounds<F: Field, EF: ExtensionField<F>, C: Challenger<F>>(
    alloc: Global,
    data: Option<&SumcheckData<F, EF>>,
    challenger: &mut C,
    claim: &mut EF,
    rounds: usize,
    pow_bits: usize,
) -> Result<Point<EF>, SumcheckError> {
    let pow_bits = taken::<F, C>(challenger, rounds, pow_bits);
    verify_final_sumcheck_rounds(
        alloc,
        data,
        challenger,
        claim,
        rounds,
        pow_bits,
        Basis::Evaluation,
    )
}

// Makes the calls one after the other, each on what the one before it left.
fn assert_last<A: Abort>(rt: &A, alloc: Global, calls: &[Last]) {
    let data: SumcheckData<F65537, F65537> = data_of(alloc, &TWO, &[]).expect(rt, "an answer");
    let mut challenger = scripted(alloc, &[3, 4], &[]).expect(rt, "an answer");
    let mut claim = of(2);
    for (has_data, rounds, pow_bits, wanted, left) in calls {
        let found = if *has_data { Some(&data) } else { None };
        let answer = last_rounds(
            alloc,
            found,
            &mut challenger,
            &mut claim,
            *rounds,
            *pow_bits,
        );
        assert!(rt;
            answers(&answer, *wanted) && (claim.index(), challenger.events().len()) == *left
        );
    }
}

#[test]
fn no_last_rounds_want_no_data(rt: HostRuntime) {
    assert_last(&rt, rt.alloc(), &NO_LAST);
}

#[test]
fn last_rounds_want_their_data(rt: HostRuntime) {
    assert_last(&rt, rt.alloc(), &LAST);
}
