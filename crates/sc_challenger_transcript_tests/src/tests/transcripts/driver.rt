//! A protocol of its own on the drivers: rounds of three values, after two words.
ghost use Rattle.std.specs.Prelude.{◌≡◌, ◌≤◌, Some, length};

use super::{ends, numbers};
use sc_challenger::{Challenger, Event, Interaction, Kind, Label, Length, ScriptedChallenger};
use sc_field::NoMemory;
use sc_small_fields::F65537;
use sc_tests_common::{of, scripted};
use sc_transcript::RoundError;
use sc_transcript::driver::{
    ProverSide, RoundShape, SliceShape, Transcript, VerifierSide, push_round_steps,
};
use sc_transcript::rounds::BatchShape;
use std::alloc::Global;

static GOOD: [&[u64]; 1] = [&[5, 9]];

// The events of a round of 1, 2 and 3 with the witness 5 at 4 bits.
static SENT: [Event; 6] = [
    Event::Word(1),
    Event::Word(2),
    Event::Word(3),
    Event::Word(5),
    Event::Test(4),
    Event::Draw,
];

static REFUSALS: [(RoundError, &str); 7] = [
    (
        RoundError::RoundCount {
            expected: 2,
            actual: 3,
        },
        "expected 2 rounds, but 3 came",
    ),
    (
        RoundError::WitnessCount {
            expected: 2,
            actual: 0,
        },
        "expected 2 witnesses, but 0 came",
    ),
    (
        RoundError::WrongWidth {
            round: 1,
            expected: 3,
            actual: 2,
        },
        "expected 3 values in round 1, but 2 came",
    ),
    (
        RoundError::NoWitness { round: 2 },
        "no witness passes in round 2",
    ),
    (
        RoundError::MissingWitness {
            round: 0,
            difficulty: 4,
        },
        "round 0 came without a witness for 4 bits",
    ),
    (
        RoundError::InvalidWitness {
            round: 3,
            difficulty: 4,
        },
        "the witness of round 3 does not pass at 4 bits",
    ),
    (RoundError::NoMemory, "out of memory"),
];

// A batch of one round of three values.
#[derive(Clone, Copy)]
struct Triple {
    pow_bits: usize,
}

impl RoundShape for Triple {
    ghost numbers = { λ s. record { num_rounds = 1; width = 3; pow_bits = s.pow_bits } };

    fn batch(&self) -> BatchShape {
        BatchShape {
            num_rounds: 1,
            width: 3,
            pow_bits: self.pow_bits,
        }
    }
}

impl SliceShape for Triple {
    type Error = RoundError;

    ghost cause = { λ _ e. Some e };

    fn refusal(&self, error: RoundError) -> RoundError {
        error
    }
}

// What stands before its round.
fn begin<C: Challenger<F65537>>(challenger: &mut C) -> Result<(), NoMemory>
    ensures { (C.party challenger.new).rules ≡ (C.party challenger.old).rules }
{
    challenger.observe(of(40))?;
    challenger.observe(of(41))
}

// What a prover of these values answers. The challenger is handed back.
fn sent<C: Challenger<F65537>>(
    challenger: &mut C,
    shape: Triple,
    values: &[F65537],
) -> Result<(F65537, Option<F65537>), RoundError>
    requires difficulty { shape.pow_bits ≤ (C.party challenger.old).rules.max_bits }
    requires three { length values.now ≡ 3 }
    ensures { (C.party challenger.new).rules ≡ (C.party challenger.old).rules }
{
    begin(challenger)?;
    let mut transcript: Transcript<'_, C, F65537, F65537, Triple, ProverSide> = Transcript::over(
        challenger, shape,
    );
    match transcript.round(values) {
        Ok(sent) => {
            transcript.finish();
            Ok(sent)
        }
        Err(error) => {
            transcript.abort();
            Err(error)
        }
    }
}

// What a verifier answers to these values and a witness. The challenger is handed back.
fn taken<C: Challenger<F65537>>(
    challenger: &mut C,
    shape: Triple,
    values: &[F65537],
    witness: Option<F65537>,
) -> Result<F65537, RoundError>
    requires { shape.pow_bits ≤ (C.party challenger.old).rules.max_bits }
    ensures { (C.party challenger.new).rules ≡ (C.party challenger.old).rules }
{
    begin(challenger)?;
    let mut transcript: Transcript<'_, C, F65537, F65537, Triple, VerifierSide> = Transcript::over(
        challenger, shape,
    );
    match transcript.round(values, witness) {
        Ok(challenge) => {
            transcript.finish();
            Ok(challenge)
        }
        Err(error) => {
            transcript.abort();
            Err(error)
        }
    }
}

// A challenger that draws 7, and whose first test 5 and 9 pass.
fn challenger(alloc: Global) -> Result<ScriptedChallenger<F65537>, NoMemory> {
    scripted(alloc, &[7], &GOOD)
}

// The shape at 4 bits, or at as many as there can be.
fn shape(challenger: &ScriptedChallenger<F65537>) -> Triple
    ensures { result.pow_bits ≤ (⟦<ScriptedChallenger<F65537> as Challenger<F65537>>⟧.party challenger.now).rules.max_bits }
{
    Triple {
        pow_bits: challenger.max_bits().min(4),
    }
}

// What a verifier answers to the first of 1, 2 and 3, so many of them, and what its challenger then ends with, of so many events.
fn rejected(
    alloc: Global,
    count: usize,
    witness: Option<F65537>,
    events: usize,
    last: &[Event],
) -> Result<Option<RoundError>, NoMemory> {
    let mut verifier = challenger(alloc)?;
    let shape = shape(&verifier);
    let values = [of(1), of(2), of(3)];
    match taken(&mut verifier, shape, &values[..count.min(3)], witness) {
        Ok(_) => Ok(None),
        Err(error) => Ok(if ends(&verifier, events, last) {
            Some(error)
        } else {
            None
        }),
    }
}

#[test]
fn a_round_of_three_values_is_played(rt: HostRuntime) {
    let mut prover = challenger(rt.alloc()).expect(&rt, "an answer");
    let shape = shape(&prover);
    let answer = sent(&mut prover, shape, &[of(1), of(2), of(3)]).expect(&rt, "an answer");
    assert!(rt; numbers(answer) == (7, Some(5)) && ends(&prover, 8, &SENT));
}

#[test]
fn a_round_of_three_values_is_taken(rt: HostRuntime) {
    let mut verifier = challenger(rt.alloc()).expect(&rt, "an answer");
    let shape = shape(&verifier);
    let answer = taken(&mut verifier, shape, &[of(1), of(2), of(3)], Some(of(5)));
    assert!(rt; answer == Ok(of(7)) && ends(&verifier, 8, &SENT));
}

#[test]
fn a_round_of_three_values_is_rejected(rt: HostRuntime) {
    let failed = RoundError::InvalidWitness {
        round: 0,
        difficulty: 4,
    };
    let end = [Event::Word(3), Event::Word(6), Event::Test(4)];
    let answer = rejected(rt.alloc(), 3, Some(of(6)), 7, &end).expect(&rt, "an answer");
    assert!(rt; answer == Some(failed));
    let missing = RoundError::MissingWitness {
        round: 0,
        difficulty: 4,
    };
    let end = [Event::Word(2), Event::Word(3)];
    let answer = rejected(rt.alloc(), 3, None, 5, &end).expect(&rt, "an answer");
    assert!(rt; answer == Some(missing));
    let narrow = RoundError::WrongWidth {
        round: 0,
        expected: 3,
        actual: 2,
    };
    let end = [Event::Word(40), Event::Word(41)];
    let answer = rejected(rt.alloc(), 2, Some(of(5)), 2, &end).expect(&rt, "an answer");
    assert!(rt; answer == Some(narrow));
}

#[test]
fn a_round_has_its_steps(rt: HostRuntime) {
    let mut steps = Vec::new(rt.alloc());
    push_round_steps(&mut steps, 2, 3, 4).expect(&rt, "an answer");
    let message = Interaction {
        kind: Kind::Message,
        parts: 2,
        length: Length::Fixed(3),
        label: Label::RoundPoly,
    };
    assert!(rt; steps.len() == 3 && steps[0] == message);
}

#[test]
fn a_refused_round_has_a_text(rt: HostRuntime) {
    for (error, wanted) in &REFUSALS {
        let text = error.to_string(rt.alloc()).expect(&rt, "an answer");
        assert!(rt; text.as_str() == *wanted, "{text}");
    }
}
