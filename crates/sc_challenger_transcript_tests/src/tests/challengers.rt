//! Short plays and seeds, with figures by hand and from a script apart from this crate.
ghost use Rattle.std.specs.Prelude.{◌≡◌, ◌<◌, ◌≤◌, IfOk};
ghost use Rattle.sc_definitions.specs.Events.{own_extension, extension_draw};
ghost use Rattle.sc_definitions.specs.Tables.{evaluation};
ghost use Rattle.sc_definitions.specs.Seeds.{quadratic_separator};

mod hash;
mod plays;

use plays::Step::{self, Draw, Grind, Look, Observe, Test};
use plays::play;
use sc_challenger::{
    Challenger, DomainSeparator, GrindError, InteractionPattern, ScriptedChallenger, observe_ext,
    sample_ext,
};
use sc_definitions::{Event, Interaction, Kind, Label, Length, Protocol};
use sc_field::{ExtensionField, Field, NoMemory};
use sc_small_fields::F65537;
use std::alloc::Global;
use std::process::Abort;

// The bytes of the seed of one round without grinding, over a field as its own extension, in the
// basis of values: each digit is a word.
static ONE_ROUND: [&str; 11] = [
    // version 1, and the protocol's name
    "01",
    "000000000000001570332d73756d636865636b2d717561647261746963",
    // two steps
    "0000000000000002",
    // a message of values of one part, fixed, two of them
    "010000000000000001",
    "010000000000000002",
    "000000000000000a726f756e645f706f6c79",
    // a challenge of one part, one value
    "020000000000000001",
    "000000000000000001",
    "000000000000000f726f756e645f6368616c6c656e6765",
    // a label of one byte, the basis
    "0000000000000001",
    "00",
];

// The bytes of a seed without a step, whose label is the byte 171.
static NO_STEPS: [&str; 5] = [
    "01",
    "000000000000001a70332d73756d636865636b2d67656e657269632d646567726565",
    "0000000000000000",
    "0000000000000001",
    "ab",
];

// A challenger of these draws, and of these witnesses for its tests.
fn scripted<A: Abort>(
    rt: &A,
    alloc: Global,
    draws: &[u64],
    good: &[&[u64]],
) -> ScriptedChallenger<F65537> {
    sc_tests_common::scripted(alloc, draws, good).expect(rt, "room for a script")
}

// Makes room first, and then needs no memory.
fn two_words_in_room<F: Field, C: Challenger<F>>(
    challenger: &mut C,
    first: F,
    second: F,
) -> Result<F, NoMemory> {
    challenger.reserve(3)?;
    challenger.observe(first).unwrap();
    challenger.observe(second).unwrap();
    Ok(challenger.sample().unwrap())
}

// A script, what is played by it, and the history that is left.
struct Play {
    draws: &'static [u64],
    good: &'static [&'static [u64]],
    steps: &'static [Step],
    events: &'static [Event],
}

static PLAYS: [Play; 4] = [
    // draws past the end of the script
    Play {
        draws: &[3, 4],
        good: &[],
        steps: &[
            Observe(2),
            Observe(65535),
            Draw(3),
            Observe(0),
            Observe(65535),
            Draw(4),
            Draw(0),
        ],
        events: &[
            Event::Word(2),
            Event::Word(65535),
            Event::Draw,
            Event::Word(0),
            Event::Word(65535),
            Event::Draw,
            Event::Draw,
        ],
    },
    // the list of each test, and none after the last
    Play {
        draws: &[],
        good: &[&[5, 9], &[6]],
        steps: &[
            Look(1, 5, true),
            Look(16, 9, true),
            Look(16, 6, false),
            Test(16, 9, true),
            Draw(0),
            Look(1, 5, false),
            Look(1, 6, true),
            Test(1, 5, false),
            Look(3, 6, false),
            Look(3, 5, false),
            Test(3, 6, false),
        ],
        events: &[
            Event::Word(9),
            Event::Test(16),
            Event::Draw,
            Event::Word(5),
            Event::Test(1),
            Event::Word(6),
            Event::Test(3),
        ],
    },
    // lists that are unsorted, with members that stand there twice; and of none, one and two;
    // below, between and above the members nothing passes
    Play {
        draws: &[],
        good: &[&[40000, 7, 65536, 7, 300, 40000, 12], &[], &[9], &[20, 10]],
        steps: &[
            Look(1, 0, false),
            Look(1, 6, false),
            Look(1, 7, true),
            Look(1, 8, false),
            Look(1, 12, true),
            Look(1, 300, true),
            Look(1, 39999, false),
            Look(1, 40000, true),
            Look(1, 40001, false),
            Look(1, 65535, false),
            Look(1, 65536, true),
            Grind(1, Ok(7)),
            Look(1, 0, false),
            Look(1, 7, false),
            Look(1, 65536, false),
            Grind(1, Err(GrindError::NoWitness)),
            Test(1, 7, false),
            Look(1, 8, false),
            Look(1, 9, true),
            Look(1, 10, false),
            Test(1, 9, true),
            Look(1, 9, false),
            Look(1, 10, true),
            Look(1, 15, false),
            Look(1, 20, true),
            Look(1, 21, false),
            Test(1, 20, true),
            Look(1, 0, false),
            Look(1, 20, false),
        ],
        events: &[
            Event::Word(7),
            Event::Test(1),
            Event::Word(7),
            Event::Test(1),
            Event::Word(9),
            Event::Test(1),
            Event::Word(20),
            Event::Test(1),
        ],
    },
    // the first witness of each list, until none passes
    Play {
        draws: &[],
        good: &[&[9, 5], &[6]],
        steps: &[
            Grind(1, Ok(5)),
            Grind(1, Ok(6)),
            Grind(1, Err(GrindError::NoWitness)),
        ],
        events: &[
            Event::Word(5),
            Event::Test(1),
            Event::Word(6),
            Event::Test(1),
        ],
    },
];

#[test]
fn plays_as_scripted(rt: HostRuntime) {
    for Play {
        draws,
        good,
        steps,
        events,
    } in PLAYS.iter() {
        let mut challenger = scripted(&rt, rt.alloc(), *draws, *good);
        let begins = (challenger.events().len(), challenger.max_bits());
        assert!(rt; begins == (0, 16));
        play(&rt, &mut challenger, *steps);
        assert!(rt; challenger.events() == *events);
    }
}

#[test]
fn needs_no_memory_in_room(rt: HostRuntime) {
    let mut challenger = scripted(&rt, rt.alloc(), &[3, 4], &[]);
    let first = two_words_in_room(&mut challenger, F65537::element(2), F65537::element(65535));
    assert!(rt; first == Ok(F65537::element(3)));
    let wanted = [Event::Word(2), Event::Word(65535), Event::Draw];
    assert!(rt; challenger.events() == wanted.as_slice());
}

// What is played on a copy, and then on the challenger itself.
static ON_EITHER: [Step; 6] = [
    Observe(9),
    Observe(9),
    Draw(4),
    Look(1, 3, true),
    Look(1, 5, false),
    Look(1, 7, true),
];

#[test]
fn copies_play_apart(rt: HostRuntime) {
    let mut challenger = scripted(&rt, rt.alloc(), &[3, 4, 5], &[&[7, 3]]);
    play(&rt, &mut challenger, &[Draw(3)]);
    let mut copied = challenger.copy(rt.alloc()).expect(&rt, "room for a copy");
    play(&rt, &mut copied, &ON_EITHER);
    play(&rt, &mut challenger, &ON_EITHER);
    let wanted = [Event::Draw, Event::Word(9), Event::Word(9), Event::Draw];
    assert!(rt; challenger.events() == wanted.as_slice());
}

// Observes an element and draws one, with any extension.
fn observed_and_drawn<F: Field, EF: ExtensionField<F>, C: Challenger<F>>(
    challenger: &mut C,
    x: EF,
) -> Result<EF, NoMemory> {
    observe_ext(challenger, x)?;
    sample_ext(challenger)
}

// Draws with a field as its own extension.
fn drawn_of_itself<F: Field, C: Challenger<F>>(challenger: &mut C) -> Result<F, NoMemory>
    ensures { IfOk result (λ x. F.number x ≡ extension_draw (C.party challenger.old).rules own_extension (C.party challenger.old).history) }
{
    sample_ext(challenger)
}

// The numbers of what is drawn after an element, and of what is drawn next.
fn drawn_behind<F: Field, C: Challenger<F>>(
    challenger: &mut C,
    x: F,
) -> Result<(u64, u64), NoMemory> {
    let first: F = observed_and_drawn(challenger, x)?;
    let second = drawn_of_itself(challenger)?;
    Ok((first.index(), second.index()))
}

static PART_BY_PART: [Event; 3] = [Event::Word(65535), Event::Draw, Event::Draw];

#[test]
fn plays_elements_part_by_part(rt: HostRuntime) {
    let mut challenger = scripted(&rt, rt.alloc(), &[3, 4], &[]);
    let drawn = drawn_behind(&mut challenger, F65537::element(65535));
    assert!(rt; drawn == Ok((3, 4)) && challenger.events() == PART_BY_PART.as_slice());
}

// The separator of one round without grinding, over a field as its own extension, in the basis of
// values.
fn one_round(alloc: Global) -> Result<DomainSeparator, NoMemory>
    ensures { IfOk result (λ s. s ≡ quadratic_separator 1 evaluation 0 1) }
{
    let message = Interaction {
        kind: Kind::Message,
        parts: 1,
        length: Length::Fixed(2),
        label: Label::RoundPoly,
    };
    let challenge = Interaction {
        kind: Kind::Challenge,
        parts: 1,
        length: Length::Scalar,
        label: Label::RoundChallenge,
    };
    let pattern = InteractionPattern::new(vec![in alloc; message, challenge]?);
    let mut separator = DomainSeparator::new(1, Protocol::Quadratic, pattern);
    separator.instance(alloc, &[0])?;
    Ok(separator)
}

// Words as hexadecimal digits.
fn digits(alloc: Global, words: &[u8]) -> Result<String, NoMemory> {
    let mut text = String::new(alloc);
    for word in words {
        text.push(char::from_digit(*word as u32, 16).unwrap_or('-'))?;
    }
    Ok(text)
}

// These texts as one.
fn text<A: Abort>(rt: &A, alloc: Global, parts: &[&str]) -> String {
    parts.concat(alloc).expect(rt, "room for a text")
}

// The words of a seed as hexadecimal digits.
fn seed<A: Abort>(rt: &A, alloc: Global, separator: &DomainSeparator) -> String {
    let words = separator.seed_words(alloc).expect(rt, "room for a seed");
    digits(alloc, &words).expect(rt, "room for digits")
}

// The words that were observed as hexadecimal digits; anything else is a dash.
fn observed(alloc: Global, events: &[Event]) -> Result<String, NoMemory> {
    let mut text = String::new(alloc);
    for event in events {
        let digit = match event {
            Event::Word(word) if *word < 16 => char::from_digit(*word as u32, 16),
            _ => None,
        };
        text.push(digit.unwrap_or('-'))?;
    }
    Ok(text)
}

#[test]
fn seeds_one_round(rt: HostRuntime) {
    let separator = one_round(rt.alloc()).expect(&rt, "room for a separator");
    let wanted = text(&rt, rt.alloc(), &ONE_ROUND);
    let words = seed(&rt, rt.alloc(), &separator);
    assert!(rt; words == wanted && words.len() == 248);
    let mut challenger = scripted(&rt, rt.alloc(), &[], &[]);
    separator
        .seed(rt.alloc(), &mut challenger)
        .expect(&rt, "room for a seed");
    let words = observed(rt.alloc(), challenger.events()).expect(&rt, "room for a text");
    assert!(rt; words == wanted);
}

#[test]
fn sets_labels(rt: HostRuntime) {
    let pattern = InteractionPattern::new(Vec::new(rt.alloc()));
    assert!(rt; pattern.steps().len() == 0);
    let mut separator = DomainSeparator::new(1, Protocol::GenericDegree, pattern);
    assert!(rt; seed(&rt, rt.alloc(), &separator).len() == 102);
    separator
        .instance(rt.alloc(), &[0, 16])
        .expect(&rt, "room for a label");
    assert!(rt; seed(&rt, rt.alloc(), &separator).len() == 106);
    separator
        .instance(rt.alloc(), &[171])
        .expect(&rt, "room for a label");
    let wanted = text(&rt, rt.alloc(), &NO_STEPS);
    assert!(rt; seed(&rt, rt.alloc(), &separator) == wanted);
}

static REFUSALS: [(GrindError, &str); 2] = [
    (GrindError::NoWitness, "no element of the field passes"),
    (GrindError::NoMemory, "out of memory"),
];

#[test]
fn a_refusal_to_grind_says_why(rt: HostRuntime) {
    for (error, wanted) in &REFUSALS {
        let text = error.to_string(rt.alloc()).expect(&rt, "a text");
        assert!(rt; text.as_str() == *wanted, "{text}");
    }
}
