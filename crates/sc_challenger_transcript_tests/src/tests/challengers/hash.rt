//! Plays with the hash challenger. The figures were computed with Python's hashlib, an SHA-256
//! apart from the one here.
use super::plays::Step::{self, Draw, Grind, Look, Observe, Test};
use super::plays::play;
use sc_challenger::{Challenger, GrindError, HashChallenger};
use sc_definitions::Event;
use sc_small_fields::F65537;

// SHA-256 of the empty text.
static EMPTY: [u8; 32] = [
    0xe3, 0xb0, 0xc4, 0x42, 0x98, 0xfc, 0x1c, 0x14, 0x9a, 0xfb, 0xf4, 0xc8, 0x99, 0x6f, 0xb9, 0x24,
    0x27, 0xae, 0x41, 0xe4, 0x64, 0x9b, 0x93, 0x4c, 0xa4, 0x95, 0x99, 0x1b, 0x78, 0x52, 0xb8, 0x55,
];

// Plays over the integers modulo 65537, each from the empty history on. The state after the word of
// a witness that fails begins with one zero bit fewer than the test has.
static PLAYS: [&[Step]; 4] = [
    &[
        Draw(25515),
        Draw(56235),
        Observe(2),
        Observe(65536),
        Draw(20978),
        Look(1, 0, true),
        Test(1, 0, true),
        Look(1, 3, false),
        Test(1, 3, false),
        Draw(7565),
        Draw(33456),
        Observe(0),
        Look(4, 3, true),
        Test(4, 3, true),
        Look(4, 15, false),
        Test(4, 15, false),
        Draw(21487),
    ],
    // sixteen bits
    &[
        Observe(7),
        Observe(2),
        Look(16, 7664, true),
        Test(16, 7664, true),
        Look(16, 44911, false),
        Test(16, 44911, false),
        Draw(27019),
    ],
    // The first witness of eight bits is the one that a search over 0, 1, 2, .. in Python finds;
    // the second one there is 802.
    &[
        Observe(9),
        Draw(57753),
        Grind(8, Ok(798)),
        Draw(47256),
        Grind(8, Ok(54)),
        Draw(25887),
    ],
    // Behind the word 1 the same search finds no witness of sixteen bits.
    &[
        Observe(1),
        Grind(16, Err(GrindError::NoWitness)),
        Draw(17350),
    ],
];

static TESTS_OF_EIGHT_BITS: [Step; 8] = [
    Observe(0),
    Draw(33690),
    Look(8, 910, true),
    Test(8, 910, true),
    Look(8, 92, false),
    Test(8, 92, false),
    Observe(65535),
    Draw(50111),
];

// What a copy is taken after, and what follows on either.
static BEFORE_A_COPY: [Step; 3] = [Observe(5), Draw(20956), Test(1, 3, true)];

static BEHIND_A_COPY: [Step; 2] = [Draw(31044), Draw(63116)];

static EVENTS: [Event; 8] = [
    Event::Word(0),
    Event::Draw,
    Event::Word(910),
    Event::Test(8),
    Event::Word(92),
    Event::Test(8),
    Event::Word(65535),
    Event::Draw,
];

#[test]
fn begins_with_the_digest_of_nothing(rt: HostRuntime) {
    let challenger = HashChallenger::<F65537>::new(rt.alloc());
    let begins = (
        challenger.events().len(),
        challenger.state(),
        challenger.max_bits(),
    );
    assert!(rt; begins == (0, EMPTY, 16));
}

#[test]
fn plays_by_digests(rt: HostRuntime) {
    for steps in PLAYS.iter() {
        let mut challenger = HashChallenger::<F65537>::new(rt.alloc());
        play(&rt, &mut challenger, *steps);
    }
}

#[test]
fn keeps_the_list_of_its_events(rt: HostRuntime) {
    let mut challenger = HashChallenger::<F65537>::new(rt.alloc());
    play(&rt, &mut challenger, &TESTS_OF_EIGHT_BITS);
    assert!(rt; challenger.events() == EVENTS.as_slice());
}

#[test]
fn copies_have_the_same_draws(rt: HostRuntime) {
    let mut challenger = HashChallenger::<F65537>::new(rt.alloc());
    play(&rt, &mut challenger, &BEFORE_A_COPY);
    let mut copied = challenger.copy(rt.alloc()).expect(&rt, "room");
    play(&rt, &mut copied, &BEHIND_A_COPY);
    play(&rt, &mut challenger, &BEHIND_A_COPY);
    assert!(rt; copied.events() == challenger.events());
}
