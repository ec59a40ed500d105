//! Plays on any challenger, step by step.
use sc_challenger::{Challenger, GrindError, grind};
use sc_field::Field;
use std::process::Abort;

// A step of a play, and what it is answered.
#[derive(Clone, Copy)]
pub(super) enum Step {
    // A word of this number is observed.
    Observe(u64),
    // The draw has this number.
    Draw(u64),
    // The witness of this number would pass a test of so many bits, or it would not.
    Look(usize, u64, bool),
    // A test of so many bits is passed by the witness of this number, or it is not.
    Test(usize, u64, bool),
    // The first witness of so many bits, or none, is found.
    Grind(usize, Result<u64, GrindError>),
}

// The element of this number, which is asserted to be below the size.
fn of<F: Field, A: Abort>(rt: &A, number: u64) -> F {
    assert!(rt; number < F::size());
    F::element(number)
}

// Whether a witness would pass.
fn looked<F: Field, C: Challenger<F>, A: Abort>(
    rt: &A,
    challenger: &C,
    bits: usize,
    number: u64,
) -> bool {
    assert!(rt; 1 <= bits && bits <= challenger.max_bits());
    challenger.would_pass(bits, of(rt, number))
}

// Whether a witness passes.
fn tested<F: Field, C: Challenger<F>, A: Abort>(
    rt: &A,
    challenger: &mut C,
    bits: usize,
    number: u64,
) -> bool {
    assert!(rt; 1 <= bits && bits <= challenger.max_bits());
    challenger
        .check_witness(bits, of(rt, number))
        .expect(rt, "room for a word and a test")
}

// The number of the witness that is found.
fn found<F: Field, C: Challenger<F>, A: Abort>(
    rt: &A,
    challenger: &mut C,
    bits: usize,
) -> Result<u64, GrindError> {
    assert!(rt; 1 <= bits && bits <= challenger.max_bits());
    grind(challenger, bits).map(|witness| witness.index())
}

// Plays a step, and asserts what it is answered.
fn play_step<F: Field, C: Challenger<F>, A: Abort>(rt: &A, challenger: &mut C, step: Step) {
    match step {
        Step::Observe(word) => challenger
            .observe(of(rt, word))
            .expect(rt, "room for a word"),
        Step::Draw(wanted) => {
            let drawn = challenger.sample().expect(rt, "room for a draw");
            assert!(rt; drawn.index() == wanted);
        }
        Step::Look(bits, number, wanted) => {
            assert!(rt; looked(rt, challenger, bits, number) == wanted);
        }
        Step::Test(bits, number, wanted) => {
            assert!(rt; tested(rt, challenger, bits, number) == wanted);
        }
        Step::Grind(bits, wanted) => {
            assert!(rt; found(rt, challenger, bits) == wanted);
        }
    }
}

// Plays steps, and asserts what each is answered.
pub(super) fn play<F: Field, C: Challenger<F>, A: Abort>(
    rt: &A,
    challenger: &mut C,
    steps: &[Step],
) {
    for step in steps {
        play_step(rt, challenger, *step);
    }
}
