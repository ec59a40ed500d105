//! The steps of a batch and its separator, as bytes that a script wrote by the format, which is no part of this.
use sc_challenger::{Interaction, Kind, Label, Length};
use sc_field::{ExtensionField, Field};
use sc_small_fields::{F257, F257x2, F65537};
use sc_table::Basis;
use sc_tests_common::hex_digits;
use sc_transcript::{SumcheckShape, shape_laws};
use std::alloc::Global;
use std::process::Abort;

// A shape, its steps, and the words of its seed as hexadecimal digits: the version, the protocol's name after its length, the number of steps, the steps,
// and the basis after its length.
struct Wanted {
    shape: SumcheckShape,
    steps: &'static [Interaction],
    seed: &'static [&'static str],
}

static ONE_ROUND: Wanted = Wanted {
    shape: SumcheckShape {
        num_rounds: 1,
        pow_bits: 0,
        basis: Basis::Evaluation,
    },
    steps: &[
        Interaction {
            kind: Kind::Message,
            parts: 1,
            length: Length::Fixed(2),
            label: Label::RoundPoly,
        },
        Interaction {
            kind: Kind::Challenge,
            parts: 1,
            length: Length::Scalar,
            label: Label::RoundChallenge,
        },
    ],
    seed: &[
        "01",
        "0000000000000015",
        "70332d73756d636865636b2d717561647261746963",
        "0000000000000002",
        "010000000000000001010000000000000002000000000000000a726f756e645f706f6c79",
        "020000000000000001000000000000000001000000000000000f726f756e645f6368616c6c656e6765",
        "0000000000000001",
        "00",
    ],
};

const MESSAGE: Interaction = Interaction {
    kind: Kind::Message,
    parts: 2,
    length: Length::Fixed(2),
    label: Label::RoundPoly,
};

const WITNESS: Interaction = Interaction {
    kind: Kind::Pow,
    parts: 1,
    length: Length::Fixed(3),
    label: Label::RoundPow,
};

const CHALLENGE: Interaction = Interaction {
    kind: Kind::Challenge,
    parts: 2,
    length: Length::Scalar,
    label: Label::RoundChallenge,
};

// Two rounds with a difficulty, of coefficients, over an extension of degree 2.
static TWO_ROUNDS: Wanted = Wanted {
    shape: SumcheckShape {
        num_rounds: 2,
        pow_bits: 3,
        basis: Basis::Projective,
    },
    steps: &[MESSAGE, WITNESS, CHALLENGE, MESSAGE, WITNESS, CHALLENGE],
    seed: &[
        "01",
        "0000000000000015",
        "70332d73756d636865636b2d717561647261746963",
        "0000000000000006",
        "010000000000000002010000000000000002000000000000000a726f756e645f706f6c79",
        "0300000000000000010100000000000000030000000000000009726f756e645f706f77",
        "020000000000000002000000000000000001000000000000000f726f756e645f6368616c6c656e6765",
        "010000000000000002010000000000000002000000000000000a726f756e645f706f6c79",
        "0300000000000000010100000000000000030000000000000009726f756e645f706f77",
        "020000000000000002000000000000000001000000000000000f726f756e645f6368616c6c656e6765",
        "0000000000000001",
        "01",
    ],
};

fn assert_shape<F: Field, EF: ExtensionField<F>, A: Abort>(rt: &A, alloc: Global, wanted: &Wanted) {
    let pattern = wanted.shape.pattern::<F, EF>(alloc).expect(rt, "an answer");
    assert!(rt; pattern.steps() == wanted.steps);
    let separator = wanted
        .shape
        .domain_separator::<F, EF>(alloc)
        .expect(rt, "an answer");
    let words = separator.seed_words(alloc).expect(rt, "an answer");
    let seed = hex_digits(alloc, wanted.seed).expect(rt, "an answer");
    assert!(rt; words.as_slice() == seed.as_slice());
}

#[test]
fn a_shape_has_its_steps_and_its_separator(rt: HostRuntime) {
    shape_laws();
    assert_shape::<F65537, F65537, HostRuntime>(&rt, rt.alloc(), &ONE_ROUND);
    assert_shape::<F257, F257x2, HostRuntime>(&rt, rt.alloc(), &TWO_ROUNDS);
}
