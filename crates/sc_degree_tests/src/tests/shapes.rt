//! The steps of a batch and its separator, as bytes that a script wrote by the format, which is no
//! part of this.
use sc_challenger::{Interaction, Kind, Label, Length};
use sc_degree::GenericDegreeShape;
use sc_degree::laws::{round_laws, shape_laws};
use sc_field::{ExtensionField, Field};
use sc_small_fields::{F257, F257x2, F65537};
use sc_tests_common::hex_digits;
use std::alloc::Global;
use std::process::Abort;

// A shape, its steps, and the words of its seed as hexadecimal digits: the version, the protocol's
// name after its length, the number of steps, the steps, and the length of the empty label.
struct Wanted {
    shape: GenericDegreeShape,
    steps: &'static [Interaction],
    seed: &'static [&'static str],
    words: usize,
}

// 1 + 8 + 26 + 8 + 37 + 36 + 41 + 8 bytes.
static UNTESTED: Wanted = Wanted {
    shape: GenericDegreeShape {
        num_rounds: 1,
        degree: 3,
        pow_bits: 0,
    },
    steps: &[
        Interaction {
            kind: Kind::Message,
            parts: 1,
            length: Length::Scalar,
            label: Label::ClaimedSum,
        },
        Interaction {
            kind: Kind::Message,
            parts: 1,
            length: Length::Fixed(3),
            label: Label::RoundPoly,
        },
        Interaction {
            kind: Kind::Challenge,
            parts: 1,
            length: Length::Scalar,
            label: Label::RoundChallenge,
        },
    ],
    seed: &[
        "01",
        "000000000000001a",
        "70332d73756d636865636b2d67656e657269632d646567726565",
        "0000000000000003",
        "010000000000000001000000000000000001000000000000000b636c61696d65645f73756d",
        "010000000000000001010000000000000003000000000000000a726f756e645f706f6c79",
        "020000000000000001000000000000000001000000000000000f726f756e645f6368616c6c656e6765",
        "0000000000000000",
    ],
    words: 330,
};

// A round of degree 5 with a difficulty, over an extension of degree 2.
static TESTED: Wanted = Wanted {
    shape: GenericDegreeShape {
        num_rounds: 1,
        degree: 5,
        pow_bits: 4,
    },
    steps: &[
        Interaction {
            kind: Kind::Message,
            parts: 2,
            length: Length::Scalar,
            label: Label::ClaimedSum,
        },
        Interaction {
            kind: Kind::Message,
            parts: 2,
            length: Length::Fixed(5),
            label: Label::RoundPoly,
        },
        Interaction {
            kind: Kind::Pow,
            parts: 1,
            length: Length::Fixed(4),
            label: Label::RoundPow,
        },
        Interaction {
            kind: Kind::Challenge,
            parts: 2,
            length: Length::Scalar,
            label: Label::RoundChallenge,
        },
    ],
    seed: &[
        "01",
        "000000000000001a",
        "70332d73756d636865636b2d67656e657269632d646567726565",
        "0000000000000004",
        "010000000000000002000000000000000001000000000000000b636c61696d65645f73756d",
        "010000000000000002010000000000000005000000000000000a726f756e645f706f6c79",
        "0300000000000000010100000000000000040000000000000009726f756e645f706f77",
        "020000000000000002000000000000000001000000000000000f726f756e645f6368616c6c656e6765",
        "0000000000000000",
    ],
    words: 400,
};

fn assert_shape<F: Field, EF: ExtensionField<F>, A: Abort>(rt: &A, alloc: Global, wanted: &Wanted) {
    let pattern = wanted.shape.pattern::<F, EF>(alloc).expect(rt, "an answer");
    assert!(rt; pattern.steps() == wanted.steps);
    let separator = wanted
        .shape
        .domain_separator::<F, EF>(alloc)
        .expect(rt, "an answer");
    let words = separator.seed_words(alloc).expect(rt, "an answer");
    let seed = hex_digits(alloc, wanted.seed).expect(rt, "an answer");
    assert!(rt; words.as_slice() == seed.as_slice() && words.len() == wanted.words);
}

#[test]
fn a_shape_has_its_steps_and_its_separator(rt: HostRuntime) {
    shape_laws();
    round_laws::<F65537>();
    round_laws::<F257x2>();
    assert_shape::<F65537, F65537, HostRuntime>(&rt, rt.alloc(), &UNTESTED);
    assert_shape::<F257, F257x2, HostRuntime>(&rt, rt.alloc(), &TESTED);
}
