//! The steps of a batch and its separator, as bytes that a script wrote by the format, which is no
//! part of this; and what shapes refuse.
use sc_challenger::{Interaction, Kind, Label, Length};
use sc_field::{ExtensionField, Field};
use sc_sixteen::Tower16;
use sc_small_fields::{F257, F257x2, F65537};
use sc_tests_common::hex_digits;
use sc_transcript::SumcheckError;
use sc_zk_transcript::{ZkPrelude, ZkStep, ZkSumcheckShape, shape_laws};
use std::alloc::Global;
use std::process::Abort;

// A shape, its steps, and the words of its seed as hexadecimal digits: the version, the protocol's
// name after its length, the number of steps, the steps, and the label of 8 bytes after its length.
struct Wanted {
    shape: ZkSumcheckShape,
    steps: &'static [Interaction],
    seed: &'static [&'static str],
    words: usize,
}

// A round without a difficulty, after claims that were recorded.
static RECORDED: Wanted = Wanted {
    shape: ZkSumcheckShape {
        prelude: ZkPrelude::RecordedClaims,
        num_rounds: 1,
        ell_zk: 3,
        pow_bits: 0,
    },
    steps: &[
        Interaction {
            kind: Kind::Challenge,
            parts: 1,
            length: Length::Scalar,
            label: Label::ClaimBatching,
        },
        Interaction {
            kind: Kind::Message,
            parts: 0,
            length: Length::Scalar,
            label: Label::MaskCommitment,
        },
        Interaction {
            kind: Kind::Message,
            parts: 1,
            length: Length::Scalar,
            label: Label::MuTilde,
        },
        Interaction {
            kind: Kind::Challenge,
            parts: 1,
            length: Length::Scalar,
            label: Label::MaskCombination,
        },
        Interaction {
            kind: Kind::Message,
            parts: 1,
            length: Length::Fixed(2),
            label: Label::RoundPoly,
        },
        Interaction {
            kind: Kind::Challenge,
            parts: 1,
            length: Length::Scalar,
            label: Label::RoundChallenge,
        },
    ],
    seed: &[
        "01",
        "0000000000000010",
        "70332d73756d636865636b2d68767a6b",
        "0000000000000006",
        "020000000000000001000000000000000001000000000000000e636c61696d5f6261746368696e67",
        "010000000000000000000000000000000001000000000000000f6d61736b5f636f6d6d69746d656e74",
        "01000000000000000100000000000000000100000000000000086d755f74696c6465",
        "02000000000000000100000000000000000100000000000000106d61736b5f636f6d62696e6174696f6e",
        "010000000000000001010000000000000002000000000000000a726f756e645f706f6c79",
        "020000000000000001000000000000000001000000000000000f726f756e645f6368616c6c656e6765",
        "0000000000000008",
        "0000000000000003",
    ],
    words: 566,
};

// A round with a difficulty over an extension of degree 2, after a claim that was handed on.
static INHERITED: Wanted = Wanted {
    shape: ZkSumcheckShape {
        prelude: ZkPrelude::InheritedClaim,
        num_rounds: 1,
        ell_zk: 5,
        pow_bits: 4,
    },
    steps: &[
        Interaction {
            kind: Kind::Message,
            parts: 2,
            length: Length::Scalar,
            label: Label::JointClaim,
        },
        Interaction {
            kind: Kind::Message,
            parts: 0,
            length: Length::Scalar,
            label: Label::MaskCommitment,
        },
        Interaction {
            kind: Kind::Message,
            parts: 2,
            length: Length::Scalar,
            label: Label::MuTilde,
        },
        Interaction {
            kind: Kind::Challenge,
            parts: 2,
            length: Length::Scalar,
            label: Label::MaskCombination,
        },
        Interaction {
            kind: Kind::Message,
            parts: 2,
            length: Length::Fixed(4),
            label: Label::RoundPoly,
        },
        Interaction {
            kind: Kind::Pow,
            parts: 1,
            length: Length::Fixed(4),
            label: Label::RoundPow,
        },
        Interaction {
            kind: Kind::Challenge,
            parts: 2,
            length: Length::Scalar,
            label: Label::RoundChallenge,
        },
    ],
    seed: &[
        "01",
        "0000000000000010",
        "70332d73756d636865636b2d68767a6b",
        "0000000000000007",
        "010000000000000002000000000000000001000000000000000b6a6f696e745f636c61696d",
        "010000000000000000000000000000000001000000000000000f6d61736b5f636f6d6d69746d656e74",
        "01000000000000000200000000000000000100000000000000086d755f74696c6465",
        "02000000000000000200000000000000000100000000000000106d61736b5f636f6d62696e6174696f6e",
        "010000000000000002010000000000000004000000000000000a726f756e645f706f6c79",
        "0300000000000000010100000000000000040000000000000009726f756e645f706f77",
        "020000000000000002000000000000000001000000000000000f726f756e645f6368616c6c656e6765",
        "0000000000000008",
        "0000000000000005",
    ],
    words: 630,
};

fn assert_shape<F: Field, EF: ExtensionField<F>, A: Abort>(rt: &A, alloc: Global, wanted: &Wanted) {
    let pattern = wanted.shape.pattern::<F, EF>(alloc).expect(rt, "an answer");
    assert!(rt; pattern.steps() == wanted.steps);
    let separator = wanted
        .shape
        .domain_separator::<F, EF>(alloc)
        .expect(rt, "an answer");
    let words = separator.seed_words(alloc).expect(rt, "an answer");
    let seed = hex_digits(alloc, wanted.seed).expect(rt, "an answer");
    assert!(rt; words.as_slice() == seed.as_slice() && words.len() == wanted.words);
}

#[test]
fn a_shape_has_its_steps_and_its_separator(rt: HostRuntime) {
    shape_laws();
    assert!(rt;
        ZkSumcheckShape::new_batching(1, 3, 0) == RECORDED.shape
            && ZkSumcheckShape::new_inherited(1, 5, 4) == INHERITED.shape
    );
    assert_shape::<F65537, F65537, HostRuntime>(&rt, rt.alloc(), &RECORDED);
    assert_shape::<F257, F257x2, HostRuntime>(&rt, rt.alloc(), &INHERITED);
}

// Masks of fewer than three coefficients have rounds of three.
#[test]
fn a_wire_has_one_value_fewer_than_its_round(rt: HostRuntime) {
    for (ell_zk, round, wire) in [(0, 3, 2), (2, 3, 2), (3, 3, 2), (4, 4, 3), (9, 9, 8)] {
        let shape = ZkSumcheckShape::new_inherited(1, ell_zk, 0);
        assert!(rt; shape.round_poly_len() == round, "{ell_zk}");
        assert!(rt; shape.wire_len() == wire, "{ell_zk}");
    }
}

// The first cause decides: the field, the masks' length, the number of rounds.
#[test]
fn a_shape_is_refused_by_its_first_cause(rt: HostRuntime) {
    let bad = ZkSumcheckShape::new_batching(0, 2, 0);
    let short = SumcheckError::MaskTooShort { ell_zk: 2 };
    assert!(rt;
        bad.validate::<Tower16>() == Err(SumcheckError::EvenCharacteristic)
            && bad.validate::<F65537>() == Err(short)
    );
    let none = ZkSumcheckShape::new_inherited(0, 3, 0);
    assert!(rt; none.validate::<F257x2>() == Err(SumcheckError::NoRounds));
    let good = ZkSumcheckShape::new_inherited(1, 3, 0);
    assert!(rt;
        good.validate::<Tower16>() == Err(SumcheckError::EvenCharacteristic)
            && good.validate::<F257>() == Ok(())
    );
}

#[test]
fn steps_are_equal_where_their_rounds_are(rt: HostRuntime) {
    assert!(rt;
        ZkStep::Round(2) == ZkStep::Round(2)
            && ZkStep::Round(2) != ZkStep::Round(3)
            && ZkStep::Done != ZkStep::Round(0)
            && ZkStep::Prelude != ZkStep::Masks
    );
}
