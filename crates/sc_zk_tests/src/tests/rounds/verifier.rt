//! The replay of a claim: what it answers, and each refusal with the history that it leaves.

use sc_challenger::{Challenger, Event, ScriptedChallenger};
use sc_commitments::{Mmcs, Sha2Mmcs};
use sc_field::{ExtensionField, Field, NoMemory};
use sc_sixteen::Tower16;
use sc_small_fields::F65537;
use sc_tests_common::{elements, have_numbers, of, scripted};
use sc_transcript::SumcheckError;
use sc_zk::{ZkSumcheckData, ZkVerifier, ZkVerifierHandoff};
use std::alloc::Global;
use std::process::Abort;

// The claim, and the masks' total.
const CLAIM: u64 = 5;

const TOTAL: u64 = 12;

// A replay that is asked for: the wires and witnesses that came, the length of masks, the number of
// rounds and the difficulty.
#[derive(Clone, Copy)]
struct Replay {
    wires: &'static [&'static [u64]],
    witnesses: &'static [u64],
    ell_zk: usize,
    rounds: usize,
    pow_bits: usize,
}

// The data that came on the wire.
fn came<F: Field>(alloc: Global, asked: &Replay) -> Result<ZkSumcheckData<F, F>, NoMemory> {
    let mut wires = Vec::new(alloc);
    for wire in asked.wires {
        wires.push(elements(alloc, wire)?)?;
    }
    Ok(ZkSumcheckData {
        mu_tilde: of(TOTAL),
        round_coefficients: wires,
        pow_witnesses: elements(alloc, asked.witnesses)?,
    })
}

// The answer, over a challenger of these draws and of these witnesses that pass, and the challenger
// as it is then.
fn replayed<F: ExtensionField<F>>(
    alloc: Global,
    asked: &Replay,
    draws: &[u64],
    good: &[&[u64]],
) -> Result<
    (
        Result<ZkVerifierHandoff<F>, SumcheckError>,
        ScriptedChallenger<F>,
    ),
    NoMemory,
> {
    let data: ZkSumcheckData<F, F> = came(alloc, asked)?;
    let mut challenger = scripted::<F>(alloc, draws, good)?;
    let pow_bits = asked.pow_bits.min(challenger.max_bits());
    let commitment = [0; 32];
    let answer = ZkVerifier::<F, F>::verify_claim::<Sha2Mmcs, _>(
        alloc,
        &Sha2Mmcs::new(),
        &data,
        &commitment,
        asked.ell_zk,
        asked.rounds,
        pow_bits,
        of(CLAIM),
        &mut challenger,
    );
    Ok((answer, challenger))
}

// Two rounds over masks of four coefficients.
const GOOD: Replay = Replay {
    wires: &[&[1, 2, 3], &[4, 5, 6]],
    witnesses: &[],
    ell_zk: 4,
    rounds: 2,
    pow_bits: 0,
};

// The round of one mask.
const ONE: Replay = Replay {
    wires: &[&[95, 65511]],
    ell_zk: 3,
    rounds: 1,
    ..GOOD
};

fn assert_answer<A: Abort>(rt: &A, alloc: Global, asked: &Replay, good: &[&[u64]], left: u64) {
    let (answer, _challenger) = replayed::<F65537>(alloc, asked, &[31, 2, 3], good).expect(
        rt,
        "an answer",
    );
    let handed = answer.expect(rt, "an answer");
    assert!(rt;
        have_numbers(handed.randomness.as_slice(), &[2, 3][..asked.rounds.min(2)])
            && handed.eps.index() == 31
            && handed.claimed_residual.index() == left
    );
}

// The first target is 31 5 + 12 = 167. The linear coefficient of the first wire is 160, which is
// 167 - 2 - 5, and its value at 2 is 1 + 320 + 8 + 24 = 353; that of the second is 353 - 8 - 11,
// which is 334, and its value at 3 is 4 + 1002 + 45 + 162. The round of one mask is that of a whole
// masked run by hand.
#[test]
fn a_claim_is_replayed(rt: HostRuntime) {
    assert_answer(&rt, rt.alloc(), &GOOD, &[], 1213);
    let tested = Replay {
        witnesses: &[6, 8],
        pow_bits: 2,
        ..GOOD
    };
    assert_answer(&rt, rt.alloc(), &tested, &[&[6], &[8]], 1213);
    assert_answer(&rt, rt.alloc(), &ONE, &[], 65534);
    // A wire with one more in its first value is replayed as well: only what is left tells.
    let other = Replay {
        wires: &[&[96, 65511]],
        ..ONE
    };
    assert_answer(&rt, rt.alloc(), &other, &[], 65531);
}

// A replay that is refused: what is asked, the witnesses that pass, why it is refused, and how many
// events are left, with the last of them.
struct Refused {
    asked: Replay,
    error: SumcheckError,
    events: usize,
    last: &'static [Event],
}

// The seed of one round has 560 words without a test; that of two has 714, and 854 with one. Then
// come the claim, 64 words, the total and a draw, and each round's wire and draw.
static REFUSED: [Refused; 10] = [
    Refused {
        asked: Replay {
            wires: &[&[95]],
            ..ONE
        },
        error: SumcheckError::WireSizeMismatch {
            round: 0,
            expected: 2,
            actual: 1,
        },
        events: 560 + 67,
        last: &[Event::Draw],
    },
    Refused {
        asked: Replay {
            wires: &[&[95, 65511], &[95, 65511]],
            ..ONE
        },
        error: SumcheckError::RoundCountMismatch {
            expected: 1,
            actual: 2,
        },
        events: 0,
        last: &[],
    },
    Refused {
        asked: Replay {
            witnesses: &[5],
            ..ONE
        },
        error: SumcheckError::PowWitnessCountMismatch {
            expected: 0,
            actual: 1,
        },
        events: 0,
        last: &[],
    },
    Refused {
        asked: Replay {
            ell_zk: 2,
            rounds: 0,
            ..GOOD
        },
        error: SumcheckError::MaskTooShort { ell_zk: 2 },
        events: 0,
        last: &[],
    },
    Refused {
        asked: Replay { rounds: 0, ..GOOD },
        error: SumcheckError::NoRounds,
        events: 0,
        last: &[],
    },
    Refused {
        asked: Replay {
            rounds: 3,
            witnesses: &[1],
            ..GOOD
        },
        error: SumcheckError::RoundCountMismatch {
            expected: 3,
            actual: 2,
        },
        events: 0,
        last: &[],
    },
    Refused {
        asked: Replay {
            witnesses: &[1],
            ..GOOD
        },
        error: SumcheckError::PowWitnessCountMismatch {
            expected: 0,
            actual: 1,
        },
        events: 0,
        last: &[],
    },
    Refused {
        asked: Replay {
            wires: &[&[1, 2, 3], &[4, 5]],
            ..GOOD
        },
        error: SumcheckError::WireSizeMismatch {
            round: 1,
            expected: 3,
            actual: 2,
        },
        events: 714 + 67 + 4,
        last: &[Event::Word(1), Event::Word(2), Event::Word(3), Event::Draw],
    },
    Refused {
        asked: Replay {
            witnesses: &[6, 9],
            pow_bits: 2,
            ..GOOD
        },
        error: SumcheckError::InvalidPowWitness {
            round: 1,
            difficulty: 2,
        },
        events: 854 + 67 + 6 + 5,
        last: &[
            Event::Draw,
            Event::Word(4),
            Event::Word(5),
            Event::Word(6),
            Event::Word(9),
            Event::Test(2),
        ],
    },
    // A witness that fails comes before a wire of another length in a later round.
    Refused {
        asked: Replay {
            wires: &[&[1, 2, 3], &[4]],
            witnesses: &[7, 8],
            pow_bits: 2,
            ..GOOD
        },
        error: SumcheckError::InvalidPowWitness {
            round: 0,
            difficulty: 2,
        },
        events: 854 + 67 + 5,
        last: &[Event::Word(3), Event::Word(7), Event::Test(2)],
    },
];

fn assert_refused<A: Abort>(rt: &A, alloc: Global, refused: &Refused) {
    let (answer, challenger) = replayed::<F65537>(
        alloc,
        &refused.asked,
        &[31, 2, 3],
        &[&[6], &[8]],
    ).expect(rt, "an answer");
    assert!(rt;
        answer.err() == Some(refused.error)
            && challenger.events().len() == refused.events
            && challenger.events().ends_with(refused.last)
    );
}

#[test]
fn each_refusal_leaves_its_history(rt: HostRuntime) {
    for refused in &REFUSED {
        assert_refused(&rt, rt.alloc(), refused);
    }
}

// Two is zero among sixteen elements, whatever else is asked.
#[test]
fn masks_need_an_odd_field(rt: HostRuntime) {
    let asked = Replay {
        ell_zk: 2,
        rounds: 0,
        ..GOOD
    };
    let (answer, challenger) = replayed::<Tower16>(rt.alloc(), &asked, &[1], &[]).expect(
        &rt,
        "an answer",
    );
    assert!(rt;
        answer.err() == Some(SumcheckError::EvenCharacteristic) && challenger.events().is_empty()
    );
}
