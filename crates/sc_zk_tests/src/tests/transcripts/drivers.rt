//! Both drivers, step by step.

ghost use Rattle.std.specs.Prelude.{◌≡◌, ◌<◌, All, IfOk, length};

use sc_challenger::{Challenger, Event, ScriptedChallenger};
use sc_commitments::{Mmcs, RowMajorMatrix, Sha2Mmcs};
use sc_field::{ExtensionField, Field, NoMemory};
use sc_small_fields::{F257, F257x2, F65537};
use sc_table::Row;
use sc_tests_common::{elements, have_numbers, hex_digits, of, scripted};
use sc_transcript::SumcheckError;
use sc_zk_transcript::{
    ZkPrelude, ZkProverTranscript, ZkStep, ZkSumcheckShape, ZkTranscript, ZkVerifierTranscript,
};
use std::alloc::Global;
use std::process::Abort;

// The claim that is handed on, and the masks' total.
const CLAIM: u64 = 11;

const TOTAL: u64 = 22;

// The digest of the matrix of the rows 1, 2, 3 and 4, 5, 6, computed by another program.
const DIGEST: &str = "9ea199eba6f1aeef00d6b6215e0b05b230191551d67445765ee1938d6950a201";

// The words of the commitment to that matrix.
fn commitment(alloc: Global) -> Result<Vec<u8>, NoMemory>
    ensures count { IfOk result (λ v. length v.items ≡ 64) }
    ensures below { IfOk result (λ v. All (λ w. w < 16) v.items) }
{
    let values: Vec<F65537> = elements(alloc, &[1, 2, 3, 4, 5, 6])?;
    let matrix = RowMajorMatrix {
        values: Row::new(values),
        width: 3,
    };
    let (commitment, _kept) = Sha2Mmcs::new().commit_matrix(alloc, matrix)?;
    <Sha2Mmcs as Mmcs<F65537>>::words(&Sha2Mmcs::new(), alloc, commitment)
}

// Appends an item, and tells the want of memory as an error of its own.
fn push<T: Drop>(list: &mut Vec<T>, item: T) -> Result<(), NoMemory> {
    list.push(item)?;
    Ok(())
}

// What a side drew, its witnesses, and the step that is next.
#[derive(Drop)]
struct Played<F, EF> {
    drawn: Vec<EF>,
    witnesses: Vec<Option<F>>,
    next: ZkStep,
}

// Takes the steps before the rounds, each where it is next, and answers what is drawn.
fn take_head<C: Challenger<F>, F: Field, EF: ExtensionField<F>, P>(
    alloc: Global,
    transcript: &mut ZkTranscript<'_, C, F, EF, P>,
) -> Result<Vec<EF>, NoMemory> {
    let words = commitment(alloc)?;
    let mut drawn = Vec::new(alloc);
    if let ZkStep::Prelude = transcript.next_step() {
        match transcript.shape().prelude {
            ZkPrelude::RecordedClaims => drawn.push(transcript.batching_challenge()?)?,
            ZkPrelude::InheritedClaim => transcript.bind_claim(of(CLAIM))?,
        }
    }
    if let ZkStep::Masks = transcript.next_step() {
        drawn.push(transcript.masks(&words, of(TOTAL))?)?;
    }
    Ok(drawn)
}

// Plays rounds of these wires, each where it is next and as long as the shape says.
fn play_rounds<C: Challenger<F>, F: Field, EF: ExtensionField<F>>(
    alloc: Global,
    transcript: &mut ZkProverTranscript<'_, C, F, EF>,
    wires: &[&[u64]],
) -> Result<Played<F, EF>, SumcheckError> {
    let mut drawn = take_head(alloc, transcript)?;
    let mut witnesses = Vec::new(alloc);
    for wire in wires {
        let values: Vec<EF> = elements(alloc, wire)?;
        if values.len() == transcript.shape().wire_len() {
            if let ZkStep::Round(_) = transcript.next_step() {
                let (challenge, witness) = transcript.round(&values)?;
                push(&mut drawn, challenge)?;
                push(&mut witnesses, witness)?;
            }
        }
    }
    Ok(Played {
        drawn,
        witnesses,
        next: transcript.next_step(),
    })
}

// Plays a batch at a difficulty that the challenger takes.
fn play<C: Challenger<F>, F: Field, EF: ExtensionField<F>>(
    alloc: Global,
    challenger: &mut C,
    shape: ZkSumcheckShape,
    wires: &[&[u64]],
) -> Result<Played<F, EF>, SumcheckError> {
    let pow_bits = shape.pow_bits.min(challenger.max_bits());
    let shape = ZkSumcheckShape { pow_bits, ..shape };
    let mut transcript: ZkProverTranscript<'_, C, F, EF> = ZkProverTranscript::new(
        alloc, challenger, shape,
    )?;
    let played = play_rounds(alloc, &mut transcript, wires);
    match transcript.next_step() {
        ZkStep::Done => transcript.finish(),
        _ => transcript.abort(),
    }
    played
}

// Takes rounds of these wires and witnesses, each where it is next.
fn take_rounds<C: Challenger<F>, F: Field, EF: ExtensionField<F>>(
    alloc: Global,
    transcript: &mut ZkVerifierTranscript<'_, C, F, EF>,
    wires: &[&[u64]],
    witnesses: &[Option<F>],
) -> Result<Vec<EF>, SumcheckError> {
    let mut drawn = take_head(alloc, transcript)?;
    for (wire, witness) in wires.iter().zip(witnesses) {
        let values: Vec<EF> = elements(alloc, wire)?;
        if let ZkStep::Round(_) = transcript.next_step() {
            let challenge = transcript.round(&values, *witness)?;
            push(&mut drawn, challenge)?;
        }
    }
    Ok(drawn)
}

// Takes a batch, and answers what is drawn, or why a round is rejected, and the step that is next.
fn take<C: Challenger<F>, F: Field, EF: ExtensionField<F>>(
    alloc: Global,
    challenger: &mut C,
    shape: ZkSumcheckShape,
    wires: &[&[u64]],
    witnesses: &[Option<F>],
) -> Result<(Result<Vec<EF>, SumcheckError>, ZkStep), NoMemory> {
    let pow_bits = shape.pow_bits.min(challenger.max_bits());
    let shape = ZkSumcheckShape { pow_bits, ..shape };
    let mut transcript: ZkVerifierTranscript<'_, C, F, EF> = ZkVerifierTranscript::new(
        alloc, challenger, shape,
    )?;
    let taken = take_rounds(alloc, &mut transcript, wires, witnesses);
    let next = transcript.next_step();
    transcript.abort();
    Ok((taken, next))
}

// A batch: its shape, the draws, the witnesses that pass, the wires; how many words the seed has,
// and what comes after it, before and after the commitment; and what is drawn.
struct Batch {
    shape: ZkSumcheckShape,
    draws: &'static [u64],
    good: &'static [&'static [u64]],
    wires: &'static [&'static [u64]],
    seed: usize,
    before: &'static [Event],
    after: &'static [Event],
    drawn: &'static [u64],
}

static RECORDED: Batch = Batch {
    shape: ZkSumcheckShape {
        prelude: ZkPrelude::RecordedClaims,
        num_rounds: 1,
        ell_zk: 3,
        pow_bits: 0,
    },
    draws: &[5, 7, 9],
    good: &[],
    wires: &[&[1, 65536]],
    seed: 566,
    before: &[Event::Draw],
    after: &[
        Event::Word(22),
        Event::Draw,
        Event::Word(1),
        Event::Word(65536),
        Event::Draw,
    ],
    drawn: &[5, 7, 9],
};

// Two draws make 3 + 1 u, whose number is 3 + 257, and 4 + 2 u.
static INHERITED: Batch = Batch {
    shape: ZkSumcheckShape {
        prelude: ZkPrelude::InheritedClaim,
        num_rounds: 1,
        ell_zk: 5,
        pow_bits: 4,
    },
    draws: &[3, 1, 4, 2],
    good: &[&[6, 8]],
    wires: &[&[1, 2, 3, 258]],
    seed: 630,
    before: &[Event::Word(11), Event::Word(0)],
    after: &[
        Event::Word(22),
        Event::Word(0),
        Event::Draw,
        Event::Draw,
        Event::Word(1),
        Event::Word(0),
        Event::Word(2),
        Event::Word(0),
        Event::Word(3),
        Event::Word(0),
        Event::Word(1),
        Event::Word(1),
        Event::Word(6),
        Event::Test(4),
        Event::Draw,
        Event::Draw,
    ],
    drawn: &[260, 518],
};

// Whether the history is so many words of a seed, and then these events.
fn has_events<F: Field>(
    alloc: Global,
    challenger: &ScriptedChallenger<F>,
    batch: &Batch,
    after: &[Event],
) -> Result<bool, NoMemory> {
    let mut events = Vec::new(alloc);
    events.extend_from_slice(batch.before)?;
    for digit in &hex_digits(alloc, &[DIGEST])? {
        events.push(Event::Word(*digit as u64))?;
    }
    events.extend_from_slice(after)?;
    let all = challenger.events();
    Ok(all.len() == batch.seed.saturating_add(events.len()) && all.ends_with(&events))
}

fn assert_batch<F: Field, EF: ExtensionField<F>, A: Abort>(rt: &A, alloc: Global, batch: &Batch) {
    let mut ours = scripted::<F>(alloc, batch.draws, batch.good).expect(rt, "an answer");
    let played: Played<F, EF> = play(alloc, &mut ours, batch.shape, batch.wires).expect(
        rt,
        "an answer",
    );
    assert!(rt;
        has_numbers(&played, batch) && has_events(alloc, &ours, batch, batch.after) == Ok(true)
    );

    let mut theirs = scripted::<F>(alloc, batch.draws, batch.good).expect(rt, "an answer");
    let (taken, next) = take::<_, F, EF>(
        alloc,
        &mut theirs,
        batch.shape,
        batch.wires,
        &played.witnesses,
    )
    .expect(rt, "an answer");
    assert!(rt;
        have_numbers(&taken.expect(rt, "an answer"), batch.drawn)
            && next == ZkStep::Done
            && theirs.events() == ours.events()
    );
}

// Whether all is drawn that the batch draws, to its end.
fn has_numbers<F: Field, EF: Field>(played: &Played<F, EF>, batch: &Batch) -> bool {
    have_numbers(&played.drawn, batch.drawn) && played.next == ZkStep::Done
}

#[test]
fn a_prover_and_a_verifier_keep_in_step(rt: HostRuntime) {
    assert_batch::<F65537, F65537, HostRuntime>(&rt, rt.alloc(), &RECORDED);
    assert_batch::<F257, F257x2, HostRuntime>(&rt, rt.alloc(), &INHERITED);
}

// A round that is rejected: the wire, the witness that comes, why, and the events after the masks.
struct Rejected {
    wire: &'static [u64],
    witness: Option<u64>,
    error: SumcheckError,
    after: &'static [Event],
}

// The first two come before the wire is absorbed, or without a witness; the last fails its test.
static REJECTED: [Rejected; 3] = [
    Rejected {
        wire: &[1],
        witness: Some(6),
        error: SumcheckError::WireSizeMismatch {
            round: 0,
            expected: 2,
            actual: 1,
        },
        after: &[Event::Word(22), Event::Draw],
    },
    Rejected {
        wire: &[1, 2],
        witness: None,
        error: SumcheckError::MissingPowWitness {
            round: 0,
            difficulty: 2,
        },
        after: &[Event::Word(22), Event::Draw, Event::Word(1), Event::Word(2)],
    },
    Rejected {
        wire: &[1, 2],
        witness: Some(5),
        error: SumcheckError::InvalidPowWitness {
            round: 0,
            difficulty: 2,
        },
        after: &[
            Event::Word(22),
            Event::Draw,
            Event::Word(1),
            Event::Word(2),
            Event::Word(5),
            Event::Test(2),
        ],
    },
];

// One round at two bits, under a claim that is handed on; no witness but 6 passes.
static TESTED: Batch = Batch {
    shape: ZkSumcheckShape {
        prelude: ZkPrelude::InheritedClaim,
        num_rounds: 1,
        ell_zk: 3,
        pow_bits: 2,
    },
    draws: &[7, 9],
    good: &[&[6]],
    wires: &[],
    seed: 630,
    before: &[Event::Word(11)],
    after: &[],
    drawn: &[],
};

fn assert_rejected<A: Abort>(rt: &A, alloc: Global, rejected: &Rejected) {
    let mut challenger = scripted::<F65537>(alloc, TESTED.draws, TESTED.good).expect(
        rt,
        "an answer",
    );
    let witness: Option<F65537> = match rejected.witness {
        Some(number) => Some(of(number)),
        None => None,
    };
    let (taken, next) = take::<_, F65537, F65537>(
        alloc,
        &mut challenger,
        TESTED.shape,
        &[rejected.wire],
        &[witness],
    )
    .expect(rt, "an answer");
    assert!(rt;
        taken.err() == Some(rejected.error)
            && next == ZkStep::Round(0)
            && has_events(alloc, &challenger, &TESTED, rejected.after) == Ok(true)
    );
}

#[test]
fn a_rejected_round_is_still_next(rt: HostRuntime) {
    for rejected in &REJECTED {
        assert_rejected(&rt, rt.alloc(), rejected);
    }
}

// No witness passes: the history ends with the wire.
#[test]
fn a_prover_may_find_no_witness(rt: HostRuntime) {
    let mut challenger = scripted::<F65537>(rt.alloc(), TESTED.draws, &[]).expect(&rt, "an answer");
    let played = play::<_, F65537, F65537>(rt.alloc(), &mut challenger, TESTED.shape, &[&[1, 2]]);
    assert!(rt; played.err() == Some(SumcheckError::NoWitness { round: 0 }));
    let after = [Event::Word(22), Event::Draw, Event::Word(1), Event::Word(2)];
    assert!(rt; has_events(rt.alloc(), &challenger, &TESTED, &after) == Ok(true));
}
