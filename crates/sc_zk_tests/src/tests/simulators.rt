//! Simulators, of which the generator is replayed: what they send are its next numbers.

use rand_chacha::ChaCha8Rng;
use rand_core::SeedableRng;
use sc_challenger::{Challenger, Event, ScriptedChallenger};
use sc_commitments::{Mmcs, NodeCode, Sha2Mmcs, ZkEncoding, draw_list, sample_masks};
use sc_field::{Field, with_room};
use sc_small_fields::F65537;
use sc_table::Point;
use sc_tests_common::{have_numbers, of, scripted};
use sc_transcript::SumcheckError;
use sc_zk_rounds::head::begin_recorded;
use sc_zk_rounds::mixing::masks_total;
use sc_zk_rounds::replayed::{check_came, replay_begun};
use sc_zk_rounds::{ZkSumcheckData, verify_claim};
use sc_zk_simulators::{simulate_classic_unpacked_claim, simulate_recorded, simulation_in_step};
use sc_zk_transcript::ZkSumcheckShape;
use std::alloc::Global;
use std::process::Abort;

// What a simulator answers: the data, the commitment and the challenges.
type Answer = Result<(ZkSumcheckData<F65537, F65537>, [u8; 32], Point<F65537>), SumcheckError>;

// Two rounds that are simulated under the claim 5, and the challenger, which draws 31, 2 and 3.
fn simulated<A: Abort>(
    rt: &A,
    alloc: Global,
    pow_bits: usize,
    good: &[&[u64]],
) -> (Answer, ScriptedChallenger<F65537>) {
    let mut challenger = scripted::<F65537>(alloc, &[31, 2, 3], good).expect(rt, "a challenger");
    let pow_bits = pow_bits.min(challenger.max_bits());
    let code = NodeCode::<F65537>::new(4, 2, 12);
    ZkSumcheckShape::new_inherited(2, 4, pow_bits)
        .validate::<F65537>()
        .expect(rt, "a shape");
    let answer = simulate_classic_unpacked_claim(
        alloc,
        &mut challenger,
        of(5),
        2,
        pow_bits,
        &code,
        &Sha2Mmcs::new(),
        &mut ChaCha8Rng::from_seed([7; 32]),
    );
    (answer, challenger)
}

// The total, the commitment and the wires are what the generator makes of its next numbers: masks,
// randomness, and then entry by entry.
#[test]
fn what_is_sent_is_drawn(rt: HostRuntime) {
    let alloc = rt.alloc();
    let (answer, _challenger) = simulated(&rt, alloc, 0, &[]);
    let (data, commitment, _challenges) = answer.expect(&rt, "an answer");
    ZkSumcheckShape::new_inherited(2, 4, 0)
        .validate::<F65537>()
        .expect(&rt, "a shape");
    let code = NodeCode::<F65537>::new(4, 2, 12);
    let mut again = ChaCha8Rng::from_seed([7; 32]);
    let (masks, randomness) = sample_masks(alloc, &code, 2, &mut again).expect(&rt, "masks");
    let total = masks_total::<F65537, F65537>(&masks);
    assert!(&rt; data.mu_tilde.index() == total.index());
    let matrix = code
        .encode_batch_with_randomness(alloc, &masks, &randomness)
        .expect(&rt, "a matrix");
    let (made, _kept) = Sha2Mmcs::new()
        .commit_matrix(alloc, matrix)
        .expect(&rt, "a commitment");
    assert!(&rt; commitment == made);
    let wires: Vec<F65537> = draw_list(alloc, 6, &mut again).expect(&rt, "draws");
    assert!(&rt;
        data.round_coefficients.len() == 2
            && data.round_coefficients[0].as_slice() == &wires[..3]
            && data.round_coefficients[1].as_slice() == &wires[3..]
    );
}

// What was simulated is accepted on an equal history, with its challenges, and with its witnesses.
#[test]
fn what_is_sent_is_accepted(rt: HostRuntime) {
    let alloc = rt.alloc();
    let (answer, simulator) = simulated(&rt, alloc, 2, &[&[6], &[8]]);
    let (data, commitment, challenges) = answer.expect(&rt, "an answer");
    assert!(&rt; have_numbers(&data.pow_witnesses, &[6, 8]));
    let mut challenger = scripted::<F65537>(alloc, &[31, 2, 3], &[&[6], &[8]]).expect(
        &rt,
        "a challenger",
    );
    let pow_bits = 2.min(challenger.max_bits());
    let replayed = verify_claim(
        alloc,
        &Sha2Mmcs::new(),
        &data,
        &commitment,
        4,
        2,
        pow_bits,
        of(5),
        &mut challenger,
    )
    .expect(&rt, "an answer");
    assert!(&rt;
        have_numbers(replayed.randomness.as_slice(), &[2, 3])
            && challenges.as_slice() == replayed.randomness.as_slice()
            && challenger.events() == simulator.events()
    );
}

// No witness passes in the second round: the history ends with its wire, which is drawn as ever.
#[test]
fn a_round_without_a_witness_is_named(rt: HostRuntime) {
    let alloc = rt.alloc();
    let (plain, _challenger) = simulated(&rt, alloc, 0, &[]);
    let (data, _commitment, _challenges) = plain.expect(&rt, "an answer");
    let (answer, challenger) = simulated(&rt, alloc, 2, &[&[6], &[]]);
    assert!(&rt;
        answer.err() == Some(SumcheckError::NoWitness { round: 1 })
            && challenger.events().len() == 854 + 67 + 6 + 3
            && data.round_coefficients.len() == 2
    );
    let mut last = with_room(alloc, 3).expect(&rt, "room");
    for value in &data.round_coefficients[1] {
        last.push(Event::Word(value.index())).expect(&rt, "room");
    }
    assert!(&rt; challenger.events().ends_with(&last));
}

// Recorded claims: in place of a claim the challenge that batches them is drawn, and what was
// simulated is accepted under any claim.
#[test]
fn recorded_claims_are_simulated(rt: HostRuntime) {
    let alloc = rt.alloc();
    let shape = ZkSumcheckShape::new_batching(2, 4, 0);
    shape.validate::<F65537>().expect(&rt, "a shape");
    let mut simulator = scripted::<F65537>(alloc, &[4, 31, 2, 3], &[]).expect(&rt, "a challenger");
    let code = NodeCode::<F65537>::new(4, 2, 12);
    let (data, commitment, challenges) = simulate_recorded(
        alloc,
        &mut simulator,
        2,
        0,
        &code,
        &Sha2Mmcs::new(),
        &mut ChaCha8Rng::from_seed([7; 32]),
    )
    .expect(&rt, "an answer");
    let (plain, _challenger) = simulated(&rt, alloc, 0, &[]);
    let (drawn, made, _challenges) = plain.expect(&rt, "an answer");
    assert!(&rt; commitment == made && data.round_coefficients == drawn.round_coefficients);
    let mut challenger = scripted::<F65537>(alloc, &[4, 31, 2, 3], &[]).expect(&rt, "a challenger");
    check_came(shape, &data).expect(&rt, "a wire");
    let words = Mmcs::<F65537>::words(&Sha2Mmcs::new(), alloc, commitment).expect(&rt, "words");
    let room = with_room(alloc, 2).expect(&rt, "room");
    let alpha: F65537 = begin_recorded(alloc, &mut challenger, shape).expect(&rt, "a challenge");
    assert!(&rt; alpha.index() == 4);
    let replayed = replay_begun(&mut challenger, &data, shape, of(77), &words, room).expect(
        &rt,
        "an answer",
    );
    assert!(&rt;
        replayed.eps.index() == 31
            && challenges.as_slice() == replayed.randomness.as_slice()
            && challenger.events() == simulator.events()
    );
}

// Both sides in one call.
#[test]
fn a_simulation_stays_in_step(rt: HostRuntime) {
    let alloc = rt.alloc();
    let mut challenger = scripted::<F65537>(alloc, &[31, 2, 3], &[&[6], &[8]]).expect(
        &rt,
        "a challenger",
    );
    let pow_bits = 2.min(challenger.max_bits());
    ZkSumcheckShape::new_inherited(2, 4, pow_bits)
        .validate::<F65537>()
        .expect(&rt, "a shape");
    let code = NodeCode::<F65537>::new(4, 2, 12);
    let run = simulation_in_step(
        alloc,
        &mut challenger,
        of(5),
        2,
        pow_bits,
        &code,
        &Sha2Mmcs::new(),
        &mut ChaCha8Rng::from_seed([7; 32]),
    )
    .expect(&rt, "an answer");
    let (answer, simulator) = simulated(&rt, alloc, 2, &[&[6], &[8]]);
    let (data, _commitment, _challenges) = answer.expect(&rt, "an answer");
    assert!(&rt;
        run.zk_data.round_coefficients == data.round_coefficients
            && have_numbers(run.randomness.as_slice(), &[2, 3])
            && challenger.events() == simulator.events()
    );
}
