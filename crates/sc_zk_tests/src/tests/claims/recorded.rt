//! A verifier that records openings, and the replay of masked rounds of all of them, by figures by
//! hand.

use super::record;
use rand_chacha::ChaCha8Rng;
use rand_core::SeedableRng;
use sc_challenger::{Event, ScriptedChallenger};
use sc_field::Field;
use sc_small_fields::F65537;
use sc_table::VariableOrder;
use sc_tests_common::{elements, have_numbers, of, scripted};
use sc_transcript::SumcheckError;
use sc_zk::{
    NodeCode, Sha2Mmcs, TableShape, ZkSumcheckData, ZkSumcheckShape, ZkVerifier, ZkVerifierHandoff,
    recorded_simulation_in_step, simulate_classic_unpacked,
};
use std::alloc::Global;
use std::process::Abort;

// Verifiers of a table of one variable, by order.
fn prefix(alloc: Global) -> ZkVerifier<F65537, F65537> {
    ZkVerifier::new_prefix(alloc, &[TableShape::new(1)][..])
}

fn suffix(alloc: Global) -> ZkVerifier<F65537, F65537> {
    ZkVerifier::new_suffix(alloc, &[TableShape::new(1)][..])
}

// The openings of the table 1, 2, as they come: at 3 the value 4, and 2 through the successor map
// there; at 4 the value 5. The challenger is going to draw 10, 31 and 2.
fn opened<A: Abort>(
    rt: &A,
    alloc: Global,
    verifier: &mut ZkVerifier<F65537, F65537>,
) -> ScriptedChallenger<F65537> {
    let draws = [3, 4, 10, 31, 2];
    let mut challenger = scripted::<F65537>(alloc, &draws, &[]).expect(rt, "a challenger");
    record(rt, alloc, verifier, &mut challenger, (4, 2, 5));
    challenger
}

// What was simulated after one verifier's openings is replayed after those of another.
fn assert_accepted<A: Abort>(
    rt: &A,
    alloc: Global,
    first: ZkVerifier<F65537, F65537>,
    second: ZkVerifier<F65537, F65537>,
) {
    let (mut first, mut second) = (first, second);
    let mut simulator = opened(rt, alloc, &mut first);
    let mut challenger = opened(rt, alloc, &mut second);
    // 4 + 10 2 + 100 5
    assert!(rt; second.sum(of(10)).index() == 524);
    ZkSumcheckShape::new_batching(1, 4, 0)
        .validate::<F65537>()
        .expect(rt, "a shape");
    let code = NodeCode::<F65537>::new(4, 2, 12);
    let (data, commitment, challenges) = simulate_classic_unpacked(
        alloc,
        &mut simulator,
        &first,
        1,
        0,
        &code,
        &Sha2Mmcs::new(),
        &mut ChaCha8Rng::from_seed([7; 32]),
    )
    .expect(rt, "an answer");
    let mmcs = Sha2Mmcs::new();
    let replayed = second
        .into_sumcheck(alloc, &mmcs, &data, &commitment, 4, 1, 0, &mut challenger)
        .expect(rt, "an answer");
    assert!(rt;
        replayed.eps.index() == 31
            && have_numbers(replayed.randomness.as_slice(), &[2])
            && challenges.as_slice() == replayed.randomness.as_slice()
            && challenger.events() == simulator.events()
    );
}

#[test]
fn what_is_simulated_is_accepted(rt: HostRuntime) {
    let alloc = rt.alloc();
    assert!(&rt; prefix(alloc).strategy().order() == VariableOrder::Prefix);
    assert_accepted(&rt, alloc, prefix(alloc), prefix(alloc));
    assert!(&rt; suffix(alloc).strategy().order() == VariableOrder::Suffix);
    assert_accepted(&rt, alloc, suffix(alloc), suffix(alloc));
}

// A simulator and the verifier in step, after the openings of a verifier: the draws of the rounds
// are the combination and one challenge, and the history has the wire's three words before it.
#[test]
fn a_simulator_stays_in_step(rt: HostRuntime) {
    let alloc = rt.alloc();
    let mut verifier = prefix(alloc);
    let mut challenger = opened(&rt, alloc, &mut verifier);
    ZkSumcheckShape::new_batching(1, 4, 0)
        .validate::<F65537>()
        .expect(&rt, "a shape");
    let code = NodeCode::<F65537>::new(4, 2, 12);
    let run = recorded_simulation_in_step(
        alloc,
        &mut challenger,
        verifier,
        1,
        0,
        &code,
        &Sha2Mmcs::new(),
        &mut ChaCha8Rng::from_seed([7; 32]),
    )
    .expect(&rt, "a run");
    assert!(&rt;
        run.eps.index() == 31
            && have_numbers(run.randomness.as_slice(), &[2])
            && run.zk_data.round_coefficients.len() == 1
    );
    let wire = run.zk_data.round_coefficients[0].as_slice();
    assert!(&rt; wire.len() == 3);
    let (c0, c2, c3) = (wire[0], wire[1], wire[2]);
    // The first target is 31 times the claim 524 and the masks' total; its value at 2 is what is
    // left, where the linear coefficient is the target less twice the constant and the others.
    let target = of::<F65537>(16244).add(run.zk_data.mu_tilde);
    let linear = target.sub(c0.double()).sub(c2).sub(c3);
    let left = c0
        .add(linear.double())
        .add(of::<F65537>(4).mul(c2))
        .add(of::<F65537>(8).mul(c3));
    assert!(&rt; run.claimed_residual.index() == left.index());
}

// The answer to these wires of masks of four coefficients, whose total is 12, in one round, and the
// challenger as it is then.
fn replayed<A: Abort>(
    rt: &A,
    alloc: Global,
    wires: &[&[u64]],
) -> (
    Result<ZkVerifierHandoff<F65537>, SumcheckError>,
    ScriptedChallenger<F65537>,
) {
    let mut data = ZkSumcheckData::<F65537, F65537>::new(alloc);
    data.mu_tilde = of(12);
    for wire in wires {
        let values = elements(alloc, wire).expect(rt, "a wire");
        data.round_coefficients.push(values).expect(rt, "room");
    }
    let mut verifier = suffix(alloc);
    let mut challenger = opened(rt, alloc, &mut verifier);
    let mmcs = Sha2Mmcs::new();
    let commitment = [0; 32];
    let answer = verifier.into_sumcheck(alloc, &mmcs, &data, &commitment, 4, 1, 0, &mut challenger);
    (answer, challenger)
}

// The claim is 524, the batch under 10, and the first target is 31 524 + 12 = 16256. The linear
// coefficient of the wire is 16249, which is 16256 - 2 - 5, and its value at 2 is 1 + 32498 + 8 +
// 24.
#[test]
fn recorded_claims_are_replayed(rt: HostRuntime) {
    let (answer, challenger) = replayed(&rt, rt.alloc(), &[&[1, 2, 3]]);
    let handed = answer.expect(&rt, "an answer");
    assert!(&rt;
        handed.claimed_residual.index() == 32531
            && handed.eps.index() == 31
            && have_numbers(handed.randomness.as_slice(), &[2])
    );
    let last = [Event::Word(1), Event::Word(2), Event::Word(3), Event::Draw];
    assert!(&rt; challenger.events().ends_with(&last));
}

// The history after the openings alone has a draw, the words 4 and 2, a draw and the word 5.
#[test]
fn other_wires_are_refused(rt: HostRuntime) {
    let (answer, challenger) = replayed(&rt, rt.alloc(), &[&[1, 2]]);
    let narrow = SumcheckError::WireSizeMismatch {
        round: 0,
        expected: 3,
        actual: 2,
    };
    assert!(&rt;
        answer.err() == Some(narrow)
            && challenger
                .events()
                .ends_with(&[Event::Word(12), Event::Draw])
    );
    let (answer, challenger) = replayed(&rt, rt.alloc(), &[&[1, 2, 3], &[4, 5, 6]]);
    let many = SumcheckError::RoundCountMismatch {
        expected: 1,
        actual: 2,
    };
    assert!(&rt; answer.err() == Some(many) && challenger.events().len() == 5);
}
