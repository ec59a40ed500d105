//! A challenge that is held: who binds it, and what is seen of it, by figures by hand.
ghost use Rattle.std.specs.Prelude.{◌≡◌, ◌+◌};
ghost use Rattle.sc_rounds.specs.ProverViews.{shown_by};

use super::step::{play, prover_of, scripted, stands};
use super::{Form, PLAYS, Play, Standing};
use sc_challenger::Challenger;
use sc_field::{Field, NoMemory};
use sc_rounds::{SumcheckData, SumcheckProver};
use sc_small_fields::F65537;
use sc_table::{Basis, VariableOrder};
use sc_tests_common::{have_numbers, of, point};
use std::alloc::Global;
use std::process::Abort;

// The prover of the table 1, 2, 3, 4 and the weights of the point (0, 1), after one round.
fn after_one_round<A: Abort>(rt: &A, alloc: Global, form: Form) -> SumcheckProver<F65537, F65537> {
    let mut prover = prover_of(alloc, form, &[0, 1, 0, 0]).expect(rt, "an answer");
    let mut data = SumcheckData::new(alloc);
    let mut challenger = scripted(alloc).expect(rt, "an answer");
    play(
        rt,
        alloc,
        &mut prover,
        &mut data,
        &mut challenger,
        1,
        0,
        None,
    );
    prover
}

// The number of the challenge that a prover holds.
fn held(prover: &SumcheckProver<F65537, F65537>) -> Option<u64> {
    match prover.outstanding() {
        Some(r) => Some(r.index()),
        None => None,
    }
}

#[test]
fn the_last_challenge_is_held_until_it_is_settled(rt: HostRuntime) {
    for wanted in &PLAYS {
        let mut prover = after_one_round(&rt, rt.alloc(), wanted.form);
        assert!(rt;
            (held(&prover), prover.num_variables()) == (Some(3), 1)
                && prover.claimed_sum().index() == wanted.after[0].1.sum
        );
        prover.settle();
        assert!(rt; (held(&prover), prover.num_variables()) == (None, 1));
        prover.settle();
        assert!(rt;
            held(&prover) == None && stands(rt.alloc(), &mut prover, &wanted.after[0].1) == Ok(true)
        );
    }
}

// What is read first of a prover that holds a challenge.
#[derive(Clone, Copy)]
enum Reader {
    Evals,
    Weights,
    View,
    Value,
}

// Whether the reader, asked before all others, tells of the tables that are bound, and nothing is
// held after it.
fn reads_bound(
    alloc: Global,
    prover: &mut SumcheckProver<F65537, F65537>,
    reader: Reader,
    wanted: &Standing,
    value: u64,
) -> Result<bool, NoMemory> {
    let read = match reader {
        Reader::Evals => have_numbers(prover.evals(alloc)?.as_slice(), wanted.evals),
        Reader::Weights => have_numbers(prover.weights(alloc)?.as_slice(), wanted.weights),
        Reader::View => have_numbers(prover.evals_view(), wanted.evals),
        Reader::Value => {
            let at = point(alloc, &[4])?;
            at.num_variables() == prover.num_variables() && prover.eval(&at).index() == value
        }
    };
    Ok(read && held(prover) == None)
}

#[test]
fn readers_settle_first(rt: HostRuntime) {
    for wanted in &PLAYS {
        for reader in [Reader::Evals, Reader::Weights, Reader::View, Reader::Value] {
            let mut prover = after_one_round(&rt, rt.alloc(), wanted.form);
            let (first, last) = (&wanted.after[0].1, &wanted.after[1].1);
            assert!(rt; last.evals.len() == 1);
            let read = reads_bound(rt.alloc(), &mut prover, reader, first, last.evals[0]);
            assert!(rt; read == Ok(true));
        }
    }
}

// Plays a round by hand at the challenge, and gives its message.
fn round_by_hand(
    prover: &mut SumcheckProver<F65537, F65537>,
    challenge: u64,
) -> Option<(u64, u64)> {
    if prover.num_variables() == 0 {
        return None;
    }
    let message = prover.measure_round();
    let sent = (message.c_a.index(), message.c_inf.index());
    prover.bind_round(message, of(challenge));
    Some(sent)
}

// The prover after both rounds by hand; a message that is measured twice is the same.
fn rounds_by_hand<A: Abort>(
    rt: &A,
    alloc: Global,
    wanted: &Play,
) -> SumcheckProver<F65537, F65537> {
    let mut prover = prover_of(alloc, wanted.form, &[0, 1, 0, 0]).expect(rt, "an answer");
    for ((challenge, standing), sent) in wanted.after.iter().zip(wanted.sent) {
        if prover.num_variables() > 0 {
            let once = prover.measure_round();
            assert!(rt; (once.c_a.index(), once.c_inf.index()) == *sent);
        }
        assert!(rt;
            held(&prover) == None
                && round_by_hand(&mut prover, *challenge) == Some(*sent)
                && held(&prover) == Some(*challenge)
                && prover.num_variables() == standing.variables
        );
        assert!(rt; prover.claimed_sum().index() == standing.sum);
    }
    assert!(rt; round_by_hand(&mut prover, 5) == None);
    prover
}

#[test]
fn a_round_by_hand_is_one_of_a_batch(rt: HostRuntime) {
    for wanted in &PLAYS {
        let mut prover = rounds_by_hand(&rt, rt.alloc(), wanted);
        assert!(rt; stands(rt.alloc(), &mut prover, &wanted.after[1].1) == Ok(true));
    }
}

static SCALED: Standing = Standing {
    variables: 1,
    evals: &[7, 8],
    weights: &[0, 65527],
    sum: 65457,
};

#[test]
fn weights_and_claim_are_scaled_on_the_bound_tables(rt: HostRuntime) {
    let mut prover = after_one_round(&rt, rt.alloc(), (Basis::Evaluation, VariableOrder::Prefix));
    prover.scale_weights_and_claim(of(5));
    assert!(rt; held(&prover) == None && stands(rt.alloc(), &mut prover, &SCALED) == Ok(true));
}
