//! Constraints between batches, and claims added by the caller, by figures by hand.
ghost use Rattle.std.specs.Prelude.{◌≡◌, ◌^◌, length};
ghost use Rattle.sc_rounds.specs.ProverViews.{shown_by};

use super::step::{claim_is_true, one_claim, play, prover_of, scripted, stands};
use super::{Pair, Standing};
use sc_challenger::Challenger;
use sc_constraints::Constraint;
use sc_field::{ExtensionField, Field};
use sc_rounds::{SumcheckData, SumcheckProver};
use sc_small_fields::F65537;
use sc_table::{Basis, VariableOrder};
use sc_tests_common::{are_pairs, elements, of};
use std::alloc::Global;
use std::process::Abort;

// A constraint on what the first of two rounds leaves: the value claimed at 2, what the second
// round then sends, and the claims before and after it.
struct Between {
    order: VariableOrder,
    value: u64,
    sent: Pair,
    claim: u64,
    left: u64,
}

static BETWEEN: [Between; 2] = [
    Between {
        order: VariableOrder::Prefix,
        value: 9,
        sent: (65530, 1),
        claim: 65530,
        left: 33,
    },
    Between {
        order: VariableOrder::Suffix,
        value: 8,
        sent: (8, 0),
        claim: 20,
        left: 24,
    },
];

// Plays a round without a test on one challenger, replays it on the other, and answers its data.
fn round_in_step<F: Field, EF: ExtensionField<F>, C: Challenger<F>, A: Abort>(
    rt: &A,
    alloc: Global,
    prover: &mut SumcheckProver<F, EF>,
    prover_side: &mut C,
    verifier_side: &mut C,
    claim: &mut EF,
    constraint: Option<Constraint<F, EF>>,
) -> SumcheckData<F, EF> {
    let mut data = SumcheckData::new(alloc);
    play(rt, alloc, prover, &mut data, prover_side, 1, 0, constraint);
    data.verify_rounds(alloc, verifier_side, claim, 1, 0, Basis::Evaluation)
        .expect(rt, "an answer");
    data
}

#[test]
fn a_constraint_is_taken_in_between_batches(rt: HostRuntime) {
    for row in &BETWEEN {
        let mut prover = prover_of(
            rt.alloc(),
            (Basis::Evaluation, row.order),
            &[0, 1, 0, 0],
        ).expect(&rt, "an answer");
        let mut prover_side = scripted(rt.alloc()).expect(&rt, "an answer");
        let mut verifier_side = scripted(rt.alloc()).expect(&rt, "an answer");
        let mut claim = of(2);
        round_in_step(
            &rt,
            rt.alloc(),
            &mut prover,
            &mut prover_side,
            &mut verifier_side,
            &mut claim,
            None,
        );
        assert!(rt; claim_is_true(rt.alloc(), &mut prover, &[2], row.value + 1) == Ok(false));
        let right = one_claim(rt.alloc(), &[2], row.value).expect(&rt, "an answer");
        right.combine_evals(&mut claim);
        assert!(rt; claim.index() == row.claim);
        let second = round_in_step(
            &rt,
            rt.alloc(),
            &mut prover,
            &mut prover_side,
            &mut verifier_side,
            &mut claim,
            Some(right),
        );
        assert!(rt;
            are_pairs(second.polynomial_evaluations(), &[row.sent])
                && (claim.index(), prover.claimed_sum().index()) == (row.left, row.left)
                && prover_side.events() == verifier_side.events()
        );
    }
}

// Adds a claim where it is true, and tells whether it is.
fn add_claim(
    prover: &mut SumcheckProver<F65537, F65537>,
    weights_delta: &[F65537],
    sum_delta: F65537,
) -> bool
    requires { length weights_delta.now ≡ 2 ^ (shown_by prover.old).variables }
    ensures { (shown_by prover.new).variables ≡ (shown_by prover.old).variables }
{
    let is_true = prover.delta_is_true(weights_delta, sum_delta);
    if is_true {
        prover.accumulate_claim(weights_delta, sum_delta);
    }
    is_true
}

static ADDED: Standing = Standing {
    variables: 2,
    evals: &[1, 2, 3, 4],
    weights: &[5, 1, 0, 0],
    sum: 7,
};

#[test]
fn a_claim_is_added_row_by_row(rt: HostRuntime) {
    let mut prover = prover_of(
        rt.alloc(),
        (Basis::Evaluation, VariableOrder::Suffix),
        &[5, 0, 0, 1],
    )
    .expect(&rt, "an answer");
    assert!(rt; prover.claimed_sum().index() == 9);
    let delta = elements(rt.alloc(), &[0, 1, 0, 65536]).expect(&rt, "an answer");
    assert!(rt;
        !add_claim(&mut prover, &delta, of(2))
            && add_claim(&mut prover, &delta, of(65535))
            && stands(rt.alloc(), &mut prover, &ADDED) == Ok(true)
    );
}
