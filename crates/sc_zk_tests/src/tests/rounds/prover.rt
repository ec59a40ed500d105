//! Masked rounds on a prover, by figures by hand and from a script that sums over all bits and is
//! no part of this.
ghost use Rattle.std.specs.Prelude.{◌≡◌, All, IfOk, length};
ghost use Rattle.sc_definitions.specs.Tables.{evaluation};
ghost use Rattle.sc_table.specs.Polys.{variables_of};
ghost use Rattle.sc_rounds.specs.ProverViews.{shown_by};

use rand_chacha::ChaCha8Rng;
use rand_core::SeedableRng;
use sc_challenger::{Challenger, Event, ScriptedChallenger};
use sc_commitments::{NodeCode, Sha2Mmcs, sample_masks};
use sc_field::{Field, NoMemory};
use sc_rounds::{ProductPolynomial, SumcheckProver};
use sc_small_fields::F65537;
use sc_table::{Poly, VariableOrder};
use sc_tests_common::{elements, have_numbers, of, scripted};
use sc_transcript::SumcheckError;
use sc_zk_rounds::{IntoZk, MaskedRun, ZkSumcheckData, ZkSumcheckHandoff, masked_in_step};
use sc_zk_transcript::ZkSumcheckShape;
use std::alloc::Global;
use std::process::Abort;

type Handed = ZkSumcheckHandoff<F65537, F65537, Sha2Mmcs>;

// The table of these four values.
fn table(alloc: Global, values: &[u64]) -> Result<Poly<F65537>, NoMemory>
    requires { length values.now ≡ 4 }
    ensures { IfOk result (λ p. variables_of p ≡ 2) }
{
    Ok(Poly::new(elements(alloc, values)?))
}

// The prover of the table 1, 2, 3, 4 under the weights 5, 6, 7, 8, whose sum is 70.
fn prover(alloc: Global, order: VariableOrder) -> Result<SumcheckProver<F65537, F65537>, NoMemory>
    ensures variables { IfOk result (λ p. (shown_by p).variables ≡ 2) }
    ensures basis { IfOk result (λ p. (shown_by p).basis ≡ evaluation) }
{
    let (evals, weights) = (table(alloc, &[1, 2, 3, 4])?, table(alloc, &[5, 6, 7, 8])?);
    let pair = ProductPolynomial::new_unpacked(order, evals, weights);
    let sum = pair.dot_product();
    Ok(SumcheckProver::new(pair, sum))
}

// Two lists of one length.
fn lists(alloc: Global, first: &[u64], second: &[u64]) -> Result<Vec<Vec<F65537>>, NoMemory>
    requires { length first.now ≡ length second.now }
    ensures count { IfOk result (λ v. length v.items ≡ 2) }
    ensures lengths { IfOk result (λ v. All (λ u. length u.items ≡ length first.now) v.items) }
{
    Ok(vec![in alloc; elements(alloc, first)?, elements(alloc, second)?]?)
}

// What two rounds under two masks hand on, and their data and their challenger, which draws 31, 2
// and 3.
fn played<A: Abort>(
    rt: &A,
    alloc: Global,
    order: VariableOrder,
    pow_bits: usize,
    good: &[&[u64]],
) -> (
    Result<Handed, SumcheckError>,
    ZkSumcheckData<F65537, F65537>,
    ScriptedChallenger<F65537>,
) {
    let mut challenger = scripted::<F65537>(alloc, &[31, 2, 3], good).expect(rt, "a challenger");
    let mut data = ZkSumcheckData::new(alloc);
    let pow_bits = pow_bits.min(challenger.max_bits());
    let shape = ZkSumcheckShape::new_inherited(2, 4, pow_bits);
    shape.validate::<F65537>().expect(rt, "a shape");
    let answer = prover(alloc, order)
        .expect(rt, "a prover")
        .into_zk_sumcheck_with(
            alloc,
            &mut data,
            &NodeCode::new(4, 2, 12),
            &Sha2Mmcs::new(),
            lists(alloc, &[2, 3, 5, 7], &[1, 4, 9, 16]).expect(rt, "masks"),
            lists(alloc, &[1, 1], &[2, 3]).expect(rt, "randomness"),
            pow_bits,
            of(11),
            &mut challenger,
        );
    (answer, data, challenger)
}

// Whether data has put these wires on the wire.
fn are_wires(data: &ZkSumcheckData<F65537, F65537>, wires: &[&[u64]]) -> bool {
    data.round_coefficients.len() == wires.len()
        && data
            .round_coefficients
            .iter()
            .zip(wires)
            .all(|(wire, numbers)| have_numbers(wire, numbers))
}

// The first part of what was handed on that is not as wanted, if there is one: the challenges, the
// combination, the residual prover's entries and its claim.
fn wrong_part(
    handed: &mut Handed,
    alloc: Global,
    evals: u64,
    weights: u64,
    claim: u64,
) -> Option<&'static str> {
    if !have_numbers(handed.randomness.as_slice(), &[2, 3]) {
        Some("randomness")
    } else if handed.eps.index() != 31 {
        Some("eps")
    } else if handed.residual_prover.claimed_sum().index() != claim {
        Some("claim")
    } else if handed.residual_prover.outstanding().is_some() {
        Some("outstanding")
    } else {
        wrong_table(&mut handed.residual_prover, alloc, evals, weights)
    }
}

fn wrong_table(
    prover: &mut SumcheckProver<F65537, F65537>,
    alloc: Global,
    evals: u64,
    weights: u64,
) -> Option<&'static str> {
    match (prover.evals(alloc), prover.weights(alloc)) {
        (Ok(left), Ok(right)) => {
            if !have_numbers(left.as_slice(), &[evals]) {
                Some("evals")
            } else if !have_numbers(right.as_slice(), &[weights]) {
                Some("weights")
            } else {
                None
            }
        }
        _ => Some("memory"),
    }
}

// The wires of both orders, with what is left of the tables.
#[test]
fn two_rounds_hand_on_what_is_left(rt: HostRuntime) {
    let (answer, data, challenger) = played(&rt, rt.alloc(), VariableOrder::Prefix, 0, &[]);
    let mut handed = answer.expect(&rt, "an answer");
    assert!(&rt;
        wrong_part(&mut handed, rt.alloc(), 8, 372, 2976) == None
            && data.mu_tilde.index() == 100
            && are_wires(&data, &[&[33501, 258, 14], &[50718, 40, 16]])
            && data.pow_witnesses.is_empty()
    );
    assert!(&rt; challenger.events().len() == 714 + 67 + 8);
}

// In the other order, with tests of two bits: the witnesses 6 and 8 pass.
#[test]
fn witnesses_are_put_on_the_wire(rt: HostRuntime) {
    let (answer, data, _challenger) = played(
        &rt,
        rt.alloc(),
        VariableOrder::Suffix,
        2,
        &[&[6], &[8]],
    );
    let mut handed = answer.expect(&rt, "an answer");
    assert!(&rt;
        wrong_part(&mut handed, rt.alloc(), 9, 403, 3627) == None
            && are_wires(&data, &[&[33780, 72, 14], &[49974, 133, 16]])
            && have_numbers(&data.pow_witnesses, &[6, 8])
    );
}

// No witness passes in the second round: the first one stays on the wire, and the history ends with
// the wire of the second.
#[test]
fn a_round_without_a_witness_is_named(rt: HostRuntime) {
    let (answer, data, challenger) = played(
        &rt,
        rt.alloc(),
        VariableOrder::Prefix,
        2,
        &[&[6], &[]],
    );
    assert!(&rt;
        answer.err() == Some(SumcheckError::NoWitness { round: 1 })
            && are_wires(&data, &[&[33501, 258, 14]])
            && have_numbers(&data.pow_witnesses, &[6])
            && challenger.events().len() == 854 + 67 + 6 + 3
    );
    assert!(&rt;
        challenger.events().ends_with(&[
            Event::Draw,
            Event::Word(50718),
            Event::Word(40),
            Event::Word(16)
        ])
    );
}

// A run of these masks in step.
fn in_step<A: Abort>(
    rt: &A,
    alloc: Global,
    pow_bits: usize,
    good: &[&[u64]],
) -> (
    Result<MaskedRun<F65537, F65537>, SumcheckError>,
    ScriptedChallenger<F65537>,
) {
    let mut challenger = scripted::<F65537>(alloc, &[31, 2, 3], good).expect(rt, "a challenger");
    let pow_bits = pow_bits.min(challenger.max_bits());
    let shape = ZkSumcheckShape::new_inherited(2, 4, pow_bits);
    shape.validate::<F65537>().expect(rt, "a shape");
    let answer = masked_in_step(
        alloc,
        prover(alloc, VariableOrder::Prefix).expect(rt, "a prover"),
        &NodeCode::new(4, 2, 12),
        &Sha2Mmcs::new(),
        lists(alloc, &[2, 3, 5, 7], &[1, 4, 9, 16]).expect(rt, "masks"),
        lists(alloc, &[1, 1], &[2, 3]).expect(rt, "randomness"),
        pow_bits,
        of(11),
        &mut challenger,
    );
    (answer, challenger)
}

// What the replay leaves is the sum of the three numbers after it.
#[test]
fn a_run_in_step_adds_up(rt: HostRuntime) {
    let (answer, challenger) = in_step(&rt, rt.alloc(), 2, &[&[6], &[8]]);
    let run = answer.expect(&rt, "an answer");
    assert!(&rt;
        have_numbers(run.randomness.as_slice(), &[2, 3])
            && have_numbers(
                &[
                    run.eps,
                    run.claimed_residual,
                    run.scaled,
                    run.carried,
                    run.mask_residual
                ],
                &[31, 52824, 2976, 49238, 610],
            )
            && are_wires(&run.zk_data, &[&[33501, 258, 14], &[50718, 40, 16]])
            && challenger.events().len() == 854 + 67 + 12
    );
}

// Without a witness nothing of the run is left on the challenger.
#[test]
fn a_run_without_a_witness_leaves_its_challenger(rt: HostRuntime) {
    let (answer, challenger) = in_step(&rt, rt.alloc(), 2, &[&[]]);
    assert!(&rt;
        answer.err() == Some(SumcheckError::NoWitness { round: 0 })
            && challenger.events().is_empty()
    );
}

// Masks from a generator are those that are drawn first.
#[test]
fn masks_are_drawn_first(rt: HostRuntime) {
    let alloc = rt.alloc();
    let code = NodeCode::<F65537>::new(4, 2, 12);
    let mut challenger = scripted::<F65537>(alloc, &[31, 2, 3], &[]).expect(&rt, "a challenger");
    ZkSumcheckShape::new_inherited(2, 4, 0)
        .validate::<F65537>()
        .expect(&rt, "a shape");
    let mut data = ZkSumcheckData::new(alloc);
    let mut rng = ChaCha8Rng::from_seed([7; 32]);
    let handed = prover(alloc, VariableOrder::Prefix)
        .expect(&rt, "a prover")
        .into_zk_sumcheck(
            alloc,
            &mut data,
            &code,
            &Sha2Mmcs::new(),
            2,
            0,
            of(11),
            &mut challenger,
            &mut rng,
        )
        .expect(&rt, "an answer");
    let mut again = ChaCha8Rng::from_seed([7; 32]);
    let (masks, randomness) = sample_masks(alloc, &code, 2, &mut again).expect(&rt, "masks");
    assert!(&rt; handed.mask_messages == masks && handed.mask_randomness == randomness);
}
