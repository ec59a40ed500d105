//! A prover on images of elements. The figures are from a script that is no part of this: over the
//! field of 16 elements by `w^2 = w + 1` and `y^2 = y + w` it sums the products row by row, and it
//! finds the images in the field by `x^4 = x + 1` from that of y, which is x.
ghost use Rattle.std.specs.Prelude.{◌≡◌, ◌≤◌, IfOk, length};
ghost use Rattle.sc_table.specs.Polys.{variables_of};

use super::{Pair, Standing, are_standing, table};
use sc_challenger::{Challenger, ScriptedChallenger};
use sc_field::{Field, NoMemory};
use sc_rounds::{
    ProductPolynomial, ReprSumcheckProver, SumcheckData, SumcheckError, SumcheckProver,
};
use sc_sixteen::{Poly16, Tower16};
use sc_table::{Basis, Point, Poly, VariableOrder};
use sc_tests_common::{are_pairs, elements, have_numbers, of};
use std::alloc::Global;

type Prover = ReprSumcheckProver<Tower16, Tower16, Poly16>;

// The data of a proof over the elements.
type Data = SumcheckData<Tower16, Tower16>;

// A challenger that draws 2 and 4, and of whose tests each is passed by the next of these elements
// alone.
fn scripted(alloc: Global, good: &[u64]) -> Result<ScriptedChallenger<Tower16>, NoMemory> {
    let mut lists = Vec::new(alloc);
    for number in good {
        lists.push(elements(alloc, &[*number])?)?;
    }
    Ok(ScriptedChallenger::new(alloc, elements(alloc, &[2, 4])?, lists))
}

// The equality weights of the point of these coordinates.
fn weights<F: Field>(alloc: Global, coords: &[u64]) -> Result<Poly<F>, NoMemory>
    requires { length coords.now ≤ 40 }
    ensures { IfOk result (λ p. variables_of p ≡ length coords.now) }
{
    let point: Vec<F> = elements(alloc, coords)?;
    Poly::new_from_point(alloc, &point, F::ONE)
}

// Two batches of one round each: the order, the point of the weights, the messages, and the
// challenge of each batch and what the table and the weights are after it, each as its image, and
// the claim.
struct Batches {
    order: VariableOrder,
    coords: [u64; 2],
    messages: &'static [Pair],
    after: &'static [(u64, Standing)],
}

// The prover of the table 1, 2, 3, 4 and of the equality weights of a point, on the elements.
fn plain(alloc: Global, batches: &Batches) -> Result<SumcheckProver<Tower16, Tower16>, NoMemory> {
    let weights = weights(alloc, &batches.coords)?;
    let pair = ProductPolynomial::new_unpacked(
        batches.order,
        table(alloc, &[1, 2, 3, 4])?,
        weights,
    );
    let sum = pair.dot_product();
    Ok(SumcheckProver::new(pair, sum))
}

// The prover on the images of one on elements, if its tables are of values.
fn on_images(
    alloc: Global,
    prover: SumcheckProver<Tower16, Tower16>,
) -> Result<Option<Prover>, NoMemory> {
    let basis = prover.basis();
    match basis {
        Basis::Evaluation => Ok(Some(ReprSumcheckProver::new(alloc, prover)?)),
        Basis::Projective => Ok(None),
    }
}

// The same on the images.
fn represented(alloc: Global, batches: &Batches) -> Result<Option<Prover>, NoMemory> {
    on_images(alloc, plain(alloc, batches)?)
}

// Plays a batch of at most as many rounds as there are variables, at a difficulty that the
// challenger takes.
fn play<C: Challenger<Tower16>>(
    alloc: Global,
    prover: &mut Prover,
    data: &mut Data,
    challenger: &mut C,
    rounds: usize,
    pow_bits: usize,
) -> Result<Point<Tower16>, SumcheckError> {
    let rounds = rounds.min(prover.num_variables());
    let pow_bits = pow_bits.min(challenger.max_bits());
    prover.compute_sumcheck_polynomials(alloc, data, challenger, rounds, pow_bits)
}

// The same on the elements.
fn play_plain<C: Challenger<Tower16>>(
    alloc: Global,
    prover: &mut SumcheckProver<Tower16, Tower16>,
    data: &mut Data,
    challenger: &mut C,
    rounds: usize,
    pow_bits: usize,
) -> Result<Point<Tower16>, SumcheckError> {
    let rounds = rounds.min(prover.num_variables());
    let pow_bits = pow_bits.min(challenger.max_bits());
    prover.compute_sumcheck_polynomials(alloc, data, challenger, rounds, pow_bits, None)
}

// Whether a batch was played, and drew these challenges.
fn drew(answer: &Result<Point<Tower16>, SumcheckError>, challenges: &[u64]) -> bool {
    match answer {
        Ok(drawn) => have_numbers(drawn.as_slice(), challenges),
        Err(_) => false,
    }
}

// Whether data is these messages and witnesses.
fn is_data(data: &Data, messages: &[Pair], witnesses: &[u64]) -> bool {
    are_pairs(data.polynomial_evaluations(), messages)
        && have_numbers(&data.pow_witnesses, witnesses)
}

// Whether a prover's tables, which are images, and its claim, which is an element, stand so.
fn stands(alloc: Global, prover: &mut Prover, wanted: &Standing) -> Result<bool, NoMemory> {
    let evals = prover.evals(alloc)?;
    let weights = prover.weights(alloc)?;
    let sum = prover.claimed_sum().index();
    Ok(are_standing(&evals, &weights, sum, wanted) && prover.num_variables() == wanted.variables)
}

static BATCHES: [Batches; 4] = [
    Batches {
        order: VariableOrder::Prefix,
        coords: [0, 1],
        messages: &[(2, 6), (0, 6)],
        after: &[
            (
                2,
                Standing {
                    variables: 1,
                    evals: &[6, 13],
                    weights: &[0, 7],
                    sum: 7,
                },
            ),
            (
                4,
                Standing {
                    variables: 0,
                    evals: &[3],
                    weights: &[14],
                    sum: 1,
                },
            ),
        ],
    },
    Batches {
        order: VariableOrder::Suffix,
        coords: [0, 1],
        messages: &[(0, 3), (0, 15)],
        after: &[
            (
                2,
                Standing {
                    variables: 1,
                    evals: &[0, 10],
                    weights: &[6, 0],
                    sum: 0,
                },
            ),
            (
                4,
                Standing {
                    variables: 0,
                    evals: &[7],
                    weights: &[10],
                    sum: 5,
                },
            ),
        ],
    },
    Batches {
        order: VariableOrder::Prefix,
        coords: [5, 9],
        messages: &[(14, 13), (9, 10)],
        after: &[
            (
                2,
                Standing {
                    variables: 1,
                    evals: &[6, 13],
                    weights: &[5, 1],
                    sum: 0,
                },
            ),
            (
                4,
                Standing {
                    variables: 0,
                    evals: &[3],
                    weights: &[13],
                    sum: 6,
                },
            ),
        ],
    },
    Batches {
        order: VariableOrder::Suffix,
        coords: [5, 9],
        messages: &[(9, 1), (0, 14)],
        after: &[
            (
                2,
                Standing {
                    variables: 1,
                    evals: &[0, 10],
                    weights: &[7, 13],
                    sum: 11,
                },
            ),
            (
                4,
                Standing {
                    variables: 0,
                    evals: &[7],
                    weights: &[0],
                    sum: 0,
                },
            ),
        ],
    },
];

#[test]
fn batches_on_images_follow_on_each_other(rt: HostRuntime) {
    for batches in &BATCHES {
        let prover = represented(rt.alloc(), batches).expect(&rt, "an answer");
        let mut prover = prover.expect(&rt, "values");
        assert!(rt; (prover.claimed_sum().index(), prover.num_variables()) == (2, 2));
        let mut data = SumcheckData::new(rt.alloc());
        let mut challenger = scripted(rt.alloc(), &[]).expect(&rt, "an answer");
        for (challenge, standing) in batches.after {
            let drawn = play(rt.alloc(), &mut prover, &mut data, &mut challenger, 1, 0);
            assert!(rt; drew(&drawn, &[*challenge]));
            prover.settle();
            assert!(rt; stands(rt.alloc(), &mut prover, standing) == Ok(true));
        }
        assert!(rt; is_data(&data, batches.messages, &[]));
    }
}

// The number of the challenge that a prover holds.
fn held(prover: &Prover) -> Option<u64> {
    match prover.outstanding() {
        Some(r) => Some(r.index()),
        None => None,
    }
}

// The challenge that the prover on the elements holds is carried across.
#[test]
fn a_held_challenge_is_carried_across(rt: HostRuntime) {
    for batches in &BATCHES {
        let mut elements = plain(rt.alloc(), batches).expect(&rt, "an answer");
        let mut data = SumcheckData::new(rt.alloc());
        let mut challenger = scripted(rt.alloc(), &[]).expect(&rt, "an answer");
        let drawn = play_plain(rt.alloc(), &mut elements, &mut data, &mut challenger, 1, 0);
        assert!(rt; drew(&drawn, &[2]));
        let prover = on_images(rt.alloc(), elements).expect(&rt, "an answer");
        let mut prover = prover.expect(&rt, "values");
        assert!(rt; (held(&prover), prover.num_variables()) == (Some(2), 1));
        let drawn = play(rt.alloc(), &mut prover, &mut data, &mut challenger, 1, 0);
        assert!(rt; drew(&drawn, &[4]) && held(&prover) == Some(4));
        prover.settle();
        assert!(rt;
            held(&prover) == None
                && stands(rt.alloc(), &mut prover, &batches.after[1].1) == Ok(true)
                && is_data(&data, batches.messages, &[])
        );
    }
}

// Whether a batch of two tested rounds on the elements draws 2 and 4, and its data is as wanted.
fn is_played_plain(
    alloc: Global,
    batches: &Batches,
    challenger: &mut ScriptedChallenger<Tower16>,
) -> Result<bool, NoMemory> {
    let mut prover = plain(alloc, batches)?;
    let mut data = SumcheckData::new(alloc);
    let drawn = play_plain(alloc, &mut prover, &mut data, challenger, 2, 1);
    Ok(drew(&drawn, &[2, 4]) && is_data(&data, batches.messages, &[5, 6]))
}

// The same on the images.
fn is_played(
    alloc: Global,
    batches: &Batches,
    challenger: &mut ScriptedChallenger<Tower16>,
) -> Result<bool, NoMemory> {
    let Some(mut prover) = represented(alloc, batches)? else {
        return Ok(false);
    };
    let mut data = SumcheckData::new(alloc);
    let drawn = play(alloc, &mut prover, &mut data, challenger, 2, 1);
    Ok(drew(&drawn, &[2, 4]) && is_data(&data, batches.messages, &[5, 6]))
}

// Only the elements are in the transcript.
#[test]
fn the_transcript_is_that_of_the_elements(rt: HostRuntime) {
    for batches in &BATCHES {
        let mut challenger = scripted(rt.alloc(), &[5, 6]).expect(&rt, "an answer");
        let mut other_challenger = challenger.copy(rt.alloc()).expect(&rt, "an answer");
        assert!(rt;
            is_played_plain(rt.alloc(), batches, &mut challenger) == Ok(true)
                && is_played(rt.alloc(), batches, &mut other_challenger) == Ok(true)
                && challenger.events() == other_challenger.events()
        );
    }
}

// The prover of the table and of the images that are the equality weights of a point, unless they
// disagree.
fn agreeing(alloc: Global, coords: &[u64], sum: u64) -> Result<Option<Prover>, NoMemory>
    requires { length coords.now ≤ 40 }
{
    let evals = table(alloc, &[1, 2, 3, 4])?;
    let weights: Poly<Poly16> = weights(alloc, coords)?;
    let sum = of(sum);
    if !Prover::tables_agree(&evals, &weights, sum) {
        return Ok(None);
    }
    let prover = Prover::from_tables(alloc, VariableOrder::Prefix, evals, weights, sum)?;
    Ok(Some(prover))
}

// Whether the tables disagree, for want of a standing, or else agree and stand so.
fn agree(
    alloc: Global,
    coords: &[u64],
    sum: u64,
    wanted: &Option<Standing>,
) -> Result<bool, NoMemory> {
    if coords.len() > 40 {
        return Ok(false);
    }
    match (agreeing(alloc, coords, sum)?, wanted) {
        (Some(mut prover), Some(standing)) => stands(alloc, &mut prover, standing),
        (None, None) => Ok(true),
        _ => Ok(false),
    }
}

// Points and sums, and the tables where they agree. The image of 5 is 3, and that of 9 is 13.
static IMAGES: [(&[u64], u64, Option<Standing>); 3] = [
    (
        &[3, 13],
        2,
        Some(Standing {
            variables: 2,
            evals: &[1, 6, 7, 2],
            weights: &[11, 9, 7, 4],
            sum: 2,
        }),
    ),
    (&[3, 13], 3, None),
    (&[1], 2, None),
];

#[test]
fn weights_may_be_images_already(rt: HostRuntime) {
    for (coords, sum, wanted) in &IMAGES {
        assert!(rt; agree(rt.alloc(), coords, *sum, wanted) == Ok(true));
    }
}

// The first test is passed by 5 alone, and the second by none.
#[test]
fn no_witness_stops_a_batch_on_images(rt: HostRuntime) {
    let prover = represented(rt.alloc(), &BATCHES[0]).expect(&rt, "an answer");
    let mut prover = prover.expect(&rt, "values");
    let mut data = SumcheckData::new(rt.alloc());
    let mut challenger = scripted(rt.alloc(), &[5]).expect(&rt, "an answer");
    let refused = play(rt.alloc(), &mut prover, &mut data, &mut challenger, 2, 1);
    assert!(rt;
        refused.err() == Some(SumcheckError::NoWitness { round: 1 })
            && (prover.num_variables(), prover.claimed_sum().index()) == (1, 7)
            && is_data(&data, &[(2, 6)], &[5])
    );
}
