//! A pair of tables, by figures by hand and from a script that is no part of this.
ghost use Rattle.std.specs.Prelude.{◌≡◌, IfOk, length};
ghost use Rattle.sc_table.specs.Polys.{variables_of};
ghost use Rattle.sc_rounds.specs.Products.{variables_in};

mod base;
mod constraint;
mod held;
mod represented;
mod step;
mod turns;

use sc_challenger::ScriptedChallenger;
use sc_field::{Field, NoMemory};
use sc_rounds::{
    ProductPolynomial, ProverTranscript, SumcheckData, SumcheckError, SumcheckProver, SumcheckShape,
};
use sc_small_fields::F65537;
use sc_table::{Basis, Point, Poly, VariableOrder};
use sc_tests_common::{are_pairs, elements, have_numbers, of, point, scripted};
use std::alloc::Global;

// How many words the seed of one round has without a test.
const ONE_ROUND: usize = 248;

// The two values that a round sends.
type Pair = (u64, u64);

// The table of these four values.
fn table<F: Field>(alloc: Global, values: &[u64]) -> Result<Poly<F>, NoMemory>
    requires { length values.now ≡ 4 }
    ensures { IfOk result (λ p. variables_of p ≡ 2) }
{
    Ok(Poly::new(elements(alloc, values)?))
}

// Two tables of as many variables, and their sum.
struct Standing {
    variables: usize,
    evals: &'static [u64],
    weights: &'static [u64],
    sum: u64,
}

// Whether two tables and their sum stand so.
fn are_standing<F: Field>(evals: &Poly<F>, weights: &Poly<F>, sum: u64, wanted: &Standing) -> bool {
    evals.num_variables() == wanted.variables
        && have_numbers(evals.as_slice(), wanted.evals)
        && have_numbers(weights.as_slice(), wanted.weights)
        && sum == wanted.sum
}

// Whether a pair and its sum stand so.
fn stands(
    alloc: Global,
    pair: &ProductPolynomial<F65537, F65537>,
    sum: F65537,
    wanted: &Standing,
) -> Result<bool, NoMemory> {
    let evals = pair.evals(alloc)?;
    let weights = pair.weights(alloc)?;
    Ok(
        are_standing(&evals, &weights, sum.index(), wanted)
            && pair.num_variables() == wanted.variables
            && have_numbers(pair.evals_view(), wanted.evals)
            && pair.dot_product() == sum,
    )
}

// What the entries of two tables are, and which variable a round binds.
type Form = (Basis, VariableOrder);

// The pair of the table 1, 2, 3, 4 and of these four weights; coefficients are bound by the first
// variable.
fn pair_of(
    alloc: Global,
    form: Form,
    weights: &[u64],
) -> Result<ProductPolynomial<F65537, F65537>, NoMemory>
    requires { length weights.now ≡ 4 }
    ensures { IfOk result (λ p. variables_in p ≡ 2) }
{
    let (evals, weights) = (table(alloc, &[1, 2, 3, 4])?, table(alloc, weights)?);
    let (basis, order) = form;
    Ok(match basis {
        Basis::Evaluation => ProductPolynomial::new_unpacked(order, evals, weights),
        Basis::Projective => ProductPolynomial::new_projective(evals, weights),
    })
}

// Plays a batch of one round on a pair, without a test, where it has a variable and that sum, and
// answers its challenge.
fn play_one(
    alloc: Global,
    challenger: &mut ScriptedChallenger<F65537>,
    pair: &mut ProductPolynomial<F65537, F65537>,
    data: &mut SumcheckData<F65537, F65537>,
    sum: &mut F65537,
) -> Result<Option<F65537>, SumcheckError> {
    if pair.num_variables() == 0 || !SumcheckProver::sum_is_true(pair, *sum) {
        return Ok(None);
    }
    let shape = SumcheckShape::new(1, 0, pair.basis());
    let mut transcript = ProverTranscript::new(alloc, challenger, shape)?;
    match pair.round(data, &mut transcript, sum) {
        Ok(challenge) => {
            transcript.finish();
            Ok(Some(challenge))
        }
        Err(error) => {
            transcript.abort();
            Err(error)
        }
    }
}

// A form, the value of the table in it at (0, 1), what is sent, and of each round the challenge and
// how the pair stands after it.
struct Play {
    form: Form,
    at_row_one: u64,
    sent: &'static [Pair],
    after: &'static [(u64, Standing)],
}

// Of coefficients, at 3 they are 10 + 14 y and the weights y, whose product has 14 for the sum of
// its coefficients.
static PLAYS: [Play; 3] = [
    Play {
        form: (Basis::Evaluation, VariableOrder::Prefix),
        at_row_one: 2,
        sent: &[(2, 65535), (0, 65535)],
        after: &[
            (
                3,
                Standing {
                    variables: 1,
                    evals: &[7, 8],
                    weights: &[0, 65535],
                    sum: 65521,
                },
            ),
            (
                4,
                Standing {
                    variables: 0,
                    evals: &[11],
                    weights: &[65529],
                    sum: 65449,
                },
            ),
        ],
    },
    Play {
        form: (Basis::Evaluation, VariableOrder::Suffix),
        at_row_one: 2,
        sent: &[(0, 1), (12, 65531)],
        after: &[
            (
                3,
                Standing {
                    variables: 1,
                    evals: &[4, 6],
                    weights: &[3, 0],
                    sum: 12,
                },
            ),
            (
                4,
                Standing {
                    variables: 0,
                    evals: &[12],
                    weights: &[65528],
                    sum: 65429,
                },
            ),
        ],
    },
    Play {
        form: (Basis::Projective, VariableOrder::Prefix),
        at_row_one: 3,
        sent: &[(6, 0), (24, 14)],
        after: &[
            (
                3,
                Standing {
                    variables: 1,
                    evals: &[10, 14],
                    weights: &[0, 1],
                    sum: 14,
                },
            ),
            (
                4,
                Standing {
                    variables: 0,
                    evals: &[66],
                    weights: &[4],
                    sum: 264,
                },
            ),
        ],
    },
];

// The form, the number of variables, and the value at a point of as many coordinates.
fn outline(
    pair: &ProductPolynomial<F65537, F65537>,
    at: &Point<F65537>,
) -> (Form, usize, Option<u64>) {
    let variables = pair.num_variables();
    let value = if at.num_variables() == variables {
        Some(pair.eval(at).index())
    } else {
        None
    };
    ((pair.basis(), pair.order()), variables, value)
}

#[test]
fn a_pair_is_bound_at_the_challenges(rt: HostRuntime) {
    for play in &PLAYS {
        let mut challenger = scripted(rt.alloc(), &[3, 4], &[]).expect(&rt, "an answer");
        let mut pair = pair_of(rt.alloc(), play.form, &[0, 1, 0, 0]).expect(&rt, "an answer");
        let mut data = SumcheckData::new(rt.alloc());
        let mut sum = pair.dot_product();
        assert!(rt; sum.index() == 2);
        let row_one = point(rt.alloc(), &[0, 1]).expect(&rt, "an answer");
        assert!(rt; outline(&pair, &row_one) == (play.form, 2, Some(play.at_row_one)));
        for (challenge, standing) in play.after {
            let drawn = play_one(rt.alloc(), &mut challenger, &mut pair, &mut data, &mut sum);
            assert!(rt;
                drawn == Ok(Some(of(*challenge)))
                    && stands(rt.alloc(), &pair, sum, standing) == Ok(true)
            );
        }
        assert!(rt;
            are_pairs(data.polynomial_evaluations(), play.sent)
                && challenger.events().len() == 2 * (ONE_ROUND + 3)
        );
    }
}
