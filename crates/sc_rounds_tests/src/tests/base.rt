//! Rounds that begin on a table of base elements: by figures by hand, and beside a prover of the
//! images.
ghost use Rattle.std.specs.Prelude.{◌≡◌, ◌≤◌, IfOk};
ghost use Rattle.sc_table.specs.Polys.{variables_of};

use super::step::{play, scripted, stands};
use super::{Form, PLAYS, Play, Standing, table};
use sc_challenger::{Challenger, ScriptedChallenger};
use sc_field::{ExtensionField, Field, NoMemory};
use sc_rounds::{BaseProduct, ProductPolynomial, SumcheckData, SumcheckError, SumcheckProver};
use sc_small_fields::{F257, F257x2, F65537};
use sc_table::{Basis, Point, Poly, VariableOrder};
use sc_tests_common::{are_pairs, elements, have_numbers, of, table as table_by_rule};
use std::alloc::Global;

// What is left of a batch, with its challenges, or why it stops.
type Played<F, EF> = Result<(SumcheckProver<F, EF>, Point<EF>), SumcheckError>;

// Plays a batch on a table under weights, where their sum is this one and there are as many
// variables. The difficulty is one that the challenger takes.
fn play_base<F: Field, EF: ExtensionField<F>, C: Challenger<F>>(
    alloc: Global,
    form: Form,
    evals: &[F],
    weights: Poly<EF>,
    sum: EF,
    data: &mut SumcheckData<F, EF>,
    challenger: &mut C,
    rounds: usize,
    pow_bits: usize,
) -> Option<Played<F, EF>> {
    let variables = weights.num_variables();
    let (basis, order) = form;
    if rounds == 0 || rounds > variables || !basis.is_offered(order) {
        return None;
    }
    if !BaseProduct::tables_agree(evals, &weights, sum) {
        return None;
    }
    let base = BaseProduct::new(basis, order, evals, weights, sum);
    if base.claimed_sum() != sum {
        return None;
    }
    let pow_bits = pow_bits.min(challenger.max_bits());
    Some(base.compute_sumcheck_polynomials(alloc, data, challenger, rounds, pow_bits))
}

// The same on the table 1, 2, 3, 4 and the weights of the point (0, 1), whose sum is 2.
fn play_four(
    alloc: Global,
    form: Form,
    data: &mut SumcheckData<F65537, F65537>,
    challenger: &mut ScriptedChallenger<F65537>,
    rounds: usize,
    pow_bits: usize,
) -> Result<Option<Played<F65537, F65537>>, NoMemory> {
    let evals: Vec<F65537> = elements(alloc, &[1, 2, 3, 4])?;
    let weights = table(alloc, &[0, 1, 0, 0])?;
    Ok(play_base(
        alloc,
        form,
        &evals,
        weights,
        of(2),
        data,
        challenger,
        rounds,
        pow_bits,
    ))
}

// How so many rounds on the table by hand are wrong, if they are: their challenges, their messages,
// or how the prover stands after them.
fn wrong_by_hand(
    alloc: Global,
    wanted: &Play,
    rounds: usize,
    left: &Standing,
) -> Result<Option<&'static str>, NoMemory> {
    let mut data = SumcheckData::new(alloc);
    let mut challenger = scripted(alloc)?;
    let played = play_four(alloc, wanted.form, &mut data, &mut challenger, rounds, 0)?;
    let Some(Ok((mut prover, challenges))) = played else {
        return Ok(Some("refused"));
    };
    Ok(if !have_numbers(challenges.as_slice(), &[3, 4][..rounds.min(2)]) {
        Some("challenges")
    } else if !are_pairs(
        data.polynomial_evaluations(),
        &wanted.sent[..rounds.min(wanted.sent.len())],
    ) {
        Some("messages")
    } else if (prover.basis(), prover.order()) != wanted.form
        || !stands(alloc, &mut prover, left)?
    {
        Some("tables")
    } else {
        None
    })
}

#[test]
fn rounds_begin_on_base_elements(rt: HostRuntime) {
    for wanted in &PLAYS {
        for (i, (_challenge, left)) in wanted.after.iter().enumerate() {
            assert!(rt; wrong_by_hand(rt.alloc(), wanted, i + 1, left) == Ok(None));
        }
    }
}

// The round that has no witness, of two at a difficulty whose tests these pass, and how many
// messages were sent before.
fn round_without_witness(
    alloc: Global,
    good: &[&[u64]],
) -> Result<(Option<usize>, usize), NoMemory> {
    let mut data = SumcheckData::new(alloc);
    let mut challenger = sc_tests_common::scripted(alloc, &[3, 4], good)?;
    let form = (Basis::Evaluation, VariableOrder::Prefix);
    let played = play_four(alloc, form, &mut data, &mut challenger, 2, 1)?;
    let round = match played {
        Some(Err(SumcheckError::NoWitness { round })) => Some(round),
        _ => None,
    };
    Ok((round, data.polynomial_evaluations().len()))
}

#[test]
fn a_round_without_a_witness(rt: HostRuntime) {
    let first = round_without_witness(rt.alloc(), &[&[], &[6]]);
    assert!(rt; first == Ok((Some(0), 0)));
    let second = round_without_witness(rt.alloc(), &[&[5], &[]]);
    assert!(rt; second == Ok((Some(1), 1)));
    let none = round_without_witness(rt.alloc(), &[&[5], &[6]]);
    assert!(rt; none == Ok((None, 2)));
}

#[test]
fn tables_that_do_not_agree(rt: HostRuntime) {
    let evals: Vec<F65537> = elements(rt.alloc(), &[1, 2, 3, 4]).expect(&rt, "an answer");
    let weights = table(rt.alloc(), &[0, 1, 0, 0]).expect(&rt, "an answer");
    let agree = |evals: &[F65537], sum: u64| {
        BaseProduct::<F65537, F65537>::tables_agree(evals, &weights, of(sum))
    };
    assert!(rt; agree(&evals, 2) && !agree(&evals, 3) && !agree(&evals[..2], 2));
}

// ---- over an extension, beside a prover of the images

// The images of base elements, as a table of so many variables.
fn image_table(alloc: Global, evals: &[F257], n: usize) -> Result<Poly<F257x2>, NoMemory>
    requires { n ≤ 8 }
    ensures { IfOk result (λ p. variables_of p ≡ n) }
{
    let mut images = Poly::zero(alloc, n)?;
    let rows = images.as_mut_slice();
    for (row, value) in rows.iter_mut().zip(evals) {
        *row = of(value.index());
    }
    Ok(images)
}

// A challenger over the base field that draws these.
fn drawing(alloc: Global) -> Result<ScriptedChallenger<F257>, NoMemory> {
    sc_tests_common::scripted(alloc, &[9, 200, 31, 7, 0, 256, 88, 1, 4, 5], &[])
}

// The first part that is not the same of so many rounds on a table of base elements and on one of
// their images, if there is one.
fn differs(
    alloc: Global,
    form: Form,
    n: usize,
    rounds: usize,
) -> Result<Option<&'static str>, NoMemory>
    requires { n ≤ 8 }
{
    let evals = table_by_rule::<F257>(alloc, n, 41)?.into_evals();
    let images = image_table(alloc, &evals, n)?;
    let (basis, order) = form;
    if !basis.is_offered(order) {
        return Ok(Some("form"));
    }
    let pair = ProductPolynomial::new_in(basis, order, images, table_by_rule(alloc, n, 3001)?);
    let sum = pair.dot_product();
    let mut prover = SumcheckProver::new(pair, sum);
    let (mut one, mut other) = (drawing(alloc)?, drawing(alloc)?);
    let (mut sent, mut data) = (SumcheckData::new(alloc), SumcheckData::new(alloc));
    if rounds > prover.num_variables() {
        return Ok(Some("variables"));
    }
    let drawn = prover.compute_sumcheck_polynomials(alloc, &mut sent, &mut one, rounds, 0, None);
    let weights: Poly<F257x2> = table_by_rule(alloc, n, 3001)?;
    let played = play_base(
        alloc, form, &evals, weights, sum, &mut data, &mut other, rounds, 0,
    );
    let (Ok(drawn), Some(Ok((mut left, challenges)))) = (drawn, played) else {
        return Ok(Some("refused"));
    };
    Ok(if challenges.as_slice() != drawn.as_slice() {
        Some("challenges")
    } else if data.polynomial_evaluations() != sent.polynomial_evaluations() {
        Some("messages")
    } else if one.events() != other.events() {
        Some("history")
    } else if left.claimed_sum() != prover.claimed_sum() {
        Some("claim")
    } else if left.evals(alloc)?.as_slice() != prover.evals(alloc)?.as_slice() {
        Some("evaluations")
    } else if left.weights(alloc)?.as_slice() != prover.weights(alloc)?.as_slice() {
        Some("weights")
    } else {
        None
    })
}

#[test]
fn rounds_on_base_elements_are_those_on_their_images(rt: HostRuntime) {
    for form in [
        (Basis::Evaluation, VariableOrder::Prefix),
        (Basis::Evaluation, VariableOrder::Suffix),
        (Basis::Projective, VariableOrder::Prefix),
    ] {
        for (n, rounds) in [(1, 1), (2, 1), (2, 2), (5, 3), (5, 5)] {
            assert!(rt; differs(rt.alloc(), form, n, rounds) == Ok(None));
        }
    }
}
