//! Provers with their verifiers, by figures by hand and from a script that is no part of this.
ghost use Rattle.std.specs.Prelude.{◌≡◌, IfOk, IsTrue, length};
ghost use Rattle.sc_statements.specs.EqStatements.{eq_arity};
ghost use Rattle.sc_constraints.specs.Constraints.{constraint_arity};
ghost use Rattle.sc_rounds.specs.ProverViews.{shown_by, IsNoneOrTrueOf};

use super::{Form, PLAYS, Standing, are_standing, pair_of};
use sc_challenger::{Challenger, ScriptedChallenger};
use sc_constraints::{Constraint, EqStatement, Statements};
use sc_field::{ExtensionField, Field, NoMemory};
use sc_rounds::{
    EvalConstraints, SumcheckData, SumcheckProver, SumcheckShape, batch_in_step, replay_laws,
    shape_laws,
};
use sc_small_fields::F65537;
use sc_table::{Basis, Point, VariableOrder};
use sc_tests_common::{are_pairs, have_numbers, of, point};
use std::alloc::Global;
use std::process::Abort;

static GOOD: [&[u64]; 2] = [&[9, 5], &[6]];

// A challenger that draws 3 and 4, and whose tests 5, 9 and 6 pass, in this order.
pub(super) fn scripted(alloc: Global) -> Result<ScriptedChallenger<F65537>, NoMemory> {
    sc_tests_common::scripted(alloc, &[3, 4], &GOOD)
}

// The prover of the table 1, 2, 3, 4 and of these four weights.
pub(super) fn prover_of(
    alloc: Global,
    form: Form,
    weights: &[u64],
) -> Result<SumcheckProver<F65537, F65537>, NoMemory>
    requires { length weights.now ≡ 4 }
    ensures { IfOk result (λ p. (shown_by p).variables ≡ 2) }
{
    let pair = pair_of(alloc, form, weights)?;
    let sum = pair.dot_product();
    Ok(SumcheckProver::new(pair, sum))
}

// The statement of one value at a point.
fn claim(alloc: Global, coords: &[u64], value: u64) -> Result<EqStatement<F65537>, NoMemory>
    ensures { IfOk result (λ s. eq_arity s ≡ length coords.now) }
{
    let mut statement = EqStatement::initialize(alloc, coords.len());
    statement.add_evaluated_constraint(point(alloc, coords)?, of(value))?;
    Ok(statement)
}

// The constraint of one value at a point, under the challenge 1.
pub(super) fn one_claim(
    alloc: Global,
    coords: &[u64],
    value: u64,
) -> Result<Constraint<F65537, F65537>, NoMemory>
    ensures { IfOk result (λ c. constraint_arity c ≡ length coords.now) }
{
    let groups = vec![in alloc; Statements::Eq(claim(alloc, coords, value)?)]?;
    Ok(Constraint::new(of(1), coords.len(), groups))
}

// The values at (0, 1) and (2, 3) in one group and at (6, 9) in another, under the challenge 7.
fn three_claims(alloc: Global) -> Result<Constraint<F65537, F65537>, NoMemory>
    ensures { IfOk result (λ c. constraint_arity c ≡ 2) }
{
    let mut first = claim(alloc, &[0, 1], 2)?;
    first.add_evaluated_constraint(point(alloc, &[2, 3])?, of(8))?;
    let second = claim(alloc, &[6, 9], 22)?;
    let groups = vec![in alloc; Statements::Eq(first), Statements::Eq(second)]?;
    Ok(Constraint::new(of(7), 2, groups))
}

// Whether a constraint, if there is one, is true of a prover.
fn is_true<F: Field, EF: ExtensionField<F>>(
    alloc: Global,
    prover: &mut SumcheckProver<F, EF>,
    constraint: &Option<Constraint<F, EF>>,
) -> Result<bool, NoMemory>
    ensures kept { shown_by prover.new ≡ shown_by prover.old }
    ensures exact { IfOk result (λ is_true. IsTrue is_true → IsNoneOrTrueOf prover.old constraint.now) }
{
    match constraint {
        Some(constraint) => prover.constraint_is_true(alloc, constraint),
        None => Ok(true),
    }
}

// Plays a batch with a constraint that has to be true. The batch has at most as many rounds as
// there are variables, and a difficulty that the challenger takes. The constraint is let go on no
// path, which would have to be proved.
pub(super) fn play<F: Field, EF: ExtensionField<F>, C: Challenger<F>, A: Abort>(
    rt: &A,
    alloc: Global,
    prover: &mut SumcheckProver<F, EF>,
    data: &mut SumcheckData<F, EF>,
    challenger: &mut C,
    rounds: usize,
    pow_bits: usize,
    constraint: Option<Constraint<F, EF>>,
) -> Point<EF> {
    let holds = is_true(alloc, prover, &constraint).expect(rt, "an answer");
    assert!(rt; holds);
    let rounds = rounds.min(prover.num_variables());
    let pow_bits = pow_bits.min(challenger.max_bits());
    prover
        .compute_sumcheck_polynomials(alloc, data, challenger, rounds, pow_bits, constraint)
        .expect(rt, "an answer")
}

// A batch, its challenges and witnesses, and the claim that it leaves.
struct Batch {
    rounds: usize,
    pow_bits: usize,
    drawn: &'static [u64],
    witnesses: &'static [u64],
    left: u64,
}

// The first part of a batch that is not as wanted, if there is one.
fn wrong_part<F: Field, EF: ExtensionField<F>>(
    wanted: &Batch,
    sides: &(Point<EF>, Point<EF>, EF),
    data: &SumcheckData<F, EF>,
    sum: EF,
) -> Option<&'static str> {
    let (drawn, replayed, claim) = sides;
    if !have_numbers(drawn.as_slice(), wanted.drawn) {
        Some("drawn")
    } else if !have_numbers(replayed.as_slice(), wanted.drawn) {
        Some("replayed")
    } else if !have_numbers(&data.pow_witnesses, wanted.witnesses) {
        Some("witnesses")
    } else if claim.index() != wanted.left || sum.index() != wanted.left {
        Some("claim")
    } else {
        None
    }
}

// Plays a batch with a constraint that has to be true on both sides.
fn assert_batch<F: Field, EF: ExtensionField<F>, C: Challenger<F>, A: Abort>(
    rt: &A,
    alloc: Global,
    prover: &mut SumcheckProver<F, EF>,
    one_side: &mut C,
    other_side: &mut C,
    constraint: Option<Constraint<F, EF>>,
    batch: &Batch,
)
    requires rules { (C.party other_side.old).rules ≡ (C.party one_side.old).rules }
    requires history { (C.party other_side.old).history ≡ (C.party one_side.old).history }
    ensures rules { (C.party other_side.new).rules ≡ (C.party one_side.new).rules }
    ensures history { (C.party other_side.new).history ≡ (C.party one_side.new).history }
{
    let holds = is_true(alloc, prover, &constraint).expect(rt, "an answer");
    assert!(rt; holds);
    let rounds = batch.rounds.min(prover.num_variables());
    let pow_bits = batch.pow_bits.min(one_side.max_bits());
    let mut data = SumcheckData::new(alloc);
    let sides = batch_in_step(
        alloc, prover, &mut data, one_side, other_side, rounds, pow_bits, constraint,
    )
    .expect(rt, "an answer");
    assert!(rt; wrong_part(batch, &sides, &data, prover.claimed_sum()) == None);
}

// A prover by its order and weights, its claim, and one or two batches.
struct InStep {
    order: VariableOrder,
    weights: [u64; 4],
    sum: u64,
    first: Batch,
    second: Option<Batch>,
}

static WITHOUT_CONSTRAINT: [InStep; 2] = [
    InStep {
        order: VariableOrder::Prefix,
        weights: [0, 1, 0, 0],
        sum: 2,
        first: Batch {
            rounds: 2,
            pow_bits: 1,
            drawn: &[3, 4],
            witnesses: &[5, 6],
            left: 65449,
        },
        second: None,
    },
    InStep {
        order: VariableOrder::Suffix,
        weights: [0, 1, 0, 0],
        sum: 2,
        first: Batch {
            rounds: 2,
            pow_bits: 1,
            drawn: &[3, 4],
            witnesses: &[5, 6],
            left: 65429,
        },
        second: None,
    },
];

static WITH_CONSTRAINT: [InStep; 2] = [
    InStep {
        order: VariableOrder::Prefix,
        weights: [5, 0, 0, 1],
        sum: 9,
        first: Batch {
            rounds: 2,
            pow_bits: 1,
            drawn: &[3, 4],
            witnesses: &[5, 6],
            left: 374,
        },
        second: None,
    },
    InStep {
        order: VariableOrder::Suffix,
        weights: [5, 0, 0, 1],
        sum: 9,
        first: Batch {
            rounds: 2,
            pow_bits: 1,
            drawn: &[3, 4],
            witnesses: &[5, 6],
            left: 396,
        },
        second: None,
    },
];

static TWO_BATCHES: [InStep; 2] = [
    InStep {
        order: VariableOrder::Prefix,
        weights: [0, 1, 0, 0],
        sum: 2,
        first: Batch {
            rounds: 1,
            pow_bits: 0,
            drawn: &[3],
            witnesses: &[],
            left: 65521,
        },
        second: Some(Batch {
            rounds: 1,
            pow_bits: 0,
            drawn: &[4],
            witnesses: &[],
            left: 65449,
        }),
    },
    InStep {
        order: VariableOrder::Suffix,
        weights: [0, 1, 0, 0],
        sum: 2,
        first: Batch {
            rounds: 1,
            pow_bits: 0,
            drawn: &[3],
            witnesses: &[],
            left: 12,
        },
        second: Some(Batch {
            rounds: 1,
            pow_bits: 0,
            drawn: &[4],
            witnesses: &[],
            left: 65429,
        }),
    },
];

fn assert_in_step<A: Abort>(
    rt: &A,
    alloc: Global,
    row: &InStep,
    constraint: Option<Constraint<F65537, F65537>>,
) {
    let mut prover = prover_of(alloc, (Basis::Evaluation, row.order), &row.weights).expect(
        rt,
        "an answer",
    );
    assert!(rt; prover.claimed_sum().index() == row.sum);
    let mut one_side = scripted(alloc).expect(rt, "an answer");
    let mut other_side = one_side.copy(alloc).expect(rt, "an answer");
    assert_batch(
        rt,
        alloc,
        &mut prover,
        &mut one_side,
        &mut other_side,
        constraint,
        &row.first,
    );
    if let Some(second) = &row.second {
        assert_batch(
            rt,
            alloc,
            &mut prover,
            &mut one_side,
            &mut other_side,
            None,
            second,
        );
    }
    assert!(rt; one_side.events() == other_side.events());
}

#[test]
fn prover_and_verifier_stay_in_step(rt: HostRuntime) {
    for row in &WITHOUT_CONSTRAINT {
        assert_in_step(&rt, rt.alloc(), row, None);
    }
}

#[test]
fn a_batch_stays_in_step_with_its_constraint(rt: HostRuntime) {
    for row in &WITH_CONSTRAINT {
        let constraint = one_claim(rt.alloc(), &[0, 1], 2).expect(&rt, "an answer");
        assert_in_step(&rt, rt.alloc(), row, Some(constraint));
    }
}

#[test]
fn batches_follow_on_each_other(rt: HostRuntime) {
    replay_laws::<F65537>();
    for row in &TWO_BATCHES {
        assert_in_step(&rt, rt.alloc(), row, None);
    }
}

static SHAPES: [SumcheckShape; 5] = [
    SumcheckShape {
        num_rounds: 1,
        pow_bits: 0,
        basis: Basis::Evaluation,
    },
    SumcheckShape {
        num_rounds: 2,
        pow_bits: 0,
        basis: Basis::Evaluation,
    },
    SumcheckShape {
        num_rounds: 1,
        pow_bits: 1,
        basis: Basis::Evaluation,
    },
    SumcheckShape {
        num_rounds: 1,
        pow_bits: 2,
        basis: Basis::Evaluation,
    },
    SumcheckShape {
        num_rounds: 1,
        pow_bits: 0,
        basis: Basis::Projective,
    },
];

// A challenger that has observed the seed of a shape, over a field as its own extension.
fn seeded(alloc: Global, shape: SumcheckShape) -> Result<ScriptedChallenger<F65537>, NoMemory> {
    let mut challenger = scripted(alloc)?;
    shape.seed::<F65537, F65537, ScriptedChallenger<F65537>>(alloc, &mut challenger)?;
    Ok(challenger)
}

// Whether two shapes have the same seed.
fn have_one_seed(
    alloc: Global,
    shape: SumcheckShape,
    other: SumcheckShape,
) -> Result<bool, NoMemory> {
    Ok(seeded(alloc, shape)?.events() == seeded(alloc, other)?.events())
}

#[test]
fn shapes_have_seeds_of_their_own(rt: HostRuntime) {
    shape_laws();
    for (i, shape) in SHAPES.iter().enumerate() {
        for (j, other) in SHAPES.iter().enumerate() {
            assert!(rt; have_one_seed(rt.alloc(), *shape, *other) == Ok(i == j));
        }
    }
}

static TAKEN_IN: Standing = Standing {
    variables: 2,
    evals: &[1, 2, 3, 4],
    weights: &[0, 1, 0, 0],
    sum: 2,
};

#[test]
fn a_constraint_is_combined_into_a_pair(rt: HostRuntime) {
    let mut pair = pair_of(
        rt.alloc(),
        (Basis::Evaluation, VariableOrder::Suffix),
        &[0, 0, 0, 0],
    )
    .expect(&rt, "an answer");
    let mut sum = pair.dot_product();
    assert!(rt; sum.index() == 0);
    let constraint = one_claim(rt.alloc(), &[0, 1], 2).expect(&rt, "an answer");
    pair.combine(rt.alloc(), &mut sum, &constraint)
        .expect(&rt, "an answer");
    assert!(rt; super::stands(rt.alloc(), &pair, sum, &TAKEN_IN) == Ok(true));
}

// Whether a prover's tables and its claim stand so.
pub(super) fn stands(
    alloc: Global,
    prover: &mut SumcheckProver<F65537, F65537>,
    wanted: &Standing,
) -> Result<bool, NoMemory> {
    let evals = prover.evals(alloc)?;
    let weights = prover.weights(alloc)?;
    let sum = prover.claimed_sum().index();
    Ok(
        are_standing(&evals, &weights, sum, wanted)
            && prover.num_variables() == wanted.variables
            && have_numbers(prover.evals_view(), wanted.evals),
    )
}

// Whether the constraint of one value at a point is true of a prover.
pub(super) fn claim_is_true(
    alloc: Global,
    prover: &mut SumcheckProver<F65537, F65537>,
    coords: &[u64],
    value: u64,
) -> Result<bool, NoMemory> {
    is_true(alloc, prover, &Some(one_claim(alloc, coords, value)?))
}

// The value of a prover's table at a point of as many coordinates as there are variables.
fn value_at(
    alloc: Global,
    prover: &mut SumcheckProver<F65537, F65537>,
    coords: &[u64],
) -> Result<Option<u64>, NoMemory> {
    let at = point(alloc, coords)?;
    if at.num_variables() != prover.num_variables() {
        return Ok(None);
    }
    // A look at the evaluations leaves the number of variables as it was: that is what lets the
    // next call stand here.
    let rows = prover.evals_view().len();
    if rows == 0 {
        return Ok(None);
    }
    Ok(Some(prover.eval(&at).index()))
}

static BOUND: Standing = Standing {
    variables: 1,
    evals: &[7, 8],
    weights: &[0, 65535],
    sum: 65521,
};

#[test]
fn a_true_constraint_is_taken_in(rt: HostRuntime) {
    let mut prover = prover_of(
        rt.alloc(),
        (Basis::Evaluation, VariableOrder::Prefix),
        &[0, 0, 0, 0],
    )
    .expect(&rt, "an answer");
    assert!(rt;
        prover.claimed_sum().index() == 0
            && claim_is_true(rt.alloc(), &mut prover, &[0, 1], 3) == Ok(false)
            && claim_is_true(rt.alloc(), &mut prover, &[0], 2) == Ok(false)
    );
    let right = one_claim(rt.alloc(), &[0, 1], 2).expect(&rt, "an answer");
    let mut data = SumcheckData::new(rt.alloc());
    let mut challenger = scripted(rt.alloc()).expect(&rt, "an answer");
    let none = play(
        &rt,
        rt.alloc(),
        &mut prover,
        &mut data,
        &mut challenger,
        0,
        0,
        Some(right),
    );
    assert!(rt;
        none.num_variables() == 0 && stands(rt.alloc(), &mut prover, &TAKEN_IN) == Ok(true)
    );
    let first = play(
        &rt,
        rt.alloc(),
        &mut prover,
        &mut data,
        &mut challenger,
        1,
        0,
        None,
    );
    assert!(rt; have_numbers(first.as_slice(), &[3]) && prover.order() == VariableOrder::Prefix);
    prover.settle();
    assert!(rt;
        stands(rt.alloc(), &mut prover, &BOUND) == Ok(true)
            && value_at(rt.alloc(), &mut prover, &[4]) == Ok(Some(11))
    );
}

// In each form a round follows on a look at the evaluations, which is what `stands` ends with.
#[test]
fn a_look_at_the_evaluations_changes_nothing(rt: HostRuntime) {
    for wanted in &PLAYS {
        let mut prover = prover_of(rt.alloc(), wanted.form, &[0, 1, 0, 0]).expect(&rt, "an answer");
        let mut data = SumcheckData::new(rt.alloc());
        let mut challenger = scripted(rt.alloc()).expect(&rt, "an answer");
        assert!(rt; have_numbers(prover.evals_view(), &[1, 2, 3, 4]));
        for (challenge, standing) in wanted.after {
            let drawn = play(
                &rt,
                rt.alloc(),
                &mut prover,
                &mut data,
                &mut challenger,
                1,
                0,
                None,
            );
            assert!(rt;
                have_numbers(drawn.as_slice(), &[*challenge])
                    && stands(rt.alloc(), &mut prover, standing) == Ok(true)
                    && (prover.basis(), prover.order()) == wanted.form
            );
        }
        assert!(rt; are_pairs(data.polynomial_evaluations(), wanted.sent));
    }
}

#[test]
fn constraints_have_their_values_at_the_last_challenges(rt: HostRuntime) {
    let three = three_claims(rt.alloc()).expect(&rt, "an answer");
    let one = one_claim(rt.alloc(), &[1, 0, 0], 0).expect(&rt, "an answer");
    let constraints = vec![in rt.alloc(); three, one].expect(&rt, "an answer");
    let challenges = point(rt.alloc(), &[5, 3, 4]).expect(&rt, "an answer");
    for (order, wanted) in [
        (VariableOrder::Prefix, 17813),
        (VariableOrder::Suffix, 17660),
    ] {
        let value: F65537 = order
            .eval_constraints_poly(rt.alloc(), &constraints, &challenges)
            .expect(&rt, "an answer");
        assert!(rt; value.index() == wanted);
    }
}
