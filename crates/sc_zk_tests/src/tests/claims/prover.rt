//! A prover of a layout under masks and the verifier of its rounds, by figures from a script that
//! sums over all bits and is no part of this.
ghost use Rattle.std.specs.Prelude.{◌≡◌, ◌≤◌, IfOk};
ghost use Rattle.sc_table.specs.Polys.{variables_of};

use super::{record, request};
use rand_chacha::ChaCha8Rng;
use rand_core::SeedableRng;
use sc_challenger::ScriptedChallenger;
use sc_field::{Field, NoMemory};
use sc_layout::Layout;
use sc_rounds::SumcheckProver;
use sc_small_fields::F65537;
use sc_table::{Point, Poly};
use sc_tests_common::{elements, have_numbers, of, scripted};
use sc_zk::{
    MaskedRun, NodeCode, PrefixProver, Sha2Mmcs, SuffixProver, TableShape, ZkLayout, ZkProver,
    ZkSumcheckData, ZkSumcheckHandoff, ZkSumcheckShape, ZkVerifier, ZkVerifierHandoff,
    layout_in_step, mask_residual,
};
use std::alloc::Global;
use std::process::Abort;

type Handed = ZkSumcheckHandoff<F65537, F65537, Sha2Mmcs>;

// What is left of both tables, and of the claim.
#[derive(Drop)]
struct Left<'a> {
    evals: &'a [u64],
    weights: &'a [u64],
    claim: u64,
}

// The table 1, 2, 3, 5.
fn table(alloc: Global) -> Result<Poly<F65537>, NoMemory>
    ensures { IfOk result (λ p. variables_of p ≡ 2) }
{
    Ok(Poly::new(elements(alloc, &[1, 2, 3, 5])?))
}

// A challenger that draws the points (3, 4) and (5, 6), the batching challenge 10, the combination
// 31, and the challenges of the rounds, 2 and 7.
fn challenger<A: Abort>(rt: &A, alloc: Global) -> ScriptedChallenger<F65537> {
    scripted::<F65537>(alloc, &[3, 4, 5, 6, 10, 31, 2, 7], &[]).expect(rt, "a challenger")
}

// Of a layout the value at (3, 4) is 23, and 3 through the successor map; at (5, 6) it is 47.
const OPENED: (u64, u64, u64) = (23, 3, 47);

// Opens a layout at these points. Its masked rounds are then played: what they hand on, and their
// data.
fn played<A: Abort, L: Layout<F65537, F65537>>(
    rt: &A,
    alloc: Global,
    layout: L,
    challenger: &mut ScriptedChallenger<F65537>,
) -> (Handed, ZkSumcheckData<F65537, F65537>) {
    let mut data = ZkSumcheckData::<F65537, F65537>::new(alloc);
    let mut prover = ZkProver::new(layout, NodeCode::new(4, 2, 12), Sha2Mmcs::new());
    let asked = request(alloc).expect(rt, "a request");
    let came = prover.eval(0, &asked, challenger).expect(rt, "values");
    assert!(rt;
        have_numbers(came.current.as_slice(), &[23]) && have_numbers(came.next.as_slice(), &[3])
    );
    let value = prover.add_virtual_eval(challenger).expect(rt, "a value");
    assert!(rt; value.index() == 47 && prover.num_variables() == 2);
    ZkSumcheckShape::new_batching(prover.folding(), 4, 0)
        .validate::<F65537>()
        .expect(rt, "a shape");
    let mut rng = ChaCha8Rng::from_seed([7; 32]);
    let answer = prover.into_sumcheck(alloc, &mut data, 0, challenger, &mut rng);
    (answer.expect(rt, "an answer"), data)
}

// What a verifier of these openings leaves of these rounds.
fn replayed<A: Abort>(
    rt: &A,
    alloc: Global,
    verifier: ZkVerifier<F65537, F65537>,
    folding: usize,
    data: &ZkSumcheckData<F65537, F65537>,
    handed: &Handed,
    challenger: &mut ScriptedChallenger<F65537>,
) -> ZkVerifierHandoff<F65537> {
    let mut verifier = verifier;
    record(rt, alloc, &mut verifier, challenger, OPENED);
    let (mmcs, commitment) = (Sha2Mmcs::new(), &handed.mask_oracle.0);
    verifier
        .into_sumcheck(alloc, &mmcs, data, commitment, 4, folding, 0, challenger)
        .expect(rt, "an answer")
}

// Whether these are the tables and the claim that are left.
fn are_left(prover: &mut SumcheckProver<F65537, F65537>, alloc: Global, left: &Left) -> bool {
    match (prover.evals(alloc), prover.weights(alloc)) {
        (Ok(evals), Ok(weights)) => {
            have_numbers(evals.as_slice(), left.evals)
                && have_numbers(weights.as_slice(), left.weights)
                && prover.claimed_sum().index() == left.claim
        }
        _ => false,
    }
}

// The rounds hand on what is left, and the verifier accepts them: its residual is the claim that is
// left, and the masks at their challenges.
fn assert_handed_on<A: Abort, L: Layout<F65537, F65537>>(
    rt: &A,
    alloc: Global,
    layout: L,
    verifier: ZkVerifier<F65537, F65537>,
    left: &Left,
)
    requires { (L.laid layout).folding ≤ 2 }
{
    let folding = layout.folding();
    let mut ours = challenger(rt, alloc);
    let (mut handed, data) = played(rt, alloc, layout, &mut ours);
    assert!(rt;
        handed.eps.index() == 31
            && have_numbers(handed.randomness.as_slice(), &[2, 7][..folding])
            && are_left(&mut handed.residual_prover, alloc, left)
    );
    let mut theirs = challenger(rt, alloc);
    let accepted = replayed(rt, alloc, verifier, folding, &data, &handed, &mut theirs);
    let (masks, gammas) = (
        handed.mask_messages.as_slice(),
        handed.randomness.as_slice(),
    );
    assert!(rt; masks.len() == gammas.len());
    let masks = mask_residual(masks, gammas);
    let claim: F65537 = of(left.claim);
    assert!(rt;
        accepted.claimed_residual.index() == claim.add(masks).index()
            && accepted.randomness.as_slice() == gammas
            && theirs.events() == ours.events()
    );
}

fn assert_prefix<A: Abort>(rt: &A, alloc: Global, folding: usize, left: &Left)
    requires some { 1 ≤ folding }
    requires few { folding ≤ 2 }
{
    let rows = table(alloc).expect(rt, "a table");
    let verifier = ZkVerifier::new_prefix(alloc, &[TableShape::new(2)][..]);
    assert_handed_on(
        rt,
        alloc,
        PrefixProver::new(alloc, rows, folding),
        verifier,
        left,
    );
}

fn assert_suffix<A: Abort>(rt: &A, alloc: Global, folding: usize, left: &Left)
    requires some { 1 ≤ folding }
    requires few { folding ≤ 2 }
{
    let rows = table(alloc).expect(rt, "a table");
    let verifier = ZkVerifier::new_suffix(alloc, &[TableShape::new(2)][..]);
    assert_handed_on(
        rt,
        alloc,
        SuffixProver::new(alloc, rows, folding),
        verifier,
        left,
    );
}

// The weights are times the combination.
#[test]
fn the_first_variable_is_bound_first(rt: HostRuntime) {
    let one = Left {
        evals: &[5, 8],
        weights: &[39444, 64781],
        claim: 60098,
    };
    assert_prefix(&rt, rt.alloc(), 1, &one);
    let both = Left {
        evals: &[26],
        weights: &[20192],
        claim: 696,
    };
    assert_prefix(&rt, rt.alloc(), 2, &both);
}

// The evaluations are times the combination.
#[test]
fn the_last_variable_is_bound_first(rt: HostRuntime) {
    let one = Left {
        evals: &[93, 217],
        weights: &[58835, 8673],
        claim: 13552,
    };
    assert_suffix(&rt, rt.alloc(), 1, &one);
    let both = Left {
        evals: &[961],
        weights: &[35386],
        claim: 57780,
    };
    assert_suffix(&rt, rt.alloc(), 2, &both);
}

// Both sides of a layout's rounds, after the same openings.
fn stepped<A: Abort, L: Layout<F65537, F65537>>(
    rt: &A,
    alloc: Global,
    layout: L,
    verifier: ZkVerifier<F65537, F65537>,
) -> MaskedRun<F65537, F65537> {
    let mut ours = challenger(rt, alloc);
    let mut prover = ZkProver::new(layout, NodeCode::new(4, 2, 12), Sha2Mmcs::new());
    let asked = request(alloc).expect(rt, "a request");
    prover.eval(0, &asked, &mut ours).expect(rt, "values");
    prover.add_virtual_eval(&mut ours).expect(rt, "a value");
    let mut verifier = verifier;
    record(rt, alloc, &mut verifier, &mut challenger(rt, alloc), OPENED);
    assert!(rt; prover.mask_length() == 4);
    ZkSumcheckShape::new_batching(prover.folding(), 4, 0)
        .validate::<F65537>()
        .expect(rt, "a shape");
    let (mmcs, mut rng) = (Sha2Mmcs::new(), ChaCha8Rng::from_seed([7; 32]));
    layout_in_step(alloc, prover, verifier, &mmcs, 0, &mut ours, &mut rng).expect(rt, "a run")
}

// The figures are those of the rounds apart.
#[test]
fn both_sides_stay_in_step(rt: HostRuntime) {
    let alloc = rt.alloc();
    let rows = table(alloc).expect(&rt, "a table");
    let verifier = ZkVerifier::new_suffix(alloc, &[TableShape::new(2)][..]);
    let run = stepped(&rt, alloc, SuffixProver::new(alloc, rows, 2), verifier);
    assert!(&rt;
        have_numbers(run.randomness.as_slice(), &[2, 7])
            && run.eps.index() == 31
            && run.scaled.index() == 57780
            && run.carried.index() == 0
    );
    let residual = run.scaled.add(run.mask_residual);
    assert!(&rt;
        run.claimed_residual.index() == residual.index()
            && run.zk_data.round_coefficients.len() == 2
    );
}

// What a layout shows a masked prover, after the same openings: the batch of its values under 10,
// which is 23 + 10 3 + 100 47, and what both rounds leave of its tables.
fn assert_read<A: Abort, L: ZkLayout<F65537, F65537>>(
    rt: &A,
    alloc: Global,
    layout: L,
    evals: u64,
    weight: u64,
)
    requires { (L.laid layout).folding ≡ 2 }
{
    let mut layout = layout;
    let mut ours = challenger(rt, alloc);
    let asked = request(alloc).expect(rt, "a request");
    layout.eval(0, &asked, &mut ours).expect(rt, "values");
    layout.add_virtual_eval(&mut ours).expect(rt, "a value");
    assert!(rt;
        layout.concrete_claims().len() == 1
            && layout.virtual_claims().len() == 1
            && layout.batched_sum(of(10)).index() == 4753
    );
    let challenges = Point::new(elements(alloc, &[2, 7]).expect(rt, "challenges"));
    assert!(rt; challenges.num_variables() == layout.folding());
    let left = layout.zk_residual_handoff(alloc, &challenges, of(10), of(31));
    let left = left.expect(rt, "tables");
    let weights = left.weights(alloc).expect(rt, "weights");
    assert!(rt;
        have_numbers(left.evals_view(), &[evals]) && have_numbers(weights.as_slice(), &[weight])
    );
}

#[test]
fn a_masked_prover_reads_a_layout(rt: HostRuntime) {
    let alloc = rt.alloc();
    let rows = table(alloc).expect(&rt, "a table");
    assert_read(&rt, alloc, PrefixProver::new(alloc, rows, 2), 26, 20192);
    let rows = table(alloc).expect(&rt, "a table");
    assert_read(&rt, alloc, SuffixProver::new(alloc, rows, 2), 961, 35386);
}
