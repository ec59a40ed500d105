//! Masked rounds of the openings of the table 1, 2, in either order, played and simulated: both are
//! accepted by the verifier that has recorded these openings; by figures by hand.
ghost use Rattle.std.specs.Prelude.{◌≡◌, IfOk};
ghost use Rattle.sc_table.specs.Polys.{variables_of};

use super::{record, request};
use rand_chacha::ChaCha8Rng;
use rand_core::SeedableRng;
use sc_challenger::{Event, ScriptedChallenger};
use sc_field::{Field, NoMemory};
use sc_layout::Layout;
use sc_small_fields::F65537;
use sc_table::Poly;
use sc_tests_common::{elements, have_numbers, of, scripted};
use sc_transcript::SumcheckError;
use sc_zk::{
    NodeCode, OpeningEvals, PrefixProver, Sha2Mmcs, SuffixProver, TableShape, ZkProver,
    ZkSumcheckData, ZkSumcheckShape, ZkVerifier, mask_residual, simulate_classic_unpacked_claim,
};
use std::alloc::Global;
use std::process::Abort;

// What both rounds' sides leave: the row of the table, and that of the weights.
type Left = (u64, u64);

// The table 1, 2.
fn two(alloc: Global) -> Result<Poly<F65537>, NoMemory>
    ensures { IfOk result (λ p. variables_of p ≡ 1) }
{
    Ok(Poly::new(elements(alloc, &[1, 2])?))
}

// The openings of the table: 4 at 3, and 2 through the successor map there; 5 at 4.
const OPENED: (u64, u64, u64) = (4, 2, 5);

// A challenger that draws the points 3 and 4, the batching challenge 10, the combination 31, and
// the challenge of the round, 2.
fn challenger<A: Abort>(rt: &A, alloc: Global) -> ScriptedChallenger<F65537> {
    scripted::<F65537>(alloc, &[3, 4, 10, 31, 2], &[]).expect(rt, "a challenger")
}

// Plays the round of all three openings, whose batch under 10 is 524, and replays it. The batched
// weights are -302 and 413; at 2 the table is 3 and the weights are 1128. So the plain residual is
// 3384, and 31 times that is 39367. One side is times 31.
fn assert_played<A: Abort, L: Layout<F65537, F65537>>(
    rt: &A,
    alloc: Global,
    layout: L,
    verifier: ZkVerifier<F65537, F65537>,
    left: Left,
)
    requires { (L.laid layout).folding ≡ 1 }
{
    let (mut ours, mut theirs) = (challenger(rt, alloc), challenger(rt, alloc));
    let mut prover = ZkProver::new(layout, NodeCode::new(4, 2, 12), Sha2Mmcs::new());
    let asked = request(alloc).expect(rt, "a request");
    let came = prover.eval(0, &asked, &mut ours).expect(rt, "values");
    assert!(rt;
        have_numbers(came.current.as_slice(), &[4]) && have_numbers(came.next.as_slice(), &[2])
    );
    let value = prover.add_virtual_eval(&mut ours).expect(rt, "a value");
    assert!(rt; value.index() == 5);
    let mut verifier = verifier;
    record(rt, alloc, &mut verifier, &mut theirs, OPENED);
    assert!(rt; verifier.sum(of(10)).index() == 524);
    ZkSumcheckShape::new_batching(prover.folding(), 4, 0)
        .validate::<F65537>()
        .expect(rt, "a shape");
    let mut data = ZkSumcheckData::<F65537, F65537>::new(alloc);
    let mut rng = ChaCha8Rng::from_seed([7; 32]);
    let mut handed = prover
        .into_sumcheck(alloc, &mut data, 0, &mut ours, &mut rng)
        .expect(rt, "an answer");
    let evals = handed.residual_prover.evals(alloc).expect(rt, "a table");
    let weights = handed.residual_prover.weights(alloc).expect(rt, "weights");
    assert!(rt;
        have_numbers(evals.as_slice(), &[left.0])
            && have_numbers(weights.as_slice(), &[left.1])
            && handed.residual_prover.claimed_sum().index() == 39367
    );
    let (mmcs, commitment) = (Sha2Mmcs::new(), &handed.mask_oracle.0);
    let accepted = verifier
        .into_sumcheck(alloc, &mmcs, &data, commitment, 4, 1, 0, &mut theirs)
        .expect(rt, "an answer");
    assert!(rt;
        accepted.eps.index() == 31
            && have_numbers(accepted.randomness.as_slice(), &[2])
            && have_numbers(handed.randomness.as_slice(), &[2])
    );
    let masks = mask_residual(&handed.mask_messages, handed.randomness.as_slice());
    let residual = of::<F65537>(39367).add(masks);
    assert!(rt;
        accepted.claimed_residual.index() == residual.index() && theirs.events() == ours.events()
    );
}

#[test]
fn what_is_played_is_accepted(rt: HostRuntime) {
    let alloc = rt.alloc();
    let shapes = &[TableShape::new(1)][..];
    let prefix = PrefixProver::new(alloc, two(alloc).expect(&rt, "a table"), 1);
    assert_played(
        &rt,
        alloc,
        prefix,
        ZkVerifier::new_prefix(alloc, shapes),
        (3, 34968),
    );
    let suffix = SuffixProver::new(alloc, two(alloc).expect(&rt, "a table"), 1);
    assert_played(
        &rt,
        alloc,
        suffix,
        ZkVerifier::new_suffix(alloc, shapes),
        (93, 1128),
    );
}

// A simulator of the claim 524, which is handed on, and the verifier of that claim.
#[test]
fn a_claim_that_is_simulated_is_accepted(rt: HostRuntime) {
    let alloc = rt.alloc();
    let draws = [31, 2];
    let mut simulator = scripted::<F65537>(alloc, &draws, &[]).expect(&rt, "a challenger");
    let mut theirs = scripted::<F65537>(alloc, &draws, &[]).expect(&rt, "a challenger");
    ZkSumcheckShape::new_inherited(1, 4, 0)
        .validate::<F65537>()
        .expect(&rt, "a shape");
    let mmcs = Sha2Mmcs::new();
    let (data, commitment, challenges) = simulate_classic_unpacked_claim(
        alloc,
        &mut simulator,
        of(524),
        1,
        0,
        &NodeCode::new(4, 2, 12),
        &mmcs,
        &mut ChaCha8Rng::from_seed([7; 32]),
    )
    .expect(&rt, "an answer");
    let accepted = ZkVerifier::<F65537, F65537>::verify_claim(
        alloc,
        &mmcs,
        &data,
        &commitment,
        4,
        1,
        0,
        of(524),
        &mut theirs,
    )
    .expect(&rt, "an answer");
    assert!(&rt;
        accepted.eps.index() == 31
            && accepted.randomness.as_slice() == challenges.as_slice()
            && theirs.events() == simulator.events()
    );
}

// One value of each kind is asked for, and no next one comes: nothing is recorded, and no event
// came.
#[test]
fn a_misshapen_claim_is_refused(rt: HostRuntime) {
    let alloc = rt.alloc();
    let mut verifier = ZkVerifier::<F65537, F65537>::new_prefix(alloc, &[TableShape::new(1)][..]);
    let mut theirs = challenger(&rt, alloc);
    let asked = request(alloc).expect(&rt, "a request");
    let current = elements(alloc, &[4]).expect(&rt, "a value");
    let came = OpeningEvals::new(current, Vec::new(alloc));
    let refused = verifier
        .add_claim(0, &asked, &came, &mut theirs)
        .expect_err(&rt, "a refusal");
    assert!(&rt;
        refused
            == SumcheckError::OpeningShapeMismatch {
                table_idx: 0,
                expected_current: 1,
                expected_next: 1,
                actual_current: 1,
                actual_next: 0,
            }
            && theirs.events().len() == 0
            && verifier.sum(of(10)).index() == 0
    );
    record(&rt, alloc, &mut verifier, &mut theirs, OPENED);
    let events = [
        Event::Draw,
        Event::Word(4),
        Event::Word(2),
        Event::Draw,
        Event::Word(5),
    ];
    assert!(&rt; theirs.events() == &events[..] && verifier.sum(of(10)).index() == 524);
}
