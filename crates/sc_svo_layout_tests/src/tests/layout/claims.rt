//! What a claim tells of an opening: its point, its values, each with its column, and the partial
//! sums that were made on the way to them; by figures by hand.

use super::super::four;
use super::request;
use sc_field::{ExtensionField, Field};
use sc_layout::{
    BindingOrder, Layout, OpeningEvals, PrefixFirst, ProverMultiClaim, SuffixFirst, TableProver,
};
use sc_small_fields::F65537;
use sc_table::{Point, VariableOrder};
use sc_tests_common::{elements, have_numbers, scripted};
use std::alloc::Global;
use std::process::Abort;

type Claim = ProverMultiClaim<F65537, F65537>;

// The table 1, 2, 3, 4, of which one variable is bound by small-value rounds, opened twice at
// (2, 3), and through the successor map there.
fn opened<A: Abort, O: BindingOrder>(rt: &A, alloc: Global) -> TableProver<F65537, F65537, O> {
    let table = four(alloc).expect(rt, "a table");
    let mut prover = TableProver::<F65537, F65537, O>::new(alloc, table, 1);
    let mut challenger = scripted::<F65537>(alloc, &[2, 3], &[]).expect(rt, "a challenger");
    let asked = request(alloc, 2, 1).expect(rt, "a request");
    assert!(rt; asked.current() == &[0, 0][..] && asked.next() == &[0][..] && asked.len() == 3);
    let evals = prover.eval(0, &asked, &mut challenger).expect(rt, "values");
    let evals = evals.copy(alloc).expect(rt, "values");
    assert!(rt; evals.len() == 3);
    prover
}

// Whether a claim has these partial sums: that of its current values, and the three of the next.
fn has_partials(claim: &Claim, current: &[u64], next: [&[u64]; 3]) -> bool {
    let mut agree = true;
    for opening in claim.current_openings() {
        let rounds = opening.payload().rounds();
        agree = agree && rounds.len() == 1 && have_numbers(rounds[0].table(), current);
    }
    for opening in claim.next_openings() {
        let rounds = opening.payload().rounds();
        agree = agree
            && rounds.len() == 1
            && have_numbers(rounds[0].done(), next[0])
            && have_numbers(rounds[0].carry(), next[1])
            && have_numbers(rounds[0].omega(), next[2]);
    }
    agree
}

// The point, the columns, and the values, which are 8 and 3 in either order.
fn assert_told<A: Abort>(rt: &A, claim: &Claim, order: VariableOrder) {
    assert!(rt;
        have_numbers(claim.coordinates().as_slice(), &[2, 3])
            && claim.point().var_order() == order
            && claim.point().num_variables() == 2
            && claim.point().num_variables_svo() == 1
    );
    assert!(rt; claim.current_openings().len() == 2 && claim.next_openings().len() == 1);
    for opening in claim.current_openings() {
        assert!(rt; *opening.point() == 0 && opening.eval().index() == 8);
    }
    for opening in claim.next_openings() {
        assert!(rt; *opening.point() == 0 && opening.eval().index() == 3);
    }
}

// In prefix order the coordinate 3 is summed over, with the weights -2 and 3, of the rows 1, 2 and
// 3, 4. Through the successor map a step from 0 is done there, one from 1 is carried on, and the
// last row stays. In suffix order the coordinate 2 is, with the weights -1 and 2, of the rows 1, 3
// and 2, 4: where the step was done before it, it is none here.
#[test]
fn a_claim_tells_its_opening(rt: HostRuntime) {
    let alloc = rt.alloc();
    let prefix = opened::<_, PrefixFirst>(&rt, alloc);
    let suffix = opened::<_, SuffixFirst>(&rt, alloc);
    for claim in prefix.claims().concrete_claims() {
        assert_told(&rt, claim, VariableOrder::Prefix);
        assert!(&rt; has_partials(claim, &[4, 6], [&[65533, 65529], &[3, 9], &[6, 12]]));
    }
    for claim in suffix.claims().concrete_claims() {
        assert_told(&rt, claim, VariableOrder::Suffix);
        assert!(&rt; has_partials(claim, &[5, 6], [&[5, 6], &[65534, 65533], &[6, 8]]));
    }
}
