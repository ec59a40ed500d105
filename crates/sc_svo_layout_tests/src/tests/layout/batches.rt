//! The small-value batch of what a book has recorded, by figures by hand.

use super::{request, two};
use sc_field::{Field, NoMemory};
use sc_layout::{BindingOrder, Layout, PrefixFirst, SuffixFirst, TableProver};
use sc_small_fields::F65537;
use sc_tests_common::{have_numbers, of, scripted};
use std::alloc::Global;
use std::process::Abort;

// The weights of the three openings of the table 1, 2 are -2, 3 at the point 3; 0, 1 through the
// successor map there; and -3, 4 at the point 4. Batched under 10 they are -302, 413. The value at
// 0 is 1 times the first; the product of the differences is 715.
fn assert_batch<A: Abort, O: BindingOrder>(rt: &A, alloc: Global) {
    let table = two(alloc).expect(rt, "a table");
    let mut prover = TableProver::<F65537, F65537, O>::new(alloc, table, 1);
    let mut challenger = scripted::<F65537>(alloc, &[3, 4], &[]).expect(rt, "a challenger");
    let asked = request(alloc, 1, 1).expect(rt, "a request");
    let _evals = prover.eval(0, &asked, &mut challenger).expect(rt, "values");
    let _value = prover
        .add_virtual_eval(&mut challenger)
        .expect(rt, "a value");
    let (table, folding) = (prover.table(), prover.folding());
    let batch = prover
        .claims()
        .batched_accumulators(alloc, table, prover.order(), folding, of(10))
        .expect(rt, "a batch");
    let grids = batch.grids().rounds.as_slice();
    assert!(rt;
        grids.len() == 1
            && have_numbers(grids[0].zero.as_slice(), &[65235])
            && have_numbers(grids[0].infinity.as_slice(), &[715])
    );
}

#[test]
fn three_openings_batched(rt: HostRuntime) {
    assert_batch::<_, PrefixFirst>(&rt, rt.alloc());
    assert_batch::<_, SuffixFirst>(&rt, rt.alloc());
}
