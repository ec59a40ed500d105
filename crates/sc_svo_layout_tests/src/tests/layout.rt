//! Openings of small tables, by figures by hand.
ghost use Rattle.std.specs.Prelude.{◌≡◌, ◌≤◌, All, IfOk, length};
ghost use Rattle.sc_table.specs.Polys.{variables_of};
ghost use Rattle.sc_layout.specs.Requests.{asked_in, counts};

mod batches;
mod claims;
mod verifier;

use super::four;
use sc_challenger::{Challenger, Event, ScriptedChallenger};
use sc_field::{ExtensionField, Field, NoMemory};
use sc_layout::{
    BindingOrder, Layout, OpeningEvals, OpeningRequest, PrefixFirst, SuffixFirst, TableProver,
};
use sc_small_fields::{F257x2, F65537};
use sc_table::{Poly, VariableOrder};
use sc_tests_common::{elements, have_numbers, of, scripted};
use std::alloc::Global;
use std::process::Abort;

// The column 0, so many times.
pub(crate) fn column(alloc: Global, count: usize) -> Result<Vec<usize>, NoMemory>
    ensures zero { IfOk result (λ v. All (λ c. c ≡ 0) v.items) }
    ensures count { IfOk result (λ v. length v.items ≡ count) }
{
    let mut columns = Vec::new(alloc);
    for _place in 0..count {
        columns.push(0)?;
    }
    Ok(columns)
}

// The request of so many current values, and of so many next ones.
pub(crate) fn request(
    alloc: Global,
    current: usize,
    next: usize,
) -> Result<OpeningRequest, NoMemory>
    ensures { IfOk result (λ r. asked_in r ≡ counts current next) }
{
    Ok(OpeningRequest::new(column(alloc, current)?, column(alloc, next)?))
}

// The table 1, 2.
pub(crate) fn two(alloc: Global) -> Result<Poly<F65537>, NoMemory>
    ensures { IfOk result (λ p. variables_of p ≡ 1) }
{
    Ok(Poly::new(elements(alloc, &[1, 2])?))
}

pub(crate) fn are(evals: &OpeningEvals<F65537>, current: &[u64], next: &[u64]) -> bool {
    have_numbers(evals.current.as_slice(), current) && have_numbers(evals.next.as_slice(), next)
}

// What the openings of the table 1, 2 at 3 and 4 are: at 3 the value is 1 + 3, and the successor
// moves all weight to the last row, 2; at 4 it is 1 + 4.
fn assert_two<A: Abort, O: BindingOrder>(rt: &A, alloc: Global) {
    let table = two(alloc).expect(rt, "a table");
    let mut prover = TableProver::<F65537, F65537, O>::new(alloc, table, 1);
    let mut challenger = scripted::<F65537>(alloc, &[3, 4], &[]).expect(rt, "a challenger");
    let asked = request(alloc, 1, 1).expect(rt, "a request");
    let evals = prover.eval(0, &asked, &mut challenger).expect(rt, "values");
    assert!(rt; are(&evals, &[4], &[2]));
    let value = prover
        .add_virtual_eval(&mut challenger)
        .expect(rt, "a value");
    assert!(rt; value.index() == 5);
    // 4 + 10 2 + 100 5
    assert!(rt;
        prover.claims().sum(of(10)).index() == 524
            && prover.claims().concrete_claims().len() == 1
            && prover.claims().virtual_claims().len() == 1
    );
    let events = [
        Event::Draw,
        Event::Word(4),
        Event::Word(2),
        Event::Draw,
        Event::Word(5),
    ];
    assert!(rt; challenger.events() == &events[..]);
}

#[test]
fn a_table_of_two(rt: HostRuntime) {
    assert_two::<_, PrefixFirst>(&rt, rt.alloc());
    assert_two::<_, SuffixFirst>(&rt, rt.alloc());
}

// At (2, 3) the table 1, 2, 3, 4 is 1 + 2 2 + 3 = 8, and 3 through the successor map.
fn assert_four<A: Abort, O: BindingOrder>(rt: &A, alloc: Global, folding: usize)
    requires some { 1 ≤ folding }
    requires few { folding ≤ 2 }
{
    let table = four(alloc).expect(rt, "a table");
    let mut prover = TableProver::<F65537, F65537, O>::new(alloc, table, folding);
    let mut challenger = scripted::<F65537>(alloc, &[2, 3], &[]).expect(rt, "a challenger");
    let asked = request(alloc, 2, 1).expect(rt, "a request");
    let evals = prover.eval(0, &asked, &mut challenger).expect(rt, "values");
    assert!(rt;
        are(&evals, &[8, 8], &[3])
            && prover.folding() == folding
            && prover.num_variables() == 2
            && have_numbers(prover.table().as_slice(), &[1, 2, 3, 4])
    );
}

#[test]
fn a_table_of_four(rt: HostRuntime) {
    for folding in 1..3 {
        assert_four::<_, PrefixFirst>(&rt, rt.alloc(), folding);
        assert_four::<_, SuffixFirst>(&rt, rt.alloc(), folding);
    }
}

// Nothing is asked for, and a point is drawn all the same.
#[test]
fn an_opening_of_nothing(rt: HostRuntime) {
    let alloc = rt.alloc();
    let table = four(alloc).expect(&rt, "a table");
    let mut prover = TableProver::<F65537, F65537, PrefixFirst>::new(alloc, table, 1);
    let mut challenger = scripted::<F65537>(alloc, &[2, 3], &[]).expect(&rt, "a challenger");
    let asked = request(alloc, 0, 0).expect(&rt, "a request");
    let evals = prover
        .eval(0, &asked, &mut challenger)
        .expect(&rt, "values");
    assert!(&rt;
        are(&evals, &[], &[])
            && challenger.events().len() == 2
            && prover.claims().sum(of(10)).index() == 0
    );
}
