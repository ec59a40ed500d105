//! The verifier's side: what it records, and what it refuses.

use super::request;
use sc_challenger::{Event, ScriptedChallenger};
use sc_field::{Field, NoMemory};
use sc_layout::{LayoutStrategy, OpeningEvals, TableShape, Verifier};
use sc_small_fields::F65537;
use sc_table::VariableOrder;
use sc_tests_common::{elements, of, scripted};
use sc_transcript::SumcheckError;
use std::alloc::Global;
use std::process::Abort;

// A verifier of a table of one variable.
fn of_two(alloc: Global, order: VariableOrder) -> Verifier<F65537, F65537> {
    let shape = TableShape::new(1);
    Verifier::new(alloc, &[shape][..], LayoutStrategy::new(order))
}

fn values(alloc: Global, current: &[u64], next: &[u64]) -> Result<OpeningEvals<F65537>, NoMemory> {
    Ok(OpeningEvals::new(elements(alloc, current)?, elements(alloc, next)?))
}

// The verifier records what came, whatever it is; the history is that of a prover.
fn assert_recorded<A: Abort>(rt: &A, alloc: Global, order: VariableOrder) {
    let mut verifier = of_two(alloc, order);
    let mut challenger = scripted::<F65537>(alloc, &[3, 4], &[]).expect(rt, "a challenger");
    let asked = request(alloc, 1, 1).expect(rt, "a request");
    let came = values(alloc, &[4], &[2]).expect(rt, "values");
    verifier
        .add_claim(0, &asked, &came, &mut challenger)
        .expect(rt, "a claim");
    verifier
        .add_virtual_eval(of(5), &mut challenger)
        .expect(rt, "a claim");
    assert!(rt; verifier.sum(of(10)).index() == 524);
    let events = [
        Event::Draw,
        Event::Word(4),
        Event::Word(2),
        Event::Draw,
        Event::Word(5),
    ];
    assert!(rt;
        challenger.events() == &events[..] && verifier.strategy() == LayoutStrategy::new(order)
    );
}

#[test]
fn claims_are_recorded(rt: HostRuntime) {
    assert_recorded(&rt, rt.alloc(), VariableOrder::Prefix);
    assert_recorded(&rt, rt.alloc(), VariableOrder::Suffix);
    assert!(&rt; TableShape::new(1).num_variables() == 1);
}

// Values that came with a request for one of each, and the counts that came.
static MISSHAPEN: [(&[u64], &[u64]); 4] = [(&[4], &[]), (&[4, 4], &[2]), (&[], &[2]), (&[], &[])];

fn assert_misshapen<A: Abort>(rt: &A, alloc: Global, order: VariableOrder) {
    let mut verifier = of_two(alloc, order);
    let mut challenger = scripted::<F65537>(alloc, &[3, 4], &[]).expect(rt, "a challenger");
    let asked = request(alloc, 1, 1).expect(rt, "a request");
    for (current, next) in &MISSHAPEN {
        let came = values(alloc, current, next).expect(rt, "values");
        let refused = verifier
            .add_claim(0, &asked, &came, &mut challenger)
            .expect_err(rt, "a refusal");
        assert!(rt;
            refused
                == SumcheckError::OpeningShapeMismatch {
                    table_idx: 0,
                    expected_current: 1,
                    expected_next: 1,
                    actual_current: current.len(),
                    actual_next: next.len(),
                }
        );
    }
    assert!(rt; challenger.events().len() == 0 && verifier.sum(of(10)).index() == 0);
}

#[test]
fn misshapen_claims_are_refused(rt: HostRuntime) {
    assert_misshapen(&rt, rt.alloc(), VariableOrder::Prefix);
    assert_misshapen(&rt, rt.alloc(), VariableOrder::Suffix);
}
