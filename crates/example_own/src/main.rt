//! `audit` with a field and a challenger of one's own.
#![tactic(auto)]

mod challenger;
mod field;

use challenger::Counting;
use field::F31;
use sc_audit::{Job, Mode, Strategy, audit};
use sc_constraints::{Constraint, EqStatement, Statements};
use sc_field::{Field, NoMemory};
use sc_table::{Basis, Point, VariableOrder};
use std::alloc::Global;

fn main(rt: HostRuntime) -> anyhow::Result<()> {
    let alloc = rt.alloc();
    let job = job(alloc)?;
    let report = audit::<F31, F31, F31, Counting>(alloc, &job, &mut Counting::new(alloc))?;
    println!(rt; "the verdict {}", report.verdict)?;
    Ok(())
}

// The table 1, 2, 3, 4 with the claim that its value at (0, 1) is 2, and a test in each round.
fn job(alloc: Global) -> Result<Job<F31, F31>, NoMemory> {
    let mut statements = EqStatement::initialize(alloc, 2);
    let point = Point::new(vec![in alloc; F31::ZERO, F31::ONE]?);
    statements.add_evaluated_constraint(point, F31::element(2))?;
    let groups = vec![in alloc; Statements::Eq(statements)]?;
    Ok(Job {
        table: vec![in alloc; F31::ONE, F31::element(2), F31::element(3), F31::element(4)]?,
        constraint: Constraint::new(F31::ONE, 2, groups),
        order: VariableOrder::Prefix,
        basis: Basis::Evaluation,
        pow_bits: 8,
        mode: Mode::Build(Strategy::Plain),
    })
}
