//! `audit` from Rust: rounds that are built hold, and with one value changed they are refuted.
#![tactic(auto)]

use sc_audit::{Job, Mode, Strategy, audit};
use sc_challenger::HashChallenger;
use sc_constraints::{Constraint, EqStatement, Statements};
use sc_field::{Field, NoMemory};
use sc_small_fields::F65537 as F;
use sc_table::{Basis, Point, VariableOrder};
use std::alloc::Global;

type Hash = HashChallenger<F>;

fn main(rt: HostRuntime) -> anyhow::Result<()> {
    let alloc = rt.alloc();
    let table = vec![in alloc; F::ONE, F::element(2), F::element(3), F::element(4)]?;
    let mut job = build(table, value_at(alloc, F::ZERO, F::ONE, F::element(2))?);
    let mut report = audit::<F, F, F, Hash>(alloc, &job, &mut Hash::new(alloc))?;
    println!(rt; "as built: {}", report.verdict)?;
    if let Some(round) = report.rounds.polynomial_evaluations.first_mut() {
        round.c_a = F::ZERO;
    }
    job.mode = Mode::Check(Some(report.rounds));
    let report = audit::<F, F, F, Hash>(alloc, &job, &mut Hash::new(alloc))?;
    println!(rt; "with one value changed: {}", report.verdict)?;
    Ok(())
}

// The claim that a table of two variables has this value at the point (x, y).
fn value_at(alloc: Global, x: F, y: F, value: F) -> Result<Constraint<F, F>, NoMemory> {
    let mut statements = EqStatement::initialize(alloc, 2);
    statements.add_evaluated_constraint(Point::new(vec![in alloc; x, y]?), value)?;
    let groups = vec![in alloc; Statements::Eq(statements)]?;
    Ok(Constraint::new(F::ONE, 2, groups))
}

// The job to build the rounds of these statements, the first variable first, without tests.
fn build(table: Vec<F>, constraint: Constraint<F, F>) -> Job<F, F> {
    Job {
        table,
        constraint,
        order: VariableOrder::Prefix,
        basis: Basis::Evaluation,
        pow_bits: 0,
        mode: Mode::Build(Strategy::Plain),
    }
}
