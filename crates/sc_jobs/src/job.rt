//! What is asked.
ghost use Rattle.sc_jobs.specs.Over.{IsOver};

use sc_constraints::Constraint;
use sc_field::{ExtensionField, Field};
use sc_table::{Basis, Strategy, VariableOrder};
use sc_transcript::SumcheckData;

/// What is done with a table and its statements.
#[derive(Drop)]
pub enum Mode<F, EF> {
    /// The rounds are built. Each statement has to be true of the table, and the strategy has to
    /// fit the statements.
    Build(Strategy),
    /// The rounds of a proof are checked. A table without a variable needs no proof.
    Check(Option<SumcheckData<F, EF>>),
}

/// A table, statements on it, and what is done with them.
#[derive(Drop)]
pub struct Job<F: Field, EF: ExtensionField<F>> {
    /// The table, row 0 first; the first variable belongs to the highest bit of a row.
    pub table: Vec<F>,
    /// The statements, with the challenge that batches them.
    pub constraint: Constraint<F, EF>,
    /// Which variable a round binds.
    pub order: VariableOrder,
    /// What the entries of the table and of the statements' weights are: values at the rows, or
    /// coefficients of the monomials that the rows name.
    pub basis: Basis,
    /// The difficulty of each round's test in bits, or 0 for no test.
    pub pow_bits: usize,
    /// What is done.
    pub mode: Mode<F, EF>,
    // It says nothing but which fields the job is over, so that contracts need not say it again.
    ghost over: { IsOver F.number EF.number EF.embedding EF.extension },
}
