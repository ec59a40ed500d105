//! What is asked.
ghost use Rattle.sc_jobs.specs.Over.{IsOver};

use sc_constraints::Constraint;
use sc_field::{ExtensionField, Field};
use sc_table::VariableOrder;

/// A table with statements on it, and the masks that rounds on it are played under.
#[derive(Drop)]
pub struct MaskedJob<F: Field, EF: ExtensionField<F>> {
    /// The table, row 0 first; the first variable belongs to the highest bit of a row.
    pub table: Vec<F>,
    /// The statements, with the challenge that batches them.
    pub constraint: Constraint<F, EF>,
    /// Which variable a round binds.
    pub order: VariableOrder,
    /// The difficulty of each round's test in bits, or 0 for no test.
    pub pow_bits: usize,
    /// The masks, one for each round, by their coefficients, the constant first.
    pub masks: Vec<Vec<EF>>,
    /// What each mask is encoded with.
    pub randomness: Vec<Vec<EF>>,
    /// What is added to the batched claim, and carried through the rounds.
    pub aux: EF,
    // It says nothing but which fields the job is over, so that contracts need not say it again.
    ghost over: { IsOver F.number EF.number EF.embedding EF.extension },
}
