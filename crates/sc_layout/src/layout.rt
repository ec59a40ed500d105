//! What a layout is.
ghost use Rattle.std.specs.Prelude.{◌≡◌, ◌≤◌, ℕ, IfOk, OnErr};
ghost use Rattle.sc_table.specs.Polys.{variables_of, table_of};
ghost use Rattle.sc_table.specs.Strategy.{order_of};

use crate::book::ClaimBook;
use crate::request::{OpeningEvals, OpeningRequest};
use sc_challenger::Challenger;
use sc_field::{ExtensionField, Field, NoMemory};
use sc_table::{Poly, VariableOrder};

/// A table of one column that is opened at drawn points, with what was answered of it.
///
/// No call changes the table, the order or the folding. All that is recorded is true of the table.
pub trait Layout<F: Field, EF: ExtensionField<F>>: Drop {
    ghost use Rattle.sc_layout.specs.Openings.{Laid, IsSound, KeepsTable, laid_at};
    ghost use Rattle.sc_layout.specs.Openings.{Opens, OpensVirtual, OpensNothing};
    ghost use Rattle.sc_layout.specs.Openings.{HaveArity, statements_of};
    ghost use Rattle.sc_layout.specs.Requests.{asked_in, values_in};
    ghost use Rattle.sc_layout.specs.Books.{concrete_in, prover_recorded};
    ghost use Rattle.sc_layout.specs.Kept.{AllKeep};

    // What it shows of the table, and of what is recorded.
    ghost laid: { Self → Laid };

    /// How many variables the table has: at most 40.
    fn num_variables(&self) -> usize
        ensures is { result ≡ (laid self.now).variables }
        ensures few { result ≤ 40 };

    /// How many of them small-value rounds bind: at least one, and at most 12.
    fn folding(&self) -> usize
        ensures is { result ≡ (laid self.now).folding }
        ensures some { 1 ≤ result }
        ensures few { result ≤ 12 }
        ensures within { result ≤ (laid self.now).variables };

    /// In which order rounds bind them.
    fn order(&self) -> VariableOrder
        ensures { order_of result ≡ (laid self.now).order };

    /// The table.
    fn table(&self) -> &Poly<F>
        ensures variables { variables_of result.now ≡ (laid self.now).variables }
        ensures rows { (λ b. EF.embedding (table_of F.number result.now b))
            ≡ (laid self.now).rows };

    /// What is recorded: each claim is on the table, and each concrete one keeps the partial tables
    /// by which its values were made, for as many rounds as the folding.
    fn claims(&self) -> &ClaimBook<F, EF>
        ensures recorded { prover_recorded result.now ≡ (laid self.now).recorded }
        ensures arity { HaveArity (laid self.now).variables
            (statements_of (prover_recorded result.now)) }
        ensures kept { AllKeep EF.ops (laid self.now) (concrete_in result.now) };

    /// Opens the columns of a request at a point that is drawn: answers and observes the values
    /// there and those through the successor map, and records them as one concrete claim, after
    /// the others. The table's index is 0.
    ///
    /// # Errors
    ///
    /// [`NoMemory`] alone: nothing is recorded, and the history is as it was, or ends after the
    /// point.
    fn eval<C: Challenger<F>>(
        &mut self,
        table_idx: usize,
        batch: &OpeningRequest,
        challenger: &mut C,
    ) -> Result<OpeningEvals<EF>, NoMemory>
        requires table { table_idx ≡ 0 }
        ensures rules { (C.party challenger.new).rules ≡ (C.party challenger.old).rules }
        ensures kept { KeepsTable (laid self.old) (laid self.new) }
        ensures opens { IfOk result (λ v. Opens EF.ops EF.extension (asked_in batch.now)
            (values_in EF.number v) (laid_at (C.party challenger.old) (laid self.old))
            (laid_at (C.party challenger.new) (laid self.new))) }
        ensures refused { OnErr result (OpensNothing EF.extension
            (laid_at (C.party challenger.old) (laid self.old))
            (laid_at (C.party challenger.new) (laid self.new))) };

    /// Draws a point, answers and observes the table's value there, and records it as a virtual
    /// claim, after the others.
    ///
    /// # Errors
    ///
    /// [`NoMemory`] alone: nothing is recorded, and the history is as it was, or ends after the
    /// point.
    fn add_virtual_eval<C: Challenger<F>>(&mut self, challenger: &mut C) -> Result<EF, NoMemory>
        ensures rules { (C.party challenger.new).rules ≡ (C.party challenger.old).rules }
        ensures kept { KeepsTable (laid self.old) (laid self.new) }
        ensures opens { IfOk result (λ v. OpensVirtual EF.ops EF.extension (EF.number v)
            (laid_at (C.party challenger.old) (laid self.old))
            (laid_at (C.party challenger.new) (laid self.new))) }
        ensures refused { OnErr result (OpensNothing EF.extension
            (laid_at (C.party challenger.old) (laid self.old))
            (laid_at (C.party challenger.new) (laid self.new))) };

    ghost sound: { (s : Self) → IsSound EF.ops (laid s) };
}
