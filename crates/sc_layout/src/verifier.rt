//! The side that has no table: it records what is claimed.
ghost use Rattle.std.specs.Prelude.{◌≡◌, ◌≤◌, ◌+◌, ◌*◌, [], ◌∷◌};
ghost use Rattle.std.specs.Prelude.{All, IfOk, OnOk, OnErr, length, map};
ghost use Rattle.sc_definitions.specs.Statements.{batched_claim};
ghost use Rattle.sc_layout.specs.Shapes.{shape_variables};
ghost use Rattle.sc_layout.specs.Requests.{asked_in, values_in, counts};
ghost use Rattle.sc_layout.specs.Counted.{TestsCounts};
ghost use Rattle.sc_layout.specs.Openings.{none_recorded, statements_of};
ghost use Rattle.sc_layout.specs.Openings.{AddsVirtual, AddsNothing};

use crate::book::Book;
use crate::drawn::draw_point;
use crate::opened_claim::VerifierMultiClaim;
use crate::request::{OpeningEvals, OpeningRequest};
use crate::shape::{LayoutStrategy, TableShape};
use sc_challenger::Challenger;
use sc_field::{ExtensionField, Field, NoMemory};
use sc_transcript::SumcheckError;
use std::alloc::Global;
use std::marker::PhantomData;

/// What a verifier records of a table that it does not have.
#[derive(Drop)]
pub struct Verifier<F, EF: Field> {
    alloc: Global,
    strategy: LayoutStrategy,
    variables: usize,
    claims: Book<VerifierMultiClaim<EF>, EF>,
    of: PhantomData<F>,
    ghost few: { variables ≤ 40 },
}

impl<F: Field, EF: ExtensionField<F>> Verifier<F, EF> {
    ghost use Rattle.sc_layout.specs.Verifiers.{told_in, LeavesClaim, KeepsShape};
    ghost use Rattle.sc_layout.specs.Verifiers.{taking_by, opening_state_at};

    /// The verifier of one table of this shape, of at most 40 variables, under this strategy: it
    /// has no claims yet.
    pub fn new(alloc: Global, table_shapes: &[TableShape], strategy: LayoutStrategy) -> Self
        requires one { length table_shapes.now ≡ 1 }
        requires few { All (λ s. shape_variables s ≤ 40) table_shapes.now }
        ensures strategy { (told_in result).strategy ≡ strategy }
        ensures variables { All (λ s. (told_in result).variables ≡ shape_variables s)
            table_shapes.now }
        ensures recorded { (told_in result).recorded ≡ none_recorded }
    {
        Verifier {
            alloc,
            strategy,
            variables: table_shapes[0].num_variables(),
            claims: Book::new(alloc),
            of: PhantomData,
        }
    }

    /// The strategy.
    pub fn strategy(&self) -> LayoutStrategy
        ensures { result ≡ (told_in self.now).strategy }
    {
        self.strategy
    }

    /// Draws the point of an opening, observes the values that came, and records them as a concrete
    /// claim, after the others. The table's index is 0.
    ///
    /// # Errors
    ///
    /// `OpeningShapeMismatch` comes exactly where another number of current or of next values came
    /// than was asked for; it comes before any event, and nothing is changed. After `NoMemory`
    /// nothing is recorded, and the history is as it was, or ends after the point.
    pub fn add_claim<C: Challenger<F>>(
        &mut self,
        table_idx: usize,
        batch: &OpeningRequest,
        evals: &OpeningEvals<EF>,
        challenger: &mut C,
    ) -> Result<(), SumcheckError>
        requires table { table_idx ≡ 0 }
        ensures rules { (C.party challenger.new).rules ≡ (C.party challenger.old).rules }
        ensures kept { KeepsShape (told_in self.old) (told_in self.new) }
        ensures left { LeavesClaim
            (taking_by (C.party challenger.old) EF.extension (told_in self.old))
            (asked_in batch.now) (values_in EF.number evals.now)
            (opening_state_at (C.party challenger.old) (told_in self.old))
            (opening_state_at (C.party challenger.new) (told_in self.new)) result }
    {
        check_counts(table_idx, batch, evals)?;
        let kept = evals.copy(self.alloc)?;
        let point = draw_point::<F, EF, C>(self.alloc, challenger, self.variables)?;
        let claim = VerifierMultiClaim { point, evals: kept };
        self.claims.add_concrete::<F, C>(challenger, claim, evals)?;
        Ok(())
    }

    /// Draws a point, observes the value that is claimed there, and records it as a virtual claim,
    /// after the others.
    ///
    /// # Errors
    ///
    /// [`NoMemory`] alone: nothing is recorded, and the history is as it was, or ends after the
    /// point.
    pub fn add_virtual_eval<C: Challenger<F>>(
        &mut self,
        eval: EF,
        challenger: &mut C,
    ) -> Result<(), NoMemory>
        ensures rules { (C.party challenger.new).rules ≡ (C.party challenger.old).rules }
        ensures kept { KeepsShape (told_in self.old) (told_in self.new) }
        ensures adds { OnOk result (AddsVirtual
            (taking_by (C.party challenger.old) EF.extension (told_in self.old)) (EF.number eval)
            (opening_state_at (C.party challenger.old) (told_in self.old))
            (opening_state_at (C.party challenger.new) (told_in self.new))) }
        ensures refused { OnErr result (AddsNothing
            (taking_by (C.party challenger.old) EF.extension (told_in self.old))
            (opening_state_at (C.party challenger.old) (told_in self.old))
            (opening_state_at (C.party challenger.new) (told_in self.new))) }
    {
        let point = draw_point::<F, EF, C>(self.alloc, challenger, self.variables)?;
        self.claims.add_virtual::<F, C>(challenger, point, eval)
    }

    /// The batch of all claimed values: that of statement number i is multiplied by `alpha` to the
    /// power i.
    pub fn sum(&self, alpha: EF) -> EF
        ensures { EF.number result ≡ batched_claim EF.ops (EF.number alpha) 0
            (statements_of (told_in self.now).recorded) }
    {
        self.claims.sum(alpha)
    }
}

// Whether as many values came as were asked for.
fn check_counts<EF>(
    table_idx: usize,
    batch: &OpeningRequest,
    evals: &OpeningEvals<EF>,
) -> Result<(), SumcheckError>
    ensures { TestsCounts table_idx (asked_in batch.now)
        (counts (length evals.now.current) (length evals.now.next)) result }
{
    let (expected_current, expected_next) = (batch.current().len(), batch.next().len());
    let (actual_current, actual_next) = (evals.current.len(), evals.next.len());
    if expected_current == actual_current && expected_next == actual_next {
        return Ok(());
    }
    Err(SumcheckError::OpeningShapeMismatch {
        table_idx,
        expected_current,
        expected_next,
        actual_current,
        actual_next,
    })
}
