//! What is recorded of a table, in order.
ghost use Rattle.std.specs.Prelude.{◌≡◌, ◌+◌, ◌*◌, ◌^◌, ◌<◌, ◌≤◌, [], ◌∷◌, ◌++◌};
ghost use Rattle.std.specs.Prelude.{IfOk, OnOk, OnErr, ℕ, length, map};
ghost use Rattle.sc_definitions.specs.Ring.{power};
ghost use Rattle.sc_definitions.specs.Statements.{batched_claim};
ghost use Rattle.sc_definitions.specs.Combined.{scaled_from};
ghost use Rattle.sc_definitions.specs.Transcript.{sent};
ghost use Rattle.sc_challenger.specs.Parties.{MayAppend};
ghost use Rattle.sc_table.specs.Polys.{variables_of, table_of};
ghost use Rattle.sc_table.specs.Strategy.{order_of};
ghost use Rattle.sc_layout.specs.Openings.{statements_of};
ghost use Rattle.sc_layout.specs.Openings.{none_recorded, HaveArity};
ghost use Rattle.sc_definitions.specs.Statements.{claims};
ghost use Rattle.sc_svo.specs.Claims.{claims_in, AreOn};
ghost use Rattle.sc_layout.specs.Openings.{current_at};
ghost use Rattle.sc_layout.specs.Books.{prover_recorded};

use crate::drawn::observe_opening;
use crate::multi_claim::ProverMultiClaim;
use crate::opened_claim::OpenedClaim;
use crate::request::OpeningEvals;
use crate::scaled::ScaledClaims;
use crate::sums::BatchedSum;
use sc_challenger::{Challenger, observe_ext};
use sc_field::{ExtensionField, Field, NoMemory, with_room};
use sc_statements::Claim;
use sc_svo::{SvoBatch, SvoClaim};
use sc_table::{Point, Poly, VariableOrder};
use std::alloc::Global;

/// A value at a point that was drawn for it alone.
pub type ProverVirtualClaim<EF> = Claim<EF, Point<EF>, ()>;

/// What is recorded of a table: concrete claims, each of the values that were opened at one point,
/// and virtual ones. All statements are those of the concrete claims in order, in each the current
/// values before the next ones, and then the virtual ones.
#[derive(Drop)]
pub struct Book<M, EF: Field> {
    concrete: Vec<M>,
    virtual_claims: Vec<ProverVirtualClaim<EF>>,
}

/// What a prover has recorded.
pub type ClaimBook<F, EF> = Book<ProverMultiClaim<F, EF>, EF>;

impl<M: OpenedClaim<EF>, EF: Field> Book<M, EF> {
    ghost use Rattle.sc_layout.specs.Books.{concrete_in, recorded_by, virtual_statements};
    ghost use Rattle.sc_layout.specs.Books.{GainsConcrete, GainsVirtual};

    /// No claims yet.
    pub(crate) fn new(alloc: Global) -> Self
        ensures none { concrete_in result ≡ [] }
        ensures recorded { recorded_by M.opened EF.number result ≡ none_recorded }
    {
        Book {
            concrete: Vec::new(alloc),
            virtual_claims: Vec::new(alloc),
        }
    }

    /// The concrete claims, in order.
    pub fn concrete_claims(&self) -> &[M]
        ensures items { result.now ≡ concrete_in self.now }
        ensures opened { map M.opened result.now
            ≡ (recorded_by M.opened EF.number self.now).concrete }
    {
        &self.concrete
    }

    /// The virtual claims, in order.
    pub fn virtual_claims(&self) -> &[ProverVirtualClaim<EF>]
        ensures { virtual_statements EF.number result.now
            ≡ (recorded_by M.opened EF.number self.now).virtual }
    {
        &self.virtual_claims
    }

    /// The batch of all claimed values: that of statement number i is multiplied by `alpha` to the
    /// power i.
    pub fn sum(&self, alpha: EF) -> EF
        ensures { EF.number result ≡ batched_claim EF.ops (EF.number alpha) 0
            (statements_of (recorded_by M.opened EF.number self.now)) }
    {
        let mut batch = BatchedSum::new(alpha);
        for claim in &self.concrete {
            batch = claim.add_to(batch);
        }
        batch.with_claims(&self.virtual_claims).sum()
    }
}

impl<M: OpenedClaim<EF>, EF: Field> Book<M, EF> {
    ghost use Rattle.sc_layout.specs.Books.{concrete_in, recorded_by, virtual_statements};
    ghost use Rattle.sc_layout.specs.Books.{GainsConcrete, GainsVirtual};

    // Observes the values of a claim, and records it after the others. A refusal leaves the history
    // and the book as they were.
    pub(crate) fn add_concrete<F: Field, C: Challenger<F>>(
        &mut self,
        challenger: &mut C,
        claim: M,
        evals: &OpeningEvals<EF>,
    ) -> Result<(), NoMemory>
    where
        EF: ExtensionField<F>,
        requires current { map EF.number evals.now.current ≡ (M.opened claim).current }
        requires next { map EF.number evals.now.next ≡ (M.opened claim).next }
        ensures left { MayAppend (sent EF.extension
            ((M.opened claim).current ++ (M.opened claim).next))
            ((length evals.now.current + length evals.now.next) * EF.DEGREE)
            (C.party challenger.old) (C.party challenger.new) result }
        ensures gains { OnOk result (GainsConcrete (M.opened claim)
            (recorded_by M.opened EF.number self.old) (recorded_by M.opened EF.number self.new)) }
        ensures kept { OnErr result (recorded_by M.opened EF.number self.new
            ≡ recorded_by M.opened EF.number self.old) }
        ensures last { OnOk result (concrete_in self.new ≡ concrete_in self.old ++ claim ∷ []) }
        ensures all { OnErr result (concrete_in self.new ≡ concrete_in self.old) }
    {
        self.concrete.reserve(1)?;
        observe_opening::<F, EF, C>(challenger, evals.current.as_slice(), evals.next.as_slice())?;
        self.concrete.push_reserved(claim);
        Ok(())
    }

    // Observes a value at a point, and records it after the other virtual claims. A refusal leaves
    // the history and the book as they were.
    pub(crate) fn add_virtual<F: Field, C: Challenger<F>>(
        &mut self,
        challenger: &mut C,
        point: Point<EF>,
        value: EF,
    ) -> Result<(), NoMemory>
    where
        EF: ExtensionField<F>,
        ensures left { MayAppend (sent EF.extension (EF.number value ∷ [])) EF.DEGREE
            (C.party challenger.old) (C.party challenger.new) result }
        ensures gains { OnOk result (GainsVirtual
            (claims (current_at (map EF.number point)) (EF.number value))
            (recorded_by M.opened EF.number self.old) (recorded_by M.opened EF.number self.new)) }
        ensures kept { OnErr result (recorded_by M.opened EF.number self.new
            ≡ recorded_by M.opened EF.number self.old) }
        ensures all { concrete_in self.new ≡ concrete_in self.old }
    {
        self.virtual_claims.reserve(1)?;
        observe_ext::<F, EF, C>(challenger, value)?;
        self.virtual_claims
            .push_reserved(Claim::new(point, value, ()));
        Ok(())
    }
}

impl<F: Field, EF: ExtensionField<F>> Book<ProverMultiClaim<F, EF>, EF> {
    ghost use Rattle.sc_svo.specs.Batches.{batch_in, IsMadeOn};

    /// The small-value batch of all openings on a table: that of statement number i is multiplied
    /// by `alpha` to the power i. It takes a pass or two over the table for each opening.
    ///
    /// # Conditions
    ///
    /// The claims have the table's number of variables, which is at most 40. `folding` rounds are
    /// built from grids: at least one, and at most 12 and that number.
    pub fn batched_accumulators(
        &self,
        alloc: Global,
        table: &Poly<F>,
        order: VariableOrder,
        folding: usize,
        alpha: EF,
    ) -> Result<SvoBatch<F, EF>, NoMemory>
        requires some { 1 ≤ folding }
        requires few { folding ≤ 12 }
        requires within { folding ≤ variables_of table.now }
        requires variables { variables_of table.now ≤ 40 }
        requires arity { HaveArity (variables_of table.now)
            (statements_of (prover_recorded self.now)) }
        ensures made { IfOk result (λ s. IsMadeOn EF.ops (order_of order)
            (λ b. EF.embedding (table_of F.number table.now b)) (2 ^ variables_of table.now)
            (scaled_from EF.ops (EF.number alpha) 0 (statements_of (prover_recorded self.now)))
            folding (batch_in s)) }
    {
        let claims = scaled_claims(alloc, self, alpha)?;
        SvoBatch::new(alloc, order, table, &claims, folding)
    }
}

// All openings of a book as claims of a small-value batch.
fn scaled_claims<F: Field, EF: ExtensionField<F>>(
    alloc: Global,
    book: &ClaimBook<F, EF>,
    alpha: EF,
) -> Result<Vec<SvoClaim<EF>>, NoMemory>
    ensures claims { IfOk result (λ v. claims_in EF.number v.items ≡ scaled_from EF.ops
        (EF.number alpha) 0 (statements_of (prover_recorded book.now))) }
    ensures on { (n : ℕ) → HaveArity n (statements_of (prover_recorded book.now))
        → IfOk result (λ v. AreOn n v.items) }
{
    let mut scaled = ScaledClaims::new(alloc, alpha);
    for claim in &book.concrete {
        scaled.push_opened(alloc, claim)?;
    }
    for virtual_claim in &book.virtual_claims {
        scaled.push(alloc, virtual_claim.point(), false)?;
    }
    Ok(scaled.claims)
}
