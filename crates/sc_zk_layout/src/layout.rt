//! What a masked prover reads of a layout, and what its rounds leave.
ghost use Rattle.std.specs.Prelude.{◌≡◌, IfOk, length, map};
ghost use Rattle.sc_definitions.specs.Statements.{batched_claim};
ghost use Rattle.sc_layout.specs.Openings.{statements_of};
ghost use Rattle.sc_layout.specs.Claimed.{prover_opened};
ghost use Rattle.sc_layout.specs.Books.{virtual_statements};
ghost use Rattle.sc_layout.specs.Kept.{AllKeep};
ghost use Rattle.sc_zk_layout.specs.Grids.{IsScaledPair};
ghost use Rattle.sc_zk_layout.specs.Recorded.{laid_after};

use crate::scaled::scaled_pair;
use sc_field::{ExtensionField, Field, NoMemory};
use sc_layout::{BindingOrder, Layout, ProverMultiClaim, ProverVirtualClaim, TableProver};
use sc_rounds::ProductPolynomial;
use sc_table::Point;
use std::alloc::Global;

/// A layout, as a prover of masked rounds reads it: its claims, their batch, and the two tables
/// that its rounds leave.
pub trait ZkLayout<F: Field, EF: ExtensionField<F>>: Layout<F, EF> {
    /// The concrete claims, in order, each with the partial tables by which its values were made.
    fn concrete_claims(&self) -> &[ProverMultiClaim<F, EF>]
        ensures opened { map prover_opened result.now ≡ (Self.laid self.now).recorded.concrete }
        ensures kept { AllKeep EF.ops (Self.laid self.now) result.now };

    /// The virtual claims, in order.
    fn virtual_claims(&self) -> &[ProverVirtualClaim<EF>]
        ensures { virtual_statements EF.number result.now
            ≡ (Self.laid self.now).recorded.virtual };

    /// The batch of all claimed values: that of statement number i is multiplied by `alpha` to the
    /// power i.
    fn batched_sum(&self, alpha: EF) -> EF
        ensures { EF.number result ≡ batched_claim EF.ops (EF.number alpha) 0
            (statements_of (Self.laid self.now).recorded) };

    /// What the rounds of all that is recorded leave: the table and the weights, batched under
    /// `alpha`, with the challenges placed, of which there are as many as the folding, in drawing
    /// order. One side is times `eps`: the weights in prefix order, the evaluations in suffix
    /// order.
    ///
    /// # Errors
    ///
    /// [`NoMemory`] alone.
    fn zk_residual_handoff(
        self,
        alloc: Global,
        rs: &Point<EF>,
        alpha: EF,
        eps: EF,
    ) -> Result<ProductPolynomial<F, EF>, NoMemory>
        requires { length rs.now ≡ (Self.laid self).folding }
        ensures { IfOk result (IsScaledPair EF.number EF.ops
            (laid_after EF.ops (Self.laid self) (EF.number alpha) (map EF.number rs.now))
            (EF.number eps)) };
}

impl<F: Field, EF: ExtensionField<F>, O: BindingOrder> ZkLayout<F, EF> for TableProver<F, EF, O> {
    ghost use Rattle.sc_layout.specs.Provers.{laid_by};

    fn concrete_claims(&self) -> &[ProverMultiClaim<F, EF>] {
        self.claims().concrete_claims()
    }

    fn virtual_claims(&self) -> &[ProverVirtualClaim<EF>] {
        self.claims().virtual_claims()
    }

    fn batched_sum(&self, alpha: EF) -> EF {
        self.claims().sum(alpha)
    }

    fn zk_residual_handoff(
        self,
        alloc: Global,
        rs: &Point<EF>,
        alpha: EF,
        eps: EF,
    ) -> Result<ProductPolynomial<F, EF>, NoMemory>
        requires { length rs.now ≡ (laid_by self).folding }
        ensures { IfOk result (IsScaledPair EF.number EF.ops
            (laid_after EF.ops (laid_by self) (EF.number alpha) (map EF.number rs.now))
            (EF.number eps)) }
    {
        let (table, order) = (self.table(), self.order());
        let batch = self
            .claims()
            .batched_accumulators(alloc, table, order, self.folding(), alpha)?;
        let (evals, weights) = batch.residual(alloc, table, rs.as_slice())?;
        Ok(scaled_pair(order, evals, weights, eps))
    }
}
