//! Plain rounds that are read off grids.
ghost use Rattle.std.specs.Prelude.{◌≡◌, ◌≤◌, ◌+◌, ◌<◌, [], ◌∷◌};
ghost use Rattle.std.specs.Prelude.{IfOk, length, map, vec_capacity, None};
ghost use Rattle.sc_definitions.specs.ProverViews.{IsTrueClaim};
ghost use Rattle.sc_table.specs.Polys.{variables_of, table_of};
ghost use Rattle.sc_table.specs.Strategy.{order_of};
ghost use Rattle.sc_rounds.specs.ProverViews.{shown_by, stored_by};
ghost use Rattle.sc_svo.specs.Batches.{batch_in, IsTableOf};
ghost use Rattle.sc_zk_layout.specs.Grids.{shown_after, grid_claim, with_side_scaled};

use crate::scaled::scaled_prover;
use sc_field::{ExtensionField, Field, NoMemory, with_room};
use sc_rounds::SumcheckProver;
use sc_svo::SvoBatch;
use sc_table::{Basis, Poly, RoundMessage, VariableOrder};
use sc_zk_rounds::plain::PlainRounds;
use std::alloc::Global;

/// The rounds of a small-value batch on a table, whose messages are read off its grids: no table is
/// bound before all of them are played.
#[derive(Drop)]
pub struct GridRounds<'a, F: Field, EF: ExtensionField<F>> {
    order: VariableOrder,
    table: &'a Poly<F>,
    batch: SvoBatch<F, EF>,
    challenges: Vec<EF>,
    claim: EF,
    ghost ordered: { order_of order ≡ (batch_in batch).order },
    ghost arity: { variables_of table.now ≡ (batch_in batch).variables },
    ghost of: { IsTableOf EF.ops (batch_in batch)
        (λ b. EF.embedding (table_of F.number table.now b)) },
    ghost within: { length (batch_in batch).grids ≤ (batch_in batch).variables },
    ghost played: { length challenges.items ≤ length (batch_in batch).grids },
    ghost room: { length (batch_in batch).grids ≤ vec_capacity challenges },
    ghost honest: { IsTrueClaim EF.ops (shown_after EF.ops (batch_in batch)
        (λ b. EF.embedding (table_of F.number table.now b)) (map EF.number challenges.items)
        (EF.number claim)) },
}

impl<'a, F: Field, EF: ExtensionField<F>> GridRounds<'a, F, EF> {
    ghost use Rattle.sc_zk_layout.specs.Played.{rounds_show, rounds_left};

    /// The rounds of a batch on the table that it was made on, of a claim that is true.
    ///
    /// # Errors
    ///
    /// [`NoMemory`] alone.
    pub fn new(
        alloc: Global,
        order: VariableOrder,
        table: &'a Poly<F>,
        batch: SvoBatch<F, EF>,
        claim: EF,
    ) -> Result<Self, NoMemory>
        requires ordered { order_of order ≡ (batch_in batch).order }
        requires arity { variables_of table.now ≡ (batch_in batch).variables }
        requires of { IsTableOf EF.ops (batch_in batch)
            (λ b. EF.embedding (table_of F.number table.now b)) }
        requires within { length (batch_in batch).grids ≤ (batch_in batch).variables }
        requires honest { EF.number claim ≡ grid_claim EF.ops (batch_in batch)
            (λ b. EF.embedding (table_of F.number table.now b)) }
        ensures shown { IfOk result (λ s. rounds_show s ≡ shown_after EF.ops (batch_in batch)
            (λ b. EF.embedding (table_of F.number table.now b)) [] (EF.number claim)) }
        ensures left { IfOk result (λ s. rounds_left s ≡ length (batch_in batch).grids) }
    {
        Ok(GridRounds {
            order,
            table,
            challenges: with_room(alloc, batch.grids().rounds.len())?,
            batch,
            claim,
        })
    }

    /// What all rounds leave, of which none is left to play: a prover of both tables with the
    /// challenges bound, with one side and the claim times a value: the weights in prefix order,
    /// the evaluations in suffix order.
    ///
    /// # Errors
    ///
    /// [`NoMemory`] alone.
    pub fn into_prover(self, alloc: Global, scale: EF) -> Result<SumcheckProver<F, EF>, NoMemory>
        requires { rounds_left self ≡ 0 }
        ensures shown { IfOk result (λ p. shown_by p
            ≡ with_side_scaled EF.ops (rounds_show self.entry) (EF.number scale)) }
        ensures settled { IfOk result (λ p. (stored_by p).held ≡ None) }
    {
        let (evals, weights) = self.batch.residual(alloc, self.table, &self.challenges)?;
        Ok(scaled_prover(self.order, evals, weights, self.claim, scale))
    }
}

impl<'a, F: Field, EF: ExtensionField<F>> PlainRounds<F, EF> for GridRounds<'a, F, EF> {
    ghost use Rattle.sc_definitions.specs.ProverViews.{honest_shown, with_bound};
    ghost use Rattle.sc_zk_layout.specs.Played.{rounds_show, rounds_left};
    ghost use Rattle.sc_zk_layout.specs.PlayedLaws.{rounds_tables, rounds_within};

    ghost shown = { rounds_show };

    ghost left = { rounds_left };

    ghost tables = { rounds_tables };

    ghost within = { rounds_within };

    fn claim(&self) -> EF {
        self.claim
    }

    fn measure(&mut self, alloc: Global) -> Result<RoundMessage<EF>, NoMemory> {
        self.batch.round_coefficients(alloc, &self.challenges)
    }

    fn bind(&mut self, m: RoundMessage<EF>, r: EF)
        requires left { 0 < rounds_left self.old }
        requires message { EF.number m.c_a ∷ EF.number m.c_inf ∷ []
            ≡ honest_shown EF.ops (rounds_show self.old) }
        ensures bound { rounds_show self.new
            ≡ with_bound EF.ops (rounds_show self.old) (EF.number r) }
        ensures fewer { rounds_left self.old ≡ rounds_left self.new + 1 }
    {
        self.claim = Basis::Evaluation.reduce_claim(m.c_a, m.c_inf, r, self.claim);
        self.challenges.push_reserved(r);
    }
}
