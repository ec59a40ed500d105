//! What plays plain rounds, whatever it keeps of its tables.
ghost use Rattle.std.specs.Prelude.{◌≡◌, ◌+◌, ◌<◌, ◌≤◌, ℕ, [], ◌∷◌, IfOk};

use sc_field::{ExtensionField, Field, NoMemory};
use sc_rounds::SumcheckProver;
use sc_table::RoundMessage;
use std::alloc::Global;

/// What plays plain rounds on two tables and a claim, which masks are added to. It need not have
/// the tables: it shows what they are, and tells each round's message.
pub trait PlainRounds<F: Field, EF: ExtensionField<F>> {
    ghost use Rattle.sc_definitions.specs.ProverViews.{ProverView, honest_shown, with_bound};
    ghost use Rattle.sc_zk_rounds.specs.Plain.{HasTables};

    // The tables with all challenges bound, and the claim.
    ghost shown: { Self → ProverView };

    // How many rounds it can still play.
    ghost left: { Self → ℕ };

    /// The claim.
    fn claim(&self) -> EF
        ensures { EF.number result ≡ (shown self.now).claim };

    /// The message of the next round. One can still be played.
    ///
    /// # Errors
    ///
    /// [`NoMemory`] alone: nothing changes.
    fn measure(&mut self, alloc: Global) -> Result<RoundMessage<EF>, NoMemory>
        requires { 0 < left self.old }
        ensures kept { shown self.new ≡ shown self.old }
        ensures left { left self.new ≡ left self.old }
        ensures message { IfOk result (λ m. EF.number m.c_a ∷ EF.number m.c_inf ∷ []
            ≡ honest_shown EF.ops (shown self.old)) };

    /// Binds the next variable at `r`, and moves the claim to what the message of
    /// [`PlainRounds::measure`] sends there. A round can still be played.
    fn bind(&mut self, m: RoundMessage<EF>, r: EF)
        requires left { 0 < left self.old }
        requires message { EF.number m.c_a ∷ EF.number m.c_inf ∷ []
            ≡ honest_shown EF.ops (shown self.old) }
        ensures bound { shown self.new ≡ with_bound EF.ops (shown self.old) (EF.number r) }
        ensures fewer { left self.old ≡ left self.new + 1 };

    ghost tables: { (s : Self) → HasTables (shown s) };

    ghost within: { (s : Self) → left s ≤ (shown s).variables };
}

impl<F: Field, EF: ExtensionField<F>> PlainRounds<F, EF> for SumcheckProver<F, EF> {
    ghost use Rattle.sc_definitions.specs.ProverViews.{honest_shown, with_bound};
    ghost use Rattle.sc_rounds.specs.ProverViews.{shown_by};
    ghost use Rattle.std.proofs.Common.{le_refl};
    ghost use Rattle.sc_zk_rounds.specs.PlainLaws.{prover_tables};

    ghost shown = { shown_by };

    ghost left = { λ s. (shown_by s).variables };

    ghost tables = { prover_tables };

    ghost within = { λ s. le_refl (shown_by s).variables };

    fn claim(&self) -> EF {
        self.claimed_sum()
    }

    fn measure(&mut self, _alloc: Global) -> Result<RoundMessage<EF>, NoMemory> {
        Ok(self.measure_round())
    }

    fn bind(&mut self, m: RoundMessage<EF>, r: EF)
        requires left { 0 < (shown_by self.old).variables }
        requires message { EF.number m.c_a ∷ EF.number m.c_inf ∷ []
            ≡ honest_shown EF.ops (shown_by self.old) }
        ensures bound { shown_by self.new ≡ with_bound EF.ops (shown_by self.old) (EF.number r) }
        ensures fewer { (shown_by self.old).variables ≡ (shown_by self.new).variables + 1 }
    {
        self.settle();
        self.bind_round(m, r);
    }
}
