//! The openings as claims of a small-value batch, each with its coefficient.
ghost use Rattle.std.specs.Prelude.{◌≡◌, ℕ, List, [], ◌∷◌, ◌++◌, IfOk, OnOk, length, map};
ghost use Rattle.sc_definitions.specs.Statements.{Statement, claims};
ghost use Rattle.sc_svo.specs.Claims.{kind_by};
ghost use Rattle.sc_layout.specs.Openings.{opened_statements};
ghost use Rattle.sc_layout.specs.Claimed.{prover_opened};
ghost use Rattle.sc_layout.specs.Scaled.{AreScaled};

use crate::multi_claim::ProverMultiClaim;
use sc_field::{ExtensionField, Field, NoMemory};
use sc_svo::SvoClaim;
use sc_table::Point;
use std::alloc::Global;

// Claims that are scaled, one after the other: claim number i is multiplied by the challenge to the
// power i.
#[derive(Drop)]
pub(crate) struct ScaledClaims<EF> {
    pub(crate) claims: Vec<SvoClaim<EF>>,
    challenge: EF,
    power: EF,
}

impl<EF: Field> ScaledClaims<EF> {
    // No claim.
    pub(crate) fn new(alloc: Global, challenge: EF) -> Self
        ensures { AreScaled EF.ops EF.number (EF.number challenge) [] result }
    {
        ScaledClaims {
            claims: Vec::new(alloc),
            challenge,
            power: EF::ONE,
        }
    }

    // One claim more: on a value at a point, or on one through the successor map there.
    pub(crate) fn push(
        &mut self,
        alloc: Global,
        point: &Point<EF>,
        successor: bool,
    ) -> Result<(), NoMemory>
        ensures { OnOk result ((a : ℕ) (ss : List Statement) (v : ℕ)
            → AreScaled EF.ops EF.number a ss self.old → AreScaled EF.ops EF.number a
            (ss ++ claims (kind_by successor (map EF.number point.now)) v ∷ []) self.new) }
    {
        self.claims.push(SvoClaim {
            point: point.copy(alloc)?,
            successor,
            coefficient: self.power,
        })?;
        self.power = self.power.mul(self.challenge);
        Ok(())
    }

    // What was opened at a point more: the current values before the next ones.
    pub(crate) fn push_opened<F: Field>(
        &mut self,
        alloc: Global,
        claim: &ProverMultiClaim<F, EF>,
    ) -> Result<(), NoMemory>
    where
        EF: ExtensionField<F>,
        ensures { OnOk result ((a : ℕ) (ss : List Statement)
            → AreScaled EF.ops EF.number a ss self.old → AreScaled EF.ops EF.number a
            (ss ++ opened_statements (prover_opened claim.now)) self.new) }
    {
        self.push_all(alloc, &claim.coordinates, false, claim.current.len())?;
        self.push_all(alloc, &claim.coordinates, true, claim.next.len())
    }

    // So many claims more at a point.
    fn push_all(
        &mut self,
        alloc: Global,
        point: &Point<EF>,
        successor: bool,
        count: usize,
    ) -> Result<(), NoMemory>
        ensures { OnOk result ((a : ℕ) (ss : List Statement) (vs : List ℕ) → length vs ≡ count
            → AreScaled EF.ops EF.number a ss self.old → AreScaled EF.ops EF.number a
            (ss ++ map (claims (kind_by successor (map EF.number point.now))) vs) self.new) }
    {
        for _place in 0..count {
            self.push(alloc, point, successor)?;
        }
        Ok(())
    }
}
