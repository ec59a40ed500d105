//! What masks make of a round, round after round.
ghost use Rattle.std.specs.Prelude.{◌≡◌, ◌≢◌, ◌∷◌, ◌≤◌, List, ℕ, IfOk, length, map};
ghost use Rattle.sc_definitions.specs.Polynomials.{poly_at};
ghost use Rattle.sc_definitions.specs.Ring.{◌+⟨◌⟩◌, ◌*⟨◌⟩◌};
ghost use Rattle.sc_zk_definitions.specs.Explained.{half_of, unmixing, explained_mask};
ghost use Rattle.sc_zk_definitions.specs.MaskedRuns.{IsHalf};
ghost use Rattle.sc_zk_definitions.specs.Masks.{masked_round, piece, sum_of, total_of, wire_of};
ghost use Rattle.sc_commitments.specs.Matrices.{numbers_in};
ghost use Rattle.sc_zk_views.specs.Sums.{AreMaskSums};

use crate::sums::{push_scaled, sum};
use crate::view::PlainPiece;
use sc_field::laws::poly_at;
use sc_field::{Field, NoMemory};
use sc_zk_rounds::masked_wire;
use std::alloc::Global;

/// What is known before a round of the masks that had their challenges, and of those that are left.
/// The base of the powers is two where wires are made of masks, and one half where masks are made
/// of wires.
#[derive(Clone, Copy, Debug)]
pub(crate) struct MaskSums<EF> {
    // one half
    half: EF,
    // one over the base
    step: EF,
    // the base to the power of how many masks are left
    factor: EF,
    // the sum of the masks before these at their challenges
    done: EF,
    // the sum of the endpoints of those that are left
    ends: EF,
}

impl<EF: Field> MaskSums<EF> {
    /// Before the first round, by one over the base, and the sum of all endpoints.
    pub(crate) fn new(base: EF, step: EF, half: EF, masks: usize, ends: EF) -> Self
        requires half { EF.number half ≡ half_of EF.ops }
        requires twice { IsHalf EF.ops (EF.number half) }
        requires step { EF.number base *⟨ EF.ops ⟩ EF.number step ≡ 1 }
        ensures sums { (left : List ℕ) → masks ≡ length left
            → EF.number ends ≡ sum_of EF.ops left
            → AreMaskSums EF.ops EF.number (EF.number base) left result }
        ensures done { EF.number result.done ≡ 0 }
    {
        MaskSums {
            half,
            step,
            factor: base.exp_u64(masks as u64),
            done: EF::ZERO,
            ends,
        }
    }

    /// The total of the masks that are left, by powers of two.
    pub(crate) fn total(&self) -> EF
        ensures { (left : List ℕ) → AreMaskSums EF.ops EF.number (1 +⟨ EF.ops ⟩ 1) left self.now
            → EF.number result ≡ total_of EF.ops left }
    {
        self.factor.mul(self.half).mul(self.ends)
    }

    /// The same once the next mask, whose endpoint this is, is taken off.
    pub(crate) fn without(self, end: EF) -> Self
        ensures sums { (base : ℕ) (left : List ℕ)
            → AreMaskSums EF.ops EF.number base (EF.number end ∷ left) self
            → AreMaskSums EF.ops EF.number base left result }
        ensures done { EF.number result.done ≡ EF.number self.done }
    {
        MaskSums {
            half: self.half,
            step: self.step,
            factor: self.factor.mul(self.step),
            done: self.done,
            ends: self.ends.sub(end),
        }
    }

    /// The same once a mask has its challenge.
    pub(crate) fn past(self, mask: &[EF], r: EF) -> Self
        ensures sums { (base : ℕ) (left : List ℕ)
            → AreMaskSums EF.ops EF.number base left self
            → AreMaskSums EF.ops EF.number base left result }
        ensures done { EF.number result.done ≡ EF.number self.done
            +⟨ EF.ops ⟩ poly_at EF.ops (map EF.number mask.now) (EF.number r) }
    {
        MaskSums {
            half: self.half,
            step: self.step,
            factor: self.factor,
            done: self.done.add(poly_at(mask, r)),
            ends: self.ends,
        }
    }

    // What the masks before and after a round's add to its constant, over the factor of its own.
    fn others(&self) -> EF
        ensures { EF.number result ≡ EF.number self.now.done
            +⟨ EF.ops ⟩ EF.number self.now.half *⟨ EF.ops ⟩ EF.number self.now.ends }
    {
        self.done.add(self.half.mul(self.ends))
    }

    /// The wire of a round, by powers of two, once its mask is taken off. The mask has three
    /// coefficients at least.
    pub(crate) fn wire(
        &self,
        alloc: Global,
        mask: &[EF],
        eps: EF,
        plain: PlainPiece<EF>,
    ) -> Result<Vec<EF>, NoMemory>
        requires { 3 ≤ length mask.now }
        ensures { IfOk result (λ v. (left : List ℕ)
            → AreMaskSums EF.ops EF.number (1 +⟨ EF.ops ⟩ 1) left self.now
            → numbers_in EF.number v ≡ wire_of (masked_round EF.ops (EF.number eps)
            (EF.number self.now.done) (map EF.number mask.now) left
            (piece (EF.number plain.c0) (EF.number plain.c_inf)))) }
    {
        let constant = self.factor.mul(self.others());
        masked_wire(
            alloc,
            self.factor,
            constant,
            mask,
            eps,
            plain.c0,
            plain.c_inf,
        )
    }

    /// The mask of a round, by powers of one half, once its endpoint is taken off. The wire has two
    /// values at least.
    pub(crate) fn mask(
        &self,
        alloc: Global,
        wire: &[EF],
        end: EF,
        eps: EF,
        plain: PlainPiece<EF>,
    ) -> Result<Vec<EF>, NoMemory>
        requires { 2 ≤ length wire.now }
        ensures { IfOk result (λ v. (left : List ℕ)
            → AreMaskSums EF.ops EF.number (half_of EF.ops) left self.now
            → numbers_in EF.number v ≡ explained_mask EF.ops
            (unmixing (half_of EF.ops) (EF.number eps)) (EF.number self.now.done) (EF.number end)
            left (piece (EF.number plain.c0) (EF.number plain.c_inf)) (map EF.number wire.now)) }
    {
        let factor = self.factor;
        let rest = &wire[2..];
        let constant = factor
            .mul(wire[0].sub(eps.mul(plain.c0)))
            .sub(self.others());
        let square = factor.mul(wire[1].sub(eps.mul(plain.c_inf)));
        let higher = square.add(factor.mul(sum(rest)));
        let linear = end.sub(constant.double()).sub(higher);
        let mut mask = Vec::new(alloc);
        mask.push(constant)?;
        mask.push(linear)?;
        mask.push(square)?;
        push_scaled(&mut mask, factor, rest)?;
        Ok(mask)
    }
}

/// One half.
pub(crate) fn one_half<EF: Field>() -> EF
    requires { 1 +⟨ EF.ops ⟩ 1 ≢ 0 }
    ensures number { EF.number result ≡ half_of EF.ops }
    ensures half { IsHalf EF.ops (EF.number result) }
{
    match EF::TWO.inverse() {
        Some(half) => half,
        None => EF::ZERO,
    }
}
