//! What masks add to the rounds of a batch, round after round.
ghost use Rattle.std.specs.Prelude.{◌≡◌, ◌≢◌, ◌∷◌, ◌++◌, ◌-◌, ◌≤◌, List, ℕ, [], IfOk, length, map};
ghost use Rattle.std.specs.Prelude.{drop};
ghost use Rattle.sc_definitions.specs.Ring.{◌+⟨◌⟩◌};
ghost use Rattle.sc_zk_definitions.specs.Explained.{half_of};
ghost use Rattle.sc_zk_definitions.specs.Masks.{aux_after, endpoint, masks_total, sum_of, piece};
ghost use Rattle.sc_zk_definitions.specs.MaskedRuns.{Masking, IsHalf, wire_after};
ghost use Rattle.sc_commitments.specs.Matrices.{numbers_in, lists_in};
ghost use Rattle.sc_zk_rounds.specs.Mixings.{IsMixing};

use crate::assembly::masked_wire;
use crate::sums::sum;
use sc_field::laws::poly_at;
use sc_field::{ExtensionField, Field, NoMemory};
use sc_table::RoundMessage;
use std::alloc::Global;

/// What masks make of the next round of a batch: kept from round to round, so that none goes over
/// the masks again. A prover makes it of all masks, and for each round takes the round's wire of it
/// ([`Mixing::wire`]) and then what is left after the round's challenge ([`Mixing::pass`]).
#[derive(Clone, Copy, Debug)]
pub struct Mixing<EF> {
    // one half
    half: EF,
    // two to the power of how many masks are left
    factor: EF,
    // the sum of the masks before these at their challenges
    done: EF,
    // the sum of the endpoints of those that are left
    ends: EF,
    // what is left of aux
    aux: EF,
}

impl<EF: Field> Mixing<EF> {
    /// Before the first round, by one half and by aux, which is zero for a prover that adds none.
    pub fn new(masks: &[Vec<EF>], half: EF, aux: EF) -> Self
        ensures { (k : Masking) → k.masks ≡ lists_in EF.number masks.now → k.half ≡ EF.number half
            → k.aux ≡ EF.number aux → IsMixing EF.ops EF.number k [] result }
    {
        Mixing {
            half,
            factor: EF::TWO.exp_u64(masks.len() as u64),
            done: EF::ZERO,
            ends: all_endpoints(masks),
            aux,
        }
    }

    /// The total of the masks, before the first round.
    pub fn total(&self) -> EF
        ensures { (k : Masking) → IsHalf EF.ops k.half → IsMixing EF.ops EF.number k [] self.now
            → EF.number result ≡ masks_total EF.ops k.masks }
    {
        self.factor.mul(self.half).mul(self.ends)
    }
}

impl<EF: Field> Mixing<EF> {
    /// The wire of the next round, whose mask this is, by the combination and the round's plain
    /// message. The mask has three coefficients at least.
    ///
    /// # Errors
    ///
    /// [`NoMemory`] alone.
    pub fn wire(
        &self,
        alloc: Global,
        mask: &[EF],
        eps: EF,
        message: RoundMessage<EF>,
    ) -> Result<Vec<EF>, NoMemory>
        requires { 3 ≤ length mask.now }
        ensures count { IfOk result (λ v. length v.items ≡ length mask.now - 1) }
        ensures wire { IfOk result (λ v. (k : Masking) (rs : List ℕ) (later : List (List ℕ))
            → IsHalf EF.ops k.half → drop (length rs) k.masks ≡ map EF.number mask.now ∷ later
            → k.eps ≡ EF.number eps → IsMixing EF.ops EF.number k rs self.now
            → numbers_in EF.number v ≡ wire_after EF.ops k rs
            (piece (EF.number message.c_a) (EF.number message.c_inf))) }
    {
        let factor = self.factor.mul(self.half);
        let ends = self.ends.sub(endpoint_of(mask));
        let aux = self.half.mul(self.aux);
        let constant = factor.mul(self.done).add(factor.mul(self.half).mul(ends));
        masked_wire(
            alloc,
            factor,
            constant,
            mask,
            eps,
            message.c_a.add(aux),
            message.c_inf,
        )
    }

    /// What masks make of the round after it, by the challenge of this one.
    pub fn pass(self, mask: &[EF], r: EF) -> Self
        ensures { (k : Masking) (rs : List ℕ) (later : List (List ℕ)) → IsHalf EF.ops k.half
            → drop (length rs) k.masks ≡ map EF.number mask.now ∷ later
            → IsMixing EF.ops EF.number k rs self
            → IsMixing EF.ops EF.number k (rs ++ EF.number r ∷ []) result }
    {
        Mixing {
            half: self.half,
            factor: self.factor.mul(self.half),
            done: self.done.add(poly_at(mask, r)),
            ends: self.ends.sub(endpoint_of(mask)),
            aux: self.half.mul(self.aux),
        }
    }
}

// The sum of the endpoints of masks.
fn all_endpoints<EF: Field>(masks: &[Vec<EF>]) -> EF
    ensures { EF.number result
        ≡ sum_of EF.ops (map (endpoint EF.ops) (lists_in EF.number masks.now)) }
{
    let mut sum = EF::ZERO;
    let mut left = masks.len();
    while left > 0 {
        left -= 1;
        sum = endpoint_of(&masks[left]).add(sum);
    }
    sum
}

// The endpoint of a mask: twice its constant and its other coefficients.
fn endpoint_of<EF: Field>(mask: &[EF]) -> EF
    ensures { EF.number result ≡ endpoint EF.ops (map EF.number mask.now) }
{
    if mask.is_empty() {
        return EF::ZERO;
    }
    mask[0].add(sum(mask))
}

/// The total of masks: their sum over all bits. Two is not zero in the base field.
pub fn masks_total<F: Field, EF: ExtensionField<F>>(masks: &[Vec<EF>]) -> EF
    requires { 1 +⟨ F.ops ⟩ 1 ≢ 0 }
    ensures { EF.number result ≡ masks_total EF.ops (lists_in EF.number masks.now) }
{
    Mixing::new(masks, one_half::<F, EF>(), EF::ZERO).total()
}

// What is left of aux after so many rounds.
pub(crate) fn aux_after<F: Field, EF: ExtensionField<F>>(aux: EF, rounds: usize) -> EF
    requires { 1 +⟨ F.ops ⟩ 1 ≢ 0 }
    ensures { EF.number result ≡ aux_after EF.ops (half_of EF.ops) (EF.number aux) rounds }
{
    one_half::<F, EF>().exp_u64(rounds as u64).mul(aux)
}

/// One half. Two is not zero in the base field, and so not here.
pub fn one_half<F: Field, EF: ExtensionField<F>>() -> EF
    requires { 1 +⟨ F.ops ⟩ 1 ≢ 0 }
    ensures number { EF.number result ≡ half_of EF.ops }
    ensures half { IsHalf EF.ops (EF.number result) }
{
    match EF::TWO.inverse() {
        Some(half) => half,
        None => EF::ZERO,
    }
}
