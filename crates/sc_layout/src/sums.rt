//! The batch of values: each times the next power of a challenge, in sum.
ghost use Rattle.std.specs.Prelude.{◌≡◌, ℕ, List, [], ◌∷◌, ◌++◌, map};
ghost use Rattle.sc_definitions.specs.Statements.{batched_by_powers};
ghost use Rattle.sc_layout.specs.Sums.{IsBatchOf};

use sc_field::Field;
use sc_statements::Claim;

/// Values that are batched, one after the other: value number i is multiplied by the challenge to
/// the power i.
#[derive(Clone, Copy, Debug)]
pub struct BatchedSum<EF> {
    pub(crate) challenge: EF,
    pub(crate) power: EF,
    pub(crate) sum: EF,
}

impl<EF: Field> BatchedSum<EF> {
    /// The batch of no value.
    pub fn new(challenge: EF) -> Self
        ensures { IsBatchOf EF.ops EF.number (EF.number challenge) [] result }
    {
        BatchedSum {
            challenge,
            power: EF::ONE,
            sum: EF::ZERO,
        }
    }

    /// The batch with one value more.
    pub fn with(self, value: EF) -> Self
        ensures { (a : ℕ) (xs : List ℕ) → IsBatchOf EF.ops EF.number a xs self
            → IsBatchOf EF.ops EF.number a (xs ++ EF.number value ∷ []) result }
    {
        BatchedSum {
            challenge: self.challenge,
            power: self.power.mul(self.challenge),
            sum: self.sum.add(self.power.mul(value)),
        }
    }

    /// The batch with these values more, in order.
    pub fn with_values(self, values: &[EF]) -> Self
        ensures { (a : ℕ) (xs : List ℕ) → IsBatchOf EF.ops EF.number a xs self
            → IsBatchOf EF.ops EF.number a (xs ++ map EF.number values.now) result }
    {
        let mut batch = self;
        for value in values {
            batch = batch.with(*value);
        }
        batch
    }

    /// The batch with the values of these claims more, in order.
    pub fn with_claims<P, D>(self, claims: &[Claim<EF, P, D>]) -> Self
        ensures { (a : ℕ) (xs : List ℕ) → IsBatchOf EF.ops EF.number a xs self
            → IsBatchOf EF.ops EF.number a (xs ++ map (λ c. EF.number c.eval) claims.now) result }
    {
        let mut batch = self;
        for claim in claims {
            batch = batch.with(claim.eval());
        }
        batch
    }

    /// The sum.
    pub fn sum(self) -> EF
        ensures { (a : ℕ) (xs : List ℕ) → IsBatchOf EF.ops EF.number a xs self
            → EF.number result ≡ batched_by_powers EF.ops a 0 xs }
    {
        self.sum
    }
}
