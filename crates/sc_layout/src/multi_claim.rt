//! What a prover opened at one point.
ghost use Rattle.std.specs.Prelude.{◌≡◌, ◌+◌, ◌<◌, ◌^◌, ℕ, List, ◌++◌, All, IfOk, length, map};
ghost use Rattle.sc_svo.specs.Points.{point_in};
ghost use Rattle.sc_layout.specs.Sums.{IsBatchOf};

use crate::opened_claim::OpenedClaim;
use crate::request::OpeningEvals;
use crate::sums::BatchedSum;
use sc_field::{ExtensionField, Field, NoMemory};
use sc_memory::Row;
use sc_statements::Claim;
use sc_svo::{EqSvoPartials, NextSvoPartials, SvoPoint};
use sc_table::Point;
use std::alloc::Global;

/// What a prover opened at one point, with the partial sums that small-value rounds use again.
#[derive(Drop)]
pub struct ProverMultiClaim<F: Field, EF: ExtensionField<F>> {
    pub(crate) coordinates: Point<EF>,
    pub(crate) point: SvoPoint<F, EF>,
    pub(crate) current: Row<Claim<EF, usize, EqSvoPartials<EF>>>,
    pub(crate) next: Row<Claim<EF, usize, NextSvoPartials<EF>>>,
    ghost same: { point_in point ≡ map EF.number coordinates },
    ghost columns: { All (λ c. c.point ≡ 0) current },
    ghost next_columns: { All (λ c. c.point ≡ 0) next },
}

impl<F: Field, EF: ExtensionField<F>> ProverMultiClaim<F, EF> {
    ghost use Rattle.sc_layout.specs.Claimed.{prover_opened};
    ghost use Rattle.sc_layout.specs.Kept.{current_in, next_in, kept_point};

    /// The point, in the two parts that small-value rounds use.
    pub fn point(&self) -> &SvoPoint<F, EF>
        ensures kept { result.now ≡ kept_point self.now }
        ensures point { point_in result.now ≡ (prover_opened self.now).point }
    {
        &self.point
    }

    /// The point, by its coordinates.
    pub fn coordinates(&self) -> &Point<EF>
        ensures { map EF.number result.now ≡ (prover_opened self.now).point }
    {
        &self.coordinates
    }

    /// The values at the point, each with its column as the claim's point, which is 0.
    pub fn current_openings(&self) -> &[Claim<EF, usize, EqSvoPartials<EF>>]
        ensures kept { result.now ≡ current_in self.now }
        ensures values { map (λ c. EF.number c.eval) result.now ≡ (prover_opened self.now).current }
        ensures columns { All (λ c. c.point ≡ 0) result.now }
    {
        self.current.as_slice()
    }

    /// The values through the successor map there, each with its column as the claim's point, which
    /// is 0.
    pub fn next_openings(&self) -> &[Claim<EF, usize, NextSvoPartials<EF>>]
        ensures kept { result.now ≡ next_in self.now }
        ensures values { map (λ c. EF.number c.eval) result.now ≡ (prover_opened self.now).next }
        ensures columns { All (λ c. c.point ≡ 0) result.now }
    {
        self.next.as_slice()
    }

    /// How many values there are, of fewer than 2^64.
    pub fn len(&self) -> usize
        requires few { length (prover_opened self.now).current
            + length (prover_opened self.now).next < 2 ^ 64 }
        ensures { result ≡ length (prover_opened self.now).current
            + length (prover_opened self.now).next }
    {
        self.current.len() + self.next.len()
    }

    // The values, in memory of their own.
    pub(crate) fn evals(&self, alloc: Global) -> Result<OpeningEvals<EF>, NoMemory>
        ensures current { IfOk result (λ v. map EF.number v.current
            ≡ (prover_opened self.now).current) }
        ensures next { IfOk result (λ v. map EF.number v.next ≡ (prover_opened self.now).next) }
    {
        let current = values_of(alloc, self.current.as_slice())?;
        let next = values_of(alloc, self.next.as_slice())?;
        Ok(OpeningEvals::new(current, next))
    }
}

impl<F: Field, EF: ExtensionField<F>> OpenedClaim<EF> for ProverMultiClaim<F, EF> {
    ghost use Rattle.sc_layout.specs.Claimed.{prover_opened};

    ghost opened = { prover_opened };

    fn add_to(&self, batch: BatchedSum<EF>) -> BatchedSum<EF>
        ensures { (a : ℕ) (xs : List ℕ) → IsBatchOf EF.ops EF.number a xs batch
            → IsBatchOf EF.ops EF.number a (xs ++ (prover_opened self.now).current
            ++ (prover_opened self.now).next) result }
    {
        batch
            .with_claims(self.current.as_slice())
            .with_claims(self.next.as_slice())
    }
}

// The values of claims.
fn values_of<EF: Field, P, D>(
    alloc: Global,
    claims: &[Claim<EF, P, D>],
) -> Result<Vec<EF>, NoMemory>
    ensures { IfOk result (λ v. map EF.number v.items ≡ map (λ c. EF.number c.eval) claims.now) }
{
    let mut values = Vec::new(alloc);
    for claim in claims {
        values.push(claim.eval())?;
    }
    Ok(values)
}
