//! Values that were opened at one point: on either side, and as a verifier records them.
ghost use Rattle.std.specs.Prelude.{◌≡◌, ℕ, List, ◌++◌, map};
ghost use Rattle.sc_layout.specs.Sums.{IsBatchOf};

use crate::request::OpeningEvals;
use crate::sums::BatchedSum;
use sc_field::Field;
use sc_table::Point;

/// Values that were opened at one point, on either side.
pub trait OpenedClaim<EF: Field>: Drop {
    ghost use Rattle.sc_layout.specs.Openings.{Opened};

    // The point and the values.
    ghost opened: { Self → Opened };

    /// The batch with the values more, the current ones before the next ones.
    fn add_to(&self, batch: BatchedSum<EF>) -> BatchedSum<EF>
        ensures { (a : ℕ) (xs : List ℕ) → IsBatchOf EF.ops EF.number a xs batch
            → IsBatchOf EF.ops EF.number a
            (xs ++ (opened self.now).current ++ (opened self.now).next) result };
}

/// What a verifier has recorded at one point: the values that came.
#[derive(Drop)]
pub struct VerifierMultiClaim<EF> {
    pub(crate) point: Point<EF>,
    pub(crate) evals: OpeningEvals<EF>,
}

impl<EF: Field> OpenedClaim<EF> for VerifierMultiClaim<EF> {
    ghost use Rattle.sc_layout.specs.Claimed.{verifier_opened};

    ghost opened = { verifier_opened EF.number };

    fn add_to(&self, batch: BatchedSum<EF>) -> BatchedSum<EF>
        ensures { (a : ℕ) (xs : List ℕ) → IsBatchOf EF.ops EF.number a xs batch
            → IsBatchOf EF.ops EF.number a (xs ++ (verifier_opened EF.number self.now).current
            ++ (verifier_opened EF.number self.now).next) result }
    {
        batch
            .with_values(self.evals.current.as_slice())
            .with_values(self.evals.next.as_slice())
    }
}
