//! Laws of shapes and errors, as a contract: a caller calls the function and has them.
ghost use Rattle.std.specs.Prelude.{◌≡◌, ◌↔◌, IsTrue};
ghost use Rattle.sc_transcript.specs.Laws.{SeedsTellShapes};

use crate::error::SumcheckError;
use crate::transcript::SumcheckShape;

/// A seed tells its shape: two shapes of one round or more whose seeds are the same, over extensions of one degree, have as many rounds, the same
/// difficulty and the same basis. It holds for every degree and every number of rounds.
///
/// By `==` shapes are equal exactly where all their three numbers are, and errors exactly where they are one variant with the same numbers.
pub fn shape_laws()
    ensures seeds { SeedsTellShapes }
    ensures shapes { (x y : SumcheckShape) → IsTrue (⟦<SumcheckShape as PartialEq>⟧.eq x y) ↔ (x ≡ y) }
    ensures errors { (x y : SumcheckError) → IsTrue (⟦<SumcheckError as PartialEq>⟧.eq x y) ↔ (x ≡ y) }
{}
