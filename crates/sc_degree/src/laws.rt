//! Laws of shapes, and of the polynomials of rounds, as contracts: a caller calls the function and
//! has them.
ghost use Rattle.std.specs.Prelude.{◌≡◌, ◌↔◌, IsTrue};
ghost use Rattle.sc_degree.specs.Laws.{SeedsTellDegrees, ProtocolsDiffer, RoundsTakeValues};

use crate::error::GenericDegreeError;
use crate::transcript::GenericDegreeShape;
use sc_field::Field;

/// A seed tells the shape that it is of from others, and rounds of any degree from the quadratic
/// ones.
///
/// By `==` shapes are equal exactly where all their three numbers are, and errors exactly where
/// they are one variant with the same numbers.
pub fn shape_laws()
    ensures shapes { SeedsTellDegrees }
    ensures protocols { ProtocolsDiffer }
    ensures equal_shapes { (x y : GenericDegreeShape)
        → IsTrue (⟦<GenericDegreeShape as PartialEq>⟧.eq x y) ↔ (x ≡ y) }
    ensures equal_errors { (x y : GenericDegreeError)
        → IsTrue (⟦<GenericDegreeError as PartialEq>⟧.eq x y) ↔ (x ≡ y) }
{}

/// The polynomial that the values of a round send under a claim takes the values at their nodes, 0
/// and those from 2 to the degree, and at node 1 the claim less the value at node 0. There are one
/// or more values, and the nodes are elements.
pub fn round_laws<EF: Field>()
    ensures values { RoundsTakeValues EF.ops }
{}
