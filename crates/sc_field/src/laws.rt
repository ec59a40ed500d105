//! Laws of every field, as contracts: a caller calls the function and has them.
ghost use Rattle.std.specs.Prelude.{◌≡◌, ◌<◌, ◌≤◌, ◌^◌};
ghost use Rattle.sc_definitions.specs.Ring.{IsField};
ghost use Rattle.sc_field.specs.Laws.{SumsSplit, SumsAdd, SumsExchange, FactorMovesIn, PowerOfNone};
ghost use Rattle.sc_field.specs.Laws.{PowersSplit, PowerOfProduct, ItemsArePowers, ValuesAreSums};
ghost use Rattle.sc_field.specs.Laws.{InterpolationIsUnique, RootsAreFew};

use crate::field::Field;
pub use crate::roots::{count_roots, poly_at};

/// The numbers below the size are a field, 16 to 2^32 of them, and each element has one of them.
pub fn field_laws<F: Field>()
    ensures lawful { IsField F.ops }
    ensures least { 16 ≤ F.ops.size }
    ensures most { F.ops.size ≤ 2 ^ 32 }
    ensures below { (x : F) → F.number x < F.ops.size }
{}

/// Laws of sums over the numbers below a bound.
pub fn sum_laws<F: Field>()
    ensures split { SumsSplit F.ops }
    ensures add { SumsAdd F.ops }
    ensures exchange { SumsExchange F.ops }
    ensures factor { FactorMovesIn F.ops }
{}

/// Laws of powers, what an iterator of powers gives, and that the value of a polynomial is the sum of
/// its coefficients times powers.
pub fn power_laws<F: Field>()
    ensures none { PowerOfNone F.ops }
    ensures split { PowersSplit F.ops }
    ensures product { PowerOfProduct F.ops }
    ensures items { ItemsArePowers F.ops F.number }
    ensures values { ValuesAreSums F.ops }
{}

/// A polynomial of degree at most d is determined by its values at d + 1 different nodes.
pub fn interpolation_laws<F: Field>()
    ensures unique { InterpolationIsUnique F.ops }
{}

/// A polynomial that is not zero has no more different roots than its degree.
pub fn root_laws<F: Field>()
    ensures few { RootsAreFew F.ops }
{}
