//! Elements by their numbers.
ghost use Rattle.std.specs.Prelude.{◌≡◌, IfOk, length};

use sc_field::{Field, NoMemory};
use sc_table::{Point, RoundMessage};
use std::alloc::Global;

/// The element of this number, modulo the field's size.
pub fn of<F: Field>(number: u64) -> F {
    F::element(number % F::size())
}

/// The elements of these numbers.
pub fn elements<F: Field>(alloc: Global, numbers: &[u64]) -> Result<Vec<F>, NoMemory>
    ensures { IfOk result (λ v. length v.items ≡ length numbers.now) }
{
    let elements = numbers.iter().map(|number| of(*number)).collect(alloc)?;
    Ok(elements)
}

/// The point of these numbers.
pub fn point<F: Field>(alloc: Global, numbers: &[u64]) -> Result<Point<F>, NoMemory>
    ensures { IfOk result (λ p. length p ≡ length numbers.now) }
{
    Ok(Point::new(elements(alloc, numbers)?))
}

/// Whether elements have these numbers.
pub fn have_numbers<F: Field>(elements: &[F], numbers: &[u64]) -> bool {
    elements.len() == numbers.len()
        && elements
            .iter()
            .zip(numbers)
            .all(|(element, number)| element.index() == *number)
}

/// Whether messages are these pairs.
pub fn are_pairs<F: Field>(messages: &[RoundMessage<F>], pairs: &[(u64, u64)]) -> bool {
    messages.len() == pairs.len()
        && messages.iter().zip(pairs).all(|(message, pair)| message.c_a.index() == pair.0
            && message.c_inf.index() == pair.1)
}
