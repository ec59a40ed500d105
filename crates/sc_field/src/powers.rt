//! The powers of an element, as an iterator.

use crate::field::Field;

/// The endless list of `start`, `start` times `base`, `start` times `base` squared, and so on: item
/// number i is `start` times the power i of `base`. Take a limit of it, as by `take`.
///
/// [`Field::powers`] and [`Field::shifted_powers`] make it.
#[derive(Clone, Copy)]
pub struct Powers<F> {
    // what the next item is
    pub(crate) next: F,
    // what each further item is times the one before
    pub(crate) base: F,
}

impl<F: Field> Iterator for Powers<F> {
    type Item = F;

    ghost use Rattle.sc_field.specs.Powers.{GivesPower};

    ghost next_gives = { GivesPower F.ops F.number };

    fn next(&mut self) -> Option<F> {
        let item = self.next;
        self.next = item.mul(self.base);
        Some(item)
    }
}
