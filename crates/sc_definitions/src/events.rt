//! The events of a challenger's history.

/// One event of a challenger's history. A word is the number of the base element that was observed.
#[derive(Clone, Copy, Debug, PartialEq, Eq)]
pub enum Event {
    /// A base element, by its number, was observed.
    Word(u64),
    /// A base element was drawn.
    Draw,
    /// A witness was tested at this difficulty, in bits.
    Test(usize),
}
