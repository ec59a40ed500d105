//! A statement that is false of a table.

/// A false statement: its number, counted from 0 over all statements in order, the value that it claims and the true one,
/// both as element numbers.
#[derive(Clone, Copy, Debug, PartialEq, Eq)]
pub struct FalseClaim {
    /// The statement's number.
    pub statement: usize,
    /// The claimed value.
    pub claimed: u64,
    /// The true value.
    pub actual: u64,
}
