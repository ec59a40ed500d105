//! Matrices, row by row.
ghost use Rattle.std.specs.Prelude.{◌≡◌};
ghost use Rattle.sc_commitments.specs.Matrices.{rows_in};

use sc_memory::Row;

/// A matrix: its values row by row, and how many of them a row has.
///
/// Nothing ties the number of values to the width: values after the last whole row belong to no
/// row, and a matrix of width 0 has no row.
#[derive(Drop)]
pub struct RowMajorMatrix<T> {
    /// The values, row by row.
    pub values: Row<T>,
    /// How many values a row has.
    pub width: usize,
}

impl<T> RowMajorMatrix<T> {
    /// How many rows there are: the number of values divided by the width, rounded down, and 0 for
    /// width 0.
    #[tactic(auto, unfolding(crate::specs::Matrices::rows_in))]
    pub fn height(&self) -> usize
        ensures { result ≡ rows_in self.now.values self.now.width }
    {
        if self.width == 0 {
            return 0;
        }
        self.values.len() / self.width
    }
}
