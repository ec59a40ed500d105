//! A matrix.
ghost use Rattle.std.specs.Prelude.{◌≡◌, ◌*◌, vec_len};

/// A matrix, its entries row by row.
#[derive(Drop)]
pub struct Matrix<F> {
    rows: usize,
    cols: usize,
    values: Vec<F>,
    pub ghost fits: { vec_len values ≡ rows * cols },
}

impl<F> Matrix<F> {
    ghost use Rattle.sc_matmul.specs.MatrixViews.{rows_in, cols_in, entries_in};

    /// The matrix of so many rows and columns with these entries, row by row: as many as the rows
    /// times the columns.
    pub fn new(rows: usize, cols: usize, values: Vec<F>) -> Self
        requires { vec_len values ≡ rows * cols }
        ensures rows { rows_in result ≡ rows }
        ensures cols { cols_in result ≡ cols }
        ensures entries { entries_in result ≡ values.items }
    {
        Matrix { rows, cols, values }
    }

    /// How many rows there are.
    pub fn rows(&self) -> usize
        ensures { result ≡ rows_in self.now }
    {
        self.rows
    }

    /// How many columns there are.
    pub fn cols(&self) -> usize
        ensures { result ≡ cols_in self.now }
    {
        self.cols
    }

    /// The entries, row by row.
    pub fn as_slice(&self) -> &[F]
        ensures { result.now ≡ entries_in self.now }
    {
        self.values.as_slice()
    }
}
