//! Whether the sides of the matrices and the difficulty fit.
ghost use Rattle.std.specs.Prelude.{◌≡◌, ◌≤◌, None, IfOk, OnOk};
ghost use Rattle.sc_challenger.specs.Parties.{Party};
ghost use Rattle.sc_merge_definitions.specs.Matrices.{side_variables};
ghost use Rattle.sc_matmul.specs.MatrixViews.{matrix_in, cols_in};
ghost use Rattle.sc_matmul.specs.MatmulJobs.{fields, claimed_in, case_of, AreFieldsOf};
ghost use Rattle.sc_matmul.specs.Shapes.{or_later, fault_in, difficulty_fault};
ghost use Rattle.sc_matmul.specs.Shapes.{inner_fault, outer_fault, shape_fault, side_fault};

use crate::error::MatmulError;
use crate::matrix::Matrix;
use sc_audit_errors::arity;
use sc_field::{ExtensionField, Field};
use std::marker::PhantomData;

// The most variables that a side has.
const MOST_SIDE_VARIABLES: usize = 7;

// Three matrices whose sides fit, and the difficulty of rounds on them.
#[derive(Drop)]
pub(crate) struct FittingClaim<'a, F: Field, EF: ExtensionField<F>> {
    pub(crate) left: &'a Matrix<F>,
    pub(crate) right: &'a Matrix<F>,
    pub(crate) claimed: &'a Matrix<F>,
    pub(crate) pow_bits: usize,
    of: PhantomData<EF>,
    // It says nothing but which fields the claim is over, so that contracts need not say it again.
    ghost over: { AreFieldsOf F.number EF.number EF.embedding EF.extension },
    ghost fits: { shape_fault (matrix_in F.number left.now) (matrix_in F.number right.now)
        (matrix_in F.number claimed.now) ≡ None },
}

impl<'a, F: Field, EF: ExtensionField<F>> FittingClaim<'a, F, EF> {
    ghost use Rattle.sc_matmul.specs.FittingClaims.{case_by};

    // The claim of these matrices at a difficulty, unless a side does not fit, or the difficulty
    // is above this bound.
    pub(crate) fn of(
        left: &'a Matrix<F>,
        right: &'a Matrix<F>,
        claimed: &'a Matrix<F>,
        pow_bits: usize,
        max_bits: usize,
    ) -> Result<Self, MatmulError>
        ensures case { IfOk result (λ c. (p : Party) → case_by c p
            ≡ case_of (fields F.ops EF.ops EF.embedding EF.extension)
            (claimed_in F.number left.now right.now claimed.now) pow_bits p) }
        ensures fault { fault_in result ≡ or_later (shape_fault (matrix_in F.number left.now)
            (matrix_in F.number right.now) (matrix_in F.number claimed.now))
            (difficulty_fault pow_bits max_bits) }
        ensures difficulty { OnOk result (pow_bits ≤ max_bits) }
    {
        check_shape(left, right, claimed)?;
        if pow_bits > max_bits {
            return Err(MatmulError::Difficulty {
                bits: pow_bits,
                bound: max_bits,
            });
        }
        Ok(FittingClaim {
            left,
            right,
            claimed,
            pow_bits,
            of: PhantomData,
        })
    }

    // How many rounds there are: one for each variable of the inner side.
    pub(crate) fn variables(&self) -> usize
        ensures number { result ≡ side_variables (cols_in self.now.left.now) }
    {
        variables_of(self.left.cols())
    }
}

// Refuses matrices whose sides do not fit.
fn check_shape<F: Field>(
    left: &Matrix<F>,
    right: &Matrix<F>,
    claimed: &Matrix<F>,
) -> Result<(), MatmulError>
    ensures { fault_in result ≡ shape_fault (matrix_in F.number left.now)
        (matrix_in F.number right.now) (matrix_in F.number claimed.now) }
{
    check_side(0, left)?;
    check_side(1, right)?;
    check_side(2, claimed)?;
    check_inner(left, right)?;
    check_outer(left, right, claimed)
}

// How many variables a side of so many rows or columns has, or one more than the most where it is
// no power of two that is small enough.
fn variables_of(side: usize) -> usize
    ensures { result ≡ side_variables side }
{
    match arity(side) {
        Some(n) if n <= MOST_SIDE_VARIABLES => n,
        _ => MOST_SIDE_VARIABLES + 1,
    }
}

// Refuses a matrix with a side that is no small power of two.
fn check_side<F: Field>(which: usize, matrix: &Matrix<F>) -> Result<(), MatmulError>
    ensures { fault_in result ≡ side_fault which (matrix_in F.number matrix.now) }
{
    let (rows, cols) = (matrix.rows(), matrix.cols());
    if variables_of(rows) > MOST_SIDE_VARIABLES || variables_of(cols) > MOST_SIDE_VARIABLES {
        return Err(MatmulError::Side { which, rows, cols });
    }
    Ok(())
}

// Refuses two matrices that have no product.
fn check_inner<F: Field>(left: &Matrix<F>, right: &Matrix<F>) -> Result<(), MatmulError>
    ensures { fault_in result
        ≡ inner_fault (matrix_in F.number left.now) (matrix_in F.number right.now) }
{
    if left.cols() != right.rows() {
        return Err(MatmulError::Inner {
            left: left.cols(),
            right: right.rows(),
        });
    }
    Ok(())
}

// Refuses a claimed matrix of other sides than the product.
fn check_outer<F: Field>(
    left: &Matrix<F>,
    right: &Matrix<F>,
    claimed: &Matrix<F>,
) -> Result<(), MatmulError>
    ensures { fault_in result ≡ outer_fault (matrix_in F.number left.now)
        (matrix_in F.number right.now) (matrix_in F.number claimed.now) }
{
    let (rows, cols) = (claimed.rows(), claimed.cols());
    if rows != left.rows() || cols != right.cols() {
        return Err(MatmulError::Outer { rows, cols });
    }
    Ok(())
}
