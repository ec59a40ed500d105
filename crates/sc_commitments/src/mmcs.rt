//! What commits to a matrix.
ghost use Rattle.std.specs.Prelude.{◌≡◌, ℕ, ◌<◌, List, All, IfOk, length};
ghost use Rattle.sc_commitments.specs.Matrices.{Matrix, matrix_of};

use crate::matrix::RowMajorMatrix;
use sc_field::{Field, NoMemory};
use std::alloc::Global;

/// A scheme that commits to a matrix of elements.
///
/// The commitment of a matrix, the words of a commitment, and what it is to keep a matrix are
/// definitions that belong to the object, by the numbers of the elements. A prover and a verifier
/// may have two objects: they agree on commitments where these definitions are the same.
pub trait Mmcs<EF: Field>: Drop {
    /// A commitment, which is handed to the verifier.
    type Commitment: Copy;

    /// What the prover keeps of a matrix that it committed to.
    type ProverData: Drop;

    // The commitment of a matrix.
    ghost commitment_of: { Self → Matrix → Self.Commitment };

    // The words of a commitment, by which a transcript takes it in.
    ghost words_of: { Self → Self.Commitment → List ℕ };

    // What was kept is of this matrix.
    ghost keeps: { Self → Self.ProverData → Matrix → Type 0 };

    /// The commitment of a matrix, and what a prover keeps of it.
    ///
    /// # Errors
    ///
    /// [`NoMemory`] alone; the matrix is given up then.
    fn commit_matrix(
        &self,
        alloc: Global,
        m: RowMajorMatrix<EF>,
    ) -> Result<(Self::Commitment, Self::ProverData), NoMemory>
        ensures commitment { IfOk result (λ made. made.0
            ≡ commitment_of self.now (matrix_of EF.number m)) }
        ensures kept { IfOk result (λ made. keeps self.now made.1 (matrix_of EF.number m)) };

    /// The words of a commitment: 64 numbers below 16.
    ///
    /// # Errors
    ///
    /// [`NoMemory`] alone.
    fn words(&self, alloc: Global, c: Self::Commitment) -> Result<Vec<u8>, NoMemory>
        ensures words { IfOk result (λ v. v.items ≡ words_of self.now c) }
        ensures count { IfOk result (λ v. length v.items ≡ 64) }
        ensures below { IfOk result (λ v. All (λ word. word < 16) v.items) };
}
