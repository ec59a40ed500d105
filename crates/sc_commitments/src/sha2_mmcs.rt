//! A commitment by SHA-256.
ghost use Rattle.std.specs.Prelude.{◌≡◌, ◌+◌, ◌++◌, OnOk, IfOk, All, ◌<◌, length, map};
ghost use Rattle.sc_definitions.specs.Seeds.{eight_bytes, nibbles};
ghost use Rattle.sc_commitments.specs.Matrices.{matrix_of};
ghost use Rattle.sc_commitments.specs.Hashed.{matrix_bytes, digest_of};

use crate::matrix::RowMajorMatrix;
use crate::mmcs::Mmcs;
use sc_field::{Field, NoMemory};
use sha2::{Digest, Sha256};
use std::alloc::Global;

/// The scheme whose commitment is one digest of the whole matrix: SHA-256 of its height, its width
/// and the number of each value, row by row, each written as 8 bytes, the highest byte first.
///
/// The words of a commitment are the two halves of each of its 32 bytes, the higher four bits
/// first. The prover keeps the matrix.
#[derive(Drop)]
pub struct Sha2Mmcs;

impl Sha2Mmcs {
    /// The scheme, which holds nothing: all its objects have the same definitions.
    pub fn new() -> Self {
        Sha2Mmcs
    }
}

impl<EF: Field> Mmcs<EF> for Sha2Mmcs {
    type Commitment = [u8; 32];

    type ProverData = RowMajorMatrix<EF>;

    ghost commitment_of = { λ _ m. digest_of m };

    ghost words_of = { λ _ c. nibbles c };

    ghost keeps = { λ _ kept m. matrix_of EF.number kept ≡ m };

    fn commit_matrix(
        &self,
        alloc: Global,
        m: RowMajorMatrix<EF>,
    ) -> Result<([u8; 32], RowMajorMatrix<EF>), NoMemory>
        ensures commitment { IfOk result (λ made. made.0 ≡ digest_of (matrix_of EF.number m)) }
        ensures kept { IfOk result (λ made. matrix_of EF.number made.1 ≡ matrix_of EF.number m) }
    {
        let bytes = bytes_of(alloc, &m)?;
        Ok((Sha256::digest(bytes.as_slice()), m))
    }

    fn words(&self, alloc: Global, c: [u8; 32]) -> Result<Vec<u8>, NoMemory>
        ensures words { IfOk result (λ v. v.items ≡ nibbles c) }
        ensures count { IfOk result (λ v. length v.items ≡ 64) }
        ensures below { IfOk result (λ v. All (λ word. word < 16) v.items) }
    {
        nibbles(alloc, &c)
    }
}

// The bytes of a matrix that are hashed.
#[tactic(auto, unfolding(crate::specs::Hashed::matrix_bytes))]
fn bytes_of<EF: Field>(alloc: Global, m: &RowMajorMatrix<EF>) -> Result<Vec<u8>, NoMemory>
    ensures { IfOk result (λ v. v.items ≡ matrix_bytes (matrix_of EF.number m.now)) }
{
    let mut bytes = Vec::new(alloc);
    push_number(&mut bytes, m.height() as u64)?;
    push_number(&mut bytes, m.width as u64)?;
    for value in m.values.as_slice() {
        push_number(&mut bytes, value.index())?;
    }
    Ok(bytes)
}

// Appends a number as 8 bytes, the highest first.
#[tactic(auto, unfolding(sc_definitions::specs::Seeds::eight_bytes))]
fn push_number(bytes: &mut Vec<u8>, number: u64) -> Result<(), NoMemory>
    ensures { OnOk result (bytes.new.items ≡ bytes.old.items ++ eight_bytes number) }
{
    bytes.extend_from_slice(&number.to_be_bytes())?;
    Ok(())
}

// Two words for each byte, the higher four bits first.
#[tactic(auto, unfolding(sc_definitions::specs::Seeds::nibbles))]
fn nibbles(alloc: Global, bytes: &[u8]) -> Result<Vec<u8>, NoMemory>
    ensures words { IfOk result (λ v. v.items ≡ nibbles bytes.now) }
    ensures count { IfOk result (λ v. length v.items ≡ length bytes.now + length bytes.now) }
    ensures below { IfOk result (λ v. All (λ word. word < 16) v.items) }
{
    let mut words = Vec::new(alloc);
    for byte in bytes {
        words.push(byte / 16)?;
        words.push(byte % 16)?;
    }
    Ok(words)
}
