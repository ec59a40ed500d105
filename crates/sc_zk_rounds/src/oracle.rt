//! The commitment to the masks of a batch.
ghost use Rattle.std.specs.Prelude.{◌≡◌, IfOk};
ghost use Rattle.sc_zk_rounds.specs.Data.{AreWords};
ghost use Rattle.sc_zk_rounds.specs.Views.{AreCoded, IsOracle, coded_in};

use sc_commitments::{Mmcs, ZkEncoding};
use sc_field::{Field, NoMemory};
use std::alloc::Global;

/// A commitment `K` to masks, of which data `D` is kept.
#[derive(Drop)]
pub struct Committed<K, D> {
    /// The commitment, and what is kept of it.
    pub oracle: (K, D),
    /// The words of the commitment: 64 numbers below 16.
    pub words: Vec<u8>,
}

/// Encodes masks, each with its randomness, and commits to them. There are as many lists of
/// randomness as masks, and each list has the encoding's length.
///
/// # Errors
///
/// [`NoMemory`] alone.
pub fn commit_masks<EF: Field, Enc: ZkEncoding<EF>, M: Mmcs<EF>>(
    alloc: Global,
    encoding: &Enc,
    mmcs: &M,
    masks: &[Vec<EF>],
    randomness: &[Vec<EF>],
) -> Result<Committed<M::Commitment, M::ProverData>, NoMemory>
    requires coded { AreCoded (Enc.message_length encoding.now)
        (Enc.randomness_length encoding.now) masks.now randomness.now }
    ensures oracle { IfOk result (λ c. IsOracle ⟦<Enc as ZkEncoding<EF>>⟧
        ⟦<M as Mmcs<EF>>⟧ encoding.now mmcs.now (coded_in EF.number masks.now randomness.now)
        c.oracle) }
    ensures words { IfOk result (λ c. c.words.items ≡ M.words_of mmcs.now c.oracle.0) }
    ensures are { IfOk result (λ c. AreWords c.words.items) }
{
    let matrix = encoding.encode_batch_with_randomness(alloc, masks, randomness)?;
    let oracle = mmcs.commit_matrix(alloc, matrix)?;
    let words = mmcs.words(alloc, oracle.0)?;
    Ok(Committed { oracle, words })
}
