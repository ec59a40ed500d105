//! The masks that a job's rounds are played under.
ghost use Rattle.std.specs.Prelude.{◌≡◌, ◌≤◌, IfOk};
ghost use Rattle.sc_commitments.specs.NodeCodes.{lengths_of};
ghost use Rattle.sc_zk_rounds.specs.Views.{AreCoded, coded_in};
ghost use Rattle.sumcheck_replies.specs.Fields.{sizes_over};
ghost use Rattle.sumcheck_veil.specs.VeilJob.{VeilFits, WrittenFits};
ghost use Rattle.sumcheck_veil.specs.VeilJob.{first_mask_length, most_length, randomness_length};
ghost use Rattle.sumcheck_veil.specs.VeilMasks.{code_lengths, drawn_veils, mask_length};
ghost use Rattle.sumcheck_veil.specs.VeilMasks.{seed_bytes, veils_of};
ghost use Rattle.sumcheck_veil.specs.VeilMasks.{written_veils};

use crate::job::{DrawnMasks, Masks, Veil, WrittenMasks};
use rand_chacha::ChaCha8Rng;
use rand_core::SeedableRng;
use sc_commitments::{NodeCode, sample_masks};
use sc_field::{ExtensionField, Field, NoMemory};
use std::alloc::Global;
use sumcheck_replies::element_lists;

// How many elements a mask is encoded with.
const RANDOMNESS: usize = 2;

// How many coefficients each mask has.
pub(crate) fn length_of(masks: &Masks) -> usize
    ensures { result ≡ mask_length masks.now }
{
    match masks {
        Masks::Written(written) => match written.messages.as_slice() {
            [first, ..] => first.len(),
            [] => 0,
        },
        Masks::Drawn(drawn) => drawn.length as usize,
    }
}

// The code of masks of this length.
pub(crate) fn code_of<EF: Field>(length: usize) -> NodeCode<EF>
    requires { length ≤ most_length }
    ensures { lengths_of result ≡ code_lengths EF.ops.size length }
{
    let twice = 2 * (length + RANDOMNESS);
    NodeCode::new(length, RANDOMNESS, twice.min(EF::size() as usize))
}

// The masks of so many rounds, and what each is encoded with.
pub(crate) fn masks_of<F: Field, EF: ExtensionField<F>>(
    alloc: Global,
    veil: &Veil,
    code: &NodeCode<EF>,
) -> Result<(Vec<Vec<EF>>, Vec<Vec<EF>>), NoMemory>
    requires fits { VeilFits (sizes_over F.ops EF.ops) veil.now }
    requires code { lengths_of code.now ≡ code_lengths EF.ops.size (mask_length veil.now.masks) }
    ensures veils { IfOk result (λ made. coded_in EF.number made.0.items made.1.items
        ≡ veils_of EF.ops.size veil.now.rounds veil.now.masks) }
    ensures coded { IfOk result (λ made. AreCoded (mask_length veil.now.masks) randomness_length
        made.0.items made.1.items) }
{
    match &veil.masks {
        Masks::Written(written) => written_masks::<F, EF>(alloc, veil.rounds as usize, written),
        Masks::Drawn(drawn) => drawn_masks(alloc, veil.rounds as usize, drawn, code),
    }
}

// Those that are written out.
fn written_masks<F: Field, EF: ExtensionField<F>>(
    alloc: Global,
    rounds: usize,
    written: &WrittenMasks,
) -> Result<(Vec<Vec<EF>>, Vec<Vec<EF>>), NoMemory>
    requires { WrittenFits (sizes_over F.ops EF.ops) rounds written.now }
    ensures veils { IfOk result (λ made. coded_in EF.number made.0.items made.1.items
        ≡ written_veils written.now) }
    ensures coded { IfOk result (λ made. AreCoded (first_mask_length written.now.messages)
        randomness_length made.0.items made.1.items) }
{
    let masks = element_lists(alloc, written.messages.as_slice())?;
    let randomness = element_lists(alloc, written.randomness.as_slice())?;
    Ok((masks, randomness))
}

// Those that are drawn, by a code of their length.
fn drawn_masks<EF: Field>(
    alloc: Global,
    rounds: usize,
    drawn: &DrawnMasks,
    code: &NodeCode<EF>,
) -> Result<(Vec<Vec<EF>>, Vec<Vec<EF>>), NoMemory>
    requires { lengths_of code.now ≡ code_lengths EF.ops.size drawn.now.length }
    ensures veils { IfOk result (λ made. coded_in EF.number made.0.items made.1.items
        ≡ drawn_veils EF.ops.size rounds drawn.now) }
    ensures coded { IfOk result (λ made. AreCoded drawn.now.length randomness_length
        made.0.items made.1.items) }
{
    let mut rng = ChaCha8Rng::from_seed(seed_of(drawn.seed));
    sample_masks(alloc, code, rounds, &mut rng)
}

// The bytes of a seed: the number as 8 bytes, the highest first, and 24 zeros.
#[tactic(auto, unfolding(sc_definitions::specs::Seeds::eight_bytes))]
fn seed_of(number: u64) -> [u8; 32]
    ensures { result ≡ seed_bytes number }
{
    let mut seed = [0; 32];
    seed[..8].copy_from_slice(&number.to_be_bytes());
    seed
}
