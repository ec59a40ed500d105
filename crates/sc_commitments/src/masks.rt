//! Masks that are drawn with their randomness.
ghost use Rattle.std.specs.Prelude.{◌≡◌, All, IfOk, OnErr, length};
ghost use Rattle.sc_commitments.specs.Matrices.{lists_in};
ghost use Rattle.sc_commitments.specs.Draws.{lists_from, masks_from, drawn};
ghost use Rattle.sc_commitments.specs.Draws.{SomeDrawn, SomeMasksDrawn};

use crate::encoding::ZkEncoding;
use rand_core::Rng;
use sc_field::{Field, NoMemory, with_room};
use std::alloc::Global;

/// Draws `count` masks, which are messages of the encoding, and the randomness of each: all masks
/// first, and then all randomness.
///
/// # Errors
///
/// [`NoMemory`] alone. Then the generator has drawn some of the masks, or all of them and some of
/// the randomness.
pub fn sample_masks<EF: Field, Enc: ZkEncoding<EF>, G: Rng>(
    alloc: Global,
    encoding: &Enc,
    count: usize,
    rng: &mut G,
) -> Result<(Vec<Vec<EF>>, Vec<Vec<EF>>), NoMemory>
    ensures drawn { IfOk result (λ made. drawn (lists_in EF.number made.0.items)
        (lists_in EF.number made.1.items) (G.stream rng.new)
        ≡ masks_from (Enc.message_from encoding.now) (Enc.randomness_from encoding.now) count
        (G.stream rng.old)) }
    ensures counts { IfOk result (λ made. (length made.0.items ≡ count)
        × (length made.1.items ≡ count)) }
    ensures masks { IfOk result (λ made. All
        (λ v. length v.items ≡ Enc.message_length encoding.now) made.0.items) }
    ensures randomness { IfOk result (λ made. All
        (λ v. length v.items ≡ Enc.randomness_length encoding.now) made.1.items) }
    ensures refused { OnErr result (SomeMasksDrawn (Enc.message_from encoding.now)
        (Enc.randomness_from encoding.now) count (G.stream rng.old) (G.stream rng.new)) }
{
    let masks = sample_messages(alloc, encoding, count, rng)?;
    let randomness = sample_all_randomness(alloc, encoding, count, rng)?;
    Ok((masks, randomness))
}

// Draws so many messages.
fn sample_messages<EF: Field, Enc: ZkEncoding<EF>, G: Rng>(
    alloc: Global,
    encoding: &Enc,
    count: usize,
    rng: &mut G,
) -> Result<Vec<Vec<EF>>, NoMemory>
    ensures drawn { IfOk result (λ v. (lists_in EF.number v.items, G.stream rng.new)
        ≡ lists_from (Enc.message_from encoding.now) count (G.stream rng.old)) }
    ensures count { IfOk result (λ v. length v.items ≡ count) }
    ensures lengths { IfOk result (λ v. All
        (λ u. length u.items ≡ Enc.message_length encoding.now) v.items) }
    ensures refused { OnErr result (SomeDrawn (Enc.message_from encoding.now) count
        (G.stream rng.old) (G.stream rng.new)) }
{
    let mut messages = with_room(alloc, count)?;
    for _place in 0..count {
        messages.push_reserved(encoding.sample_message(alloc, rng)?);
    }
    Ok(messages)
}

// Draws randomness so many times.
fn sample_all_randomness<EF: Field, Enc: ZkEncoding<EF>, G: Rng>(
    alloc: Global,
    encoding: &Enc,
    count: usize,
    rng: &mut G,
) -> Result<Vec<Vec<EF>>, NoMemory>
    ensures drawn { IfOk result (λ v. (lists_in EF.number v.items, G.stream rng.new)
        ≡ lists_from (Enc.randomness_from encoding.now) count (G.stream rng.old)) }
    ensures count { IfOk result (λ v. length v.items ≡ count) }
    ensures lengths { IfOk result (λ v. All
        (λ u. length u.items ≡ Enc.randomness_length encoding.now) v.items) }
    ensures refused { OnErr result (SomeDrawn (Enc.randomness_from encoding.now) count
        (G.stream rng.old) (G.stream rng.new)) }
{
    let mut randomness = with_room(alloc, count)?;
    for _place in 0..count {
        randomness.push_reserved(encoding.sample_randomness(alloc, rng)?);
    }
    Ok(randomness)
}
