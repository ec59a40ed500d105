//! Elements that are drawn from a generator of random numbers.
ghost use Rattle.std.specs.Prelude.{◌≡◌, ◌%◌, IfOk, OnErr, length};
ghost use Rattle.rand_core.specs.Stream.{next_u64};
ghost use Rattle.sc_commitments.specs.Draws.{draws_from};
ghost use Rattle.sc_commitments.specs.Matrices.{numbers_in};

use rand_core::Rng;
use sc_field::{Field, NoMemory, with_room};
use std::alloc::Global;

/// A field whose elements are drawn from a generator. Every field is one.
pub trait DrawElement: Field {
    /// Draws an element: its number is the generator's next 64 bits, as a number below 2^64, modulo
    /// the size of the field.
    fn draw<G: Rng>(rng: &mut G) -> Self
        ensures number { Self.number result ≡ (next_u64 (G.stream rng.old)).0 % Self.ops.size }
        ensures left { G.stream rng.new ≡ (next_u64 (G.stream rng.old)).1 };
}

impl<F: Field> DrawElement for F {
    fn draw<G: Rng>(rng: &mut G) -> F {
        F::element(rng.next_u64() % F::size())
    }
}

/// The next `count` draws of [`DrawElement`], in their order.
///
/// # Errors
///
/// [`NoMemory`] comes before the first draw: the generator is as it was.
pub fn draw_list<EF: DrawElement, G: Rng>(
    alloc: Global,
    count: usize,
    rng: &mut G,
) -> Result<Vec<EF>, NoMemory>
    ensures drawn { IfOk result (λ v. (numbers_in EF.number v, G.stream rng.new)
        ≡ draws_from EF.ops.size count (G.stream rng.old)) }
    ensures size { IfOk result (λ v. length v.items ≡ count) }
    ensures refused { OnErr result (rng.new ≡ rng.old) }
{
    let mut drawn = with_room(alloc, count)?;
    for _place in 0..count {
        drawn.push_reserved(EF::draw(rng));
    }
    Ok(drawn)
}
