//! Each field's operations against figures by hand, and each generic function once.

ghost use Rattle.std.specs.Prelude.{◌≡◌};

mod columns;
mod figures;
mod integers;
mod pairs;
mod roots;
mod sixteen;
mod sums;

use sc_field::laws::{field_laws, interpolation_laws, power_laws, root_laws, sum_laws};
use sc_field::{Algebra, ExtensionField, Field, FromTable, IntoTranscriptField, NoMemory};
use sc_small_fields::F65537;
use std::alloc::Global;

// Element number 15, which every field has.
fn fifteenth<F: Field>() -> F
    ensures { F.number result ≡ 15 }
{
    F::element(15)
}

// The sum of two products, in any algebra.
fn combined<B: Field, A: Algebra<B>>(a: A, b: B, c: A, d: B) -> A {
    a.mul_base(b).add(c.mul(A::embed(d)))
}

// The first part, put back.
fn first_part_put<F: Field, EF: ExtensionField<F>>(x: EF, part: F) -> (usize, F, EF) {
    field_laws::<EF>();
    (EF::DEGREE, x.part(0), x.with_part(0, part))
}

// A table there and back.
fn there_and_back<EF: Field, R: IntoTranscriptField<EF>>(
    alloc: Global,
    table: Vec<EF>,
) -> Result<Vec<EF>, NoMemory> {
    let mut back = Vec::new(alloc);
    for x in R::from_table(alloc, table)? {
        back.push(x.into_transcript())?;
    }
    Ok(back)
}

// The element of this number.
fn of(number: u64) -> F65537 {
    F65537::element(number % 65537)
}

#[test]
fn lists_powers(rt: HostRuntime) {
    let shifted: Vec<u64> = of(3)
        .shifted_powers(of(5))
        .take(4)
        .map(|x| x.index())
        .collect(rt.alloc())
        .expect(&rt, "an answer");
    assert!(rt; shifted.as_slice() == [5, 15, 45, 135].as_slice());
    let plain: Vec<u64> = of(2)
        .powers()
        .take(3)
        .map(|x| x.index())
        .collect(rt.alloc())
        .expect(&rt, "an answer");
    assert!(rt; plain.as_slice() == [1, 2, 4].as_slice());
}

#[test]
fn is_over_itself(rt: HostRuntime) {
    assert!(rt; combined(of(2), of(3), of(4), of(5)).index() == 26);
    let (degree, first, put) = first_part_put::<F65537, F65537>(of(8), of(9));
    assert!(rt;
        degree == 1
            && first.index() == 8
            && put.index() == 9
            && <F65537 as ExtensionField<F65537>>::from_parts(&[of(6)]).index() == 6
    );
}

#[test]
fn represents_itself(rt: HostRuntime) {
    let table = vec![in rt.alloc(); of(7), of(65536)].expect(&rt, "an answer");
    let back = there_and_back::<F65537, F65537>(rt.alloc(), table).expect(&rt, "an answer");
    assert!(rt; back.len() == 2 && back[0].index() == 7 && back[1].index() == 65536);
}

#[test]
fn maps_no_whole_table(rt: HostRuntime) {
    let mut output = [of(4)];
    let mapped = <F65537 as FromTable<F65537>>::try_map_coordinates_into(
        &[of(1)],
        &[of(2)],
        &mut output,
    );
    assert!(rt; !mapped && output[0].index() == 4);
}

#[test]
fn laws_are_calls(_rt: HostRuntime) {
    sum_laws::<F65537>();
    power_laws::<F65537>();
    interpolation_laws::<F65537>();
    root_laws::<F65537>();
}
