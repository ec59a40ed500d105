//! Sums of values.
ghost use Rattle.std.specs.Prelude.{◌≡◌, map};
ghost use Rattle.sc_zk_definitions.specs.Masks.{sum_of};

use sc_field::Field;

/// The sum of values.
pub(crate) fn sum<EF: Field>(values: &[EF]) -> EF
    ensures { EF.number result ≡ sum_of EF.ops (map EF.number values.now) }
{
    let mut sum = EF::ZERO;
    let mut left = values.len();
    while left > 0 {
        left -= 1;
        sum = values[left].add(sum);
    }
    sum
}
