//! An extension of degree 2 of the integers modulo 257.
ghost use Rattle.std.specs.Prelude.{◌≡◌, refl};
ghost use Rattle.std.proofs.Common.{lit<, lit≤};
ghost use Rattle.sc_definitions.specs.Residues.{residues};
ghost use Rattle.sc_definitions.specs.Quadratic.{pair, quadratic, pair_extension};
ghost use Rattle.sc_small_fields.specs.F257Laws.{f257_field};
ghost use Rattle.sc_small_fields.specs.F257x2Laws.{f257x2_field};
ghost use Rattle.sc_small_fields.specs.F257x2Laws.{f257x2_zero, f257x2_one, f257x2_two};
ghost use Rattle.sc_small_fields.specs.QuadraticLaws.{pair_below, pair_iff};
ghost use Rattle.sc_small_fields.specs.QuadraticFields.{first_map, pair_extends};

use crate::f257::F257;
use sc_field::{Algebra, ExtensionField, Field};

/// An element a + b u over [`F257`], where `u^2 = 3`. It has the number a + 257 b, and the parts a
/// and b, in this order.
#[derive(Clone, Copy, PartialEq, Eq, Debug)]
pub struct F257x2 {
    // a
    low: F257,
    // b
    high: F257,
}

impl Field for F257x2 {
    ghost ops = { quadratic (residues 257) 3 };

    ghost number = { λ x. pair (residues 257) x.low.value x.high.value };

    ghost ZERO = { record { low = record { value = 0; below = lit< tt }; high = record { value = 0; below = lit< tt } } };

    ghost ONE = { record { low = record { value = 1; below = lit< tt }; high = record { value = 0; below = lit< tt } } };

    ghost TWO = { record { low = record { value = 2; below = lit< tt }; high = record { value = 0; below = lit< tt } } };

    const ZERO: F257x2 = F257x2 {
        low: F257 { value: 0 },
        high: F257 { value: 0 },
    };

    const ONE: F257x2 = F257x2 {
        low: F257 { value: 1 },
        high: F257 { value: 0 },
    };

    const TWO: F257x2 = F257x2 {
        low: F257 { value: 2 },
        high: F257 { value: 0 },
    };

    ghost is_field = { f257x2_field };

    ghost size_least = { lit≤ tt };

    ghost size_most = { lit≤ tt };

    ghost zero_is = { f257x2_zero };

    ghost one_is = { f257x2_one };

    ghost two_is = { f257x2_two };

    ghost number_below = { λ x. pair_below (residues 257) f257_field.ring x.low.value x.high.value x.low.below x.high.below };

    ghost equality = { λ x y. pair_iff (residues 257) f257_field.ring x.low.value x.high.value y.low.value y.high.value x.low.below y.low.below };

    fn size() -> u64 {
        66049
    }

    fn element(index: u64) -> F257x2 {
        F257x2 {
            low: F257::element(index % 257),
            high: F257::element(index / 257),
        }
    }

    fn index(self) -> u64 {
        self.low.index() + 257 * self.high.index()
    }

    fn add(self, other: F257x2) -> F257x2 {
        F257x2 {
            low: self.low.add(other.low),
            high: self.high.add(other.high),
        }
    }

    fn sub(self, other: F257x2) -> F257x2 {
        F257x2 {
            low: self.low.sub(other.low),
            high: self.high.sub(other.high),
        }
    }

    // (a + b u) (c + d u) is (a c + 3 b d) + (a d + b c) u. Both parts are below 2^19 before they are reduced.
    fn mul(self, other: F257x2) -> F257x2 {
        let a = self.low.value as u32;
        let b = self.high.value as u32;
        let c = other.low.value as u32;
        let d = other.high.value as u32;
        F257x2 {
            low: F257::reduced(a * c + 3 * (b * d)),
            high: F257::reduced(a * d + b * c),
        }
    }

    // The parts of each product are below 2^21, so that 32 bits hold their sums, which are reduced once.
    fn dot(xs: &[F257x2], ys: &[F257x2]) -> F257x2 {
        let mut low: u32 = 0;
        let mut high: u32 = 0;
        for i in 0..xs.len() {
            let (x, y) = (xs[i], ys[i]);
            let (a, b) = (x.low.value as u32, x.high.value as u32);
            let (c, d) = (y.low.value as u32, y.high.value as u32);
            low += a * c + 3 * (b * d);
            high += a * d + b * c;
        }
        F257x2 {
            low: F257::reduced(low),
            high: F257::reduced(high),
        }
    }

    fn dot_differences(x0: &[F257x2], x1: &[F257x2], y0: &[F257x2], y1: &[F257x2]) -> F257x2 {
        let mut low: u32 = 0;
        let mut high: u32 = 0;
        for i in 0..x0.len() {
            let (x, less) = (x1[i], x0[i]);
            let a = x.low.above(less.low);
            let b = x.high.above(less.high);
            let (y, less) = (y1[i], y0[i]);
            let c = y.low.above(less.low);
            let d = y.high.above(less.high);
            low += a * c + 3 * (b * d);
            high += a * d + b * c;
        }
        F257x2 {
            low: F257::reduced(low),
            high: F257::reduced(high),
        }
    }

    fn dot_pairs(pairs: usize, xs: &[F257x2], ys: &[F257x2]) -> (F257x2, F257x2) {
        let mut low: u32 = 0;
        let mut high: u32 = 0;
        let mut low_difference: u32 = 0;
        let mut high_difference: u32 = 0;
        for i in 0..pairs {
            let (x, y) = (xs[2 * i], ys[2 * i]);
            let (a, b) = (x.low.value as u32, x.high.value as u32);
            let (c, d) = (y.low.value as u32, y.high.value as u32);
            low += a * c + 3 * (b * d);
            high += a * d + b * c;
            let (x1, y1) = (xs[2 * i + 1], ys[2 * i + 1]);
            let e = x1.low.above(x.low);
            let f = x1.high.above(x.high);
            let g = y1.low.above(y.low);
            let h = y1.high.above(y.high);
            low_difference += e * g + 3 * (f * h);
            high_difference += e * h + f * g;
        }
        let even = F257x2 {
            low: F257::reduced(low),
            high: F257::reduced(high),
        };
        let difference = F257x2 {
            low: F257::reduced(low_difference),
            high: F257::reduced(high_difference),
        };
        (even, difference)
    }

    fn neg(self) -> F257x2 {
        F257x2 {
            low: self.low.neg(),
            high: self.high.neg(),
        }
    }

    // (a + b u) (a - b u) is a^2 - 3 b^2. That is zero at zero alone, since 3 is no square.
    fn inverse(self) -> Option<F257x2> {
        let triple = F257::element(3).mul(self.high.square());
        let norm = self.low.square().sub(triple);
        match norm.inverse() {
            Some(scale) => Some(F257x2 {
                low: self.low.mul(scale),
                high: self.high.mul(scale).neg(),
            }),
            None => None,
        }
    }
}

impl Algebra<F257> for F257x2 {
    ghost embedding = { λ x. x };

    ghost embeds = { first_map (residues 257) f257_field.ring 3 };

    fn embed(b: F257) -> F257x2 {
        F257x2 {
            low: b,
            high: F257::ZERO,
        }
    }

    fn mul_base(self, b: F257) -> F257x2 {
        F257x2 {
            low: self.low.mul(b),
            high: self.high.mul(b),
        }
    }
}

impl ExtensionField<F257> for F257x2 {
    ghost DEGREE = { 2 };

    ghost extension = { pair_extension (residues 257) };

    ghost extends = { pair_extends (residues 257) f257_field.ring 3 };

    ghost degree_is = { refl };

    ghost degree_least = { lit≤ tt };

    ghost degree_most = { lit≤ tt };

    const DEGREE: usize = 2;

    fn part(self, i: usize) -> F257 {
        if i == 0 { self.low } else { self.high }
    }

    fn from_parts(parts: &[F257]) -> F257x2 {
        F257x2 {
            low: parts[0],
            high: parts[1],
        }
    }

    fn with_part(self, i: usize, x: F257) -> F257x2 {
        if i == 0 {
            F257x2 {
                low: x,
                high: self.high,
            }
        } else {
            F257x2 {
                low: self.low,
                high: x,
            }
        }
    }
}
