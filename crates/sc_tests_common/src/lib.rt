//! What the tests of many crates make of numbers: elements, points, tables and challengers, and whether elements and messages have given numbers.
//! Only crates of tests use it.
#![tactic(auto)]

mod counted;
mod numbers;
mod scripts;
mod tables;
mod texts;
mod wide;

pub use counted::{Counted, Image, Traced};
pub use numbers::{are_pairs, elements, have_numbers, of, point};
pub use scripts::scripted;
pub use tables::{entry, table};
pub use texts::hex_digits;
pub use wide::Wide;
