//! Two fields of 16 elements that represent each other: the tower of two quadratic extensions, and
//! the polynomials modulo one of degree four.
//!
//! Each is an `impl` of the traits of `sc_field`, as those of `sc_small_fields` are.
#![tactic(auto)]

mod poly16;
mod tower16;

pub use poly16::Poly16;
pub use tower16::Tower16;
