//! Three small fields: the integers modulo 65537 and modulo 257, and a quadratic extension of the
//! latter. Two of 16 elements stand in `sc_sixteen`.
//!
//! Each is an `impl` of the traits of `sc_field`. The crates of rounds and audits are written over
//! these traits and name none of the five: programs, examples and tests choose one.
#![tactic(auto)]

mod f257;
mod f257x2;
mod f65537;
mod prime;

pub use f257::F257;
pub use f257x2::F257x2;
pub use f65537::F65537;
