//! The tests of `sc_degree`, in a crate of their own, and a prover of their own beside those of
//! `sc_degree`.
#![tactic(auto)]

mod two_products;

pub use two_products::TwoProducts;

#[cfg(test)]
mod tests;
