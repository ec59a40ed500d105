//! The tests of `sc_product_audit` and `sc_circuit`, in a crate of their own, since a check of
//! tests proves all that stands beside them once more.
#![tactic(auto)]

#[cfg(test)]
mod tests;
