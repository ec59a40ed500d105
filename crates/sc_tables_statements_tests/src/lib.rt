//! The tests of `sc_table`, `sc_weights`, `sc_statements` and `sc_constraints`, in a crate of their
//! own, since a check of tests proves all that stands beside them once more.
#![tactic(auto)]

#[cfg(test)]
mod tests;
