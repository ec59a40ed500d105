//! The tests of `sc_partials`, `sc_svo` and `sc_layout`, in a crate of their own, since a check of
//! tests proves all that stands beside them once more.
#![tactic(auto)]

#[cfg(test)]
mod tests;
