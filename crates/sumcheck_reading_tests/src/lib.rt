//! The tests of `sc_memory`, `sc_forms` and `sumcheck_members`, in a crate of their own, since a
//! check of tests proves all that stands beside them once more.
#![tactic(auto)]

#[cfg(test)]
mod tests;
