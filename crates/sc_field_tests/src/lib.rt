//! The tests of `sc_field`, `sc_small_fields` and `sc_sixteen`, in a crate of their own, since a check of
//! tests proves all that stands beside them once more.
#![tactic(auto)]

#[cfg(test)]
mod tests;
