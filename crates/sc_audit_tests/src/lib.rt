//! The tests of `sc_audit`, on representations and over extensions too, in a crate of their own,
//! since a check of tests proves all that stands beside them once more.
#![tactic(auto)]

#[cfg(test)]
mod tests;
