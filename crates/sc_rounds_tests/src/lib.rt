//! The tests of `sc_rounds`, on elements and on images of elements, in a crate of their own, since
//! a check of tests proves all that stands beside them once more.
#![tactic(auto)]

#[cfg(test)]
mod tests;
