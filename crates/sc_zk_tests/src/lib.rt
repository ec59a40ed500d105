//! The tests of `sc_commitments`, `sc_zk_transcript`, `sc_zk_rounds`, `sc_zk_views`,
//! `sc_zk_simulators` and `sc_zk`, in a crate of their own, since a check of tests proves all that
//! stands beside them once more.
#![tactic(auto)]

#[cfg(test)]
mod tests;
