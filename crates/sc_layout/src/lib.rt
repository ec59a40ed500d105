//! The openings of a table of one column: what its holder answers at points that a challenger
//! draws, what its verifier records of that, and one batch of it all.
//!
//! A prover in either order ([`PrefixProver`], [`SuffixProver`]) holds the table and a
//! [`ClaimBook`]; a [`Verifier`] has no table, and records the values that came. Contracts see what
//! is recorded as one list of statements: the concrete claims in order, in each the current values
//! before those through the successor map, and then the virtual ones.
#![tactic(auto)]

mod book;
mod drawn;
mod layout;
mod multi_claim;
mod opened_claim;
mod prover;
mod request;
mod scaled;
mod shape;
mod sums;
mod verifier;

pub use book::{Book, ClaimBook, ProverVirtualClaim};
pub use layout::Layout;
pub use multi_claim::ProverMultiClaim;
pub use opened_claim::{OpenedClaim, VerifierMultiClaim};
pub use prover::{BindingOrder, PrefixFirst, PrefixProver, SuffixFirst, SuffixProver, TableProver};
pub use request::{OpeningEvals, OpeningRequest};
pub use shape::{LayoutStrategy, TableShape};
pub use sums::BatchedSum;
pub use verifier::Verifier;
