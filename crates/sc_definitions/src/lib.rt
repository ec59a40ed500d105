//! The definitions that the contracts of this repository cite, and the laws on them.
//!
//! The definitions stand in `specs/`, the laws in `proofs/`; both speak of elements by their numbers.
#![tactic(auto)]

mod events;
mod false_claim;
mod interactions;

pub use events::Event;
pub use false_claim::FalseClaim;
pub use interactions::{Interaction, Kind, Label, Length, Protocol};
