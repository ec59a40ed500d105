//! Challengers: what a prover and a verifier observe and draw from, and the seeds that transcripts begin with.
#![tactic(auto)]

mod challenger;
mod extension;
mod grinding;
mod hash;
mod interaction;
mod scripted;
mod separator;

pub use challenger::Challenger;
pub use extension::{observe_ext, sample_ext};
pub use grinding::{GrindError, grind};
pub use hash::HashChallenger;
pub use interaction::InteractionPattern;
pub use sc_definitions::{Event, Interaction, Kind, Label, Length, Protocol};
pub use scripted::ScriptedChallenger;
pub use separator::DomainSeparator;
