//! Values of masks, wires and replays, by figures by hand.
mod prover;
mod values;
mod verifier;
