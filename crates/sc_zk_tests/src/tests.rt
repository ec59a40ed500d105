//! Masked rounds: commitments, shapes and drivers, provers and replays, views, simulators, and
//! claims that are recorded.
mod claims;
mod commitments;
mod rounds;
mod simulators;
mod transcripts;
mod views;
