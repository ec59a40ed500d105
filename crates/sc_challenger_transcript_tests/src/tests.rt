//! Challengers, and the drivers over them.
mod challengers;
mod transcripts;
