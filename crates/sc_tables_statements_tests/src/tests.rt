//! Tables, the weights of rows, and statements with their batches.
mod statements;
mod tables;
mod weights;
