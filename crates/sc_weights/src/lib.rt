//! What a statement weighs the rows of a table by: equality weights, successor weights in a slot,
//! powers, and products of coordinates.
//!
//! Each kind adds its weights to a table in its place, gives the sum of a table's entries times
//! them, and gives their value at a point, as a table in either basis. Each of these takes time
//! linear in the table's length, or in the number of coordinates, and no memory but an array of 256
//! elements for the weights of one block.
#![tactic(auto)]

mod coefficients;
mod equality;
mod next;
mod row_weights;
mod select;
mod successor;
mod values;

pub use next::NextConstraint;
pub use row_weights::RowWeights;
pub use select::Selector;
