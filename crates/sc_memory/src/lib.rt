//! What every crate of the family needs of memory: the error of a call that wanted more than there was, lists
//! with room for what comes, and lists that contracts see as lists.
#![tactic(auto)]

mod memory;
mod row;

pub use memory::{NoMemory, with_room};
pub use row::Row;
