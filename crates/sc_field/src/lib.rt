//! Finite fields, by their numbers: what a field, an algebra over one, an extension and another
//! representation of one are, and their laws. The fields themselves stand in crates of their own:
//! five small ones in `sc_small_fields` and `sc_sixteen`.
//!
//! Each element has a number below the field's size, and the contracts speak of elements by their
//! numbers alone.
#![tactic(auto)]

mod algebra;
mod field;
pub mod laws;
mod powers;
mod representation;
mod roots;

pub use algebra::{Algebra, ExtensionField};
pub use field::Field;
pub use powers::Powers;
pub use representation::{FromTable, IntoTranscriptField};
pub use sc_memory::{NoMemory, with_room};
