//! What an observer sees of masks, and the masks that explain it.
//!
//! A masked round shows its wire, and a masked batch the total of its masks besides.
//! [`assemble_masks`] makes that view of masks. [`explain_masks`] goes the other way: for each view
//! and all endpoints but the first, it finds the one list of masks that has them, whatever they
//! mask.
#![tactic(auto)]

mod assemble;
mod explain;
mod mask_sums;
mod sums;
mod view;

pub use assemble::assemble_masks;
pub use explain::explain_masks;
pub use view::{PlainPiece, RealView};
