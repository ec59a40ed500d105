//! What a prover commits to its masks with: commitments to matrices ([`Mmcs`]), codes with
//! randomness ([`ZkEncoding`]), and elements drawn from a generator ([`DrawElement`]).
#![tactic(auto)]

mod draws;
mod encoding;
mod masks;
mod matrix;
mod mmcs;
mod node_code;
mod sha2_mmcs;

pub use draws::{DrawElement, draw_list};
pub use encoding::ZkEncoding;
pub use masks::sample_masks;
pub use matrix::RowMajorMatrix;
pub use mmcs::Mmcs;
pub use node_code::NodeCode;
pub use sha2_mmcs::Sha2Mmcs;
