//! Masked rounds: their data, the values of masks at challenges, the wire of a round, and the
//! replay of a claim.
#![tactic(auto)]

mod assembly;
mod data;
pub mod head;
mod in_step;
mod into_zk;
pub mod mixing;
pub mod oracle;
pub mod plain;
pub mod player;
pub mod replayed;
mod sums;
mod values;
mod verifier;

pub use assembly::masked_wire;
pub use data::{Handoff, MaskOracle, ZkSumcheckData, ZkSumcheckHandoff, ZkVerifierHandoff};
pub use in_step::{MaskedRun, masked_in_step};
pub use into_zk::IntoZk;
pub use values::{
    covector_laws, mask_residual, mask_residual_covectors, mask_residual_covectors_from_shape,
};
pub use verifier::verify_claim;
