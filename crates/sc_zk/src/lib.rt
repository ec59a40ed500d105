//! Masked rounds, by the names that a protocol uses: commitments and codes for masks, the shape and
//! the transcripts of a masked batch, a prover that goes on under masks ([`IntoZk`]), and the
//! verifier ([`ZkVerifier`]), which records what is claimed of a table, or is handed a claim.
//!
//! A prover adds masks to its rounds, polynomials of one variable each that it has committed to, to
//! hide what it sends of its tables. The verifier replays the rounds as they came. Its residual is
//! the combination times the plain one, and the masks at their challenges ([`mask_residual`]),
//! which the commitment has to open. What an observer sees of masks is their view
//! ([`assemble_masks`]), and other masks have the same view ([`explain_masks`]). A simulator makes
//! such rounds without a table ([`simulate_classic_unpacked`],
//! [`simulate_classic_unpacked_claim`]), and the verifier accepts them.
#![tactic(auto)]

mod in_step;
mod simulator;
mod verifier;

pub use in_step::{layout_in_step, recorded_simulation_in_step};
pub use sc_commitments::{DrawElement, Mmcs, NodeCode, RowMajorMatrix, Sha2Mmcs, ZkEncoding};
pub use sc_layout::{
    LayoutStrategy, OpeningEvals, OpeningRequest, PrefixProver, SuffixProver, TableShape, Verifier,
};
pub use sc_zk_layout::{ZkLayout, ZkPrefixProver, ZkProver, ZkSuffixProver};
pub use sc_zk_rounds::{
    Handoff, IntoZk, MaskOracle, MaskedRun, ZkSumcheckData, ZkSumcheckHandoff, ZkVerifierHandoff,
    covector_laws, mask_residual, mask_residual_covectors, mask_residual_covectors_from_shape,
    masked_in_step,
};
pub use sc_zk_simulators::{
    SimulatedRun, simulate_classic_unpacked_claim, simulate_recorded, simulation_in_step,
};
pub use sc_zk_transcript::{
    ZkPrelude, ZkProverTranscript, ZkStep, ZkSumcheckShape, ZkVerifierTranscript, shape_laws,
};
pub use sc_zk_views::{PlainPiece, RealView, assemble_masks, explain_masks};
pub use simulator::simulate_classic_unpacked;
pub use verifier::ZkVerifier;
