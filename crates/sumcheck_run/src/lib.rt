//! From bytes to bytes: the command line, and `run`.
//!
//! The reply to a command and an input is one function of the definitions, `reply_of` in
//! `specs/Program.antt`; `run` reads, answers and writes, and its contract speaks of that function,
//! and of what each command promises of its replies (`CommandPromise` there).
#![tactic(auto)]

mod command;
mod program;

pub use command::{Command, Kind, needs_input, read_command};
pub use program::{Status, run};
pub use sc_streams::{Failed, MemSink, MemSource, PlainSource, Sink, Source, StdSink, StdSource};
pub use sumcheck_audit::{AuditJobs, Job, Mode, Proof, judge_job, read_job, show_report};
pub use sumcheck_circuit::{
    CircuitJob, CircuitJobs, LayerGiven, judge_circuit, read_circuit, show_circuit,
};
pub use sumcheck_explain::{ExplainJob, ExplainJobs, judge_explain, read_explain, show_masks};
pub use sumcheck_make::{Recipe, make};
pub use sumcheck_matmul::{MatmulJob, MatmulJobs, judge_matmul, read_matmul, show_matmul};
pub use sumcheck_members::{
    BuildOrCheck, Challenger, EqualityClaim, FieldName, Group, Member, ProductClaim, ScalarClaim,
    Script, Sizes, Stated, SuccessorClaim, Unread,
};
pub use sumcheck_openings::{
    ClaimGiven, OpeningsJob, OpeningsJobs, ProofGiven, judge_openings, read_openings, show_openings,
};
pub use sumcheck_product::{ProductJob, ProductJobs, ProductProof, judge_product, read_product};
pub use sumcheck_replies::{Answer, JobKind, Outcome, reply_to};
pub use sumcheck_veil::{
    DrawnMasks, Masks, Veil, VeilJob, VeilJobs, WrittenMasks, judge_veil, read_veil,
};
