//! What the commands share: an answer and how it ends the program, the lines of reports and the
//! texts of refusals, and the fields and challengers that jobs name.
//!
//! Each line and each text is one function of the definitions, in `specs/Lines.antt`; the reply to
//! each refusal of an audit is `refusal_reply` in `specs/Refusals.antt`.
//!
//! A command that reads jobs is a [`JobKind`], and [`reply_to`] answers an input for each of them.
//! What such a kind is in the definitions is the record `Jobs` in `specs/Kinds.antt`.
#![tactic(auto)]

mod challengers;
mod kind;
pub mod lines;
mod numbers;
mod over;
mod refusals;
mod reply;

pub use challengers::scripted;
pub use kind::{JobKind, MAX_INPUT, reply_to};
pub use numbers::{element_lists, elements, number_at};
pub use over::{FieldJobs, answer_named};
pub use refusals::refuse;
pub use reply::{Answer, Outcome};
