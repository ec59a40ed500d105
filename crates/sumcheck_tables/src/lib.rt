//! Audits of tables that stand in memory, by the numbers of their elements: values at points are
//! claimed of a table, and its rounds are built, or those that are handed in are checked.
//!
//! What is asked is `asked_by` in `specs/Tables.antt`, and what is answered one function of it,
//! `table_answer`: the report of an audit of it, or why there is none (`answer_to` of `sc_jobs`).
//! So it is the answer that the program gives a job with the same numbers.
#![tactic(auto)]

mod answer;
mod asked;
mod error;
mod job;
mod numbers;

pub use answer::audit_table;
pub use error::TableError;
pub use job::{Draws, RoundNumbers, TableJob, TableMode};
