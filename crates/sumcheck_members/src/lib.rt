//! The members that the jobs of several commands have, each read in its form from a JSON value.
//!
//! What a value states is one function of the definitions, `stated_over` in `specs/Stated.antt`,
//! and what the numbers have that were read is one relation, `StatedFits`. Elements stand by their
//! numbers; which statements the claims make is said in `specs/Statements.antt`. The jobs of a
//! command, which say more than this, are read in the command's crate.
#![tactic(auto)]

mod groups;
mod job;
mod member;
mod mode;
mod reading;

pub use job::{
    Challenger, EqualityClaim, FieldName, Group, ProductClaim, ScalarClaim, Script, Sizes, Stated,
    SuccessorClaim,
};
pub use member::{Member, Unread, need, need_or, take};
pub use mode::{BuildOrCheck, BuildOrCheckForm};
pub use reading::{BasisForm, ChallengerForm, FieldForm, MOST_BITS, OrderForm, read_stated};
