//! JSON values read by forms.
//!
//! A [`Form`] says what a JSON value is read as, if it is of the form, and reads it. Forms compose:
//! a list or a pair of any form is a form, and [`member`] reads a member of an object in a form. A
//! value that is not needed any more is given up to [`Form::take`], which is faster for long lists.
//! [`read_value`] reads bytes as a JSON value.
#![tactic(auto)]

mod form;
mod input;
pub mod laws;
mod lists;
mod numbers;

pub use form::{Form, Misread, is_object, member, take_member};
pub use input::{NoValue, read_value};
pub use lists::{ListOf, ListOfLength, PairOf};
pub use numbers::{AtMost, Below};
