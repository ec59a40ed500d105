//! The job that `make` makes of a recipe, and the report on it in short.
//!
//! What is replied to a recipe is one function of the definitions, `made_reply` in
//! `specs/Made.antt`; the values that a number begins are `value_at` there.
#![tactic(auto)]

mod made;
mod recipe;
mod stride;
mod values;

pub use made::make;
pub use recipe::Recipe;
