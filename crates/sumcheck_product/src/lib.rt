//! Jobs of `product`: the rounds of a sum over all rows of the product of several tables, built or
//! checked, and the report on them.
//!
//! Which job a value describes is `product_job_of` in `specs/ProductJob.antt`, and what the numbers
//! of one that was read have is `ProductJobFits`. What a job is answered is one function of the
//! definitions, `product_answer` in `specs/Products.antt`, by what a call of `audit_product`
//! answers (`sc_product_audit`). What is promised of each job is `ProductPromise` in
//! `specs/CertifiedProducts.antt`.
#![tactic(auto)]

mod asked;
mod job;
mod kind;
mod reading;
mod report;

pub use job::{ProductJob, ProductProof};
pub use kind::ProductJobs;
pub use reading::read_product;
pub use report::{judge_product, show_product};
