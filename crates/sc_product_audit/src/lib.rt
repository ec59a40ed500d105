//! Rounds over a product of tables as one call: they are built, or those of a proof are checked.
//!
//! [`audit_product`] answers the report with its verdict, or why there is none, for every field,
//! extension and challenger. What it answers is one function of the definitions, `product_result`
//! in `specs/ProductReports.antt`.
#![tactic(auto)]

mod audit;
mod building;
mod checking;
mod error;
mod job;
mod refusals;
mod report;
mod shape;
mod tables;

pub use audit::audit_product;
pub use error::ProductError;
pub use job::{ProductJob, ProductMode};
pub use report::{ProductReport, ProductVerdict};
pub use sc_degree::GenericDegreeProof;
