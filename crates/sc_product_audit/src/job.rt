//! What is asked.
ghost use Rattle.sc_product_audit.specs.ProductFields.{AreFieldsOf};

use sc_degree::GenericDegreeProof;
use sc_field::{ExtensionField, Field};

/// What is done with a product of tables.
#[derive(Drop)]
pub enum ProductMode<F, EF> {
    /// The rounds are built, with the true sum.
    Build,
    /// The rounds of a proof are checked.
    Check(GenericDegreeProof<F, EF>),
}

/// Tables whose product is summed over all rows, and what is done with them.
#[derive(Drop)]
pub struct ProductJob<F: Field, EF: ExtensionField<F>> {
    /// The tables, one or more, each with row 0 first; the first variable belongs to the highest
    /// bit of a row. They are bound in their places, so a job is given up.
    pub tables: Vec<Vec<EF>>,
    /// The difficulty of each round's test in bits, or 0 for no test.
    pub pow_bits: usize,
    /// What is done.
    pub mode: ProductMode<F, EF>,
    // It says nothing but which fields the job is over, so that contracts need not say it again.
    ghost over: { AreFieldsOf F.number EF.number EF.embedding EF.extension },
}
