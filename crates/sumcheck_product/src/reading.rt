//! The job of `product` that a JSON value describes, or the first member that is not of its form.
ghost use Rattle.std.specs.Prelude.{◌≡◌, ◌≢◌, ◌≤◌, Some, None, Ok, Err, IfOk, IsErrOf, length};
ghost use Rattle.serde_json.specs.View.{view};
ghost use Rattle.sumcheck_members.specs.Members.{member_name};
ghost use Rattle.sumcheck_members.specs.Elements.{sizes_of};
ghost use Rattle.sumcheck_product.specs.ProductJob.{ProductJobFits};
ghost use Rattle.sumcheck_product.specs.ProductJob.{ProductProofFits, TablesFit, product_job_of};
ghost use Rattle.sumcheck_product.specs.ProductJob.{product_members_over};
ghost use Rattle.sumcheck_product.specs.ProductJob.{most_tables, some_tables};
ghost use Rattle.sumcheck_product.specs.ProductJob.{product_proof_form, tables_form};

use crate::job::{ProductJob, ProductProof};
use sc_forms::{AtMost, Below, Form, ListOf, Misread, is_object, member};
use sc_table::Row;
use serde_json::Value;
use std::alloc::Global;
use sumcheck_members::{
    BuildOrCheckForm, ChallengerForm, FieldForm, FieldName, MOST_BITS, Member, Sizes, Unread, need,
    take,
};

// The greatest number of tables of a job.
const MOST_TABLES: usize = 8;

// From 1 to 8 tables.
#[derive(Clone, Copy)]
struct TablesForm {
    sizes: Sizes,
}

impl Form for TablesForm {
    type Out = Row<Row<u64>>;

    ghost reads = { λ form. tables_form form.sizes };

    ghost fits = { λ form tables. TablesFit form.sizes.base tables };

    fn read(&self, alloc: Global, value: &Value) -> Result<Row<Row<u64>>, Misread> {
        let entry = Below {
            bound: self.sizes.base,
        };
        let tables = ListOf {
            item: ListOf { item: entry },
        };
        some_tables(tables.read(alloc, value)?)
    }

    fn take(&self, alloc: Global, value: Value) -> Result<Row<Row<u64>>, Misread> {
        let entry = Below {
            bound: self.sizes.base,
        };
        let tables = ListOf {
            item: ListOf { item: entry },
        };
        some_tables(tables.take(alloc, value)?)
    }
}

// The tables, if there are from 1 to 8.
fn some_tables(tables: Row<Row<u64>>) -> Result<Row<Row<u64>>, Misread>
    ensures ok { IfOk result (λ x. (x ≡ tables) × (some_tables tables ≡ Some x)) }
    ensures not_of_form { IsErrOf result Misread.NotOfForm → some_tables tables ≡ None }
    ensures few { IfOk result (λ x. (1 ≤ length x) × (length x ≤ most_tables)) }
    ensures no_other { result ≢ Err Misread.NoMemory }
{
    if tables.len() < 1 || tables.len() > MOST_TABLES {
        return Err(Misread::NotOfForm);
    }
    Ok(tables)
}

#[derive(Clone, Copy)]
struct ProductProofForm {
    sizes: Sizes,
}

impl Form for ProductProofForm {
    type Out = ProductProof;

    ghost reads = { λ form. product_proof_form form.sizes };

    ghost fits = { λ form proof. ProductProofFits form.sizes proof };

    fn read(&self, alloc: Global, value: &Value) -> Result<ProductProof, Misread> {
        let value_sent = Below {
            bound: self.sizes.extension,
        };
        let witness = Below {
            bound: self.sizes.base,
        };
        let claimed = member(alloc, &value_sent, value, "claimed")?;
        let lists = ListOf {
            item: ListOf { item: value_sent },
        };
        let rounds = member(alloc, &lists, value, "rounds")?;
        let witnesses = member(alloc, &ListOf { item: witness }, value, "witnesses")?;
        Ok(ProductProof {
            claimed,
            rounds,
            witnesses,
        })
    }
}

/// The job of `product` that a value describes, or its first member that is missing or not of its
/// form. The value is given up.
pub fn read_product(alloc: Global, value: Value) -> Result<ProductJob, Unread>
    ensures job { IfOk result (λ job. product_job_of (view value) ≡ Ok job) }
    ensures misfit { (m : Member) → result ≡ Err (Unread.Misfit m)
        → product_job_of (view value) ≡ Err (member_name m) }
    ensures fits { IfOk result (λ job. ProductJobFits (sizes_of job.field) job) }
{
    if !is_object(&value) {
        return Err(Unread::Misfit(Member::named("job")));
    }
    let field = need(alloc, &FieldForm, &value, "field")?;
    read_product_members(alloc, value, field, field.sizes())
}

// The members after the field, which has these sizes. The tables are read last, since the value is
// given up for them; where they are not of their form, they are told before the mode.
fn read_product_members(
    alloc: Global,
    value: Value,
    field: FieldName,
    sizes: Sizes,
) -> Result<ProductJob, Unread>
    ensures job { IfOk result (λ job. product_members_over field sizes (view value) ≡ Ok job) }
    ensures misfit { (m : Member) → result ≡ Err (Unread.Misfit m)
        → product_members_over field sizes (view value) ≡ Err (member_name m) }
    ensures field { IfOk result (λ job. job.field ≡ field) }
    ensures fits { IfOk result (λ job. ProductJobFits sizes job) }
{
    let challenger = ChallengerForm { sizes };
    let challenger = need(alloc, &challenger, &value, "challenger")?;
    let most = AtMost { most: MOST_BITS };
    let bits = need(alloc, &most, &value, "bits")?;
    let proof = ProductProofForm { sizes };
    let mode = need(alloc, &BuildOrCheckForm { proof }, &value, "mode");
    let tables = take(alloc, &TablesForm { sizes }, value, "tables")?;
    Ok(ProductJob {
        field,
        challenger,
        bits,
        tables,
        mode: mode?,
    })
}
