//! The job of `openings` that a JSON value describes, or the first member that is not of its form.
ghost use Rattle.std.specs.Prelude.{◌≡◌, Ok, Err, IfOk};
ghost use Rattle.serde_json.specs.View.{view};
ghost use Rattle.sumcheck_members.specs.Members.{member_name};
ghost use Rattle.sumcheck_members.specs.Elements.{sizes_of};
ghost use Rattle.sumcheck_openings.specs.OpeningsJob.{OpeningsJobFits, openings_job_of};
ghost use Rattle.sumcheck_openings.specs.OpeningsJob.{openings_members_over};

use crate::forms::{ClaimForm, ListWithin, ProofGivenForm};
use crate::job::OpeningsJob;
use sc_forms::{AtMost, Below, ListOf, is_object};
use serde_json::Value;
use std::alloc::Global;
use sumcheck_members::{
    BuildOrCheckForm, ChallengerForm, FieldForm, FieldName, MOST_BITS, Member, Sizes, Unread, need,
    take,
};

// The greatest number of tables of a job, of its variables, and of its claims.
const MOST_TABLES: usize = 64;

const MOST_VARIABLES: u64 = 64;

const MOST_CLAIMS: usize = 4096;

/// The job of `openings` that a value describes, or its first member that is missing or not of its
/// form. The value is given up.
pub fn read_openings(alloc: Global, value: Value) -> Result<OpeningsJob, Unread>
    ensures job { IfOk result (λ job. openings_job_of (view value) ≡ Ok job) }
    ensures misfit { (m : Member) → result ≡ Err (Unread.Misfit m)
        → openings_job_of (view value) ≡ Err (member_name m) }
    ensures fits { IfOk result (λ job. OpeningsJobFits (sizes_of job.field) job) }
{
    if !is_object(&value) {
        return Err(Unread::Misfit(Member::named("job")));
    }
    let field = need(alloc, &FieldForm, &value, "field")?;
    read_openings_members(alloc, value, field, field.sizes())
}

// The members after the field, which has these sizes. The tables are read last, since the value is
// given up for them; where they are not of their form, they are told before those that stand after
// them.
fn read_openings_members(
    alloc: Global,
    value: Value,
    field: FieldName,
    sizes: Sizes,
) -> Result<OpeningsJob, Unread>
    ensures job { IfOk result (λ job. openings_members_over field sizes (view value) ≡ Ok job) }
    ensures misfit { (m : Member) → result ≡ Err (Unread.Misfit m)
        → openings_members_over field sizes (view value) ≡ Err (member_name m) }
    ensures field { IfOk result (λ job. job.field ≡ field) }
    ensures fits { IfOk result (λ job. OpeningsJobFits sizes job) }
{
    let challenger = need(alloc, &ChallengerForm { sizes }, &value, "challenger")?;
    let bits = need(alloc, &AtMost { most: MOST_BITS }, &value, "bits")?;
    let entry = Below { bound: sizes.base };
    let tables = ListWithin {
        list: ListOf {
            item: ListOf { item: entry },
        },
        least: 1,
        most: MOST_TABLES,
    };
    let claims = ListWithin {
        list: ListOf {
            item: ClaimForm { sizes },
        },
        least: 0,
        most: MOST_CLAIMS,
    };
    let most = AtMost {
        most: MOST_VARIABLES,
    };
    let proof = ProofGivenForm { sizes };
    let variables = need(alloc, &most, &value, "variables");
    let claims = need(alloc, &claims, &value, "claims");
    let mode = need(alloc, &BuildOrCheckForm { proof }, &value, "mode");
    let tables = take(alloc, &tables, value, "tables")?;
    Ok(OpeningsJob {
        field,
        challenger,
        bits,
        tables,
        variables: variables?,
        claims: claims?,
        mode: mode?,
    })
}
