//! The tables and claims that a job asks about, and the proof that came.
ghost use Rattle.std.specs.Prelude.{◌≡◌, All, IfOk, map};
ghost use Rattle.std.specs.Option.{option_map};
ghost use Rattle.sc_openings.specs.OpeningsJobs.{came_in, claim_in};
ghost use Rattle.sumcheck_members.specs.Modes.{CheckFits};
ghost use Rattle.sumcheck_openings.specs.OpeningsJob.{ClaimFits, ProofGivenFits};
ghost use Rattle.sumcheck_openings.specs.OpeningsReplies.{came_given, claim_given};
ghost use Rattle.sumcheck_replies.specs.Fields.{sizes_over};

use crate::job::{ClaimGiven, ProofGiven};
use sc_field::{ExtensionField, Field, NoMemory};
use sc_openings::{MergeProof, OpeningClaim};
use sc_table::Point;
use std::alloc::Global;
use sumcheck_audit::proof_data;
use sumcheck_members::BuildOrCheck;
use sumcheck_replies::elements;

/// The claims of elements with these numbers.
pub(crate) fn claims_of<EF: Field>(
    alloc: Global,
    claims: &[ClaimGiven],
) -> Result<Vec<OpeningClaim<EF>>, NoMemory>
    requires { All (ClaimFits EF.ops.size) claims.now }
    ensures { IfOk result (λ v. map (claim_in EF.number) v.items ≡ map claim_given claims.now) }
{
    let mut found = Vec::with_capacity(alloc, claims.len())?;
    for claim in claims {
        let asked = claim_of(alloc, claim)?;
        found.push(asked)?;
    }
    Ok(found)
}

// One of them.
fn claim_of<EF: Field>(alloc: Global, claim: &ClaimGiven) -> Result<OpeningClaim<EF>, NoMemory>
    requires { ClaimFits EF.ops.size claim.now }
    ensures { IfOk result (λ c. claim_in EF.number c ≡ claim_given claim.now) }
{
    Ok(OpeningClaim {
        table: claim.table as usize,
        point: Point::new(elements(alloc, claim.point.as_slice())?),
        successor: claim.successor,
        value: EF::element(claim.value),
    })
}

/// The proof that is checked, if one is, of elements with its numbers.
pub(crate) fn proof_came<F: Field, EF: ExtensionField<F>>(
    alloc: Global,
    mode: &BuildOrCheck<ProofGiven>,
) -> Result<Option<MergeProof<F, EF>>, NoMemory>
    requires { CheckFits (ProofGivenFits (sizes_over F.ops EF.ops)) mode.now }
    ensures { IfOk result (λ came. option_map (came_in F.number EF.number) came
        ≡ came_given mode.now) }
{
    match mode {
        BuildOrCheck::Build => Ok(None),
        BuildOrCheck::Check(proof) => Ok(Some(MergeProof {
            rounds: proof_data(alloc, &proof.rounds)?,
            openings: elements(alloc, proof.openings.as_slice())?,
        })),
    }
}
