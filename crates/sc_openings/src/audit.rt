//! The call.
ghost use Rattle.std.specs.Prelude.{◌≡◌, ◌≤◌, IfOk, length};
ghost use Rattle.std.specs.Option.{option_map};
ghost use Rattle.sc_merge_definitions.specs.Openings.{CertifiesOpenings};
ghost use Rattle.sc_openings.specs.OpeningsJobs.{fields, claimed_in, case_of, job_of, came_in};
ghost use Rattle.sc_openings.specs.OpeningsReports.{GivesResult, openings_result, result_in};
ghost use Rattle.sc_openings.specs.OpeningsAudits.{HoldsWhereBuilt, LeavesHistory};

use crate::building::build;
use crate::checking::check;
use crate::claim::{MergeProof, OpeningClaim};
use crate::error::MergeError;
use crate::report::MergeReport;
use crate::shape::FittingClaims;
use sc_challenger::Challenger;
use sc_field::{ExtensionField, Field};
use std::alloc::Global;

/// Builds the rounds and openings of claims on tables, where no proof came, or checks those of the
/// proof, and reports on them. There is one table or more; what does not fit is refused, in the
/// order of [`MergeError`].
///
/// The transcript is the claimed values in order, the draw of the challenge that merges them, the
/// seed of the rounds and the rounds that the report shows, and the openings. A build plays on a
/// copy of the challenger, and its rounds and openings are then replayed on the challenger itself,
/// as those of a proof are. A refusal before that leaves the challenger's history as it was, and so
/// does [`MergeError::NoWitness`]. After [`MergeError::InvalidPowWitness`] the history ends with
/// the test that failed. After [`MergeError::NoMemory`] it is as it was, or it ends after the draw
/// that merges the claims, after some of the rounds, each of them whole, or after the openings.
///
/// It takes time for as many passes over a table as there are tables and claims, and memory for two
/// tables of the extension for each table.
pub fn audit_openings<F: Field, EF: ExtensionField<F>, C: Challenger<F>>(
    alloc: Global,
    num_variables: usize,
    tables: &[Vec<F>],
    claims: &[OpeningClaim<EF>],
    pow_bits: usize,
    proof: Option<&MergeProof<F, EF>>,
    challenger: &mut C,
) -> Result<MergeReport<F, EF>, MergeError>
    requires some { 1 ≤ length tables.now }
    ensures rules { (C.party challenger.new).rules ≡ (C.party challenger.old).rules }

    // The answer is one function of what is asked, want of memory aside.
    ensures result { GivesResult (openings_result
        (job_of (fields F.ops EF.ops EF.embedding EF.extension)
        (claimed_in F.number EF.number num_variables tables.now claims.now) pow_bits
        (C.party challenger.old)) (option_map (λ p. came_in F.number EF.number p.now) proof.entry))
        (result_in F.number EF.number result) }

    // What it leaves of the history, by the answer.
    ensures history { LeavesHistory (case_of (fields F.ops EF.ops EF.embedding EF.extension)
        (claimed_in F.number EF.number num_variables tables.now claims.now) pow_bits
        (C.party challenger.old)) (option_map (λ p. came_in F.number EF.number p.now) proof.entry)
        (result_in F.number EF.number result) (C.party challenger.new).history }

    // A build of true claims that fit holds, unless a round at a difficulty has no witness.
    ensures holds { HoldsWhereBuilt (job_of (fields F.ops EF.ops EF.embedding EF.extension)
        (claimed_in F.number EF.number num_variables tables.now claims.now) pow_bits
        (C.party challenger.old)) (option_map (λ p. came_in F.number EF.number p.now) proof.entry)
        (result_in F.number EF.number result) }

    // Where the residual and the openings match although a claim is false, a challenge is named
    // lucky, and certified: by a polynomial that is not zero and vanishes there, and the number of
    // its roots. The one that merges the claims is certified by a coefficient for each claim, which
    // is not zero just where the claim is false.
    ensures certified { IfOk (result_in F.number EF.number result) (CertifiesOpenings
        (case_of (fields F.ops EF.ops EF.embedding EF.extension)
        (claimed_in F.number EF.number num_variables tables.now claims.now) pow_bits
        (C.party challenger.old))) }
{
    let bound = challenger.max_bits();
    let fitting = FittingClaims::of(num_variables, tables, claims, pow_bits, bound)?;
    match proof {
        None => build(alloc, &fitting, challenger),
        Some(proof) => check(alloc, &fitting, proof, challenger),
    }
}
