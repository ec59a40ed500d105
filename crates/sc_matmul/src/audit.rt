//! The call.
ghost use Rattle.std.specs.Prelude.{◌≡◌, IfOk};
ghost use Rattle.std.specs.Option.{option_map};
ghost use Rattle.sc_transcript.specs.Data.{wire_in};
ghost use Rattle.sc_merge_definitions.specs.Matrices.{CertifiesMatmul};
ghost use Rattle.sc_matmul.specs.MatmulJobs.{fields, claimed_in, case_of};
ghost use Rattle.sc_matmul.specs.MatmulReports.{GivesResult, matmul_result, result_in};
ghost use Rattle.sc_matmul.specs.MatmulAudits.{HoldsWhereBuilt, LeavesHistory};

use crate::building::build;
use crate::checking::check;
use crate::error::MatmulError;
use crate::matrix::Matrix;
use crate::report::MatmulReport;
use crate::shape::FittingClaim;
use sc_challenger::Challenger;
use sc_field::{ExtensionField, Field};
use sc_transcript::SumcheckData;
use std::alloc::Global;

/// Builds the rounds of a claimed product, where no proof came, or checks those of the proof, and
/// reports on them. There is no condition on the matrices: what does not fit is refused, in the
/// order of [`MatmulError`].
///
/// The transcript is the entries of the left matrix, of the right one and of the claimed one, each
/// row by row, the draw of the point, the seed of the rounds, and the rounds that the report shows.
/// A build plays on a copy of the challenger, and its rounds are then replayed on the challenger
/// itself, as those of a proof are. A refusal before that leaves the challenger's history as it
/// was, and so does [`MatmulError::NoWitness`]. After [`MatmulError::InvalidPowWitness`] the
/// history ends with the test that failed. After [`MatmulError::NoMemory`] it is as it was, or it
/// ends after the draw of the point, or after some of the rounds, each of them whole.
///
/// It takes as many products of the base field as the sides of both matrices make, at most 2^21,
/// and memory for the product and for two tables as long as the inner side.
pub fn audit_matmul<F: Field, EF: ExtensionField<F>, C: Challenger<F>>(
    alloc: Global,
    left: &Matrix<F>,
    right: &Matrix<F>,
    claimed: &Matrix<F>,
    pow_bits: usize,
    proof: Option<&SumcheckData<F, EF>>,
    challenger: &mut C,
) -> Result<MatmulReport<F, EF>, MatmulError>
    ensures rules { (C.party challenger.new).rules ≡ (C.party challenger.old).rules }

    // The answer is one function of what is asked, want of memory aside.
    ensures result { GivesResult (matmul_result
        (case_of (fields F.ops EF.ops EF.embedding EF.extension)
        (claimed_in F.number left.now right.now claimed.now) pow_bits (C.party challenger.old))
        (option_map (λ p. wire_in F.number EF.number p.now) proof.entry))
        (result_in F.number EF.number result) }

    // What it leaves of the history, by the answer.
    ensures history { LeavesHistory (case_of (fields F.ops EF.ops EF.embedding EF.extension)
        (claimed_in F.number left.now right.now claimed.now) pow_bits (C.party challenger.old))
        (option_map (λ p. wire_in F.number EF.number p.now) proof.entry)
        (result_in F.number EF.number result) (C.party challenger.new).history }

    // A build of true entries whose sides fit holds, unless a round at a difficulty has no witness.
    ensures holds { HoldsWhereBuilt (case_of (fields F.ops EF.ops EF.embedding EF.extension)
        (claimed_in F.number left.now right.now claimed.now) pow_bits (C.party challenger.old))
        (option_map (λ p. wire_in F.number EF.number p.now) proof.entry)
        (result_in F.number EF.number result) }

    // Where the residual is right although an entry is false, a challenge is named lucky, and
    // certified: by a polynomial that is not zero and vanishes there, and the number of its roots.
    ensures certified { IfOk (result_in F.number EF.number result) (CertifiesMatmul
        (case_of (fields F.ops EF.ops EF.embedding EF.extension)
        (claimed_in F.number left.now right.now claimed.now) pow_bits (C.party challenger.old))) }
{
    let fitting = FittingClaim::of(left, right, claimed, pow_bits, challenger.max_bits())?;
    match proof {
        None => build(alloc, &fitting, challenger),
        Some(proof) => check(alloc, &fitting, proof, challenger),
    }
}
