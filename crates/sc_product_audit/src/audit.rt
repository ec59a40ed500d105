//! The call.
ghost use Rattle.std.specs.Prelude.{◌≡◌, IfOk};
ghost use Rattle.sc_product_audit.specs.ProductJobs.{product_asked};
ghost use Rattle.sc_product_audit.specs.ProductShapes.{case_asked};
ghost use Rattle.sc_product_audit.specs.ProductReports.{product_result, result_in};
ghost use Rattle.sc_product_audit.specs.ProductAudits.{CertifiesProduct, GivesResult};
ghost use Rattle.sc_product_audit.specs.ProductAudits.{HoldsWhereBuilt, LeavesHistory};

use crate::building::build;
use crate::checking::check;
use crate::error::ProductError;
use crate::job::{ProductJob, ProductMode};
use crate::report::ProductReport;
use crate::shape::fitting_arity;
use crate::tables::product_of;
use sc_challenger::Challenger;
use sc_field::{ExtensionField, Field};
use std::alloc::Global;

/// Builds the rounds of a job, or checks those of its proof, and reports on them. There is no
/// condition on the job: what does not fit is refused, in the order of [`ProductError`].
///
/// The transcript is that of the rounds that the report shows, after their seed and the claimed
/// sum. A build plays on a copy of the challenger, and its rounds are then replayed on the
/// challenger itself, as those of a proof are. A refusal before that leaves the challenger's
/// history as it was, and so does [`ProductError::NoWitness`]. After
/// [`ProductError::PolyEvalCountMismatch`] the history ends after the rounds before the one that is
/// named, and after [`ProductError::InvalidPowWitness`] with the test that failed. After
/// [`ProductError::NoMemory`] it is as it was, or the seed, the claimed sum and some of the rounds,
/// from the first on, stand after it, each of these rounds whole.
///
/// It takes memory for a list of the tables, for the seed, and for a few lists of as many elements
/// as there are rounds or tables; the tables themselves are not copied.
pub fn audit_product<F: Field, EF: ExtensionField<F>, C: Challenger<F>>(
    alloc: Global,
    job: ProductJob<F, EF>,
    challenger: &mut C,
) -> Result<ProductReport<F, EF>, ProductError>
    ensures rules { (C.party challenger.new).rules ≡ (C.party challenger.old).rules }

    // The answer is one function of what is asked, want of memory aside.
    ensures result { GivesResult (product_result (product_asked job (C.party challenger.old)))
        (result_in F.number EF.number result) }

    // What it leaves of the history, by the answer.
    ensures history { LeavesHistory (case_asked (product_asked job (C.party challenger.old)))
        (product_asked job (C.party challenger.old)).task (result_in F.number EF.number result)
        (C.party challenger.new).history }

    // A build whose shape fits holds, unless a round at a difficulty has no witness.
    ensures holds { HoldsWhereBuilt (product_asked job (C.party challenger.old))
        (result_in F.number EF.number result) }

    // Where the residual is the product although the claimed sum is false, a round's challenge is
    // named lucky, and certified: by a polynomial that is not zero and vanishes there, and the
    // number of its roots.
    ensures certified { IfOk (result_in F.number EF.number result)
        (CertifiesProduct (case_asked (product_asked job (C.party challenger.old)))) }
{
    let n = fitting_arity(job.tables.as_slice(), job.pow_bits, challenger.max_bits())?;
    let ProductJob {
        tables,
        pow_bits,
        mode,
    } = job;
    let product = product_of(alloc, tables, n)?;
    match mode {
        ProductMode::Build => build(alloc, product, pow_bits, challenger),
        ProductMode::Check(proof) => check(alloc, product, proof, pow_bits, challenger),
    }
}
