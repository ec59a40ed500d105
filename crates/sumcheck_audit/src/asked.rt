//! The audit that a job asks for.
ghost use Rattle.std.specs.Prelude.{◌≡◌, All, IfOk, map};
ghost use Rattle.sc_jobs.specs.Cases.{asked_of, given_in, task_in};
ghost use Rattle.sumcheck_audit.specs.Job.{ArePairs, JobFits, ModeFits, ProofFits};
ghost use Rattle.sc_transcript.specs.Data.{pair_of};
ghost use Rattle.sumcheck_audit.specs.Report.{AskSame, asked_with, given_of, task_of, values_of};
ghost use Rattle.sumcheck_replies.specs.Fields.{fields_over, sizes_over};

use crate::job::{Job, Mode, Proof};
use crate::statements::constraint_of;
use sc_audit::{Job as AuditJob, Mode as AuditMode};
use sc_field::{ExtensionField, Field, NoMemory};
use sc_rounds::SumcheckData;
use sc_table::RoundMessage;
use std::alloc::Global;
use sumcheck_replies::elements;

/// The audit of the elements that a job names by their numbers.
pub(crate) fn audit_job<F: Field, EF: ExtensionField<F>>(
    alloc: Global,
    job: &Job,
) -> Result<AuditJob<F, EF>, NoMemory>
    requires { JobFits (sizes_over F.ops EF.ops) job.now }
    ensures { IfOk result (λ asked. AskSame (asked_of asked)
        (asked_with (fields_over F.ops EF.ops EF.extension EF.embedding) job.now)) }
{
    let variables = job.stated.variables as usize;
    let batching = EF::element(job.stated.batching);
    Ok(AuditJob {
        table: elements(alloc, job.stated.table.as_slice())?,
        constraint: constraint_of(alloc, job.stated.groups.as_slice(), variables, batching)?,
        order: job.stated.order,
        basis: job.basis,
        pow_bits: job.stated.bits as usize,
        mode: audit_mode(alloc, &job.mode)?,
    })
}

// What is done with it.
fn audit_mode<F: Field, EF: ExtensionField<F>>(
    alloc: Global,
    mode: &Mode,
) -> Result<AuditMode<F, EF>, NoMemory>
    requires { ModeFits (sizes_over F.ops EF.ops) mode.now }
    ensures { IfOk result (λ asked. task_in F.number EF.number asked ≡ task_of mode.now) }
{
    match mode {
        Mode::Build(strategy) => Ok(AuditMode::Build(*strategy)),
        Mode::Check(None) => Ok(AuditMode::Check(None)),
        Mode::Check(Some(proof)) => Ok(AuditMode::Check(Some(proof_data(alloc, proof)?))),
    }
}

/// The data of a proof, of elements with its numbers.
pub fn proof_data<F: Field, EF: ExtensionField<F>>(
    alloc: Global,
    proof: &Proof,
) -> Result<SumcheckData<F, EF>, NoMemory>
    requires { ProofFits (sizes_over F.ops EF.ops) proof.now }
    ensures { IfOk result (λ d. given_in F.number EF.number d ≡ given_of proof.now) }
{
    Ok(SumcheckData {
        polynomial_evaluations: messages(alloc, proof.rounds.as_slice())?,
        pow_witnesses: elements(alloc, proof.witnesses.as_slice())?,
    })
}

// The messages of the two values with these numbers.
fn messages<F: Field>(alloc: Global, pairs: &[(u64, u64)]) -> Result<Vec<RoundMessage<F>>, NoMemory>
    requires { ArePairs F.ops.size pairs.now }
    ensures { IfOk result (λ v. map (pair_of F.number) v.items ≡ map values_of pairs.now) }
{
    let mut found = Vec::with_capacity(alloc, pairs.len())?;
    for pair in pairs {
        found.push(RoundMessage {
            c_a: F::element(pair.0),
            c_inf: F::element(pair.1),
        })?;
    }
    Ok(found)
}
