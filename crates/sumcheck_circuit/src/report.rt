//! The answer to a job of `circuit`.
ghost use Rattle.std.specs.Prelude.{◌≡◌, IfOk, string_bytes};
ghost use Rattle.sc_circuit.specs.CircuitJobs.{proof_in};
ghost use Rattle.sc_circuit.specs.CircuitReports.{figures_in, finding_in};
ghost use Rattle.sumcheck_members.specs.Elements.{sizes_of};
ghost use Rattle.sumcheck_circuit.specs.CircuitJob.{CircuitJobFits};
ghost use Rattle.sumcheck_circuit.specs.CircuitReplies.{circuit_answer, circuit_finding_reply};
ghost use Rattle.sumcheck_circuit.specs.CircuitReplies.{circuit_judged, circuit_lines, shown_reply};
ghost use Rattle.sumcheck_circuit.specs.PromisedCircuits.{CircuitPromise};
ghost use Rattle.sumcheck_replies.specs.Fields.{fields_over, sizes_over};
ghost use Rattle.sumcheck_replies.specs.Reply.{Replies};

use crate::asked::{gate_lists, proof_came};
use crate::job::CircuitJob;
use crate::kind::CircuitJobs;
use crate::lines::{
    push_input, push_layers, push_lucky_layer, push_lucky_merge, push_refuted_layer,
};
use crate::refusals::refuse_circuit;
use sc_challenger::Challenger;
use sc_circuit::{Circuit, CircuitReport, CircuitVerdict, audit_circuit};
use sc_field::{ExtensionField, Field, NoMemory};
use std::alloc::Global;
use sumcheck_replies::{Answer, Outcome, answer_named, elements, lines};

/// The answer to a job of `circuit`: its report, or why there is none. The numbers are given up
/// before the rounds begin.
///
/// So a build of true outputs holds, and where a proof lets a false output through, a layer is
/// named, and a challenge of it that was lucky, and certified.
pub fn judge_circuit(alloc: Global, job: CircuitJob) -> Result<Answer, NoMemory>
    requires { CircuitJobFits (sizes_of job.field) job }
    ensures reply { Replies result (circuit_answer job) }
    ensures promised { CircuitPromise job }
{
    answer_named::<CircuitJobs>(alloc, job)
}

/// The same under a challenger, over these fields. The numbers are given up before a round is
/// played.
pub(crate) fn answer_to<F: Field, EF: ExtensionField<F>, C: Challenger<F>>(
    alloc: Global,
    job: CircuitJob,
    challenger: &mut C,
) -> Result<Answer, NoMemory>
    requires { CircuitJobFits (sizes_over F.ops EF.ops) job }
    ensures { Replies result (circuit_judged
        (fields_over F.ops EF.ops EF.extension EF.embedding) job
        (C.party challenger.old).rules (C.party challenger.old).history) }
{
    let bits = job.bits as usize;
    let layers = gate_lists(alloc, job.layers.as_slice())?;
    let circuit = match Circuit::new(layers, job.inputs.len()) {
        Ok(circuit) => circuit,
        Err(error) => return refuse_circuit(alloc, bits, error),
    };
    let inputs = elements::<F>(alloc, job.inputs.as_slice())?;
    let outputs = elements::<F>(alloc, job.outputs.as_slice())?;
    let came = proof_came::<F, EF>(alloc, &job.mode)?;
    drop(job);
    match audit_circuit(
        alloc,
        &circuit,
        &inputs,
        &outputs,
        bits,
        came.as_ref(),
        challenger,
    ) {
        Ok(report) => show_circuit(alloc, &report),
        Err(error) => refuse_circuit(alloc, bits, error),
    }
}

/// The answer that shows a report on a circuit.
pub fn show_circuit<F: Field, EF: ExtensionField<F>>(
    alloc: Global,
    report: &CircuitReport<F, EF>,
) -> Result<Answer, NoMemory>
    ensures { Replies result (shown_reply (figures_in F.number EF.number report.now)
        (proof_in F.number EF.number report.now.proof)) }
{
    let text = report_text(alloc, report)?;
    say_verdict(text, &report.verdict)
}

// The answer of a report's lines, up to the verdict, and of its verdict.
fn say_verdict<EF: Field>(report: String, verdict: &CircuitVerdict<EF>) -> Result<Answer, NoMemory>
    ensures { Replies result
        (circuit_finding_reply (finding_in EF.number verdict.now) (string_bytes report)) }
{
    let mut text = report;
    match verdict {
        CircuitVerdict::Holds => {
            lines::push_holds(&mut text)?;
            Ok(Answer::new(Outcome::Holds, text))
        }
        CircuitVerdict::Refuted { layer } => {
            push_refuted_layer(&mut text, *layer)?;
            Ok(Answer::new(Outcome::Refuted, text))
        }
        CircuitVerdict::LuckyMerge {
            layer,
            poly,
            vanishing,
        } => {
            push_lucky_merge(&mut text, *layer, poly.as_slice(), *vanishing)?;
            Ok(Answer::new(Outcome::Lucky, text))
        }
        CircuitVerdict::LuckyRound {
            layer,
            round,
            poly,
            vanishing,
        } => {
            push_lucky_layer(&mut text, (*layer, *round), poly.as_slice(), *vanishing)?;
            Ok(Answer::new(Outcome::Lucky, text))
        }
    }
}

// The lines of a report up to the verdict.
#[tactic(auto, unfolding(crate::specs::CircuitReplies::circuit_lines))]
fn report_text<F: Field, EF: ExtensionField<F>>(
    alloc: Global,
    report: &CircuitReport<F, EF>,
) -> Result<String, NoMemory>
    ensures { IfOk result (λ s. string_bytes s
        ≡ circuit_lines (figures_in F.number EF.number report.now)
        (proof_in F.number EF.number report.now.proof)) }
{
    let mut text = String::new(alloc);
    lines::push_claim(&mut text, report.claim.index())?;
    push_layers(
        &mut text,
        &report.proof.layers,
        report.challenges.as_slice(),
        report.merges.as_slice(),
    )?;
    push_input(&mut text, report.last.index())?;
    Ok(text)
}
