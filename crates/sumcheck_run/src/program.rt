//! From bytes to bytes.
ghost use Rattle.std.specs.Prelude.{◌≡◌, ◌⊎◌, ◌≤◌, List, ℕ, Some, false};
ghost use Rattle.std.specs.Prelude.{IfOk, IsOk, IsErrOf};
ghost use Rattle.sc_streams.specs.Faults.{HasRisen};
ghost use Rattle.sumcheck_run.specs.Program.{CommandPromise, command_in, jobs_of};
ghost use Rattle.sumcheck_run.specs.Program.{reads_input, reply_of};
ghost use Rattle.sumcheck_replies.specs.Kinds.{json_reply, jobs_reply};
ghost use Rattle.sumcheck_replies.specs.Reply.{Replies};
ghost use Rattle.sumcheck_run.specs.Run.{IsAnswered, IsCutShort, IsOfReply, IsRead, IsTold};
ghost use Rattle.sumcheck_run.specs.Run.{ReadsLittle, Responds, StopsAtFault, TellsFaults};
ghost use Rattle.sumcheck_run.specs.Run.{TellsInput, TellsUsage, WritesReply};
ghost use Rattle.sumcheck_run.specs.Run.{reading_failed, want_of_memory, writing_failed};
ghost use Rattle.sumcheck_run.specs.Words.{CommandFits};

use crate::command::{Command, Kind, needs_input, read_command};
use sc_field::NoMemory;
use sc_streams::{ReadFault, Sink, Source, read_all, write_all};
use std::alloc::Global;
use sumcheck_audit::AuditJobs;
use sumcheck_circuit::CircuitJobs;
use sumcheck_explain::ExplainJobs;
use sumcheck_make::make;
use sumcheck_matmul::MatmulJobs;
use sumcheck_openings::OpeningsJobs;
use sumcheck_product::ProductJobs;
use sumcheck_replies::{Answer, MAX_INPUT, reply_to};
use sumcheck_veil::VeilJobs;

/// The status that the program ends with.
#[derive(Clone, Copy, Debug, PartialEq, Eq)]
pub struct Status {
    /// 0 a report that holds, or what is told without a verdict; 1 another report; 2 usage; 3 a
    /// refused job; 4 a refused proof; 5 a build without a witness; 6 a read fault; 7 a write fault;
    /// 8 want of memory.
    pub code: u8,
}

// What a command replies to an input.
fn answer(alloc: Global, command: Option<Command>, input: Vec<u8>) -> Result<Answer, NoMemory>
    requires { CommandFits command }
    ensures { Replies result (reply_of command input.items) }
{
    match command {
        None => Answer::usage(alloc),
        Some(Command::Judge(kind)) => judge(alloc, kind, input),
        Some(Command::Make(recipe)) => make(alloc, recipe),
    }
}

// What a kind of jobs replies to an input.
fn judge(alloc: Global, kind: Kind, input: Vec<u8>) -> Result<Answer, NoMemory>
    ensures { Replies result (json_reply (jobs_reply (jobs_of kind).jobs) input.items) }
{
    match kind {
        Kind::Audit => reply_to::<AuditJobs>(alloc, input),
        Kind::Product => reply_to::<ProductJobs>(alloc, input),
        Kind::Veil => reply_to::<VeilJobs>(alloc, input),
        Kind::Explain => reply_to::<ExplainJobs>(alloc, input),
        Kind::Matmul => reply_to::<MatmulJobs>(alloc, input),
        Kind::Circuit => reply_to::<CircuitJobs>(alloc, input),
        Kind::Openings => reply_to::<OpeningsJobs>(alloc, input),
    }
}

// The input of a command, which is empty where it reads none.
fn read_input<S: Source>(alloc: Global, reads: bool, source: &mut S) -> Result<Vec<u8>, ReadFault>
    ensures read { IfOk result (λ v. IsRead reads (S.left source.old) (S.left source.new) v.items) }
    ensures unread { reads ≡ false → (source.new ≡ source.old) × IsOk result }
    ensures sparing { ReadsLittle S.given S.dry source.old source.new }
    ensures faults { IsTold (IsErrOf result ReadFault.Failed)
        (S.faults source.old) (S.faults source.new) }
    ensures late { StopsAtFault S.faults S.late source.old source.new }
{
    if !reads {
        return Ok(Vec::new(alloc));
    }
    read_all(alloc, source, MAX_INPUT)
}

// Makes the reply to an input that was read, and writes it. Nothing is written before the reply is
// whole.
fn respond<K: Sink>(alloc: Global, command: Option<Command>, input: Vec<u8>, sink: &mut K) -> Status
    requires { CommandFits command }
    ensures responds { Responds K.taken K.faults (reply_of command input.items)
        sink.old sink.new result.code }
    ensures late { StopsAtFault K.faults K.late sink.old sink.new }
{
    let Ok(answer) = answer(alloc, command, input) else {
        return Status { code: 8 };
    };
    match write_all(sink, answer.text()) {
        Ok(()) => Status {
            code: answer.outcome().code(),
        },
        Err(_) => Status { code: 7 },
    }
}

/// Answers a command line: reads the input, and writes the reply to it and nothing else.
///
/// `words` are the arguments after the program's name.
pub fn run<S: Source, K: Sink>(
    alloc: Global,
    words: &[String],
    source: &mut S,
    sink: &mut K,
) -> Status
    // Statuses 0 to 5, of the outcomes: the status and the whole text of the reply to the input.
    ensures answered { IsOfReply result.code
        → IsAnswered (command_in words.now) (S.left source.old) (S.left source.new)
        (K.taken sink.old) (K.taken sink.new) result.code }

    // Status 7, a write failed: a proper prefix of it.
    ensures cut_short { result.code ≡ writing_failed
        → IsCutShort (command_in words.now) (S.left source.old) (S.left source.new)
        (K.taken sink.old) (K.taken sink.new) }

    // Statuses 6, a read failed, and 8, want of memory: nothing is written. There is no other one.
    ensures silent { (result.code ≡ reading_failed) ⊎ (result.code ≡ want_of_memory)
        → sink.new ≡ sink.old }
    ensures no_other { result.code ≤ want_of_memory }

    // A command that reads nothing leaves the source as it was.
    ensures untouched { reads_input (command_in words.now) ≡ false
        → source.new ≡ source.old }

    // Usage exactly where the words are no command, write faults and want of memory aside.
    ensures usage { TellsUsage (command_in words.now) result.code }

    // Where the source, if it is read, tells its bytes and neither has a fault: the reply to all of
    // them, memory aside.
    ensures headline { (input : List ℕ) → let command = command_in words.now in
        TellsInput command S.left S.faults source.old source.new input
        → ¬ HasRisen (K.faults sink.old) (K.faults sink.new)
        → WritesReply (reply_of command input) (K.taken sink.old) (K.taken sink.new) result.code }

    // Where an input is short enough and describes a job of the command's kind, the reply is that
    // to the job, and the job has what the kind promises: a job that is not refused is reported on,
    // a build holds, and a challenge that lets a false statement through is certified. The reply to
    // a job that is made says that it holds.
    ensures promised { (command : Command) (input : List ℕ)
        → command_in words.now ≡ Some command → CommandPromise command input }

    // It reads at most one byte past the limit, and at most one read gives no byte.
    ensures sparing { ReadsLittle S.given S.dry source.old source.new }

    // Each fault is told, by 6 and by 7 and by nothing else, and nothing is tried after it.
    ensures reading { TellsFaults S.faults S.late source.old source.new reading_failed result.code }
    ensures writing { TellsFaults K.faults K.late sink.old sink.new writing_failed result.code }
{
    let command = read_command(words);
    let input = match read_input(alloc, needs_input(command), source) {
        Ok(input) => input,
        Err(ReadFault::Failed) => return Status { code: 6 },
        Err(ReadFault::NoMemory) => return Status { code: 8 },
    };
    respond(alloc, command, input, sink)
}
