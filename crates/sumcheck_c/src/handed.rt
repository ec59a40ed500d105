//! A reply, and how it is handed to the caller.
ghost use Rattle.std.specs.Prelude.{◌≡◌, ◌++◌, Some, IfOk, take, drop, length, min};
ghost use Rattle.sumcheck_run.specs.Program.{CommandPromise, command_in, reply_of};
ghost use Rattle.sumcheck_run.specs.Run.{TellsUsage};
ghost use Rattle.sumcheck_run.specs.declared.command.Command.{Command};
ghost use Rattle.sumcheck_c.specs.Handed.{HandsNothing, IsHanded, IsTheReply};

use crate::streams::{JobSource, TextSink};
use sc_memory::NoMemory;
use std::alloc::Global;
use sumcheck_run::run;

/// The greatest status of a reply.
const LAST_OF_A_REPLY: u8 = 5;

/// `out` is too short for the text.
const SHORT: u8 = 7;

/// Out of memory.
pub(crate) const OUT_OF_MEMORY: u8 = 8;

// The status of a reply and its whole text.
#[derive(Drop)]
struct Whole {
    code: u8,
    text: Vec<u8>,
}

// The reply to a command line and the bytes of a job.
fn reply(alloc: Global, line: &[String], job: &[u8]) -> Result<Whole, NoMemory>
    ensures reply { IfOk result (λ r. IsTheReply (reply_of (command_in line.now) job.now)
        r.code r.text.items) }
    ensures usage { IfOk result (λ r. TellsUsage (command_in line.now) r.code) }
    ensures promised { (command : Command) → command_in line.now ≡ Some command
        → CommandPromise command job.now }
{
    let mut source = JobSource { rest: job };
    let mut sink = TextSink::new(alloc);
    let status = run(alloc, line, &mut source, &mut sink);
    if status.code > LAST_OF_A_REPLY {
        return Err(NoMemory);
    }
    Ok(Whole {
        code: status.code,
        text: sink.text,
    })
}

// Puts as much of a text at the front of `out` as there is room for, and says how much it is.
fn copy_front(text: &[u8], out: &mut [u8]) -> usize
    ensures count { result ≡ min (length text.now) (length out.old) }
    ensures copied { out.new ≡ take result text.now ++ drop result out.old }
{
    let n = text.len().min(out.len());
    out[..n].copy_from_slice(&text[..n]);
    n
}

/// What is left where memory was wanting: nothing, and its status.
pub(crate) fn nothing(written: &mut usize, needed: &mut usize) -> u8
    ensures { HandsNothing written.new needed.new result }
{
    *written = 0;
    *needed = 0;
    OUT_OF_MEMORY
}

/// Answers a command line and the bytes of a job, and hands the reply to the caller.
pub(crate) fn answer(
    alloc: Global,
    line: &[String],
    job: &[u8],
    out: &mut [u8],
    written: &mut usize,
    needed: &mut usize,
) -> u8
    ensures handed { IsHanded (reply_of (command_in line.now) job.now)
        out.old out.new written.new needed.new result }
    ensures usage { TellsUsage (command_in line.now) result }
    ensures promised { (command : Command) → command_in line.now ≡ Some command
        → CommandPromise command job.now }
{
    let Ok(reply) = reply(alloc, line, job) else {
        return nothing(written, needed);
    };
    *needed = reply.text.len();
    *written = copy_front(&reply.text, out);
    if *written < *needed {
        SHORT
    } else {
        reply.code
    }
}
