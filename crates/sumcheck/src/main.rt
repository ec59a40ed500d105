//! The program: `run` over the standard streams.
#![tactic(auto)]

use std::env;
use std::io::Write;
use std::process::ExitCode;
use sumcheck_run::{StdSink, StdSource, run};

// Status 9 is this function's alone: the runtime did not give the words.
fn main(rt: HostRuntime) -> ExitCode {
    let Ok(args) = env::args(&rt) else {
        return ExitCode::from(9);
    };
    let Ok(words) = args.skip(1).collect::<Vec<String>>(rt.alloc()) else {
        return ExitCode::from(9);
    };
    let mut source = StdSource::new(rt.stdin());
    let mut sink = StdSink::new(rt.stdout());
    let status = run(rt.alloc(), &words, &mut source, &mut sink);
    ExitCode::from(status.code)
}
