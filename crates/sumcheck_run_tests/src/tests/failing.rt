// One run of every command, with a source that fails at each of its calls, and a sink of each
// capacity up to the text's length.
use super::jobs::{FIRST, FIRST_TEXT};
use super::streams::source_with;
use super::{
    assert_written, circuits, code_of, explains, made, matmuls, openings, products, sink_with,
    veils,
};
use std::alloc::Global;
use std::process::Abort;
use sumcheck_run::MemSink;

// Words and an input; how often the input is read, the status, and the text.
type Run = (
    &'static [&'static str],
    &'static str,
    (u64, u8, &'static str),
);

// The input is read whole at the first call, and its end at the second.
static RUNS: [Run; 10] = [
    (&["audit"], FIRST, (2, 0, FIRST_TEXT)),
    (&["product"], products::TWO, (2, 0, products::TWO_TEXT)),
    (&["veil"], veils::ONE, (2, 0, veils::ONE_TEXT)),
    (&["explain"], explains::ONE, (2, 0, explains::ONE_TEXT)),
    (&["matmul"], matmuls::TWO, (2, 0, matmuls::TWO_TEXT)),
    (&["circuit"], circuits::ONE, (2, 0, circuits::ONE_TEXT)),
    (&["openings"], openings::TWO, (2, 0, openings::TWO_TEXT)),
    (&["make", "1", "7", "plain"], FIRST, (0, 0, made::ONE_TEXT)),
    (&["audit"], "", (1, 3, "refused bad-json\n")),
    (&["now"], FIRST, (0, 2, "usage\n")),
];

// What the run answers where its source fails at these calls and its sink has this room: the
// status, how often the source was read, and the sink.
fn answer<A: Abort>(
    rt: &A,
    alloc: Global,
    (words, input, _): &Run,
    fails: &[u64],
    room: usize,
) -> (u8, u64, MemSink) {
    let input = input.as_bytes().to_vec(alloc).expect(rt, "memory");
    let mut source = source_with(rt, alloc, input, fails);
    let mut sink = sink_with(rt, alloc, room, &[]);
    let code = code_of(rt, alloc, *words, &mut source, &mut sink);
    (code, source.calls(), sink)
}

// A source that does not fail is read so often; where a call fails it is the last one, and nothing
// is written.
fn assert_failing_reads<A: Abort>(rt: &A, alloc: Global, run: &Run) {
    let (words, _, (reads, code, text)) = run;
    let (found, calls, sink) = answer(rt, alloc, run, &[], text.len());
    assert!(rt; calls == *reads, "{words:?}");
    assert_written(rt, *text, found, sink.bytes(), *code, *text);
    for call in 0..*reads {
        let (found, calls, sink) = answer(rt, alloc, run, &[call], text.len());
        let counts = (calls, sink.calls());
        assert!(rt; counts == (call.saturating_add(1), 0), "{words:?}, {call}");
        assert_written(rt, *text, found, sink.bytes(), 6, "");
    }
}

#[test]
fn a_source_that_fails_at_any_of_its_calls(rt: HostRuntime) {
    for run in RUNS.iter() {
        assert_failing_reads(&rt, rt.alloc(), run);
    }
}

// A sink takes as many bytes of the text as it has room for, and the status tells that some are
// missing.
fn assert_small_sinks<A: Abort>(rt: &A, alloc: Global, run: &Run) {
    let (words, _, (_, _, text)) = run;
    for room in 0..text.len() {
        let (found, _, sink) = answer(rt, alloc, run, &[], room);
        let front = &text.as_bytes()[..room];
        assert!(rt; (found, sink.bytes()) == (7, front), "{words:?}, {room}");
    }
}

#[test]
fn a_sink_of_any_capacity_below_the_length_of_the_text(rt: HostRuntime) {
    for run in RUNS.iter() {
        assert_small_sinks(&rt, rt.alloc(), run);
    }
}
