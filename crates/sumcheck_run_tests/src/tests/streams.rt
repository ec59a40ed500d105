// Sources and sinks that fail, are full or move few bytes at a call; those of every command are in
// `failing.rt`.
use super::jobs::{FIRST, FIRST_TEXT};
use super::{assert_written, code_of, sink_with};
use std::alloc::Global;
use std::io::{self, Error, ErrorKind, Read, Write};
use std::process::Abort;
use sumcheck_run::{Failed, MemSink, MemSource, PlainSource, Source, StdSink, StdSource};

// Words, an input and the calls that fail of the reads of it; and the status, how often it is read, how often something is written, and what.
pub(super) type Reads = (
    &'static [&'static str],
    &'static str,
    &'static [u64],
    (u8, u64, u64, &'static str),
);

static NO_COMMANDS: [Reads; 9] = [
    (&[], FIRST, &[0], (2, 0, 1, "usage\n")),
    (&["Audit"], FIRST, &[0], (2, 0, 1, "usage\n")),
    (&["audits"], FIRST, &[0], (2, 0, 1, "usage\n")),
    (&["audit", "now"], FIRST, &[0], (2, 0, 1, "usage\n")),
    (&["Product"], FIRST, &[0], (2, 0, 1, "usage\n")),
    (&["product", "audit"], FIRST, &[0], (2, 0, 1, "usage\n")),
    (&["audit", "audit"], FIRST, &[0], (2, 0, 1, "usage\n")),
    (&[""], FIRST, &[0], (2, 0, 1, "usage\n")),
    (&["audits"], "", &[0], (2, 0, 1, "usage\n")),
];

static EMPTY_READ: [Reads; 1] = [(&["audit"], FIRST, &[2], (0, 2, 1, FIRST_TEXT))];

// The bytes as a source that fails at these calls.
pub(super) fn source_with<A: Abort>(
    rt: &A,
    alloc: Global,
    input: Vec<u8>,
    fails: &[u64],
) -> MemSource {
    MemSource::new(input, fails.to_vec(alloc).expect(rt, "memory"))
}

// The status of a run on a source, how often it was read, and the sink, which has room for all.
fn read_with<A: Abort>(
    rt: &A,
    alloc: Global,
    words: &[&str],
    mut source: MemSource,
) -> (u8, u64, MemSink) {
    let mut sink = sink_with(rt, alloc, 1000, &[]);
    let code = code_of(rt, alloc, words, &mut source, &mut sink);
    (code, source.calls(), sink)
}

pub(super) fn assert_reads<A: Abort>(rt: &A, alloc: Global, all: &[Reads]) {
    for (words, input, fails, (status, reads, writes, text)) in all {
        let input = input.as_bytes().to_vec(alloc).expect(rt, "memory");
        let source = source_with(rt, alloc, input, *fails);
        let (code, calls, sink) = read_with(rt, alloc, *words, source);
        let counts = (calls, sink.calls());
        assert!(rt; counts == (*reads, *writes), "{words:?}, {fails:?}");
        assert_written(rt, *text, code, sink.bytes(), *status, *text);
    }
}

#[test]
fn words_that_are_no_command_leave_the_source_unread(rt: HostRuntime) {
    assert_reads(&rt, rt.alloc(), &NO_COMMANDS);
}

#[test]
fn the_empty_read_is_the_last(rt: HostRuntime) {
    assert_reads(&rt, rt.alloc(), &EMPTY_READ);
}

// A room, the calls of the sink that fail, the status, how often something is written, and what of the report on the first job.
type Writes = (usize, &'static [u64], u8, (u64, &'static str));

static ROOMS: [Writes; 6] = [
    (10, &[9], 7, (2, "claim 2\nro")),
    (10, &[1], 7, (2, "claim 2\nro")),
    (FIRST_TEXT.len(), &[9], 0, (1, FIRST_TEXT)),
    (FIRST_TEXT.len() - 1, &[9], 7, (2, UNENDED_TEXT)),
    (1000, &[0], 7, (1, "")),
    (0, &[9], 7, (1, "")),
];

static TEN_BYTES: [Writes; 1] = [(10, &[], 7, (2, "claim 2\nro"))];

// The report on the first job without its last byte.
const UNENDED_TEXT: &str =
    "claim 2\nround 0: 2 65535 challenge 3\nround 1: 0 65535 challenge 4\nresidual 65449\neval 11\nweight 65529\nverdict holds";

static JOB: &str = FIRST;

static REPORT: &str = FIRST_TEXT;

fn assert_writes<A: Abort>(rt: &A, alloc: Global, all: &[Writes]) {
    for (room, fails, code, (writes, text)) in all {
        let input = JOB.as_bytes().to_vec(alloc).expect(rt, "memory");
        let mut source = source_with(rt, alloc, input, &[]);
        let mut sink = sink_with(rt, alloc, *room, *fails);
        let found = code_of(rt, alloc, &["audit"], &mut source, &mut sink);
        // A job of this length is read at once, and then its end.
        let counts = (source.calls(), sink.calls());
        assert!(rt; counts == (2, *writes), "{room}, {fails:?}");
        assert_written(rt, *text, found, sink.bytes(), *code, *text);
    }
}

#[test]
fn a_sink_that_is_full_or_fails(rt: HostRuntime) {
    assert_writes(&rt, rt.alloc(), &ROOMS);
}

#[test]
fn a_sink_of_ten_bytes_takes_the_first_ten(rt: HostRuntime) {
    assert_writes(&rt, rt.alloc(), &TEN_BYTES);
}

// A reader that gives one byte at a call, and a writer that takes at most three.
#[derive(Drop)]
struct Few {
    bytes: Vec<u8>,
    at: usize,
}

impl Read for Few {
    fn read(&mut self, buf: &mut [u8]) -> io::Result<usize> {
        if buf.is_empty() {
            return Ok(0);
        }
        let Some(byte) = self.bytes.get(self.at) else {
            return Ok(0);
        };
        buf[0] = *byte;
        self.at = self.at.saturating_add(1);
        Ok(1)
    }
}

impl Write for Few {
    fn write(&mut self, buf: &[u8]) -> io::Result<usize> {
        let n = buf.len().min(3);
        if self.bytes.extend_from_slice(&buf[..n]).is_err() {
            return Err(Error::from(ErrorKind::OutOfMemory));
        }
        Ok(n)
    }

    fn flush(&mut self) -> io::Result<()> {
        Ok(())
    }
}

// The status of a run on the first job by few bytes at a call, and what is written.
fn answer_by_few<A: Abort>(rt: &A, alloc: Global) -> (u8, Vec<u8>) {
    let bytes = JOB.as_bytes().to_vec(alloc).expect(rt, "memory");
    let mut written = Few {
        bytes: Vec::new(alloc),
        at: 0,
    };
    let mut source = StdSource::new(Few { bytes, at: 0 });
    let mut sink = StdSink::new(&mut written);
    let code = code_of(rt, alloc, &["audit"], &mut source, &mut sink);
    drop(sink);
    (code, written.bytes)
}

#[test]
fn few_bytes_at_a_call(rt: HostRuntime) {
    let (code, bytes) = answer_by_few(&rt, rt.alloc());
    assert_written(&rt, "few", code, &bytes, 0, REPORT);
}

// The status of a run on so many blanks, how often they were read, and the sink.
fn read_blanks<A: Abort>(rt: &A, alloc: Global, count: usize) -> (u8, u64, MemSink) {
    let blanks = vec![in alloc; b' '; count].expect(rt, "memory");
    let source = source_with(rt, alloc, blanks, &[]);
    read_with(rt, alloc, &["audit"], source)
}

// A number of blanks, and what is answered to them.
static BLANKS: [(usize, &str); 3] = [
    (67_108_864, "refused bad-json\n"),
    (67_108_865, "refused too-long\n"),
    (67_108_870, "refused too-long\n"),
];

#[test]
fn an_input_of_more_than_67108864_bytes_is_too_long(rt: HostRuntime) {
    for (count, text) in BLANKS.iter() {
        let (code, calls, sink) = read_blanks(&rt, rt.alloc(), *count);
        assert!(rt; calls == 1025, "{count} blanks");
        assert_written(&rt, *text, code, sink.bytes(), 3, *text);
    }
}

// What is left in a source of so many blanks after a run, as a read of ten bytes at most.
fn left_of_blanks<A: Abort>(rt: &A, alloc: Global, count: usize) -> Result<usize, Failed> {
    let mut source = PlainSource::new(vec![in alloc; b' '; count].expect(rt, "memory"));
    let mut sink = sink_with(rt, alloc, 1000, &[]);
    code_of(rt, alloc, &["audit"], &mut source, &mut sink);
    source.read(&mut [0; 10])
}

#[test]
fn what_is_past_one_byte_more_than_the_limit_stays_unread(rt: HostRuntime) {
    assert!(rt; left_of_blanks(&rt, rt.alloc(), 67_108_870) == Ok(5));
}
