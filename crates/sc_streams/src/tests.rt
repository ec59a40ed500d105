// What no clause says: how often an interrupted call is tried again, that no other failure is, the texts of errors, and that
// calls succeed.
use crate::{
    Failed, MemSink, MemSource, PlainSource, ReadFault, Sink, Source, StdSink, StdSource, read_all,
    write_all,
};
use sc_memory::NoMemory;
use std::alloc::Global;
use std::io::{self, Error, ErrorKind, Read, Write};

// A reader and a writer that is interrupted so many times, and then moves one byte at a call.
#[derive(Drop)]
struct Interrupted {
    times: u32,
}

impl Interrupted {
    fn is_interrupted(&mut self) -> bool {
        if self.times == 0 {
            return false;
        }
        self.times -= 1;
        true
    }
}

impl Read for Interrupted {
    fn read(&mut self, buf: &mut [u8]) -> io::Result<usize> {
        if self.is_interrupted() {
            return Err(Error::from(ErrorKind::Interrupted));
        }
        if buf.is_empty() {
            return Ok(0);
        }
        buf[0] = 7;
        Ok(1)
    }
}

impl Write for Interrupted {
    fn write(&mut self, buf: &[u8]) -> io::Result<usize> {
        if self.is_interrupted() {
            return Err(Error::from(ErrorKind::Interrupted));
        }
        Ok(buf.len().min(1))
    }

    fn flush(&mut self) -> io::Result<()> {
        Ok(())
    }
}

// A reader and a writer whose first call fails in this way, and that counts its calls. Each later call moves one byte.
#[derive(Drop)]
struct FailsOnce {
    kind: ErrorKind,
    calls: u32,
}

impl FailsOnce {
    fn new(kind: ErrorKind) -> Self {
        FailsOnce { kind, calls: 0 }
    }

    fn fails(&mut self) -> bool {
        self.calls = self.calls.saturating_add(1);
        self.calls == 1
    }
}

impl Read for FailsOnce {
    fn read(&mut self, buf: &mut [u8]) -> io::Result<usize> {
        if self.fails() {
            return Err(Error::from(self.kind));
        }
        if buf.is_empty() {
            return Ok(0);
        }
        buf[0] = 7;
        Ok(1)
    }
}

impl Write for FailsOnce {
    fn write(&mut self, buf: &[u8]) -> io::Result<usize> {
        if self.fails() {
            return Err(Error::from(self.kind));
        }
        Ok(buf.len().min(1))
    }

    fn flush(&mut self) -> io::Result<()> {
        Ok(())
    }
}

// A writer that takes nothing.
#[derive(Drop)]
struct Stuck;

impl Write for Stuck {
    fn write(&mut self, _buf: &[u8]) -> io::Result<usize> {
        Ok(0)
    }

    fn flush(&mut self) -> io::Result<()> {
        Ok(())
    }
}

#[test]
fn an_interrupted_call_is_tried_again_1024_times(rt: HostRuntime) {
    for (times, want, faults) in [
        (0, Ok(1), 0),
        (1, Ok(1), 0),
        (1024, Ok(1), 0),
        (1025, Err(Failed), 1),
    ] {
        let mut source = StdSource::new(Interrupted { times });
        let read = source.read(&mut [0; 4]);
        assert_eq!(rt;
            (read, source.faults),
            (want, faults),
            "a read after {times}"
        );
        let mut sink = StdSink::new(Interrupted { times });
        let written = sink.write(b"ab");
        assert_eq!(rt;
            (written, sink.faults),
            (want, faults),
            "a write after {times}"
        );
    }
}

#[test]
fn each_failed_call_counts_once(rt: HostRuntime) {
    let mut source = StdSource::new(Interrupted { times: 2050 });
    for want in [Err(Failed), Err(Failed), Ok(1)] {
        assert_eq!(rt; source.read(&mut [0; 4]), want);
    }
    assert_eq!(rt; source.faults, 2);
}

static OTHER_KINDS: [ErrorKind; 7] = [
    ErrorKind::WouldBlock,
    ErrorKind::TimedOut,
    ErrorKind::BrokenPipe,
    ErrorKind::PermissionDenied,
    ErrorKind::UnexpectedEof,
    ErrorKind::OutOfMemory,
    ErrorKind::Other,
];

#[test]
fn a_read_that_fails_otherwise_is_asked_once(rt: HostRuntime) {
    for kind in &OTHER_KINDS {
        let mut source = StdSource::new(FailsOnce::new(*kind));
        let read = source.read(&mut [0; 4]);
        assert_eq!(rt;
            (read, source.faults, source.reader.calls),
            (Err(Failed), 1, 1),
            "{kind:?}"
        );
        let again = source.read(&mut [0; 4]);
        assert_eq!(rt;
            (again, source.faults, source.reader.calls),
            (Ok(1), 1, 2),
            "{kind:?}"
        );
    }
}

#[test]
fn a_write_that_fails_otherwise_is_asked_once(rt: HostRuntime) {
    for kind in &OTHER_KINDS {
        let mut sink = StdSink::new(FailsOnce::new(*kind));
        let written = sink.write(b"ab");
        assert_eq!(rt;
            (written, sink.faults, sink.writer.calls),
            (Err(Failed), 1, 1),
            "{kind:?}"
        );
        let again = sink.write(b"ab");
        assert_eq!(rt;
            (again, sink.faults, sink.writer.calls),
            (Ok(1), 1, 2),
            "{kind:?}"
        );
    }
}

#[test]
fn a_writer_that_takes_nothing_fails(rt: HostRuntime) {
    let mut sink = StdSink::new(Stuck);
    for (text, want, faults) in [(b"".as_slice(), Ok(0), 0), (b"a", Err(Failed), 1)] {
        let written = sink.write(text);
        assert_eq!(rt; (written, sink.faults), (want, faults), "{text:?}");
    }
}

#[test]
fn a_sink_of_ten_bytes_takes_ten_and_then_fails(rt: HostRuntime) {
    let mut sink = MemSink::new(rt.alloc(), 10, Vec::new(rt.alloc())).expect(&rt, "a sink");
    for (text, want) in [
        (b"abcdef".as_slice(), Ok(6)),
        (b"ghijkl", Ok(4)),
        (b"m", Err(Failed)),
        (b"", Ok(0)),
    ] {
        assert_eq!(rt; sink.write(text), want, "{text:?}");
    }
    assert_eq!(rt;
        (sink.bytes(), sink.calls(), sink.faults),
        (b"abcdefghij".as_slice(), 4, 1)
    );
}

#[test]
fn a_source_fails_at_the_listed_call_alone(rt: HostRuntime) {
    let bytes = b"abcdef".to_vec(rt.alloc()).expect(&rt, "bytes");
    let mut source = MemSource::new(bytes, [1].to_vec(rt.alloc()).expect(&rt, "a call"));
    let mut piece = [0; 2];
    for want in [Ok(2), Err(Failed), Ok(2)] {
        assert_eq!(rt; source.read(&mut piece), want);
    }
    assert_eq!(rt; (piece, source.faults), (*b"cd", 1));
}

#[test]
fn read_all_reads_one_byte_past_the_limit_and_stops_at_the_end(rt: HostRuntime) {
    // The bytes that there are, the limit, how many bytes and how many calls are wanted.
    for (count, limit, want, calls) in [
        (0, 0, 0, 1),
        (5, 100, 5, 2),
        (5, 5, 5, 2),
        (5, 4, 5, 1),
        (5, 2, 3, 1),
        (70_000, 100_000, 70_000, 3),
        (70_000, 65_536, 65_537, 2),
    ] {
        let bytes = vec![in rt.alloc(); 7; count].expect(&rt, "bytes");
        let mut source = MemSource::new(bytes, Vec::new(rt.alloc()));
        let read = read_all(rt.alloc(), &mut source, limit).expect(&rt, "an input");
        let told = (read.len(), source.calls());
        assert_eq!(rt; told, (want, calls), "{count} bytes, limit {limit}");
    }
}

#[test]
fn a_read_fault_in_mid_stream_is_told(rt: HostRuntime) {
    let bytes = vec![in rt.alloc(); 7; 70_000].expect(&rt, "bytes");
    let mut source = MemSource::new(bytes, [1].to_vec(rt.alloc()).expect(&rt, "a call"));
    let read = read_all(rt.alloc(), &mut source, 100_000);
    assert_eq!(rt; read.err(), Some(ReadFault::Failed));
}

#[test]
fn a_write_fault_in_mid_stream_is_told(rt: HostRuntime) {
    let mut sink = MemSink::new(rt.alloc(), 4, Vec::new(rt.alloc())).expect(&rt, "a sink");
    let written = write_all(&mut sink, b"abcdef");
    assert_eq!(rt; (written, sink.bytes()), (Err(Failed), b"abcd".as_slice()));
}

// 70,000 bytes, not all alike.
fn many(alloc: Global) -> Result<Vec<u8>, NoMemory> {
    let mut bytes = Vec::new(alloc);
    for i in 0..70_000u32 {
        bytes.push((i % 251) as u8)?;
    }
    Ok(bytes)
}

#[test]
fn bytes_come_from_a_source_unchanged(rt: HostRuntime) {
    let bytes = many(rt.alloc()).expect(&rt, "bytes");
    let mut standard = StdSource::new(bytes.as_slice());
    let read = read_all(rt.alloc(), &mut standard, 100_000).expect(&rt, "an input");
    let mut plain = PlainSource::new(many(rt.alloc()).expect(&rt, "bytes"));
    let again = read_all(rt.alloc(), &mut plain, 100_000).expect(&rt, "an input");
    assert!(rt; read == bytes && again == bytes);
}

#[test]
fn bytes_come_to_a_sink_unchanged(rt: HostRuntime) {
    let bytes = many(rt.alloc()).expect(&rt, "bytes");
    let mut sink = MemSink::new(rt.alloc(), 70_000, Vec::new(rt.alloc())).expect(&rt, "a sink");
    let mut written = StdSink::new(Vec::new(rt.alloc()));
    let told = [
        write_all(&mut sink, &bytes),
        write_all(&mut written, &bytes),
    ];
    assert_eq!(rt; told, [Ok(()), Ok(())]);
    assert!(rt; sink.bytes() == bytes.as_slice() && written.writer == bytes);
}

#[test]
fn errors_have_texts(rt: HostRuntime) {
    let failed = Failed.to_string(rt.alloc()).expect(&rt, "a text");
    assert_eq!(rt; failed.as_str(), "a read or a write failed");
    for (fault, want) in [
        (ReadFault::Failed, "a read failed"),
        (ReadFault::NoMemory, "out of memory"),
    ] {
        let text = fault.to_string(rt.alloc()).expect(&rt, "a text");
        assert_eq!(rt; text.as_str(), want);
    }
}
