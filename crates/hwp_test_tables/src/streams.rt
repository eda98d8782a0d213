//! Sources and sinks: that all is read and written where nothing fails, and the readers and writers of std.

use crate::checking::check;
use hwp_io::{MemSink, MemSource, ReadAll, Sink, Source, StdSink, StdSource, read_all, write_all};
use std::alloc::Global;
use std::io;
use std::io::{ErrorKind, Read, Write};
use std::process::Abort;

/// So many bytes are read where the limit is this, or not.
fn are_read(
    rt: &impl Abort,
    alloc: Global,
    count: usize,
    limit: usize,
    want: Option<ReadAll>,
) -> bool {
    let mut source = source_of(rt, alloc, count);
    match read_all(alloc, &mut source, limit) {
        Ok(read) => is_whole(read.as_slice(), count) & want.is_none(),
        Err(error) => want == Some(error),
    }
}

/// A source of so many bytes of 7, and one of 8.
fn source_of(rt: &impl Abort, alloc: Global, count: usize) -> MemSource {
    let mut bytes = vec![in alloc; 7; count].expect(rt, "memory");
    bytes.push(8).expect(rt, "memory");
    MemSource::new(bytes, Vec::new(alloc))
}

fn is_whole(read: &[u8], count: usize) -> bool {
    (read.len() == count.saturating_add(1)) & matches!(read, [.., 8])
}

#[test]
fn all_bytes_are_read_up_to_the_limit(rt: HostRuntime) {
    let alloc = rt.alloc();
    check(
        &rt,
        are_read(&rt, alloc, 0, 1, None)
            & are_read(&rt, alloc, 9_999, 9_999, Some(ReadAll::TooLong))
            & are_read(&rt, alloc, 9_999, 10_000, None)
            & are_read(&rt, alloc, 4_096, usize::MAX, None),
    );
}

const TEXT: &[u8] = b"stop none\n";

/// The text is written into the sink.
fn takes_text(sink: &mut impl Sink) -> bool {
    write_all(sink, TEXT).is_ok()
}

#[test]
fn a_whole_text_is_written_in_pieces(rt: HostRuntime) {
    let mut sink = MemSink::new(rt.alloc(), 3, Vec::new(rt.alloc()));
    check(&rt, takes_text(&mut sink) & (sink.bytes() == TEXT));
}

/// A reader and a writer that gives an error at every second call.
#[derive(Drop)]
struct Flaky {
    calls: u64,
}

impl Flaky {
    fn fails(&mut self) -> bool {
        self.calls = self.calls.saturating_add(1);
        self.calls % 2 == 0
    }
}

impl Read for Flaky {
    fn read(&mut self, buf: &mut [u8]) -> io::Result<usize> {
        if self.fails() {
            return Err(ErrorKind::Interrupted.into());
        }
        Ok(buf.len().min(1))
    }
}

impl Write for Flaky {
    fn write(&mut self, buf: &[u8]) -> io::Result<usize> {
        if self.fails() {
            return Err(ErrorKind::Interrupted.into());
        }
        Ok(0)
    }

    fn flush(&mut self) -> io::Result<()> {
        Ok(())
    }
}

#[test]
fn a_reader_of_std_is_a_source(rt: HostRuntime) {
    let mut source = StdSource::new(TEXT);
    let read = read_all(rt.alloc(), &mut source, 10).expect(&rt, "all bytes");
    check(&rt, read.as_slice() == TEXT);
}

#[test]
fn a_source_tells_an_error_of_its_reader(rt: HostRuntime) {
    let mut source = StdSource::new(Flaky { calls: 0 });
    let first = matches!(source.read(&mut [0; 4]), Ok(1));
    let second = source.read(&mut [0; 4]).is_err();
    let all = read_all(rt.alloc(), &mut source, 10).err();
    check(
        &rt,
        first & second & matches!(all, Some(ReadAll::ReadFault)),
    );
}

#[test]
fn a_writer_of_std_is_a_sink(rt: HostRuntime) {
    let mut taken = Vec::new(rt.alloc());
    let mut sink = StdSink::new(&mut taken);
    let written = takes_text(&mut sink);
    drop(sink);
    check(&rt, written & (taken.as_slice() == TEXT));
}

#[test]
fn a_sink_tells_an_error_of_its_writer(rt: HostRuntime) {
    let mut sink = StdSink::new(Flaky { calls: 0 });
    // nothing of ten bytes, an error, and nothing of nothing
    let failed = sink.write(TEXT).is_err() & sink.write(TEXT).is_err();
    check(&rt, failed & matches!(sink.write(b""), Ok(0)));
}
