ghost use Rattle.std.specs.Prelude.{◌≡◌};
ghost use Rattle.hwp_io.specs.Standard.{source_reader, source_faults, sink_writer, sink_faults};

use super::counts::FaultCount;
use super::{Failed, Sink, Source};
use std::io::{Read, Write};

/// A source over a reader of std. It tells what the reader tells: of a file or a pipe, nothing.
#[derive(Drop)]
pub struct StdSource<R> {
    reader: R,
    faults: FaultCount,
}

impl<R: Read> StdSource<R> {
    /// A source that reads from `reader` and has had no fault.
    pub fn new(reader: R) -> StdSource<R>
        ensures reader { source_reader result ≡ reader }
        ensures faults { source_faults result ≡ 0 }
    {
        StdSource {
            reader,
            faults: FaultCount::Zero,
        }
    }
}

impl<R: Read> Source for StdSource<R> {
    ghost left = { λ s. R.remaining (source_reader s) };

    ghost faults = { λ s. source_faults s };

    /// Fails where the reader answers an error, of whatever kind.
    fn read(&mut self, buf: &mut [u8]) -> Result<usize, Failed> {
        match self.reader.read(buf) {
            Ok(count) => Ok(count),
            Err(_) => {
                self.faults.add();
                Err(Failed)
            }
        }
    }
}

/// A sink over a writer of std. It tells what the writer tells: of a file or a pipe, nothing.
///
/// It does not flush, so give it a writer that holds nothing back, as std's output does not.
#[derive(Drop)]
pub struct StdSink<W> {
    writer: W,
    faults: FaultCount,
}

impl<W: Write> StdSink<W> {
    /// A sink that writes to `writer` and has had no fault.
    pub fn new(writer: W) -> StdSink<W>
        ensures writer { sink_writer result ≡ writer }
        ensures faults { sink_faults result ≡ 0 }
    {
        StdSink {
            writer,
            faults: FaultCount::Zero,
        }
    }
}

impl<W: Write> Sink for StdSink<W> {
    ghost taken = { λ s. W.contents (sink_writer s) };

    ghost faults = { λ s. sink_faults s };

    /// Fails where the writer answers an error, of whatever kind, or takes nothing of some bytes.
    fn write(&mut self, buf: &[u8]) -> Result<usize, Failed> {
        match self.writer.write(buf) {
            Ok(count) if count > 0 || buf.is_empty() => Ok(count),
            _ => {
                self.faults.add();
                Err(Failed)
            }
        }
    }
}
