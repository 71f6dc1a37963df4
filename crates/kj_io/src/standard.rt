//! Sources and sinks over the system's readers and writers: the trusted edge, which tells no
//! octets.
ghost use Rattle.std.specs.Prelude.{None};

use crate::fault::Failed;
use crate::sink::Sink;
use crate::source::Source;
use std::io;

/// A reader of the system with a count of faults.
#[derive(Drop)]
pub struct StdSource<R> {
    reader: R,
    faults: u64,
}

impl<R: io::Read + Drop> StdSource<R> {
    ghost use Rattle.std.specs.Prelude.{◌≡◌};
    ghost use Rattle.kj_io.specs.Standard.{source_faults};

    /// Reads from this reader.
    pub fn new(reader: R) -> StdSource<R>
        ensures { source_faults result ≡ 0 }
    {
        StdSource { reader, faults: 0 }
    }
}

impl<R: io::Read + Drop> Source for StdSource<R> {
    ghost left = { λ _. None };

    ghost faults = { λ s. s.faults };

    fn faults(&self) -> u64 {
        self.faults
    }

    fn read(&mut self, buf: &mut [u8]) -> Result<usize, Failed> {
        match self.reader.read(buf) {
            Ok(count) => Ok(count),
            Err(_) => {
                self.faults = self.faults.saturating_add(1);
                Err(Failed)
            }
        }
    }
}

/// A writer of the system with a count of faults. It keeps no octets back: a flush that fails is a
/// fault.
#[derive(Drop)]
pub struct StdSink<W> {
    writer: W,
    faults: u64,
}

impl<W: io::Write + Drop> StdSink<W> {
    ghost use Rattle.std.specs.Prelude.{◌≡◌, ◌≤◌, length, IfOk, IsErr};
    ghost use Rattle.kj_io.specs.Causes.{HasCause};
    ghost use Rattle.kj_io.specs.Standard.{sink_faults};

    /// Writes to this writer.
    pub fn new(writer: W) -> StdSink<W>
        ensures { sink_faults result ≡ 0 }
    {
        StdSink { writer, faults: 0 }
    }

    // Writes a front of the piece, and flushes.
    fn pass(&mut self, piece: &[u8]) -> io::Result<usize>
        ensures bound { IfOk result (λ n. n ≤ length piece.now) }
        ensures faults { self.new.faults ≡ self.old.faults }
    {
        let count = self.writer.write(piece)?;
        self.writer.flush()?;
        Ok(count)
    }

    // A write that failed, which is counted.
    fn fail(&mut self) -> Result<usize, Failed>
        ensures answer { IsErr result }
        ensures cause { HasCause self.old.faults self.new.faults result }
    {
        self.faults = self.faults.saturating_add(1);
        Err(Failed)
    }
}

impl<W: io::Write + Drop> Sink for StdSink<W> {
    ghost taken = { λ _. None };

    ghost faults = { λ s. s.faults };

    fn faults(&self) -> u64 {
        self.faults
    }

    fn write(&mut self, piece: &[u8]) -> Result<usize, Failed> {
        let count = match self.pass(piece) {
            Ok(count) => count,
            Err(_) => return self.fail(),
        };
        if piece.is_empty() {
            return Ok(count);
        }
        if count == 0 {
            return self.fail();
        }
        Ok(count)
    }
}
