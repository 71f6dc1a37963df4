//! A source and a sink in memory.
ghost use Rattle.std.specs.Prelude.{◌≡◌, ◌≤◌, ◌<◌, ◌+◌, ◌∷◌, ◌++◌, [], length, take, drop, IfOk, OnErr, IsErr};
ghost use Rattle.kj_io.specs.Causes.{HasCause};
ghost use Rattle.kj_io.specs.Whole.{GivesAt};

use crate::fault::Failed;
use crate::sink::Sink;
use crate::source::Source;
use kj_base::{Bytes, NoMemory};
use std::alloc::Global;

/// What one call does.
#[derive(Clone, Copy, Debug, PartialEq, Eq)]
pub enum Turn {
    /// At most so many octets pass, and at least one where any can.
    Octets(usize),
    /// The call fails.
    Fault,
}

/// Octets that are given in turns, the last turn of the list first; after the list each call gives
/// what fits.
#[derive(Drop)]
pub struct MemSource {
    octets: Bytes,
    at: usize,
    turns: Vec<Turn>,
    faults: u64,
    ghost inside: { at ≤ length octets },
}

impl MemSource {
    ghost use Rattle.kj_io.specs.MemSource.{source_left, source_faults};

    /// A source of these octets, in these turns.
    pub fn new(octets: Bytes, turns: Vec<Turn>) -> MemSource
        ensures left { source_left result ≡ octets }
        ensures faults { source_faults result ≡ 0 }
    {
        MemSource {
            octets,
            at: 0,
            turns,
            faults: 0,
        }
    }

    // The next octets into the front of the buffer: at most so many, and one where any can pass.
    fn give(&mut self, buf: &mut [u8], most: usize) -> usize
        ensures gives { GivesAt self.old.octets self.old.at self.new.at result buf.new }
        ensures within { result ≤ length buf.new }
        ensures some { result ≡ 0 → 0 < length buf.new → drop self.old.at self.old.octets ≡ [] }
        ensures octets { self.new.octets ≡ self.old.octets }
        ensures faults { self.new.faults ≡ self.old.faults }
    {
        let left = self.octets.len() - self.at;
        let count = most.max(1).min(left).min(buf.len());
        let octets = self.octets.as_slice();
        buf[..count].copy_from_slice(&octets[self.at..self.at + count]);
        self.at += count;
        count
    }
}

impl Source for MemSource {
    ghost use Rattle.std.specs.Prelude.{Some};
    ghost use Rattle.kj_io.specs.MemSource.{source_left, source_faults};

    ghost left = { λ s. Some (source_left s) };

    ghost faults = { λ s. source_faults s };

    fn faults(&self) -> u64 {
        self.faults
    }

    fn read(&mut self, buf: &mut [u8]) -> Result<usize, Failed> {
        match self.turns.pop() {
            Some(Turn::Octets(most)) => Ok(self.give(buf, most)),
            None => Ok(self.give(buf, usize::MAX)),
            Some(Turn::Fault) => {
                self.faults = self.faults.saturating_add(1);
                Err(Failed)
            }
        }
    }
}

/// A sink that keeps what it takes, in turns as `MemSource`; want of memory counts as a fault.
#[derive(Drop)]
pub struct MemSink {
    octets: Bytes,
    turns: Vec<Turn>,
    faults: u64,
}

impl MemSink {
    ghost use Rattle.kj_io.specs.MemSink.{sink_taken, sink_faults};

    /// A sink that took nothing yet, with these turns.
    pub fn new(alloc: Global, turns: Vec<Turn>) -> MemSink
        ensures taken { sink_taken result ≡ [] }
        ensures faults { sink_faults result ≡ 0 }
    {
        MemSink {
            octets: Bytes::new(alloc),
            turns,
            faults: 0,
        }
    }

    /// What was taken.
    pub fn as_slice(&self) -> &[u8]
        ensures { result.now ≡ sink_taken self.now }
    {
        self.octets.as_slice()
    }

    // Takes a front of the piece: at most so many octets, and one where there is one.
    fn take(&mut self, piece: &[u8], most: usize) -> Result<usize, NoMemory>
        ensures bound { IfOk result (λ n. n ≤ length piece.now) }
        ensures some { IfOk result (λ n. 0 < length piece.now → 0 < n) }
        ensures ok { IfOk result (λ n. self.new.octets ≡ self.old.octets ++ take n piece.now) }
        ensures err { OnErr result (self.new.octets ≡ self.old.octets) }
        ensures faults { self.new.faults ≡ self.old.faults }
    {
        let count = most.max(1).min(piece.len());
        self.octets.extend(&piece[..count])?;
        Ok(count)
    }

    // A call that fails, and counts it.
    fn fail(&mut self) -> Result<usize, Failed>
        ensures answer { IsErr result }
        ensures cause { HasCause self.old.faults self.new.faults result }
        ensures octets { self.new.octets ≡ self.old.octets }
    {
        self.faults = self.faults.saturating_add(1);
        Err(Failed)
    }
}

impl Sink for MemSink {
    ghost use Rattle.std.specs.Prelude.{Some};
    ghost use Rattle.kj_io.specs.MemSink.{sink_taken, sink_faults};

    ghost taken = { λ s. Some (sink_taken s) };

    ghost faults = { λ s. sink_faults s };

    fn faults(&self) -> u64 {
        self.faults
    }

    fn write(&mut self, piece: &[u8]) -> Result<usize, Failed> {
        let most = match self.turns.pop() {
            Some(Turn::Octets(most)) => most,
            None => usize::MAX,
            Some(Turn::Fault) => return self.fail(),
        };
        match self.take(piece, most) {
            Ok(count) => Ok(count),
            Err(NoMemory) => self.fail(),
        }
    }
}
