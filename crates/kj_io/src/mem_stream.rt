//! A stream in memory.
ghost use Rattle.std.specs.Prelude.{◌≡◌, ◌==◌, Some, take, ◌++◌, ◌≤◌, ◌<◌, length, IfOk, OnErr, bytes_eq, []};
ghost use Rattle.kj_io.specs.Streams.{IsReadWithin, GivesFrom};

use crate::stream::{Got, Put, Stream};
use kj_base::{Bytes, NoMemory};
use std::alloc::Global;

/// What one call on a stream in memory does.
#[derive(Clone, Copy, Debug, PartialEq, Eq)]
pub enum StreamTurn {
    /// At most so many octets pass, and at least one where any can.
    Octets(usize),
    /// The call pauses.
    Gap,
    /// The call fails.
    Fault,
}

/// Octets that are given and taken in turns, the last turn of each list first; after its list each
/// call gives or takes what fits. Want of memory at a write counts as a fault.
#[derive(Drop)]
pub struct MemStream {
    octets: Bytes,
    at: usize,
    reads: Vec<StreamTurn>,
    writes: Vec<StreamTurn>,
    written: Bytes,
    faults: u64,
    pauses: u64,
    ghost inside: { at ≤ length octets },
}

impl MemStream {
    ghost use Rattle.kj_io.specs.MemStream.{stream_octets, stream_faults, stream_pauses};

    /// A stream of these octets that took none yet, with these turns of reads and of writes. Takes
    /// no memory.
    pub fn new(
        alloc: Global,
        octets: Bytes,
        reads: Vec<StreamTurn>,
        writes: Vec<StreamTurn>,
    ) -> MemStream
        ensures octets { stream_octets result
            ≡ record { given = []; left = octets; written = [] } }
        ensures faults { stream_faults result ≡ 0 }
        ensures pauses { stream_pauses result ≡ 0 }
    {
        MemStream {
            octets,
            at: 0,
            reads,
            writes,
            written: Bytes::new(alloc),
            faults: 0,
            pauses: 0,
        }
    }

    /// Whether the octets given and those left, joined, are these. Takes no memory.
    pub fn holds(&self, octets: &[u8]) -> bool
        ensures { result ≡ bytes_eq ((stream_octets self.now).given
            ++ (stream_octets self.now).left) octets.now }
    {
        self.octets.as_slice() == octets
    }

    /// The octets that were written.
    pub fn written(&self) -> &[u8]
        ensures { result.now ≡ (stream_octets self.now).written }
    {
        self.written.as_slice()
    }

    // The next octets into the front of the buffer: at most so many, and one where any can pass.
    fn give(&mut self, buf: &mut [u8], most: usize) -> Got
        ensures gives { GivesFrom self.old.octets self.old.at self.new.at result buf.new }
        ensures within { IsReadWithin result (length buf.old) }
        ensures room { length buf.new ≡ length buf.old }
        ensures octets { self.new.octets ≡ self.old.octets }
        ensures written { self.new.written ≡ self.old.written }
        ensures counts { (self.new.faults ≡ self.old.faults)
            × (self.new.pauses ≡ self.old.pauses) }
    {
        let left = self.octets.len() - self.at;
        if buf.is_empty() {
            return Got::Bytes(0);
        }
        if left == 0 {
            return Got::End;
        }
        let count = most.max(1).min(left).min(buf.len());
        let octets = self.octets.as_slice();
        buf[..count].copy_from_slice(&octets[self.at..self.at + count]);
        self.at += count;
        Got::Bytes(count)
    }

    // Takes a front of the piece: at most so many octets, and one where there is one.
    fn take(&mut self, piece: &[u8], most: usize) -> Result<usize, NoMemory>
        ensures bound { IfOk result (λ n. n ≤ length piece.now) }
        ensures some { IfOk result (λ n. 0 < length piece.now → 0 < n) }
        ensures ok { IfOk result (λ n. self.new.written ≡ self.old.written ++ take n piece.now) }
        ensures err { OnErr result (self.new.written ≡ self.old.written) }
        ensures given { (self.new.octets ≡ self.old.octets) × (self.new.at ≡ self.old.at) }
        ensures counts { (self.new.faults ≡ self.old.faults)
            × (self.new.pauses ≡ self.old.pauses) }
    {
        let count = most.max(1).min(piece.len());
        self.written.extend(&piece[..count])?;
        Ok(count)
    }
}

impl Stream for MemStream {
    ghost use Rattle.std.specs.Prelude.{Some};
    ghost use Rattle.kj_io.specs.MemStream.{stream_octets, stream_faults, stream_pauses};

    ghost told = { λ s. Some (stream_octets s) };

    ghost faults = { λ s. stream_faults s };

    ghost pauses = { λ s. stream_pauses s };

    fn faults(&self) -> u64 {
        self.faults
    }

    fn pauses(&self) -> u64 {
        self.pauses
    }

    fn read(&mut self, buf: &mut [u8]) -> Got {
        match self.reads.pop() {
            Some(StreamTurn::Octets(most)) => self.give(buf, most),
            None => self.give(buf, usize::MAX),
            Some(StreamTurn::Gap) => {
                self.pauses = self.pauses.saturating_add(1);
                Got::NotYet
            }
            Some(StreamTurn::Fault) => {
                self.faults = self.faults.saturating_add(1);
                Got::Failed
            }
        }
    }

    fn write(&mut self, piece: &[u8]) -> Put {
        let most = match self.writes.pop() {
            Some(StreamTurn::Octets(most)) => most,
            None => usize::MAX,
            Some(StreamTurn::Gap) => {
                self.pauses = self.pauses.saturating_add(1);
                return Put::NotYet;
            }
            Some(StreamTurn::Fault) => {
                self.faults = self.faults.saturating_add(1);
                return Put::Failed;
            }
        };
        match self.take(piece, most) {
            Ok(count) => Put::Bytes(count),
            Err(NoMemory) => {
                self.faults = self.faults.saturating_add(1);
                Put::Failed
            }
        }
    }
}
