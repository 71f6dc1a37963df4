//! A stream of octets that may pause or fail.
ghost use Rattle.std.specs.Prelude.{◌≡◌, ◌≤◌, ◌<◌, ℕ, Option, IfOk, OnErr, length, take, drop, ◌-◌};
ghost use Rattle.kj_io.specs.Streams.{StreamOctets, Reads, Writes, IsReadWithin, IsWriteWithin, HasReadCause, HasWriteCause, ReadsBehind, given};

use kj_base::{Bytes, NoMemory};
use std::alloc::Global;
use std::mem;

/// What a read gave.
#[derive(Clone, Copy, Debug, PartialEq, Eq)]
pub enum Got {
    /// So many octets, at the front of the buffer; none only into an empty buffer.
    Bytes(usize),
    /// No more octets come.
    End,
    /// No octets are there yet.
    NotYet,
    /// The read failed.
    Failed,
}

/// What a write took.
#[derive(Clone, Copy, Debug, PartialEq, Eq)]
pub enum Put {
    /// So many octets, from the front of the piece; none only of an empty piece.
    Bytes(usize),
    /// No octets can be taken yet.
    NotYet,
    /// The write failed.
    Failed,
}

/// Octets in both directions, with a count of faults and one of pauses.
pub trait Stream {
    /// The octets given, left and written, where it tells.
    ghost told: { Self → Option StreamOctets };

    ghost faults: { Self → ℕ };

    ghost pauses: { Self → ℕ };

    /// How many calls failed so far; it stops at `u64::MAX`.
    fn faults(&self) -> u64
        ensures { result ≡ faults self.now };

    /// How many calls paused so far; it stops at `u64::MAX`.
    fn pauses(&self) -> u64
        ensures { result ≡ pauses self.now };

    /// Reads into the front of the buffer.
    fn read(&mut self, buf: &mut [u8]) -> Got
        ensures room { length buf.new ≡ length buf.old }
        ensures within { IsReadWithin result (length buf.old) }
        ensures octets { Reads (told self.old) (told self.new) result buf.new }
        ensures cause { HasReadCause (faults self.old) (faults self.new) (pauses self.old)
            (pauses self.new) result };

    /// Takes a front of the piece.
    fn write(&mut self, piece: &[u8]) -> Put
        ensures within { IsWriteWithin result (length piece.now) }
        ensures octets { Writes (told self.old) (told self.new) result piece.now }
        ensures cause { HasWriteCause (faults self.old) (faults self.new) (pauses self.old)
            (pauses self.new) result };
}

// How many octets a read gave.
fn given(got: Got) -> usize
    ensures { result ≡ given got }
{
    match got {
        Got::Bytes(count) => count,
        Got::End => 0,
        Got::NotYet => 0,
        Got::Failed => 0,
    }
}

// One read into the buffer from a place on.
fn read_from<C: Stream>(stream: &mut C, buf: &mut [u8], from: usize) -> Got
    requires { from ≤ length buf.old }
    ensures front { take from buf.new ≡ take from buf.old }
    ensures room { length buf.new ≡ length buf.old }
    ensures within { IsReadWithin result (length buf.old - from) }
    ensures octets { Reads (C.told stream.old) (C.told stream.new) result (drop from buf.new) }
    ensures cause { HasReadCause (C.faults stream.old) (C.faults stream.new)
        (C.pauses stream.old) (C.pauses stream.new) result }
{
    stream.read(&mut buf[from..])
}

/// One read of at most `room` octets, straight behind the octets that are there. Where memory is
/// lacking nothing is read.
pub fn read_behind<C: Stream>(
    alloc: Global,
    stream: &mut C,
    octets: &mut Bytes,
    room: usize,
) -> Result<Got, NoMemory>
    requires { 0 < room }
    ensures within { IfOk result (λ got. IsReadWithin got room) }
    ensures octets { IfOk result (λ got. ReadsBehind (C.told stream.old) (C.told stream.new)
        octets.old octets.new got) }
    ensures cause { IfOk result (λ got. HasReadCause (C.faults stream.old) (C.faults stream.new)
        (C.pauses stream.old) (C.pauses stream.new) got) }
    ensures err { OnErr result ((stream.new ≡ stream.old) × (octets.new ≡ octets.old)) }
{
    let from = octets.len();
    let mut items = mem::replace(octets, Bytes::new(alloc)).into_vec();
    let grown = items.resize(from.saturating_add(room), 0);
    if grown.is_err() {
        *octets = Bytes::from_vec(items);
        return Err(NoMemory);
    }
    let got = read_from(stream, items.as_mut_slice(), from);
    items.truncate(from.saturating_add(given(got)));
    *octets = Bytes::from_vec(items);
    Ok(got)
}
