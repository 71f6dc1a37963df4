//! What gives octets.
ghost use Rattle.std.specs.Prelude.{◌≡◌, ◌<◌, ◌^◌, ℕ, List, Option};
ghost use Rattle.std.specs.Io.{ReadsAtMost};
ghost use Rattle.std.specs.Io.KnownBytes.{ReadConsumes};
ghost use Rattle.kj_io.specs.Causes.{HasCause};
ghost use Rattle.kj_io.specs.Whole.{ReadsWhole};

use crate::fault::Failed;
use kj_base::{Bytes, NoMemory};
use std::alloc::Global;

/// A reader with a count of faults.
pub trait Source {
    /// The octets left, where it tells.
    ghost left: { Self → Option (List ℕ) };

    ghost faults: { Self → ℕ };

    /// How many calls failed so far; it stops at `u64::MAX`.
    fn faults(&self) -> u64
        ensures { result ≡ faults self.now };

    /// Reads into the front of the buffer; 0 into a buffer that isn't empty is the end.
    fn read(&mut self, buf: &mut [u8]) -> Result<usize, Failed>
        ensures bound { ReadsAtMost result buf.new }
        ensures octets { ReadConsumes (left self.old) (left self.new) result buf.new }
        ensures cause { HasCause (faults self.old) (faults self.new) result };
}

/// What a reading to the end gave.
#[derive(Drop)]
pub enum Read {
    Whole(Bytes),
    /// One octet more than the limit was there.
    TooLong,
    Failed,
    NoMemory,
}

const PIECE: usize = 65_536;

/// Reads to the end, or until one octet more than `limit` has come.
pub fn read_whole<S: Source>(alloc: Global, source: &mut S, limit: usize) -> Read
    requires { limit < 2 ^ 32 }
    ensures { ReadsWhole limit (S.left source.old) (S.left source.new)
        (S.faults source.old) (S.faults source.new) result }
{
    let mut octets = Bytes::new(alloc);
    let mut piece = [0u8; PIECE];
    'reading: while octets.len() <= limit {
        let room = (limit + 1 - octets.len()).min(PIECE);
        let count = match source.read(&mut piece[..room]) {
            Ok(count) => count,
            Err(Failed) => return Read::Failed,
        };
        if count == 0 {
            return Read::Whole(octets);
        }
        if let Err(NoMemory) = octets.extend(&piece[..count]) {
            return Read::NoMemory;
        }
    }
    Read::TooLong
}
