//! What takes octets.
ghost use Rattle.std.specs.Prelude.{◌≡◌, ℕ, List, Option, OnOk, OnErr};
ghost use Rattle.std.specs.Io.{WritesAtMost};
ghost use Rattle.std.specs.Io.KnownBytes.{WriteAppends, Appends};
ghost use Rattle.kj_io.specs.Causes.{HasCause};
ghost use Rattle.kj_io.specs.Whole.{WritesSome, WroteFront};

use crate::fault::Failed;

/// A writer with a count of faults. What it took is written.
pub trait Sink {
    /// The octets taken, where it tells.
    ghost taken: { Self → Option (List ℕ) };

    ghost faults: { Self → ℕ };

    /// How many calls failed so far; it stops at `u64::MAX`.
    fn faults(&self) -> u64
        ensures { result ≡ faults self.now };

    /// Takes a front of the piece; never 0 of a piece that isn't empty.
    fn write(&mut self, piece: &[u8]) -> Result<usize, Failed>
        ensures bound { WritesAtMost result piece.now }
        ensures some { WritesSome result piece.now }
        ensures octets { WriteAppends (taken self.old) (taken self.new) result piece.now }
        ensures cause { HasCause (faults self.old) (faults self.new) result };
}

/// Writes all of it, or a front of it where a write fails.
pub fn write_all<K: Sink>(sink: &mut K, octets: &[u8]) -> Result<(), Failed>
    ensures ok { OnOk result (Appends (K.taken sink.old) (K.taken sink.new) octets.now) }
    ensures err { OnErr result (WroteFront (K.taken sink.old) (K.taken sink.new) octets.now) }
    ensures cause { HasCause (K.faults sink.old) (K.faults sink.new) result }
{
    let mut done = 0;
    'writing: while done < octets.len() {
        let count = sink.write(&octets[done..])?;
        done += count;
    }
    Ok(())
}
