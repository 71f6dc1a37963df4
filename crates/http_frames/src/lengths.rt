//! A body of a known length that comes in pieces.
ghost use Rattle.std.specs.Prelude.{◌≡◌, ℕ, List, [], IfOk, OnErr};
ghost use Rattle.http_frames.specs.Lengths.{IsFilledWith, Fills};
ghost use Rattle.http_frames.specs.Progress.{phase_after};

use crate::{Frame, Phase};
use kj_base::{Bytes, NoMemory};
use std::alloc::Global;
use std::marker::Model;

/// A decoder of a body of so many octets (RFC 9112, section 6.2).
#[derive(Debug, Drop)]
pub struct Lengths {
    body: Bytes,
    size: u64,
    phase: Phase,
}

impl Model for Lengths {
    ghost use Rattle.std.specs.Prelude.{◌≡◌, ◌≤◌, length};
    ghost use Rattle.http_frames.specs.Lengths.{Filled};
    ghost use Rattle.http_frames.specs.declared.Phase.TheVariants.{Going};

    ghost Value = { Filled };

    ghost view = { λ l. record { body = l.body; size = l.size; phase = l.phase } };

    ghost invariant = { λ l. l.phase ≡ Going → length l.body ≤ l.size };
}

impl Lengths {
    /// A decoder of a body of so many octets.
    pub fn new(alloc: Global, n: u64) -> Lengths
        ensures going { result.phase ≡ Phase.Going }
        ensures size { result.size ≡ n }
        ensures fed { IsFilledWith result [] }
    {
        Lengths::new_in(Bytes::new(alloc), n)
    }

    /// The same in the memory of these octets, which are dropped.
    pub fn new_in(mut memory: Bytes, n: u64) -> Lengths
        ensures going { result.phase ≡ Phase.Going }
        ensures size { result.size ≡ n }
        ensures fed { IsFilledWith result [] }
    {
        memory.truncate(0);
        Lengths {
            body: memory,
            size: n,
            phase: Phase::Going,
        }
    }

    /// Takes the next piece of the body. After want of memory it takes no more.
    pub fn feed(&mut self, piece: &[u8]) -> Result<Frame, NoMemory>
        requires { self.old.phase ≡ Phase.Going }
        ensures answer { IfOk result (λ frame. (bytes : List ℕ) → IsFilledWith self.old bytes
            → Fills bytes piece.now self.new frame) }
        ensures phase { IfOk result (λ frame. self.new.phase ≡ phase_after frame) }
        ensures size { self.new.size ≡ self.old.size }
        ensures err { OnErr result (self.new.phase ≡ Phase.Over) }
    {
        let left = self.size - self.body.len() as u64;
        self.phase = Phase::Over;
        if (piece.len() as u64) < left {
            self.body.extend(piece)?;
            self.phase = Phase::Going;
            Ok(Frame::More)
        } else {
            let count = left as usize;
            self.body.extend(&piece[..count])?;
            self.phase = Phase::Done;
            Ok(Frame::Whole(count))
        }
    }

    /// The body, once it is whole. Takes no memory.
    pub fn body(self) -> Bytes
        requires { self.phase ≡ Phase.Done }
        ensures { result ≡ self.body }
    {
        self.body
    }
}
