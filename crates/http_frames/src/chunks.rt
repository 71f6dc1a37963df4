//! A chunked body that comes in pieces.
ghost use Rattle.std.specs.Prelude.{◌≡◌, ℕ, List, [], ◌++◌, IfOk, OnErr};
ghost use Rattle.http_heads.specs.declared.field.Field.{Field};
ghost use Rattle.http_frames.specs.Chunks.{Body};
ghost use Rattle.http_frames.specs.Progress.{IsFed, Answers, phase_after};

use crate::reader::{Intake, Reader};
use crate::{Frame, Phase};
use http_heads::Fields;
use kj_base::{Bytes, NoMemory};
use std::alloc::Global;
use std::marker::Model;

/// A decoder of a body in chunks with its trailer (RFC 9112, section 7.1).
#[derive(Debug, Drop)]
pub struct Chunks {
    reader: Reader,
    trailer: Fields,
    phase: Phase,
}

impl Model for Chunks {
    ghost use Rattle.std.specs.Prelude.{◌≡◌};
    ghost use Rattle.http_frames.specs.Progress.{Progress};
    ghost use Rattle.http_frames.specs.Pieces.{IsSoundReader};
    ghost use Rattle.http_frames.specs.declared.Phase.TheVariants.{Going};

    ghost Value = { Progress };

    ghost view = { λ c. record {
      body = c.reader.body;
      pending = c.reader.pending;
      stage =
          c.reader.stage;
      trailer = c.trailer;
      phase = c.phase;
    } };

    ghost invariant = { λ c. c.phase ≡ Going → IsSoundReader c.reader };
}

impl Chunks {
    /// A decoder that was fed nothing.
    pub fn new(alloc: Global) -> Chunks
        ensures going { result.phase ≡ Phase.Going }
        ensures fed { IsFed result [] }
    {
        Chunks::new_in(alloc, Bytes::new(alloc), Bytes::new(alloc))
    }

    /// The same in the memory of these octets, which are dropped: the first's for the body, and the
    /// second's for what else is kept between pieces.
    pub fn new_in(alloc: Global, body: Bytes, kept: Bytes) -> Chunks
        ensures going { result.phase ≡ Phase.Going }
        ensures fed { IsFed result [] }
    {
        Chunks {
            reader: Reader::new(alloc, body, kept),
            trailer: Fields::new(alloc),
            phase: Phase::Going,
        }
    }

    /// Takes the next piece of the body. After want of memory it takes no more.
    pub fn feed(&mut self, piece: &[u8]) -> Result<Frame, NoMemory>
        requires { self.old.phase ≡ Phase.Going }
        ensures answer { IfOk result (λ frame. (bytes : List ℕ) → IsFed self.old bytes
            → Answers bytes piece.now self.new frame) }
        ensures phase { IfOk result (λ frame. self.new.phase ≡ phase_after frame) }
        ensures err { OnErr result (self.new.phase ≡ Phase.Over) }
    {
        self.phase = Phase::Over;
        match self.reader.read(piece)? {
            Intake::Took(_) => {
                self.phase = Phase::Going;
                Ok(Frame::More)
            }
            Intake::Whole(trailer, count) => {
                self.trailer = trailer;
                self.phase = Phase::Done;
                Ok(Frame::Whole(count))
            }
            Intake::Bad => Ok(Frame::Bad),
        }
    }

    /// The body, once it is whole; the trailer is dropped. Takes no memory.
    pub fn body(self) -> Bytes
        requires { self.phase ≡ Phase.Done }
        ensures { result ≡ self.body }
    {
        self.reader.body
    }

    /// The same, and memory for what the next decoder keeps.
    pub fn into_parts(self) -> (Bytes, Bytes)
        requires { self.phase ≡ Phase.Done }
        ensures { result.0 ≡ self.body }
    {
        let Reader { body, pending, .. } = self.reader;
        (body, pending)
    }
}

/// Octets begin with at most one body, whatever follows it.
pub fn one_body()
    ensures { (bytes more body other : List ℕ) (trailer fields : List Field) (rest behind : List ℕ)
        → Body bytes body trailer rest → Body (bytes ++ more) other fields behind → (body ≡ other)
        × (trailer ≡ fields) × (behind ≡ rest ++ more) }
{}

/// A body stays one, whatever follows it.
pub fn body_stays()
    ensures { (bytes more body : List ℕ) (trailer : List Field) (rest : List ℕ)
        → Body bytes body trailer rest → Body (bytes ++ more) body trailer (rest ++ more) }
{}
