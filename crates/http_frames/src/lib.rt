//! Bodies of HTTP/1.1 messages that come in pieces: of a known length, or in chunks
//! (RFC 9112, sections 6 and 7.1).
#![tactic(auto)]

mod chunks;
mod lengths;
mod line;
mod reader;
mod write;

pub use chunks::{Chunks, body_stays, one_body};
pub use lengths::Lengths;
pub use write::write_chunk;

/// What a piece of a body did.
#[derive(Clone, Copy, Debug, PartialEq, Eq)]
pub enum Frame {
    /// The body goes on.
    More,
    /// The body is whole: so many octets of this piece belong to it.
    Whole(usize),
    /// Whatever follows, the octets so far begin no body.
    Bad,
}

/// What a decoder may be asked.
#[derive(Clone, Copy, Debug, PartialEq, Eq)]
pub enum Phase {
    /// It takes the next piece.
    Going,
    /// The body is whole.
    Done,
    /// The octets begin no body, or memory ran out.
    Over,
}

#[cfg(test)]
mod tests;
