//! The steps of a server.
ghost use Rattle.std.specs.Prelude.{◌≡◌};
ghost use Rattle.http_steps.specs.Steps.{step_of, place_of};

use http_stream::ConnectionStep;
use kj_base::Outcome;

/// The step over the drain.
pub const DRAIN: u32 = 0;

/// A connection's step that reads its stream.
pub const READ: u32 = 1;

/// A connection's step that makes the text of an answer.
pub const ANSWER: u32 = 2;

/// A connection's step that writes.
pub const WRITE: u32 = 3;

/// The step over a connection's exception.
pub const FAILED: u32 = 4;

/// The step that counts a payload's octets.
pub const COUNT: u32 = 5;

/// The first step of a connection that comes as a payload.
pub const SERVE: u32 = 6;

/// What the number of a step stands for.
#[derive(Clone, Copy, Debug, PartialEq, Eq)]
pub enum ServerStep {
    /// The drain began.
    Drain,
    /// A step of the connection whose place is the input.
    Connection(ConnectionStep),
    /// A connection's task ended with an exception.
    Failed,
    /// A step over a payload.
    Payload,
    /// None of the server's.
    Foreign,
}

// What a number stands for.
pub(crate) fn step_of(number: u32) -> ServerStep
    ensures { result ≡ step_of number }
{
    if number == DRAIN {
        return ServerStep::Drain;
    }
    if number == READ {
        return ServerStep::Connection(ConnectionStep::Read);
    }
    if number == ANSWER {
        return ServerStep::Connection(ConnectionStep::Answer);
    }
    if number == WRITE {
        return ServerStep::Connection(ConnectionStep::Write);
    }
    if number == FAILED {
        return ServerStep::Failed;
    }
    if number == COUNT || number == SERVE {
        return ServerStep::Payload;
    }
    ServerStep::Foreign
}

// The place that an input is, where it is one word.
pub(crate) fn place_of(input: &Outcome) -> Option<u64>
    ensures { result ≡ place_of input.now }
{
    match input {
        Outcome::Value(words) => {
            let words = words.as_slice();
            if words.len() != 1 {
                return None;
            }
            Some(words[0])
        }
        Outcome::Broken(_) => None,
    }
}
