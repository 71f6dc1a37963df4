//! How a promise ends.
ghost use Rattle.std.specs.Prelude.{◌≡◌};

use crate::words::Words;

/// The kinds of exceptions (kj/exception.h, `Exception::Type`).
#[derive(Clone, Copy, Debug, PartialEq, Eq)]
pub enum Kind {
    Failed,
    Overloaded,
    Disconnected,
    Unimplemented,
}

/// A kind and a code. Codes below 1,000 are the runtime's own.
#[derive(Clone, Copy, Debug, PartialEq, Eq)]
pub struct Exception {
    pub kind: Kind,
    pub code: u32,
}

/// What a promise ends with.
#[derive(Drop)]
pub enum Outcome {
    Value(Words),
    Broken(Exception),
}

impl Outcome {
    /// The same outcome; takes no memory.
    pub fn copy(&self) -> Outcome
        ensures { result ≡ self.now }
    {
        match self {
            Outcome::Value(words) => Outcome::Value(words.copy()),
            Outcome::Broken(exception) => Outcome::Broken(*exception),
        }
    }
}
