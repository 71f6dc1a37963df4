//! How one run of a step ends.
ghost use Rattle.std.specs.Prelude.{◌≡◌};

use crate::numbers::Name;
use crate::outcomes::Exception;
use crate::words::Words;

/// How a step ends: with a value, an exception, the tree of a promise, or its input as it came.
#[derive(Drop)]
pub enum Ending {
    Value(Words),
    Throw(Exception),
    Promise(Name),
    Input,
}

impl Ending {
    /// The same ending; takes no memory.
    pub fn copy(&self) -> Ending
        ensures { result ≡ self.now }
    {
        match self {
            Ending::Value(words) => Ending::Value(words.copy()),
            Ending::Throw(exception) => Ending::Throw(*exception),
            Ending::Promise(name) => Ending::Promise(*name),
            Ending::Input => Ending::Input,
        }
    }
}
