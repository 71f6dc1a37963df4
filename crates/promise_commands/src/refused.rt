//! Why a command was refused.
use kj_base::Name;

/// The cause; after a refusal all is as before. They are tested in the order Stopped, Unknown, WrongKind, Taken, Busy,
/// Full.
#[derive(Clone, Copy, Debug, PartialEq, Eq)]
pub enum Refused {
    /// A name that should be there isn't, or a source is named twice.
    Unknown(Name),
    /// A new name is in the map already, or is named twice.
    Taken(Name),
    /// There is no slot for the nodes, no room for the name, or no number left.
    Full,
    /// The node whose event fires would go. The name is the first of the command.
    Busy(Name),
    /// A name holds something else than the command asks.
    WrongKind(Name),
    /// An earlier step of the loop found no memory.
    Stopped,
}
