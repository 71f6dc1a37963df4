//! The answers of a turn.
use kj_base::Link;

/// What a turn did.
#[derive(Clone, Copy, Debug, PartialEq, Eq)]
pub enum Turned {
    /// An event fired.
    Fired,
    /// No event was armed.
    Idle,
    /// A step of this turn found no memory; the loop is stopped, and only the closing does more.
    NoMemory,
    /// A step of an earlier turn found no memory.
    Stopped,
}

/// What a turn of a loop that runs did.
#[derive(Clone, Copy, Debug, PartialEq, Eq)]
pub enum TakenTurn {
    /// This event fired, of number 0 for the wait's.
    Fired(Link),
    /// No event was armed.
    Idle,
    /// A step of this turn found no memory.
    NoMemory,
}
