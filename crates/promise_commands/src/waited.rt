//! The answers of a wait.
use crate::refused::Refused;
use kj_base::Outcome;

/// What a wait did.
#[derive(Drop)]
pub enum Waited {
    /// The promise was ready: its outcome. Its tree is freed.
    Done(Outcome),
    /// No event was armed. The promise has its name again, or was freed where a step took that name.
    Idle,
    /// As many turns were made as there might be. The promise is as after `Idle`.
    Turns,
    /// The name isn't there, or is no promise's; all is as before.
    Refused(Refused),
    /// A step found no memory; the loop is stopped, and only the closing does more.
    NoMemory,
    /// A step of an earlier turn found no memory.
    Stopped,
}
