//! What a line means.
use kj_base::{Ending, Limits, Name, StepId};
use promise_commands::Command;

/// The most words that a value has.
pub const MAX_WORDS: usize = 16;

/// The most turns of one line.
pub const MAX_TURNS: u32 = 1_000_000;

/// The fewest slots that a loop may have. Their number is a multiple of it.
pub const SLOTS_STEP: u32 = 8;

/// What one line of a script means.
#[derive(Drop)]
pub enum Meaning {
    /// An empty line or a remark.
    Nothing,
    /// How many slots and names the loop has.
    Limits(Limits),
    Do(Command),
    Turn,
    /// So many turns, or until one finds the queue empty.
    Run(u32),
    /// A wait for the promise of this name, of so many turns at most.
    Wait(Name, u32),
    /// A body of this step begins.
    Step(StepId),
    /// A body ends so.
    Close(Ending),
}
