//! The lines of a script that mean something outside the bodies of its steps.
use crate::command::Command;
use kj_base::Name;

/// What one line outside a body does.
#[derive(Drop)]
pub enum Line {
    Do(Command),
    Turn,
    /// So many turns, or until one finds the queue empty.
    Run(u32),
    /// A wait for the promise of this name, of so many turns at most.
    Wait(Name, u32),
}

/// A line with its number in the text, from 1, all lines counted.
#[derive(Drop)]
pub struct NumberedLine {
    pub number: u32,
    pub line: Line,
}
