//! The loop: its calls over any keeper of nodes and any keeper of names.
#![tactic(auto)]

mod applying;
mod closing;
mod frees;
mod holding;
mod over;
mod running;
mod waiting;
mod waits;

pub use over::{Loop, LoopOver};
pub use promise_commands::Waited;
pub use promise_turns::Turned;
