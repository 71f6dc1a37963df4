//! The names of a loop, as the layers above see them.
#![tactic(auto)]

mod names;

pub use names::{Awaited, Held, Leaving, Names};
