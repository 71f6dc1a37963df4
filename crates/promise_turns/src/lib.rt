//! A turn of a loop, over any keeper of nodes and any keeper of names: one event is taken and fires.
#![tactic(auto)]

mod ending;
mod firing;
mod keeping;
mod looks;
mod siding;
mod turned;
mod turning;

pub use turned::{TakenTurn, Turned};
pub use turning::{has_ended, take_turn, turn};
