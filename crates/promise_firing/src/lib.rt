//! What an event does once its tree was evaluated, over any keeper of nodes and any keeper of names.
#![tactic(auto)]

mod branches;
mod chain;
mod closing;
mod closing_all;
mod closing_names;
mod closing_sets;
mod event;
mod going;
mod keeping;
mod owners;
mod races;
mod sides;
mod task;

pub use branches::keep_for_branches;
pub use chain::end_chain;
pub use closing::{close_detached, close_left_over};
pub use closing_all::{close_all, close_hubs};
pub use closing_names::close_names;
pub use event::{end_event, take_event};
pub use keeping::keep_outcome;
pub use owners::{Above, Joined, above_side};
pub use races::win_race;
pub use sides::{count_side, keep_side};
pub use task::{drop_task, end_task};
