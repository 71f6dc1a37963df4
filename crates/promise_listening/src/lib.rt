//! Ready trees, who listens to them, arming and settling, over any keeper of nodes.
#![tactic(auto)]

mod above;
mod arming;
mod ready;

pub use above::{WAIT, listener};
pub use arming::{announce, arm, keep, listen, settle};
pub use ready::{is_join_ready, is_last, is_ready};
