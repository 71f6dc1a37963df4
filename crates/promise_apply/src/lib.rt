//! What commands do to the nodes and the names of a loop.
#![tactic(auto)]

mod applying;
mod building;
mod busy;
mod cells;
mod chaining;
mod clearing;
mod dropping;
mod groups;
mod joining;
mod naming;
mod refusing;
mod sets;
mod sharing;
mod sources;
mod telling;

pub use building::{Over, build_leaf, build_over, detach};
pub use cells::{build_pair, drop_cell, settle_cell};
pub use chaining::{build_chain, build_fork, build_listening};
pub use joining::{Joined, build_joined};
pub use naming::{Fault, Role, Use, first_fault};
pub use sharing::build_branch;
pub use sources::Source;
pub use telling::apply;
