//! The nodes of a loop, by number, as the layers above the graph see them.
#![tactic(auto)]

mod nodes;

pub use nodes::{Mark, NodeRow, Nodes, Way};
