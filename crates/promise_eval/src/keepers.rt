//! What evaluations work on.
use promise_names::Names;
use promise_nodes::Nodes;
use promise_walks::{Frame, Parts};

/// The nodes and the names of a loop, with the stacks of the walks that free trees and search them.
#[derive(Drop)]
pub struct Keepers<N: Nodes + Drop, M: Names + Drop> {
    pub nodes: N,
    pub names: M,
    pub frames: Vec<Frame>,
    pub search: Vec<Parts>,
}
