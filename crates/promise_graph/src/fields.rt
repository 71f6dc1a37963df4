//! The fields of a graph.
use crate::index::Entry;
use kj_base::{Link, Queue, Store};

/// By slot: the slot before it and the slot behind it in its ring. A hub and its branches are one ring, in which the
/// hub stands before its first branch and behind its last. A slot that is in no ring has itself on both sides.
#[derive(Drop)]
pub struct Rings {
    pub nexts: Vec<u32>,
    pub prevs: Vec<u32>,
}

/// What is known of each slot beside its node, and what a loop has beside its nodes and its queue.
#[derive(Drop)]
pub struct Marks {
    /// By slot: the number of the node there, or 0.
    pub numbers: Vec<u64>,
    /// By slot: the node that took this one as its tree, with number 0 where none did.
    pub owners: Vec<Link>,
    pub rings: Rings,
    /// The loop's own set is one ring, in which the place behind the last slot stands before the oldest task and behind
    /// the newest. A slot that is in no ring has itself on both sides.
    pub tasks: Rings,
    /// The live hubs are one ring, by the same head: the oldest stands behind it.
    pub hubs: Rings,
    /// By rising number, with room for twice the slots.
    pub index: Vec<Entry>,
    pub firing: Option<Link>,
    pub awaited: Option<Link>,
    /// The number of the next node.
    pub next: u64,
    pub slots: u32,
}

/// A store and a queue, with the marks of each slot.
#[derive(Drop)]
pub struct Fields<St: Store + Drop, Q: Queue + Drop> {
    pub store: St,
    pub queue: Q,
    pub marks: Marks,
}
