//! Keys with values, in memory that is taken once.
ghost use Rattle.std.specs.Prelude.{◌≡◌, ◌+◌, ◌*◌, ◌<◌, ◌==◌, not, ◌≤◌, vec_capacity, None, Some, IfOk, IsSome, vec_len};
ghost use Rattle.name_tree.specs.Cuts.{IsCut};
ghost use Rattle.name_tree.specs.Trees.{value_at, count_of, IsSetAt, IsLowest};
ghost use Rattle.name_tree.specs.Maps.{IsMap, total_of};
ghost use Rattle.name_tree.specs.declared.tree.Tree.TheVariants.{Empty};

use crate::cut::Cut;
use crate::tree::{self, Node, Tree};
use kj_base::NoMemory;
use std::alloc::Global;

/// Keys with a value each: a tree, the nodes that it doesn't use, and where the tree is divided.
#[derive(Drop)]
pub struct KeyMap<V: Copy> {
    pub tree: Tree<V>,
    pub spare: Vec<Box<Node<V>>>,
    pub cut: Cut,
}

// As many nodes; each has this value until it is used.
fn make_nodes<V: Copy>(alloc: Global, count: u64, blank: V) -> Result<Vec<Box<Node<V>>>, NoMemory>
    ensures { IfOk result (λ nodes. vec_len nodes ≡ count) }
{
    let mut nodes = Vec::with_capacity(alloc, count as usize)?;
    for _ in 0..count {
        let node = Node {
            key: 0,
            value: blank,
            low: Tree::Empty,
            high: Tree::Empty,
        };
        nodes.push(Box::new(alloc, node)?)?;
    }
    Ok(nodes)
}

impl<V: Copy> KeyMap<V> {
    // No keys, and memory for as many.
    pub(crate) fn new(alloc: Global, limit: u64, blank: V, cut: Cut) -> Result<KeyMap<V>, NoMemory>
        requires { IsCut cut.at cut.step }
        ensures map { IfOk result (λ m. IsMap m) }
        ensures total { IfOk result (λ m. total_of m ≡ limit) }
        ensures empty { IfOk result (λ m. m.tree ≡ Empty) }
        ensures cut { IfOk result (λ m. m.cut ≡ cut) }
    {
        Ok(KeyMap {
            tree: Tree::Empty,
            spare: make_nodes(alloc, limit, blank)?,
            cut,
        })
    }

    // The value of a key.
    pub(crate) fn get(&self, key: u64) -> Option<V>
        requires { IsMap self.now }
        ensures { result ≡ value_at key self.now.tree }
    {
        tree::get(&self.tree, key, self.cut)
    }

    // The lowest key.
    pub(crate) fn lowest(&self) -> Option<u64>
        requires { IsMap self.now }
        ensures { IsLowest result self.now.tree }
    {
        tree::lowest(&self.tree)
    }

    // Whether there is room for one more key.
    pub(crate) fn has_room(&self) -> bool
        ensures { result ≡ not (vec_len self.now.spare == 0) }
    {
        !self.spare.is_empty()
    }

    // A node that isn't used any more.
    fn keep(&mut self, node: Box<Node<V>>)
        requires { vec_len self.old.spare < vec_capacity self.old.spare }
        ensures spare { vec_len self.new.spare ≡ vec_len self.old.spare + 1 }
        ensures capacity { vec_capacity self.old.spare ≤ vec_capacity self.new.spare }
        ensures tree { self.new.tree ≡ self.old.tree }
        ensures cut { self.new.cut ≡ self.old.cut }
    {
        let _ = self.spare.push(node);
    }

    // A key has this value now.
    pub(crate) fn put(&mut self, key: u64, value: V)
        requires map { IsMap self.old }
        requires room { 0 < vec_len self.old.spare }
        requires fits { key < 2 * self.old.cut.at }
        ensures set { IsSetAt key (Some value) self.old.tree self.new.tree }
        ensures map { IsMap self.new }
        ensures cut { self.new.cut ≡ self.old.cut }
        ensures total { total_of self.new ≡ total_of self.old }
        ensures few { count_of self.new.tree ≤ count_of self.old.tree + 1 }
    {
        if let Some(spare) = self.spare.pop() {
            if let Some(node) = tree::put(&mut self.tree, key, value, spare, self.cut) {
                self.keep(node);
            }
        }
    }

    // A key that is there has this value now.
    pub(crate) fn replace(&mut self, key: u64, value: V)
        requires map { IsMap self.old }
        requires there { IsSome (value_at key self.old.tree) }
        ensures set { IsSetAt key (Some value) self.old.tree self.new.tree }
        ensures map { IsMap self.new }
        ensures cut { self.new.cut ≡ self.old.cut }
        ensures total { total_of self.new ≡ total_of self.old }
        ensures count { count_of self.new.tree ≡ count_of self.old.tree }
    {
        tree::replace(&mut self.tree, key, value, self.cut);
    }

    // A key goes.
    pub(crate) fn remove(&mut self, key: u64)
        requires map { IsMap self.old }
        ensures set { IsSetAt key None self.old.tree self.new.tree }
        ensures map { IsMap self.new }
        ensures cut { self.new.cut ≡ self.old.cut }
        ensures total { total_of self.new ≡ total_of self.old }
        ensures gone { IsSome (value_at key self.old.tree)
            → count_of self.new.tree + 1 ≡ count_of self.old.tree }
        ensures few { count_of self.new.tree ≤ count_of self.old.tree }
    {
        if let Some(node) = tree::take(&mut self.tree, key, self.cut) {
            self.keep(node);
        }
    }
}
