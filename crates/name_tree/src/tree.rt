//! A search tree that is divided at fixed keys.
ghost use Rattle.std.specs.Prelude.{◌≡◌, ◌+◌, ℕ, None, Some, IsSome};
ghost use Rattle.name_tree.specs.Cuts.{IsCut};
ghost use Rattle.name_tree.specs.Trees.{value_at, count_of, one_if, IsSplit, IsSetAt, IsLowest};
ghost use Rattle.name_tree.specs.Leaves.{IsAlone, HasLostLeaf, HasMovedUp};
ghost use Rattle.name_tree.specs.declared.tree.Tree.TheVariants.{Empty};

use crate::cut::Cut;
use std::mem;

/// Keys with a value each. A key lies on the side of the cut that it is on, so that the tree is no deeper than keys have
/// bits, and nothing is ever turned.
#[cycle(tree)]
#[derive(Drop)]
pub enum Tree<V: Copy> {
    Empty,
    Fork(Box<Node<V>>),
}

/// A key with its value, and the keys below and from the cut.
#[cycle(tree)]
#[derive(Drop)]
pub struct Node<V: Copy> {
    pub key: u64,
    pub value: V,
    pub low: Tree<V>,
    pub high: Tree<V>,
}

// The value of a key.
pub(crate) fn get<V: Copy>(tree: &Tree<V>, key: u64, cut: Cut) -> Option<V>
    requires cut { IsCut cut.at cut.step }
    requires split { IsSplit cut.at cut.step tree.now }
    ensures { result ≡ value_at key tree.now }
{
    match tree {
        Tree::Empty => None,
        Tree::Fork(node) => {
            if node.key == key {
                Some(node.value)
            } else if key < cut.at {
                get(&node.low, key, cut.low())
            } else {
                get(&node.high, key, cut.high())
            }
        }
    }
}

// The lowest key.
pub(crate) fn lowest<V: Copy>(tree: &Tree<V>) -> Option<u64>
    ensures { (at step : ℕ) → IsSplit at step tree.now → IsLowest result tree.now }
{
    match tree {
        Tree::Empty => None,
        Tree::Fork(node) => match lowest(&node.low) {
            Some(low) => Some(node.key.min(low)),
            None => match lowest(&node.high) {
                Some(high) => Some(node.key.min(high)),
                None => Some(node.key),
            },
        },
    }
}

// A key with its value and nothing below, in the memory of a node that isn't used.
fn make_leaf<V: Copy>(mut spare: Box<Node<V>>, key: u64, value: V) -> Tree<V>
    ensures set { IsSetAt key (Some value) Empty result }
    ensures count { count_of result ≡ 1 }
    ensures split { (at step : ℕ) → IsSplit at step result }
{
    *spare = Node {
        key,
        value,
        low: Tree::Empty,
        high: Tree::Empty,
    };
    Tree::Fork(spare)
}

// A key has this value now. The node that isn't used is given back where the key is there.
pub(crate) fn put<V: Copy>(
    tree: &mut Tree<V>,
    key: u64,
    value: V,
    spare: Box<Node<V>>,
    cut: Cut,
) -> Option<Box<Node<V>>>
    requires cut { IsCut cut.at cut.step }
    requires split { IsSplit cut.at cut.step tree.old }
    ensures set { IsSetAt key (Some value) tree.old tree.new }
    ensures count { count_of tree.new + one_if result ≡ count_of tree.old + 1 }
    ensures split { IsSplit cut.at cut.step tree.new }
{
    match tree {
        Tree::Empty => {
            *tree = make_leaf(spare, key, value);
            None
        }
        Tree::Fork(node) => {
            if node.key == key {
                node.value = value;
                Some(spare)
            } else if key < cut.at {
                put(&mut node.low, key, value, spare, cut.low())
            } else {
                put(&mut node.high, key, value, spare, cut.high())
            }
        }
    }
}

// A key that is there has this value now.
pub(crate) fn replace<V: Copy>(tree: &mut Tree<V>, key: u64, value: V, cut: Cut)
    requires cut { IsCut cut.at cut.step }
    requires split { IsSplit cut.at cut.step tree.old }
    requires there { IsSome (value_at key tree.old) }
    ensures set { IsSetAt key (Some value) tree.old tree.new }
    ensures count { count_of tree.new ≡ count_of tree.old }
    ensures split { IsSplit cut.at cut.step tree.new }
{
    match tree {
        Tree::Empty => {}
        Tree::Fork(node) => {
            if node.key == key {
                node.value = value;
            } else if key < cut.at {
                replace(&mut node.low, key, value, cut.low());
            } else {
                replace(&mut node.high, key, value, cut.high());
            }
        }
    }
}

// Takes off a node whose sides are empty.
fn take_alone<V: Copy>(tree: &mut Tree<V>) -> Option<Box<Node<V>>>
    requires { IsAlone tree.old }
    ensures { HasLostLeaf result tree.old tree.new }
{
    match mem::replace(tree, Tree::Empty) {
        Tree::Empty => None,
        Tree::Fork(node) => Some(node),
    }
}

// Takes off a node with nothing below; none where the tree is empty.
fn take_leaf<V: Copy>(tree: &mut Tree<V>) -> Option<Box<Node<V>>>
    ensures { HasLostLeaf result tree.old tree.new }
{
    match tree {
        Tree::Empty => None,
        Tree::Fork(node) => {
            if let Some(leaf) = take_leaf(&mut node.low) {
                return Some(leaf);
            }
            if let Some(leaf) = take_leaf(&mut node.high) {
                return Some(leaf);
            }
            take_alone(tree)
        }
    }
}

// A node with nothing below goes, and its key and value take the place of these; none where there is no node below.
fn move_up<V: Copy>(node: &mut Node<V>) -> Option<Box<Node<V>>>
    ensures { HasMovedUp result node.old node.new }
{
    if let Some(leaf) = take_leaf(&mut node.low) {
        node.key = leaf.key;
        node.value = leaf.value;
        return Some(leaf);
    }
    if let Some(leaf) = take_leaf(&mut node.high) {
        node.key = leaf.key;
        node.value = leaf.value;
        return Some(leaf);
    }
    None
}

// A key goes. A node that isn't used any more is given back where the key was there.
pub(crate) fn take<V: Copy>(tree: &mut Tree<V>, key: u64, cut: Cut) -> Option<Box<Node<V>>>
    requires cut { IsCut cut.at cut.step }
    requires split { IsSplit cut.at cut.step tree.old }
    ensures set { IsSetAt key None tree.old tree.new }
    ensures there { IsSome (value_at key tree.old) → IsSome result }
    ensures count { count_of tree.new + one_if result ≡ count_of tree.old }
    ensures split { IsSplit cut.at cut.step tree.new }
{
    match tree {
        Tree::Empty => None,
        Tree::Fork(node) => {
            if node.key == key {
                match move_up(node) {
                    Some(leaf) => Some(leaf),
                    None => take_alone(tree),
                }
            } else if key < cut.at {
                take(&mut node.low, key, cut.low())
            } else {
                take(&mut node.high, key, cut.high())
            }
        }
    }
}
