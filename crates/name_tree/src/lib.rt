//! The names of a loop, in a search tree.
#![tactic(auto)]

mod changes;
mod cut;
mod held;
mod map;
mod names;
mod roots;
mod tree;

pub use names::NameTree;

#[cfg(test)]
mod tests;
