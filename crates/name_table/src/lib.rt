//! The names of a loop, in a vector by rising name.
#![tactic(auto)]

mod entries;
pub mod left_over;
mod table;

pub use entries::{Entry, awaited_after, held_after, held_with_tasks};
pub use table::NameTable;

#[cfg(test)]
mod tests;
