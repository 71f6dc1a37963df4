//! The nodes of a promise graph in the slots of a store, by number.
#![tactic(auto)]

mod building;
mod calls;
mod events;
mod fields;
mod finding;
mod fitting;
mod freeing;
mod graph;
mod hubs;
mod index;
mod listing;
mod making;
mod memberships;
mod own_set;
mod owners;
mod parts;
mod putting;
mod replacing;
mod rings;
mod visits;

pub use fields::{Fields, Marks, Rings};
pub use graph::Graph;
pub use index::Entry;
pub use memberships::Memberships;
pub use parts::Span;
pub use visits::{Visit, Visits};

#[cfg(test)]
mod tests;
