//! Callers of an executor, which show that the conditions of its calls can be met by what they did themselves, and run.
#![tactic(auto)]

mod both;
mod item;
#[cfg(test)]
mod looks;
mod patient;
#[cfg(test)]
mod rows;
mod stopper;
mod submitter;
mod tally;
mod target;
#[cfg(test)]
mod threads;
mod watcher;

pub use both::ask_both;
pub use item::Item;
pub use patient::{run_until_told, serve_all_patiently, serve_patiently};
pub use stopper::ask_what_runs;
pub use submitter::{ask, one_word, settle, withdraw};
pub use tally::{Served, Tally};
pub use target::{serve, serve_once};
pub use watcher::{ask_and_watch, look, settle_by_sight, watch};
