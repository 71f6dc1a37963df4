//! The board of an executor: which requests were submitted, and how far each has come.
//!
//! Requests are numbered 0, 1, 2 in the order of their submission. Caller 0 is the target, which runs them.
#![tactic(auto)]

mod answers;
mod asked;
mod board;
mod call;
mod chain;
mod entries;
mod entry;
mod laws;
mod line;
mod log;
mod request;
mod search;
#[cfg(test)]
mod tests;

pub use answers::{Cancelling, Chosen, NotTaken};
pub use board::Board;
pub use call::{Call, Reply};
pub use entries::Entries;
pub use entry::Entry;
pub use laws::{
    beginnings_are_legal, closed_is_settled, closed_where_a_close_stands, ends_have_places,
    entry_opens_or_ends, own_entries_tell, requests_are_submissions, requests_start_and_end_once,
    target_starts_and_finishes,
};
pub use log::{Log, MAX_ENTRIES};
pub use request::{Request, State};
