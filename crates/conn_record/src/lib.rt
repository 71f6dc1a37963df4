//! Recordings of what connections sent, the replies that were written to them, and a generator of recordings.
#![tactic(auto)]

mod generated;
mod generator;
mod number;
mod print;
mod read;
mod records;
#[cfg(test)]
mod tests;

pub use generated::make_recording;
pub use print::{print_records, print_replies};
pub use read::{MAX_CONNS, RecordRefused, one_recording, read_records, some_recording};
pub use records::{ConnectionOctets, Records, Replies};
