//! Values, commands and traits that every layer of Kirstelme speaks of.
#![tactic(auto)]

mod bytes;
mod endings;
mod limits;
mod memory;
mod nodes;
mod numbers;
mod numerals;
mod outcomes;
mod queue;
mod sent;
mod store;
mod words;

pub use bytes::Bytes;
pub use endings::Ending;
pub use limits::{INPUT_LIMIT, MAX_NAMES, MAX_SLOTS, NAMES, SLOTS};
pub use memory::NoMemory;
pub use nodes::{Content, Form, Link, Node, Row, Slot, Stage};
pub use numbers::{Limits, Name, NodeId, StepId};
pub use numerals::{digit_count, is_word, read_decimal};
pub use outcomes::{Exception, Kind, Outcome};
pub use queue::{Queue, take_after_two_last};
pub use sent::Sent;
pub use store::{Store, place_two};
pub use words::Words;
