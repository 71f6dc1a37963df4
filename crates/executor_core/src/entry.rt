//! One entry of a history.
use crate::call::{Call, Reply};

/// A call that changed the board, who made it, and the answer.
#[derive(Drop)]
pub struct Entry {
    pub caller: u32,
    pub call: Call,
    pub reply: Reply,
}
