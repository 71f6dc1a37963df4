//! The answers of the board's own calls.
use kj_base::{StepId, Words};
use thiserror::Error;

/// Why a submission was not taken.
#[derive(Clone, Copy, Debug, PartialEq, Eq, Error)]
pub enum NotTaken {
    #[error("the executor was closed")]
    Closed,
    #[error("every request that there is room for was submitted")]
    Full,
}

/// What the target is to do next.
#[derive(Drop)]
pub enum Chosen {
    Start {
        request: u32,
        step: StepId,
        words: Words,
    },
    Stop(u32),
    Empty,
}

/// What a cancellation came to.
#[derive(Clone, Copy, Debug, PartialEq, Eq)]
pub enum Cancelling {
    Withdrawn,
    Asked,
    TooLate,
}
