//! What a caller asks of the board, and what it answers.
use kj_base::{Outcome, StepId, Words};

/// A call of a caller.
#[derive(Drop)]
pub enum Call {
    Submit { step: StepId, words: Words },
    Next,
    Finish { request: u32, outcome: Outcome },
    Cancel { request: u32 },
    Collect { request: u32 },
    Close,
}

/// The answer to a call.
#[derive(Drop)]
pub enum Reply {
    /// To a submission: the executor was closed.
    Closed,
    /// To a submission: every request that there is room for was submitted.
    Full,
    /// To a submission: the number of the request.
    Ticket(u32),
    /// To the target: this request is to run.
    Start {
        request: u32,
        step: StepId,
        words: Words,
    },
    /// To the target: this request is to end.
    Stop(u32),
    /// To the target: there is nothing to do.
    Empty,
    /// To the target: so it is.
    Done,
    /// To a cancellation: it never started.
    Withdrawn,
    /// To a cancellation: the target will be told.
    Asked,
    /// To a cancellation: it has ended, or its end was asked for before.
    TooLate,
    /// To a collection: how the request ended.
    Ended(Outcome),
    /// To a collection: it hasn't ended.
    NotYet,
}
