//! What the calls answer.
use crate::ticket::Ticket;
use kj_base::{Outcome, StepId, Words};

/// What the target is to do next.
#[derive(Drop)]
pub enum Next<P> {
    /// This request is to run.
    Start(u32, StepId, Words, P),
    /// This request is to end.
    Stop(u32),
    /// Nothing.
    Empty,
}

/// What a cancellation came to.
pub enum Cancelled<P> {
    /// The request never started.
    Withdrawn(P),
    /// The target will be told.
    Asked(Ticket),
    /// It has ended, or its end was asked for before.
    TooLate(Ticket),
}

/// What a request that has ended gives back.
#[derive(Drop)]
pub enum Back<P, R> {
    /// The payload of a request that never started, since the executor was closed.
    Unstarted(P),
    /// The result of a request that ran.
    Ran(R),
}

/// What a collection came to.
pub enum Collected<P, R> {
    /// The request hasn't ended.
    NotYet(Ticket),
    /// It ended so.
    Ended(Outcome, Back<P, R>),
}
