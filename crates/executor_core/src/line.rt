//! One entry of a history in little memory: its words are apart.
use kj_base::{Exception, StepId};

// What was called and what was answered, but for words.
#[derive(Clone, Copy, Debug, PartialEq, Eq)]
pub(crate) enum Deed {
    // A submission, which got the request.
    Submitted { request: u32, step: StepId },
    // The target was given the request to run.
    Started { request: u32, step: StepId },
    // The target was told that the request is to end.
    Stopped(u32),
    // The target finished the request with a value.
    Finished(u32),
    // The target finished the request without one.
    Failed { request: u32, exception: Exception },
    // The request was withdrawn.
    Withdrawn(u32),
    // The request's end was asked for.
    Asked(u32),
    // The request's value was collected.
    Collected(u32),
    // That the request ended without a value was collected.
    CollectedFailed { request: u32, exception: Exception },
    // The executor was closed.
    Closed,
}

// A deed, its caller, and where its words begin among those of the history.
#[derive(Clone, Copy, Debug, PartialEq, Eq)]
pub(crate) struct Line {
    pub(crate) from: u32,
    pub(crate) count: u32,
    pub(crate) caller: u32,
    pub(crate) deed: Deed,
}
