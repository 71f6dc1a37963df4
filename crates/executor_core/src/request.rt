//! A request on the board.
ghost use Rattle.std.specs.Prelude.{◌≡◌};
ghost use Rattle.executor_core.specs.Acts.{is_queued, is_canceling, shut};

use kj_base::{Exception, Kind, Outcome, StepId, Words};

/// How far a request has come (kj/async.c++, the states of an `XThreadEvent`).
#[derive(Drop)]
pub enum State {
    /// The submitter can still withdraw it.
    Queued,
    /// The target runs it.
    Executing,
    /// The submitter asked for its end, and the target wasn't told yet.
    Canceling,
    /// The target was told.
    Stopping,
    /// It ended so, and the target won't touch it again.
    Done(Outcome),
    /// The submitter has withdrawn it or taken its outcome.
    Spent,
}

/// A submitted request.
#[derive(Drop)]
pub struct Request {
    /// The number of the pass that submitted it.
    pub caller: u32,
    pub step: StepId,
    pub words: Words,
    pub state: State,
}

impl Request {
    pub(crate) fn is_queued(&self) -> bool
        ensures { result ≡ is_queued self.now }
    {
        match self.state {
            State::Queued => true,
            _ => false,
        }
    }

    pub(crate) fn is_canceling(&self) -> bool
        ensures { result ≡ is_canceling self.now }
    {
        match self.state {
            State::Canceling => true,
            _ => false,
        }
    }

    // What closing the board does to it.
    pub(crate) fn shut(&mut self)
        ensures { self.new ≡ shut self.old }
    {
        if self.is_queued() {
            self.state = State::Done(Outcome::Broken(Exception {
                kind: Kind::Disconnected,
                code: 3,
            }));
        }
    }
}
