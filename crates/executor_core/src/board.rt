//! The board and its calls.
ghost use Rattle.std.specs.Prelude.{◌≡◌, ◌+◌, ◌^◌, ◌<◌, ◌≤◌, [], IfOk, IfSome, Some, length, false, true, slice_get, IsTrue, ◌↔◌};
ghost use Rattle.executor_core.specs.Acts.{Desk, desk, act, MayAct, IsRunning, NoneRuns, least, is_queued, is_canceling, queued_state, canceling_state, with_state, submitted, submit_reply, nexted, next_reply, finished, cancelled, cancel_reply, collected, collect_reply, closes, shut};
ghost use Rattle.executor_core.specs.Asks.{askable_state};
ghost use Rattle.executor_core.specs.declared.call.Reply.TheVariants.{Done};
ghost use Rattle.executor_core.specs.declared.request.State.TheVariants.{Executing, Canceling, Spent};

use crate::answers::{Cancelling, Chosen, NotTaken};
use crate::asked::Asked;
use crate::call::{Call, Reply};
use crate::chain::Chain;
use crate::request::{Request, State};
use crate::search::{set_state_at, shut_all};
use kj_base::{NoMemory, Outcome, StepId, Words};
use std::alloc::Global;
use std::marker::Model;

/// Contracts see it as a `Desk`: its limit, whether it was closed, and its requests.
///
/// The requests that wait for their start are linked, and the numbers of those that were asked to end stand in a heap. A
/// request enters it and leaves it at most once, so what a cancellation makes the target do later is logarithmic in the limit.
#[derive(Drop)]
pub struct Board {
    limit: u32,
    closed: bool,
    pub(crate) requests: Vec<Request>,
    waiting: Chain,
    asked: Asked,
}

impl Model for Board {
    ghost use Rattle.std.specs.Prelude.{◌≤◌, length, vec_capacity};
    ghost use Rattle.executor_core.specs.Acts.{Desk, desk};
    ghost use Rattle.executor_core.specs.Asks.{Linked};

    ghost Value = { Desk };

    ghost view = { λ b. desk b.limit b.closed b.requests.items };

    ghost invariant = { λ b. (length b.requests.items ≤ b.limit) ×
        (b.limit ≤ vec_capacity b.requests) × Linked b.limit b.requests.items b.waiting b.asked };
}

impl Board {
    /// A board that takes up to `limit` requests. It makes the room for all of them.
    pub fn new(alloc: Global, limit: u32) -> Result<Board, NoMemory>
        ensures { IfOk result (λ b. b ≡ desk limit false []) }
    {
        Ok(Board {
            limit,
            closed: false,
            requests: Vec::with_capacity(alloc, limit as usize)?,
            waiting: Chain::new(alloc, limit as usize)?,
            asked: Asked::new(alloc, limit as usize)?,
        })
    }

    /// How many requests it takes in all.
    pub fn limit(&self) -> u32
        ensures { result ≡ self.now.limit }
    {
        self.limit
    }

    /// What the call answers, and what it changes. No call takes memory.
    pub fn act(&mut self, caller: u32, call: Call) -> Reply
        requires { MayAct self.old caller call }
        ensures { (self.new, result) ≡ act self.old caller call }
    {
        match call {
            Call::Submit { step, words } => match self.submit(caller, step, words) {
                Ok(request) => Reply::Ticket(request),
                Err(NotTaken::Closed) => Reply::Closed,
                Err(NotTaken::Full) => Reply::Full,
            },
            Call::Next => match self.next() {
                Chosen::Start {
                    request,
                    step,
                    words,
                } => Reply::Start {
                    request,
                    step,
                    words,
                },
                Chosen::Stop(request) => Reply::Stop(request),
                Chosen::Empty => Reply::Empty,
            },
            Call::Finish { request, outcome } => {
                self.finish(request, outcome);
                Reply::Done
            }
            Call::Cancel { request } => match self.cancel(request) {
                Cancelling::Withdrawn => Reply::Withdrawn,
                Cancelling::Asked => Reply::Asked,
                Cancelling::TooLate => Reply::TooLate,
            },
            Call::Collect { request } => match self.collect(request) {
                Some(outcome) => Reply::Ended(outcome),
                None => Reply::NotYet,
            },
            Call::Close => {
                self.close();
                Reply::Done
            }
        }
    }

    /// Queues a request, which gets the next number.
    pub fn submit(&mut self, caller: u32, step: StepId, words: Words) -> Result<u32, NotTaken>
        ensures { (self.new, submit_reply result) ≡ submitted self.old caller step words }
    {
        if self.closed {
            return Err(NotTaken::Closed);
        }
        let count = self.requests.len();
        if count >= self.limit as usize {
            return Err(NotTaken::Full);
        }
        self.requests.push_reserved(Request {
            caller,
            step,
            words,
            state: State::Queued,
        });
        self.waiting.push(count);
        Ok(count as u32)
    }

    /// The target's next request to run, or else to end.
    pub fn next(&mut self) -> Chosen
        ensures { (self.new, next_reply result) ≡ nexted self.old }
    {
        match self.first_queued() {
            Some(request) => {
                let step = self.at(request).step;
                let words = self.at(request).words.copy();
                self.start(request);
                Chosen::Start {
                    request,
                    step,
                    words,
                }
            }
            None => match self.first_canceling() {
                Some(request) => {
                    self.set(request, State::Stopping);
                    Chosen::Stop(request)
                }
                None => Chosen::Empty,
            },
        }
    }

    /// Ends a request that runs.
    pub fn finish(&mut self, request: u32, outcome: Outcome)
        requires { IsRunning self.old request }
        ensures { (self.new, Done) ≡ finished self.old request outcome }
    {
        set_state_at(&mut self.requests, request as usize, State::Done(outcome));
    }

    /// Withdraws a request that waits, or asks one that runs to end.
    pub fn cancel(&mut self, request: u32) -> Cancelling
        requires { request < length self.old.requests }
        ensures { (self.new, cancel_reply result) ≡ cancelled self.old request }
    {
        match self.at(request).state {
            State::Queued => {
                self.withdraw(request);
                Cancelling::Withdrawn
            }
            State::Executing => {
                self.ask(request);
                Cancelling::Asked
            }
            _ => Cancelling::TooLate,
        }
    }

    /// The outcome of a request that has ended.
    pub fn collect(&mut self, request: u32) -> Option<Outcome>
        requires { request < length self.old.requests }
        ensures { (self.new, collect_reply result) ≡ collected self.old request }
    {
        match &self.at(request).state {
            State::Done(outcome) => {
                let outcome = outcome.copy();
                self.set(request, State::Spent);
                Some(outcome)
            }
            _ => None,
        }
    }

    /// True where the board was open.
    pub fn close(&mut self) -> bool
        requires { NoneRuns self.old }
        ensures board { (self.new, Done) ≡ closes self.old }
        ensures open { IsTrue result ↔ (self.old.closed ≡ false) }
    {
        if self.closed {
            return false;
        }
        self.closed = true;
        self.waiting.clear();
        shut_all(&mut self.requests);
        true
    }

    fn at(&self, request: u32) -> &Request
        requires { request < length self.now.requests }
        ensures { slice_get self.now.requests request ≡ Some result.now }
    {
        &self.requests[request as usize]
    }

    // It waits, or may be asked to end, as before.
    fn set(&mut self, request: u32, state: State)
        requires { (q : Request) × (slice_get self.old.requests request ≡ Some q)
            × (queued_state state ≡ queued_state q.state)
            × (askable_state state ≡ askable_state q.state) × (canceling_state state ≡ false) }
        ensures { self.new ≡ with_state self.old request state }
    {
        set_state_at(&mut self.requests, request as usize, state);
    }

    // One that waits runs from now on.
    fn start(&mut self, request: u32)
        requires { (q : Request) × (slice_get self.old.requests request ≡ Some q)
            × (queued_state q.state ≡ true) }
        ensures { self.new ≡ with_state self.old request Executing }
    {
        let at = request as usize;
        self.waiting.remove(at);
        set_state_at(&mut self.requests, at, State::Executing);
    }

    fn withdraw(&mut self, request: u32)
        requires { (q : Request) × (slice_get self.old.requests request ≡ Some q)
            × (queued_state q.state ≡ true) }
        ensures { self.new ≡ with_state self.old request Spent }
    {
        let at = request as usize;
        self.waiting.remove(at);
        set_state_at(&mut self.requests, at, State::Spent);
    }

    // From now on the target is to be told that the request is to end.
    fn ask(&mut self, request: u32)
        requires { (q : Request) × (slice_get self.old.requests request ≡ Some q)
            × (queued_state q.state ≡ false) × (askable_state q.state ≡ true) }
        ensures { self.new ≡ with_state self.old request Canceling }
    {
        let at = request as usize;
        self.asked.push(at);
        set_state_at(&mut self.requests, at, State::Canceling);
    }

    fn first_queued(&self) -> Option<u32>
        ensures value { result ≡ least is_queued self.now.requests }
        ensures waits { IfSome result (λ r. (q : Request)
            × (slice_get self.now.requests r ≡ Some q) × (queued_state q.state ≡ true)) }
        ensures within { IfSome result (λ r. r < length self.now.requests) }
    {
        // Numbers of requests are below the limit, so they fit a `u32`.
        let _limit = self.limit;
        match self.waiting.least() {
            Some(at) => Some(at as u32),
            None => None,
        }
    }

    fn first_canceling(&mut self) -> Option<u32>
        ensures same { self.new ≡ self.old }
        ensures value { result ≡ least is_canceling self.old.requests }
        ensures within { IfSome result (λ r. r < length self.old.requests) }
    {
        // As above.
        let _limit = self.limit;
        match self.asked.least(self.requests.as_slice()) {
            Some(at) => Some(at as u32),
            None => None,
        }
    }
}
