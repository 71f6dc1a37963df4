//! What lies behind the lock of an executor.
ghost use Rattle.std.specs.Prelude.{◌≡◌, ◌+◌, ◌<◌, ◌≤◌, ◌≢◌, ℕ, [], ◌∷◌, ◌++◌, length, true, false, List, cond, slice_get, IfOk, IfErr, IfSome, IfNone};
ghost use Rattle.std.specs.Bool.{OnTrue, OnFalse};
ghost use Rattle.executor_core.specs.declared.call.Call.TheVariants.{Submit, Next, Finish, Cancel, Collect, Close};
ghost use Rattle.executor_core.specs.declared.call.Reply.TheVariants.{Done};
ghost use Rattle.executor_core.specs.declared.call.Reply.TheVariants as reply;
ghost use Rattle.executor_core.specs.declared.entry.Entry.{Entry};
ghost use Rattle.executor_core.specs.Acts.{act, refusal_reply};
ghost use Rattle.executor_core.specs.Ends.{end_of};
ghost use Rattle.executor_core.proofs.Ends.{end_stays, end_within, end_fresh};
ghost use Rattle.executor_core.specs.Histories.{entry, board_of, of_caller, times, is_submit, waits, Outstanding, Unfinished, AllFinished, Legal};
ghost use Rattle.xthread.specs.Stock.{Book, book, Grown, Sound};
ghost use Rattle.xthread.specs.Answers.{request, board, Unchanged, NextTells, CancelTells, CollectTells};

use crate::answers::{Cancelled, Collected, Next};
use crate::executor::MAX_REQUESTS;
use crate::guarded::Guarded;
use crate::ticket::Ticket;
use count_lock::Kept;
use executor_core::{Entries, Entry, NotTaken};
use kj_base::{NoMemory, Outcome, Sent, StepId, Words};
use std::alloc::Global;
use std::marker::Model;

/// A board, its history, and what belongs to each request, in a box: a turn moves eight octets out and in. Contracts see the limit
/// and the history.
#[derive(Drop)]
pub struct Boxed<P: Sent, R: Send> {
    guarded: Box<Guarded<P, R>>,
}

impl<P: Sent, R: Send> Model for Boxed<P, R> {
    ghost use Rattle.xthread.specs.Stock.{Book};

    ghost Value = { Book };

    ghost view = { λ b. b.guarded.value };

    ghost invariant = { λ _. Unit {0} };
}

impl<P: Sent, R: Send> Kept for Boxed<P, R> {
    type Entry = Entry;

    ghost entries = { λ g. g.entries };

    ghost by = { λ e. e.caller };

    ghost constant = { λ g. g.limit };

    // The place of the finish, the withdrawal or the closing that ends the request.
    ghost fin = { end_of };

    ghost fin_laws = { record { stays = end_stays; within = end_within; fresh = end_fresh } };

    fn constant(&self) -> u64 {
        let guarded: &Guarded<P, R> = &self.guarded;
        guarded.board.limit() as u64
    }
}

impl<P: Sent + Drop, R: Send + Drop> Boxed<P, R> {
    // Nothing was submitted. Makes the room for all that may follow: six entries for each request and one more.
    pub(crate) fn new(alloc: Global, requests: u32) -> Result<Boxed<P, R>, NoMemory>
        requires { (1 ≤ requests) × (requests ≤ MAX_REQUESTS) }
        ensures { IfOk result (λ g. g ≡ book requests []) }
    {
        Ok(Boxed {
            guarded: Box::new(alloc, Guarded::new(alloc, requests)?)?,
        })
    }

    pub(crate) fn into_entries(self) -> Entries
        ensures entries { result ≡ self.entries }
        ensures legal { Legal self.limit result }
    {
        Box::into_inner(self.guarded).into_entries()
    }

    // How many requests were submitted.
    pub(crate) fn submitted(&self) -> u32
        ensures { result ≡ length (board self.now).requests }
    {
        self.guarded.submitted()
    }

    // The place of the last entry.
    pub(crate) fn last_place(&self) -> u64
        requires { 1 ≤ length self.now.entries }
        ensures { result + 1 ≡ length self.now.entries }
    {
        self.guarded.last_place()
    }

    // After a closing: the request waited for its start until then.
    pub(crate) fn is_unstarted(&self, request: u32) -> bool
        requires { request < length (board self.now).requests }
        ensures { (before : List Entry) → self.now.entries ≡ before ++ entry 0 Close Done ∷ []
            → waits (slice_get (board_of self.now.limit before).requests request)
            ≡ cond result 1 0 }
    {
        self.guarded.is_unstarted(request)
    }

    pub(crate) fn submit(
        &mut self,
        caller: u32,
        step: StepId,
        words: Words,
        payload: P,
    ) -> Result<u32, (NotTaken, P)>
        requires { P.fits payload step.0 words }
        ensures sound { Sound self.new }
        ensures grown { IfOk result
            (λ r. Grown self.old self.new (entry caller (Submit step words) (reply.Ticket r))) }
        ensures own { IfOk result (λ r. Outstanding (of_caller caller self.new.entries) r) }
        ensures fresh { IfOk result (λ r. times (is_submit r) (of_caller caller self.old.entries)
            ≡ 0) }
        ensures err { IfErr result
            (λ e. Unchanged self.old self.new caller (Submit step words) (refusal_reply e.0)
            × (e.1 ≡ payload)) }
    {
        self.guarded.submit(caller, step, words, payload)
    }

    pub(crate) fn next(&mut self) -> Next<P>
        ensures sound { Sound self.new }
        ensures told { NextTells P.fits (Grown self.old self.new) (Unchanged self.old self.new 0)
            (of_caller 0 self.old.entries) (of_caller 0 self.new.entries) result }
    {
        self.guarded.next()
    }

    pub(crate) fn finish(&mut self, request: u32, outcome: Outcome, given: R)
        requires { Unfinished (of_caller 0 self.old.entries) request }
        ensures sound { Sound self.new }
        ensures told { Grown self.old self.new (entry 0 (Finish request outcome) Done) }
    {
        self.guarded.finish(request, outcome, given)
    }

    pub(crate) fn cancel(&mut self, caller: u32, ticket: Ticket) -> Cancelled<P>
        requires { Outstanding (of_caller caller self.old.entries) (request ticket) }
        ensures sound { Sound self.new }
        ensures told { CancelTells P.fits (Grown self.old self.new)
            (Unchanged self.old self.new caller)
            (λ t. Outstanding (of_caller caller self.new.entries) (request t))
            (board self.new) caller ticket result }
    {
        self.guarded.cancel(caller, ticket)
    }

    pub(crate) fn collect(&mut self, caller: u32, ticket: Ticket) -> Collected<P, R>
        requires { Outstanding (of_caller caller self.old.entries) (request ticket) }
        ensures sound { Sound self.new }
        ensures told { CollectTells P.fits (Grown self.old self.new)
            (Unchanged self.old self.new caller)
            (λ t. Outstanding (of_caller caller self.new.entries) (request t))
            (board self.new) self.new.entries caller ticket result }
    {
        self.guarded.collect(caller, ticket)
    }

    // True where the executor was open.
    pub(crate) fn close(&mut self) -> bool
        requires { AllFinished (of_caller 0 self.old.entries) }
        ensures sound { Sound self.new }
        ensures closed { (board self.new).closed ≡ true }
        ensures opened { OnTrue result (Grown self.old self.new (entry 0 Close Done)) }
        ensures again { OnFalse result (Unchanged self.old self.new 0 Close Done) }
    {
        self.guarded.close()
    }
}
