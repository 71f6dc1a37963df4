//! A board with its history, and what belongs to each request.
ghost use Rattle.std.specs.Prelude.{◌≡◌, ◌+◌, ◌<◌, ◌≤◌, ◌≢◌, ℕ, [], ◌∷◌, ◌++◌, length, true, false, List, cond, slice_get, IfOk, IfErr, IfSome, IfNone};
ghost use Rattle.std.specs.Bool.{OnTrue, OnFalse};
ghost use Rattle.executor_core.specs.declared.call.Call.TheVariants.{Submit, Next, Finish, Cancel, Collect, Close};
ghost use Rattle.executor_core.specs.declared.call.Reply.TheVariants.{Done};
ghost use Rattle.executor_core.specs.declared.call.Reply.TheVariants as reply;
ghost use Rattle.executor_core.specs.declared.entry.Entry.{Entry};
ghost use Rattle.executor_core.specs.Acts.{act, refusal_reply};
ghost use Rattle.executor_core.specs.Histories.{entry, board_of, of_caller, times, is_submit, waits, Outstanding, Unfinished, AllFinished, Legal};
ghost use Rattle.xthread.specs.Stock.{Book, book, Grown, Sound};
ghost use Rattle.xthread.specs.Answers.{request, board, Unchanged, NextTells, CancelTells, CollectTells};

use crate::answers::{Cancelled, Collected, Next};
use crate::executor::MAX_REQUESTS;
use crate::place::Place;
use crate::stock::{take_back, take_payload};
use crate::ticket::Ticket;
use executor_core::{Board, Cancelling, Chosen, Entries, Log, NotTaken};
use kj_base::{NoMemory, Outcome, Sent, StepId, Words};
use std::alloc::Global;
use std::marker::Model;

// Contracts see the limit and the history.
#[derive(Drop)]
pub(crate) struct Guarded<P: Sent, R: Send> {
    pub(crate) board: Board,
    log: Log,
    places: Vec<Place<P, R>>,
}

impl<P: Sent, R: Send> Model for Guarded<P, R> {
    ghost use Rattle.std.specs.Prelude.{vec_capacity};
    ghost use Rattle.xthread.specs.Stock.{Book, book, Whole};

    ghost Value = { Book };

    ghost view = { λ g. book g.board.limit g.log.entries };

    ghost invariant = { λ g. Whole P.fits g.board g.log.entries g.log.room g.places.items
        (vec_capacity g.places) };
}

impl<P: Sent + Drop, R: Send + Drop> Guarded<P, R> {
    // Nothing was submitted. Makes the room for all that may follow: six entries for each request and one more.
    pub(crate) fn new(alloc: Global, requests: u32) -> Result<Guarded<P, R>, NoMemory>
        requires { (1 ≤ requests) × (requests ≤ MAX_REQUESTS) }
        ensures { IfOk result (λ g. g ≡ book requests []) }
    {
        let entries = 6 * requests + 1;
        Ok(Guarded {
            board: Board::new(alloc, requests)?,
            log: Log::new(alloc, entries)?,
            places: Vec::with_capacity(alloc, requests as usize)?,
        })
    }

    pub(crate) fn into_entries(self) -> Entries
        ensures entries { result ≡ self.entries }
        ensures legal { Legal self.limit result }
    {
        Entries::from_log(self.log)
    }

    // How many requests were submitted.
    pub(crate) fn submitted(&self) -> u32
        ensures { result ≡ length (board self.now).requests }
    {
        self.places.len() as u32
    }

    // The place of the last entry.
    pub(crate) fn last_place(&self) -> u64
        requires { 1 ≤ length self.now.entries }
        ensures { result + 1 ≡ length self.now.entries }
    {
        self.log.len() as u64 - 1
    }

    // After a closing: the request waited for its start until then.
    pub(crate) fn is_unstarted(&self, request: u32) -> bool
        requires { request < length (board self.now).requests }
        ensures { (before : List Entry) → self.now.entries ≡ before ++ entry 0 Close Done ∷ []
            → waits (slice_get (board_of self.now.limit before).requests request)
            ≡ cond result 1 0 }
    {
        self.places[request as usize].is_waiting()
    }

    pub(crate) fn submit(
        &mut self,
        caller: u32,
        step: StepId,
        words: Words,
        payload: P,
    ) -> Result<u32, (NotTaken, P)>
        requires { P.fits payload step.0 words }
        ensures sound { Sound self.new }
        ensures grown { IfOk result
            (λ r. Grown self.old self.new (entry caller (Submit step words) (reply.Ticket r))) }
        ensures own { IfOk result (λ r. Outstanding (of_caller caller self.new.entries) r) }
        ensures fresh { IfOk result (λ r. times (is_submit r) (of_caller caller self.old.entries)
            ≡ 0) }
        ensures err { IfErr result
            (λ e. Unchanged self.old self.new caller (Submit step words) (refusal_reply e.0)
            × (e.1 ≡ payload)) }
    {
        match self.board.submit(caller, step, words.copy()) {
            Ok(request) => {
                self.log.submit(caller, request, step, &words);
                self.places.push_reserved(Place::Waiting(payload));
                Ok(request)
            }
            Err(refused) => Err((refused, payload)),
        }
    }

    pub(crate) fn next(&mut self) -> Next<P>
        ensures sound { Sound self.new }
        ensures told { NextTells P.fits (Grown self.old self.new) (Unchanged self.old self.new 0)
            (of_caller 0 self.old.entries) (of_caller 0 self.new.entries) result }
    {
        match self.board.next() {
            Chosen::Start {
                request,
                step,
                words,
            } => {
                let payload = take_payload(&mut self.places, request);
                self.log.start(request, step, &words);
                Next::Start(request, step, words, payload)
            }
            Chosen::Stop(request) => {
                self.log.stop(request);
                Next::Stop(request)
            }
            Chosen::Empty => Next::Empty,
        }
    }

    pub(crate) fn finish(&mut self, request: u32, outcome: Outcome, given: R)
        requires { Unfinished (of_caller 0 self.old.entries) request }
        ensures sound { Sound self.new }
        ensures told { Grown self.old self.new (entry 0 (Finish request outcome) Done) }
    {
        self.log.finish(request, &outcome);
        self.places[request as usize] = Place::Finished(given);
        self.board.finish(request, outcome);
    }

    pub(crate) fn cancel(&mut self, caller: u32, ticket: Ticket) -> Cancelled<P>
        requires { Outstanding (of_caller caller self.old.entries) (request ticket) }
        ensures sound { Sound self.new }
        ensures told { CancelTells P.fits (Grown self.old self.new)
            (Unchanged self.old self.new caller)
            (λ t. Outstanding (of_caller caller self.new.entries) (request t))
            (board self.new) caller ticket result }
    {
        let Ticket { request, owner } = ticket;
        match self.board.cancel(request) {
            Cancelling::Withdrawn => {
                let payload = take_payload(&mut self.places, request);
                self.log.withdraw(caller, request);
                Cancelled::Withdrawn(payload)
            }
            Cancelling::Asked => {
                self.log.ask(caller, request);
                Cancelled::Asked(Ticket { request, owner })
            }
            Cancelling::TooLate => Cancelled::TooLate(Ticket { request, owner }),
        }
    }

    pub(crate) fn collect(&mut self, caller: u32, ticket: Ticket) -> Collected<P, R>
        requires { Outstanding (of_caller caller self.old.entries) (request ticket) }
        ensures sound { Sound self.new }
        ensures told { CollectTells P.fits (Grown self.old self.new)
            (Unchanged self.old self.new caller)
            (λ t. Outstanding (of_caller caller self.new.entries) (request t))
            (board self.new) self.new.entries caller ticket result }
    {
        let Ticket { request, owner } = ticket;
        match self.board.collect(request) {
            Some(outcome) => {
                let back = take_back(&mut self.places, request);
                self.log.collect(caller, request, &outcome);
                Collected::Ended(outcome, back)
            }
            None => Collected::NotYet(Ticket { request, owner }),
        }
    }

    // True where the executor was open.
    pub(crate) fn close(&mut self) -> bool
        requires { AllFinished (of_caller 0 self.old.entries) }
        ensures sound { Sound self.new }
        ensures closed { (board self.new).closed ≡ true }
        ensures opened { OnTrue result (Grown self.old self.new (entry 0 Close Done)) }
        ensures again { OnFalse result (Unchanged self.old self.new 0 Close Done) }
    {
        if !self.board.close() {
            return false;
        }
        self.log.close();
        true
    }
}
