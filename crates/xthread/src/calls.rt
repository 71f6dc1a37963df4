//! The calls of a submitter.
ghost use Rattle.std.specs.Prelude.{◌≡◌, IfOk, IfErr};
ghost use Rattle.std.specs.Bool.{OnTrue, OnFalse};
ghost use Rattle.count_lock.specs.Passes.{seen, mine, number};
ghost use Rattle.executor_core.specs.declared.call.Call.TheVariants.{Submit};
ghost use Rattle.executor_core.specs.Acts.{refusal_reply};
ghost use Rattle.executor_core.specs.Histories.{entry, times, is_submit};
ghost use Rattle.xthread.specs.Answers.{request, CancelTells, CollectTells, GivesOutcome};
ghost use Rattle.xthread.specs.Told.{IsReady, Holds, Told, Gains, Stays, board_seen, Unchanged, EndKnown, EndUnseen};

use crate::answers::{Cancelled, Collected};
use crate::executor::{Executor, ExecutorPass};
use crate::ticket::Ticket;
use executor_core::{Call, Entry, NotTaken, Reply};
use kj_base::{Sent, StepId, Words};
use std::sync::Wait;

impl<P: Sent + Drop, R: Send + Drop> Executor<P, R> {
    /// Submits a request, whose payload has to fit its step and words.
    pub fn submit<W: Wait>(
        &self,
        rt: &W,
        pass: &mut ExecutorPass<P, R>,
        step: StepId,
        words: Words,
        payload: P,
    ) -> Result<Ticket, (NotTaken, P)>
        requires pass { IsReady self.now.lock pass.old }
        requires fits { P.fits payload step.0 words }
        ensures told { Told self.now.lock pass.old pass.new }
        ensures gains { IfOk result
            (λ t. Gains pass.old pass.new
            (entry (number pass.old) (Submit step words) (Reply.Ticket (request t)))) }
        ensures holds { IfOk result (λ t. Holds pass.new t) }
        ensures fresh { IfOk result (λ t. times (is_submit (request t)) (mine pass.old) ≡ 0) }
        ensures err { IfErr result
            (λ e. Stays pass.old pass.new (Submit step words) (refusal_reply e.0)
            × (e.1 ≡ payload)) }
    {
        let caller = pass.number();
        let owner = pass.owner();
        let said = words.copy();
        let mut held = self.take(rt, pass);
        match held.value_mut().submit(caller, step, words, payload) {
            Ok(request) => {
                let entry = Entry {
                    caller,
                    call: Call::Submit { step, words: said },
                    reply: Reply::Ticket(request),
                };
                self.note(held, pass, entry);
                Ok(Ticket { request, owner })
            }
            Err(refused) => {
                self.leave(held, pass);
                Err(refused)
            }
        }
    }

    /// Withdraws a request that hasn't started, or else asks for its end.
    pub fn cancel<W: Wait>(
        &self,
        rt: &W,
        pass: &mut ExecutorPass<P, R>,
        ticket: Ticket,
    ) -> Cancelled<P>
        requires pass { IsReady self.now.lock pass.old }
        requires holds { Holds pass.old ticket }
        ensures told { Told self.now.lock pass.old pass.new }
        ensures answer { CancelTells P.fits (Gains pass.old pass.new) (Stays pass.old pass.new)
            (Holds pass.new) (board_seen pass.new) (number pass.old) ticket result }
    {
        let caller = pass.number();
        let request = ticket.request;
        let call = Call::Cancel { request };
        let mut held = self.take(rt, pass);
        match held.value_mut().cancel(caller, ticket) {
            Cancelled::Withdrawn(payload) => {
                let reply = Reply::Withdrawn;
                let entry = Entry {
                    caller,
                    call,
                    reply,
                };
                self.note_end(held, pass, entry, request);
                Cancelled::Withdrawn(payload)
            }
            Cancelled::Asked(ticket) => {
                let reply = Reply::Asked;
                self.note(
                    held,
                    pass,
                    Entry {
                        caller,
                        call,
                        reply,
                    },
                );
                Cancelled::Asked(ticket)
            }
            Cancelled::TooLate(ticket) => {
                self.leave(held, pass);
                Cancelled::TooLate(ticket)
            }
        }
    }

    /// True where the request's end is in the history by now. It takes no turn and waits for nobody: a collection gives the
    /// outcome then.
    pub fn ended(&self, pass: &mut ExecutorPass<P, R>, ticket: &Ticket) -> bool
        requires pass { IsReady self.now.lock pass.old }
        requires holds { Holds pass.old ticket.now }
        ensures pass { Unchanged self.now.lock pass.old pass.new × Holds pass.new ticket.now }
        ensures over { OnTrue result (EndKnown pass.new (request ticket.now)) }
        ensures not_yet { OnFalse result (EndUnseen pass.old pass.new (request ticket.now)) }
    {
        self.lock.ended(pass, ticket.request).is_some()
    }

    /// Takes the outcome of a request that has ended, and what it gives back: its payload where it never started, and a result
    /// where it did.
    pub fn collect<W: Wait>(
        &self,
        rt: &W,
        pass: &mut ExecutorPass<P, R>,
        ticket: Ticket,
    ) -> Collected<P, R>
        requires pass { IsReady self.now.lock pass.old }
        requires holds { Holds pass.old ticket }
        ensures told { Told self.now.lock pass.old pass.new }
        ensures answer { CollectTells P.fits (Gains pass.old pass.new) (Stays pass.old pass.new)
            (Holds pass.new) (board_seen pass.new) (seen pass.new) (number pass.old) ticket result }
        ensures known { EndKnown pass.old (request ticket) → GivesOutcome result }
    {
        let caller = pass.number();
        let call = Call::Collect {
            request: ticket.request,
        };
        let mut held = self.take(rt, pass);
        match held.value_mut().collect(caller, ticket) {
            Collected::Ended(outcome, back) => {
                let reply = Reply::Ended(outcome.copy());
                self.note(
                    held,
                    pass,
                    Entry {
                        caller,
                        call,
                        reply,
                    },
                );
                Collected::Ended(outcome, back)
            }
            Collected::NotYet(ticket) => {
                self.leave(held, pass);
                Collected::NotYet(ticket)
            }
        }
    }
}
