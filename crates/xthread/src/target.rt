//! The calls of the target, whose pass has number 0.
ghost use Rattle.std.specs.Prelude.{◌≡◌, ◌⊎◌, true};
ghost use Rattle.count_lock.specs.Passes.{constant, seen, mine, number};
ghost use Rattle.executor_core.specs.declared.call.Call.TheVariants.{Finish, Close};
ghost use Rattle.executor_core.specs.declared.call.Reply.TheVariants.{Done};
ghost use Rattle.executor_core.specs.Histories.{entry, Unfinished, AllFinished, Settled};
ghost use Rattle.xthread.specs.Answers.{NextTells};
ghost use Rattle.xthread.specs.Told.{IsReady, Told, Gains, Stays, board_seen};

use crate::answers::Next;
use crate::executor::{Executor, ExecutorPass};
use executor_core::{Call, Entry, Reply};
use kj_base::{Outcome, Sent};
use std::sync::Wait;

impl<P: Sent + Drop, R: Send + Drop> Executor<P, R> {
    /// The least queued request, which then runs; or else the least request that is to end and wasn't told yet.
    pub fn next<W: Wait>(&self, rt: &W, pass: &mut ExecutorPass<P, R>) -> Next<P>
        requires pass { IsReady self.now.lock pass.old }
        requires target { number pass.old ≡ 0 }
        ensures told { Told self.now.lock pass.old pass.new }
        ensures answer { NextTells P.fits (Gains pass.old pass.new) (Stays pass.old pass.new)
            (mine pass.old) (mine pass.new) result }
    {
        let mut held = self.take(rt, pass);
        match held.value_mut().next() {
            Next::Start(request, step, words, payload) => {
                let entry = Entry {
                    caller: 0,
                    call: Call::Next,
                    reply: Reply::Start {
                        request,
                        step,
                        words: words.copy(),
                    },
                };
                self.note(held, pass, entry);
                Next::Start(request, step, words, payload)
            }
            Next::Stop(request) => {
                let entry = Entry {
                    caller: 0,
                    call: Call::Next,
                    reply: Reply::Stop(request),
                };
                self.note(held, pass, entry);
                Next::Stop(request)
            }
            Next::Empty => {
                self.leave(held, pass);
                Next::Empty
            }
        }
    }

    /// Ends a request that the target has started.
    pub fn finish<W: Wait>(
        &self,
        rt: &W,
        pass: &mut ExecutorPass<P, R>,
        request: u32,
        outcome: Outcome,
        given: R,
    )
        requires pass { IsReady self.now.lock pass.old }
        requires target { number pass.old ≡ 0 }
        requires started { Unfinished (mine pass.old) request }
        ensures told { Told self.now.lock pass.old pass.new }
        ensures gains { Gains pass.old pass.new (entry 0 (Finish request outcome) Done) }
    {
        let call = Call::Finish {
            request,
            outcome: outcome.copy(),
        };
        let mut held = self.take(rt, pass);
        held.value_mut().finish(request, outcome, given);
        let entry = Entry {
            caller: 0,
            call,
            reply: Reply::Done,
        };
        self.note_end(held, pass, entry, request);
    }

    /// Takes no further submissions. What is queued ends as disconnected, and gives its payload back.
    pub fn close<W: Wait>(&self, rt: &W, pass: &mut ExecutorPass<P, R>)
        requires pass { IsReady self.now.lock pass.old }
        requires target { number pass.old ≡ 0 }
        requires finished { AllFinished (mine pass.old) }
        ensures told { Told self.now.lock pass.old pass.new }
        ensures answer { Gains pass.old pass.new (entry 0 Close Done)
            ⊎ Stays pass.old pass.new Close Done }
        ensures closed { (board_seen pass.new).closed ≡ true }
        ensures settled { Settled (constant pass.new) (seen pass.new) }
    {
        let mut held = self.take(rt, pass);
        if held.value_mut().close() {
            self.note_close(held, pass);
        } else {
            self.leave(held, pass);
        }
    }
}
