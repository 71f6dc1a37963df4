//! The parts of a turn.
ghost use Rattle.std.specs.Prelude.{◌≡◌, ℕ, ◌+◌, ◌^◌, ◌<◌, ◌==◌, cond, [], ◌∷◌, ◌++◌, length};
ghost use Rattle.count_lock.specs.Passes.{constant, words_of, seen, number, IsPassOf, HasTurn};
ghost use Rattle.executor_core.specs.declared.call.Call.TheVariants.{Close};
ghost use Rattle.executor_core.specs.declared.call.Reply.TheVariants.{Done};
ghost use Rattle.executor_core.specs.Acts.{Desk};
ghost use Rattle.executor_core.specs.Histories.{entry, ends_by, Legal};
ghost use Rattle.xthread.specs.Told.{IsReady};
ghost use Rattle.xthread.specs.Turns.{Taken, Noted, Left};

use crate::boxed::Boxed;
use crate::executor::{Executor, ExecutorPass};
use count_lock::Held;
use executor_core::{Call, Entry, Reply};
use kj_base::Sent;
use std::sync::Wait;

impl<P: Sent + Drop, R: Send + Drop> Executor<P, R> {
    // Waits for its turn.
    pub(crate) fn take<W: Wait>(&self, rt: &W, pass: &mut ExecutorPass<P, R>) -> Held<Boxed<P, R>>
        requires { IsReady self.now.lock pass.old }
        ensures { Taken self.now.lock pass.old pass.new result.value }
    {
        self.lock.acquire(rt, pass)
    }

    // Ends the turn with an entry more, which ends no request.
    pub(crate) fn note(&self, held: Held<Boxed<P, R>>, pass: &mut ExecutorPass<P, R>, entry: Entry)
        requires lock { IsPassOf self.now.lock pass.old × HasTurn pass.old }
        requires value { (held.value.entries ≡ seen pass.old ++ entry ∷ [])
            × (held.value.limit ≡ constant pass.old) }
        requires entry { (entry.caller ≡ number pass.old) × (length (seen pass.old) + 1 < 2 ^ 64) }
        requires plain { (d : Desk) (n : ℕ) → ends_by d n entry.call entry.reply ≡ 0 }
        ensures { Noted pass.old pass.new entry }
    {
        held.release(&self.lock, pass, entry)
    }

    // Ends the turn with an entry more, which ends this request alone.
    pub(crate) fn note_end(
        &self,
        held: Held<Boxed<P, R>>,
        pass: &mut ExecutorPass<P, R>,
        entry: Entry,
        request: u32,
    )
        requires lock { IsPassOf self.now.lock pass.old × HasTurn pass.old
            × (words_of self.now.lock ≡ constant pass.old) }
        requires value { (held.value.entries ≡ seen pass.old ++ entry ∷ [])
            × (held.value.limit ≡ constant pass.old) }
        requires entry { (entry.caller ≡ number pass.old) × (length (seen pass.old) + 1 < 2 ^ 64) }
        requires legal { Legal (constant pass.old) (seen pass.old ++ entry ∷ []) }
        requires ends { (d : Desk) (n : ℕ)
            → ends_by d n entry.call entry.reply ≡ cond (request == n) 1 0 }
        ensures { Noted pass.old pass.new entry }
    {
        let noted = held.note(&self.lock, pass, entry);
        let place = noted.value().last_place();
        noted.mark(&self.lock, pass, request, place);
        noted.release(&self.lock, pass)
    }

    // Ends the turn with the closing, which ends each request that waits for its start.
    pub(crate) fn note_close(&self, held: Held<Boxed<P, R>>, pass: &mut ExecutorPass<P, R>)
        requires lock { IsPassOf self.now.lock pass.old × HasTurn pass.old
            × (words_of self.now.lock ≡ constant pass.old) }
        requires value { (held.value.entries ≡ seen pass.old ++ entry 0 Close Done ∷ [])
            × (held.value.limit ≡ constant pass.old) }
        requires target { (number pass.old ≡ 0) × (length (seen pass.old) + 1 < 2 ^ 64) }
        requires legal { Legal (constant pass.old) (seen pass.old ++ entry 0 Close Done ∷ []) }
        ensures { Noted pass.old pass.new (entry 0 Close Done) }
    {
        let entry = Entry {
            caller: 0,
            call: Call::Close,
            reply: Reply::Done,
        };
        let noted = held.note(&self.lock, pass, entry);
        let place = noted.value().last_place();
        for number in 0..noted.value().submitted() {
            if noted.value().is_unstarted(number) {
                noted.mark(&self.lock, pass, number, place);
            }
        }
        noted.release(&self.lock, pass)
    }

    // Ends the turn with nothing changed.
    pub(crate) fn leave(&self, held: Held<Boxed<P, R>>, pass: &mut ExecutorPass<P, R>)
        requires lock { IsPassOf self.now.lock pass.old × HasTurn pass.old }
        requires value { (held.value.entries ≡ seen pass.old)
            × (held.value.limit ≡ constant pass.old) }
        ensures { Left pass.old pass.new }
    {
        held.release_unchanged(&self.lock, pass)
    }
}
