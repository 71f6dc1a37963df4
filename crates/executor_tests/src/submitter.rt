//! A caller that submits, and ends by itself once its request has ended.
ghost use Rattle.std.specs.Prelude.{◌≡◌, [], ◌∷◌};
ghost use Rattle.count_lock.specs.Passes.{IsSamePass};
ghost use Rattle.executor_tests.specs.Callers.{IsIdle, HasOne};

use crate::item::Item;
use crate::tally::{Tally, count};
use kj_base::{StepId, Words};
use std::sync::Wait;
use std::thread;
use xthread::{Cancelled, Collected, Executor, ExecutorPass, Ticket};

/// The list of one word.
pub fn one_word(word: u64) -> Words
    ensures { result ≡ word ∷ [] }
{
    let mut words = Words::new();
    words.push(word);
    words
}

/// Submits one request, asks for its end at once where it is told to, and waits for its outcome.
pub fn ask<W: Wait>(
    rt: &W,
    executor: &Executor<Item, u64>,
    pass: &mut ExecutorPass<Item, u64>,
    word: u64,
    cancel: bool,
    tally: &mut Tally,
)
    requires { IsIdle executor.now.lock pass.old }
    ensures same { IsSamePass pass.old pass.new }
    ensures idle { IsIdle executor.now.lock pass.new }
{
    let item = Item {
        step: 7,
        word,
        mark: word,
    };
    match executor.submit(rt, pass, StepId(7), one_word(word), item) {
        Ok(ticket) => {
            count(&mut tally.taken);
            if cancel {
                withdraw(rt, executor, pass, ticket, tally)
            } else {
                settle(rt, executor, pass, ticket, tally)
            }
        }
        Err(_) => count(&mut tally.refused),
    }
}

/// Asks for the end of the one request that is outstanding, and waits for its outcome where it was not withdrawn.
pub fn withdraw<W: Wait>(
    rt: &W,
    executor: &Executor<Item, u64>,
    pass: &mut ExecutorPass<Item, u64>,
    ticket: Ticket,
    tally: &mut Tally,
)
    requires { HasOne executor.now.lock pass.old ticket }
    ensures same { IsSamePass pass.old pass.new }
    ensures idle { IsIdle executor.now.lock pass.new }
{
    match executor.cancel(rt, pass, ticket) {
        Cancelled::Withdrawn(_) => count(&mut tally.withdrawn),
        Cancelled::Asked(ticket) => {
            count(&mut tally.asked);
            settle(rt, executor, pass, ticket, tally)
        }
        Cancelled::TooLate(ticket) => settle(rt, executor, pass, ticket, tally),
    }
}

/// Waits for the outcome of the one request that is outstanding.
pub fn settle<W: Wait>(
    rt: &W,
    executor: &Executor<Item, u64>,
    pass: &mut ExecutorPass<Item, u64>,
    ticket: Ticket,
    tally: &mut Tally,
)
    requires { HasOne executor.now.lock pass.old ticket }
    ensures same { IsSamePass pass.old pass.new }
    ensures idle { IsIdle executor.now.lock pass.new }
{
    let mut ticket = ticket;
    for _ in rt.forever() {
        match executor.collect(rt, pass, ticket) {
            Collected::Ended(_, _) => {
                count(&mut tally.ended);
                return;
            }
            Collected::NotYet(back) => ticket = back,
        }
        thread::yield_now();
    }
    unreachable!()
}
