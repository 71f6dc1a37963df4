//! A caller that looks for the end of its request without the lock.
ghost use Rattle.std.specs.Bool.{OnTrue};
ghost use Rattle.count_lock.specs.Passes.{IsSamePass};
ghost use Rattle.xthread.specs.Told.{EndKnown};
ghost use Rattle.executor_tests.specs.Callers.{IsIdle, HasOne};

use crate::item::Item;
use crate::submitter::one_word;
use crate::tally::{Tally, count};
use kj_base::StepId;
use std::sync::Wait;
use std::thread;
use xthread::{Collected, Executor, ExecutorPass, Ticket};

/// One look whether the one request that is outstanding has ended. It takes no turn.
pub fn look(
    executor: &Executor<Item, u64>,
    pass: &mut ExecutorPass<Item, u64>,
    ticket: &Ticket,
) -> bool
    requires { HasOne executor.now.lock pass.old ticket.now }
    ensures same { IsSamePass pass.old pass.new }
    ensures one { HasOne executor.now.lock pass.new ticket.now }
    ensures known { OnTrue result (EndKnown pass.new ticket.now.request) }
{
    executor.ended(pass, ticket)
}

/// Looks until the one request that is outstanding has ended.
pub fn watch<W: Wait>(
    rt: &W,
    executor: &Executor<Item, u64>,
    pass: &mut ExecutorPass<Item, u64>,
    ticket: &Ticket,
)
    requires { HasOne executor.now.lock pass.old ticket.now }
    ensures same { IsSamePass pass.old pass.new }
    ensures one { HasOne executor.now.lock pass.new ticket.now }
    ensures known { EndKnown pass.new ticket.now.request }
{
    for _ in rt.forever() {
        if look(executor, pass, ticket) {
            return;
        }
        thread::yield_now();
    }
    unreachable!()
}

/// Looks for the end of the one request that is outstanding, and takes its outcome then, which is there.
pub fn settle_by_sight<W: Wait>(
    rt: &W,
    executor: &Executor<Item, u64>,
    pass: &mut ExecutorPass<Item, u64>,
    ticket: Ticket,
    tally: &mut Tally,
)
    requires { HasOne executor.now.lock pass.old ticket }
    ensures same { IsSamePass pass.old pass.new }
    ensures idle { IsIdle executor.now.lock pass.new }
{
    watch(rt, executor, pass, &ticket);
    match executor.collect(rt, pass, ticket) {
        Collected::Ended(_, _) => count(&mut tally.ended),
        Collected::NotYet(_ticket) => unreachable!(),
    }
}

/// Submits one request, and looks for its end without the lock.
pub fn ask_and_watch<W: Wait>(
    rt: &W,
    executor: &Executor<Item, u64>,
    pass: &mut ExecutorPass<Item, u64>,
    word: u64,
    tally: &mut Tally,
)
    requires { IsIdle executor.now.lock pass.old }
    ensures same { IsSamePass pass.old pass.new }
    ensures idle { IsIdle executor.now.lock pass.new }
{
    let item = Item {
        step: 7,
        word,
        mark: word,
    };
    match executor.submit(rt, pass, StepId(7), one_word(word), item) {
        Ok(ticket) => {
            count(&mut tally.taken);
            settle_by_sight(rt, executor, pass, ticket, tally)
        }
        Err(_) => count(&mut tally.refused),
    }
}
