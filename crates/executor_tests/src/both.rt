//! A caller of two executors.
ghost use Rattle.executor_tests.specs.Callers.{IsIdle};

use crate::item::Item;
use crate::submitter::{one_word, withdraw};
use crate::tally::Tally;
use kj_base::StepId;
use std::sync::Wait;
use xthread::{Executor, ExecutorPass};

/// Submits a request to each of two executors, and withdraws each from its own.
pub fn ask_both<W: Wait>(
    rt: &W,
    left: &Executor<Item, u64>,
    right: &Executor<Item, u64>,
    one: &mut ExecutorPass<Item, u64>,
    two: &mut ExecutorPass<Item, u64>,
    tally: &mut Tally,
)
    requires { IsIdle left.now.lock one.old × IsIdle right.now.lock two.old }
    ensures { IsIdle left.now.lock one.new × IsIdle right.now.lock two.new }
{
    let item = Item {
        step: 7,
        word: 5,
        mark: 1,
    };
    let Ok(first) = left.submit(rt, one, StepId(7), one_word(5), item) else {
        return;
    };
    let Ok(second) = right.submit(rt, two, StepId(7), one_word(5), item) else {
        return withdraw(rt, left, one, first, tally);
    };
    withdraw(rt, left, one, first, tally);
    withdraw(rt, right, two, second, tally);
}
