//! A submitter that asks for the end of what runs.
ghost use Rattle.count_lock.specs.Passes.{IsSamePass};
ghost use Rattle.executor_tests.specs.Callers.{IsIdle};

use crate::item::Item;
use crate::submitter::{one_word, withdraw};
use crate::tally::{Tally, count};
use kj_base::StepId;
use std::sync::Wait;
use std::sync::atomic::{AtomicU32, Ordering};
use std::thread;
use xthread::{Executor, ExecutorPass};

/// Submits one request that runs until it is to end, and asks for its end once as many run or ran.
pub fn ask_what_runs<W: Wait>(
    rt: &W,
    executor: &Executor<Item, u64>,
    pass: &mut ExecutorPass<Item, u64>,
    running: &AtomicU32,
    many: u32,
    tally: &mut Tally,
)
    requires { IsIdle executor.now.lock pass.old }
    ensures same { IsSamePass pass.old pass.new }
    ensures idle { IsIdle executor.now.lock pass.new }
{
    let item = Item {
        step: 7,
        word: 0,
        mark: 0,
    };
    match executor.submit(rt, pass, StepId(7), one_word(0), item) {
        Ok(ticket) => {
            count(&mut tally.taken);
            wait_for(rt, running, many);
            withdraw(rt, executor, pass, ticket, tally)
        }
        Err(_) => count(&mut tally.refused),
    }
}

// Waits until the number is so large.
pub(crate) fn wait_for<W: Wait>(rt: &W, running: &AtomicU32, many: u32) {
    for _ in rt.forever() {
        if running.load(Ordering::SeqCst) >= many {
            return;
        }
        thread::yield_now();
    }
}
