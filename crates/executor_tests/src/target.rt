//! A target that runs one request at a time, and finishes it at once.
ghost use Rattle.std.specs.Prelude.{◌≡◌, true};
ghost use Rattle.count_lock.specs.Passes.{constant, seen, mine, number, IsSamePass};
ghost use Rattle.executor_core.specs.Histories.{Settled};
ghost use Rattle.xthread.specs.Told.{IsReady, board_seen};
ghost use Rattle.executor_tests.specs.Turns.{IsTurn};
ghost use Rattle.executor_tests.specs.Callers.{IsIdleTarget};

use crate::item::Item;
use kj_base::Outcome;
use std::sync::Wait;
use std::sync::atomic::{AtomicU32, Ordering};
use std::thread;
use xthread::{Executor, ExecutorPass, Next};

/// Starts a request and finishes it with the words that it came with. False where there was nothing to do.
pub fn serve_once<W: Wait>(
    rt: &W,
    executor: &Executor<Item, u64>,
    pass: &mut ExecutorPass<Item, u64>,
) -> bool
    requires { IsIdleTarget executor.now.lock pass.old }
    ensures same { IsSamePass pass.old pass.new }
    ensures idle { IsIdleTarget executor.now.lock pass.new }
    ensures turn { IsTurn (mine pass.old) (mine pass.new) result }
{
    match executor.next(rt, pass) {
        Next::Start(request, _, words, item) => {
            executor.finish(rt, pass, request, Outcome::Value(words), item.word);
            true
        }
        Next::Stop(_) => true,
        Next::Empty => false,
    }
}

/// Serves until as many callers are done as there are, and closes the executor.
pub fn serve<W: Wait>(
    rt: &W,
    executor: &Executor<Item, u64>,
    pass: &mut ExecutorPass<Item, u64>,
    done: &AtomicU32,
    callers: u32,
)
    requires { IsIdleTarget executor.now.lock pass.old }
    ensures same { IsSamePass pass.old pass.new }
    ensures ready { IsReady executor.now.lock pass.new }
    ensures closed { (board_seen pass.new).closed ≡ true }
    ensures settled { Settled (constant pass.new) (seen pass.new) }
{
    for _ in rt.forever() {
        let last = done.load(Ordering::SeqCst) >= callers;
        if !serve_once(rt, executor, pass) {
            if last {
                break;
            }
            thread::yield_now();
        }
    }
    executor.close(rt, pass);
}
