//! A target that runs some requests until they are to end.
ghost use Rattle.std.specs.Prelude.{◌≡◌, true};
ghost use Rattle.count_lock.specs.Passes.{constant, seen, IsSamePass};
ghost use Rattle.executor_core.specs.Histories.{Settled};
ghost use Rattle.xthread.specs.Told.{IsReady, board_seen};
ghost use Rattle.executor_tests.specs.Callers.{IsIdleTarget, RunsOne};

use crate::item::Item;
use crate::tally::{Served, count};
use kj_base::Outcome;
use std::sync::Wait;
use std::sync::atomic::{AtomicU32, Ordering};
use std::thread;
use xthread::{Executor, ExecutorPass, Next};

/// Starts a request, and runs it until it is to end where its word is divisible by three: `running` counts these. False where there
/// was nothing to do.
pub fn serve_patiently<W: Wait>(
    rt: &W,
    executor: &Executor<Item, u64>,
    pass: &mut ExecutorPass<Item, u64>,
    running: &AtomicU32,
    served: &mut Served,
) -> bool
    requires { IsIdleTarget executor.now.lock pass.old }
    ensures same { IsSamePass pass.old pass.new }
    ensures idle { IsIdleTarget executor.now.lock pass.new }
{
    match executor.next(rt, pass) {
        Next::Start(request, _, words, item) => {
            count(&mut served.started);
            let patient = item.word % 3 == 0;
            run(rt, executor, pass, request, patient, running, served);
            executor.finish(rt, pass, request, Outcome::Value(words), item.word);
            count(&mut served.finished);
            true
        }
        Next::Stop(_) => {
            count(&mut served.stopped);
            true
        }
        Next::Empty => false,
    }
}

// Runs the request until it is to end where the target is patient.
fn run<W: Wait>(
    rt: &W,
    executor: &Executor<Item, u64>,
    pass: &mut ExecutorPass<Item, u64>,
    request: u32,
    patient: bool,
    running: &AtomicU32,
    served: &mut Served,
)
    requires { RunsOne executor.now.lock pass.old request }
    ensures same { IsSamePass pass.old pass.new }
    ensures runs { RunsOne executor.now.lock pass.new request }
{
    if patient {
        running.fetch_add(1, Ordering::SeqCst);
        run_until_told(rt, executor, pass, request, served)
    }
}

/// Runs the request until it is to end. What starts meanwhile is finished at once.
pub fn run_until_told<W: Wait>(
    rt: &W,
    executor: &Executor<Item, u64>,
    pass: &mut ExecutorPass<Item, u64>,
    request: u32,
    served: &mut Served,
)
    requires { RunsOne executor.now.lock pass.old request }
    ensures same { IsSamePass pass.old pass.new }
    ensures runs { RunsOne executor.now.lock pass.new request }
{
    for _ in rt.forever() {
        match executor.next(rt, pass) {
            Next::Start(other, _, words, item) => {
                executor.finish(rt, pass, other, Outcome::Value(words), item.word);
                count(&mut served.started);
                count(&mut served.finished);
            }
            Next::Stop(_) => {
                count(&mut served.stopped);
                return;
            }
            Next::Empty => thread::yield_now(),
        }
    }
    unreachable!()
}

/// Serves so until as many callers are done as there are, and closes the executor.
pub fn serve_all_patiently<W: Wait>(
    rt: &W,
    executor: &Executor<Item, u64>,
    pass: &mut ExecutorPass<Item, u64>,
    done: &AtomicU32,
    callers: u32,
    running: &AtomicU32,
) -> Served
    requires { IsIdleTarget executor.now.lock pass.old }
    ensures same { IsSamePass pass.old pass.new }
    ensures ready { IsReady executor.now.lock pass.new }
    ensures closed { (board_seen pass.new).closed ≡ true }
    ensures settled { Settled (constant pass.new) (seen pass.new) }
{
    let mut served = Served::new();
    for _ in rt.forever() {
        let last = done.load(Ordering::SeqCst) >= callers;
        if !serve_patiently(rt, executor, pass, running, &mut served) {
            if last {
                break;
            }
            thread::yield_now();
        }
    }
    executor.close(rt, pass);
    served
}
