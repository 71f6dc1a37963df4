//! On two threads: before the finish a look finds no end, and after it one does.
ghost use Rattle.count_lock.specs.Passes.{IsSamePass};
ghost use Rattle.xthread.specs.Told.{IsReady};
ghost use Rattle.executor_tests.specs.Callers.{IsIdle, IsIdleTarget};

use crate::item::Item;
use crate::stopper::wait_for;
use crate::submitter::one_word;
use crate::tally::{Tally, count};
use crate::target::serve_once;
use crate::watcher::{look, settle_by_sight};
use kj_base::StepId;
use std::sync::Wait;
use std::sync::atomic::{AtomicU32, Ordering};
use std::test::Fail;
use std::thread::{Threads, join};
use xthread::{Executor, ExecutorPass};

const ROUNDS: u32 = 50;

type TestPass = ExecutorPass<Item, u64>;

// How often a look found an end before the finish, and how often after it.
#[derive(Clone, Copy, Debug, PartialEq, Eq)]
struct Looks {
    early: u32,
    late: u32,
}

// Submits one request and looks for its end, lets the other thread finish it, and looks again.
fn look_twice<W: Wait>(
    rt: &W,
    executor: &Executor<Item, u64>,
    pass: &mut TestPass,
    looked: &AtomicU32,
    finished: &AtomicU32,
    tally: &mut Tally,
    looks: &mut Looks,
)
    requires { IsIdle executor.now.lock pass.old }
    ensures same { IsSamePass pass.old pass.new }
    ensures idle { IsIdle executor.now.lock pass.new }
{
    let item = Item {
        step: 7,
        word: 1,
        mark: 1,
    };
    match executor.submit(rt, pass, StepId(7), one_word(1), item) {
        Ok(ticket) => {
            count(&mut tally.taken);
            if look(executor, pass, &ticket) {
                count(&mut looks.early);
            }
            let round = looked.fetch_add(1, Ordering::SeqCst);
            wait_for(rt, finished, round.saturating_add(1));
            if look(executor, pass, &ticket) {
                count(&mut looks.late);
            }
            settle_by_sight(rt, executor, pass, ticket, tally)
        }
        Err(_) => count(&mut tally.refused),
    }
}

fn look_at_all<W: Wait>(
    rt: &W,
    executor: &Executor<Item, u64>,
    mut pass: TestPass,
    looked: &AtomicU32,
    finished: &AtomicU32,
) -> (TestPass, Tally, Looks)
    requires { IsIdle executor.now.lock pass }
    ensures { IsIdle executor.now.lock result.0 }
{
    let mut tally = Tally::new();
    let mut looks = Looks { early: 0, late: 0 };
    for _ in 0..ROUNDS {
        look_twice(
            rt, executor, &mut pass, looked, finished, &mut tally, &mut looks,
        );
    }
    (pass, tally, looks)
}

// Finishes one request each time that the submitter has looked.
fn finish_when_looked<W: Wait>(
    rt: &W,
    executor: &Executor<Item, u64>,
    mut pass: TestPass,
    looked: &AtomicU32,
    finished: &AtomicU32,
) -> TestPass
    requires { IsIdleTarget executor.now.lock pass }
    ensures { IsReady executor.now.lock result }
{
    for round in 0..ROUNDS {
        wait_for(rt, looked, round.saturating_add(1));
        serve_once(rt, executor, &mut pass);
        finished.fetch_add(1, Ordering::SeqCst);
    }
    pass
}

fn run_both<W: Wait + Threads + Sync>(
    rt: &W,
    executor: &Executor<Item, u64>,
    target: TestPass,
    pass: TestPass,
    looked: &AtomicU32,
    finished: &AtomicU32,
) -> (TestPass, (TestPass, Tally, Looks))
    requires { IsIdleTarget executor.now.lock target × IsIdle executor.now.lock pass }
    ensures { IsReady executor.now.lock result.0 × IsIdle executor.now.lock result.1.0 }
{
    join(
        rt,
        move || -> TestPass
            requires { IsIdleTarget executor.now.lock target }
            ensures { IsReady executor.entry.now.lock result }
        { finish_when_looked(rt, executor, target, looked, finished) },
        move || -> (TestPass, Tally, Looks)
            requires { IsIdle executor.now.lock pass }
            ensures { IsIdle executor.entry.now.lock result.0 }
        { look_at_all(rt, executor, pass, looked, finished) },
    )
}

#[test]
fn an_end_is_seen_only_after_its_finish(rt: HostRuntime) -> Result<(), Fail> {
    let (executor, mut target) = Executor::<Item, u64>::new(rt.alloc(), ROUNDS)?;
    let Ok(pass) = executor.split(&mut target) else {
        return Err(Fail::new("no number is spare"));
    };
    let looked = AtomicU32::new(0);
    let finished = AtomicU32::new(0);
    let (mut target, (pass, tally, looks)) = run_both(
        &rt, &executor, target, pass, &looked, &finished,
    );
    executor.join(&mut target, pass);
    let entries = executor.history(&rt, target);
    assert!(rt;
        looks
            == (Looks {
                early: 0,
                late: ROUNDS
            })
    );
    assert!(rt; tally.taken == ROUNDS && tally.ended == ROUNDS);
    assert!(rt; entries.len() == 4 * ROUNDS as usize);
    Ok(())
}
