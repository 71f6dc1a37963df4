//! Two threads submit to a third.
ghost use Rattle.std.specs.Prelude.{◌≡◌};
ghost use Rattle.std.specs.Thread.{IsSync};
ghost use Rattle.count_lock.specs.Passes.{number, IsSamePass};
ghost use Rattle.xthread.specs.Told.{IsReady};
ghost use Rattle.executor_tests.specs.Callers.{IsIdle, IsIdleTarget};

use crate::item::Item;
use crate::patient::serve_all_patiently;
use crate::stopper::ask_what_runs;
use crate::submitter::ask;
use crate::tally::{Served, Tally, count};
use crate::target::serve;
use crate::watcher::ask_and_watch;
use executor_core::{Call, Entry, Reply};
use std::sync::Wait;
use std::sync::atomic::{AtomicU32, Ordering};
use std::test::Fail;
use std::thread::{Threads, join};
use xthread::{Executor, ExecutorPass};

const EACH: u32 = 500;

type TestPass = ExecutorPass<Item, u64>;

// Every third request is asked to end as soon as it is submitted.
fn submit_all<W: Wait>(
    rt: &W,
    executor: &Executor<Item, u64>,
    mut pass: TestPass,
    done: &AtomicU32,
) -> (TestPass, Tally)
    requires { IsIdle executor.now.lock pass }
    ensures { IsIdle executor.now.lock result.0 }
{
    let mut tally = Tally::new();
    for i in 0..EACH {
        ask(rt, executor, &mut pass, i as u64, i % 3 == 0, &mut tally);
    }
    done.fetch_add(1, Ordering::SeqCst);
    (pass, tally)
}

fn serve_all<W: Wait>(
    rt: &W,
    executor: &Executor<Item, u64>,
    mut pass: TestPass,
    done: &AtomicU32,
) -> (TestPass, Served)
    requires { IsIdleTarget executor.now.lock pass }
    ensures { IsReady executor.now.lock result.0 }
{
    let running = AtomicU32::new(0);
    let served = serve_all_patiently(rt, executor, &mut pass, done, 2, &running);
    (pass, served)
}

fn submit_in_two<W: Wait + Threads + Sync>(
    rt: &W,
    executor: &Executor<Item, u64>,
    one: TestPass,
    two: TestPass,
    done: &AtomicU32,
) -> ((TestPass, Tally), (TestPass, Tally))
    requires { IsIdle executor.now.lock one × IsIdle executor.now.lock two }
    ensures { IsIdle executor.now.lock result.0.0 × IsIdle executor.now.lock result.1.0 }
{
    join(
        rt,
        move || -> (TestPass, Tally)
            requires { IsIdle executor.now.lock one }
            ensures { IsIdle executor.entry.now.lock result.0 }
        { submit_all(rt, executor, one, done) },
        move || -> (TestPass, Tally)
            requires { IsIdle executor.now.lock two }
            ensures { IsIdle executor.entry.now.lock result.0 }
        { submit_all(rt, executor, two, done) },
    )
}

type Three = ((TestPass, Served), ((TestPass, Tally), (TestPass, Tally)));

fn run_three<W: Wait + Threads + Sync>(
    rt: &W,
    executor: &Executor<Item, u64>,
    target: TestPass,
    one: TestPass,
    two: TestPass,
    done: &AtomicU32,
) -> Three
    requires { IsIdleTarget executor.now.lock target × IsIdle executor.now.lock one
        × IsIdle executor.now.lock two }
    ensures target { IsReady executor.now.lock result.0.0 }
    ensures others { IsIdle executor.now.lock result.1.0.0 × IsIdle executor.now.lock result.1.1.0 }
{
    join(
        rt,
        move || -> (TestPass, Served)
            requires { IsIdleTarget executor.now.lock target }
            ensures { IsReady executor.entry.now.lock result.0 }
        { serve_all(rt, executor, target, done) },
        move || -> ((TestPass, Tally), (TestPass, Tally))
            requires { IsSync W.row × IsIdle executor.now.lock one × IsIdle executor.now.lock two }
            ensures { IsIdle executor.entry.now.lock result.0.0
                × IsIdle executor.entry.now.lock result.1.0 }
        { submit_in_two(rt, executor, one, two, done) },
    )
}

// What the history has of the submitter with that number.
fn tally_of(entries: &[Entry], caller: u32) -> Tally {
    let mut tally = Tally::new();
    for entry in entries {
        if entry.caller != caller {
            continue;
        }
        match (&entry.call, &entry.reply) {
            (Call::Submit { step: _, words: _ }, Reply::Ticket(_)) => count(&mut tally.taken),
            (Call::Cancel { request: _ }, Reply::Withdrawn) => count(&mut tally.withdrawn),
            (Call::Cancel { request: _ }, Reply::Asked) => count(&mut tally.asked),
            (Call::Collect { request: _ }, Reply::Ended(_)) => count(&mut tally.ended),
            _ => count(&mut tally.refused),
        }
    }
    tally
}

fn served_in(entries: &[Entry]) -> (Served, u32) {
    let mut served = Served::new();
    let mut others = 0u32;
    for entry in entries {
        if entry.caller != 0 {
            continue;
        }
        match (&entry.call, &entry.reply) {
            (
                Call::Next,
                Reply::Start {
                    request: _,
                    step: _,
                    words: _,
                },
            ) => count(&mut served.started),
            (Call::Next, Reply::Stop(_)) => count(&mut served.stopped),
            (
                Call::Finish {
                    request: _,
                    outcome: _,
                },
                Reply::Done,
            ) => count(&mut served.finished),
            _ => count(&mut others),
        }
    }
    (served, others)
}

// The history has every call of each of the three that changed something, once, and one closing. Each request that is to end by its
// word either was withdrawn, or was started and told to stop, or ended before it was asked.
#[test]
fn two_threads_submit_to_a_third(rt: HostRuntime) -> Result<(), Fail> {
    let (executor, mut target) = Executor::<Item, u64>::new(rt.alloc(), 2 * EACH)?;
    let Ok(one) = executor.split(&mut target) else {
        return Err(Fail::new("no number is spare"));
    };
    let Ok(two) = executor.split(&mut target) else {
        return Err(Fail::new("no number is spare"));
    };
    let done = AtomicU32::new(0);
    let ((mut target, served), ((one, first), (two, second))) = run_three(
        &rt, &executor, target, one, two, &done,
    );
    executor.join(&mut target, one);
    executor.join(&mut target, two);
    let entries = executor.history(&rt, target).to_vec(rt.alloc())?;
    assert!(rt; first.taken == EACH && second.taken == EACH);
    assert!(rt; first.refused == 0 && second.refused == 0);
    assert!(rt; tally_of(entries.as_slice(), 1) == first);
    assert!(rt; tally_of(entries.as_slice(), 2) == second);
    let (found, others) = served_in(entries.as_slice());
    assert!(rt; found == served && served.started == served.finished && others == 1);
    let spent = [
        first.withdrawn as u64 + first.ended as u64,
        second.withdrawn as u64 + second.ended as u64,
    ];
    assert!(rt; spent == [EACH as u64, EACH as u64]);
    Ok(())
}

const STOPPED: u32 = 20;

// The submitter asks for the end of each of its requests once the target runs it.
fn stop_each<W: Wait>(
    rt: &W,
    executor: &Executor<Item, u64>,
    mut pass: TestPass,
    done: &AtomicU32,
    running: &AtomicU32,
) -> (TestPass, Tally)
    requires { IsIdle executor.now.lock pass }
    ensures { IsIdle executor.now.lock result.0 }
{
    let mut tally = Tally::new();
    for i in 0..STOPPED {
        ask_what_runs(rt, executor, &mut pass, running, i + 1, &mut tally);
    }
    done.fetch_add(1, Ordering::SeqCst);
    (pass, tally)
}

fn serve_until_stopped<W: Wait>(
    rt: &W,
    executor: &Executor<Item, u64>,
    mut pass: TestPass,
    done: &AtomicU32,
    running: &AtomicU32,
) -> (TestPass, Served)
    requires { IsIdleTarget executor.now.lock pass }
    ensures { IsReady executor.now.lock result.0 }
{
    let served = serve_all_patiently(rt, executor, &mut pass, done, 1, running);
    (pass, served)
}

fn run_two<W: Wait + Threads + Sync>(
    rt: &W,
    executor: &Executor<Item, u64>,
    target: TestPass,
    pass: TestPass,
    done: &AtomicU32,
    running: &AtomicU32,
) -> ((TestPass, Served), (TestPass, Tally))
    requires { IsIdleTarget executor.now.lock target × IsIdle executor.now.lock pass }
    ensures { IsReady executor.now.lock result.0.0 × IsIdle executor.now.lock result.1.0 }
{
    join(
        rt,
        move || -> (TestPass, Served)
            requires { IsIdleTarget executor.now.lock target }
            ensures { IsReady executor.entry.now.lock result.0 }
        { serve_until_stopped(rt, executor, target, done, running) },
        move || -> (TestPass, Tally)
            requires { IsIdle executor.now.lock pass }
            ensures { IsIdle executor.entry.now.lock result.0 }
        { stop_each(rt, executor, pass, done, running) },
    )
}

// What is asked to end while it runs is stopped, and ends by its finish.
#[test]
fn what_runs_is_told_to_stop(rt: HostRuntime) -> Result<(), Fail> {
    let (executor, mut target) = Executor::<Item, u64>::new(rt.alloc(), STOPPED)?;
    let Ok(pass) = executor.split(&mut target) else {
        return Err(Fail::new("no number is spare"));
    };
    let done = AtomicU32::new(0);
    let running = AtomicU32::new(0);
    let ((mut target, served), (pass, tally)) = run_two(
        &rt, &executor, target, pass, &done, &running,
    );
    executor.join(&mut target, pass);
    let entries = executor.history(&rt, target).to_vec(rt.alloc())?;
    assert!(rt; tally.asked == STOPPED && tally.ended == STOPPED && tally.withdrawn == 0);
    assert!(rt; served.stopped == STOPPED && served.finished == STOPPED);
    assert!(rt; tally_of(entries.as_slice(), 1) == tally);
    Ok(())
}

// The end of a request of one thread is seen by it, without the lock, when another thread has finished it.
fn watch_each<W: Wait>(
    rt: &W,
    executor: &Executor<Item, u64>,
    mut pass: TestPass,
    done: &AtomicU32,
) -> (TestPass, Tally)
    requires { IsIdle executor.now.lock pass }
    ensures { IsIdle executor.now.lock result.0 }
{
    let mut tally = Tally::new();
    for i in 0..EACH {
        ask_and_watch(rt, executor, &mut pass, i as u64, &mut tally);
    }
    done.fetch_add(1, Ordering::SeqCst);
    (pass, tally)
}

fn serve_what_is_watched<W: Wait>(
    rt: &W,
    executor: &Executor<Item, u64>,
    mut pass: TestPass,
    done: &AtomicU32,
) -> TestPass
    requires { IsIdleTarget executor.now.lock pass }
    ensures { IsReady executor.now.lock result }
{
    serve(rt, executor, &mut pass, done, 1);
    pass
}

fn run_watched<W: Wait + Threads + Sync>(
    rt: &W,
    executor: &Executor<Item, u64>,
    target: TestPass,
    pass: TestPass,
    done: &AtomicU32,
) -> (TestPass, (TestPass, Tally))
    requires { IsIdleTarget executor.now.lock target × IsIdle executor.now.lock pass }
    ensures { IsReady executor.now.lock result.0 × IsIdle executor.now.lock result.1.0 }
{
    join(
        rt,
        move || -> TestPass
            requires { IsIdleTarget executor.now.lock target }
            ensures { IsReady executor.entry.now.lock result }
        { serve_what_is_watched(rt, executor, target, done) },
        move || -> (TestPass, Tally)
            requires { IsIdle executor.now.lock pass }
            ensures { IsIdle executor.entry.now.lock result.0 }
        { watch_each(rt, executor, pass, done) },
    )
}

#[test]
fn an_end_is_seen_without_the_lock(rt: HostRuntime) -> Result<(), Fail> {
    let (executor, mut target) = Executor::<Item, u64>::new(rt.alloc(), EACH)?;
    let Ok(pass) = executor.split(&mut target) else {
        return Err(Fail::new("no number is spare"));
    };
    let done = AtomicU32::new(0);
    let (mut target, (pass, tally)) = run_watched(&rt, &executor, target, pass, &done);
    executor.join(&mut target, pass);
    let entries = executor.history(&rt, target).to_vec(rt.alloc())?;
    assert!(rt; tally.taken == EACH && tally.ended == EACH);
    assert!(rt; tally_of(entries.as_slice(), 1) == tally);
    Ok(())
}
