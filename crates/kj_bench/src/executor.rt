//! Round trips and submissions through an executor.
ghost use Rattle.std.specs.Prelude.{◌≡◌, ◌≤◌, IfOk, IfSome, IfNone, All};
ghost use Rattle.std.specs.Thread.{IsSync};
ghost use Rattle.xthread.specs.Told.{IsReady};
ghost use Rattle.executor_tests.specs.Callers.{IsIdle, HasOne, IsIdleTarget};

use anyhow::{Result, bail, ensure};
use executor_tests::{Item, Tally, ask, one_word, serve, settle};
use kj_base::StepId;
use std::alloc::Global;
use std::rt::Clock;
use std::sync::Wait;
use std::sync::atomic::{AtomicU32, Ordering};
use std::thread::{Threads, join};
use std::time::{Duration, Instant};
use xthread::{Executor, ExecutorPass, Ticket};

// What each submitting thread does with a request.
#[derive(Clone, Copy, Debug, PartialEq, Eq)]
pub(crate) enum Way {
    // It waits for the outcome, while a target serves.
    RoundTrip,
    // One thread has as many requests outstanding as there would be threads, and waits for all of
    // them, round by round.
    Batch,
    // It withdraws the request at once, and no target serves.
    Submission,
}

// What is measured.
#[derive(Clone, Copy, Debug, PartialEq, Eq)]
pub(crate) struct Race {
    pub way: Way,
    // How many threads submit, or how many requests are outstanding at once.
    pub threads: u32,
}

// Each race with its word.
pub(crate) static RACES: [(&str, Race); 5] = [
    (
        "round-trips-1",
        Race {
            way: Way::RoundTrip,
            threads: 1,
        },
    ),
    (
        "round-trips-4",
        Race {
            way: Way::RoundTrip,
            threads: 4,
        },
    ),
    (
        "submissions-1",
        Race {
            way: Way::Submission,
            threads: 1,
        },
    ),
    (
        "submissions-4",
        Race {
            way: Way::Submission,
            threads: 4,
        },
    ),
    (
        "batches-30",
        Race {
            way: Way::Batch,
            threads: 30,
        },
    ),
];

// The race of a word.
pub(crate) fn race_named(word: &str) -> Option<Race> {
    for (name, race) in RACES.iter() {
        if *name == word {
            return Some(*race);
        }
    }
    None
}

// The most requests that one thread may submit.
pub(crate) const MOST: u32 = 50_000;

// The most rounds of a batch.
pub(crate) const MOST_ROUNDS: u32 = 10_000;

type BenchExecutor = Executor<Item, u64>;

type BenchPass = ExecutorPass<Item, u64>;

// A submitter's pass, and what it counted.
type Lane = (BenchPass, Tally);

// All that it submits is withdrawn or collected.
fn submit_many<W: Wait>(
    rt: &W,
    executor: &BenchExecutor,
    mut pass: BenchPass,
    way: Way,
    count: u32,
    done: &AtomicU32,
) -> Lane
    requires { IsIdle executor.now.lock pass }
    ensures { IsIdle executor.now.lock result.0 }
{
    let mut tally = Tally::new();
    for i in 0..count {
        let cancel = way == Way::Submission;
        ask(rt, executor, &mut pass, i as u64, cancel, &mut tally);
    }
    done.fetch_add(1, Ordering::SeqCst);
    (pass, tally)
}

fn submit_in_two<W: Wait + Threads + Sync>(
    rt: &W,
    executor: &BenchExecutor,
    one: BenchPass,
    two: BenchPass,
    way: Way,
    count: u32,
    done: &AtomicU32,
) -> (Lane, Lane)
    requires { IsIdle executor.now.lock one × IsIdle executor.now.lock two }
    ensures { IsIdle executor.now.lock result.0.0 × IsIdle executor.now.lock result.1.0 }
{
    join(
        rt,
        move || -> Lane
            requires { IsIdle executor.now.lock one }
            ensures { IsIdle executor.entry.now.lock result.0 }
        { submit_many(rt, executor, one, way, count, done) },
        move || -> Lane
            requires { IsIdle executor.now.lock two }
            ensures { IsIdle executor.entry.now.lock result.0 }
        { submit_many(rt, executor, two, way, count, done) },
    )
}

// The passes of four submitters.
type Four = ((BenchPass, BenchPass), (BenchPass, BenchPass));

fn submit_in_four<W: Wait + Threads + Sync>(
    rt: &W,
    executor: &BenchExecutor,
    passes: Four,
    way: Way,
    count: u32,
    done: &AtomicU32,
) -> ((Lane, Lane), (Lane, Lane))
    requires left { IsIdle executor.now.lock passes.0.0 × IsIdle executor.now.lock passes.0.1 }
    requires right { IsIdle executor.now.lock passes.1.0 × IsIdle executor.now.lock passes.1.1 }
    ensures left { IsIdle executor.now.lock result.0.0.0 × IsIdle executor.now.lock result.0.1.0 }
    ensures right { IsIdle executor.now.lock result.1.0.0 × IsIdle executor.now.lock result.1.1.0 }
{
    let ((one, two), (three, four)) = passes;
    join(
        rt,
        move || -> (Lane, Lane)
            requires { IsSync W.row
                × IsIdle executor.now.lock one × IsIdle executor.now.lock two }
            ensures { IsIdle executor.entry.now.lock result.0.0
                × IsIdle executor.entry.now.lock result.1.0 }
        { submit_in_two(rt, executor, one, two, way, count, done) },
        move || -> (Lane, Lane)
            requires { IsSync W.row × IsIdle executor.now.lock three
                × IsIdle executor.now.lock four }
            ensures { IsIdle executor.entry.now.lock result.0.0
                × IsIdle executor.entry.now.lock result.1.0 }
        { submit_in_two(rt, executor, three, four, way, count, done) },
    )
}

fn serve_all<W: Wait>(
    rt: &W,
    executor: &BenchExecutor,
    mut target: BenchPass,
    done: &AtomicU32,
    callers: u32,
) -> BenchPass
    requires { IsIdleTarget executor.now.lock target }
    ensures { IsReady executor.now.lock result }
{
    serve(rt, executor, &mut target, done, callers);
    target
}

// One submitter beside a target that serves until it is done.
fn one_beside_target<W: Wait + Threads + Sync>(
    rt: &W,
    executor: &BenchExecutor,
    target: BenchPass,
    pass: BenchPass,
    count: u32,
    done: &AtomicU32,
) -> (BenchPass, Lane)
    requires { IsIdleTarget executor.now.lock target × IsIdle executor.now.lock pass }
    ensures { IsReady executor.now.lock result.0 × IsIdle executor.now.lock result.1.0 }
{
    join(
        rt,
        move || -> BenchPass
            requires { IsIdleTarget executor.now.lock target }
            ensures { IsReady executor.entry.now.lock result }
        { serve_all(rt, executor, target, done, 1) },
        move || -> Lane
            requires { IsIdle executor.now.lock pass }
            ensures { IsIdle executor.entry.now.lock result.0 }
        { submit_many(rt, executor, pass, Way::RoundTrip, count, done) },
    )
}

fn four_beside_target<W: Wait + Threads + Sync>(
    rt: &W,
    executor: &BenchExecutor,
    target: BenchPass,
    passes: Four,
    count: u32,
    done: &AtomicU32,
) -> (BenchPass, ((Lane, Lane), (Lane, Lane)))
    requires target { IsIdleTarget executor.now.lock target }
    requires left { IsIdle executor.now.lock passes.0.0 × IsIdle executor.now.lock passes.0.1 }
    requires right { IsIdle executor.now.lock passes.1.0 × IsIdle executor.now.lock passes.1.1 }
    ensures target { IsReady executor.now.lock result.0 }
    ensures left { IsIdle executor.now.lock result.1.0.0.0
        × IsIdle executor.now.lock result.1.0.1.0 }
    ensures right { IsIdle executor.now.lock result.1.1.0.0
        × IsIdle executor.now.lock result.1.1.1.0 }
{
    join(
        rt,
        move || -> BenchPass
            requires { IsIdleTarget executor.now.lock target }
            ensures { IsReady executor.entry.now.lock result }
        { serve_all(rt, executor, target, done, 4) },
        move || -> ((Lane, Lane), (Lane, Lane))
            requires { IsSync W.row
                × (IsIdle executor.now.lock passes.0.0 × IsIdle executor.now.lock passes.0.1)
                × (IsIdle executor.now.lock passes.1.0 × IsIdle executor.now.lock passes.1.1) }
            ensures { (IsIdle executor.entry.now.lock result.0.0.0
                × IsIdle executor.entry.now.lock result.0.1.0)
                × (IsIdle executor.entry.now.lock result.1.0.0
                × IsIdle executor.entry.now.lock result.1.1.0) }
        { submit_in_four(rt, executor, passes, Way::RoundTrip, count, done) },
    )
}

// Submits one request.
fn begin<W: Wait>(
    rt: &W,
    executor: &BenchExecutor,
    pass: &mut BenchPass,
    word: u64,
) -> Option<Ticket>
    requires { IsIdle executor.now.lock pass.old }
    ensures some { IfSome result (λ t. HasOne executor.now.lock pass.new t) }
    ensures none { IfNone result (IsIdle executor.now.lock pass.new) }
{
    let item = Item {
        step: 7,
        word,
        mark: word,
    };
    match executor.submit(rt, pass, StepId(7), one_word(word), item) {
        Ok(ticket) => Some(ticket),
        Err(_) => None,
    }
}

// One request of each pass, so that all are outstanding at once.
fn ask_each<W: Wait>(
    rt: &W,
    executor: &BenchExecutor,
    passes: &mut Vec<BenchPass>,
    word: u64,
    tally: &mut Tally,
)
    requires { All (λ p. IsIdle executor.now.lock p) passes.old.items }
    ensures { All (λ p. IsIdle executor.now.lock p) passes.new.items }
{
    let Some(mut first) = passes.pop() else {
        return;
    };
    match begin(rt, executor, &mut first, word) {
        Some(ticket) => {
            ask_each(rt, executor, passes, word, tally);
            settle(rt, executor, &mut first, ticket, tally);
            let _kept = passes.push(first);
        }
        None => {
            ask_each(rt, executor, passes, word, tally);
            let _kept = passes.push(first);
        }
    }
}

// Round by round, each pass has one request.
fn submit_batches<W: Wait>(
    rt: &W,
    executor: &BenchExecutor,
    mut passes: Vec<BenchPass>,
    count: u32,
    done: &AtomicU32,
) -> (Vec<BenchPass>, Tally)
    requires { All (λ p. IsIdle executor.now.lock p) passes.items }
    ensures { All (λ p. IsIdle executor.now.lock p) result.0.items }
{
    let mut tally = Tally::new();
    for i in 0..count {
        ask_each(rt, executor, &mut passes, i as u64, &mut tally);
    }
    done.fetch_add(1, Ordering::SeqCst);
    (passes, tally)
}

// One thread with many requests outstanding, beside a target.
fn batches_beside_target<W: Wait + Threads + Sync>(
    rt: &W,
    executor: &BenchExecutor,
    target: BenchPass,
    passes: Vec<BenchPass>,
    count: u32,
    done: &AtomicU32,
) -> (BenchPass, (Vec<BenchPass>, Tally))
    requires { IsIdleTarget executor.now.lock target
        × All (λ p. IsIdle executor.now.lock p) passes.items }
    ensures { IsReady executor.now.lock result.0
        × All (λ p. IsIdle executor.now.lock p) result.1.0.items }
{
    join(
        rt,
        move || -> BenchPass
            requires { IsIdleTarget executor.now.lock target }
            ensures { IsReady executor.entry.now.lock result }
        { serve_all(rt, executor, target, done, 1) },
        move || -> (Vec<BenchPass>, Tally)
            requires { All (λ p. IsIdle executor.now.lock p) passes.items }
            ensures { All (λ p. IsIdle executor.entry.now.lock p) result.0.items }
        { submit_batches(rt, executor, passes, count, done) },
    )
}

// A pass that is split off the target's.
fn split_one(executor: &BenchExecutor, target: &mut BenchPass) -> Result<BenchPass>
    requires { IsIdleTarget executor.now.lock target.old }
    ensures target { IsIdleTarget executor.now.lock target.new }
    ensures pass { IfOk result (λ p. IsIdle executor.now.lock p) }
{
    match executor.split(target) {
        Ok(pass) => Ok(pass),
        Err(_) => bail!("no number is spare"),
    }
}

// As many passes as are wanted, split off the target's.
fn split_many(
    alloc: Global,
    executor: &BenchExecutor,
    target: &mut BenchPass,
    count: u32,
) -> Result<Vec<BenchPass>>
    requires { IsIdleTarget executor.now.lock target.old }
    ensures target { IsIdleTarget executor.now.lock target.new }
    ensures passes { IfOk result (λ v. All (λ p. IsIdle executor.now.lock p) v.items) }
{
    let mut passes = Vec::new(alloc);
    for _ in 0..count {
        let pass = split_one(executor, target)?;
        if passes.push(pass).is_err() {
            bail!("no memory");
        }
    }
    Ok(passes)
}

// All joined, the history has so many entries.
fn check<W: Wait>(
    rt: &W,
    executor: BenchExecutor,
    mut target: BenchPass,
    mut passes: Vec<BenchPass>,
    want: u64,
) -> Result<()>
    requires { IsReady executor.lock target × All (λ p. IsIdle executor.lock p) passes.items }
{
    for _ in 0..passes.len() {
        let Some(pass) = passes.pop() else {
            break;
        };
        executor.join(&mut target, pass);
    }
    let entries = executor.history(rt, target);
    let found = entries.len() as u64;
    ensure!(found == want, "{found} entries in place of {want}");
    Ok(())
}

// The same with one submitter.
fn check_one<W: Wait>(
    rt: &W,
    executor: BenchExecutor,
    mut target: BenchPass,
    pass: BenchPass,
    want: u64,
) -> Result<()>
    requires { IsReady executor.lock target × IsIdle executor.lock pass }
{
    executor.join(&mut target, pass);
    let entries = executor.history(rt, target);
    let found = entries.len() as u64;
    ensure!(found == want, "{found} entries in place of {want}");
    Ok(())
}

// Rounds of so many requests that are outstanding at once.
fn run_batches<W: Wait + Threads + Sync + Clock>(
    rt: &W,
    alloc: Global,
    many: u32,
    count: u32,
) -> Result<Duration> {
    if count < 1 || count > MOST_ROUNDS || many < 1 || many > 100 {
        bail!("1 to {MOST_ROUNDS} rounds of 1 to 100 requests");
    }
    let (executor, mut target) = BenchExecutor::new(alloc, many * count)?;
    let passes = split_many(alloc, &executor, &mut target, many)?;
    let done = AtomicU32::new(0);
    let start = Instant::now(rt)?;
    let (target, (passes, tally)) = batches_beside_target(
        rt, &executor, target, passes, count, &done,
    );
    let time = start.elapsed(rt)?;
    ensure!(tally.ended == many * count, "not all requests ended");
    check(rt, executor, target, passes, 4 * (many * count) as u64 + 1)?;
    Ok(time)
}

// One submitting thread.
fn run_one<W: Wait + Threads + Sync + Clock>(
    rt: &W,
    alloc: Global,
    way: Way,
    count: u32,
) -> Result<Duration>
    requires { count ≤ 50000 }
{
    if count < 1 {
        bail!("no requests");
    }
    let (executor, mut target) = BenchExecutor::new(alloc, count)?;
    let pass = split_one(&executor, &mut target)?;
    let done = AtomicU32::new(0);
    let start = Instant::now(rt)?;
    if way == Way::Submission {
        let (pass, tally) = submit_many(rt, &executor, pass, way, count, &done);
        let time = start.elapsed(rt)?;
        ensure!(tally.withdrawn == count, "not all requests were withdrawn");
        check_one(rt, executor, target, pass, 2 * count as u64)?;
        return Ok(time);
    }
    let (target, (pass, tally)) = one_beside_target(rt, &executor, target, pass, count, &done);
    let time = start.elapsed(rt)?;
    ensure!(tally.ended == count, "not all requests ended");
    check_one(rt, executor, target, pass, 4 * count as u64 + 1)?;
    Ok(time)
}

// Each of the four made so many requests, which all ended.
fn all_done(lanes: &((Lane, Lane), (Lane, Lane)), way: Way, count: u32) -> bool {
    let ((one, two), (three, four)) = lanes;
    let is_done = |tally: &Tally| match way {
        Way::Submission => tally.withdrawn == count,
        _ => tally.ended == count,
    };
    is_done(&one.1) && is_done(&two.1) && is_done(&three.1) && is_done(&four.1)
}

// Four submitting threads.
fn run_four<W: Wait + Threads + Sync + Clock>(
    rt: &W,
    alloc: Global,
    way: Way,
    count: u32,
) -> Result<Duration>
    requires { count ≤ 50000 }
{
    if count < 1 {
        bail!("no requests");
    }
    let (executor, mut target) = BenchExecutor::new(alloc, 4 * count)?;
    let one = split_one(&executor, &mut target)?;
    let two = split_one(&executor, &mut target)?;
    let three = split_one(&executor, &mut target)?;
    let four = split_one(&executor, &mut target)?;
    let done = AtomicU32::new(0);
    let four_passes = ((one, two), (three, four));
    let start = Instant::now(rt)?;
    if way == Way::Submission {
        let lanes = submit_in_four(rt, &executor, four_passes, way, count, &done);
        let time = start.elapsed(rt)?;
        ensure!(
            all_done(&lanes, way, count),
            "not all requests were withdrawn"
        );
        let entries = executor.history(rt, target);
        ensure!(
            entries.len() as u64 == 8 * count as u64,
            "entries are missing"
        );
        return Ok(time);
    }
    let (target, lanes) = four_beside_target(rt, &executor, target, four_passes, count, &done);
    let time = start.elapsed(rt)?;
    ensure!(all_done(&lanes, way, count), "not all requests ended");
    let entries = executor.history(rt, target);
    ensure!(
        entries.len() as u64 == 16 * count as u64 + 1,
        "entries are missing"
    );
    Ok(time)
}

// Each submitting thread of the race makes so many requests, which all end: the time from the first
// submission on, with the start of the threads.
pub(crate) fn run_race<W: Wait + Threads + Sync + Clock>(
    rt: &W,
    alloc: Global,
    race: Race,
    count: u32,
) -> Result<Duration> {
    if race.way == Way::Batch {
        return run_batches(rt, alloc, race.threads, count);
    }
    if count < 1 || count > MOST {
        bail!("a thread submits 1 to {MOST} requests");
    }
    if race.threads == 1 {
        return run_one(rt, alloc, race.way, count);
    }
    run_four(rt, alloc, race.way, count)
}
