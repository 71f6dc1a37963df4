//! Figures of how fast parts of Kirstelme work. Without arguments it does one round of everything
//! and prints nothing; with a word and a count it does so many rounds of that work and prints how
//! long they took.
#![tactic(auto)]

mod bodies;
mod executor;
mod heads;
mod http;
mod loop_steps;
mod loop_words;
mod loops;

use anyhow::{Result, bail, ensure};
use executor::{RACES, Race, race_named, run_race};
use http::{SMALL_BODY, WHOLE_BODY, WORKS, Work};
use http_heads::Head;
use loop_words::{ROUNDS, Rounds, TIMES, rounds_named, run_rounds};
use loops::{slots_each, units_of};
use std::env;
use std::rt::{Clock, CpuClock, Env};
use std::sync::Wait;
use std::thread::{Threads, available_parallelism};
use std::time::{Duration, Instant};

// One round of everything.
fn all<R: AllocGlobal + Clock + CpuClock + Wait + Threads + Sync>(rt: &R) -> Result<()> {
    let mut head = Head::new(rt.alloc());
    for (name, work) in WORKS.iter() {
        let text = http::text_of(rt.alloc(), *work, SMALL_BODY)?;
        let done = http::round(rt.alloc(), &mut head, *work, text.as_slice())?;
        ensure!(done.items == 1, "{name} read nothing");
    }
    for (_, race) in RACES.iter() {
        let _time = run_race(rt, rt.alloc(), *race, 1)?;
    }
    for (_, round, place) in ROUNDS.iter() {
        let rounds = Rounds {
            round: *round,
            place: *place,
        };
        let _nanos = run_rounds(rt, rt.alloc(), rounds, 2, 2)?;
    }
    Ok(())
}

// So many for each second.
fn rate(count: u64, micros: u64) -> u64 {
    count.saturating_mul(1_000_000) / micros.max(1)
}

// A time in microseconds.
fn micros_of(time: Duration) -> u64 {
    time.as_secs()
        .saturating_mul(1_000_000)
        .saturating_add(u64::from(time.subsec_micros()))
}

// So many rounds of one work, with its figures.
fn measure(
    rt: &(impl AllocGlobal + Clock + Print),
    word: &str,
    work: Work,
    count: u64,
) -> Result<()> {
    let text = http::text_of(rt.alloc(), work, WHOLE_BODY)?;
    let mut head = Head::new(rt.alloc());
    let mut octets: u64 = 0;
    let mut items: u64 = 0;
    let start = Instant::now(rt)?;
    for _ in 0..count {
        let done = http::round(rt.alloc(), &mut head, work, text.as_slice())?;
        octets = octets.saturating_add(done.octets);
        items = items.saturating_add(done.items);
    }
    let micros = micros_of(start.elapsed(rt)?);
    let octet_rate = rate(octets, micros);
    let item_rate = rate(items, micros);
    println!(rt;
        "{word}: {count} rounds in {micros} microseconds, \
         {octet_rate} octets and {item_rate} items a second"
    )?;
    Ok(())
}

// So many requests of each thread of a race, with its figures.
fn measure_race<R: AllocGlobal + Clock + Print + Wait + Threads + Sync>(
    rt: &R,
    word: &str,
    race: Race,
    count: u32,
) -> Result<()> {
    let micros = micros_of(run_race(rt, rt.alloc(), race, count)?);
    let requests = u64::from(count).saturating_mul(u64::from(race.threads));
    let request_rate = rate(requests, micros);
    let processors = available_parallelism(rt)?;
    println!(rt;
        "{word}: {requests} requests in {micros} microseconds, \
         {request_rate} a second, on {processors} processors"
    )?;
    Ok(())
}

// So many rounds on a loop, the best of some times, with its figures.
fn measure_rounds<R: AllocGlobal + CpuClock + Print>(
    rt: &R,
    word: &str,
    rounds: Rounds,
    count: u32,
) -> Result<()> {
    let nanos = run_rounds(rt, rt.alloc(), rounds, count, TIMES)?;
    let units = units_of(rounds.round, count);
    let each = nanos / units.max(1);
    let slots = slots_each(rounds.round, rounds.place);
    println!(rt;
        "{word}: {units} units in {nanos} nanoseconds, {each} nanoseconds a unit, of {slots} slots"
    )?;
    Ok(())
}

fn run<R: AllocGlobal + Clock + CpuClock + Env + Print + Wait + Threads + Sync>(
    rt: &R,
) -> Result<()> {
    let mut words = env::args(rt)?;
    let _program = words.next();
    let Some(word) = words.next() else {
        return all(rt);
    };
    let Some(count) = words.next() else {
        bail!("a word and a count are wanted");
    };
    if let Some(race) = race_named(word.as_str()) {
        return measure_race(rt, word.as_str(), race, count.as_str().parse::<u32>()?);
    }
    if let Some(rounds) = rounds_named(word.as_str()) {
        return measure_rounds(rt, word.as_str(), rounds, count.as_str().parse::<u32>()?);
    }
    let Some(work) = http::named(word.as_str()) else {
        bail!("no such word: {word}");
    };
    measure(rt, word.as_str(), work, count.as_str().parse::<u64>()?)
}

fn main(rt: HostRuntime) -> Result<()> {
    run(&rt)
}
