//! The words of rounds on a loop, and how long they take.
use crate::loops::{Bench, Place, Round, do_rounds, over_arenas, over_table, units_of};
use anyhow::{Result, bail, ensure};
use kj_base::Store;
use std::alloc::Global;
use std::rt::CpuClock;
use std::time::Duration;

// How often rounds are done, of which the best counts.
pub(crate) const TIMES: u32 = 5;

// Rounds of one kind, on a loop whose nodes stand so.
#[derive(Clone, Copy, Debug, PartialEq, Eq)]
pub(crate) struct Rounds {
    pub round: Round,
    pub place: Place,
}

// Each kind of rounds with its word.
pub(crate) static ROUNDS: [(&str, Round, Place); 12] = [
    ("events", Round::Events, Place::Table),
    ("event-batches", Round::Batches, Place::Table),
    ("promise-loop", Round::Turns, Place::Table),
    ("branches", Round::Branches, Place::Table),
    ("joins-of-8", Round::Joins, Place::Table),
    ("races", Round::Races, Place::Table),
    ("arena-events", Round::Events, Place::Arenas),
    ("arena-event-batches", Round::Batches, Place::Arenas),
    ("arena-promise-loop", Round::Turns, Place::Arenas),
    ("arena-branches", Round::Branches, Place::Arenas),
    ("arena-joins-of-8", Round::Joins, Place::Arenas),
    ("arena-races", Round::Races, Place::Arenas),
];

// The rounds of a word.
pub(crate) fn rounds_named(word: &str) -> Option<Rounds> {
    for (name, round, place) in ROUNDS.iter() {
        if *name == word {
            return Some(Rounds {
                round: *round,
                place: *place,
            });
        }
    }
    None
}

// A time in nanoseconds.
fn nanos_of(time: Duration) -> u64 {
    time.as_secs()
        .saturating_mul(1_000_000_000)
        .saturating_add(u64::from(time.subsec_nanos()))
}

// How often a step runs in so many rounds: the step of a promise loop runs once more, and then gives
// its input.
fn runs_of(round: Round, count: u32) -> u64 {
    match round {
        Round::Turns => units_of(round, count).saturating_add(1),
        _ => units_of(round, count),
    }
}

// So many rounds, so many times over: the least nanoseconds of the thread's own time that one time
// took.
fn time_rounds<R: CpuClock, St: Store + Drop>(
    rt: &R,
    bench: Bench<St>,
    round: Round,
    count: u32,
    times: u32,
) -> Result<u64> {
    let mut bench = bench;
    let mut best = u64::MAX;
    for _ in 0..times {
        bench.steps.runs = 0;
        let start = nanos_of(rt.thread_cpu_time()?);
        do_rounds(&mut bench, round, count)?;
        let nanos = nanos_of(rt.thread_cpu_time()?).saturating_sub(start);
        ensure!(
            bench.steps.runs == runs_of(round, count),
            "a step ran too seldom or too often"
        );
        best = best.min(nanos);
    }
    Ok(best)
}

// The same, on a loop that is made for them.
pub(crate) fn run_rounds<R: CpuClock>(
    rt: &R,
    alloc: Global,
    rounds: Rounds,
    count: u32,
    times: u32,
) -> Result<u64> {
    if count < 1 {
        bail!("no rounds");
    }
    let round = rounds.round;
    match rounds.place {
        Place::Table => {
            let bench = over_table(alloc, round, count, times)?;
            time_rounds(rt, bench, round, count, times)
        }
        Place::Arenas => {
            let bench = over_arenas(alloc, round, count, times)?;
            time_rounds(rt, bench, round, count, times)
        }
    }
}
