//! Rounds on a loop alone. What is built in a round is run until the queue is empty; where KJ waits
//! for a promise, a step of a task sees its outcome here. `Command::Cancel` is there, but a canceler
//! never has members yet, since no command wraps a promise; so what a round drops goes with the
//! promise that won.
ghost use Rattle.std.specs.Prelude.{◌≡◌, ◌≤◌, ◌%◌};

use crate::loop_steps::{AGAIN, LEAF, PASSES, RoundSteps, UPPER};
use anyhow::{Result, bail};
use event_links::EventLinks;
use kj_base::{Limits, MAX_SLOTS, Name, NoMemory, Store, Words};
use loop_core::{Loop, LoopOver, Turned};
use node_arena::{ARENA, NodeArena};
use node_table::NodeTable;
use promise_commands::{Command, MAX_PARTS, Sources};
use std::alloc::Global;

// What is built and run.
#[derive(Clone, Copy, Debug, PartialEq, Eq)]
pub(crate) enum Round {
    // Promises that are ready in a later turn, each with a continuation in a task: all are built,
    // and then all run.
    Events,
    // The same, a batch being built and run at a time.
    Batches,
    // A promise whose step ends with such a promise again.
    Turns,
    // Hubs, each with a batch of branches with a continuation in a task.
    Branches,
    // Joins of eight promises that are ready in a later turn.
    Joins,
    // Races of such a promise with the continuation of a pair that nobody settles: the loser goes
    // with the race.
    Races,
}

// Where the nodes of a loop stand.
#[derive(Clone, Copy, Debug, PartialEq, Eq)]
pub(crate) enum Place {
    // In a table of slots.
    Table,
    // In arenas of eight slots each, as those of scripts do.
    Arenas,
}

// How many promises or branches a batch has.
pub(crate) const BATCH: u32 = 1_000;

// The name of a cell.
const CELL: Name = Name(3);

// The name of a race or a join.
const WHOLE: Name = Name(4);

// The name of what is seen by a step at last.
const SEEN: Name = Name(5);

// The name of the first hub, and of the first part of a join; the next ones follow.
const FIRST: u32 = 10;

// How many names a loop needs beside those of hubs.
const NAMES: u32 = 20;

// More turns than any round has.
const ALL_TURNS: u32 = u32::MAX;

// A loop with its steps.
#[derive(Drop)]
pub(crate) struct Bench<St: Store + Drop> {
    over: Loop<St, EventLinks>,
    pub steps: RoundSteps,
    // How many hubs there were: each keeps its name, which no round drops.
    hubs: u32,
}

fn new_bench<St: Store + Drop>(over: Loop<St, EventLinks>) -> Bench<St> {
    Bench {
        over,
        steps: RoundSteps::new(),
        hubs: 0,
    }
}

// How many slots a unit of a round needs while it is live.
pub(crate) fn slots_each(round: Round, place: Place) -> u32 {
    match place {
        Place::Table => slots_in_table(round),
        Place::Arenas => slots_in_arenas(round),
    }
}

// One for each node.
fn slots_in_table(round: Round) -> u32 {
    match round {
        Round::Events | Round::Batches | Round::Branches => 3,
        Round::Turns => 6,
        Round::Joins => 19,
        Round::Races => 8,
    }
}

// An arena for each promise that goes before no other one: the nodes over it stand in it too.
fn slots_in_arenas(round: Round) -> u32 {
    match round {
        Round::Events | Round::Batches | Round::Branches => ARENA,
        Round::Turns | Round::Races => 3 * ARENA,
        Round::Joins => 9 * ARENA,
    }
}

// How many units of a round are live at once.
fn live_units(round: Round, count: u32) -> u32 {
    match round {
        Round::Events => count,
        Round::Batches | Round::Branches => BATCH,
        Round::Turns | Round::Joins | Round::Races => 1,
    }
}

// How many units so many rounds have.
pub(crate) fn units_of(round: Round, count: u32) -> u64 {
    match round {
        Round::Batches | Round::Branches => u64::from(count).saturating_mul(u64::from(BATCH)),
        Round::Events | Round::Turns | Round::Joins | Round::Races => u64::from(count),
    }
}

// How many hubs so many rounds leave, with the promise below one of them.
fn hubs_of(round: Round, count: u32) -> u32 {
    match round {
        Round::Branches => count.saturating_add(1),
        _ => 0,
    }
}

// The limits of a loop for so many rounds, so many times over.
fn limits_of(round: Round, place: Place, count: u32, times: u32) -> Limits
    ensures few { result.slots ≤ MAX_SLOTS }
    ensures arenas { result.slots % ARENA ≡ 0 }
{
    let hubs = hubs_of(round, count.saturating_mul(times));
    let slots = live_units(round, count)
        .saturating_mul(slots_each(round, place))
        .saturating_add(hubs.saturating_mul(slots_of_hub(place)));
    Limits {
        slots: whole_arenas(slots),
        names: hubs.saturating_add(NAMES),
    }
}

// How many slots a hub needs.
fn slots_of_hub(place: Place) -> u32 {
    match place {
        Place::Table => 1,
        Place::Arenas => ARENA,
    }
}

// At least so many slots that are whole arenas, as far as a loop may have them.
fn whole_arenas(slots: u32) -> u32
    ensures few { result ≤ MAX_SLOTS }
    ensures arenas { result % ARENA ≡ 0 }
    ensures enough { slots ≤ MAX_SLOTS → slots ≤ result }
{
    let arenas = (slots.min(MAX_SLOTS - ARENA + 1) + ARENA - 1) / ARENA;
    arenas * ARENA
}

// Over a table, for so many rounds, so many times over.
pub(crate) fn over_table(
    alloc: Global,
    round: Round,
    count: u32,
    times: u32,
) -> Result<Bench<NodeTable>, NoMemory> {
    let limits = limits_of(round, Place::Table, count, times);
    let store = NodeTable::new(alloc, limits.slots)?;
    let queue = EventLinks::new(alloc, limits.slots + 1)?;
    Ok(new_bench(LoopOver::new(alloc, limits, store, queue)?))
}

// Over arenas, for so many rounds, so many times over.
pub(crate) fn over_arenas(
    alloc: Global,
    round: Round,
    count: u32,
    times: u32,
) -> Result<Bench<NodeArena>, NoMemory> {
    let limits = limits_of(round, Place::Arenas, count, times);
    let store = NodeArena::new(alloc, limits.slots)?;
    let queue = EventLinks::new(alloc, limits.slots + 1)?;
    Ok(new_bench(LoopOver::new(alloc, limits, store, queue)?))
}

fn give<St: Store + Drop>(bench: &mut Bench<St>, command: Command) -> Result<()> {
    if bench.over.apply(command, &mut bench.steps).is_err() {
        bail!("a command was refused");
    }
    Ok(())
}

// Turns, until the queue is empty.
fn run_all<St: Store + Drop>(bench: &mut Bench<St>) -> Result<()> {
    if bench.over.run(ALL_TURNS, &mut bench.steps) != Turned::Idle {
        bail!("the queue isn't empty");
    }
    Ok(())
}

fn later<St: Store + Drop>(bench: &mut Bench<St>, name: Name) -> Result<()> {
    give(bench, Command::Later { name })
}

fn then<St: Store + Drop>(bench: &mut Bench<St>, name: Name, source: Name) -> Result<()> {
    give(
        bench,
        Command::Then {
            name,
            source,
            value: Some(PASSES),
            error: None,
        },
    )
}

fn detach<St: Store + Drop>(bench: &mut Bench<St>, source: Name) -> Result<()> {
    give(bench, Command::Detach { source })
}

// A step of a task sees what a promise ends with.
fn see<St: Store + Drop>(bench: &mut Bench<St>, source: Name) -> Result<()> {
    then(bench, SEEN, source)?;
    detach(bench, SEEN)
}

fn events<St: Store + Drop>(bench: &mut Bench<St>, count: u32) -> Result<()> {
    for _ in 0..count {
        later(bench, LEAF)?;
        see(bench, LEAF)?;
    }
    run_all(bench)
}

fn batches<St: Store + Drop>(bench: &mut Bench<St>, count: u32) -> Result<()> {
    for _ in 0..count {
        events(bench, BATCH)?;
    }
    Ok(())
}

fn turns<St: Store + Drop>(bench: &mut Bench<St>, count: u32) -> Result<()> {
    bench.steps.left = count;
    later(bench, LEAF)?;
    give(
        bench,
        Command::Chain {
            name: UPPER,
            source: LEAF,
            value: Some(AGAIN),
            error: None,
        },
    )?;
    detach(bench, UPPER)?;
    run_all(bench)
}

// A hub over a pair, with a batch of branches.
fn hub<St: Store + Drop>(bench: &mut Bench<St>) -> Result<()> {
    let hub = Name(FIRST.saturating_add(bench.hubs));
    bench.hubs = bench.hubs.saturating_add(1);
    give(
        bench,
        Command::Pair {
            name: LEAF,
            cell: CELL,
        },
    )?;
    give(bench, Command::Fork { hub, source: LEAF })?;
    for _ in 0..BATCH {
        give(bench, Command::Branch { name: UPPER, hub })?;
        see(bench, UPPER)?;
    }
    Ok(())
}

fn branches<St: Store + Drop>(bench: &mut Bench<St>, count: u32) -> Result<()> {
    for _ in 0..count {
        hub(bench)?;
        let mut value = Words::new();
        value.push(1);
        give(bench, Command::Fulfil { cell: CELL, value })?;
        run_all(bench)?;
        give(bench, Command::DropCell { cell: CELL })?;
    }
    Ok(())
}

fn joins<St: Store + Drop>(bench: &mut Bench<St>, count: u32) -> Result<()> {
    for _ in 0..count {
        let mut parts = Sources::new();
        for part in 0..MAX_PARTS {
            let name = Name(FIRST + part as u32);
            later(bench, name)?;
            parts.push(name);
        }
        give(bench, Command::All { name: WHOLE, parts })?;
        see(bench, WHOLE)?;
        run_all(bench)?;
    }
    Ok(())
}

fn races<St: Store + Drop>(bench: &mut Bench<St>, count: u32) -> Result<()> {
    for _ in 0..count {
        give(
            bench,
            Command::Pair {
                name: LEAF,
                cell: CELL,
            },
        )?;
        then(bench, UPPER, LEAF)?;
        later(bench, LEAF)?;
        give(
            bench,
            Command::Race {
                name: WHOLE,
                left: LEAF,
                right: UPPER,
            },
        )?;
        see(bench, WHOLE)?;
        run_all(bench)?;
        give(bench, Command::DropCell { cell: CELL })?;
    }
    Ok(())
}

// So many rounds.
pub(crate) fn do_rounds<St: Store + Drop>(
    bench: &mut Bench<St>,
    round: Round,
    count: u32,
) -> Result<()> {
    match round {
        Round::Events => events(bench, count),
        Round::Batches => batches(bench, count),
        Round::Turns => turns(bench, count),
        Round::Branches => branches(bench, count),
        Round::Joins => joins(bench, count),
        Round::Races => races(bench, count),
    }
}
