//! The same scripts over both stores and both queues.
ghost use Rattle.std.specs.Prelude.{◌≡◌, ◌+◌, IfOk};
ghost use Rattle.kj_base.specs.Places.{table_fits};
ghost use Rattle.kj_base.specs.Queue.{no_events};
ghost use Rattle.kj_model.specs.Log.{limits_or, log_of};
ghost use Rattle.kj_model.specs.Text.{log_text};
ghost use Rattle.node_arena.specs.Needs.{places_fit};
ghost use Rattle.promise_commands.specs.Scripts.{script_of};
ghost use Rattle.kj_script.specs.Running.{HaveLimits};

use crate::run::{limits_of, run_on};
use crate::run_script;
use event_links::EventLinks;
use event_list::EventList;
use kj_base::{Bytes, INPUT_LIMIT, NoMemory, Queue};
use loop_core::LoopOver;
use node_arena::NodeArena;
use node_table::NodeTable;
use promise_script::{Script, read};
use std::alloc::Global;
use std::test::Fail;

// Scripts that never run full.
const SCRIPTS: [&[u8]; 11] = [
    b"limits 64 9\nlater 1\nthen 2 1 10 -\ndetach 2\nlater 3\nthen 4 3 11 -\ndetach 4\nturn\nturn\n",
    b"limits 64 9\nstep 10\nfulfil 5 7\nvalue\npair 4 5\nthen 6 4 11 -\ndetach 6\nlater 1\nthen 2 1 10 -\ndetach 2\nlater 7\nthen 8 7 12 -\ndetach 8\nrun 3\n",
    b"limits 64 9\nlater 1\nlater 2\nrace 3 1 2\ndetach 3\nrun 3\n",
    b"limits 64 9\nnow 1 5\nfork 2 1\nbranch 3 2\nbranch 4 2\ndetach 3\ndetach 4\nrun 5\n",
    b"limits 64 9\nnow 1 5\nnow 2 6\nall 3 1 2\nthen 4 3 9 -\ndetach 4\nrun 5\n",
    b"limits 24 1\nstep 1\nlater 10\nchain 11 10 1 -\npromise 11\nlater 10\nchain 11 10 1 -\ndetach 11\nrun 1000\n",
    b"limits 64 9\npair 1 2\nthen 3 1 10 -\nwait 3 5\nfulfil 2 7\nwait 3 0\nwait 3 5\nwait 2 1\n",
    b"limits 64 9\nstep 11\nthrow failed 5\nset 9 40\nlater 1\nthen 2 1 10 -\nadd 9 2\nlater 3\nthen 4 3 11 -\nadd 9 4\nempty 5 9\nthen 6 5 20 -\ndetach 6\nrun 9\n",
    b"limits 64 9\nstep 40\ndrop 9\ninput\nset 9 40\nfail 1 failed 5\nadd 9 1\nlater 2\nadd 9 2\nempty 5 9\nrun 9\nadd 9 5\n",
    b"limits 64 9\nset 9 -\npair 1 2\nadd 9 1\npair 3 4\nadd 9 3\nempty 5 9\nempty 6 9\nclear 9\nfulfil 2 1\nwait 5 3\n",
    b"limits 64 9\nlast 1\nthen 2 1 11 -\ndetach 2\nlast 3\nthen 4 3 12 -\ndetach 4\nlater 5\nthen 6 5 13 -\ndetach 6\nrun 3\n",
];

// The limits and the bodies of a script that is drawn.
const FRONT: &[u8] =
    b"limits 4096 64\nstep 1\nlater 20\nthen 21 20 2 -\ndetach 21\nvalue 7\nstep 1\nthrow failed 3\nstep 2\nlater 22\npromise 22\nstep 3\nfulfil 5 1\ninput\n";

fn over_table<Q: Queue + Drop>(alloc: Global, script: &Script, queue: Q) -> Result<Bytes, NoMemory>
    requires limits { HaveLimits script.now.limits }
    requires size { Q.size queue ≡ (limits_or script.now.limits).slots + 1 }
    requires no_events { Q.events queue ≡ no_events }
    ensures { IfOk result (λ log. log ≡ log_text (log_of table_fits (script_of script.now))) }
{
    let limits = limits_of(script.limits());
    let store = NodeTable::new(alloc, limits.slots)?;
    let over = LoopOver::new(alloc, limits, store, queue)?;
    run_on(alloc, over, script)
}

fn over_arenas<Q: Queue + Drop>(alloc: Global, script: &Script, queue: Q) -> Result<Bytes, NoMemory>
    requires limits { HaveLimits script.now.limits }
    requires size { Q.size queue ≡ (limits_or script.now.limits).slots + 1 }
    requires no_events { Q.events queue ≡ no_events }
    ensures { IfOk result (λ log. log ≡ log_text (log_of places_fit (script_of script.now))) }
{
    let limits = limits_of(script.limits());
    let store = NodeArena::new(alloc, limits.slots)?;
    let over = LoopOver::new(alloc, limits, store, queue)?;
    run_on(alloc, over, script)
}

// Whether these are a script whose log is the same over each store and each queue.
fn have_one_log(alloc: Global, octets: &[u8]) -> Result<bool, NoMemory> {
    if octets.len() > INPUT_LIMIT {
        return Ok(false);
    }
    let script = match read(alloc, octets) {
        Ok(script) => script,
        Err(_) => return Ok(false),
    };
    let events = limits_of(script.limits()).slots + 1;
    let log = run_script(alloc, &script)?;
    let plain = over_table(alloc, &script, EventList::new(alloc, events)?)?;
    let linked = over_table(alloc, &script, EventLinks::new(alloc, events)?)?;
    let listed = over_arenas(alloc, &script, EventList::new(alloc, events)?)?;
    Ok(
        !log.as_slice().is_empty()
            && log.as_slice() == plain.as_slice()
            && log.as_slice() == linked.as_slice()
            && log.as_slice() == listed.as_slice(),
    )
}

// A line whose names are these two and one of 1 to 9.
fn line_of(alloc: Global, verb: u64, a: u64, b: u64) -> Result<Bytes, NoMemory> {
    let c = (a % 9 + b % 9) % 9 + 1;
    let step = b % 4 + 1;
    let text = match verb {
        0 => format!(in alloc; "later {a}\n")?,
        1 => format!(in alloc; "now {a} {b}\n")?,
        2 => format!(in alloc; "then {a} {b} {step} -\n")?,
        3 => format!(in alloc; "chain {a} {b} {step} 1\n")?,
        4 => format!(in alloc; "eager {a} {b}\n")?,
        5 => format!(in alloc; "fork {a} {b}\n")?,
        6 => format!(in alloc; "branch {a} {b}\n")?,
        7 => format!(in alloc; "race {a} {b} {c}\n")?,
        8 => format!(in alloc; "all {a} {b} {c}\n")?,
        9 => format!(in alloc; "pair {a} {b}\n")?,
        10 => format!(in alloc; "fulfil {a} {b}\n")?,
        11 => format!(in alloc; "last {a}\n")?,
        12 => format!(in alloc; "dropcell {a}\n")?,
        13 => format!(in alloc; "fast {a} {b} {c}\n")?,
        14 => format!(in alloc; "detach {a}\n")?,
        15 => format!(in alloc; "wait {a} {b}\n")?,
        16 => format!(in alloc; "set {a} {step}\n")?,
        17 => format!(in alloc; "add {a} {b}\n")?,
        18 => format!(in alloc; "clear {a}\n")?,
        19 => format!(in alloc; "empty {a} {b}\n")?,
        20 => format!(in alloc; "drop {a}\n")?,
        _ => format!(in alloc; "turn\n")?,
    };
    let mut line = Bytes::new(alloc);
    line.extend(text.as_bytes())?;
    Ok(line)
}

// So many lines that are drawn.
fn drawn(alloc: Global, seed: u64, lines: u32) -> Result<Bytes, NoMemory> {
    let mut text = Bytes::new(alloc);
    text.extend(FRONT)?;
    let mut state = seed;
    for _ in 0..lines {
        state = state
            .wrapping_mul(6_364_136_223_846_793_005)
            .wrapping_add(1_442_695_040_888_963_407);
        let drawn = state >> 33;
        let line = line_of(alloc, drawn % 24, drawn / 24 % 9 + 1, drawn / 216 % 9 + 1)?;
        text.extend(line.as_slice())?;
    }
    Ok(text)
}

#[test]
fn one_log_over_each_store_and_queue(rt: HostRuntime) -> Result<(), Fail> {
    let alloc = rt.alloc();
    for octets in SCRIPTS {
        assert!(&rt; have_one_log(alloc, octets)?, "at {}", octets.len());
    }
    for seed in 0..12 {
        let text = drawn(alloc, seed, 150)?;
        assert!(&rt; have_one_log(alloc, text.as_slice())?, "at {seed}");
    }
    Ok(())
}
