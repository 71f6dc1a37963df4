//! A script, run on a loop of its own.
ghost use Rattle.std.specs.Prelude.{◌≡◌, ◌≤◌, ◌%◌, List, IfOk, OnOk};
ghost use Rattle.kj_model.specs.Log.{Body, Logged, limits_or, log_closed, log_of};
ghost use Rattle.kj_model.specs.Text.{log_text};
ghost use Rattle.kj_model.specs.World.{new_state};
ghost use Rattle.loop_core.specs.Loops.{StandsAt};
ghost use Rattle.name_table.specs.Table.{Stands as NamesStand};
ghost use Rattle.node_arena.specs.Arenas.{node_of, Stands as ArenasStand};
ghost use Rattle.node_arena.specs.Needs.{places_fit};
ghost use Rattle.promise_commands.specs.Scripts.{script_of};
ghost use Rattle.promise_graph.specs.Standing.{StandsFor};
ghost use Rattle.promise_steps.specs.Kept.{told_by};
ghost use Rattle.kj_script.specs.Running.{HaveLimits, Shows};

use crate::lines::do_line;
use event_links::EventLinks;
use kj_base::{Bytes, Limits, MAX_SLOTS, NAMES, NoMemory, SLOTS};
use loop_core::{Loop, LoopOver};
use node_arena::NodeArena;
use promise_names::Names;
use promise_nodes::Nodes;
use promise_script::Script;
use promise_steps::ScriptSteps;
use std::alloc::Global;

// The limits of a script, or the usual ones.
pub(crate) fn limits_of(limits: Option<Limits>) -> Limits
    requires { HaveLimits limits }
    ensures limits { result ≡ limits_or limits }
    ensures few { result.slots ≤ MAX_SLOTS }
    ensures arenas { result.slots % 8 ≡ 0 }
{
    match limits {
        Some(limits) => limits,
        None => Limits {
            slots: SLOTS,
            names: NAMES,
        },
    }
}

// A loop in which nothing was built, over arenas of nodes and a queue in place.
fn new_loop(alloc: Global, limits: Limits) -> Result<Loop<NodeArena, EventLinks>, NoMemory>
    requires few { limits.slots ≤ MAX_SLOTS }
    requires arenas { limits.slots % 8 ≡ 0 }
    ensures { IfOk result
        (λ l. StandsAt places_fit (StandsFor (node_of l.nodes.store) l.nodes.queue.events
        (ArenasStand l.nodes.store) l.nodes.marks l.nodes.memberships) (NamesStand l.names)
        (new_state limits)) }
{
    let store = NodeArena::new(alloc, limits.slots)?;
    let queue = EventLinks::new(alloc, limits.slots + 1)?;
    LoopOver::new(alloc, limits, store, queue)
}

// The loop is closed, and what that frees ends the log.
fn close<N: Nodes + Drop, M: Names + Drop>(
    over: LoopOver<N, M>,
    steps: &mut ScriptSteps,
    text: &mut Bytes,
) -> Result<(), NoMemory>
    ensures { OnOk result ((bodies : List Body) (l : Logged)
        → Shows bodies (StandsAt N.rule (N.stands over.nodes) (M.stands over.names))
        (told_by steps.old) text.old l
        → text.new ≡ log_text (log_closed l)) }
{
    over.close(steps);
    steps.drain_into(text)
}

/// Runs a script on a loop that is new, from its first line to the closing, and gives its log.
pub(crate) fn run_on<N: Nodes + Drop, M: Names + Drop>(
    alloc: Global,
    over: LoopOver<N, M>,
    script: &Script,
) -> Result<Bytes, NoMemory>
    requires { StandsAt N.rule (N.stands over.nodes) (M.stands over.names)
        (new_state (limits_or script.now.limits)) }
    ensures { IfOk result (λ log. log ≡ log_text (log_of N.rule (script_of script.now))) }
{
    let mut over = over;
    let mut steps = ScriptSteps::new(alloc, script)?;
    let mut text = Bytes::new(alloc);
    let mut left = script.lines(alloc);
    while let Some(line) = left.next()? {
        do_line(&mut over, &mut steps, &mut text, line)?;
    }
    close(over, &mut steps, &mut text)?;
    Ok(text)
}

/// Runs a script from its first line to the closing of its loop, and gives its log. A script that gives no limits has
/// the usual ones.
pub fn run_script(alloc: Global, script: &Script) -> Result<Bytes, NoMemory>
    requires limits { HaveLimits script.now.limits }
    ensures { IfOk result (λ log. log ≡ log_text (log_of places_fit (script_of script.now))) }
{
    let over = new_loop(alloc, limits_of(script.limits()))?;
    run_on(alloc, over, script)
}
