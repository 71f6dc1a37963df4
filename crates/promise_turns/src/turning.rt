//! Turns.
ghost use Rattle.std.specs.Prelude.{◌≡◌, ◌≤◌, [], false, length, max};
ghost use Rattle.kj_base.specs.Counts.{HasLacked};
ghost use Rattle.kj_base.specs.Queue.{head_of};
ghost use Rattle.kj_model.specs.World.{State, World};
ghost use Rattle.kj_model.specs.Calls.{turn};
ghost use Rattle.promise_nodes.specs.Kept.{OnlyRises};
ghost use Rattle.promise_nodes.specs.Shown.{link_number};
ghost use Rattle.promise_walks.specs.Walks.{Both};
ghost use Rattle.promise_walks.specs.Values.{Answer, setting_of};
ghost use Rattle.promise_firing.specs.Events.{event_ended, event_taken};
ghost use Rattle.promise_turns.specs.Acting.{Acts};
ghost use Rattle.promise_turns.specs.Events.{FromTaken};
ghost use Rattle.promise_turns.specs.Turns.{IsTaken, MayTurn, RunsOn, lacked_memory, turned_as, turned_at, turned_in};

use crate::firing::fire;
use crate::turned::{TakenTurn, Turned};
use kj_base::Link;
use promise_commands::Steps;
use promise_eval::Evaluator;
use promise_firing::{end_event, take_event};
use promise_names::Names;
use promise_nodes::Nodes;

fn is_stopped<N: Nodes + Drop, M: Names + Drop>(over: &Evaluator<N, M>) -> bool
    ensures { (w : World) → M.stands over.now.names w → result ≡ w.stopped }
{
    over.ground.names().is_stopped()
}

// The queue is rewound, and its first event is taken and fires; its node, or number 0 for the wait.
fn take<N: Nodes + Drop, M: Names + Drop>(over: &mut Evaluator<N, M>) -> Option<Link>
    ensures head { (w : World) → N.stands over.old.nodes w → link_number result ≡ head_of w.queue }
    ensures nodes { (w : World)
        → N.stands over.old.nodes w
        → N.stands over.new.nodes (event_taken (link_number result) w) }
    ensures names { over.new.names ≡ over.old.names }
    ensures plain { OnlyRises (N.is_plain over.old.nodes) (N.is_plain over.new.nodes) }
    ensures slots { N.slots over.new.nodes ≡ N.slots over.old.nodes }
{
    take_event(&mut over.ground.keepers.nodes)
}

// No event fires any more, and the queue is rewound.
fn end<N: Nodes + Drop, M: Names + Drop>(over: &mut Evaluator<N, M>)
    ensures nodes { (w : World)
        → N.stands over.old.nodes w
        → N.stands over.new.nodes (event_ended w) }
    ensures names { over.new.names ≡ over.old.names }
    ensures plain { OnlyRises (N.is_plain over.old.nodes) (N.is_plain over.new.nodes) }
    ensures slots { N.slots over.new.nodes ≡ N.slots over.old.nodes }
{
    end_event(&mut over.ground.keepers.nodes);
}

// The event that was taken fires and ends.
fn turn_at<N: Nodes + Drop, M: Names + Drop, S: Steps>(
    over: &mut Evaluator<N, M>,
    event: Link,
    steps: &mut S,
) -> TakenTurn
    requires none_over { M.over over.old.names ≡ [] }
    ensures turns { Acts (Both (N.stands over.old.nodes) (M.stands over.old.names))
        (Both (N.stands over.new.nodes) (M.stands over.new.names)) N.rule
        (FromTaken event.number.0) (turned_at event.number.0) (turned_as (turned_in result))
        (S.told steps.old) (S.told steps.new) (S.lacks steps.old) (S.lacks steps.new) }
    ensures memory { (answer : Answer) (s : State)
        → Both (N.stands over.old.nodes) (M.stands over.old.names) s.world
        → FromTaken event.number.0 (setting_of N.rule answer) s → s.world.stopped ≡ false
        → HasLacked (lacked_memory (turned_in result)) (S.lacks steps.old) (S.lacks steps.new) }
    ensures event { IsTaken result (Some event.number.0) }
    ensures plain { OnlyRises (N.is_plain over.old.nodes) (N.is_plain over.new.nodes) }
    ensures slots { N.slots over.new.nodes ≡ N.slots over.old.nodes }
    ensures none_over { lacked_memory (turned_in result) ≡ false → M.over over.new.names ≡ [] }
    ensures over { length (M.over over.new.names) ≤ 1 }
{
    fire(over, event, steps);
    end(over);
    if has_ended(over) {
        return TakenTurn::NoMemory;
    }
    TakenTurn::Fired(event)
}

/// A turn of a loop that runs, with the event that fires in it. No keeper has a request's name, so no event is a
/// Request's.
pub fn take_turn<N: Nodes + Drop, M: Names + Drop, S: Steps>(
    over: &mut Evaluator<N, M>,
    steps: &mut S,
) -> TakenTurn
    requires none_over { M.over over.old.names ≡ [] }
    ensures turns { Acts (Both (N.stands over.old.nodes) (M.stands over.old.names))
        (Both (N.stands over.new.nodes) (M.stands over.new.names)) N.rule RunsOn turn
        (turned_as (turned_in result)) (S.told steps.old) (S.told steps.new) (S.lacks steps.old)
        (S.lacks steps.new) }
    ensures memory { (answer : Answer) (s : State)
        → Both (N.stands over.old.nodes) (M.stands over.old.names) s.world
        → RunsOn (setting_of N.rule answer) s
        → HasLacked (lacked_memory (turned_in result)) (S.lacks steps.old) (S.lacks steps.new) }
    ensures event { (w : World) → N.stands over.old.nodes w → IsTaken result (head_of w.queue) }
    ensures plain { OnlyRises (N.is_plain over.old.nodes) (N.is_plain over.new.nodes) }
    ensures slots { N.slots over.new.nodes ≡ N.slots over.old.nodes }
    ensures none_over { lacked_memory (turned_in result) ≡ false → M.over over.new.names ≡ [] }
    ensures over { length (M.over over.new.names) ≤ 1 }
{
    match take(over) {
        Some(event) => turn_at(over, event, steps),
        None => TakenTurn::Idle,
    }
}

/// Whether the loop has stopped, as it has where a tree is left over.
pub fn has_ended<N: Nodes + Drop, M: Names + Drop>(over: &Evaluator<N, M>) -> bool
    ensures stopped { (w : World)
        → M.stands over.now.names w
        → (w.stopped ≡ false → w.left_over ≡ [])
        → result ≡ w.stopped }
    ensures none_over { result ≡ false → M.over over.now.names ≡ [] }
{
    if is_stopped(over) {
        return true;
    }
    match over.ground.names().left_over(0) {
        Some(_) => true,
        None => false,
    }
}

// What a turn answers.
fn turned_by(taken: TakenTurn) -> Turned
    ensures { result ≡ turned_in taken }
{
    match taken {
        TakenTurn::Fired(_) => Turned::Fired,
        TakenTurn::Idle => Turned::Idle,
        TakenTurn::NoMemory => Turned::NoMemory,
    }
}

/// One turn of the loop (kj/async.h, `EventLoop::turn`): the first event of the queue is taken and fires, and what it
/// arms depth-first goes before all others. A step that finds no memory stops the loop, and only then the answer is
/// `NoMemory`. A loop with a tree that is left over has stopped.
pub fn turn<N: Nodes + Drop, M: Names + Drop, S: Steps>(
    over: &mut Evaluator<N, M>,
    steps: &mut S,
) -> Turned
    ensures turns { Acts (Both (N.stands over.old.nodes) (M.stands over.old.names))
        (Both (N.stands over.new.nodes) (M.stands over.new.names)) N.rule MayTurn turn
        (turned_as result) (S.told steps.old) (S.told steps.new) (S.lacks steps.old)
        (S.lacks steps.new) }
    ensures memory { (answer : Answer) (s : State)
        → Both (N.stands over.old.nodes) (M.stands over.old.names) s.world
        → MayTurn (setting_of N.rule answer) s
        → HasLacked (lacked_memory result) (S.lacks steps.old) (S.lacks steps.new) }
    ensures plain { OnlyRises (N.is_plain over.old.nodes) (N.is_plain over.new.nodes) }
    ensures slots { N.slots over.new.nodes ≡ N.slots over.old.nodes }
    ensures over { length (M.over over.new.names) ≤ max 1 (length (M.over over.old.names)) }
{
    if has_ended(over) {
        return Turned::Stopped;
    }
    turned_by(take_turn(over, steps))
}
