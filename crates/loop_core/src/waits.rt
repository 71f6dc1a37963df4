//! A wait, from its name to its outcome.
ghost use Rattle.std.specs.Prelude.{◌≡◌, ◌≤◌, [], Some, length};
ghost use Rattle.kj_base.specs.Counts.{HasLacked};
ghost use Rattle.kj_model.specs.World.{State};
ghost use Rattle.kj_model.specs.Calls.{wait, wait_done, wait_more};
ghost use Rattle.loop_core.specs.Calls.{CallIs};
ghost use Rattle.loop_core.specs.Loops.{StandsAt};
ghost use Rattle.loop_core.specs.Waits.{MayHold, StandsIn, Waits, lacked_waiting, valued_at, waited_as};

use crate::holding::{awaited_over, free_awaited, held_over, hold, let_go, lose, promise_of};
use crate::waiting::{WaitEnd, wait_turns};
use kj_base::{Link, Name};
use promise_commands::{Refused, Steps, Waited};
use promise_eval::Evaluator;
use promise_names::Names;
use promise_nodes::Nodes;
use promise_turns::has_ended;

// The tree of the wait is evaluated and freed.
fn finish_tree<N: Nodes + Drop, M: Names + Drop, S: Steps>(
    over: &mut Evaluator<N, M>,
    root: Link,
    steps: &mut S,
) -> Waited
    requires none_over { M.over over.old.names ≡ [] }
    ensures ends { CallIs
        (StandsIn (N.stands over.old.nodes) (M.stands over.old.names))
        (StandsIn (N.stands over.new.nodes) (M.stands over.new.names)) N.rule
        (valued_at root.number.0) (λ setting. waited_as result)
        (S.told steps.old) (S.told steps.new) (S.lacks steps.old) (S.lacks steps.new) }
    ensures memory { HasLacked (lacked_waiting result) (S.lacks steps.old) (S.lacks steps.new) }
    ensures over { length (M.over over.new.names) ≤ 2 }
{
    match over.evaluate(root, steps) {
        Ok(outcome) => {
            free_awaited(&mut over.ground, steps);
            Waited::Done(outcome)
        }
        Err(_) => {
            lose(&mut over.ground);
            Waited::NoMemory
        }
    }
}

// The event of the wait has fired.
fn finish<N: Nodes + Drop, M: Names + Drop, S: Steps>(
    over: &mut Evaluator<N, M>,
    steps: &mut S,
) -> Waited
    requires none_over { M.over over.old.names ≡ [] }
    ensures ends { CallIs
        (StandsIn (N.stands over.old.nodes) (M.stands over.old.names))
        (StandsIn (N.stands over.new.nodes) (M.stands over.new.names)) N.rule
        wait_done (λ setting. waited_as result)
        (S.told steps.old) (S.told steps.new) (S.lacks steps.old) (S.lacks steps.new) }
    ensures memory { HasLacked (lacked_waiting result) (S.lacks steps.old) (S.lacks steps.new) }
    ensures over { length (M.over over.new.names) ≤ 2 }
{
    match awaited_over(over) {
        Some(promise) => finish_tree(over, promise.root, steps),
        None => Waited::Idle,
    }
}

// Turns until the promise that is held is ready, and its end.
fn wait_held<N: Nodes + Drop, M: Names + Drop, S: Steps>(
    over: &mut Evaluator<N, M>,
    turns: u32,
    steps: &mut S,
) -> Waited
    requires none_over { M.over over.old.names ≡ [] }
    ensures waits { CallIs
        (Waits N.rule (N.stands over.old.nodes) (M.stands over.old.names))
        (StandsIn (N.stands over.new.nodes) (M.stands over.new.names)) N.rule
        (λ setting. wait_more setting turns) (λ setting. waited_as result)
        (S.told steps.old) (S.told steps.new) (S.lacks steps.old) (S.lacks steps.new) }
    ensures memory { (s : State)
        → Waits N.rule (N.stands over.old.nodes) (M.stands over.old.names) s
        → HasLacked (lacked_waiting result) (S.lacks steps.old) (S.lacks steps.new) }
    ensures over { length (M.over over.new.names) ≤ 2 }
{
    match wait_turns(over, turns, steps) {
        WaitEnd::Ready => finish(over, steps),
        WaitEnd::Idle => {
            let_go(&mut over.ground, steps);
            Waited::Idle
        }
        WaitEnd::AllMade => {
            let_go(&mut over.ground, steps);
            Waited::Turns
        }
        WaitEnd::NoMemory => {
            lose(&mut over.ground);
            Waited::NoMemory
        }
    }
}

// A wait for the promise that this name has.
fn wait_for<N: Nodes + Drop, M: Names + Drop, S: Steps>(
    over: &mut Evaluator<N, M>,
    name: Name,
    root: Link,
    turns: u32,
    steps: &mut S,
) -> Waited
    requires none_over { M.over over.old.names ≡ [] }
    requires named { M.roots over.old.names name.0 ≡ Some root.number.0 }
    ensures waits { CallIs
        (MayHold N.rule (N.stands over.old.nodes) (M.stands over.old.names) name.0 root.number.0)
        (StandsIn (N.stands over.new.nodes) (M.stands over.new.names)) N.rule
        (λ setting. wait setting name.0 turns) (λ setting. waited_as result)
        (S.told steps.old) (S.told steps.new) (S.lacks steps.old) (S.lacks steps.new) }
    ensures memory { (s : State)
        → MayHold N.rule (N.stands over.old.nodes) (M.stands over.old.names) name.0 root.number.0 s
        → HasLacked (lacked_waiting result) (S.lacks steps.old) (S.lacks steps.new) }
    ensures over { length (M.over over.new.names) ≤ 2 }
{
    hold(&mut over.ground, name, root);
    wait_held(over, turns, steps)
}

/// Turns until the promise of this name is ready, so many at most; then its tree is evaluated and freed.
pub(crate) fn wait_over<N: Nodes + Drop, M: Names + Drop, S: Steps>(
    over: &mut Evaluator<N, M>,
    name: Name,
    turns: u32,
    steps: &mut S,
) -> Waited
    requires few_over { length (M.over over.old.names) ≤ 2 }
    ensures waits { CallIs
        (StandsAt N.rule (N.stands over.old.nodes) (M.stands over.old.names))
        (StandsAt N.rule (N.stands over.new.nodes) (M.stands over.new.names)) N.rule
        (λ setting. wait setting name.0 turns) (λ setting. waited_as result)
        (S.told steps.old) (S.told steps.new) (S.lacks steps.old) (S.lacks steps.new) }
    ensures memory { (s : State)
        → StandsAt N.rule (N.stands over.old.nodes) (M.stands over.old.names) s
        → HasLacked (lacked_waiting result) (S.lacks steps.old) (S.lacks steps.new) }
    ensures over { length (M.over over.new.names) ≤ 2 }
{
    if has_ended(over) {
        return Waited::Stopped;
    }
    let Some(held) = held_over(over, name) else {
        return Waited::Refused(Refused::Unknown(name));
    };
    match promise_of(held) {
        Some(root) => wait_for(over, name, root, turns, steps),
        None => Waited::Refused(Refused::WrongKind(name)),
    }
}
