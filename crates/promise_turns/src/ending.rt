//! A Chain and a task, which end when they fire.
ghost use Rattle.std.specs.Prelude.{◌≡◌, ◌≤◌, ◌∷◌, ◌++◌, [], true, length, None, Ok, Some};
ghost use Rattle.kj_base.specs.Commands.{step_of};
ghost use Rattle.kj_model.specs.Fire.{chain_ended, error_run, task_ended, task_gone, task_valued};
ghost use Rattle.kj_model.specs.Nodes.{dropped};
ghost use Rattle.kj_model.specs.Value.{chosen};
ghost use Rattle.promise_nodes.specs.Kept.{OnlyRises};
ghost use Rattle.promise_walks.specs.Walks.{Both, Does};
ghost use Rattle.promise_walks.specs.Values.{GivesRoot, given_of};
ghost use Rattle.promise_firing.specs.Ending.{LeavesSet};
ghost use Rattle.promise_firing.specs.Outliving.{MayEnd, Outlives};
ghost use Rattle.promise_turns.specs.declared.looks.Event.TheVariants.{Takes, Ends};
ghost use Rattle.promise_turns.specs.Acting.{Acts, Anywhere};
ghost use Rattle.promise_turns.specs.Events.{From, fired};

use kj_base::{Link, Outcome, StepId};
use promise_commands::Steps;
use promise_eval::Evaluator;
use promise_firing::{drop_task, end_chain, end_task};
use promise_names::Names;
use promise_nodes::Nodes;
use promise_walks::{Given, Land};

// The Then of a Chain gave this.
fn give<N: Nodes + Drop, M: Names + Drop, S: Steps>(
    over: &mut Evaluator<N, M>,
    chain: Link,
    link: Link,
    given: Given,
    steps: &mut S,
)
    requires plain { N.is_plain over.old.nodes chain.number.0 ≡ true }
    requires given { GivesRoot (M.roots over.old.names) (N.is_taken over.old.nodes)
        (N.next over.old.nodes) (Ok given) }
    ensures does { Does (λ w. Both (N.stands over.old.nodes) (M.stands over.old.names) w × MayEnd
        chain.number.0 link.number.0 (given_of given) w)
        (Both (N.stands over.new.nodes) (M.stands over.new.names))
        (chain_ended chain.number.0 link.number.0 (Some (given_of given))) (λ s. s)
        (S.told steps.old) (S.told steps.new) }
    ensures lacks { S.lacks steps.new ≡ S.lacks steps.old }
    ensures plain { OnlyRises (N.is_plain over.old.nodes) (N.is_plain over.new.nodes) }
    ensures slots { N.slots over.new.nodes ≡ N.slots over.old.nodes }
    ensures over { M.over over.new.names ≡ M.over over.old.names }
{
    let keepers = &mut over.ground.keepers;
    end_chain(
        &mut keepers.nodes,
        &mut keepers.names,
        &mut keepers.frames,
        &mut keepers.search,
        chain,
        link,
        given,
        steps,
    );
}

/// The event of a Chain: its Then is evaluated and freed, and the Chain is Ready in place, or gives its place to the
/// promise that the Then's step gave.
pub(crate) fn fire_chain<N: Nodes + Drop, M: Names + Drop, S: Steps>(
    over: &mut Evaluator<N, M>,
    node: Link,
    link: Link,
    steps: &mut S,
)
    requires plain { N.is_plain over.old.nodes node.number.0 ≡ true }
    ensures acts { Acts (Both (N.stands over.old.nodes) (M.stands over.old.names))
        (Both (N.stands over.new.nodes) (M.stands over.new.names)) N.rule
        (From (Takes link) node.number.0) (fired node.number.0) (λ s. s) (S.told steps.old)
        (S.told steps.new) (S.lacks steps.old) (S.lacks steps.new) }
    ensures plain { OnlyRises (N.is_plain over.old.nodes) (N.is_plain over.new.nodes) }
    ensures slots { N.slots over.new.nodes ≡ N.slots over.old.nodes }
    ensures over { M.over over.new.names ≡ M.over over.old.names }
{
    match over.evaluate_link(link, steps) {
        Ok(given) => give(over, node, link, given, steps),
        Err(_) => {}
    }
}

// The tree of a task gave an outcome: it is freed, and the task leaves its set; the error step of that.
fn leave<N: Nodes + Drop, M: Names + Drop, S: Steps>(
    over: &mut Evaluator<N, M>,
    task: Link,
    tree: Link,
    steps: &mut S,
) -> Option<StepId>
    requires plain { N.is_plain over.old.nodes task.number.0 ≡ true }
    requires none_over { M.over over.old.names ≡ [] }
    ensures leaves { LeavesSet (λ w. Both (N.stands over.old.nodes) (M.stands over.old.names) w
        × Outlives task.number.0 tree.number.0 w)
        (Both (N.stands over.new.nodes) (M.stands over.new.names)) task.number.0 tree.number.0
        (step_of result) (S.told steps.old) (S.told steps.new) }
    ensures lacks { S.lacks steps.new ≡ S.lacks steps.old }
    ensures plain { OnlyRises (N.is_plain over.old.nodes) (N.is_plain over.new.nodes) }
    ensures slots { N.slots over.new.nodes ≡ N.slots over.old.nodes }
    ensures over { M.over over.new.names ≡ task.number.0 ∷ [] }
{
    let keepers = &mut over.ground.keepers;
    end_task(
        &mut keepers.nodes,
        &mut keepers.names,
        &mut keepers.frames,
        &mut keepers.search,
        task,
        tree,
        steps,
    )
}

// A task that left its set goes.
fn drop<N: Nodes + Drop, M: Names + Drop, S: Steps>(
    over: &mut Evaluator<N, M>,
    task: Link,
    steps: &mut S,
)
    requires plain { N.is_plain over.old.nodes task.number.0 ≡ true }
    ensures does { Does (Both (N.stands over.old.nodes) (M.stands over.old.names))
        (Both (N.stands over.new.nodes) (M.stands over.new.names)) (task_gone task.number.0)
        (λ s. s) (S.told steps.old) (S.told steps.new) }
    ensures lacks { S.lacks steps.new ≡ S.lacks steps.old }
    ensures plain { OnlyRises (N.is_plain over.old.nodes) (N.is_plain over.new.nodes) }
    ensures slots { N.slots over.new.nodes ≡ N.slots over.old.nodes }
    ensures over { M.over over.new.names ≡ dropped task.number.0 (M.over over.old.names) }
{
    let keepers = &mut over.ground.keepers;
    drop_task(&mut keepers.nodes, &mut keepers.names, task, steps);
}

// The error step of a set runs on this outcome, and then its task goes, whatever the step gave; where it found no memory
// the task is left over.
fn run_error<N: Nodes + Drop, M: Names + Drop, S: Steps>(
    over: &mut Evaluator<N, M>,
    task: Link,
    step: StepId,
    outcome: Outcome,
    steps: &mut S,
)
    requires plain { N.is_plain over.old.nodes task.number.0 ≡ true }
    requires left { M.over over.old.names ≡ task.number.0 ∷ [] }
    ensures acts { Acts (Both (N.stands over.old.nodes) (M.stands over.old.names))
        (Both (N.stands over.new.nodes) (M.stands over.new.names)) N.rule Anywhere
        (λ setting s. error_run setting task.number.0 outcome (Some step.0) s) (λ s. s)
        (S.told steps.old) (S.told steps.new) (S.lacks steps.old) (S.lacks steps.new) }
    ensures plain { OnlyRises (N.is_plain over.old.nodes) (N.is_plain over.new.nodes) }
    ensures slots { N.slots over.new.nodes ≡ N.slots over.old.nodes }
    ensures over { length (M.over over.new.names) ≤ 1 }
{
    match over.ground.step(false, task, step, outcome, steps) {
        Ok(_) => drop(over, task, steps),
        Err(_) => {}
    }
}

// The error step, where it is to run on this outcome.
fn error_for(outcome: &Outcome, error: Option<StepId>) -> Option<StepId>
    ensures { step_of result ≡ chosen None (step_of error) outcome.now }
{
    match outcome {
        Outcome::Value(_) => None,
        Outcome::Broken(_) => error,
    }
}

// A task left its set, whose error step runs on an exception; then the task goes.
fn end<N: Nodes + Drop, M: Names + Drop, S: Steps>(
    over: &mut Evaluator<N, M>,
    task: Link,
    outcome: Outcome,
    error: Option<StepId>,
    steps: &mut S,
)
    requires plain { N.is_plain over.old.nodes task.number.0 ≡ true }
    requires left { M.over over.old.names ≡ task.number.0 ∷ [] }
    ensures acts { Acts (Both (N.stands over.old.nodes) (M.stands over.old.names))
        (Both (N.stands over.new.nodes) (M.stands over.new.names)) N.rule Anywhere
        (λ setting s. task_ended setting task.number.0 outcome (step_of error) s) (λ s. s)
        (S.told steps.old) (S.told steps.new) (S.lacks steps.old) (S.lacks steps.new) }
    ensures plain { OnlyRises (N.is_plain over.old.nodes) (N.is_plain over.new.nodes) }
    ensures slots { N.slots over.new.nodes ≡ N.slots over.old.nodes }
    ensures over { length (M.over over.new.names) ≤ 1 }
{
    match error_for(&outcome, error) {
        Some(step) => run_error(over, task, step, outcome, steps),
        None => drop(over, task, steps),
    }
}

// The tree of a task gave this outcome.
fn finish<N: Nodes + Drop, M: Names + Drop, S: Steps>(
    over: &mut Evaluator<N, M>,
    task: Link,
    tree: Link,
    outcome: Outcome,
    steps: &mut S,
)
    requires plain { N.is_plain over.old.nodes task.number.0 ≡ true }
    requires none_over { M.over over.old.names ≡ [] }
    ensures acts { Acts (λ w. Both (N.stands over.old.nodes) (M.stands over.old.names) w
        × Outlives task.number.0 tree.number.0 w)
        (Both (N.stands over.new.nodes) (M.stands over.new.names)) N.rule Anywhere
        (λ setting s. task_valued setting task.number.0 tree.number.0 (Some outcome) s) (λ s. s)
        (S.told steps.old) (S.told steps.new) (S.lacks steps.old) (S.lacks steps.new) }
    ensures plain { OnlyRises (N.is_plain over.old.nodes) (N.is_plain over.new.nodes) }
    ensures slots { N.slots over.new.nodes ≡ N.slots over.old.nodes }
    ensures over { length (M.over over.new.names) ≤ 1 }
{
    let error = leave(over, task, tree, steps);
    end(over, task, outcome, error, steps);
}

/// The event of a task: its tree is evaluated and freed, and the task leaves its set. On an exception the error step of
/// the set runs (kj/async.c++, `TaskSetImpl`). The task goes at last; where that step found no memory it is left over.
pub(crate) fn fire_task<N: Nodes + Drop, M: Names + Drop, S: Steps>(
    over: &mut Evaluator<N, M>,
    node: Link,
    tree: Link,
    steps: &mut S,
)
    requires plain { N.is_plain over.old.nodes node.number.0 ≡ true }
    requires none_over { M.over over.old.names ≡ [] }
    ensures acts { Acts (Both (N.stands over.old.nodes) (M.stands over.old.names))
        (Both (N.stands over.new.nodes) (M.stands over.new.names)) N.rule
        (From (Ends tree) node.number.0) (fired node.number.0) (λ s. s) (S.told steps.old)
        (S.told steps.new) (S.lacks steps.old) (S.lacks steps.new) }
    ensures plain { OnlyRises (N.is_plain over.old.nodes) (N.is_plain over.new.nodes) }
    ensures slots { N.slots over.new.nodes ≡ N.slots over.old.nodes }
    ensures over { length (M.over over.new.names) ≤ 1 }
{
    match over.evaluate(tree, steps) {
        Ok(outcome) => finish(over, node, tree, outcome, steps),
        Err(_) => {}
    }
}
