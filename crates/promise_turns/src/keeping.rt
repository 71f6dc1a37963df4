//! Nodes that keep the outcome of their tree.
ghost use Rattle.std.specs.Prelude.{◌≡◌, Some};
ghost use Rattle.kj_base.specs.Queue.{DepthFirst};
ghost use Rattle.kj_model.specs.Listening.{announced};
ghost use Rattle.kj_model.specs.Fire.{kept_then, branches_announced};
ghost use Rattle.promise_nodes.specs.Kept.{OnlyRises};
ghost use Rattle.promise_walks.specs.Walks.{Both, Does};
ghost use Rattle.promise_firing.specs.Outliving.{BranchesOutlive, Outlives};
ghost use Rattle.promise_turns.specs.declared.looks.Event.TheVariants.{Keeps as KeepsCase, Shares};
ghost use Rattle.promise_turns.specs.Acting.{Acts};
ghost use Rattle.promise_turns.specs.Events.{From, fired};

use kj_base::{Link, Outcome};
use promise_commands::Steps;
use promise_eval::Evaluator;
use promise_firing::{keep_for_branches, keep_outcome};
use promise_names::Names;
use promise_nodes::Nodes;

// The tree gave this outcome.
fn keep<N: Nodes + Drop, M: Names + Drop, S: Steps>(
    over: &mut Evaluator<N, M>,
    node: Link,
    tree: Link,
    outcome: Outcome,
    steps: &mut S,
)
    ensures does { Does (λ w. Both (N.stands over.old.nodes) (M.stands over.old.names) w ×
        Outlives node.number.0 tree.number.0 w)
        (Both (N.stands over.new.nodes) (M.stands over.new.names))
        (kept_then (announced DepthFirst node.number.0) node.number.0 tree.number.0 (Some outcome))
        (λ s. s) (S.told steps.old) (S.told steps.new) }
    ensures lacks { S.lacks steps.new ≡ S.lacks steps.old }
    ensures plain { OnlyRises (N.is_plain over.old.nodes) (N.is_plain over.new.nodes) }
    ensures slots { N.slots over.new.nodes ≡ N.slots over.old.nodes }
    ensures over { M.over over.new.names ≡ M.over over.old.names }
{
    let keepers = &mut over.ground.keepers;
    keep_outcome(
        &mut keepers.nodes,
        &mut keepers.names,
        &mut keepers.frames,
        &mut keepers.search,
        node,
        tree,
        outcome,
        steps,
    );
}

/// The event of an eager promise or of a wrapped one: its tree is evaluated and freed, the outcome kept, and who listens
/// is armed.
pub(crate) fn fire_keeping<N: Nodes + Drop, M: Names + Drop, S: Steps>(
    over: &mut Evaluator<N, M>,
    node: Link,
    tree: Link,
    steps: &mut S,
)
    ensures acts { Acts (Both (N.stands over.old.nodes) (M.stands over.old.names))
        (Both (N.stands over.new.nodes) (M.stands over.new.names)) N.rule
        (From (KeepsCase tree) node.number.0) (fired node.number.0) (λ s. s) (S.told steps.old)
        (S.told steps.new) (S.lacks steps.old) (S.lacks steps.new) }
    ensures plain { OnlyRises (N.is_plain over.old.nodes) (N.is_plain over.new.nodes) }
    ensures slots { N.slots over.new.nodes ≡ N.slots over.old.nodes }
    ensures over { M.over over.new.names ≡ M.over over.old.names }
{
    match over.evaluate(tree, steps) {
        Ok(outcome) => keep(over, node, tree, outcome, steps),
        Err(_) => {}
    }
}

// The tree of a hub gave this outcome.
fn share<N: Nodes + Drop, M: Names + Drop, S: Steps>(
    over: &mut Evaluator<N, M>,
    hub: Link,
    tree: Link,
    outcome: Outcome,
    steps: &mut S,
)
    ensures does { Does (λ w. Both (N.stands over.old.nodes) (M.stands over.old.names) w ×
        BranchesOutlive hub.number.0 tree.number.0 w)
        (Both (N.stands over.new.nodes) (M.stands over.new.names))
        (kept_then (branches_announced hub.number.0) hub.number.0 tree.number.0 (Some outcome))
        (λ s. s) (S.told steps.old) (S.told steps.new) }
    ensures lacks { S.lacks steps.new ≡ S.lacks steps.old }
    ensures plain { OnlyRises (N.is_plain over.old.nodes) (N.is_plain over.new.nodes) }
    ensures slots { N.slots over.new.nodes ≡ N.slots over.old.nodes }
    ensures over { M.over over.new.names ≡ M.over over.old.names }
{
    let keepers = &mut over.ground.keepers;
    keep_for_branches(
        &mut keepers.nodes,
        &mut keepers.names,
        &mut keepers.frames,
        &mut keepers.search,
        hub,
        tree,
        outcome,
        steps,
    );
}

/// The event of a hub: the same, and who listens to each branch is armed, in the order of making.
pub(crate) fn fire_sharing<N: Nodes + Drop, M: Names + Drop, S: Steps>(
    over: &mut Evaluator<N, M>,
    node: Link,
    tree: Link,
    steps: &mut S,
)
    ensures acts { Acts (Both (N.stands over.old.nodes) (M.stands over.old.names))
        (Both (N.stands over.new.nodes) (M.stands over.new.names)) N.rule
        (From (Shares tree) node.number.0) (fired node.number.0) (λ s. s) (S.told steps.old)
        (S.told steps.new) (S.lacks steps.old) (S.lacks steps.new) }
    ensures plain { OnlyRises (N.is_plain over.old.nodes) (N.is_plain over.new.nodes) }
    ensures slots { N.slots over.new.nodes ≡ N.slots over.old.nodes }
    ensures over { M.over over.new.names ≡ M.over over.old.names }
{
    match over.evaluate(tree, steps) {
        Ok(outcome) => share(over, node, tree, outcome, steps),
        Err(_) => {}
    }
}
