//! The Side of a race or a join that fires.
ghost use Rattle.std.specs.Prelude.{◌≡◌, true, false, None, Some};
ghost use Rattle.kj_model.specs.Nodes.{Race, Join, Side, Waits as WaitsStage, form_at};
ghost use Rattle.kj_model.specs.World.{World};
ghost use Rattle.kj_model.specs.Fire.{all_fired, fast_announced, kept_then, race_won};
ghost use Rattle.promise_nodes.specs.Kept.{IsLive, OnlyRises};
ghost use Rattle.promise_nodes.specs.Shown.{next_number, node_number};
ghost use Rattle.promise_walks.specs.Walks.{Both, Does};
ghost use Rattle.promise_firing.specs.Outliving.{Outlives};
ghost use Rattle.promise_firing.specs.Stages.{MayWin, loser, sides_of};
ghost use Rattle.promise_turns.specs.declared.looks.Event.TheVariants.{Waits};
ghost use Rattle.promise_turns.specs.Acting.{Acts};
ghost use Rattle.promise_turns.specs.Events.{From, FromUnder, fired};

use crate::looks::{above, is_fast_ready};
use kj_base::{Link, NodeId, Outcome};
use promise_commands::Steps;
use promise_eval::Evaluator;
use promise_firing::{Above, Joined, count_side, keep_side, win_race};
use promise_names::Names;
use promise_nodes::Nodes;

// The first Side of a Race has fired.
fn win<N: Nodes + Drop, M: Names + Drop, S: Steps>(
    over: &mut Evaluator<N, M>,
    race: Link,
    left: Link,
    side: Link,
    tree: Link,
    steps: &mut S,
)
    ensures does { Does (λ w. Both (N.stands over.old.nodes) (M.stands over.old.names) w × MayWin
        race.number.0 left.number.0 side.number.0 tree.number.0 w)
        (Both (N.stands over.new.nodes) (M.stands over.new.names))
        (race_won race.number.0 left.number.0 (next_number left.number.0) side.number.0
        (loser left.number.0 side.number.0) tree.number.0) (λ s. s) (S.told steps.old)
        (S.told steps.new) }
    ensures lacks { S.lacks steps.new ≡ S.lacks steps.old }
    ensures plain { OnlyRises (N.is_plain over.old.nodes) (N.is_plain over.new.nodes) }
    ensures slots { N.slots over.new.nodes ≡ N.slots over.old.nodes }
    ensures over { M.over over.new.names ≡ M.over over.old.names }
{
    let keepers = &mut over.ground.keepers;
    win_race(
        &mut keepers.nodes,
        &mut keepers.names,
        &mut keepers.frames,
        &mut keepers.search,
        race,
        left,
        side,
        tree,
        steps,
    );
}

// A Side of a Race: the first one wins, and the other does nothing.
fn fire_under_race<N: Nodes + Drop, M: Names + Drop, S: Steps>(
    over: &mut Evaluator<N, M>,
    race: Link,
    left: Link,
    winner: Option<NodeId>,
    node: Link,
    tree: Link,
    steps: &mut S,
)
    ensures acts { Acts (Both (N.stands over.old.nodes) (M.stands over.old.names))
        (Both (N.stands over.new.nodes) (M.stands over.new.names)) N.rule
        (FromUnder tree race.number.0
        (Race left.number.0 (next_number left.number.0) (node_number winner)) node.number.0)
        (fired node.number.0) (λ s. s) (S.told steps.old) (S.told steps.new) (S.lacks steps.old)
        (S.lacks steps.new) }
    ensures plain { OnlyRises (N.is_plain over.old.nodes) (N.is_plain over.new.nodes) }
    ensures slots { N.slots over.new.nodes ≡ N.slots over.old.nodes }
    ensures over { M.over over.new.names ≡ M.over over.old.names }
{
    match winner {
        None => win(over, race, left, node, tree, steps),
        Some(_) => {}
    }
}

// A Side of an All has fired, and it counts.
fn count<N: Nodes + Drop, M: Names + Drop>(
    over: &mut Evaluator<N, M>,
    joined: Joined,
    side: Link,
    tree: Link,
)
    ensures nodes { (w : World)
        → N.stands over.old.nodes w
        → form_at side.number.0 w.nodes ≡ Some (Side (WaitsStage tree.number.0))
        → IsLive w joined.join.number.0
        → N.stands over.new.nodes
        (all_fired joined.join.number.0 (sides_of joined) side.number.0 tree.number.0 w) }
    ensures names { over.new.names ≡ over.old.names }
    ensures plain { OnlyRises (N.is_plain over.old.nodes) (N.is_plain over.new.nodes) }
    ensures slots { N.slots over.new.nodes ≡ N.slots over.old.nodes }
{
    count_side(&mut over.ground.keepers.nodes, joined, side, tree);
}

// A Side of an All only counts.
fn fire_under_all<N: Nodes + Drop, M: Names + Drop, S: Steps>(
    over: &mut Evaluator<N, M>,
    joined: Joined,
    node: Link,
    tree: Link,
    steps: &mut S,
)
    ensures acts { Acts (Both (N.stands over.old.nodes) (M.stands over.old.names))
        (Both (N.stands over.new.nodes) (M.stands over.new.names)) N.rule
        (FromUnder tree joined.join.number.0 (Join false (sides_of joined)) node.number.0)
        (fired node.number.0) (λ s. s) (S.told steps.old) (S.told steps.new) (S.lacks steps.old)
        (S.lacks steps.new) }
    ensures plain { OnlyRises (N.is_plain over.old.nodes) (N.is_plain over.new.nodes) }
    ensures slots { N.slots over.new.nodes ≡ N.slots over.old.nodes }
    ensures over { M.over over.new.names ≡ M.over over.old.names }
{
    count(over, joined, node, tree);
}

// The tree of a fast join's Side gave this outcome.
fn keep<N: Nodes + Drop, M: Names + Drop, S: Steps>(
    over: &mut Evaluator<N, M>,
    joined: Joined,
    was_ready: bool,
    side: Link,
    tree: Link,
    outcome: Outcome,
    steps: &mut S,
)
    ensures does { Does (λ w. Both (N.stands over.old.nodes) (M.stands over.old.names) w ×
        Outlives joined.join.number.0 tree.number.0 w)
        (Both (N.stands over.new.nodes) (M.stands over.new.names))
        (kept_then (fast_announced was_ready joined.join.number.0 (sides_of joined)) side.number.0
        tree.number.0 (Some outcome)) (λ s. s) (S.told steps.old) (S.told steps.new) }
    ensures lacks { S.lacks steps.new ≡ S.lacks steps.old }
    ensures plain { OnlyRises (N.is_plain over.old.nodes) (N.is_plain over.new.nodes) }
    ensures slots { N.slots over.new.nodes ≡ N.slots over.old.nodes }
    ensures over { M.over over.new.names ≡ M.over over.old.names }
{
    let keepers = &mut over.ground.keepers;
    keep_side(
        &mut keepers.nodes,
        &mut keepers.names,
        &mut keepers.frames,
        &mut keepers.search,
        joined,
        was_ready,
        side,
        tree,
        outcome,
        steps,
    );
}

// A Side of a fast join keeps its outcome; who listens to the join is armed where it became ready by that.
fn fire_under_fast<N: Nodes + Drop, M: Names + Drop, S: Steps>(
    over: &mut Evaluator<N, M>,
    joined: Joined,
    node: Link,
    tree: Link,
    steps: &mut S,
)
    ensures acts { Acts (Both (N.stands over.old.nodes) (M.stands over.old.names))
        (Both (N.stands over.new.nodes) (M.stands over.new.names)) N.rule
        (FromUnder tree joined.join.number.0 (Join true (sides_of joined)) node.number.0)
        (fired node.number.0) (λ s. s) (S.told steps.old) (S.told steps.new) (S.lacks steps.old)
        (S.lacks steps.new) }
    ensures plain { OnlyRises (N.is_plain over.old.nodes) (N.is_plain over.new.nodes) }
    ensures slots { N.slots over.new.nodes ≡ N.slots over.old.nodes }
    ensures over { M.over over.new.names ≡ M.over over.old.names }
{
    let was_ready = is_fast_ready(over, joined);
    match over.evaluate(tree, steps) {
        Ok(outcome) => keep(over, joined, was_ready, node, tree, outcome, steps),
        Err(_) => {}
    }
}

/// The event of a Side that waits, under what owns it.
pub(crate) fn fire_side<N: Nodes + Drop, M: Names + Drop, S: Steps>(
    over: &mut Evaluator<N, M>,
    node: Link,
    tree: Link,
    steps: &mut S,
)
    ensures acts { Acts (Both (N.stands over.old.nodes) (M.stands over.old.names))
        (Both (N.stands over.new.nodes) (M.stands over.new.names)) N.rule
        (From (Waits tree) node.number.0) (fired node.number.0) (λ s. s) (S.told steps.old)
        (S.told steps.new) (S.lacks steps.old) (S.lacks steps.new) }
    ensures plain { OnlyRises (N.is_plain over.old.nodes) (N.is_plain over.new.nodes) }
    ensures slots { N.slots over.new.nodes ≡ N.slots over.old.nodes }
    ensures over { M.over over.new.names ≡ M.over over.old.names }
{
    match above(over, node) {
        Above::Race { race, left, winner } => {
            fire_under_race(over, race, left, winner, node, tree, steps)
        }
        Above::Join {
            joined,
            is_fast: true,
        } => fire_under_fast(over, joined, node, tree, steps),
        Above::Join {
            joined,
            is_fast: false,
        } => fire_under_all(over, joined, node, tree, steps),
        Above::Nothing => {}
    }
}
