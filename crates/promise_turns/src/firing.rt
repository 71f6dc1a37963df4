//! The event of a node.
ghost use Rattle.std.specs.Prelude.{◌≡◌, ◌≤◌, [], length};
ghost use Rattle.promise_nodes.specs.Kept.{OnlyRises};
ghost use Rattle.promise_walks.specs.Walks.{Both};
ghost use Rattle.promise_turns.specs.Acting.{Acts};
ghost use Rattle.promise_turns.specs.Events.{FromNode, FromTaken, fired};

use crate::ending::{fire_chain, fire_task};
use crate::keeping::{fire_keeping, fire_sharing};
use crate::looks::{Event, look};
use crate::siding::fire_side;
use kj_base::Link;
use promise_commands::Steps;
use promise_eval::Evaluator;
use promise_names::Names;
use promise_nodes::Nodes;

// The event of a node fires, which is no Request.
fn fire_node<N: Nodes + Drop, M: Names + Drop, S: Steps>(
    over: &mut Evaluator<N, M>,
    node: Link,
    steps: &mut S,
)
    requires none_over { M.over over.old.names ≡ [] }
    ensures acts { Acts (Both (N.stands over.old.nodes) (M.stands over.old.names))
        (Both (N.stands over.new.nodes) (M.stands over.new.names)) N.rule (FromNode node.number.0)
        (fired node.number.0) (λ s. s) (S.told steps.old) (S.told steps.new) (S.lacks steps.old)
        (S.lacks steps.new) }
    ensures plain { OnlyRises (N.is_plain over.old.nodes) (N.is_plain over.new.nodes) }
    ensures slots { N.slots over.new.nodes ≡ N.slots over.old.nodes }
    ensures over { length (M.over over.new.names) ≤ 1 }
{
    match look(over, node) {
        Event::Takes(link) => fire_chain(over, node, link, steps),
        Event::Keeps(tree) => fire_keeping(over, node, tree, steps),
        Event::Shares(tree) => fire_sharing(over, node, tree, steps),
        Event::Waits(tree) => fire_side(over, node, tree, steps),
        Event::Ends(tree) => fire_task(over, node, tree, steps),
        Event::Requests => {}
        Event::Nothing => {}
    }
}

/// The event that was taken fires (kj/async-inl.h, `fire`), which is no Request's; the wait's, of number 0, does nothing.
pub(crate) fn fire<N: Nodes + Drop, M: Names + Drop, S: Steps>(
    over: &mut Evaluator<N, M>,
    node: Link,
    steps: &mut S,
)
    requires none_over { M.over over.old.names ≡ [] }
    ensures acts { Acts (Both (N.stands over.old.nodes) (M.stands over.old.names))
        (Both (N.stands over.new.nodes) (M.stands over.new.names)) N.rule
        (FromTaken node.number.0) (fired node.number.0) (λ s. s) (S.told steps.old)
        (S.told steps.new) (S.lacks steps.old) (S.lacks steps.new) }
    ensures plain { OnlyRises (N.is_plain over.old.nodes) (N.is_plain over.new.nodes) }
    ensures slots { N.slots over.new.nodes ≡ N.slots over.old.nodes }
    ensures over { length (M.over over.new.names) ≤ 1 }
{
    if node.number.0 == 0 {
        return;
    }
    fire_node(over, node, steps);
}
