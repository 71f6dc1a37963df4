//! Commands that build a node which listens, over the tree of a source.
ghost use Rattle.std.specs.Prelude.{◌≡◌, ◌+◌, ◌<◌, ◌≤◌, ◌^◌, [], ◌∷◌, None, Some, IsTrue};
ghost use Rattle.kj_base.specs.Commands.{step_of};
ghost use Rattle.kj_base.specs.Places.{row};
ghost use Rattle.kj_model.specs.World.{World, Promise, held_at};
ghost use Rattle.kj_model.specs.Effects.{chain_built, fork_built, over_built, over_listening};
ghost use Rattle.kj_model.specs.Changes.{unnamed};
ghost use Rattle.promise_nodes.specs.Kept.{OnlyRises};
ghost use Rattle.promise_names.specs.Held.{AreFree, IsListless};
ghost use Rattle.promise_apply.specs.Building.{over_shown, then_shown, Both};

use crate::building::{Over, build_over, take_source};
use kj_base::{Content, Form, Link, Name, StepId};
use promise_listening::listen;
use promise_names::{Held, Names};
use promise_nodes::Nodes;

/// A node over the tree of a source, which a new name promises; it listens (kj/async.h, `eagerlyEvaluate`).
pub fn build_listening<N: Nodes, M: Names>(
    nodes: &mut N,
    names: &mut M,
    name: Name,
    source: Name,
    root: Link,
    over: Over,
)
    requires source { M.roots names.old source.0 ≡ Some root.number.0 }
    requires fits { IsTrue (N.room nodes.old (row (Some root.number.0) 1 ∷ [])) }
    requires numbers { N.next nodes.old < 2 ^ 63 + 8 }
    requires room { M.count names.old ≤ M.limit names.old }
    requires free { AreFree (M.roots names.old) (N.is_taken nodes.old) (N.next nodes.old) }
    ensures stands { (w : World) → Both (N.stands nodes.old) (M.stands names.old) w
        → held_at source.0 w.names ≡ Some (Promise root.number.0)
        → IsListless (held_at name.0 (over_built (over_shown over) source.0 w).names)
        → Both (N.stands nodes.new) (M.stands names.new)
        (over_listening name.0 (over_shown over) source.0 w) }
    ensures free { AreFree (M.roots names.new) (N.is_taken nodes.new) (N.next nodes.new) }
    ensures few { M.count names.new ≤ M.count names.old }
    ensures limit { M.limit names.new ≡ M.limit names.old }
    ensures slots { N.slots nodes.new ≡ N.slots nodes.old }
    ensures plain { OnlyRises (N.is_plain nodes.old) (N.is_plain nodes.new) }
    ensures over { M.over names.new ≡ M.over names.old }
{
    build_over(nodes, names, name, source, root, over);
    listen(nodes, root);
}

/// A Then over the tree of a source, and the Chain over it, which listens (kj/async.h, `then` with a continuation
/// that gives a promise).
pub fn build_chain<N: Nodes, M: Names>(
    nodes: &mut N,
    names: &mut M,
    name: Name,
    source: Name,
    root: Link,
    value: Option<StepId>,
    error: Option<StepId>,
)
    requires source { M.roots names.old source.0 ≡ Some root.number.0 }
    requires fits { IsTrue (N.room nodes.old (row (Some root.number.0) 2 ∷ [])) }
    requires numbers { N.next nodes.old < 2 ^ 63 + 8 }
    requires room { M.count names.old ≤ M.limit names.old }
    requires free { AreFree (M.roots names.old) (N.is_taken nodes.old) (N.next nodes.old) }
    ensures stands { (w : World) → Both (N.stands nodes.old) (M.stands names.old) w
        → held_at source.0 w.names ≡ Some (Promise root.number.0)
        → IsListless (held_at name.0 (over_built (then_shown value error) source.0 w).names)
        → Both (N.stands nodes.new) (M.stands names.new)
        (chain_built name.0 source.0 (step_of value) (step_of error) w) }
    ensures free { AreFree (M.roots names.new) (N.is_taken nodes.new) (N.next nodes.new) }
    ensures few { M.count names.new ≤ M.count names.old }
    ensures limit { M.limit names.new ≡ M.limit names.old }
    ensures slots { N.slots nodes.new ≡ N.slots nodes.old }
    ensures plain { OnlyRises (N.is_plain nodes.old) (N.is_plain nodes.new) }
    ensures over { M.over names.new ≡ M.over names.old }
{
    let then = take_source(nodes, names, source, root, Over::Then { value, error });
    let chain = nodes.build(Some(then), Form::Chain { link: then });
    names.set(name, Held::Promise(chain));
    listen(nodes, then);
}

/// A hub over the tree of a source, whose name goes; it listens (kj/async.h, `fork`).
pub fn build_fork<N: Nodes, M: Names>(
    nodes: &mut N,
    names: &mut M,
    hub: Name,
    source: Name,
    root: Link,
)
    requires source { M.roots names.old source.0 ≡ Some root.number.0 }
    requires fits { IsTrue (N.room nodes.old (row None 1 ∷ [])) }
    requires numbers { N.next nodes.old < 2 ^ 63 + 8 }
    requires room { M.count names.old ≤ M.limit names.old }
    requires free { AreFree (M.roots names.old) (N.is_taken nodes.old) (N.next nodes.old) }
    ensures stands { (w : World) → Both (N.stands nodes.old) (M.stands names.old) w
        → held_at source.0 w.names ≡ Some (Promise root.number.0)
        → IsListless (held_at hub.0 (unnamed source.0 w).names)
        → Both (N.stands nodes.new) (M.stands names.new) (fork_built hub.0 source.0 w) }
    ensures free { AreFree (M.roots names.new) (N.is_taken nodes.new) (N.next nodes.new) }
    ensures few { M.count names.new ≤ M.count names.old }
    ensures limit { M.limit names.new ≡ M.limit names.old }
    ensures slots { N.slots nodes.new ≡ N.slots nodes.old }
    ensures plain { OnlyRises (N.is_plain nodes.old) (N.is_plain nodes.new) }
    ensures over { M.over names.new ≡ M.over names.old }
{
    names.remove(source);
    let node = nodes.build(
        None,
        Form::Hub {
            content: Content::Tree(root),
            is_named: true,
        },
    );
    names.set(hub, Held::HubOf(node));
    listen(nodes, root);
}
