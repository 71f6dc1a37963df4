//! Commands that build one node.
ghost use Rattle.std.specs.Prelude.{◌≡◌, ◌+◌, ◌<◌, ◌≤◌, ◌^◌, [], ◌∷◌, ℕ, List, Option, None, Some, false, IsTrue};
ghost use Rattle.kj_base.specs.Places.{Row as RowSeen, row};
ghost use Rattle.kj_model.specs.World.{World, Promise, held_at};
ghost use Rattle.kj_model.specs.Nodes.{parts_of, form_at, Task};
ghost use Rattle.kj_model.specs.Effects.{leaf_built, over_built, over_named, detached_built};
ghost use Rattle.promise_nodes.specs.Shown.{shown};
ghost use Rattle.promise_nodes.specs.Kept.{AreRowsBuilt, OnlyRises, RisesIn, rows_left};
ghost use Rattle.promise_names.specs.Held.{AreFree, HasRoot, IsListless};
ghost use Rattle.promise_apply.specs.Building.{over_shown, Both};

use kj_base::{Content, Form, Link, Name, Stage, StepId};
use promise_listening::listen;
use promise_names::{Held, Names};
use promise_nodes::Nodes;

/// A node that is built over one tree.
#[derive(Clone, Copy, Debug, PartialEq, Eq)]
pub enum Over {
    /// A step for a value and a step for an exception.
    Then {
        value: Option<StepId>,
        error: Option<StepId>,
    },
    Eager,
    Wrap {
        canceler: Name,
    },
    Task,
    /// One part of a race or a join.
    Side,
}

fn form_over(over: Over, tree: Link) -> Form
    ensures form { shown [] result ≡ over_shown over tree.number.0 }
    ensures parts { parts_of (shown [] result) ≡ tree.number.0 ∷ [] }
{
    match over {
        Over::Then { value, error } => Form::Then {
            value,
            error,
            tree: Some(tree),
        },
        Over::Eager => Form::Eager {
            content: Content::Tree(tree),
        },
        Over::Wrap { canceler } => Form::Wrap {
            canceler,
            content: Content::Tree(tree),
        },
        Over::Task => Form::Task { tree: Some(tree) },
        Over::Side => Form::Side {
            stage: Stage::Waits(tree),
        },
    }
}

/// A leaf that a new name promises (kj/async.h: a constant promise, `evalLater`, `evalLast`, `newPromiseAndFulfiller`).
pub fn build_leaf<N: Nodes, M: Names>(nodes: &mut N, names: &mut M, name: Name, form: Form) -> Link
    requires leaf { parts_of (shown [] form) ≡ [] }
    requires fits { IsTrue (N.room nodes.old (row None 1 ∷ [])) }
    requires numbers { N.next nodes.old < 2 ^ 63 + 8 }
    requires room { M.count names.old < M.limit names.old }
    requires free { AreFree (M.roots names.old) (N.is_taken nodes.old) (N.next nodes.old) }
    ensures number { result.number.0 ≡ N.next nodes.old }
    ensures stands { (w : World)
        → Both (N.stands nodes.old) (M.stands names.old) w → IsListless (held_at name.0 w.names)
        → Both (N.stands nodes.new) (M.stands names.new) (leaf_built name.0 (shown [] form) w) }
    ensures free { AreFree (M.roots names.new) (N.is_taken nodes.new) (N.next nodes.new) }
    ensures next { N.next nodes.new ≡ N.next nodes.old + 1 }
    ensures anew { (w : World) → N.stands nodes.old w → form_at (N.next nodes.old) w.nodes ≡ None }
    ensures unlisted { N.is_listed nodes.new result.number.0 ≡ false }
    ensures few { M.count names.new ≤ M.count names.old + 1 }
    ensures limit { M.limit names.new ≡ M.limit names.old }
    ensures slots { N.slots nodes.new ≡ N.slots nodes.old }
    ensures plain { OnlyRises (N.is_plain nodes.old) (N.is_plain nodes.new) }
    ensures over { M.over names.new ≡ M.over names.old }
{
    let leaf = nodes.build(None, form);
    names.set(name, Held::Promise(leaf));
    leaf
}

// A node over the tree of a source, whose name goes.
pub(crate) fn take_source<N: Nodes, M: Names>(
    nodes: &mut N,
    names: &mut M,
    source: Name,
    root: Link,
    over: Over,
) -> Link
    requires source { M.roots names.old source.0 ≡ Some root.number.0 }
    requires fits { IsTrue (N.room nodes.old (row (Some root.number.0) 1 ∷ [])) }
    requires numbers { N.next nodes.old < 2 ^ 63 + 8 }
    requires free { AreFree (M.roots names.old) (N.is_taken nodes.old) (N.next nodes.old) }
    ensures number { result.number.0 ≡ N.next nodes.old }
    ensures stands { (w : World) → Both (N.stands nodes.old) (M.stands names.old) w
        → held_at source.0 w.names ≡ Some (Promise root.number.0)
        → Both (N.stands nodes.new) (M.stands names.new) (over_built (over_shown over) source.0 w) }
    ensures free { AreFree (M.roots names.new) (N.is_taken nodes.new) (N.next nodes.old) }
    ensures rest { (more : List RowSeen) (count : ℕ)
        → 0 < count → AreRowsBuilt (N.next nodes.old) more
        → IsTrue (N.room nodes.old (row (Some root.number.0) count ∷ more))
        → IsTrue (N.room nodes.new (rows_left (N.next nodes.old) count more)) }
    ensures roots { HasRoot (M.roots names.old) (M.roots names.new) source.0 None }
    ensures root { N.is_taken nodes.new result.number.0 ≡ false }
    ensures taken { RisesIn (root.number.0 ∷ []) (N.is_taken nodes.old) (N.is_taken nodes.new) }
    ensures next { N.next nodes.new ≡ N.next nodes.old + 1 }
    ensures count { M.count names.new + 1 ≡ M.count names.old }
    ensures limit { M.limit names.new ≡ M.limit names.old }
    ensures slots { N.slots nodes.new ≡ N.slots nodes.old }
    ensures plain { OnlyRises (N.is_plain nodes.old) (N.is_plain nodes.new) }
    ensures over { M.over names.new ≡ M.over names.old }
{
    names.remove(source);
    nodes.build(Some(root), form_over(over, root))
}

/// A node over the tree of a source, whose name goes, and which a new name promises (kj/async.h, `then`).
pub fn build_over<N: Nodes, M: Names>(
    nodes: &mut N,
    names: &mut M,
    name: Name,
    source: Name,
    root: Link,
    over: Over,
) -> Link
    requires source { M.roots names.old source.0 ≡ Some root.number.0 }
    requires fits { IsTrue (N.room nodes.old (row (Some root.number.0) 1 ∷ [])) }
    requires numbers { N.next nodes.old < 2 ^ 63 + 8 }
    requires room { M.count names.old ≤ M.limit names.old }
    requires free { AreFree (M.roots names.old) (N.is_taken nodes.old) (N.next nodes.old) }
    ensures number { result.number.0 ≡ N.next nodes.old }
    ensures stands { (w : World) → Both (N.stands nodes.old) (M.stands names.old) w
        → held_at source.0 w.names ≡ Some (Promise root.number.0)
        → IsListless (held_at name.0 (over_built (over_shown over) source.0 w).names) → Both
        (N.stands nodes.new) (M.stands names.new) (over_named name.0 (over_shown over) source.0 w) }
    ensures free { AreFree (M.roots names.new) (N.is_taken nodes.new) (N.next nodes.new) }
    ensures next { N.next nodes.new ≡ N.next nodes.old + 1 }
    ensures few { M.count names.new ≤ M.count names.old }
    ensures limit { M.limit names.new ≡ M.limit names.old }
    ensures slots { N.slots nodes.new ≡ N.slots nodes.old }
    ensures plain { OnlyRises (N.is_plain nodes.old) (N.is_plain nodes.new) }
    ensures over { M.over names.new ≡ M.over names.old }
{
    let node = take_source(nodes, names, source, root, over);
    names.set(name, Held::Promise(node));
    node
}

/// A Task over the tree of a source, in the loop's own set; it listens (kj/async.h, `detach`).
pub fn detach<N: Nodes, M: Names>(nodes: &mut N, names: &mut M, source: Name, root: Link)
    requires source { M.roots names.old source.0 ≡ Some root.number.0 }
    requires fits { IsTrue (N.room nodes.old (row (Some root.number.0) 1 ∷ [])) }
    requires numbers { N.next nodes.old < 2 ^ 63 + 8 }
    requires free { AreFree (M.roots names.old) (N.is_taken nodes.old) (N.next nodes.old) }
    ensures stands { (w : World) → Both (N.stands nodes.old) (M.stands names.old) w
        → held_at source.0 w.names ≡ Some (Promise root.number.0)
        → Both (N.stands nodes.new) (M.stands names.new) (detached_built source.0 w) }
    ensures free { AreFree (M.roots names.new) (N.is_taken nodes.new) (N.next nodes.new) }
    ensures next { N.next nodes.new ≡ N.next nodes.old + 1 }
    ensures few { M.count names.new ≤ M.count names.old }
    ensures limit { M.limit names.new ≡ M.limit names.old }
    ensures slots { N.slots nodes.new ≡ N.slots nodes.old }
    ensures plain { OnlyRises (N.is_plain nodes.old) (N.is_plain nodes.new) }
    ensures over { M.over names.new ≡ M.over names.old }
{
    let task = take_source(nodes, names, source, root, Over::Task);
    nodes.enlist(task);
    listen(nodes, root);
}
