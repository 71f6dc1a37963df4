//! What sets hold, and commands that build in them.
ghost use Rattle.std.specs.Prelude.{◌≡◌, ◌+◌, ◌<◌, ◌≤◌, ◌^◌, [], ◌∷◌, ℕ, Option, None, Some, IsTrue};
ghost use Rattle.kj_base.specs.Commands.{Command as CommandSeen};
ghost use Rattle.kj_base.specs.Places.{row};
ghost use Rattle.kj_model.specs.Nodes.{Ready};
ghost use Rattle.kj_model.specs.Outcomes.{void};
ghost use Rattle.kj_model.specs.World.{World, Promise, held_at};
ghost use Rattle.kj_model.specs.Uses.{use_as, IsNew, IsGroup, IsGroupAlone, IsSource};
ghost use Rattle.kj_model.specs.Effects.{added, empty_built};
ghost use Rattle.kj_model.specs.Apply.{anew, before_source};
ghost use Rattle.promise_commands.specs.Refusals.{refusal_of};
ghost use Rattle.promise_nodes.specs.Shown.{shown};
ghost use Rattle.promise_nodes.specs.Kept.{OnlyRises};
ghost use Rattle.promise_names.specs.Held.{AreFree};
ghost use Rattle.promise_apply.specs.Building.{Both};
ghost use Rattle.promise_apply.specs.Sets.{IsTasks, SeesTasks};
ghost use Rattle.promise_apply.specs.Applying.{Applies, IsCommand};

use crate::building::{Over, build_leaf, take_source};
use crate::naming::{Role, Use};
use crate::refusing::check;
use crate::sources::root_named;
use kj_base::{Form, Link, Name, Outcome, Words};
use promise_commands::Refused;
use promise_listening::listen;
use promise_names::{Held, Names};
use promise_nodes::{NodeRow, Nodes};

/// How many tasks a set has, and the cell that waits until it is empty.
#[derive(Clone, Copy, Debug, PartialEq, Eq)]
pub struct Tasks {
    pub count: u64,
    pub empty: Option<Link>,
}

/// The tasks of a set.
pub(crate) fn tasks_named<M: Names>(names: &M, group: Name) -> Option<Tasks>
    ensures { (w : World) → M.stands names.now w → SeesTasks result (held_at group.0 w.names) }
{
    match names.get(group) {
        Some(Held::Group { tasks, empty, .. }) => Some(Tasks {
            count: tasks,
            empty,
        }),
        _ => None,
    }
}

/// A Task over the tree of a source, the newest of a set; it listens (kj/async.h, `TaskSet::add`).
pub(crate) fn add_task<N: Nodes, M: Names>(
    nodes: &mut N,
    names: &mut M,
    group: Name,
    tasks: Tasks,
    source: Name,
    root: Link,
)
    requires source { M.roots names.old source.0 ≡ Some root.number.0 }
    requires fits { IsTrue (N.room nodes.old (row (Some root.number.0) 1 ∷ [])) }
    requires numbers { N.next nodes.old < 2 ^ 63 + 8 }
    requires free { AreFree (M.roots names.old) (N.is_taken nodes.old) (N.next nodes.old) }
    ensures stands { (w : World) → Both (N.stands nodes.old) (M.stands names.old) w
        → IsTasks tasks (held_at group.0 w.names)
        → held_at source.0 w.names ≡ Some (Promise root.number.0)
        → Both (N.stands nodes.new) (M.stands names.new) (added group.0 source.0 w) }
    ensures free { AreFree (M.roots names.new) (N.is_taken nodes.new) (N.next nodes.new) }
    ensures few { M.count names.new ≤ M.count names.old }
    ensures limit { M.limit names.new ≡ M.limit names.old }
    ensures slots { N.slots nodes.new ≡ N.slots nodes.old }
    ensures plain { OnlyRises (N.is_plain nodes.old) (N.is_plain nodes.new) }
    ensures over { M.over names.new ≡ M.over names.old }
{
    let task = take_source(nodes, names, source, root, Over::Task);
    nodes.join_list(task, group);
    // Each task was built, and stands once: there are never so many.
    let count = tasks.count.saturating_add(1);
    names.regroup(group, count, tasks.empty);
    listen(nodes, root);
}

/// A Task over a source, in a set.
pub(crate) fn apply_add<N: Nodes, M: Names>(
    nodes: &mut N,
    names: &mut M,
    group: Name,
    source: Name,
) -> Result<(), Refused>
    requires free { AreFree (M.roots names.old) (N.is_taken nodes.old) (N.next nodes.old) }
    requires few { M.count names.old ≤ M.limit names.old }
    ensures applied { (c : CommandSeen)
        → IsCommand c (use_as IsGroup group.0 ∷ use_as IsSource source.0 ∷ [])
        (λ w. before_source 1 source.0 w ∷ []) (added group.0 source.0)
        → Applies (Both (N.stands nodes.old) (M.stands names.old))
        (Both (N.stands nodes.new) (M.stands names.new)) N.rule (refusal_of result) c }
    ensures free { AreFree (M.roots names.new) (N.is_taken nodes.new) (N.next nodes.new) }
    ensures few { M.count names.new ≤ M.limit names.new }
    ensures limit { M.limit names.new ≡ M.limit names.old }
    ensures slots { N.slots nodes.new ≡ N.slots nodes.old }
    ensures plain { OnlyRises (N.is_plain nodes.old) (N.is_plain nodes.new) }
    ensures over { M.over names.new ≡ M.over names.old }
{
    let uses = [
        Use {
            role: Role::Group,
            name: group,
        },
        Use {
            role: Role::Source,
            name: source,
        },
    ];
    let root = root_named(names, source);
    check(
        nodes,
        names,
        &uses,
        &[NodeRow {
            before: root,
            count: 1,
        }],
    )?;
    let Some(tasks) = tasks_named(names, group) else {
        return Ok(());
    };
    match root {
        Some(root) => {
            add_task(nodes, names, group, tasks, source, root);
            Ok(())
        }
        None => Ok(()),
    }
}

fn ready_with_nothing() -> Form
    ensures { shown [] result ≡ Ready void }
{
    Form::Ready {
        outcome: Outcome::Value(Words::new()),
    }
}

/// A leaf that is ready where a set is empty, else a cell that waits until it is (kj/async.h, `TaskSet::onEmpty`).
pub(crate) fn build_empty<N: Nodes, M: Names>(
    nodes: &mut N,
    names: &mut M,
    name: Name,
    group: Name,
    tasks: Tasks,
)
    requires fits { IsTrue (N.room nodes.old (row None 1 ∷ [])) }
    requires numbers { N.next nodes.old < 2 ^ 63 + 8 }
    requires room { M.count names.old < M.limit names.old }
    requires free { AreFree (M.roots names.old) (N.is_taken nodes.old) (N.next nodes.old) }
    ensures stands { (w : World) → Both (N.stands nodes.old) (M.stands names.old) w
        → IsTasks tasks (held_at group.0 w.names) → held_at name.0 w.names ≡ None
        → Both (N.stands nodes.new) (M.stands names.new) (empty_built name.0 group.0 w) }
    ensures free { AreFree (M.roots names.new) (N.is_taken nodes.new) (N.next nodes.new) }
    ensures few { M.count names.new ≤ M.count names.old + 1 }
    ensures limit { M.limit names.new ≡ M.limit names.old }
    ensures slots { N.slots nodes.new ≡ N.slots nodes.old }
    ensures plain { OnlyRises (N.is_plain nodes.old) (N.is_plain nodes.new) }
    ensures over { M.over names.new ≡ M.over names.old }
{
    if tasks.count == 0 {
        build_leaf(nodes, names, name, ready_with_nothing());
        return;
    }
    let cell = build_leaf(nodes, names, name, Form::Cell { outcome: None });
    names.regroup(group, tasks.count, Some(cell));
}

/// A promise that a set is empty.
pub(crate) fn apply_empty<N: Nodes, M: Names>(
    nodes: &mut N,
    names: &mut M,
    name: Name,
    group: Name,
) -> Result<(), Refused>
    requires free { AreFree (M.roots names.old) (N.is_taken nodes.old) (N.next nodes.old) }
    requires few { M.count names.old ≤ M.limit names.old }
    ensures applied { (c : CommandSeen)
        → IsCommand c (use_as IsNew name.0 ∷ use_as IsGroupAlone group.0 ∷ []) (λ w. anew 1 ∷ [])
        (empty_built name.0 group.0) → Applies (Both (N.stands nodes.old) (M.stands names.old))
        (Both (N.stands nodes.new) (M.stands names.new)) N.rule (refusal_of result) c }
    ensures free { AreFree (M.roots names.new) (N.is_taken nodes.new) (N.next nodes.new) }
    ensures few { M.count names.new ≤ M.limit names.new }
    ensures limit { M.limit names.new ≡ M.limit names.old }
    ensures slots { N.slots nodes.new ≡ N.slots nodes.old }
    ensures plain { OnlyRises (N.is_plain nodes.old) (N.is_plain nodes.new) }
    ensures over { M.over names.new ≡ M.over names.old }
{
    let uses = [
        Use {
            role: Role::New,
            name,
        },
        Use {
            role: Role::GroupAlone,
            name: group,
        },
    ];
    check(
        nodes,
        names,
        &uses,
        &[NodeRow {
            before: None,
            count: 1,
        }],
    )?;
    match tasks_named(names, group) {
        Some(tasks) => {
            build_empty(nodes, names, name, group, tasks);
            Ok(())
        }
        None => Ok(()),
    }
}
