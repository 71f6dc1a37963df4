//! A Task whose tree was evaluated.
ghost use Rattle.std.specs.Prelude.{◌≡◌, ◌++◌, ◌∷◌, [], ◌<◌, ℕ, None, true, length, vec_capacity};
ghost use Rattle.kj_base.specs.Commands.{step_of};
ghost use Rattle.kj_model.specs.World.{World};
ghost use Rattle.kj_model.specs.Nodes.{Task, dropped, is_in};
ghost use Rattle.kj_model.specs.Changes.{put};
ghost use Rattle.kj_model.specs.Fire.{group_error, group_left, group_of, set_left, task_gone};
ghost use Rattle.promise_nodes.specs.Kept.{IsLive, OnlyFalls, OnlyRises};
ghost use Rattle.promise_nodes.specs.Members.{lists_in};
ghost use Rattle.promise_walks.specs.Walks.{Both, Does};
ghost use Rattle.promise_firing.specs.Ending.{LeavesSet};
ghost use Rattle.promise_firing.specs.Ground.{IsSound, Keeps, ground};
ghost use Rattle.promise_firing.specs.Outliving.{Outlives};

use crate::going::drop_plain;
use kj_base::{Form, Link, Name, StepId};
use promise_commands::Steps;
use promise_names::{Held, Names};
use promise_nodes::Nodes;
use promise_walks::{Frame, Parts, announce_empty, free_part, put_bare};

// A Task leaves its set, which may be empty now; the error step of the set.
fn leave_group<N: Nodes, M: Names>(
    nodes: &mut N,
    names: &mut M,
    task: Link,
    group: Name,
) -> Option<StepId>
    ensures stands { (w : World) → Both (N.stands nodes.old) (M.stands names.old) w
        → is_in task.number.0 (lists_in w group.0) ≡ true
        → Both (N.stands nodes.new) (M.stands names.new)
        (group_left task.number.0 (group_of task.number.0 w.names) w) }
    ensures error { (w : World) → Both (N.stands nodes.old) (M.stands names.old) w
        → is_in task.number.0 (lists_in w group.0) ≡ true
        → step_of result ≡ group_error (group_of task.number.0 w.names) }
    ensures taken { OnlyFalls (N.is_taken nodes.old) (N.is_taken nodes.new) }
    ensures plain { OnlyRises (N.is_plain nodes.old) (N.is_plain nodes.new) }
    ensures next { N.next nodes.new ≡ N.next nodes.old }
    ensures slots { N.slots nodes.new ≡ N.slots nodes.old }
    ensures roots { (name : ℕ) → M.roots names.new name ≡ M.roots names.old name }
    ensures count { M.count names.new ≡ M.count names.old }
    ensures limit { M.limit names.new ≡ M.limit names.old }
    ensures over { M.over names.new ≡ M.over names.old }
{
    let Some(
        Held::Group {
            error,
            tasks,
            empty,
        },
    ) = names.get(group)
    else {
        return None;
    };
    nodes.leave_list(task, group);
    names.regroup(group, tasks.saturating_sub(1), empty);
    announce_empty(nodes, names, group);
    error
}

// A live Task has no tree now, and leaves its set or the loop's own; it is left over until it goes. The error step of the
// set, where it has one.
fn leave_set<N: Nodes, M: Names>(nodes: &mut N, names: &mut M, task: Link) -> Option<StepId>
    requires plain { N.is_plain nodes.old task.number.0 ≡ true }
    requires over { length (M.over names.old) < 2 }
    ensures stands { (w : World) → Both (N.stands nodes.old) (M.stands names.old) w
        → IsLive w task.number.0
        → Both (N.stands nodes.new) (M.stands names.new)
        (set_left task.number.0 (put task.number.0 (Task None) w)) }
    ensures error { (w : World) → Both (N.stands nodes.old) (M.stands names.old) w
        → IsLive w task.number.0
        → step_of result ≡ group_error (group_of task.number.0 w.names) }
    ensures taken { OnlyFalls (N.is_taken nodes.old) (N.is_taken nodes.new) }
    ensures plain { OnlyRises (N.is_plain nodes.old) (N.is_plain nodes.new) }
    ensures next { N.next nodes.new ≡ N.next nodes.old }
    ensures slots { N.slots nodes.new ≡ N.slots nodes.old }
    ensures roots { (name : ℕ) → M.roots names.new name ≡ M.roots names.old name }
    ensures count { M.count names.new ≡ M.count names.old }
    ensures limit { M.limit names.new ≡ M.limit names.old }
    ensures over { M.over names.new ≡ M.over names.old ++ task.number.0 ∷ [] }
{
    put_bare(nodes, task, Form::Task { tree: None });
    nodes.delist(task);
    names.leave_over(task);
    match nodes.list_of(task) {
        Some(group) => leave_group(nodes, names, task, group),
        None => None,
    }
}

/// The tree of a Task gave an outcome: it is freed, and the Task leaves its set, which may be empty now, or the loop's own.
/// It is left over until it is dropped. The error step of its set, which is to run before that on an exception.
pub fn end_task<N: Nodes, M: Names, S: Steps>(
    nodes: &mut N,
    names: &mut M,
    frames: &mut Vec<Frame>,
    search: &mut Vec<Parts>,
    task: Link,
    tree: Link,
    steps: &mut S,
) -> Option<StepId>
    requires plain { N.is_plain nodes.old task.number.0 ≡ true }
    requires over { length (M.over names.old) < 2 }
    requires sound { IsSound (ground (N.is_taken nodes.old) (N.is_plain nodes.old)
        (N.next nodes.old) (N.slots nodes.old) (M.roots names.old) (M.count names.old)
        (M.limit names.old) (vec_capacity frames.old) (vec_capacity search.old)) }
    ensures leaves { LeavesSet (λ w. Both (N.stands nodes.old) (M.stands names.old) w
        × Outlives task.number.0 tree.number.0 w)
        (Both (N.stands nodes.new) (M.stands names.new)) task.number.0 tree.number.0
        (step_of result) (S.told steps.old) (S.told steps.new) }
    ensures lacks { S.lacks steps.new ≡ S.lacks steps.old }
    ensures kept { Keeps (ground (N.is_taken nodes.old) (N.is_plain nodes.old)
        (N.next nodes.old) (N.slots nodes.old) (M.roots names.old)
        (M.count names.old) (M.limit names.old) (vec_capacity frames.old) (vec_capacity search.old))
        (ground (N.is_taken nodes.new) (N.is_plain nodes.new) (N.next nodes.new) (N.slots nodes.new)
        (M.roots names.new) (M.count names.new) (M.limit names.new) (vec_capacity frames.new)
        (vec_capacity search.new)) }
    ensures over { M.over names.new ≡ M.over names.old ++ task.number.0 ∷ [] }
{
    free_part(nodes, names, frames, search, tree, steps);
    leave_set(nodes, names, task)
}

/// A Task that left its set goes, and is no longer left over.
pub fn drop_task<N: Nodes, M: Names, S: Steps>(
    nodes: &mut N,
    names: &mut M,
    task: Link,
    steps: &mut S,
)
    requires plain { N.is_plain nodes.old task.number.0 ≡ true }
    ensures does { Does (Both (N.stands nodes.old) (M.stands names.old))
        (Both (N.stands nodes.new) (M.stands names.new)) (task_gone task.number.0) (λ s. s)
        (S.told steps.old) (S.told steps.new) }
    ensures lacks { S.lacks steps.new ≡ S.lacks steps.old }
    ensures taken { OnlyFalls (N.is_taken nodes.old) (N.is_taken nodes.new) }
    ensures plain { OnlyRises (N.is_plain nodes.old) (N.is_plain nodes.new) }
    ensures next { N.next nodes.new ≡ N.next nodes.old }
    ensures slots { N.slots nodes.new ≡ N.slots nodes.old }
    ensures roots { (name : ℕ) → M.roots names.new name ≡ M.roots names.old name }
    ensures count { M.count names.new ≡ M.count names.old }
    ensures limit { M.limit names.new ≡ M.limit names.old }
    ensures over { M.over names.new ≡ dropped task.number.0 (M.over names.old) }
{
    names.take_over(task);
    drop_plain(nodes, names, task, steps);
}
