//! The tasks of a set go.
ghost use Rattle.std.specs.Prelude.{◌≡◌, ◌≤◌, ◌+◌, [], ◌∷◌, ℕ, None, vec_capacity};
ghost use Rattle.kj_base.specs.Commands.{Clear};
ghost use Rattle.kj_model.specs.World.{World, held_at};
ghost use Rattle.kj_model.specs.Effects.{now_empty};
ghost use Rattle.kj_model.specs.Uses.{use_as, IsGroup};
ghost use Rattle.promise_commands.specs.Refusals.{refusal_of};
ghost use Rattle.promise_nodes.specs.Kept.{OnlyFalls, OnlyRises};
ghost use Rattle.promise_nodes.specs.Members.{lists_in};
ghost use Rattle.promise_nodes.specs.Shown.{link_number};
ghost use Rattle.promise_names.specs.Held.{AreFree, IsSet, regrouped};
ghost use Rattle.promise_walks.specs.Walks.{Does};
ghost use Rattle.promise_apply.specs.Building.{Both};
ghost use Rattle.promise_apply.specs.Applying.{DoesCommand, refused_first, refused_later};
ghost use Rattle.promise_apply.specs.Uses.{use_shown};
ghost use Rattle.promise_apply.specs.Dropping.{set_frees_firing};
ghost use Rattle.promise_apply.specs.Sets.{IsCleared, IsTasks, set_cleared, tasks_freed};

use crate::busy::set_frees_firing;
use crate::naming::{Role, Use};
use crate::refusing::{check_count, check_named};
use crate::sets::{Tasks, tasks_named};
use kj_base::Name;
use promise_commands::{Refused, Steps};
use promise_names::Names;
use promise_nodes::Nodes;
use promise_walks::{Frame, Parts, announce_empty, free_part};

// The tasks of a set go with their trees, newest first. They are still in the set then.
fn free_tasks<N: Nodes, M: Names, S: Steps>(
    nodes: &mut N,
    names: &mut M,
    frames: &mut Vec<Frame>,
    search: &mut Vec<Parts>,
    group: Name,
    steps: &mut S,
)
    requires set { (w : World) → Both (N.stands nodes.old) (M.stands names.old) w
        → IsSet (held_at group.0 w.names) }
    requires frames_room { N.slots nodes.old + 1 ≤ vec_capacity frames.old }
    requires search_room { N.slots nodes.old + 1 ≤ vec_capacity search.old }
    ensures does { Does (Both (N.stands nodes.old) (M.stands names.old))
        (Both (N.stands nodes.new) (M.stands names.new)) (tasks_freed group.0) (λ s. s)
        (S.told steps.old) (S.told steps.new) }
    ensures lacks { S.lacks steps.new ≡ S.lacks steps.old }
    ensures taken { OnlyFalls (N.is_taken nodes.old) (N.is_taken nodes.new) }
    ensures plain { OnlyRises (N.is_plain nodes.old) (N.is_plain nodes.new) }
    ensures next { N.next nodes.new ≡ N.next nodes.old }
    ensures slots { N.slots nodes.new ≡ N.slots nodes.old }
    ensures roots { (name : ℕ) → M.roots names.new name ≡ M.roots names.old name }
    ensures count { M.count names.new ≡ M.count names.old }
    ensures limit { M.limit names.new ≡ M.limit names.old }
    ensures over { M.over names.new ≡ M.over names.old }
    ensures frames_room { vec_capacity frames.old ≤ vec_capacity frames.new }
    ensures search_room { vec_capacity search.old ≤ vec_capacity search.new }
{
    let mut left = nodes.next();
    'freeing: while left > 0 {
        let Some(task) = nodes.newest_member(group) else {
            return;
        };
        free_part(nodes, names, frames, search, task, steps);
        left -= 1;
    }
}

// A set has no tasks now, and the cell that waits for this is settled.
fn end_tasks<N: Nodes, M: Names>(nodes: &mut N, names: &mut M, group: Name, tasks: Tasks)
    ensures stands { (w : World) → Both (N.stands nodes.old) (M.stands names.old) w
        → IsTasks tasks (held_at group.0 w.names) → IsCleared (Both (N.stands nodes.new)
        (M.stands names.new)) group.0
        (now_empty group.0 (regrouped group.0 [] (link_number tasks.empty) w)) }
    ensures taken { OnlyFalls (N.is_taken nodes.old) (N.is_taken nodes.new) }
    ensures plain { OnlyRises (N.is_plain nodes.old) (N.is_plain nodes.new) }
    ensures next { N.next nodes.new ≡ N.next nodes.old }
    ensures slots { N.slots nodes.new ≡ N.slots nodes.old }
    ensures roots { (name : ℕ) → M.roots names.new name ≡ M.roots names.old name }
    ensures count { M.count names.new ≡ M.count names.old }
    ensures limit { M.limit names.new ≡ M.limit names.old }
    ensures over { M.over names.new ≡ M.over names.old }
{
    nodes.clear_list(group);
    names.regroup(group, 0, tasks.empty);
    announce_empty(nodes, names, group);
}

/// The tasks of a set go, newest first, and where there was one, the set is empty now (kj/async.h, `TaskSet::clear`).
pub(crate) fn clear_tasks<N: Nodes, M: Names, S: Steps>(
    nodes: &mut N,
    names: &mut M,
    frames: &mut Vec<Frame>,
    search: &mut Vec<Parts>,
    group: Name,
    tasks: Tasks,
    steps: &mut S,
)
    requires tasks { (w : World) → M.stands names.old w
        → IsTasks tasks (held_at group.0 w.names) }
    requires frames_room { N.slots nodes.old + 1 ≤ vec_capacity frames.old }
    requires search_room { N.slots nodes.old + 1 ≤ vec_capacity search.old }
    ensures does { Does (Both (N.stands nodes.old) (M.stands names.old))
        (IsCleared (Both (N.stands nodes.new) (M.stands names.new)) group.0) (set_cleared group.0)
        (λ s. s) (S.told steps.old) (S.told steps.new) }
    ensures lacks { S.lacks steps.new ≡ S.lacks steps.old }
    ensures taken { OnlyFalls (N.is_taken nodes.old) (N.is_taken nodes.new) }
    ensures plain { OnlyRises (N.is_plain nodes.old) (N.is_plain nodes.new) }
    ensures next { N.next nodes.new ≡ N.next nodes.old }
    ensures slots { N.slots nodes.new ≡ N.slots nodes.old }
    ensures roots { (name : ℕ) → M.roots names.new name ≡ M.roots names.old name }
    ensures count { M.count names.new ≡ M.count names.old }
    ensures limit { M.limit names.new ≡ M.limit names.old }
    ensures over { M.over names.new ≡ M.over names.old }
    ensures frames_room { vec_capacity frames.old ≤ vec_capacity frames.new }
    ensures search_room { vec_capacity search.old ≤ vec_capacity search.new }
{
    if tasks.count == 0 {
        return;
    }
    free_tasks(nodes, names, frames, search, group, steps);
    end_tasks(nodes, names, group, tasks);
}

fn cleared(group: Name) -> Use
    ensures { use_shown result ≡ use_as IsGroup group.0 }
{
    Use {
        role: Role::Group,
        name: group,
    }
}

/// Why a command with which the tasks of a set go is refused, once its name passes.
pub(crate) fn check_tasks<N: Nodes, M: Names>(
    nodes: &mut N,
    names: &M,
    frames: &mut Vec<Frame>,
    used: Use,
) -> Result<(), Refused>
    requires room { N.slots nodes.old + 1 ≤ vec_capacity frames.old }
    ensures refusal { (w : World) → Both (N.stands nodes.old) (M.stands names.now) w
        → refused_first (use_shown used ∷ []) w ≡ None
        → refusal_of result ≡ refused_later (set_frees_firing w.firing (lists_in w used.name.0) w)
        N.rule (use_shown used) w }
    ensures stands { (w : World) → N.stands nodes.old w → N.stands nodes.new w }
    ensures taken { OnlyFalls (N.is_taken nodes.old) (N.is_taken nodes.new) }
    ensures plain { OnlyRises (N.is_plain nodes.old) (N.is_plain nodes.new) }
    ensures next { N.next nodes.new ≡ N.next nodes.old }
    ensures slots { N.slots nodes.new ≡ N.slots nodes.old }
    ensures room { vec_capacity frames.old ≤ vec_capacity frames.new }
{
    if set_frees_firing(nodes, frames, used.name) {
        return Err(Refused::Busy(used.name));
    }
    check_count(nodes, names, &[used])
}

// The tasks of a set go, unless it is refused.
fn try_clear<N: Nodes, M: Names, S: Steps>(
    nodes: &mut N,
    names: &mut M,
    frames: &mut Vec<Frame>,
    search: &mut Vec<Parts>,
    group: Name,
    tasks: Tasks,
    steps: &mut S,
) -> Result<(), Refused>
    requires passes { (w : World) → Both (N.stands nodes.old) (M.stands names.old) w
        → refused_first (use_as IsGroup group.0 ∷ []) w ≡ None }
    requires tasks { (w : World) → M.stands names.old w
        → IsTasks tasks (held_at group.0 w.names) }
    requires free { AreFree (M.roots names.old) (N.is_taken nodes.old) (N.next nodes.old) }
    requires few { M.count names.old ≤ M.limit names.old }
    requires frames_room { N.slots nodes.old + 1 ≤ vec_capacity frames.old }
    requires search_room { N.slots nodes.old + 1 ≤ vec_capacity search.old }
    ensures applied { DoesCommand (Both (N.stands nodes.old) (M.stands names.old))
        (Both (N.stands nodes.new) (M.stands names.new)) N.rule (refusal_of result) (Clear group.0)
        (S.told steps.old) (S.told steps.new) }
    ensures lacks { S.lacks steps.new ≡ S.lacks steps.old }
    ensures free { AreFree (M.roots names.new) (N.is_taken nodes.new) (N.next nodes.new) }
    ensures few { M.count names.new ≤ M.limit names.new }
    ensures limit { M.limit names.new ≡ M.limit names.old }
    ensures slots { N.slots nodes.new ≡ N.slots nodes.old }
    ensures plain { OnlyRises (N.is_plain nodes.old) (N.is_plain nodes.new) }
    ensures over { M.over names.new ≡ M.over names.old }
    ensures frames_room { vec_capacity frames.old ≤ vec_capacity frames.new }
    ensures search_room { vec_capacity search.old ≤ vec_capacity search.new }
{
    check_tasks(nodes, names, frames, cleared(group))?;
    clear_tasks(nodes, names, frames, search, group, tasks, steps);
    Ok(())
}

/// The tasks of a set go.
pub(crate) fn apply_clear<N: Nodes, M: Names, S: Steps>(
    nodes: &mut N,
    names: &mut M,
    frames: &mut Vec<Frame>,
    search: &mut Vec<Parts>,
    group: Name,
    steps: &mut S,
) -> Result<(), Refused>
    requires free { AreFree (M.roots names.old) (N.is_taken nodes.old) (N.next nodes.old) }
    requires few { M.count names.old ≤ M.limit names.old }
    requires frames_room { N.slots nodes.old + 1 ≤ vec_capacity frames.old }
    requires search_room { N.slots nodes.old + 1 ≤ vec_capacity search.old }
    ensures applied { DoesCommand (Both (N.stands nodes.old) (M.stands names.old))
        (Both (N.stands nodes.new) (M.stands names.new)) N.rule (refusal_of result) (Clear group.0)
        (S.told steps.old) (S.told steps.new) }
    ensures lacks { S.lacks steps.new ≡ S.lacks steps.old }
    ensures free { AreFree (M.roots names.new) (N.is_taken nodes.new) (N.next nodes.new) }
    ensures few { M.count names.new ≤ M.limit names.new }
    ensures limit { M.limit names.new ≡ M.limit names.old }
    ensures slots { N.slots nodes.new ≡ N.slots nodes.old }
    ensures plain { OnlyRises (N.is_plain nodes.old) (N.is_plain nodes.new) }
    ensures over { M.over names.new ≡ M.over names.old }
    ensures frames_room { vec_capacity frames.old ≤ vec_capacity frames.new }
    ensures search_room { vec_capacity search.old ≤ vec_capacity search.new }
{
    check_named(nodes, names, &[cleared(group)])?;
    match tasks_named(names, group) {
        Some(tasks) => try_clear(nodes, names, frames, search, group, tasks, steps),
        None => Ok(()),
    }
}
