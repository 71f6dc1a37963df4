//! What a name holds goes.
ghost use Rattle.std.specs.Prelude.{◌≡◌, ◌≤◌, ◌+◌, [], ◌∷◌, ℕ, Bool, List, Option, None, Some, vec_capacity};
ghost use Rattle.kj_base.specs.Commands.{Action, Drop};
ghost use Rattle.kj_base.specs.Record.{Item};
ghost use Rattle.kj_model.specs.World.{World, State, Promise, HubOf, held_at};
ghost use Rattle.kj_model.specs.Apply.{refusal};
ghost use Rattle.kj_model.specs.Uses.{use_as, IsDroppable};
ghost use Rattle.promise_commands.specs.Refusals.{refusal_of};
ghost use Rattle.promise_nodes.specs.Kept.{OnlyFalls, OnlyRises};
ghost use Rattle.promise_names.specs.Held.{AreFree};
ghost use Rattle.promise_apply.specs.Building.{Both};
ghost use Rattle.promise_apply.specs.Applying.{Applies, DoesCommand, refused_first, setting_of};
ghost use Rattle.promise_apply.specs.Uses.{use_shown};
ghost use Rattle.promise_apply.specs.Dropping.{MayDrop, MayDropCanceler};
ghost use Rattle.promise_apply.specs.Sets.{IsTasks};

use crate::busy::{frees_firing, hub_frees_firing};
use crate::clearing::{check_tasks, clear_tasks};
use crate::naming::{Role, Use};
use crate::refusing::{check_count, check_named};
use crate::sets::Tasks;
use kj_base::{Link, Name};
use promise_commands::{Refused, Steps};
use promise_names::{Held, Names};
use promise_nodes::Nodes;
use promise_walks::{Frame, Guard, Parts, free_part, free_unreferenced, unname_hub};

fn dropped(name: Name) -> Use
    ensures { use_shown result ≡ use_as IsDroppable name.0 }
{
    Use {
        role: Role::Droppable,
        name,
    }
}

// Why a Drop of a promise is refused, once its name passes.
fn test_promise<N: Nodes, M: Names>(
    nodes: &mut N,
    names: &M,
    frames: &mut Vec<Frame>,
    name: Name,
    root: Link,
) -> Result<(), Refused>
    requires held { (w : World) → Both (N.stands nodes.old) (M.stands names.now) w
        → MayDrop name.0 (Some (Promise root.number.0)) w }
    requires room { N.slots nodes.old + 1 ≤ vec_capacity frames.old }
    ensures refusal { (answer : List Item → ℕ → Option Action) (inside : Bool) (s : State)
        → Both (N.stands nodes.old) (M.stands names.now) s.world
        → refusal (setting_of N.rule answer) inside (Drop name.0) s ≡ refusal_of result }
    ensures stands { (w : World) → N.stands nodes.old w → N.stands nodes.new w }
    ensures taken { OnlyFalls (N.is_taken nodes.old) (N.is_taken nodes.new) }
    ensures plain { OnlyRises (N.is_plain nodes.old) (N.is_plain nodes.new) }
    ensures next { N.next nodes.new ≡ N.next nodes.old }
    ensures slots { N.slots nodes.new ≡ N.slots nodes.old }
    ensures room { vec_capacity frames.old ≤ vec_capacity frames.new }
{
    if frees_firing(nodes, frames, root) {
        return Err(Refused::Busy(name));
    }
    check_count(nodes, names, &[dropped(name)])
}

// A promise goes with its tree.
fn drop_promise<N: Nodes, M: Names, S: Steps>(
    nodes: &mut N,
    names: &mut M,
    frames: &mut Vec<Frame>,
    search: &mut Vec<Parts>,
    name: Name,
    root: Link,
    steps: &mut S,
) -> Result<(), Refused>
    requires held { (w : World) → Both (N.stands nodes.old) (M.stands names.old) w
        → MayDrop name.0 (Some (Promise root.number.0)) w }
    requires free { AreFree (M.roots names.old) (N.is_taken nodes.old) (N.next nodes.old) }
    requires few { M.count names.old ≤ M.limit names.old }
    requires frames_room { N.slots nodes.old + 1 ≤ vec_capacity frames.old }
    requires search_room { N.slots nodes.old + 1 ≤ vec_capacity search.old }
    ensures applied { DoesCommand (Both (N.stands nodes.old) (M.stands names.old))
        (Both (N.stands nodes.new) (M.stands names.new)) N.rule (refusal_of result) (Drop name.0)
        (S.told steps.old) (S.told steps.new) }
    ensures lacks { S.lacks steps.new ≡ S.lacks steps.old }
    ensures free { AreFree (M.roots names.new) (N.is_taken nodes.new) (N.next nodes.new) }
    ensures few { M.count names.new ≤ M.limit names.new }
    ensures limit { M.limit names.new ≡ M.limit names.old }
    ensures slots { N.slots nodes.new ≡ N.slots nodes.old }
    ensures plain { OnlyRises (N.is_plain nodes.old) (N.is_plain nodes.new) }
    ensures over { M.over names.new ≡ M.over names.old }
    ensures frames_room { vec_capacity frames.old ≤ vec_capacity frames.new }
    ensures search_room { vec_capacity search.old ≤ vec_capacity search.new }
{
    test_promise(nodes, names, frames, name, root)?;
    names.remove(name);
    free_part(nodes, names, frames, search, root, steps);
    Ok(())
}

// Why a Drop of a hub is refused, once its name passes.
fn test_hub<N: Nodes, M: Names>(
    nodes: &mut N,
    names: &M,
    frames: &mut Vec<Frame>,
    name: Name,
    hub: Link,
) -> Result<(), Refused>
    requires held { (w : World) → Both (N.stands nodes.old) (M.stands names.now) w
        → MayDrop name.0 (Some (HubOf hub.number.0)) w }
    requires room { N.slots nodes.old + 1 ≤ vec_capacity frames.old }
    ensures refusal { (answer : List Item → ℕ → Option Action) (inside : Bool) (s : State)
        → Both (N.stands nodes.old) (M.stands names.now) s.world
        → refusal (setting_of N.rule answer) inside (Drop name.0) s ≡ refusal_of result }
    ensures stands { (w : World) → N.stands nodes.old w → N.stands nodes.new w }
    ensures taken { OnlyFalls (N.is_taken nodes.old) (N.is_taken nodes.new) }
    ensures plain { OnlyRises (N.is_plain nodes.old) (N.is_plain nodes.new) }
    ensures next { N.next nodes.new ≡ N.next nodes.old }
    ensures slots { N.slots nodes.new ≡ N.slots nodes.old }
    ensures room { vec_capacity frames.old ≤ vec_capacity frames.new }
{
    if hub_frees_firing(nodes, frames, hub) {
        return Err(Refused::Busy(name));
    }
    check_count(nodes, names, &[dropped(name)])
}

// The reference of a hub goes, and the hub with its tree where it has no branch.
fn drop_hub<N: Nodes, M: Names, S: Steps>(
    nodes: &mut N,
    names: &mut M,
    frames: &mut Vec<Frame>,
    search: &mut Vec<Parts>,
    name: Name,
    hub: Link,
    steps: &mut S,
) -> Result<(), Refused>
    requires held { (w : World) → Both (N.stands nodes.old) (M.stands names.old) w
        → MayDrop name.0 (Some (HubOf hub.number.0)) w }
    requires free { AreFree (M.roots names.old) (N.is_taken nodes.old) (N.next nodes.old) }
    requires few { M.count names.old ≤ M.limit names.old }
    requires frames_room { N.slots nodes.old + 1 ≤ vec_capacity frames.old }
    requires search_room { N.slots nodes.old + 1 ≤ vec_capacity search.old }
    ensures applied { DoesCommand (Both (N.stands nodes.old) (M.stands names.old))
        (Both (N.stands nodes.new) (M.stands names.new)) N.rule (refusal_of result) (Drop name.0)
        (S.told steps.old) (S.told steps.new) }
    ensures lacks { S.lacks steps.new ≡ S.lacks steps.old }
    ensures free { AreFree (M.roots names.new) (N.is_taken nodes.new) (N.next nodes.new) }
    ensures few { M.count names.new ≤ M.limit names.new }
    ensures limit { M.limit names.new ≡ M.limit names.old }
    ensures slots { N.slots nodes.new ≡ N.slots nodes.old }
    ensures plain { OnlyRises (N.is_plain nodes.old) (N.is_plain nodes.new) }
    ensures over { M.over names.new ≡ M.over names.old }
    ensures frames_room { vec_capacity frames.old ≤ vec_capacity frames.new }
    ensures search_room { vec_capacity search.old ≤ vec_capacity search.new }
{
    test_hub(nodes, names, frames, name, hub)?;
    let guard = Guard::Holding(nodes.firing());
    names.remove(name);
    unname_hub(nodes, hub);
    free_unreferenced(nodes, names, frames, search, guard, hub, steps);
    Ok(())
}

// A set goes with its tasks.
fn drop_set<N: Nodes, M: Names, S: Steps>(
    nodes: &mut N,
    names: &mut M,
    frames: &mut Vec<Frame>,
    search: &mut Vec<Parts>,
    name: Name,
    tasks: Tasks,
    steps: &mut S,
) -> Result<(), Refused>
    requires passes { (w : World) → Both (N.stands nodes.old) (M.stands names.old) w
        → refused_first (use_as IsDroppable name.0 ∷ []) w ≡ None }
    requires tasks { (w : World) → M.stands names.old w
        → IsTasks tasks (held_at name.0 w.names) }
    requires free { AreFree (M.roots names.old) (N.is_taken nodes.old) (N.next nodes.old) }
    requires few { M.count names.old ≤ M.limit names.old }
    requires frames_room { N.slots nodes.old + 1 ≤ vec_capacity frames.old }
    requires search_room { N.slots nodes.old + 1 ≤ vec_capacity search.old }
    ensures applied { DoesCommand (Both (N.stands nodes.old) (M.stands names.old))
        (Both (N.stands nodes.new) (M.stands names.new)) N.rule (refusal_of result) (Drop name.0)
        (S.told steps.old) (S.told steps.new) }
    ensures lacks { S.lacks steps.new ≡ S.lacks steps.old }
    ensures free { AreFree (M.roots names.new) (N.is_taken nodes.new) (N.next nodes.new) }
    ensures few { M.count names.new ≤ M.limit names.new }
    ensures limit { M.limit names.new ≡ M.limit names.old }
    ensures slots { N.slots nodes.new ≡ N.slots nodes.old }
    ensures plain { OnlyRises (N.is_plain nodes.old) (N.is_plain nodes.new) }
    ensures over { M.over names.new ≡ M.over names.old }
    ensures frames_room { vec_capacity frames.old ≤ vec_capacity frames.new }
    ensures search_room { vec_capacity search.old ≤ vec_capacity search.new }
{
    check_tasks(nodes, names, frames, dropped(name))?;
    clear_tasks(nodes, names, frames, search, name, tasks, steps);
    names.remove(name);
    Ok(())
}

// A canceler goes, which has no Wrap.
fn drop_canceler<N: Nodes, M: Names>(nodes: &N, names: &mut M, name: Name) -> Result<(), Refused>
    requires held { (w : World) → Both (N.stands nodes.now) (M.stands names.old) w
        → MayDropCanceler name.0 w }
    requires free { AreFree (M.roots names.old) (N.is_taken nodes.now) (N.next nodes.now) }
    requires few { M.count names.old ≤ M.limit names.old }
    ensures applied { Applies (Both (N.stands nodes.now) (M.stands names.old))
        (Both (N.stands nodes.now) (M.stands names.new)) N.rule (refusal_of result) (Drop name.0) }
    ensures free { AreFree (M.roots names.new) (N.is_taken nodes.now) (N.next nodes.now) }
    ensures few { M.count names.new ≤ M.limit names.new }
    ensures limit { M.limit names.new ≡ M.limit names.old }
    ensures over { M.over names.new ≡ M.over names.old }
{
    check_count(nodes, names, &[dropped(name)])?;
    names.remove(name);
    Ok(())
}

/// A name goes with the promise, the set or the canceler that it holds, or with its reference of a hub.
pub(crate) fn apply_drop<N: Nodes, M: Names, S: Steps>(
    nodes: &mut N,
    names: &mut M,
    frames: &mut Vec<Frame>,
    search: &mut Vec<Parts>,
    name: Name,
    steps: &mut S,
) -> Result<(), Refused>
    requires free { AreFree (M.roots names.old) (N.is_taken nodes.old) (N.next nodes.old) }
    requires few { M.count names.old ≤ M.limit names.old }
    requires frames_room { N.slots nodes.old + 1 ≤ vec_capacity frames.old }
    requires search_room { N.slots nodes.old + 1 ≤ vec_capacity search.old }
    ensures applied { DoesCommand (Both (N.stands nodes.old) (M.stands names.old))
        (Both (N.stands nodes.new) (M.stands names.new)) N.rule (refusal_of result) (Drop name.0)
        (S.told steps.old) (S.told steps.new) }
    ensures lacks { S.lacks steps.new ≡ S.lacks steps.old }
    ensures free { AreFree (M.roots names.new) (N.is_taken nodes.new) (N.next nodes.new) }
    ensures few { M.count names.new ≤ M.limit names.new }
    ensures limit { M.limit names.new ≡ M.limit names.old }
    ensures slots { N.slots nodes.new ≡ N.slots nodes.old }
    ensures plain { OnlyRises (N.is_plain nodes.old) (N.is_plain nodes.new) }
    ensures over { M.over names.new ≡ M.over names.old }
    ensures frames_room { vec_capacity frames.old ≤ vec_capacity frames.new }
    ensures search_room { vec_capacity search.old ≤ vec_capacity search.new }
{
    check_named(nodes, names, &[dropped(name)])?;
    match names.get(name) {
        Some(Held::Promise(root)) => {
            drop_promise(nodes, names, frames, search, name, root, steps)
        }
        Some(Held::HubOf(hub)) => drop_hub(nodes, names, frames, search, name, hub, steps),
        Some(Held::Group { tasks, empty, .. }) => {
            let held = Tasks {
                count: tasks,
                empty,
            };
            drop_set(nodes, names, frames, search, name, held, steps)
        }
        Some(Held::Canceler) => drop_canceler(nodes, names, name),
        Some(Held::CellOf(_)) => Ok(()),
        Some(Held::AskCell { .. }) => Ok(()),
        Some(Held::RequestOf(_)) => Ok(()),
        None => Ok(()),
    }
}
