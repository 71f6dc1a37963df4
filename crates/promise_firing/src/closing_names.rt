//! What names hold goes when a loop is closed.
ghost use Rattle.std.specs.Prelude.{◌≡◌, [], vec_capacity};
ghost use Rattle.kj_model.specs.Calls.{closed_held, names_closed};
ghost use Rattle.promise_names.specs.Held.{held_shown};
ghost use Rattle.promise_walks.specs.Walks.{Both, Does};
ghost use Rattle.promise_firing.specs.Closed.{hub_name_closed, name_closed};
ghost use Rattle.promise_firing.specs.Ground.{IsSound, Keeps, ground};

use crate::closing::{close_found, close_tree};
use crate::closing_sets::close_tasks;
use kj_base::{Link, Name};
use promise_commands::Steps;
use promise_names::{Held, Names};
use promise_nodes::Nodes;
use promise_walks::{Frame, Guard, Parts, free_unreferenced, unname_hub};

// The name of a hub goes, and the hub with its tree where it has no branch.
fn close_hub_name<N: Nodes, M: Names, S: Steps>(
    nodes: &mut N,
    names: &mut M,
    frames: &mut Vec<Frame>,
    search: &mut Vec<Parts>,
    hub: Link,
    steps: &mut S,
)
    requires sound { IsSound (ground (N.is_taken nodes.old) (N.is_plain nodes.old)
        (N.next nodes.old) (N.slots nodes.old) (M.roots names.old) (M.count names.old)
        (M.limit names.old) (vec_capacity frames.old) (vec_capacity search.old)) }
    ensures does { Does (Both (N.stands nodes.old) (M.stands names.old))
        (Both (N.stands nodes.new) (M.stands names.new)) (hub_name_closed hub.number.0) (λ s. s)
        (S.told steps.old) (S.told steps.new) }
    ensures lacks { S.lacks steps.new ≡ S.lacks steps.old }
    ensures kept { Keeps (ground (N.is_taken nodes.old) (N.is_plain nodes.old)
        (N.next nodes.old) (N.slots nodes.old) (M.roots names.old)
        (M.count names.old) (M.limit names.old) (vec_capacity frames.old) (vec_capacity search.old))
        (ground (N.is_taken nodes.new) (N.is_plain nodes.new) (N.next nodes.new) (N.slots nodes.new)
        (M.roots names.new) (M.count names.new) (M.limit names.new) (vec_capacity frames.new)
        (vec_capacity search.new)) }
    ensures over { M.over names.new ≡ M.over names.old }
{
    unname_hub(nodes, hub);
    let guard = Guard::Holding(None);
    free_unreferenced(nodes, names, frames, search, guard, hub, steps);
}

// What a name held goes: a tree, or the reference of a hub. A cell and a canceler hold nothing that is freed, and a set
// nothing but tasks.
fn close_held<N: Nodes, M: Names, S: Steps>(
    nodes: &mut N,
    names: &mut M,
    frames: &mut Vec<Frame>,
    search: &mut Vec<Parts>,
    held: Held,
    steps: &mut S,
)
    requires sound { IsSound (ground (N.is_taken nodes.old) (N.is_plain nodes.old)
        (N.next nodes.old) (N.slots nodes.old) (M.roots names.old) (M.count names.old)
        (M.limit names.old) (vec_capacity frames.old) (vec_capacity search.old)) }
    ensures does { Does (Both (N.stands nodes.old) (M.stands names.old))
        (Both (N.stands nodes.new) (M.stands names.new)) (closed_held (held_shown [] held)) (λ s. s)
        (S.told steps.old) (S.told steps.new) }
    ensures lacks { S.lacks steps.new ≡ S.lacks steps.old }
    ensures kept { Keeps (ground (N.is_taken nodes.old) (N.is_plain nodes.old)
        (N.next nodes.old) (N.slots nodes.old) (M.roots names.old)
        (M.count names.old) (M.limit names.old) (vec_capacity frames.old) (vec_capacity search.old))
        (ground (N.is_taken nodes.new) (N.is_plain nodes.new) (N.next nodes.new) (N.slots nodes.new)
        (M.roots names.new) (M.count names.new) (M.limit names.new) (vec_capacity frames.new)
        (vec_capacity search.new)) }
    ensures over { M.over names.new ≡ M.over names.old }
{
    match held {
        Held::Promise(root) => close_tree(nodes, names, frames, search, root, steps),
        Held::HubOf(hub) => close_hub_name(nodes, names, frames, search, hub, steps),
        Held::RequestOf(request) => close_found(nodes, names, frames, search, request, steps),
        Held::CellOf(_) => {}
        Held::AskCell { .. } => {}
        Held::Group { .. } => {}
        Held::Canceler => {}
    }
}

// The tasks of a name go, then the name, and then what else it held.
fn close_name<N: Nodes, M: Names, S: Steps>(
    nodes: &mut N,
    names: &mut M,
    frames: &mut Vec<Frame>,
    search: &mut Vec<Parts>,
    name: Name,
    steps: &mut S,
)
    requires sound { IsSound (ground (N.is_taken nodes.old) (N.is_plain nodes.old)
        (N.next nodes.old) (N.slots nodes.old) (M.roots names.old) (M.count names.old)
        (M.limit names.old) (vec_capacity frames.old) (vec_capacity search.old)) }
    ensures does { Does (Both (N.stands nodes.old) (M.stands names.old))
        (Both (N.stands nodes.new) (M.stands names.new)) (name_closed name.0) (λ s. s)
        (S.told steps.old) (S.told steps.new) }
    ensures lacks { S.lacks steps.new ≡ S.lacks steps.old }
    ensures kept { Keeps (ground (N.is_taken nodes.old) (N.is_plain nodes.old)
        (N.next nodes.old) (N.slots nodes.old) (M.roots names.old)
        (M.count names.old) (M.limit names.old) (vec_capacity frames.old) (vec_capacity search.old))
        (ground (N.is_taken nodes.new) (N.is_plain nodes.new) (N.next nodes.new) (N.slots nodes.new)
        (M.roots names.new) (M.count names.new) (M.limit names.new) (vec_capacity frames.new)
        (vec_capacity search.new)) }
    ensures over { M.over names.new ≡ M.over names.old }
{
    let held = names.get(name);
    close_tasks(nodes, names, frames, search, name, steps);
    nodes.clear_list(name);
    names.remove(name);
    if let Some(held) = held {
        close_held(nodes, names, frames, search, held, steps);
    }
}

/// Each name goes with what it holds, the lowest first.
pub fn close_names<N: Nodes, M: Names, S: Steps>(
    nodes: &mut N,
    names: &mut M,
    frames: &mut Vec<Frame>,
    search: &mut Vec<Parts>,
    steps: &mut S,
)
    requires sound { IsSound (ground (N.is_taken nodes.old) (N.is_plain nodes.old)
        (N.next nodes.old) (N.slots nodes.old) (M.roots names.old) (M.count names.old)
        (M.limit names.old) (vec_capacity frames.old) (vec_capacity search.old)) }
    ensures does { Does (Both (N.stands nodes.old) (M.stands names.old))
        (Both (N.stands nodes.new) (M.stands names.new)) names_closed (λ s. s) (S.told steps.old)
        (S.told steps.new) }
    ensures lacks { S.lacks steps.new ≡ S.lacks steps.old }
    ensures kept { Keeps (ground (N.is_taken nodes.old) (N.is_plain nodes.old)
        (N.next nodes.old) (N.slots nodes.old) (M.roots names.old)
        (M.count names.old) (M.limit names.old) (vec_capacity frames.old) (vec_capacity search.old))
        (ground (N.is_taken nodes.new) (N.is_plain nodes.new) (N.next nodes.new) (N.slots nodes.new)
        (M.roots names.new) (M.count names.new) (M.limit names.new) (vec_capacity frames.new)
        (vec_capacity search.new)) }
    ensures over { M.over names.new ≡ M.over names.old }
{
    let mut left = names.len();
    'closing: while left > 0 {
        let Some(name) = names.first() else {
            return;
        };
        close_name(nodes, names, frames, search, name, steps);
        left -= 1;
    }
}
