//! Hubs go when a loop is closed, at the end of it.
ghost use Rattle.std.specs.Prelude.{◌≡◌, ◌≤◌, length, vec_capacity};
ghost use Rattle.kj_model.specs.Calls.{close, hubs_closed};
ghost use Rattle.promise_walks.specs.Walks.{Both, Does};
ghost use Rattle.promise_firing.specs.Closed.{free_hub};
ghost use Rattle.promise_firing.specs.Ground.{IsSound, Keeps, ground};

use crate::closing::{close_detached, close_left_over};
use crate::closing_names::close_names;
use kj_base::Link;
use promise_commands::Steps;
use promise_names::Names;
use promise_nodes::Nodes;
use promise_walks::{Frame, Guard, Parts, free_tree};

// A hub goes with its tree, and no other hub.
fn close_hub<N: Nodes, M: Names, S: Steps>(
    nodes: &mut N,
    names: &mut M,
    frames: &mut Vec<Frame>,
    search: &mut Vec<Parts>,
    hub: Link,
    steps: &mut S,
)
    requires sound { IsSound (ground (N.is_taken nodes.old) (N.is_plain nodes.old)
        (N.next nodes.old) (N.slots nodes.old) (M.roots names.old) (M.count names.old)
        (M.limit names.old) (vec_capacity frames.old) (vec_capacity search.old)) }
    ensures does { Does (Both (N.stands nodes.old) (M.stands names.old))
        (Both (N.stands nodes.new) (M.stands names.new)) (free_hub hub.number.0) (λ s. s)
        (S.told steps.old) (S.told steps.new) }
    ensures lacks { S.lacks steps.new ≡ S.lacks steps.old }
    ensures kept { Keeps (ground (N.is_taken nodes.old) (N.is_plain nodes.old)
        (N.next nodes.old) (N.slots nodes.old) (M.roots names.old)
        (M.count names.old) (M.limit names.old) (vec_capacity frames.old) (vec_capacity search.old))
        (ground (N.is_taken nodes.new) (N.is_plain nodes.new) (N.next nodes.new) (N.slots nodes.new)
        (M.roots names.new) (M.count names.new) (M.limit names.new) (vec_capacity frames.new)
        (vec_capacity search.new)) }
    ensures over { M.over names.new ≡ M.over names.old }
{
    free_tree(nodes, names, frames, search, Guard::Every, hub, steps);
}

/// Each hub that still lives goes with its tree, the oldest first.
pub fn close_hubs<N: Nodes, M: Names, S: Steps>(
    nodes: &mut N,
    names: &mut M,
    frames: &mut Vec<Frame>,
    search: &mut Vec<Parts>,
    steps: &mut S,
)
    requires sound { IsSound (ground (N.is_taken nodes.old) (N.is_plain nodes.old)
        (N.next nodes.old) (N.slots nodes.old) (M.roots names.old) (M.count names.old)
        (M.limit names.old) (vec_capacity frames.old) (vec_capacity search.old)) }
    ensures does { Does (Both (N.stands nodes.old) (M.stands names.old))
        (Both (N.stands nodes.new) (M.stands names.new)) hubs_closed (λ s. s) (S.told steps.old)
        (S.told steps.new) }
    ensures lacks { S.lacks steps.new ≡ S.lacks steps.old }
    ensures kept { Keeps (ground (N.is_taken nodes.old) (N.is_plain nodes.old)
        (N.next nodes.old) (N.slots nodes.old) (M.roots names.old)
        (M.count names.old) (M.limit names.old) (vec_capacity frames.old) (vec_capacity search.old))
        (ground (N.is_taken nodes.new) (N.is_plain nodes.new) (N.next nodes.new) (N.slots nodes.new)
        (M.roots names.new) (M.count names.new) (M.limit names.new) (vec_capacity frames.new)
        (vec_capacity search.new)) }
    ensures over { M.over names.new ≡ M.over names.old }
{
    let mut left = nodes.next();
    'closing: while left > 0 {
        let Some(hub) = nodes.oldest_hub() else {
            return;
        };
        close_hub(nodes, names, frames, search, hub, steps);
        left -= 1;
    }
}

/// All that a loop holds goes: what is left over, what each name holds by rising name, the tasks of its own set newest
/// first, then hubs. Each free is told in this order.
pub fn close_all<N: Nodes, M: Names, S: Steps>(
    nodes: &mut N,
    names: &mut M,
    frames: &mut Vec<Frame>,
    search: &mut Vec<Parts>,
    steps: &mut S,
)
    requires over { length (M.over names.old) ≤ 2 }
    requires sound { IsSound (ground (N.is_taken nodes.old) (N.is_plain nodes.old)
        (N.next nodes.old) (N.slots nodes.old) (M.roots names.old) (M.count names.old)
        (M.limit names.old) (vec_capacity frames.old) (vec_capacity search.old)) }
    ensures does { Does (Both (N.stands nodes.old) (M.stands names.old))
        (Both (N.stands nodes.new) (M.stands names.new)) close (λ s. s) (S.told steps.old)
        (S.told steps.new) }
    ensures lacks { S.lacks steps.new ≡ S.lacks steps.old }
    ensures kept { Keeps (ground (N.is_taken nodes.old) (N.is_plain nodes.old)
        (N.next nodes.old) (N.slots nodes.old) (M.roots names.old)
        (M.count names.old) (M.limit names.old) (vec_capacity frames.old) (vec_capacity search.old))
        (ground (N.is_taken nodes.new) (N.is_plain nodes.new) (N.next nodes.new) (N.slots nodes.new)
        (M.roots names.new) (M.count names.new) (M.limit names.new) (vec_capacity frames.new)
        (vec_capacity search.new)) }
    ensures over { M.over names.new ≡ M.over names.old }
{
    close_left_over(nodes, names, frames, search, steps);
    close_names(nodes, names, frames, search, steps);
    close_detached(nodes, names, frames, search, steps);
    close_hubs(nodes, names, frames, search, steps);
}
