//! The tasks of sets go when a loop is closed.
ghost use Rattle.std.specs.Prelude.{◌≡◌, vec_capacity};
ghost use Rattle.kj_model.specs.World.{World, held_at};
ghost use Rattle.promise_names.specs.Held.{IsSet};
ghost use Rattle.promise_walks.specs.Walks.{Both, Does};
ghost use Rattle.promise_firing.specs.Closed.{is_set, set_closed};
ghost use Rattle.promise_firing.specs.Ground.{IsSound, Keeps, ground};

use crate::closing::close_tree;
use kj_base::Name;
use promise_commands::Steps;
use promise_names::{Held, Names};
use promise_nodes::Nodes;
use promise_walks::{Frame, Parts};

fn is_set(held: Option<Held>) -> bool
    ensures { result ≡ is_set held }
{
    matches!(held, Some(Held::Group { .. }))
}

// The tasks of a set go with their trees, newest first.
fn close_set<N: Nodes, M: Names, S: Steps>(
    nodes: &mut N,
    names: &mut M,
    frames: &mut Vec<Frame>,
    search: &mut Vec<Parts>,
    name: Name,
    steps: &mut S,
)
    requires sound { IsSound (ground (N.is_taken nodes.old) (N.is_plain nodes.old)
        (N.next nodes.old) (N.slots nodes.old) (M.roots names.old) (M.count names.old)
        (M.limit names.old) (vec_capacity frames.old) (vec_capacity search.old)) }
    requires set { (w : World) → Both (N.stands nodes.old) (M.stands names.old) w
        → IsSet (held_at name.0 w.names) }
    ensures does { Does (Both (N.stands nodes.old) (M.stands names.old))
        (Both (N.stands nodes.new) (M.stands names.new)) (set_closed name.0) (λ s. s)
        (S.told steps.old) (S.told steps.new) }
    ensures lacks { S.lacks steps.new ≡ S.lacks steps.old }
    ensures kept { Keeps (ground (N.is_taken nodes.old) (N.is_plain nodes.old)
        (N.next nodes.old) (N.slots nodes.old) (M.roots names.old)
        (M.count names.old) (M.limit names.old) (vec_capacity frames.old) (vec_capacity search.old))
        (ground (N.is_taken nodes.new) (N.is_plain nodes.new) (N.next nodes.new) (N.slots nodes.new)
        (M.roots names.new) (M.count names.new) (M.limit names.new) (vec_capacity frames.new)
        (vec_capacity search.new)) }
    ensures over { M.over names.new ≡ M.over names.old }
{
    let mut left = nodes.next();
    'closing: while left > 0 {
        let Some(task) = nodes.newest_member(name) else {
            return;
        };
        close_tree(nodes, names, frames, search, task, steps);
        left -= 1;
    }
}

// The same with a name, where it is a set's.
pub(crate) fn close_tasks<N: Nodes, M: Names, S: Steps>(
    nodes: &mut N,
    names: &mut M,
    frames: &mut Vec<Frame>,
    search: &mut Vec<Parts>,
    name: Name,
    steps: &mut S,
)
    requires sound { IsSound (ground (N.is_taken nodes.old) (N.is_plain nodes.old)
        (N.next nodes.old) (N.slots nodes.old) (M.roots names.old) (M.count names.old)
        (M.limit names.old) (vec_capacity frames.old) (vec_capacity search.old)) }
    ensures does { Does (Both (N.stands nodes.old) (M.stands names.old))
        (Both (N.stands nodes.new) (M.stands names.new)) (set_closed name.0) (λ s. s)
        (S.told steps.old) (S.told steps.new) }
    ensures lacks { S.lacks steps.new ≡ S.lacks steps.old }
    ensures kept { Keeps (ground (N.is_taken nodes.old) (N.is_plain nodes.old)
        (N.next nodes.old) (N.slots nodes.old) (M.roots names.old)
        (M.count names.old) (M.limit names.old) (vec_capacity frames.old) (vec_capacity search.old))
        (ground (N.is_taken nodes.new) (N.is_plain nodes.new) (N.next nodes.new) (N.slots nodes.new)
        (M.roots names.new) (M.count names.new) (M.limit names.new) (vec_capacity frames.new)
        (vec_capacity search.new)) }
    ensures over { M.over names.new ≡ M.over names.old }
{
    if is_set(names.get(name)) {
        close_set(nodes, names, frames, search, name, steps);
    }
}
