//! Whether a tree holds a node.
ghost use Rattle.std.specs.Prelude.{◌≡◌, ◌<◌, ◌≤◌, ◌+◌, ◌-◌, ◌++◌, ◌||◌, [], ◌∷◌, true, false, length, vec_len, vec_capacity};
ghost use Rattle.kj_model.specs.World.{World};
ghost use Rattle.kj_model.specs.Nodes.{holds};
ghost use Rattle.kj_model.specs.Free.{is_guarded};
ghost use Rattle.promise_walks.specs.Walks.{guard_of};
ghost use Rattle.promise_walks.specs.Stacks.{seek, weigh_parts, cost};

use crate::guard::Guard;
use crate::pushing::{is_deep, put_last};
use crate::shape::{Parts, shape_at};
use kj_base::Link;
use promise_nodes::Nodes;

// Whether this is the node, where it isn't too deep; else its parts are searched too.
fn look_into<N: Nodes>(nodes: &N, search: &mut Vec<Parts>, at: Link, node: Link) -> bool
    requires bound { vec_len search.old ≤ N.slots nodes.now + 1 }
    requires room { N.slots nodes.now + 1 ≤ vec_capacity search.old }
    ensures found { result ≡ true → (w : World)
        → holds (N.slots nodes.now + 1 - length search.old.items) w.nodes node.number.0 at.number.0
        ≡ true }
    ensures seeks { result ≡ false → (w : World)
        → N.stands nodes.now w → seek w.nodes node.number.0 (N.slots nodes.now + 1) search.new.items
        ≡ (seek w.nodes node.number.0 (N.slots nodes.now + 1) search.old.items || holds
        (N.slots nodes.now + 1 - length search.old.items) w.nodes node.number.0 at.number.0) }
    ensures weight { weigh_parts (N.slots nodes.now + 1) search.new.items
        < weigh_parts (N.slots nodes.now + 1) search.old.items
        + cost (N.slots nodes.now + 1 - length search.old.items) }
    ensures bound { vec_len search.new ≤ N.slots nodes.now + 1 }
    ensures room { vec_capacity search.old ≤ vec_capacity search.new }
{
    if is_deep(nodes.slots(), search.len()) {
        return false;
    }
    if at.number.0 == node.number.0 {
        return true;
    }
    let Some(shape) = shape_at(nodes, at) else {
        return false;
    };
    put_last(search, shape.parts);
    false
}

// One step of the search: whether the next part is the node; else its parts are searched too.
fn search_on<N: Nodes>(nodes: &N, search: &mut Vec<Parts>, parts: Parts, node: Link) -> bool
    requires bound { vec_len search.old + 1 ≤ N.slots nodes.now + 1 }
    requires room { N.slots nodes.now + 1 ≤ vec_capacity search.old }
    ensures found { result ≡ true → (w : World) → N.stands nodes.now w
        → seek w.nodes node.number.0 (N.slots nodes.now + 1) (search.old.items ++ parts ∷ [])
        ≡ true }
    ensures seeks { result ≡ false → (w : World)
        → N.stands nodes.now w → seek w.nodes node.number.0 (N.slots nodes.now + 1) search.new.items
        ≡ seek w.nodes node.number.0 (N.slots nodes.now + 1) (search.old.items ++ parts ∷ []) }
    ensures weight { weigh_parts (N.slots nodes.now + 1) search.new.items
        < weigh_parts (N.slots nodes.now + 1) (search.old.items ++ parts ∷ []) }
    ensures bound { vec_len search.new ≤ N.slots nodes.now + 1 }
    ensures room { vec_capacity search.old ≤ vec_capacity search.new }
{
    if parts.count == 0 {
        return false;
    }
    put_last(search, parts.rest());
    look_into(nodes, search, parts.next, node)
}

/// Whether the tree of a root holds a node, the root itself too. The search is a stack with room for slots + 1, and may
/// have anything in it.
pub fn holds<N: Nodes>(nodes: &N, search: &mut Vec<Parts>, node: Link, root: Link) -> bool
    requires room { N.slots nodes.now + 1 ≤ vec_capacity search.old }
    ensures holds { (w : World) → N.stands nodes.now w
        → result ≡ holds (N.slots nodes.now + 1) w.nodes node.number.0 root.number.0 }
    ensures room { vec_capacity search.old ≤ vec_capacity search.new }
{
    search.clear();
    if look_into(nodes, search, root, node) {
        return true;
    }
    'searching: while let Some(parts) = search.pop() {
        if search_on(nodes, search, parts, node) {
            return true;
        }
    }
    false
}

// Whether the guard keeps this hub.
pub(crate) fn is_kept<N: Nodes>(nodes: &N, search: &mut Vec<Parts>, guard: Guard, hub: Link) -> bool
    requires room { N.slots nodes.now + 1 ≤ vec_capacity search.old }
    ensures kept { (w : World) → N.stands nodes.now w
        → result ≡ is_guarded (guard_of guard) hub.number.0 w }
    ensures room { vec_capacity search.old ≤ vec_capacity search.new }
{
    match guard {
        Guard::Every => true,
        Guard::Holding(None) => false,
        Guard::Holding(Some(node)) => holds(nodes, search, node, hub),
    }
}
