//! From a link to the slot of its node.
ghost use Rattle.std.specs.Prelude.{◌≡◌, ◌<◌, ◌≤◌, ℕ, Option, Some, None, IsSome, option_copied, true};
ghost use Rattle.kj_base.specs.Store.{slot_number};
ghost use Rattle.kj_model.specs.World.{World};
ghost use Rattle.kj_model.specs.Nodes.{form_at};
ghost use Rattle.promise_nodes.specs.Shown.{Sees};
ghost use Rattle.promise_nodes.specs.Kept.{IsBranch, ShowsPlain};
ghost use Rattle.promise_graph.specs.Slots.{Finds};
ghost use Rattle.promise_graph.specs.Kept.{AreNumbered, IsKept, is_listed, is_plain};
ghost use Rattle.promise_graph.specs.Standing.{Stands};

use crate::fields::{Fields, Marks};
use crate::index::{find_in, has_number};
use kj_base::{Form, Link, Queue, Slot, Store};

// The slot of a live node of this store. The link's slot is only where to look first.
pub(crate) fn find_slot<St: Store + Drop>(_store: &St, marks: &Marks, link: Link) -> Option<Slot>
    requires { AreNumbered (St.node_at _store.now) marks.now }
    ensures { Finds (St.node_at _store.now) link.number.0 (slot_number result) }
{
    let n = link.number.0;
    if n == 0 {
        return None;
    }
    if has_number(&marks.numbers, link.slot.0, n) {
        return Some(link.slot);
    }
    let Some(slot) = find_in(&marks.index, n) else {
        return None;
    };
    if has_number(&marks.numbers, slot, n) {
        return Some(Slot(slot));
    }
    None
}

// The same in a graph.
pub(crate) fn find<St: Store + Drop, Q: Queue + Drop>(g: &Fields<St, Q>, link: Link) -> Option<Slot>
    requires { AreNumbered (St.node_at g.now.store) g.now.marks }
    ensures { Finds (St.node_at g.now.store) link.number.0 (slot_number result) }
{
    find_slot(&g.store, &g.marks, link)
}

// The form of a live node.
pub(crate) fn form<St: Store + Drop, Q: Queue + Drop>(
    g: &Fields<St, Q>,
    link: Link,
) -> Option<&Form>
    requires { IsKept (St.node_at g.now.store) (St.is_bare g.now.store) (Q.events g.now.queue)
        (St.slots g.now.store) (Q.size g.now.queue) g.now.marks }
    ensures form { (w : World)
        → Stands (St.node_at g.now.store) (Q.events g.now.queue) (St.stands g.now.store)
        g.now.marks w
        → Sees (option_copied result) (form_at link.number.0 w.nodes) }
    ensures listed { is_listed (St.node_at g.now.store) g.now.marks link.number.0 ≡ true
        → IsBranch (option_copied result) }
    ensures plain { ShowsPlain (option_copied result)
        → is_plain (St.node_at g.now.store) g.now.marks link.number.0 ≡ true }
{
    let Some(slot) = find(g, link) else {
        return None;
    };
    Some(&g.store.get(slot).form)
}
