//! Who owns a node.
ghost use Rattle.std.specs.Prelude.{◌≡◌, ◌≢◌, ◌<◌, ◌≤◌, ◌+◌, ℕ, Option, Some, None, Bool, true, false, length, slice_set, if◌then◌else◌};
ghost use Rattle.kj_model.specs.World.{World};
ghost use Rattle.kj_model.specs.Nodes.{owner_of, is_in};
ghost use Rattle.promise_nodes.specs.Shown.{SeesOwner, run_from};
ghost use Rattle.promise_nodes.specs.Kept.{IsLive};
ghost use Rattle.promise_graph.specs.Slots.{number_at, HasLink};
ghost use Rattle.promise_graph.specs.Kept.{IsKept, AreNumbered, link_at, taker_at, is_taken};
ghost use Rattle.promise_graph.specs.Standing.{Stands};

use crate::fields::{Fields, Marks};
use crate::finding::{find, find_slot};
use crate::parts::{Span, has_part};
use kj_base::{Link, NodeId, Queue, Slot, Store};

fn taker<St: Store + Drop, Q: Queue + Drop>(g: &Fields<St, Q>, slot: Slot) -> Link
    requires { slot.0 < length g.now.marks.owners.items }
    ensures { result ≡ link_at g.now.marks slot.0 }
{
    g.marks.owners[slot.0 as usize]
}

pub(crate) fn set_taker(owners: &mut Vec<Link>, slot: u32, taker: Link)
    requires { slot < length owners.old.items }
    ensures { owners.new.items ≡ slice_set owners.old.items slot taker }
{
    owners[slot as usize] = taker;
}

// The node that took this one, where it still owns it.
pub(crate) fn owner<St: Store + Drop, Q: Queue + Drop>(
    g: &Fields<St, Q>,
    node: Link,
) -> Option<Link>
    requires { IsKept (St.node_at g.now.store) (St.is_bare g.now.store) (Q.events g.now.queue)
        (St.slots g.now.store) (Q.size g.now.queue) g.now.marks }
    ensures owner { (w : World)
        → Stands (St.node_at g.now.store) (Q.events g.now.queue) (St.stands g.now.store)
        g.now.marks w
        → IsLive w node.number.0
        → SeesOwner w.nodes result (owner_of node.number.0 w.nodes) }
    ensures root { is_taken g.now.marks node.number.0 ≡ false → result ≡ None }
    ensures live { HasLink (St.node_at g.now.store) result }
{
    let Some(slot) = find(g, node) else {
        return None;
    };
    let taker = taker(g, slot);
    let Some(owner) = find(g, taker) else {
        return None;
    };
    if has_part(&g.store.get(owner).form, node.number.0) {
        return Some(Link {
            slot: owner,
            number: taker.number,
        });
    }
    None
}

// This node takes that one, where it is live.
pub(crate) fn take_part<St: Store + Drop>(store: &St, marks: &mut Marks, part: Link, taker: Link)
    requires numbered { AreNumbered (St.node_at store.now) marks.old }
    requires owners { length marks.old.owners.items ≡ marks.old.slots }
    ensures others { marks.new ≡ record marks.old { owners = marks.new.owners } }
    ensures all { length marks.new.owners.items ≡ marks.old.slots }
    ensures here { (s : ℕ)
        → number_at (St.node_at store.now) s ≡ Some part.number.0
        → taker_at marks.new s ≡ taker.number.0 }
    ensures elsewhere { (s : ℕ)
        → number_at (St.node_at store.now) s ≢ Some part.number.0
        → taker_at marks.new s ≡ taker_at marks.old s }
{
    if let Some(slot) = find_slot(store, marks, part) {
        set_taker(&mut marks.owners, slot.0, taker);
    }
}

// This node takes so many others.
pub(crate) fn take_parts<St: Store + Drop>(store: &St, marks: &mut Marks, parts: Span, taker: Link)
    requires numbered { AreNumbered (St.node_at store.now) marks.old }
    requires owners { length marks.old.owners.items ≡ marks.old.slots }
    ensures others { marks.new ≡ record marks.old { owners = marks.new.owners } }
    ensures all { length marks.new.owners.items ≡ marks.old.slots }
    ensures takers { (s n : ℕ)
        → number_at (St.node_at store.now) s ≡ Some n
        → taker_at marks.new s ≡ (if is_in n (run_from parts.count parts.first.number.0) then
        taker.number.0 else taker_at marks.old s) }
{
    let mut at = parts.first.number.0;
    let mut left = parts.count;
    'taking: while left > 0 {
        let part = Link {
            slot: parts.first.slot,
            number: NodeId(at),
        };
        take_part(store, marks, part, taker);
        at = at.saturating_add(1);
        left -= 1;
    }
}
