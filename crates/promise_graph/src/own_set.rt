//! The loop's own set, tasks that no set holds; and the live hubs.
ghost use Rattle.std.specs.Prelude.{◌≡◌, ◌<◌, ◌≤◌, ◌+◌, ℕ, Option, Some, None, Bool, false, nat_lt, slice_index_or, if◌then◌else◌};
ghost use Rattle.kj_base.specs.Queue.{first_of};
ghost use Rattle.kj_model.specs.World.{World};
ghost use Rattle.kj_model.specs.Calls.{hubs_of};
ghost use Rattle.kj_model.specs.Nodes.{is_in};
ghost use Rattle.kj_model.specs.Effects.{with_detached};
ghost use Rattle.promise_nodes.specs.Shown.{link_number};
ghost use Rattle.promise_nodes.specs.Kept.{IsLive, newest_task, without_detached};
ghost use Rattle.promise_graph.specs.Slots.{number_at};
ghost use Rattle.promise_graph.specs.Kept.{IsKept, Falls};
ghost use Rattle.promise_graph.specs.Standing.{Stands};

use crate::fields::Fields;
use crate::finding::find;
use crate::rings::{behind, cut, in_front, join};
use kj_base::{Link, NodeId, Queue, Slot, Store};

// The node in a slot is the newest task.
fn enlist_slot<St: Store + Drop, Q: Queue + Drop>(g: &mut Fields<St, Q>, slot: Slot, n: u64)
    requires kept { IsKept (St.node_at g.old.store) (St.is_bare g.old.store)
        (Q.events g.old.queue) (St.slots g.old.store) (Q.size g.old.queue) g.old.marks }
    requires live { number_at (St.node_at g.old.store) slot.0 ≡ Some n }
    ensures kept { IsKept (St.node_at g.new.store) (St.is_bare g.new.store) (Q.events g.new.queue)
        (St.slots g.new.store) (Q.size g.new.queue) g.new.marks }
    ensures stands { (w : World)
        → Stands (St.node_at g.old.store) (Q.events g.old.queue) (St.stands g.old.store)
        g.old.marks w
        → is_in n w.detached ≡ false
        → Stands (St.node_at g.new.store) (Q.events g.new.queue) (St.stands g.new.store)
        g.new.marks (with_detached n w) }
    ensures falls { Falls (St.node_at g.old.store) (St.node_at g.new.store) g.old.marks
        g.new.marks }
    ensures numbers { g.new.marks.numbers.items ≡ g.old.marks.numbers.items }
{
    let head = g.marks.slots;
    cut(&mut g.marks.tasks, slot.0);
    join(&mut g.marks.tasks, slot.0, head);
}

// A live node is the newest task.
pub(crate) fn enlist<St: Store + Drop, Q: Queue + Drop>(g: &mut Fields<St, Q>, task: Link)
    requires kept { IsKept (St.node_at g.old.store) (St.is_bare g.old.store)
        (Q.events g.old.queue) (St.slots g.old.store) (Q.size g.old.queue) g.old.marks }
    ensures kept { IsKept (St.node_at g.new.store) (St.is_bare g.new.store) (Q.events g.new.queue)
        (St.slots g.new.store) (Q.size g.new.queue) g.new.marks }
    ensures stands { (w : World)
        → Stands (St.node_at g.old.store) (Q.events g.old.queue) (St.stands g.old.store)
        g.old.marks w
        → IsLive w task.number.0
        → is_in task.number.0 w.detached ≡ false
        → Stands (St.node_at g.new.store) (Q.events g.new.queue) (St.stands g.new.store)
        g.new.marks (with_detached task.number.0 w) }
    ensures falls { Falls (St.node_at g.old.store) (St.node_at g.new.store) g.old.marks
        g.new.marks }
    ensures numbers { g.new.marks.numbers.items ≡ g.old.marks.numbers.items }
{
    if let Some(slot) = find(g, task) {
        enlist_slot(g, slot, task.number.0);
    }
}

// The node in a slot leaves the set, if it is there.
fn delist_slot<St: Store + Drop, Q: Queue + Drop>(g: &mut Fields<St, Q>, slot: Slot, n: u64)
    requires kept { IsKept (St.node_at g.old.store) (St.is_bare g.old.store)
        (Q.events g.old.queue) (St.slots g.old.store) (Q.size g.old.queue) g.old.marks }
    requires live { number_at (St.node_at g.old.store) slot.0 ≡ Some n }
    ensures kept { IsKept (St.node_at g.new.store) (St.is_bare g.new.store) (Q.events g.new.queue)
        (St.slots g.new.store) (Q.size g.new.queue) g.new.marks }
    ensures stands { (w : World)
        → Stands (St.node_at g.old.store) (Q.events g.old.queue) (St.stands g.old.store)
        g.old.marks w
        → Stands (St.node_at g.new.store) (Q.events g.new.queue) (St.stands g.new.store)
        g.new.marks (without_detached n w) }
    ensures falls { Falls (St.node_at g.old.store) (St.node_at g.new.store) g.old.marks
        g.new.marks }
    ensures numbers { g.new.marks.numbers.items ≡ g.old.marks.numbers.items }
{
    cut(&mut g.marks.tasks, slot.0);
}

// A node leaves the set, if it is there.
pub(crate) fn delist<St: Store + Drop, Q: Queue + Drop>(g: &mut Fields<St, Q>, task: Link)
    requires kept { IsKept (St.node_at g.old.store) (St.is_bare g.old.store)
        (Q.events g.old.queue) (St.slots g.old.store) (Q.size g.old.queue) g.old.marks }
    ensures kept { IsKept (St.node_at g.new.store) (St.is_bare g.new.store) (Q.events g.new.queue)
        (St.slots g.new.store) (Q.size g.new.queue) g.new.marks }
    ensures stands { (w : World)
        → Stands (St.node_at g.old.store) (Q.events g.old.queue) (St.stands g.old.store)
        g.old.marks w
        → Stands (St.node_at g.new.store) (Q.events g.new.queue) (St.stands g.new.store)
        g.new.marks (without_detached task.number.0 w) }
    ensures falls { Falls (St.node_at g.old.store) (St.node_at g.new.store) g.old.marks
        g.new.marks }
    ensures numbers { g.new.marks.numbers.items ≡ g.old.marks.numbers.items }
{
    if let Some(slot) = find(g, task) {
        delist_slot(g, slot, task.number.0);
    }
}

// The node in a slot; none in the place behind the last slot, where the rings begin.
fn member_in<St: Store + Drop, Q: Queue + Drop>(g: &Fields<St, Q>, slot: u32) -> Option<Link>
    requires { IsKept (St.node_at g.now.store) (St.is_bare g.now.store) (Q.events g.now.queue)
        (St.slots g.now.store) (Q.size g.now.queue) g.now.marks }
    ensures { link_number result
        ≡ (if nat_lt slot g.now.marks.slots then Some
        (slice_index_or g.now.marks.numbers.items slot 0) else None) }
{
    if slot < g.marks.slots {
        return Some(Link {
            slot: Slot(slot),
            number: NodeId(g.marks.numbers[slot as usize]),
        });
    }
    None
}

// The oldest live hub.
pub(crate) fn oldest_hub<St: Store + Drop, Q: Queue + Drop>(g: &Fields<St, Q>) -> Option<Link>
    requires { IsKept (St.node_at g.now.store) (St.is_bare g.now.store) (Q.events g.now.queue)
        (St.slots g.now.store) (Q.size g.now.queue) g.now.marks }
    ensures { (w : World)
        → Stands (St.node_at g.now.store) (Q.events g.now.queue) (St.stands g.now.store)
        g.now.marks w
        → link_number result ≡ first_of (hubs_of w.nodes) }
{
    member_in(g, behind(&g.marks.hubs, g.marks.slots))
}

// The newest live task.
pub(crate) fn newest_task<St: Store + Drop, Q: Queue + Drop>(g: &Fields<St, Q>) -> Option<Link>
    requires { IsKept (St.node_at g.now.store) (St.is_bare g.now.store) (Q.events g.now.queue)
        (St.slots g.now.store) (Q.size g.now.queue) g.now.marks }
    ensures { (w : World)
        → Stands (St.node_at g.now.store) (Q.events g.now.queue) (St.stands g.now.store)
        g.now.marks w
        → link_number result ≡ newest_task w }
{
    member_in(g, in_front(&g.marks.tasks, g.marks.slots))
}
