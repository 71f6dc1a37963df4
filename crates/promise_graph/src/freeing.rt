//! A node goes.
ghost use Rattle.std.specs.Prelude.{◌≡◌, ◌<◌, ◌≤◌, ◌+◌, ℕ, Option, Some, None, Bool, false, slice_set, length};
ghost use Rattle.kj_model.specs.World.{World};
ghost use Rattle.kj_model.specs.Changes.{gone_world};
ghost use Rattle.promise_graph.specs.Slots.{number_at, IsAbsent};
ghost use Rattle.promise_graph.specs.Kept.{IsKept, Falls, is_listed};
ghost use Rattle.promise_graph.specs.Rows.{Goes};
ghost use Rattle.promise_graph.specs.Standing.{Stands};

use crate::fields::Fields;
use crate::finding::find;
use crate::rings::cut;
use kj_base::{Link, Queue, Slot, Store};

pub(crate) fn set_number(numbers: &mut Vec<u64>, slot: u32, n: u64)
    requires { slot < length numbers.old.items }
    ensures { numbers.new.items ≡ slice_set numbers.old.items slot n }
{
    numbers[slot as usize] = n;
}

// The node in a slot goes, with its event. A hub leaves its branches in a ring without it, and the other hubs; a task
// leaves the loop's own set.
fn drop_slot<St: Store + Drop, Q: Queue + Drop>(g: &mut Fields<St, Q>, slot: Slot, n: u64)
    requires kept { IsKept (St.node_at g.old.store) (St.is_bare g.old.store)
        (Q.events g.old.queue) (St.slots g.old.store) (Q.size g.old.queue) g.old.marks }
    requires live { number_at (St.node_at g.old.store) slot.0 ≡ Some n }
    requires unlisted { is_listed (St.node_at g.old.store) g.old.marks n ≡ false }
    ensures kept { IsKept (St.node_at g.new.store) (St.is_bare g.new.store) (Q.events g.new.queue)
        (St.slots g.new.store) (Q.size g.new.queue) g.new.marks }
    ensures stands { (w : World)
        → Stands (St.node_at g.old.store) (Q.events g.old.queue) (St.stands g.old.store)
        g.old.marks w
        → Stands (St.node_at g.new.store) (Q.events g.new.queue) (St.stands g.new.store)
        g.new.marks (gone_world n w) }
    ensures falls { Falls (St.node_at g.old.store) (St.node_at g.new.store) g.old.marks
        g.new.marks }
    ensures goes { Goes n (St.node_at g.old.store) (St.node_at g.new.store) }
{
    g.queue.disarm(slot.0 + 1);
    g.store.free(slot);
    set_number(&mut g.marks.numbers, slot.0, 0);
    cut(&mut g.marks.rings, slot.0);
    cut(&mut g.marks.tasks, slot.0);
    cut(&mut g.marks.hubs, slot.0);
}

// A number that no node has goes: only the wait has an event then.
fn drop_absent<St: Store + Drop, Q: Queue + Drop>(g: &mut Fields<St, Q>, n: u64)
    requires kept { IsKept (St.node_at g.old.store) (St.is_bare g.old.store)
        (Q.events g.old.queue) (St.slots g.old.store) (Q.size g.old.queue) g.old.marks }
    requires absent { IsAbsent (St.node_at g.old.store) n }
    ensures kept { IsKept (St.node_at g.new.store) (St.is_bare g.new.store) (Q.events g.new.queue)
        (St.slots g.new.store) (Q.size g.new.queue) g.new.marks }
    ensures stands { (w : World)
        → Stands (St.node_at g.old.store) (Q.events g.old.queue) (St.stands g.old.store)
        g.old.marks w
        → Stands (St.node_at g.new.store) (Q.events g.new.queue) (St.stands g.new.store)
        g.new.marks (gone_world n w) }
    ensures falls { Falls (St.node_at g.old.store) (St.node_at g.new.store) g.old.marks
        g.new.marks }
    ensures goes { Goes n (St.node_at g.old.store) (St.node_at g.new.store) }
{
    if n == 0 {
        g.queue.disarm(0);
    }
}

// A node goes, with its event.
pub(crate) fn drop_node<St: Store + Drop, Q: Queue + Drop>(g: &mut Fields<St, Q>, node: Link)
    requires kept { IsKept (St.node_at g.old.store) (St.is_bare g.old.store)
        (Q.events g.old.queue) (St.slots g.old.store) (Q.size g.old.queue) g.old.marks }
    requires unlisted { is_listed (St.node_at g.old.store) g.old.marks node.number.0 ≡ false }
    ensures kept { IsKept (St.node_at g.new.store) (St.is_bare g.new.store) (Q.events g.new.queue)
        (St.slots g.new.store) (Q.size g.new.queue) g.new.marks }
    ensures stands { (w : World)
        → Stands (St.node_at g.old.store) (Q.events g.old.queue) (St.stands g.old.store)
        g.old.marks w
        → Stands (St.node_at g.new.store) (Q.events g.new.queue) (St.stands g.new.store)
        g.new.marks (gone_world node.number.0 w) }
    ensures falls { Falls (St.node_at g.old.store) (St.node_at g.new.store) g.old.marks
        g.new.marks }
    ensures goes { Goes node.number.0 (St.node_at g.old.store) (St.node_at g.new.store) }
{
    match find(g, node) {
        Some(slot) => drop_slot(g, slot, node.number.0),
        None => drop_absent(g, node.number.0),
    }
}
