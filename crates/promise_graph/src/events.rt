//! The events of live nodes and of the wait.
ghost use Rattle.std.specs.Prelude.{◌≡◌, ◌<◌, ◌≤◌, ◌+◌, ℕ, Option, Some, None, slice_index_or, length};
ghost use Rattle.kj_base.specs.Queue.{head_of, armed, disarmed};
ghost use Rattle.kj_model.specs.World.{World, Awaited};
ghost use Rattle.kj_model.specs.Changes.{arm_listener};
ghost use Rattle.kj_model.specs.Effects.{disarmed_node};
ghost use Rattle.kj_model.specs.Calls.{rewound_world, taken_world};
ghost use Rattle.promise_nodes.specs.Shown.{link_number, way_of};
ghost use Rattle.promise_nodes.specs.Kept.{IsEvent, awaited_root};
ghost use Rattle.promise_graph.specs.Kept.{IsKept, IsArmable, Falls};
ghost use Rattle.promise_graph.specs.Standing.{Stands, EventIs};

use crate::fields::Fields;
use crate::finding::find;
use kj_base::{Link, NodeId, Queue, Slot, Store};
use promise_nodes::Way;

// The event of a live node, or of the wait.
fn event_of<St: Store + Drop, Q: Queue + Drop>(g: &Fields<St, Q>, node: Link) -> Option<u32>
    requires { IsKept (St.node_at g.now.store) (St.is_bare g.now.store) (Q.events g.now.queue)
        (St.slots g.now.store) (Q.size g.now.queue) g.now.marks }
    ensures { EventIs (St.node_at g.now.store) g.now.marks.next node.number.0 result }
{
    if node.number.0 == 0 {
        return Some(0);
    }
    match find(g, node) {
        Some(slot) => Some(slot.0 + 1),
        None => None,
    }
}

fn arm_event<Q: Queue>(queue: &mut Q, way: Way, event: u32)
    requires { event < Q.size queue.old }
    ensures armed { Q.events queue.new ≡ armed (way_of way) event (Q.events queue.old) }
    ensures size { Q.size queue.new ≡ Q.size queue.old }
{
    match way {
        Way::DepthFirst => queue.arm_first(event),
        Way::BreadthFirst => queue.arm_next(event),
        Way::AtLast => queue.arm_last(event),
    }
}

// The event of a live node, or of the wait, is armed.
pub(crate) fn arm<St: Store + Drop, Q: Queue + Drop>(g: &mut Fields<St, Q>, way: Way, node: Link)
    requires kept { IsKept (St.node_at g.old.store) (St.is_bare g.old.store)
        (Q.events g.old.queue) (St.slots g.old.store) (Q.size g.old.queue) g.old.marks }
    ensures kept { IsKept (St.node_at g.new.store) (St.is_bare g.new.store) (Q.events g.new.queue)
        (St.slots g.new.store) (Q.size g.new.queue) g.new.marks }
    ensures stands { (w : World)
        → Stands (St.node_at g.old.store) (Q.events g.old.queue) (St.stands g.old.store)
        g.old.marks w
        → IsEvent w node.number.0
        → Stands (St.node_at g.new.store) (Q.events g.new.queue) (St.stands g.new.store)
        g.new.marks (arm_listener (way_of way) (Some node.number.0) w) }
    ensures store { g.new.store ≡ g.old.store }
    ensures marks { g.new.marks ≡ g.old.marks }
{
    if let Some(event) = event_of(g, node) {
        arm_event(&mut g.queue, way, event);
    }
}

// An event leaves the queue, if it is there.
pub(crate) fn disarm<St: Store + Drop, Q: Queue + Drop>(g: &mut Fields<St, Q>, node: Link)
    requires kept { IsKept (St.node_at g.old.store) (St.is_bare g.old.store)
        (Q.events g.old.queue) (St.slots g.old.store) (Q.size g.old.queue) g.old.marks }
    ensures kept { IsKept (St.node_at g.new.store) (St.is_bare g.new.store) (Q.events g.new.queue)
        (St.slots g.new.store) (Q.size g.new.queue) g.new.marks }
    ensures stands { (w : World)
        → Stands (St.node_at g.old.store) (Q.events g.old.queue) (St.stands g.old.store)
        g.old.marks w
        → Stands (St.node_at g.new.store) (Q.events g.new.queue) (St.stands g.new.store)
        g.new.marks (disarmed_node node.number.0 w) }
    ensures store { g.new.store ≡ g.old.store }
    ensures marks { g.new.marks ≡ g.old.marks }
{
    if let Some(event) = event_of(g, node) {
        g.queue.disarm(event);
    }
}

// The node of an armed event, or number 0 for the wait.
fn node_of<St: Store + Drop, Q: Queue + Drop>(g: &Fields<St, Q>, event: u32) -> Link
    requires kept { IsKept (St.node_at g.now.store) (St.is_bare g.now.store)
        (Q.events g.now.queue) (St.slots g.now.store) (Q.size g.now.queue) g.now.marks }
    requires armed { IsArmable (St.node_at g.now.store) event }
    ensures { EventIs (St.node_at g.now.store) g.now.marks.next result.number.0 (Some event) }
{
    if event == 0 {
        return Link {
            slot: Slot(0),
            number: NodeId(0),
        };
    }
    let slot = event - 1;
    let number = g.marks.numbers[slot as usize];
    Link {
        slot: Slot(slot),
        number: NodeId(number),
    }
}

// The first event leaves the queue; its node, or number 0 for the wait.
pub(crate) fn take<St: Store + Drop, Q: Queue + Drop>(g: &mut Fields<St, Q>) -> Option<Link>
    requires kept { IsKept (St.node_at g.old.store) (St.is_bare g.old.store)
        (Q.events g.old.queue) (St.slots g.old.store) (Q.size g.old.queue) g.old.marks }
    ensures kept { IsKept (St.node_at g.new.store) (St.is_bare g.new.store) (Q.events g.new.queue)
        (St.slots g.new.store) (Q.size g.new.queue) g.new.marks }
    ensures head { (w : World)
        → Stands (St.node_at g.old.store) (Q.events g.old.queue) (St.stands g.old.store)
        g.old.marks w
        → link_number result ≡ head_of w.queue }
    ensures stands { (w : World)
        → Stands (St.node_at g.old.store) (Q.events g.old.queue) (St.stands g.old.store)
        g.old.marks w
        → Stands (St.node_at g.new.store) (Q.events g.new.queue) (St.stands g.new.store)
        g.new.marks (taken_world w) }
    ensures store { g.new.store ≡ g.old.store }
    ensures marks { g.new.marks ≡ g.old.marks }
{
    match g.queue.take() {
        Some(event) => Some(node_of(g, event)),
        None => None,
    }
}

// The first insertion point goes to the front.
pub(crate) fn rewind<St: Store + Drop, Q: Queue + Drop>(g: &mut Fields<St, Q>)
    requires kept { IsKept (St.node_at g.old.store) (St.is_bare g.old.store)
        (Q.events g.old.queue) (St.slots g.old.store) (Q.size g.old.queue) g.old.marks }
    ensures kept { IsKept (St.node_at g.new.store) (St.is_bare g.new.store) (Q.events g.new.queue)
        (St.slots g.new.store) (Q.size g.new.queue) g.new.marks }
    ensures stands { (w : World)
        → Stands (St.node_at g.old.store) (Q.events g.old.queue) (St.stands g.old.store)
        g.old.marks w
        → Stands (St.node_at g.new.store) (Q.events g.new.queue) (St.stands g.new.store)
        g.new.marks (rewound_world w) }
    ensures store { g.new.store ≡ g.old.store }
    ensures marks { g.new.marks ≡ g.old.marks }
{
    g.queue.rewind();
}

// This event fires, or none.
pub(crate) fn set_firing<St: Store + Drop, Q: Queue + Drop>(
    g: &mut Fields<St, Q>,
    firing: Option<Link>,
)
    requires kept { IsKept (St.node_at g.old.store) (St.is_bare g.old.store)
        (Q.events g.old.queue) (St.slots g.old.store) (Q.size g.old.queue) g.old.marks }
    ensures kept { IsKept (St.node_at g.new.store) (St.is_bare g.new.store) (Q.events g.new.queue)
        (St.slots g.new.store) (Q.size g.new.queue) g.new.marks }
    ensures stands { (w : World)
        → Stands (St.node_at g.old.store) (Q.events g.old.queue) (St.stands g.old.store)
        g.old.marks w
        → Stands (St.node_at g.new.store) (Q.events g.new.queue) (St.stands g.new.store)
        g.new.marks (record w { firing = link_number firing }) }
    ensures falls { Falls (St.node_at g.old.store) (St.node_at g.new.store) g.old.marks
        g.new.marks }
    ensures numbers { g.new.marks.numbers.items ≡ g.old.marks.numbers.items }
{
    g.marks.firing = firing;
}

// A wait awaits this root, or none.
pub(crate) fn set_awaited<St: Store + Drop, Q: Queue + Drop>(
    g: &mut Fields<St, Q>,
    awaited: Option<Link>,
)
    requires kept { IsKept (St.node_at g.old.store) (St.is_bare g.old.store)
        (Q.events g.old.queue) (St.slots g.old.store) (Q.size g.old.queue) g.old.marks }
    ensures kept { IsKept (St.node_at g.new.store) (St.is_bare g.new.store) (Q.events g.new.queue)
        (St.slots g.new.store) (Q.size g.new.queue) g.new.marks }
    ensures stands { (w : World) (a : Option Awaited)
        → Stands (St.node_at g.old.store) (Q.events g.old.queue) (St.stands g.old.store)
        g.old.marks w
        → awaited_root a ≡ link_number awaited
        → Stands (St.node_at g.new.store) (Q.events g.new.queue) (St.stands g.new.store)
        g.new.marks (record w { awaited = a }) }
    ensures falls { Falls (St.node_at g.old.store) (St.node_at g.new.store) g.old.marks
        g.new.marks }
    ensures numbers { g.new.marks.numbers.items ≡ g.old.marks.numbers.items }
{
    g.marks.awaited = awaited;
}
