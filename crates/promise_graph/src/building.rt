//! A node comes.
ghost use Rattle.std.specs.Prelude.{◌≡◌, ◌≢◌, ◌<◌, ◌≤◌, ◌+◌, ◌*◌, ◌^◌, ◌∷◌, [], ℕ, List, Option, Some, None, Bool, true, false, IsTrue, vec_len, vec_capacity, length, slice_set};
ghost use Rattle.kj_base.specs.Places.{Row, row};
ghost use Rattle.kj_base.specs.Store.{slot_number, IsBareOrNone, rows_after};
ghost use Rattle.kj_model.specs.World.{World};
ghost use Rattle.kj_model.specs.Nodes.{form_at};
ghost use Rattle.kj_model.specs.Places.{built};
ghost use Rattle.promise_nodes.specs.Shown.{shown, link_number};
ghost use Rattle.promise_nodes.specs.Kept.{IsPart, AreRoots, AreBuilt, AreRowsBuilt, RisesIn, OnlyFalls, OnlyRises, rows_left};
ghost use Rattle.promise_graph.specs.Kept.{IsKept, IsSound, AreNumbered, is_taken, is_listed, is_plain, form_parts};
ghost use Rattle.promise_graph.specs.Standing.{Stands, IsSeen};
ghost use Rattle.promise_graph.specs.Rows.{Comes, FindsBefore, name_before, room_of, IsAdded};

use crate::fields::{Fields, Marks};
use crate::finding::find;
use crate::freeing::set_number;
use crate::index::{add_entry, compact};
use crate::making::nobody;
use crate::owners::{set_taker, take_parts};
use crate::parts::parts;
use crate::putting::is_hub;
use crate::rings::list_if;
use kj_base::{Form, Link, Node, NodeId, Queue, Slot, Store};

// Room for one more entry: stale ones go where none is left.
fn make_room<St: Store + Drop>(_store: &St, marks: &mut Marks)
    requires numbered { AreNumbered (St.node_at _store.now) marks.old }
    ensures numbered { AreNumbered (St.node_at _store.now) marks.new }
    ensures room { vec_len marks.new.index < vec_capacity marks.new.index }
    ensures others { marks.new ≡ record marks.old { index = marks.new.index } }
{
    if marks.index.len() > 2 * marks.slots as usize {
        compact(&mut marks.index, &marks.numbers);
    }
}

// The slot of a node before which one is built. A node that isn't live has none.
pub(crate) fn find_before<St: Store + Drop, Q: Queue + Drop>(
    g: &Fields<St, Q>,
    before: Option<Link>,
) -> Option<Slot>
    requires { AreNumbered (St.node_at g.now.store) g.now.marks }
    ensures { FindsBefore (St.node_at g.now.store) (link_number before) (slot_number result) }
{
    match before {
        Some(link) => find(g, link),
        None => None,
    }
}

// A node that nobody took, with the next number, in a slot before this one or anew.
fn place_node<St: Store + Drop, Q: Queue + Drop>(
    g: &mut Fields<St, Q>,
    before: Option<Slot>,
    form: Form,
) -> Slot
    requires sound { IsSound (St.node_at g.old.store) (Q.events g.old.queue)
        (St.slots g.old.store) (Q.size g.old.queue) g.old.marks }
    requires owners { length g.old.marks.owners.items ≡ g.old.marks.slots }
    requires bare { IsBareOrNone (St.is_bare g.old.store) (slot_number before) }
    requires fits { IsTrue (St.room g.old.store (row (slot_number before) 1 ∷ [])) }
    requires numbers { g.old.marks.next < 2 ^ 63 + 9 }
    requires room { vec_len g.old.marks.index < vec_capacity g.old.marks.index }
    ensures sound { IsSound (St.node_at g.new.store) (Q.events g.new.queue) (St.slots g.new.store)
        (Q.size g.new.queue) g.new.marks }
    ensures seen { (w : World)
        → IsSeen (St.node_at g.old.store) (Q.events g.old.queue) (St.stands g.old.store)
        g.old.marks w
        → IsSeen (St.node_at g.new.store) (Q.events g.new.queue) (St.stands g.new.store)
        g.new.marks
        (built (name_before (St.node_at g.old.store) (slot_number before)) (shown [] form) w) }
    ensures added { IsAdded (St.node_at g.old.store) (St.node_at g.new.store)
        (St.is_bare g.old.store) (St.is_bare g.new.store) g.old.marks g.new.marks
        (slot_number before) result.0 form }
    ensures rest { (more : List Row) (count : ℕ)
        → 0 < count
        → IsTrue (St.room g.old.store (row (slot_number before) count ∷ more))
        → IsTrue (St.room g.new.store (rows_after result.0 count more)) }
{
    let number = g.marks.next;
    let is_hub = is_hub(&form);
    let slot = g.store.place(
        before,
        Node {
            number: NodeId(number),
            form,
        },
    );
    set_number(&mut g.marks.numbers, slot.0, number);
    set_taker(&mut g.marks.owners, slot.0, nobody());
    add_entry(&mut g.marks.index, number, slot.0);
    g.marks.next = number + 1;
    let head = g.marks.slots;
    list_if(&mut g.marks.hubs, slot.0, head, is_hub);
    slot
}

// A node with the next number, before another one or anew. It takes the trees that its form has.
pub(crate) fn build<St: Store + Drop, Q: Queue + Drop>(
    g: &mut Fields<St, Q>,
    before: Option<Link>,
    form: Form,
) -> Link
    requires kept { IsKept (St.node_at g.old.store) (St.is_bare g.old.store)
        (Q.events g.old.queue) (St.slots g.old.store) (Q.size g.old.queue) g.old.marks }
    requires before { IsPart (link_number before) (form_parts form) }
    requires roots { AreRoots (is_taken g.old.marks) (form_parts form) }
    requires built { AreBuilt g.old.marks.next (form_parts form) }
    requires fits { IsTrue
        (room_of (St.room g.old.store) g.old.marks (row (link_number before) 1 ∷ [])) }
    requires numbers { g.old.marks.next < 2 ^ 63 + 9 }
    ensures kept { IsKept (St.node_at g.new.store) (St.is_bare g.new.store) (Q.events g.new.queue)
        (St.slots g.new.store) (Q.size g.new.queue) g.new.marks }
    ensures stands { (w : World)
        → Stands (St.node_at g.old.store) (Q.events g.old.queue) (St.stands g.old.store)
        g.old.marks w
        → Stands (St.node_at g.new.store) (Q.events g.new.queue) (St.stands g.new.store)
        g.new.marks (built (link_number before) (shown [] form) w) }
    ensures number { result.number.0 ≡ g.old.marks.next }
    ensures anew { (w : World)
        → Stands (St.node_at g.old.store) (Q.events g.old.queue) (St.stands g.old.store)
        g.old.marks w
        → form_at g.old.marks.next w.nodes ≡ None }
    ensures root { is_taken g.new.marks result.number.0 ≡ false }
    ensures unlisted { is_listed (St.node_at g.new.store) g.new.marks result.number.0 ≡ false }
    ensures next { g.new.marks.next ≡ g.old.marks.next + 1 }
    ensures slots { g.new.marks.slots ≡ g.old.marks.slots }
    ensures taken { RisesIn (form_parts form) (is_taken g.old.marks) (is_taken g.new.marks) }
    ensures listed { OnlyFalls (is_listed (St.node_at g.old.store) g.old.marks)
        (is_listed (St.node_at g.new.store) g.new.marks) }
    ensures plain { OnlyRises (is_plain (St.node_at g.old.store) g.old.marks)
        (is_plain (St.node_at g.new.store) g.new.marks) }
    ensures rest { (more : List Row) (count : ℕ)
        → 0 < count
        → AreRowsBuilt g.old.marks.next more
        → IsTrue
        (room_of (St.room g.old.store) g.old.marks (row (link_number before) count ∷ more))
        → IsTrue
        (room_of (St.room g.new.store) g.new.marks (rows_left g.old.marks.next count more)) }
    ensures comes { Comes (St.node_at g.old.store) (St.node_at g.new.store) g.old.marks.next }
{
    make_room(&g.store, &mut g.marks);
    let parts = parts(&form);
    let number = NodeId(g.marks.next);
    let slot_before = find_before(g, before);
    let slot = place_node(g, slot_before, form);
    let link = Link { slot, number };
    take_parts(&g.store, &mut g.marks, parts, link);
    link
}
