//! Members of lists, as nodes.
ghost use Rattle.std.specs.Prelude.{◌≡◌, ◌<◌, ◌≤◌, ◌++◌, ◌∷◌, ℕ, List, Option, None, Some, true, find, reverse};
ghost use Rattle.promise_nodes.specs.Shown.{link_number};
ghost use Rattle.promise_nodes.specs.Members.{IsListOf, IsNoMember, with_member, without_member, without_members};
ghost use Rattle.promise_graph.specs.Kept.{AreNumbered};
ghost use Rattle.promise_graph.specs.Members.{is_given};
ghost use Rattle.promise_graph.specs.Memberships.{AreListed, HasLists, HasListsBut, numbered_in};

use crate::fields::Fields;
use crate::finding::find;
use crate::memberships::{Memberships, clear, is_in_list, join, leave, list_at, newest, older};
use kj_base::{Link, Name, NodeId, Queue, Slot, Store};

// A live node that is a member of no list is the newest member of one.
pub(crate) fn join_list<St: Store + Drop, Q: Queue + Drop>(
    g: &Fields<St, Q>,
    x: &mut Memberships,
    node: Link,
    list: Name,
)
    requires numbered { AreNumbered (St.node_at g.now.store) g.now.marks }
    requires listed { AreListed x.old g.now.marks.slots }
    ensures listed { AreListed x.new g.now.marks.slots }
    ensures members { (lists : ℕ → List ℕ)
        → HasLists g.now.marks x.old lists
        → is_given g.now.marks.numbers.items node.number.0 ≡ true
        → IsNoMember node.number.0 lists
        → HasLists g.now.marks x.new (with_member list.0 node.number.0 lists) }
{
    let Some(slot) = find(g, node) else {
        return;
    };
    match list_at(x, slot.0) {
        None => join(x, g.marks.slots, slot, list),
        Some(_) => {}
    }
}

// A node leaves a list, if it is a member of this one.
pub(crate) fn leave_list<St: Store + Drop, Q: Queue + Drop>(
    g: &Fields<St, Q>,
    x: &mut Memberships,
    node: Link,
    list: Name,
)
    requires numbered { AreNumbered (St.node_at g.now.store) g.now.marks }
    requires listed { AreListed x.old g.now.marks.slots }
    ensures listed { AreListed x.new g.now.marks.slots }
    ensures members { (lists : ℕ → List ℕ)
        → HasLists g.now.marks x.old lists
        → HasLists g.now.marks x.new (without_member list.0 node.number.0 lists) }
{
    let Some(slot) = find(g, node) else {
        return;
    };
    if is_in_list(x, slot.0, list) {
        leave(x, g.marks.slots, slot);
    }
}

// A node leaves whichever list it is a member of.
pub(crate) fn leave_any<St: Store + Drop, Q: Queue + Drop>(
    g: &Fields<St, Q>,
    x: &mut Memberships,
    node: Link,
)
    requires numbered { AreNumbered (St.node_at g.now.store) g.now.marks }
    requires listed { AreListed x.old g.now.marks.slots }
    ensures listed { AreListed x.new g.now.marks.slots }
    ensures members { (lists : ℕ → List ℕ)
        → HasLists g.now.marks x.old lists
        → HasListsBut node.number.0 g.now.marks x.new lists }
{
    if let Some(slot) = find(g, node) {
        leave(x, g.marks.slots, slot);
    }
}

// All members leave a list.
pub(crate) fn clear_list<St: Store + Drop, Q: Queue + Drop>(
    g: &Fields<St, Q>,
    x: &mut Memberships,
    list: Name,
)
    requires numbered { AreNumbered (St.node_at g.now.store) g.now.marks }
    requires listed { AreListed x.old g.now.marks.slots }
    ensures listed { AreListed x.new g.now.marks.slots }
    ensures members { (lists : ℕ → List ℕ)
        → HasLists g.now.marks x.old lists
        → HasLists g.now.marks x.new (without_members list.0 lists) }
{
    clear(x, g.marks.slots, list);
}

// The list that a live node is a member of.
pub(crate) fn list_of<St: Store + Drop, Q: Queue + Drop>(
    g: &Fields<St, Q>,
    x: &Memberships,
    node: Link,
) -> Option<Name>
    requires numbered { AreNumbered (St.node_at g.now.store) g.now.marks }
    requires listed { AreListed x.now g.now.marks.slots }
    ensures { (lists : ℕ → List ℕ)
        → HasLists g.now.marks x.now lists
        → is_given g.now.marks.numbers.items node.number.0 ≡ true
        → IsListOf node.number.0 lists result }
{
    let Some(slot) = find(g, node) else {
        return None;
    };
    list_at(x, slot.0)
}

// The node in a slot, if there is one.
fn node_in<St: Store + Drop, Q: Queue + Drop>(g: &Fields<St, Q>, slot: Option<u32>) -> Option<Link>
    ensures { link_number result ≡ numbered_in g.now.marks.numbers.items slot }
{
    let Some(slot) = slot else {
        return None;
    };
    match g.marks.numbers.get(slot as usize) {
        Some(number) => Some(Link {
            slot: Slot(slot),
            number: NodeId(*number),
        }),
        None => None,
    }
}

// The newest live member of a list.
pub(crate) fn newest_member<St: Store + Drop, Q: Queue + Drop>(
    g: &Fields<St, Q>,
    x: &Memberships,
    list: Name,
) -> Option<Link>
    requires numbered { AreNumbered (St.node_at g.now.store) g.now.marks }
    requires listed { AreListed x.now g.now.marks.slots }
    ensures { (lists : ℕ → List ℕ)
        → HasLists g.now.marks x.now lists
        → link_number result
        ≡ find (is_given g.now.marks.numbers.items) (reverse (lists list.0)) }
{
    node_in(g, newest(x, g.marks.slots, list))
}

// The newest of the live members that are older than this one, which lives.
pub(crate) fn older_member<St: Store + Drop, Q: Queue + Drop>(
    g: &Fields<St, Q>,
    x: &Memberships,
    node: Link,
) -> Option<Link>
    requires numbered { AreNumbered (St.node_at g.now.store) g.now.marks }
    requires listed { AreListed x.now g.now.marks.slots }
    ensures { (lists : ℕ → List ℕ) (list : ℕ) (front back : List ℕ)
        → HasLists g.now.marks x.now lists
        → is_given g.now.marks.numbers.items node.number.0 ≡ true
        → lists list ≡ front ++ node.number.0 ∷ back
        → link_number result ≡ find (is_given g.now.marks.numbers.items) (reverse front) }
{
    let Some(slot) = find(g, node) else {
        return None;
    };
    let Some(list) = list_at(x, slot.0) else {
        return None;
    };
    node_in(g, older(x, g.marks.slots, slot, list))
}
