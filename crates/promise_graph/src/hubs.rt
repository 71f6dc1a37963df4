//! Hubs and their branches.
ghost use Rattle.std.specs.Prelude.{◌≡◌, ◌≢◌, ◌<◌, ◌≤◌, ◌+◌, ◌++◌, ◌∷◌, [], ℕ, List, Option, Some, None, Bool, true, false, length, slice_index_or, if◌then◌else◌, ◌==◌, ◌&&◌, IsSome};
ghost use Rattle.kj_base.specs.Queue.{first_of};
ghost use Rattle.kj_model.specs.World.{World};
ghost use Rattle.kj_model.specs.Nodes.{form_at, Branch};
ghost use Rattle.kj_model.specs.Fire.{branches_of};
ghost use Rattle.kj_model.specs.Free.{without_branch};
ghost use Rattle.kj_model.specs.Effects.{with_branch_in};
ghost use Rattle.promise_nodes.specs.Shown.{link_number, shown};
ghost use Rattle.promise_nodes.specs.Kept.{is_unreferenced, is_hub};
ghost use Rattle.promise_graph.specs.Slots.{number_at};
ghost use Rattle.promise_graph.specs.Rings.{next_at};
ghost use Rattle.promise_graph.specs.Kept.{IsKept, Falls, Rises, hub_of, is_hub_node, is_listed, is_same};
ghost use Rattle.promise_graph.specs.Named.{is_nameless};
ghost use Rattle.promise_graph.specs.Standing.{Stands};

use crate::fields::Fields;
use crate::finding::find;
use crate::putting::{hub_of, is_hub};
use crate::rings::{behind, cut, join};
use kj_base::{Form, Link, NodeId, Queue, Slot, Store};

// A branch in a slot leaves its ring.
fn leave_slot<St: Store + Drop, Q: Queue + Drop>(g: &mut Fields<St, Q>, slot: Slot, branch: u64)
    requires kept { IsKept (St.node_at g.old.store) (St.is_bare g.old.store)
        (Q.events g.old.queue) (St.slots g.old.store) (Q.size g.old.queue) g.old.marks }
    requires live { number_at (St.node_at g.old.store) slot.0 ≡ Some branch }
    ensures kept { IsKept (St.node_at g.new.store) (St.is_bare g.new.store) (Q.events g.new.queue)
        (St.slots g.new.store) (Q.size g.new.queue) g.new.marks }
    ensures stands { (w : World) (hub : ℕ)
        → Stands (St.node_at g.old.store) (Q.events g.old.queue) (St.stands g.old.store)
        g.old.marks w
        → form_at branch w.nodes ≡ Some (Branch hub)
        → Stands (St.node_at g.new.store) (Q.events g.new.queue) (St.stands g.new.store)
        g.new.marks (without_branch branch hub w) }
    ensures unlisted { is_listed (St.node_at g.new.store) g.new.marks branch ≡ false }
    ensures falls { Falls (St.node_at g.old.store) (St.node_at g.new.store) g.old.marks
        g.new.marks }
    ensures numbers { g.new.marks.numbers.items ≡ g.old.marks.numbers.items }
{
    cut(&mut g.marks.rings, slot.0);
}

// A branch leaves its hub.
fn leave<St: Store + Drop, Q: Queue + Drop>(g: &mut Fields<St, Q>, branch: Link)
    requires kept { IsKept (St.node_at g.old.store) (St.is_bare g.old.store)
        (Q.events g.old.queue) (St.slots g.old.store) (Q.size g.old.queue) g.old.marks }
    ensures kept { IsKept (St.node_at g.new.store) (St.is_bare g.new.store) (Q.events g.new.queue)
        (St.slots g.new.store) (Q.size g.new.queue) g.new.marks }
    ensures stands { (w : World) (hub : ℕ)
        → Stands (St.node_at g.old.store) (Q.events g.old.queue) (St.stands g.old.store)
        g.old.marks w
        → form_at branch.number.0 w.nodes ≡ Some (Branch hub)
        → Stands (St.node_at g.new.store) (Q.events g.new.queue) (St.stands g.new.store)
        g.new.marks (without_branch branch.number.0 hub w) }
    ensures unlisted { is_listed (St.node_at g.new.store) g.new.marks branch.number.0 ≡ false }
    ensures falls { Falls (St.node_at g.old.store) (St.node_at g.new.store) g.old.marks
        g.new.marks }
    ensures numbers { g.new.marks.numbers.items ≡ g.old.marks.numbers.items }
{
    if let Some(slot) = find(g, branch) {
        leave_slot(g, slot, branch.number.0);
    }
}

// A hub without a name.
fn is_nameless(form: &Form) -> bool
    ensures { result ≡ is_nameless (shown [] form.now) }
{
    matches!(
        form,
        Form::Hub {
            is_named: false,
            ..
        }
    )
}

// Whether a hub has neither name nor branch.
pub(crate) fn is_unreferenced<St: Store + Drop, Q: Queue + Drop>(
    g: &Fields<St, Q>,
    hub: Link,
) -> bool
    requires { IsKept (St.node_at g.now.store) (St.is_bare g.now.store) (Q.events g.now.queue)
        (St.slots g.now.store) (Q.size g.now.queue) g.now.marks }
    ensures { (w : World)
        → Stands (St.node_at g.now.store) (Q.events g.now.queue) (St.stands g.now.store)
        g.now.marks w
        → result ≡ is_unreferenced (form_at hub.number.0 w.nodes) }
{
    let Some(slot) = find(g, hub) else {
        return false;
    };
    is_nameless(&g.store.get(slot).form) && behind(&g.marks.rings, slot.0) == slot.0
}

// A branch leaves its hub; whether the hub has neither name nor branch now.
pub(crate) fn leave_hub<St: Store + Drop, Q: Queue + Drop>(
    g: &mut Fields<St, Q>,
    branch: Link,
    hub: Link,
) -> bool
    requires kept { IsKept (St.node_at g.old.store) (St.is_bare g.old.store)
        (Q.events g.old.queue) (St.slots g.old.store) (Q.size g.old.queue) g.old.marks }
    ensures kept { IsKept (St.node_at g.new.store) (St.is_bare g.new.store) (Q.events g.new.queue)
        (St.slots g.new.store) (Q.size g.new.queue) g.new.marks }
    ensures stands { (w : World)
        → Stands (St.node_at g.old.store) (Q.events g.old.queue) (St.stands g.old.store)
        g.old.marks w
        → form_at branch.number.0 w.nodes ≡ Some (Branch hub.number.0)
        → Stands (St.node_at g.new.store) (Q.events g.new.queue) (St.stands g.new.store)
        g.new.marks (without_branch branch.number.0 hub.number.0 w) }
    ensures last { (w : World)
        → Stands (St.node_at g.old.store) (Q.events g.old.queue) (St.stands g.old.store)
        g.old.marks w
        → form_at branch.number.0 w.nodes ≡ Some (Branch hub.number.0)
        → result ≡ is_unreferenced
        (form_at hub.number.0 (without_branch branch.number.0 hub.number.0 w).nodes) }
    ensures unlisted { is_listed (St.node_at g.new.store) g.new.marks branch.number.0 ≡ false }
    ensures falls { Falls (St.node_at g.old.store) (St.node_at g.new.store) g.old.marks
        g.new.marks }
    ensures numbers { g.new.marks.numbers.items ≡ g.old.marks.numbers.items }
{
    leave(g, branch);
    is_unreferenced(g, hub)
}

// The node in a slot, where it isn't the hub with which its ring begins.
fn branch_in<St: Store + Drop, Q: Queue + Drop>(
    g: &Fields<St, Q>,
    slot: u32,
    hub: u64,
) -> Option<Link>
    requires { slot < length g.now.marks.numbers.items }
    ensures { link_number result
        ≡ (if slice_index_or g.now.marks.numbers.items slot 0 == hub then None else Some
        (slice_index_or g.now.marks.numbers.items slot 0)) }
{
    let number = g.marks.numbers[slot as usize];
    if number == hub {
        return None;
    }
    Some(Link {
        slot: Slot(slot),
        number: NodeId(number),
    })
}

// The oldest branch of a hub.
pub(crate) fn first_branch<St: Store + Drop, Q: Queue + Drop>(
    g: &Fields<St, Q>,
    hub: Link,
) -> Option<Link>
    requires { IsKept (St.node_at g.now.store) (St.is_bare g.now.store) (Q.events g.now.queue)
        (St.slots g.now.store) (Q.size g.now.queue) g.now.marks }
    ensures { (w : World)
        → Stands (St.node_at g.now.store) (Q.events g.now.queue) (St.stands g.now.store)
        g.now.marks w
        → link_number result ≡ first_of (branches_of (form_at hub.number.0 w.nodes)) }
{
    let Some(slot) = find(g, hub) else {
        return None;
    };
    if is_hub(&g.store.get(slot).form) {
        return branch_in(g, behind(&g.marks.rings, slot.0), hub.number.0);
    }
    None
}

// The branch that was made after this one.
pub(crate) fn next_branch<St: Store + Drop, Q: Queue + Drop>(
    g: &Fields<St, Q>,
    branch: Link,
) -> Option<Link>
    requires { IsKept (St.node_at g.now.store) (St.is_bare g.now.store) (Q.events g.now.queue)
        (St.slots g.now.store) (Q.size g.now.queue) g.now.marks }
    ensures { (w : World) (hub : ℕ) (front back : List ℕ)
        → Stands (St.node_at g.now.store) (Q.events g.now.queue) (St.stands g.now.store)
        g.now.marks w
        → branches_of (form_at hub w.nodes) ≡ front ++ branch.number.0 ∷ back
        → link_number result ≡ first_of back }
{
    let Some(slot) = find(g, branch) else {
        return None;
    };
    let Some(hub) = hub_of(&g.store.get(slot).form) else {
        return None;
    };
    branch_in(g, behind(&g.marks.rings, slot.0), hub)
}

// Whether a slot has a branch of the hub in another one.
fn is_branch_of<St: Store + Drop, Q: Queue + Drop>(
    g: &Fields<St, Q>,
    branch: Slot,
    slot: Slot,
    hub: u64,
) -> bool
    requires branch { IsSome (St.node_at g.now.store branch.0) }
    requires hub { IsSome (St.node_at g.now.store slot.0) }
    ensures { result
        ≡ (is_same (hub_of (St.node_at g.now.store branch.0)) (Some hub) && is_hub_node
        (St.node_at g.now.store slot.0)) }
{
    hub_of(&g.store.get(branch).form) == Some(hub) && is_hub(&g.store.get(slot).form)
}

// A branch in a slot is the newest of its hub.
fn join_slot<St: Store + Drop, Q: Queue + Drop>(
    g: &mut Fields<St, Q>,
    slot: Slot,
    branch: u64,
    hub_slot: Slot,
    hub: u64,
)
    requires kept { IsKept (St.node_at g.old.store) (St.is_bare g.old.store)
        (Q.events g.old.queue) (St.slots g.old.store) (Q.size g.old.queue) g.old.marks }
    requires live { number_at (St.node_at g.old.store) slot.0 ≡ Some branch }
    requires hub_live { number_at (St.node_at g.old.store) hub_slot.0 ≡ Some hub }
    requires is { (is_same (hub_of (St.node_at g.old.store slot.0)) (Some hub) && is_hub_node
        (St.node_at g.old.store hub_slot.0)) ≡ true }
    requires unlisted { is_listed (St.node_at g.old.store) g.old.marks branch ≡ false }
    ensures kept { IsKept (St.node_at g.new.store) (St.is_bare g.new.store) (Q.events g.new.queue)
        (St.slots g.new.store) (Q.size g.new.queue) g.new.marks }
    ensures stands { (w : World)
        → Stands (St.node_at g.old.store) (Q.events g.old.queue) (St.stands g.old.store)
        g.old.marks w
        → Stands (St.node_at g.new.store) (Q.events g.new.queue) (St.stands g.new.store)
        g.new.marks (with_branch_in branch hub (form_at hub w.nodes) w) }
    ensures rises { Rises (branch ∷ []) (St.node_at g.old.store) (St.node_at g.new.store)
        g.old.marks g.new.marks }
    ensures numbers { g.new.marks.numbers.items ≡ g.old.marks.numbers.items }
{
    join(&mut g.marks.rings, slot.0, hub_slot.0);
}

// A branch is its hub's newest.
pub(crate) fn join_hub<St: Store + Drop, Q: Queue + Drop>(
    g: &mut Fields<St, Q>,
    branch: Link,
    hub: Link,
)
    requires kept { IsKept (St.node_at g.old.store) (St.is_bare g.old.store)
        (Q.events g.old.queue) (St.slots g.old.store) (Q.size g.old.queue) g.old.marks }
    requires unlisted { is_listed (St.node_at g.old.store) g.old.marks branch.number.0 ≡ false }
    ensures kept { IsKept (St.node_at g.new.store) (St.is_bare g.new.store) (Q.events g.new.queue)
        (St.slots g.new.store) (Q.size g.new.queue) g.new.marks }
    ensures stands { (w : World)
        → Stands (St.node_at g.old.store) (Q.events g.old.queue) (St.stands g.old.store)
        g.old.marks w
        → form_at branch.number.0 w.nodes ≡ Some (Branch hub.number.0)
        → Stands (St.node_at g.new.store) (Q.events g.new.queue) (St.stands g.new.store)
        g.new.marks
        (with_branch_in branch.number.0 hub.number.0 (form_at hub.number.0 w.nodes) w) }
    ensures rises { Rises (branch.number.0 ∷ []) (St.node_at g.old.store) (St.node_at g.new.store)
        g.old.marks g.new.marks }
    ensures numbers { g.new.marks.numbers.items ≡ g.old.marks.numbers.items }
{
    let Some(slot) = find(g, branch) else {
        return;
    };
    let Some(hub_slot) = find(g, hub) else {
        return;
    };
    if is_branch_of(g, slot, hub_slot, hub.number.0) {
        join_slot(g, slot, branch.number.0, hub_slot, hub.number.0);
    }
}
