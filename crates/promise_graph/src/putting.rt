//! A node gets another form.
ghost use Rattle.std.specs.Prelude.{◌≡◌, ◌<◌, ◌≤◌, ◌+◌, ℕ, Option, Some, None, Bool, true, false, []};
ghost use Rattle.kj_model.specs.World.{World};
ghost use Rattle.kj_model.specs.Nodes.{form_at};
ghost use Rattle.promise_nodes.specs.Shown.{shown};
ghost use Rattle.promise_nodes.specs.Kept.{KeepsKind, AddsNone, put_form, is_hub, hub_of};
ghost use Rattle.promise_graph.specs.Slots.{number_at};
ghost use Rattle.promise_graph.specs.Kept.{IsKept, Falls, is_same_kind, is_there};
ghost use Rattle.promise_graph.specs.Standing.{IsSeen, Stands};
ghost use Rattle.kj_base.specs.Store.{KeepsOthers};
ghost use Rattle.kj_base.specs.declared.nodes.Node.{Node};

use crate::fields::Fields;
use crate::finding::find;
use kj_base::{Form, Link, Node, NodeId, Queue, Slot, Store};

// Whether it is a hub.
pub(crate) fn is_hub(form: &Form) -> bool
    ensures { result ≡ is_hub (shown [] form.now) }
{
    matches!(form, Form::Hub { .. })
}

// The hub of a branch.
pub(crate) fn hub_of(form: &Form) -> Option<u64>
    ensures { result ≡ hub_of (shown [] form.now) }
{
    match form {
        Form::Branch { hub } => Some(hub.number.0),
        _ => None,
    }
}

// Whether a hub stays a hub, and a branch the hub's, and nothing else becomes one of them.
fn is_same_kind(old: &Form, new: &Form) -> bool
    ensures { result ≡ is_same_kind old.now new.now }
{
    is_hub(old) == is_hub(new) && hub_of(old) == hub_of(new)
}

// The node in a slot has this form now, which is of its kind; nothing is said of who owns whom.
pub(crate) fn set_form<St: Store + Drop, Q: Queue + Drop>(
    g: &mut Fields<St, Q>,
    slot: Slot,
    n: u64,
    form: Form,
)
    requires kept { IsKept (St.node_at g.old.store) (St.is_bare g.old.store)
        (Q.events g.old.queue) (St.slots g.old.store) (Q.size g.old.queue) g.old.marks }
    requires live { number_at (St.node_at g.old.store) slot.0 ≡ Some n }
    requires kind { (node : Node)
        → St.node_at g.old.store slot.0 ≡ Some node
        → is_same_kind node.form form ≡ true }
    ensures kept { IsKept (St.node_at g.new.store) (St.is_bare g.new.store) (Q.events g.new.queue)
        (St.slots g.new.store) (Q.size g.new.queue) g.new.marks }
    ensures seen { (w : World)
        → IsSeen (St.node_at g.old.store) (Q.events g.old.queue) (St.stands g.old.store)
        g.old.marks w
        → IsSeen (St.node_at g.new.store) (Q.events g.new.queue) (St.stands g.new.store)
        g.new.marks (put_form n form w) }
    ensures falls { Falls (St.node_at g.old.store) (St.node_at g.new.store) g.old.marks
        g.new.marks }
    ensures changed { St.node_at g.new.store slot.0
        ≡ Some (record { number = record { 0 = n }; form = form }) }
    ensures nodes { KeepsOthers (St.node_at g.old.store) (St.node_at g.new.store) slot.0 }
    ensures marks { g.new.marks ≡ g.old.marks }
{
    g.store.set(
        slot,
        Node {
            number: NodeId(n),
            form,
        },
    );
}

// The node in a slot has this form now, which is of its kind and has no new tree.
fn put_in<St: Store + Drop, Q: Queue + Drop>(g: &mut Fields<St, Q>, slot: Slot, n: u64, form: Form)
    requires kept { IsKept (St.node_at g.old.store) (St.is_bare g.old.store)
        (Q.events g.old.queue) (St.slots g.old.store) (Q.size g.old.queue) g.old.marks }
    requires live { number_at (St.node_at g.old.store) slot.0 ≡ Some n }
    requires kind { (node : Node)
        → St.node_at g.old.store slot.0 ≡ Some node
        → is_same_kind node.form form ≡ true }
    ensures kept { IsKept (St.node_at g.new.store) (St.is_bare g.new.store) (Q.events g.new.queue)
        (St.slots g.new.store) (Q.size g.new.queue) g.new.marks }
    ensures stands { (w : World)
        → Stands (St.node_at g.old.store) (Q.events g.old.queue) (St.stands g.old.store)
        g.old.marks w
        → AddsNone w n (shown [] form)
        → Stands (St.node_at g.new.store) (Q.events g.new.queue) (St.stands g.new.store)
        g.new.marks (put_form n form w) }
    ensures falls { Falls (St.node_at g.old.store) (St.node_at g.new.store) g.old.marks
        g.new.marks }
    ensures numbers { g.new.marks.numbers.items ≡ g.old.marks.numbers.items }
{
    set_form(g, slot, n, form);
}

// A node has this form now, where it is live and was of this kind before.
pub(crate) fn put<St: Store + Drop, Q: Queue + Drop>(g: &mut Fields<St, Q>, node: Link, form: Form)
    requires kept { IsKept (St.node_at g.old.store) (St.is_bare g.old.store)
        (Q.events g.old.queue) (St.slots g.old.store) (Q.size g.old.queue) g.old.marks }
    ensures kept { IsKept (St.node_at g.new.store) (St.is_bare g.new.store) (Q.events g.new.queue)
        (St.slots g.new.store) (Q.size g.new.queue) g.new.marks }
    ensures stands { (w : World)
        → Stands (St.node_at g.old.store) (Q.events g.old.queue) (St.stands g.old.store)
        g.old.marks w
        → KeepsKind form (form_at node.number.0 w.nodes)
        → AddsNone w node.number.0 (shown [] form)
        → Stands (St.node_at g.new.store) (Q.events g.new.queue) (St.stands g.new.store)
        g.new.marks (put_form node.number.0 form w) }
    ensures falls { Falls (St.node_at g.old.store) (St.node_at g.new.store) g.old.marks
        g.new.marks }
    ensures numbers { g.new.marks.numbers.items ≡ g.old.marks.numbers.items }
{
    let Some(slot) = find(g, node) else {
        return;
    };
    if is_same_kind(&g.store.get(slot).form, &form) {
        put_in(g, slot, node.number.0, form);
    }
}
