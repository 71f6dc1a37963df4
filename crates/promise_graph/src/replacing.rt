//! A tree takes the place of another.
ghost use Rattle.std.specs.Prelude.{◌≡◌, ◌<◌, ◌≤◌, ◌+◌, ◌∷◌, [], ℕ, List, Option, Some, None, Bool, true, false};
ghost use Rattle.kj_model.specs.World.{World};
ghost use Rattle.kj_model.specs.Nodes.{owner_of, renamed, renamed_tree, renamed_content, renamed_stage, renamed_form};
ghost use Rattle.promise_nodes.specs.Shown.{shown, link_number, content_shown, stage_shown, SeesOwner};
ghost use Rattle.promise_nodes.specs.Kept.{IsLive, OnlyFalls, OnlyRises, RisesIn, tree_replaced};
ghost use Rattle.promise_graph.specs.Slots.{number_at};
ghost use Rattle.promise_graph.specs.Kept.{IsKept, is_taken, is_listed, is_plain};
ghost use Rattle.promise_graph.specs.Rows.{IsReplaced};
ghost use Rattle.promise_graph.specs.Standing.{Stands};

use crate::fields::Fields;
use crate::owners::{owner, take_part};
use crate::putting::set_form;
use kj_base::{Content, Form, Link, Queue, Stage, Store};

// The tree new in place of old.
fn replaced(tree: Link, old: u64, new: Link) -> Link
    ensures { result.number.0 ≡ renamed old new.number.0 tree.number.0 }
{
    if tree.number.0 == old {
        return new;
    }
    tree
}

fn replaced_tree(tree: Option<Link>, old: u64, new: Link) -> Option<Link>
    ensures { link_number result ≡ renamed_tree old new.number.0 (link_number tree) }
{
    match tree {
        Some(link) => Some(replaced(link, old, new)),
        None => None,
    }
}

fn replaced_content(content: &Content, old: u64, new: Link) -> Content
    ensures { content_shown result ≡ renamed_content old new.number.0 (content_shown content.now) }
{
    match content {
        Content::Tree(link) => Content::Tree(replaced(*link, old, new)),
        Content::Kept(outcome) => Content::Kept(outcome.copy()),
    }
}

fn replaced_stage(stage: &Stage, old: u64, new: Link) -> Stage
    ensures { stage_shown result ≡ renamed_stage old new.number.0 (stage_shown stage.now) }
{
    match stage {
        Stage::Waits(link) => Stage::Waits(replaced(*link, old, new)),
        Stage::Fired(link) => Stage::Fired(replaced(*link, old, new)),
        Stage::Keeps(outcome) => Stage::Keeps(outcome.copy()),
        Stage::Gone => Stage::Gone,
    }
}

// The same form with the tree new in place of old; a Then stays under its Chain, and Sides under their Race or Join.
fn replaced_form(form: &Form, old: u64, new: Link) -> Form
    ensures { (branches : List ℕ)
        → shown branches result ≡ renamed_form old new.number.0 (shown branches form.now) }
{
    match form {
        Form::Then { value, error, tree } => Form::Then {
            value: *value,
            error: *error,
            tree: replaced_tree(*tree, old, new),
        },
        Form::Eager { content } => Form::Eager {
            content: replaced_content(content, old, new),
        },
        Form::Wrap { canceler, content } => Form::Wrap {
            canceler: *canceler,
            content: replaced_content(content, old, new),
        },
        Form::Hub { content, is_named } => Form::Hub {
            content: replaced_content(content, old, new),
            is_named: *is_named,
        },
        Form::Side { stage } => Form::Side {
            stage: replaced_stage(stage, old, new),
        },
        Form::Task { tree } => Form::Task {
            tree: replaced_tree(*tree, old, new),
        },
        Form::Request { name, tree } => Form::Request {
            name: *name,
            tree: replaced_tree(*tree, old, new),
        },
        Form::Ready { .. } => form.copy(),
        Form::Later => form.copy(),
        Form::Last => form.copy(),
        Form::Cell { .. } => form.copy(),
        Form::Branch { .. } => form.copy(),
        Form::Chain { .. } => form.copy(),
        Form::Race { .. } => form.copy(),
        Form::Join { .. } => form.copy(),
    }
}

// The tree new takes the place of old under its owner, which has this form then.
fn replace_under<St: Store + Drop, Q: Queue + Drop>(
    g: &mut Fields<St, Q>,
    owner: Link,
    form: Form,
    old: u64,
    new: Link,
)
    requires kept { IsKept (St.node_at g.old.store) (St.is_bare g.old.store)
        (Q.events g.old.queue) (St.slots g.old.store) (Q.size g.old.queue) g.old.marks }
    requires root { is_taken g.old.marks new.number.0 ≡ false }
    requires built { new.number.0 < g.old.marks.next }
    requires live { number_at (St.node_at g.old.store) owner.slot.0 ≡ Some owner.number.0 }
    requires form { IsReplaced (St.node_at g.old.store owner.slot.0) old new.number.0 form }
    ensures kept { IsKept (St.node_at g.new.store) (St.is_bare g.new.store) (Q.events g.new.queue)
        (St.slots g.new.store) (Q.size g.new.queue) g.new.marks }
    ensures stands { (w : World)
        → Stands (St.node_at g.old.store) (Q.events g.old.queue) (St.stands g.old.store)
        g.old.marks w
        → IsLive w old
        → SeesOwner w.nodes (Some owner) (owner_of old w.nodes)
        → Stands (St.node_at g.new.store) (Q.events g.new.queue) (St.stands g.new.store)
        g.new.marks (tree_replaced old new.number.0 w) }
    ensures taken { RisesIn (new.number.0 ∷ []) (is_taken g.old.marks) (is_taken g.new.marks) }
    ensures listed { OnlyFalls (is_listed (St.node_at g.old.store) g.old.marks)
        (is_listed (St.node_at g.new.store) g.new.marks) }
    ensures plain { OnlyRises (is_plain (St.node_at g.old.store) g.old.marks)
        (is_plain (St.node_at g.new.store) g.new.marks) }
    ensures next { g.new.marks.next ≡ g.old.marks.next }
    ensures slots { g.new.marks.slots ≡ g.old.marks.slots }
    ensures numbers { g.new.marks.numbers.items ≡ g.old.marks.numbers.items }
{
    set_form(g, owner.slot, owner.number.0, form);
    take_part(&g.store, &mut g.marks, new, owner);
}

// The tree new takes the place of old under the owner of old, where there is one.
pub(crate) fn replace<St: Store + Drop, Q: Queue + Drop>(
    g: &mut Fields<St, Q>,
    old: Link,
    new: Link,
)
    requires kept { IsKept (St.node_at g.old.store) (St.is_bare g.old.store)
        (Q.events g.old.queue) (St.slots g.old.store) (Q.size g.old.queue) g.old.marks }
    requires root { is_taken g.old.marks new.number.0 ≡ false }
    requires built { new.number.0 < g.old.marks.next }
    ensures kept { IsKept (St.node_at g.new.store) (St.is_bare g.new.store) (Q.events g.new.queue)
        (St.slots g.new.store) (Q.size g.new.queue) g.new.marks }
    ensures stands { (w : World)
        → Stands (St.node_at g.old.store) (Q.events g.old.queue) (St.stands g.old.store)
        g.old.marks w
        → IsLive w old.number.0
        → Stands (St.node_at g.new.store) (Q.events g.new.queue) (St.stands g.new.store)
        g.new.marks (tree_replaced old.number.0 new.number.0 w) }
    ensures root { is_taken g.old.marks old.number.0 ≡ false
        → OnlyFalls (is_taken g.old.marks) (is_taken g.new.marks) }
    ensures taken { RisesIn (new.number.0 ∷ []) (is_taken g.old.marks) (is_taken g.new.marks) }
    ensures listed { OnlyFalls (is_listed (St.node_at g.old.store) g.old.marks)
        (is_listed (St.node_at g.new.store) g.new.marks) }
    ensures plain { OnlyRises (is_plain (St.node_at g.old.store) g.old.marks)
        (is_plain (St.node_at g.new.store) g.new.marks) }
    ensures next { g.new.marks.next ≡ g.old.marks.next }
    ensures slots { g.new.marks.slots ≡ g.old.marks.slots }
    ensures numbers { g.new.marks.numbers.items ≡ g.old.marks.numbers.items }
{
    let Some(owner) = owner(g, old) else {
        return;
    };
    let form = replaced_form(&g.store.get(owner.slot).form, old.number.0, new);
    replace_under(g, owner, form, old.number.0, new);
}
