//! Whether a command would free the node whose event fires.
ghost use Rattle.std.specs.Prelude.{◌≡◌, ◌≤◌, ◌+◌, ◌&&◌, vec_capacity};
ghost use Rattle.kj_model.specs.World.{World};
ghost use Rattle.kj_model.specs.Nodes.{form_at};
ghost use Rattle.promise_nodes.specs.Kept.{OnlyFalls, OnlyRises, is_unreferenced};
ghost use Rattle.promise_nodes.specs.Members.{lists_in};
ghost use Rattle.promise_apply.specs.Dropping.{SeesHub, frees_firing, hub_frees_firing, set_frees_firing};

use kj_base::{Form, Link, Name};
use promise_nodes::Nodes;
use promise_walks::{Frame, unname_hub, would_free, would_free_members};

/// Whether the node whose event fires would go with a tree.
pub(crate) fn frees_firing<N: Nodes>(nodes: &mut N, frames: &mut Vec<Frame>, root: Link) -> bool
    requires room { N.slots nodes.old + 1 ≤ vec_capacity frames.old }
    ensures found { (w : World) → N.stands nodes.old w
        → result ≡ frees_firing w.firing root.number.0 w }
    ensures stands { (w : World) → N.stands nodes.old w → N.stands nodes.new w }
    ensures taken { OnlyFalls (N.is_taken nodes.old) (N.is_taken nodes.new) }
    ensures plain { OnlyRises (N.is_plain nodes.old) (N.is_plain nodes.new) }
    ensures next { N.next nodes.new ≡ N.next nodes.old }
    ensures slots { N.slots nodes.new ≡ N.slots nodes.old }
    ensures room { vec_capacity frames.old ≤ vec_capacity frames.new }
{
    match nodes.firing() {
        Some(node) => would_free(nodes, frames, root, node),
        None => false,
    }
}

// The same with a hub that has no name, where it has no branch.
fn unnamed_frees_firing<N: Nodes>(nodes: &mut N, frames: &mut Vec<Frame>, hub: Link) -> bool
    requires room { N.slots nodes.old + 1 ≤ vec_capacity frames.old }
    ensures found { (w : World) → N.stands nodes.old w → result
        ≡ (is_unreferenced (form_at hub.number.0 w.nodes) && frees_firing w.firing hub.number.0 w) }
    ensures stands { (w : World) → N.stands nodes.old w → N.stands nodes.new w }
    ensures taken { OnlyFalls (N.is_taken nodes.old) (N.is_taken nodes.new) }
    ensures plain { OnlyRises (N.is_plain nodes.old) (N.is_plain nodes.new) }
    ensures next { N.next nodes.new ≡ N.next nodes.old }
    ensures slots { N.slots nodes.new ≡ N.slots nodes.old }
    ensures room { vec_capacity frames.old ≤ vec_capacity frames.new }
{
    if !nodes.is_unreferenced(hub) {
        return false;
    }
    frees_firing(nodes, frames, hub)
}

// The form of a hub.
fn hub_form<N: Nodes>(nodes: &N, hub: Link) -> Option<Form>
    ensures { (w : World) → N.stands nodes.now w → SeesHub result (form_at hub.number.0 w.nodes) }
{
    match nodes.form(hub) {
        Some(Form::Hub { content, is_named }) => Some(Form::Hub {
            content: content.copy(),
            is_named: *is_named,
        }),
        _ => None,
    }
}

/// The same with a hub, once it has no name. It has its name again afterwards.
pub(crate) fn hub_frees_firing<N: Nodes>(nodes: &mut N, frames: &mut Vec<Frame>, hub: Link) -> bool
    requires room { N.slots nodes.old + 1 ≤ vec_capacity frames.old }
    ensures found { (w : World) → N.stands nodes.old w
        → result ≡ hub_frees_firing w.firing hub.number.0 w }
    ensures stands { (w : World) → N.stands nodes.old w → N.stands nodes.new w }
    ensures taken { OnlyFalls (N.is_taken nodes.old) (N.is_taken nodes.new) }
    ensures plain { OnlyRises (N.is_plain nodes.old) (N.is_plain nodes.new) }
    ensures next { N.next nodes.new ≡ N.next nodes.old }
    ensures slots { N.slots nodes.new ≡ N.slots nodes.old }
    ensures room { vec_capacity frames.old ≤ vec_capacity frames.new }
{
    let Some(form) = hub_form(nodes, hub) else {
        return false;
    };
    unname_hub(nodes, hub);
    let found = unnamed_frees_firing(nodes, frames, hub);
    nodes.put(hub, form);
    found
}

/// The same with the tasks of a set, the newest first.
pub(crate) fn set_frees_firing<N: Nodes>(
    nodes: &mut N,
    frames: &mut Vec<Frame>,
    group: Name,
) -> bool
    requires room { N.slots nodes.old + 1 ≤ vec_capacity frames.old }
    ensures found { (w : World) → N.stands nodes.old w
        → result ≡ set_frees_firing w.firing (lists_in w group.0) w }
    ensures stands { (w : World) → N.stands nodes.old w → N.stands nodes.new w }
    ensures taken { OnlyFalls (N.is_taken nodes.old) (N.is_taken nodes.new) }
    ensures plain { OnlyRises (N.is_plain nodes.old) (N.is_plain nodes.new) }
    ensures next { N.next nodes.new ≡ N.next nodes.old }
    ensures slots { N.slots nodes.new ≡ N.slots nodes.old }
    ensures room { vec_capacity frames.old ≤ vec_capacity frames.new }
{
    match nodes.firing() {
        Some(node) => would_free_members(nodes, frames, group, node),
        None => false,
    }
}
