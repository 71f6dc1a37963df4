//! Who listens to a tree.
ghost use Rattle.std.specs.Prelude.{◌≡◌, ◌+◌, ◌==◌, ℕ, List, Option, Some, None, Bool, true, false, option_copied};
ghost use Rattle.kj_model.specs.World.{World};
ghost use Rattle.kj_model.specs.Nodes.{Form as Seen, form_at, has_event};
ghost use Rattle.kj_model.specs.Listening.{listener, root_listener};
ghost use Rattle.promise_nodes.specs.Shown.{shown, link_number};
ghost use Rattle.promise_nodes.specs.Kept.{IsLive};
ghost use Rattle.promise_listening.specs.Readiness.{IsAbove, IsListener, IsFoundListener};

use kj_base::{Form, Link, NodeId, Slot};
use promise_nodes::Nodes;

/// What one owner tells: who listens, or the owner on whose owner that depends.
#[derive(Clone, Copy)]
pub enum Above {
    Found(Option<Link>),
    Higher(Link),
}

/// The event of the wait, who listens to the tree that is awaited.
pub const WAIT: Link = Link {
    slot: Slot(0),
    number: NodeId(0),
};

fn may_listen(form: &Form) -> bool
    ensures { (branches : List ℕ) → result ≡ has_event (shown branches form.now) }
{
    match form {
        Form::Chain { .. } | Form::Eager { .. } | Form::Wrap { .. } | Form::Hub { .. } => true,
        Form::Side { .. } | Form::Task { .. } | Form::Request { .. } => true,
        Form::Ready { .. } | Form::Later | Form::Last | Form::Cell { .. } => false,
        Form::Branch { .. } | Form::Then { .. } | Form::Race { .. } | Form::Join { .. } => false,
    }
}

// Whether a node that is live has an event.
fn is_listening<N: Nodes>(nodes: &N, node: Link) -> bool
    ensures { (w : World) (form : Seen)
        → N.stands nodes.now w
        → form_at node.number.0 w.nodes ≡ Some form
        → result ≡ has_event form }
{
    match nodes.form(node) {
        Some(form) => may_listen(form),
        None => false,
    }
}

fn awaited_listener<N: Nodes>(nodes: &N, root: Link) -> Option<Link>
    ensures listener { (w : World)
        → N.stands nodes.now w
        → root_listener w.awaited root.number.0 ≡ link_number result }
    ensures event { (w : World) → IsListener w (link_number result) }
{
    match nodes.awaited() {
        Some(awaited) if awaited.number.0 == root.number.0 => Some(WAIT),
        _ => None,
    }
}

fn look_above<N: Nodes>(nodes: &N, node: Link) -> Above
    ensures above { (w : World)
        → N.stands nodes.now w
        → IsLive w node.number.0
        → IsAbove result w node.number.0 }
    ensures event { (w : World)
        → N.stands nodes.now w
        → IsLive w node.number.0
        → IsFoundListener result w }
{
    match nodes.owner(node) {
        None => Above::Found(awaited_listener(nodes, node)),
        Some(owner) => {
            if is_listening(nodes, owner) {
                Above::Found(Some(owner))
            } else {
                Above::Higher(owner)
            }
        }
    }
}

/// The nearest node with an event above a live node, or the wait, or nobody.
pub fn listener<N: Nodes>(nodes: &N, node: Link) -> Option<Link>
    ensures listener { (w : World)
        → N.stands nodes.now w
        → IsLive w node.number.0
        → listener node.number.0 w ≡ link_number result }
    ensures event { (w : World)
        → N.stands nodes.now w
        → IsLive w node.number.0
        → IsListener w (link_number result) }
{
    let mut at = node;
    let mut left = u64::from(nodes.slots()) + 1;
    'up: while left > 0 {
        match look_above(nodes, at) {
            Above::Found(by) => return by,
            Above::Higher(owner) => at = owner,
        }
        left -= 1;
    }
    None
}
