//! Arming who listens, and settling.
ghost use Rattle.std.specs.Prelude.{◌≡◌, ◌+◌, ℕ, List, Option, Some, None, Bool, true, false, option_copied};
ghost use Rattle.kj_model.specs.World.{World};
ghost use Rattle.kj_model.specs.Nodes.{form_at, kept_form};
ghost use Rattle.kj_model.specs.Changes.{arm_listener};
ghost use Rattle.kj_model.specs.Listening.{announced, listened, settled, listened_way};
ghost use Rattle.kj_model.specs.Fire.{keeps};
ghost use Rattle.kj_model.specs.Uses.{waits_at};
ghost use Rattle.promise_nodes.specs.Kept.{OnlyFalls, OnlyRises, IsLive};
ghost use Rattle.promise_nodes.specs.Shown.{shown, link_number, way_of};
ghost use Rattle.promise_listening.specs.Readiness.{IsListener};

use crate::above::listener;
use crate::ready::{is_last, is_ready};
use kj_base::{Content, Form, Link, Outcome, Stage};
use promise_nodes::{Nodes, Way};

/// Who listens is armed, where there is somebody.
pub fn arm<N: Nodes>(nodes: &mut N, way: Way, by: Option<Link>)
    ensures stands { (w : World)
        → N.stands nodes.old w
        → IsListener w (link_number by)
        → N.stands nodes.new (arm_listener (way_of way) (link_number by) w) }
    ensures taken { OnlyFalls (N.is_taken nodes.old) (N.is_taken nodes.new) }
    ensures listed { OnlyFalls (N.is_listed nodes.old) (N.is_listed nodes.new) }
    ensures plain { OnlyRises (N.is_plain nodes.old) (N.is_plain nodes.new) }
    ensures next { N.next nodes.new ≡ N.next nodes.old }
    ensures slots { N.slots nodes.new ≡ N.slots nodes.old }
{
    if let Some(node) = by {
        nodes.arm(way, node);
    }
}

/// The tree of a live node became ready: who listens to it is armed.
pub fn announce<N: Nodes>(nodes: &mut N, way: Way, node: Link)
    ensures stands { (w : World)
        → N.stands nodes.old w
        → IsLive w node.number.0
        → N.stands nodes.new (announced (way_of way) node.number.0 w) }
    ensures taken { OnlyFalls (N.is_taken nodes.old) (N.is_taken nodes.new) }
    ensures listed { OnlyFalls (N.is_listed nodes.old) (N.is_listed nodes.new) }
    ensures plain { OnlyRises (N.is_plain nodes.old) (N.is_plain nodes.new) }
    ensures next { N.next nodes.new ≡ N.next nodes.old }
    ensures slots { N.slots nodes.new ≡ N.slots nodes.old }
{
    let by = listener(nodes, node);
    arm(nodes, way, by);
}

fn way_when_ready(is_last: bool) -> Way
    ensures { way_of result ≡ listened_way is_last }
{
    if is_last {
        Way::AtLast
    } else {
        Way::BreadthFirst
    }
}

/// The tree of a root got a listener: where it is ready, it arms it.
pub fn listen<N: Nodes>(nodes: &mut N, root: Link)
    ensures stands { (w : World)
        → N.stands nodes.old w
        → N.stands nodes.new (listened root.number.0 w) }
    ensures taken { OnlyFalls (N.is_taken nodes.old) (N.is_taken nodes.new) }
    ensures listed { OnlyFalls (N.is_listed nodes.old) (N.is_listed nodes.new) }
    ensures plain { OnlyRises (N.is_plain nodes.old) (N.is_plain nodes.new) }
    ensures next { N.next nodes.new ≡ N.next nodes.old }
    ensures slots { N.slots nodes.new ≡ N.slots nodes.old }
{
    if !is_ready(nodes, root) {
        return;
    }
    let way = way_when_ready(is_last(nodes, root));
    announce(nodes, way, root);
}

fn is_waiting<N: Nodes>(nodes: &N, cell: Link) -> bool
    ensures { (w : World)
        → N.stands nodes.now w
        → result ≡ waits_at (form_at cell.number.0 w.nodes) }
{
    match nodes.form(cell) {
        Some(Form::Cell { outcome: None }) => true,
        _ => false,
    }
}

/// A cell that waits gets its outcome, and who listens to it is armed; a cell that doesn't wait stays as it is.
pub fn settle<N: Nodes>(nodes: &mut N, way: Way, cell: Link, outcome: Outcome)
    ensures stands { (w : World)
        → N.stands nodes.old w
        → N.stands nodes.new (settled (way_of way) cell.number.0 outcome w) }
    ensures taken { OnlyFalls (N.is_taken nodes.old) (N.is_taken nodes.new) }
    ensures listed { OnlyFalls (N.is_listed nodes.old) (N.is_listed nodes.new) }
    ensures plain { OnlyRises (N.is_plain nodes.old) (N.is_plain nodes.new) }
    ensures next { N.next nodes.new ≡ N.next nodes.old }
    ensures slots { N.slots nodes.new ≡ N.slots nodes.old }
{
    if !is_waiting(nodes, cell) {
        return;
    }
    let outcome = Some(outcome);
    nodes.put(cell, Form::Cell { outcome });
    announce(nodes, way, cell);
}

// The form with the outcome in place of its tree.
fn kept_of(form: &Form, outcome: Outcome) -> Form
    ensures { (branches : List ℕ)
        → shown branches result ≡ kept_form outcome (shown branches form.now) }
{
    match form {
        Form::Eager { .. } => Form::Eager {
            content: Content::Kept(outcome),
        },
        Form::Wrap { canceler, .. } => Form::Wrap {
            canceler: *canceler,
            content: Content::Kept(outcome),
        },
        Form::Hub { is_named, .. } => Form::Hub {
            content: Content::Kept(outcome),
            is_named: *is_named,
        },
        Form::Side { .. } => Form::Side {
            stage: Stage::Keeps(outcome),
        },
        _ => form.copy(),
    }
}

/// An eager promise, a wrapped one, a hub or a Side of a fast join keeps its outcome in place of its tree.
pub fn keep<N: Nodes>(nodes: &mut N, node: Link, outcome: Outcome)
    ensures stands { (w : World)
        → N.stands nodes.old w
        → N.stands nodes.new (keeps node.number.0 outcome w) }
    ensures taken { OnlyFalls (N.is_taken nodes.old) (N.is_taken nodes.new) }
    ensures listed { OnlyFalls (N.is_listed nodes.old) (N.is_listed nodes.new) }
    ensures plain { OnlyRises (N.is_plain nodes.old) (N.is_plain nodes.new) }
    ensures next { N.next nodes.new ≡ N.next nodes.old }
    ensures slots { N.slots nodes.new ≡ N.slots nodes.old }
{
    let Some(form) = nodes.form(node) else {
        return;
    };
    let kept = kept_of(form, outcome);
    nodes.put(node, kept);
}
