//! Whether a tree is ready.
ghost use Rattle.std.specs.Prelude.{◌≡◌, ◌+◌, ℕ, List, Option, Some, None, Bool, true, false, is_some, not, option_copied};
ghost use Rattle.std.specs.List.{list_any};
ghost use Rattle.kj_base.specs.declared.nodes.Form.{Form};
ghost use Rattle.kj_model.specs.World.{World};
ghost use Rattle.kj_model.specs.Nodes.{form_at};
ghost use Rattle.kj_model.specs.Outcomes.{is_value};
ghost use Rattle.kj_model.specs.Listening.{ready, is_last, hub_ready, waits, keeps_exception, join_ready, is_kept as is_kept_seen};
ghost use Rattle.promise_nodes.specs.Shown.{shown, content_shown, link_number, run_from, next_number};
ghost use Rattle.promise_listening.specs.Readiness.{IsReadiness, IsTreeReadiness, IsLastness};

use kj_base::{Content, Form, Link, NodeId, Outcome, Stage};
use promise_nodes::Nodes;

/// What one node tells of its tree: the answer, or the tree on which it depends.
#[derive(Clone, Copy)]
pub enum Known {
    Now(bool),
    Below(Link),
}

fn known_by_tree(tree: &Option<Link>) -> Known
    ensures { IsTreeReadiness result (link_number tree.now) }
{
    match tree {
        Some(link) => Known::Below(*link),
        None => Known::Now(false),
    }
}

fn is_kept(content: &Content) -> bool
    ensures { result ≡ is_kept_seen (content_shown content.now) }
{
    match content {
        Content::Tree(_) => false,
        Content::Kept(_) => true,
    }
}

fn is_hub_ready<N: Nodes>(nodes: &N, hub: Link) -> bool
    ensures { (w : World)
        → N.stands nodes.now w
        → result ≡ hub_ready (form_at hub.number.0 w.nodes) }
{
    match nodes.form(hub) {
        Some(Form::Hub { content, .. }) => is_kept(content),
        _ => false,
    }
}

fn is_exception(outcome: &Outcome) -> bool
    ensures { is_value outcome.now ≡ not result }
{
    match outcome {
        Outcome::Value(_) => false,
        Outcome::Broken(_) => true,
    }
}

fn side_waits<N: Nodes>(nodes: &N, side: Link) -> bool
    ensures { (w : World) → N.stands nodes.now w → result ≡ waits (form_at side.number.0 w.nodes) }
{
    match nodes.form(side) {
        Some(
            Form::Side {
                stage: Stage::Waits(_),
            },
        ) => true,
        _ => false,
    }
}

fn side_keeps_exception<N: Nodes>(nodes: &N, side: Link) -> bool
    ensures { (w : World)
        → N.stands nodes.now w
        → result ≡ keeps_exception (form_at side.number.0 w.nodes) }
{
    match nodes.form(side) {
        Some(
            Form::Side {
                stage: Stage::Keeps(outcome),
            },
        ) => is_exception(outcome),
        _ => false,
    }
}

/// The next Side of the same node.
fn next_side(side: Link) -> Link
    ensures { result.number.0 ≡ next_number side.number.0 }
{
    Link {
        slot: side.slot,
        number: NodeId(side.number.0.saturating_add(1)),
    }
}

fn some_waits<N: Nodes>(nodes: &N, first: Link, count: u8) -> bool
    ensures { (w : World)
        → N.stands nodes.now w
        → result ≡ list_any (λ side. waits (form_at side w.nodes)) (run_from count first.number.0) }
{
    let mut side = first;
    let mut left = count;
    'sides: while left > 0 {
        if side_waits(nodes, side) {
            return true;
        }
        side = next_side(side);
        left -= 1;
    }
    false
}

fn some_keeps_exception<N: Nodes>(nodes: &N, first: Link, count: u8) -> bool
    ensures { (w : World)
        → N.stands nodes.now w
        → result ≡ list_any (λ side. keeps_exception (form_at side w.nodes))
        (run_from count first.number.0) }
{
    let mut side = first;
    let mut left = count;
    'sides: while left > 0 {
        if side_keeps_exception(nodes, side) {
            return true;
        }
        side = next_side(side);
        left -= 1;
    }
    false
}

/// Whether a join of these Sides is ready.
pub fn is_join_ready<N: Nodes>(nodes: &N, is_fast: bool, first: Link, count: u8) -> bool
    ensures { (w : World)
        → N.stands nodes.now w
        → result ≡ join_ready is_fast (run_from count first.number.0) w.nodes }
{
    (is_fast && some_keeps_exception(nodes, first, count)) || !some_waits(nodes, first, count)
}

fn known_of<N: Nodes>(nodes: &N, form: &Form) -> Known
    ensures { (w : World) (branches : List ℕ)
        → N.stands nodes.now w
        → IsReadiness result w.nodes (Some (shown branches form.now)) }
{
    match form {
        Form::Ready { .. } | Form::Later | Form::Last => Known::Now(true),
        Form::Cell { outcome } => Known::Now(outcome.is_some()),
        Form::Branch { hub } => Known::Now(is_hub_ready(nodes, *hub)),
        Form::Then { tree, .. } => known_by_tree(tree),
        Form::Eager { content } => Known::Now(is_kept(content)),
        Form::Wrap { content, .. } => Known::Now(is_kept(content)),
        Form::Race { winner, .. } => Known::Now(winner.is_some()),
        Form::Join {
            is_fast,
            first,
            count,
        } => Known::Now(is_join_ready(nodes, *is_fast, *first, *count)),
        Form::Chain { .. } | Form::Hub { .. } | Form::Side { .. } => Known::Now(false),
        Form::Task { .. } | Form::Request { .. } => Known::Now(false),
    }
}

fn known_at<N: Nodes>(nodes: &N, node: Link) -> Known
    ensures { (w : World)
        → N.stands nodes.now w
        → IsReadiness result w.nodes (form_at node.number.0 w.nodes) }
{
    match nodes.form(node) {
        Some(form) => known_of(nodes, form),
        None => Known::Now(false),
    }
}

/// Whether the tree of a root is ready.
pub fn is_ready<N: Nodes>(nodes: &N, root: Link) -> bool
    ensures { (w : World)
        → N.stands nodes.now w
        → result ≡ ready (N.slots nodes.now + 1) w.nodes root.number.0 }
{
    let mut at = root;
    let mut left = u64::from(nodes.slots()) + 1;
    'down: while left > 0 {
        match known_at(nodes, at) {
            Known::Now(known) => return known,
            Known::Below(tree) => at = tree,
        }
        left -= 1;
    }
    false
}

fn last_of(form: &Form) -> Known
    ensures { (branches : List ℕ) → IsLastness result (Some (shown branches form.now)) }
{
    match form {
        Form::Last => Known::Now(true),
        Form::Then { tree, .. } => known_by_tree(tree),
        Form::Ready { .. } | Form::Later | Form::Cell { .. } => Known::Now(false),
        Form::Branch { .. } | Form::Chain { .. } | Form::Eager { .. } => Known::Now(false),
        Form::Wrap { .. } | Form::Hub { .. } | Form::Side { .. } => Known::Now(false),
        Form::Race { .. } | Form::Join { .. } => Known::Now(false),
        Form::Task { .. } | Form::Request { .. } => Known::Now(false),
    }
}

fn last_at<N: Nodes>(nodes: &N, node: Link) -> Known
    ensures { (w : World)
        → N.stands nodes.now w
        → IsLastness result (form_at node.number.0 w.nodes) }
{
    match nodes.form(node) {
        Some(form) => last_of(form),
        None => Known::Now(false),
    }
}

/// Whether the leaf below a root is one whose event comes after all others.
pub fn is_last<N: Nodes>(nodes: &N, root: Link) -> bool
    ensures { (w : World)
        → N.stands nodes.now w
        → result ≡ is_last (N.slots nodes.now + 1) w.nodes root.number.0 }
{
    let mut at = root;
    let mut left = u64::from(nodes.slots()) + 1;
    'down: while left > 0 {
        match last_at(nodes, at) {
            Known::Now(known) => return known,
            Known::Below(tree) => at = tree,
        }
        left -= 1;
    }
    false
}
