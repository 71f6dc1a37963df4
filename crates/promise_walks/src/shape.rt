//! What a walk sees of a node.
ghost use Rattle.std.specs.Prelude.{◌≡◌, ◌<◌, ◌+◌, ℕ, List, Some, IsSome, true, option_to_list};
ghost use Rattle.kj_model.specs.World.{World};
ghost use Rattle.kj_model.specs.Nodes.{form_at, parts_of, content_parts, stage_parts};
ghost use Rattle.promise_nodes.specs.Shown.{shown, link_number, content_shown, stage_shown, next_number};
ghost use Rattle.promise_nodes.specs.Kept.{IsBranch};
ghost use Rattle.promise_walks.specs.Shapes.{AreParts, leaving_of, hub_of, SeesShape, HasHub};

use kj_base::{Content, Form, Link, NodeId, Slot, Stage};
use promise_names::Leaving;
use promise_nodes::Nodes;

/// Nodes whose numbers follow each other, from the next one on. Only the slot of the first of them is known.
#[derive(Clone, Copy, Debug, PartialEq, Eq)]
pub struct Parts {
    pub next: Link,
    pub count: u8,
}

// The parts of a node, what it leaves, and a branch's hub.
#[derive(Clone, Copy)]
pub(crate) struct Shape {
    pub parts: Parts,
    pub leaving: Leaving,
    pub hub: Option<Link>,
}

impl Parts {
    // The parts behind the first of them.
    pub(crate) fn rest(self) -> Parts
        requires { 0 < self.count }
        ensures next { result.next.number.0 ≡ next_number self.next.number.0 }
        ensures count { self.count ≡ result.count + 1 }
    {
        let number = NodeId(self.next.number.0.saturating_add(1));
        let next = Link {
            slot: self.next.slot,
            number,
        };
        Parts {
            next,
            count: self.count - 1,
        }
    }
}

// No part.
fn none() -> Parts
    ensures { result.count ≡ 0 }
{
    let next = Link {
        slot: Slot(0),
        number: NodeId(0),
    };
    Parts { next, count: 0 }
}

// One part.
fn one(tree: Link) -> Parts
    ensures next { result.next ≡ tree }
    ensures count { result.count ≡ 1 }
{
    Parts {
        next: tree,
        count: 1,
    }
}

// The tree that may be there.
fn parts_of_tree(tree: Option<Link>) -> Parts
    ensures { AreParts (option_to_list (link_number tree)) result }
{
    match tree {
        Some(tree) => one(tree),
        None => none(),
    }
}

// The tree, where it is still there.
fn parts_of_content(content: &Content) -> Parts
    ensures { AreParts (content_parts (content_shown content.now)) result }
{
    match content {
        Content::Tree(tree) => one(*tree),
        Content::Kept(_) => none(),
    }
}

// The tree of a Side.
fn parts_of_stage(stage: &Stage) -> Parts
    ensures { AreParts (stage_parts (stage_shown stage.now)) result }
{
    match stage {
        Stage::Waits(tree) => one(*tree),
        Stage::Fired(tree) => one(*tree),
        Stage::Keeps(_) => none(),
        Stage::Gone => none(),
    }
}

// What a node of this form owns.
fn parts_of(form: &Form) -> Parts
    ensures { (branches : List ℕ) → AreParts (parts_of (shown branches form.now)) result }
{
    match form {
        Form::Ready { .. } => none(),
        Form::Later => none(),
        Form::Last => none(),
        Form::Cell { .. } => none(),
        Form::Branch { .. } => none(),
        Form::Then { tree, .. } => parts_of_tree(*tree),
        Form::Chain { link } => one(*link),
        Form::Eager { content } => parts_of_content(content),
        Form::Wrap { content, .. } => parts_of_content(content),
        Form::Hub { content, .. } => parts_of_content(content),
        Form::Side { stage } => parts_of_stage(stage),
        Form::Race { left, .. } => Parts {
            next: *left,
            count: 2,
        },
        Form::Join { first, count, .. } => Parts {
            next: *first,
            count: *count,
        },
        Form::Task { tree } => parts_of_tree(*tree),
        Form::Request { tree, .. } => parts_of_tree(*tree),
    }
}

// What a node of this form leaves when it goes.
fn leaving_of(form: &Form) -> Leaving
    ensures { (branches : List ℕ) → leaving_of (shown branches form.now) ≡ result }
{
    match form {
        Form::Cell { outcome: None } => Leaving::Cell,
        Form::Wrap { canceler, .. } => Leaving::Wrap(*canceler),
        _ => Leaving::Nothing,
    }
}

// The hub of a branch.
fn hub_of(form: &Form) -> Option<Link>
    ensures hub { (branches : List ℕ) → hub_of (shown branches form.now) ≡ link_number result }
    ensures branch { IsBranch (Some form.now) → IsSome result }
{
    match form {
        Form::Branch { hub } => Some(*hub),
        _ => None,
    }
}

// What a walk sees of a live node.
pub(crate) fn shape_at<N: Nodes>(nodes: &N, node: Link) -> Option<Shape>
    ensures shape { (w : World) → N.stands nodes.now w
        → SeesShape result (form_at node.number.0 w.nodes) }
    ensures listed { N.is_listed nodes.now node.number.0 ≡ true → HasHub result }
{
    let form = nodes.form(node)?;
    Some(Shape {
        parts: parts_of(form),
        leaving: leaving_of(form),
        hub: hub_of(form),
    })
}
