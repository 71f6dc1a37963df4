//! Which nodes would go with a tree, or with the members of a list, read off the nodes as they stand. Nothing goes.
ghost use Rattle.std.specs.Prelude.{◌≡◌, ◌<◌, ◌≤◌, ◌+◌, ◌-◌, ◌++◌, ◌&&◌, [], ◌∷◌, ℕ, List, Some, false, length, reverse, vec_len, vec_capacity};
ghost use Rattle.kj_model.specs.World.{World};
ghost use Rattle.kj_model.specs.Nodes.{Branch, form_at, is_in};
ghost use Rattle.kj_model.specs.Fire.{branches_of};
ghost use Rattle.kj_model.specs.Free.{Holding};
ghost use Rattle.kj_model.specs.Falling.{falling, each_falling, form_then, is_branch_of, is_unnamed_hub};
ghost use Rattle.promise_nodes.specs.Shown.{shown};
ghost use Rattle.promise_nodes.specs.Kept.{AreUnmarked, Same, SameRows, is_unreferenced};
ghost use Rattle.promise_nodes.specs.Members.{lists_in};
ghost use Rattle.promise_walks.specs.Shapes.{SeesShape};
ghost use Rattle.promise_walks.specs.Stacks.{weigh, cost};
ghost use Rattle.promise_walks.specs.Falls.{AreMarks, AreThere, IsEntered, Leads, SeesLeft, Stays, all_gone, are_off, is_off, known, way_of};

use crate::freeing::Frame;
use crate::pushing::{is_deep, put_last};
use crate::shape::{Parts, Shape, shape_at};
use kj_base::{Form, Link, Name};
use promise_names::Leaving;
use promise_nodes::{Mark, Nodes};

// Whether this is the form of a branch of the hub.
fn is_branch_form(form: &Form, hub: Link) -> bool
    ensures { (branches : List ℕ)
        → result ≡ is_branch_of hub.number.0 (Some (shown branches form.now)) }
{
    match form {
        Form::Branch { hub: own } => own.number.0 == hub.number.0,
        _ => false,
    }
}

// Whether this is the form of a hub without a name.
fn is_unnamed_form(form: &Form) -> bool
    ensures { (branches : List ℕ) → result ≡ is_unnamed_hub (Some (shown branches form.now)) }
{
    match form {
        Form::Hub { is_named, .. } => !*is_named,
        _ => false,
    }
}

// Whether this is a branch of the hub.
fn is_branch_of<N: Nodes>(nodes: &N, hub: Link, branch: Link) -> bool
    ensures { (w : World) → N.stands nodes.now w
        → result ≡ is_branch_of hub.number.0 (form_at branch.number.0 w.nodes) }
{
    match nodes.form(branch) {
        Some(form) => is_branch_form(form, hub),
        None => false,
    }
}

// Whether this is a hub without a name.
fn is_unnamed_hub<N: Nodes>(nodes: &N, hub: Link) -> bool
    ensures { (w : World) → N.stands nodes.now w
        → result ≡ is_unnamed_hub (form_at hub.number.0 w.nodes) }
{
    match nodes.form(hub) {
        Some(form) => is_unnamed_form(form),
        None => false,
    }
}

// Whether this is a branch of the hub that left it or went.
fn is_off<N: Nodes>(nodes: &N, hub: Link, branch: Link) -> bool
    ensures { (w : World) (way gone : List ℕ) → N.stands nodes.now w
        → AreMarks (N.marks nodes.now) way gone → result ≡ (is_off way gone branch.number.0
        && is_branch_of hub.number.0 (form_at branch.number.0 w.nodes)) }
{
    match nodes.mark_of(branch) {
        Mark::Unmarked => false,
        Mark::Left => is_branch_of(nodes, hub, branch),
        Mark::Gone => is_branch_of(nodes, hub, branch),
    }
}

// Whether all branches of a hub left it or went, from the oldest on.
fn are_off<N: Nodes>(nodes: &N, hub: Link) -> bool
    ensures { (w : World) (way gone : List ℕ)
        → N.stands nodes.now w → AreMarks (N.marks nodes.now) way gone → result
        ≡ are_off way gone hub.number.0 w.nodes (branches_of (form_at hub.number.0 w.nodes)) }
{
    let mut at = nodes.first_branch(hub);
    let mut left = nodes.slots();
    'looking: while left > 0 {
        let Some(branch) = at else {
            return true;
        };
        if !is_off(nodes, hub, branch) {
            return false;
        }
        at = nodes.next_branch(branch);
        left -= 1;
    }
    true
}

// Whether a node is gone.
fn is_gone<N: Nodes>(nodes: &N, node: Link) -> bool
    ensures { (way gone : List ℕ) → AreMarks (N.marks nodes.now) way gone
        → result ≡ is_in node.number.0 gone }
{
    match nodes.mark_of(node) {
        Mark::Unmarked => false,
        Mark::Left => false,
        Mark::Gone => true,
    }
}

// Whether a hub that is there has neither a name nor a branch that stays.
fn goes_too<N: Nodes>(nodes: &N, hub: Link) -> bool
    ensures { (w : World) (way gone : List ℕ)
        → N.stands nodes.now w → AreMarks (N.marks nodes.now) way gone
        → result ≡ is_unreferenced (form_then way gone hub.number.0 w.nodes) }
{
    if is_gone(nodes, hub) {
        return false;
    }
    if !is_unnamed_hub(nodes, hub) {
        return false;
    }
    are_off(nodes, hub)
}

// A branch leaves its hub, and the hub goes like a part of it.
fn enter_branch<N: Nodes>(nodes: &mut N, node: Link, hub: Link) -> Frame
    ensures enters { (w : World) (way gone : List ℕ) → N.stands nodes.old w
        → AreMarks (N.marks nodes.old) way gone → is_in node.number.0 gone ≡ false
        → form_at node.number.0 w.nodes ≡ Some (Branch hub.number.0)
        → IsEntered w (N.marks nodes.new) way gone node.number.0 result }
    ensures stands { (w : World) → N.stands nodes.old w → N.stands nodes.new w }
    ensures stays { Stays (known (N.is_taken nodes.old) (N.is_listed nodes.old)
        (N.is_plain nodes.old) (N.room nodes.old) (N.next nodes.old) (N.slots nodes.old))
        (known (N.is_taken nodes.new) (N.is_listed nodes.new) (N.is_plain nodes.new)
        (N.room nodes.new) (N.next nodes.new) (N.slots nodes.new)) }
{
    nodes.mark(node, Mark::Left);
    let count = if goes_too(nodes, hub) { 1 } else { 0 };
    Frame {
        node,
        parts: Parts { next: hub, count },
        leaving: Leaving::Nothing,
    }
}

// A node is entered that isn't gone.
fn enter<N: Nodes>(nodes: &mut N, node: Link, shape: Shape) -> Frame
    ensures enters { (w : World) (way gone : List ℕ)
        → N.stands nodes.old w → AreMarks (N.marks nodes.old) way gone
        → is_in node.number.0 gone ≡ false → SeesShape (Some shape) (form_at node.number.0 w.nodes)
        → IsEntered w (N.marks nodes.new) way gone node.number.0 result }
    ensures stands { (w : World) → N.stands nodes.old w → N.stands nodes.new w }
    ensures stays { Stays (known (N.is_taken nodes.old) (N.is_listed nodes.old)
        (N.is_plain nodes.old) (N.room nodes.old) (N.next nodes.old) (N.slots nodes.old))
        (known (N.is_taken nodes.new) (N.is_listed nodes.new) (N.is_plain nodes.new)
        (N.room nodes.new) (N.next nodes.new) (N.slots nodes.new)) }
{
    match shape.hub {
        Some(hub) => enter_branch(nodes, node, hub),
        None => Frame {
            node,
            parts: shape.parts,
            leaving: shape.leaving,
        },
    }
}

// The form of a node that isn't gone, as a walk sees it.
fn shape_left<N: Nodes>(nodes: &N, node: Link) -> Option<Shape>
    ensures { (w : World) (way gone : List ℕ)
        → N.stands nodes.now w → AreMarks (N.marks nodes.now) way gone
        → SeesLeft result (is_in node.number.0 gone) (form_at node.number.0 w.nodes) }
{
    if is_gone(nodes, node) {
        return None;
    }
    shape_at(nodes, node)
}

// A node that isn't gone is put on the stack, where it isn't too deep.
fn look_at<N: Nodes>(nodes: &mut N, frames: &mut Vec<Frame>, node: Link)
    requires bound { vec_len frames.old ≤ N.slots nodes.old + 1 }
    requires room { N.slots nodes.old + 1 ≤ vec_capacity frames.old }
    ensures leads { (w : World) (gone : List ℕ) → N.stands nodes.old w
        → AreMarks (N.marks nodes.old) (way_of w [] frames.old.items) gone
        → AreThere w frames.old.items → Leads w (N.slots nodes.old + 1) (N.marks nodes.new)
        frames.new.items (all_gone w (N.slots nodes.old + 1) [] frames.old.items
        (gone ++ falling (Holding []) w (N.slots nodes.old + 1 - length frames.old.items)
        (way_of w [] frames.old.items) gone node.number.0)) }
    ensures weight { weigh (N.slots nodes.old + 1) frames.new.items < weigh (N.slots nodes.old + 1)
        frames.old.items + cost (N.slots nodes.old + 1 - length frames.old.items) }
    ensures stands { (w : World) → N.stands nodes.old w → N.stands nodes.new w }
    ensures stays { Stays (known (N.is_taken nodes.old) (N.is_listed nodes.old)
        (N.is_plain nodes.old) (N.room nodes.old) (N.next nodes.old) (N.slots nodes.old))
        (known (N.is_taken nodes.new) (N.is_listed nodes.new) (N.is_plain nodes.new)
        (N.room nodes.new) (N.next nodes.new) (N.slots nodes.new)) }
    ensures bound { vec_len frames.new ≤ N.slots nodes.old + 1 }
    ensures room { vec_capacity frames.old ≤ vec_capacity frames.new }
{
    if is_deep(nodes.slots(), frames.len()) {
        return;
    }
    let Some(shape) = shape_left(nodes, node) else {
        return;
    };
    let frame = enter(nodes, node, shape);
    put_last(frames, frame);
}

// One more step of the way: the next part of a node, or the node itself is gone.
fn go_on<N: Nodes>(nodes: &mut N, frames: &mut Vec<Frame>, frame: Frame)
    requires bound { vec_len frames.old + 1 ≤ N.slots nodes.old + 1 }
    requires room { N.slots nodes.old + 1 ≤ vec_capacity frames.old }
    ensures leads { (w : World) (end : List ℕ) → N.stands nodes.old w
        → Leads w (N.slots nodes.old + 1) (N.marks nodes.old) (frames.old.items ++ frame ∷ []) end
        → Leads w (N.slots nodes.old + 1) (N.marks nodes.new) frames.new.items end }
    ensures weight { weigh (N.slots nodes.old + 1) frames.new.items
        < weigh (N.slots nodes.old + 1) (frames.old.items ++ frame ∷ []) }
    ensures stands { (w : World) → N.stands nodes.old w → N.stands nodes.new w }
    ensures stays { Stays (known (N.is_taken nodes.old) (N.is_listed nodes.old)
        (N.is_plain nodes.old) (N.room nodes.old) (N.next nodes.old) (N.slots nodes.old))
        (known (N.is_taken nodes.new) (N.is_listed nodes.new) (N.is_plain nodes.new)
        (N.room nodes.new) (N.next nodes.new) (N.slots nodes.new)) }
    ensures bound { vec_len frames.new ≤ N.slots nodes.old + 1 }
    ensures room { vec_capacity frames.old ≤ vec_capacity frames.new }
{
    if frame.parts.count == 0 {
        nodes.mark(frame.node, Mark::Gone);
        return;
    }
    put_last(
        frames,
        Frame {
            node: frame.node,
            parts: frame.parts.rest(),
            leaving: frame.leaving,
        },
    );
    look_at(nodes, frames, frame.parts.next);
}

// The nodes that go with one more tree are gone too.
fn mark_tree<N: Nodes>(nodes: &mut N, frames: &mut Vec<Frame>, root: Link)
    requires room { N.slots nodes.old + 1 ≤ vec_capacity frames.old }
    ensures falls { (w : World) (gone : List ℕ) → N.stands nodes.old w
        → AreMarks (N.marks nodes.old) [] gone → AreMarks (N.marks nodes.new) []
        (gone ++ falling (Holding []) w (N.slots nodes.old + 1) [] gone root.number.0) }
    ensures stands { (w : World) → N.stands nodes.old w → N.stands nodes.new w }
    ensures stays { Stays (known (N.is_taken nodes.old) (N.is_listed nodes.old)
        (N.is_plain nodes.old) (N.room nodes.old) (N.next nodes.old) (N.slots nodes.old))
        (known (N.is_taken nodes.new) (N.is_listed nodes.new) (N.is_plain nodes.new)
        (N.room nodes.new) (N.next nodes.new) (N.slots nodes.new)) }
    ensures room { vec_capacity frames.old ≤ vec_capacity frames.new }
{
    frames.clear();
    look_at(nodes, frames, root);
    'looking: while let Some(frame) = frames.pop() {
        go_on(nodes, frames, frame);
    }
}

// The nodes that go with the live members of a list, the newest first, are gone.
fn mark_members<N: Nodes>(nodes: &mut N, frames: &mut Vec<Frame>, list: Name)
    requires room { N.slots nodes.old + 1 ≤ vec_capacity frames.old }
    ensures falls { (w : World) → N.stands nodes.old w → AreUnmarked (N.marks nodes.old)
        → AreMarks (N.marks nodes.new) [] (each_falling
        (falling (Holding []) w (N.slots nodes.old + 1) []) [] (reverse (lists_in w list.0))) }
    ensures stands { (w : World) → N.stands nodes.old w → N.stands nodes.new w }
    ensures stays { Stays (known (N.is_taken nodes.old) (N.is_listed nodes.old)
        (N.is_plain nodes.old) (N.room nodes.old) (N.next nodes.old) (N.slots nodes.old))
        (known (N.is_taken nodes.new) (N.is_listed nodes.new) (N.is_plain nodes.new)
        (N.room nodes.new) (N.next nodes.new) (N.slots nodes.new)) }
    ensures room { vec_capacity frames.old ≤ vec_capacity frames.new }
{
    let mut at = nodes.newest_member(list);
    let mut left = nodes.next();
    'falling: while left > 0 {
        let Some(member) = at else {
            return;
        };
        mark_tree(nodes, frames, member);
        at = nodes.older_member(member);
        left -= 1;
    }
}

/// Whether a node would go with a tree, that node itself and the hubs with their last branches too, by marks that no world
/// sees. The frames have room for slots + 1, and may have anything in them. Each node that would go is entered once, and
/// at each branch those of its hub are looked at from the oldest on, up to the first that stays.
pub fn would_free<N: Nodes>(nodes: &mut N, frames: &mut Vec<Frame>, root: Link, node: Link) -> bool
    requires room { N.slots nodes.old + 1 ≤ vec_capacity frames.old }
    ensures goes { (w : World) → N.stands nodes.old w → result
        ≡ is_in node.number.0 (falling (Holding []) w (N.slots nodes.old + 1) [] [] root.number.0) }
    ensures stands { (w : World) → N.stands nodes.old w → N.stands nodes.new w }
    ensures taken { Same (N.is_taken nodes.old) (N.is_taken nodes.new) }
    ensures listed { Same (N.is_listed nodes.old) (N.is_listed nodes.new) }
    ensures plain { Same (N.is_plain nodes.old) (N.is_plain nodes.new) }
    ensures fits { SameRows (N.room nodes.old) (N.room nodes.new) }
    ensures next { N.next nodes.new ≡ N.next nodes.old }
    ensures slots { N.slots nodes.new ≡ N.slots nodes.old }
    ensures room { vec_capacity frames.old ≤ vec_capacity frames.new }
{
    nodes.clear_marks();
    mark_tree(nodes, frames, root);
    is_gone(nodes, node)
}

/// The same of the live members of a list, one after another, the newest first: whether the node would go with one of them,
/// each tree as it stands once those of the newer members are gone.
pub fn would_free_members<N: Nodes>(
    nodes: &mut N,
    frames: &mut Vec<Frame>,
    list: Name,
    node: Link,
) -> bool
    requires room { N.slots nodes.old + 1 ≤ vec_capacity frames.old }
    ensures goes { (w : World) → N.stands nodes.old w → result ≡ is_in node.number.0 (each_falling
        (falling (Holding []) w (N.slots nodes.old + 1) []) [] (reverse (lists_in w list.0))) }
    ensures stands { (w : World) → N.stands nodes.old w → N.stands nodes.new w }
    ensures taken { Same (N.is_taken nodes.old) (N.is_taken nodes.new) }
    ensures listed { Same (N.is_listed nodes.old) (N.is_listed nodes.new) }
    ensures plain { Same (N.is_plain nodes.old) (N.is_plain nodes.new) }
    ensures fits { SameRows (N.room nodes.old) (N.room nodes.new) }
    ensures next { N.next nodes.new ≡ N.next nodes.old }
    ensures slots { N.slots nodes.new ≡ N.slots nodes.old }
    ensures room { vec_capacity frames.old ≤ vec_capacity frames.new }
{
    nodes.clear_marks();
    mark_members(nodes, frames, list);
    is_gone(nodes, node)
}
