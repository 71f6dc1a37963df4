//! Freeing a tree, with hubs and branches, by a stack.
ghost use Rattle.std.specs.Prelude.{◌≡◌, ◌<◌, ◌≤◌, ◌+◌, ◌-◌, ◌++◌, [], ◌∷◌, ℕ, Some, IsSome, true, false, length, vec_len, vec_capacity};
ghost use Rattle.kj_base.specs.Record.{Free};
ghost use Rattle.promise_commands.specs.Telling.{Hears};
ghost use Rattle.kj_model.specs.World.{World};
ghost use Rattle.kj_model.specs.Nodes.{form_at};
ghost use Rattle.kj_model.specs.Changes.{gone_world};
ghost use Rattle.kj_model.specs.Free.{free_to, is_guarded, reference_gone, without_wrap};
ghost use Rattle.kj_model.specs.Value.{freed};
ghost use Rattle.promise_nodes.specs.Kept.{OnlyFalls, OnlyRises};
ghost use Rattle.promise_walks.specs.Shapes.{SeesShape};
ghost use Rattle.promise_names.specs.Held.{left_world};
ghost use Rattle.promise_walks.specs.Walks.{Both, Does, Moves, guard_of, is_canceler};
ghost use Rattle.promise_walks.specs.Stacks.{AreUnlisted, Enters, cost, falls_count, finish, weigh};

use crate::guard::Guard;
use crate::holding::is_kept;
use crate::pushing::{is_deep, put_last};
use crate::shape::{Parts, Shape, shape_at};
use kj_base::{Link, Name};
use promise_commands::Steps;
use promise_names::{Held, Leaving, Names};
use promise_nodes::Nodes;

/// A node whose parts go, the parts that are still there, and what it leaves then.
#[derive(Clone, Copy, Debug, PartialEq, Eq)]
pub struct Frame {
    pub node: Link,
    pub parts: Parts,
    pub leaving: Leaving,
}

// How many hubs go for want of references: one or none.
fn count_falling<N: Nodes>(
    nodes: &N,
    search: &mut Vec<Parts>,
    guard: Guard,
    hub: Link,
    is_last: bool,
) -> u8
    requires room { N.slots nodes.now + 1 ≤ vec_capacity search.old }
    ensures count { (w : World) → N.stands nodes.now w
        → result ≡ falls_count is_last (is_guarded (guard_of guard) hub.number.0 w) }
    ensures room { vec_capacity search.old ≤ vec_capacity search.new }
{
    if !is_last {
        return 0;
    }
    if is_kept(nodes, search, guard, hub) {
        0
    } else {
        1
    }
}

// A node is entered: a branch leaves its hub at once, and the hub goes like a part of it.
fn enter<N: Nodes, M: Names>(
    nodes: &mut N,
    _names: &M,
    search: &mut Vec<Parts>,
    guard: Guard,
    node: Link,
    shape: Shape,
) -> Frame
    requires shape { (w : World) → N.stands nodes.old w
        → SeesShape (Some shape) (form_at node.number.0 w.nodes) }
    requires listed { N.is_listed nodes.old node.number.0 ≡ true → IsSome shape.hub }
    requires room { N.slots nodes.old + 1 ≤ vec_capacity search.old }
    ensures enters { Enters (Both (N.stands nodes.old) (M.stands _names.now))
        (Both (N.stands nodes.new) (M.stands _names.now)) (guard_of guard) node.number.0 result }
    ensures unlisted { N.is_listed nodes.new result.node.number.0 ≡ false }
    ensures taken { OnlyFalls (N.is_taken nodes.old) (N.is_taken nodes.new) }
    ensures listed { OnlyFalls (N.is_listed nodes.old) (N.is_listed nodes.new) }
    ensures plain { OnlyRises (N.is_plain nodes.old) (N.is_plain nodes.new) }
    ensures next { N.next nodes.new ≡ N.next nodes.old }
    ensures slots { N.slots nodes.new ≡ N.slots nodes.old }
    ensures room { vec_capacity search.old ≤ vec_capacity search.new }
{
    match shape.hub {
        Some(hub) => {
            let is_last = nodes.leave_hub(node, hub);
            let count = count_falling(nodes, search, guard, hub, is_last);
            Frame {
                node,
                parts: Parts { next: hub, count },
                leaving: Leaving::Nothing,
            }
        }
        None => Frame {
            node,
            parts: shape.parts,
            leaving: shape.leaving,
        },
    }
}

// The way to a node and all below it, where it is live and not too deep.
fn open<N: Nodes, M: Names>(
    nodes: &mut N,
    names: &M,
    stack: &mut Vec<Frame>,
    search: &mut Vec<Parts>,
    guard: Guard,
    node: Link,
)
    requires unlisted { AreUnlisted (N.is_listed nodes.old) stack.old.items }
    requires bound { vec_len stack.old ≤ N.slots nodes.old + 1 }
    requires stack_room { N.slots nodes.old + 1 ≤ vec_capacity stack.old }
    requires room { N.slots nodes.old + 1 ≤ vec_capacity search.old }
    ensures moves { Moves (Both (N.stands nodes.old) (M.stands names.now))
        (Both (N.stands nodes.new) (M.stands names.now))
        (λ s. finish (guard_of guard) (N.slots nodes.old + 1) stack.old.items
        (free_to (guard_of guard) (N.slots nodes.old + 1 - length stack.old.items) node.number.0 s))
        (finish (guard_of guard) (N.slots nodes.old + 1) stack.new.items) [] }
    ensures weight { weigh (N.slots nodes.old + 1) stack.new.items < weigh (N.slots nodes.old + 1)
        stack.old.items + cost (N.slots nodes.old + 1 - length stack.old.items) }
    ensures unlisted { AreUnlisted (N.is_listed nodes.new) stack.new.items }
    ensures taken { OnlyFalls (N.is_taken nodes.old) (N.is_taken nodes.new) }
    ensures listed { OnlyFalls (N.is_listed nodes.old) (N.is_listed nodes.new) }
    ensures plain { OnlyRises (N.is_plain nodes.old) (N.is_plain nodes.new) }
    ensures next { N.next nodes.new ≡ N.next nodes.old }
    ensures slots { N.slots nodes.new ≡ N.slots nodes.old }
    ensures bound { vec_len stack.new ≤ N.slots nodes.old + 1 }
    ensures stack_room { vec_capacity stack.old ≤ vec_capacity stack.new }
    ensures room { vec_capacity search.old ≤ vec_capacity search.new }
{
    if is_deep(nodes.slots(), stack.len()) {
        return;
    }
    let Some(shape) = shape_at(nodes, node) else {
        return;
    };
    let frame = enter(nodes, names, search, guard, node, shape);
    put_last(stack, frame);
}

fn is_canceler(held: Option<Held>) -> bool
    ensures { result ≡ is_canceler held }
{
    matches!(held, Some(Held::Canceler))
}

// A Wrap leaves its canceler, where that is there.
fn leave_canceler<N: Nodes, M: Names>(nodes: &mut N, names: &M, wrap: Link, canceler: Name)
    ensures stands { (w : World) → Both (N.stands nodes.old) (M.stands names.now) w
        → N.stands nodes.new (without_wrap wrap.number.0 canceler.0 w) }
    ensures taken { OnlyFalls (N.is_taken nodes.old) (N.is_taken nodes.new) }
    ensures listed { OnlyFalls (N.is_listed nodes.old) (N.is_listed nodes.new) }
    ensures plain { OnlyRises (N.is_plain nodes.old) (N.is_plain nodes.new) }
    ensures next { N.next nodes.new ≡ N.next nodes.old }
    ensures slots { N.slots nodes.new ≡ N.slots nodes.old }
{
    if is_canceler(names.get(canceler)) {
        nodes.leave_list(wrap, canceler);
    }
}

// The nodes' part of what a node leaves when it goes.
fn leave<N: Nodes, M: Names>(nodes: &mut N, names: &M, node: Link, leaving: Leaving)
    ensures stands { (w : World) → Both (N.stands nodes.old) (M.stands names.now) w
        → N.stands nodes.new (left_world node.number.0 leaving w) }
    ensures taken { OnlyFalls (N.is_taken nodes.old) (N.is_taken nodes.new) }
    ensures listed { OnlyFalls (N.is_listed nodes.old) (N.is_listed nodes.new) }
    ensures plain { OnlyRises (N.is_plain nodes.old) (N.is_plain nodes.new) }
    ensures next { N.next nodes.new ≡ N.next nodes.old }
    ensures slots { N.slots nodes.new ≡ N.slots nodes.old }
{
    match leaving {
        Leaving::Nothing => {}
        Leaving::Cell => {}
        Leaving::Wrap(canceler) => leave_canceler(nodes, names, node, canceler),
    }
}

// A node goes whose parts are gone.
fn close<N: Nodes, M: Names, S: Steps>(nodes: &mut N, names: &mut M, frame: Frame, steps: &mut S)
    requires unlisted { N.is_listed nodes.old frame.node.number.0 ≡ false }
    ensures stands { (w : World) → Both (N.stands nodes.old) (M.stands names.old) w
        → Both (N.stands nodes.new) (M.stands names.new)
        (gone_world frame.node.number.0 (left_world frame.node.number.0 frame.leaving w)) }
    ensures told { Hears (S.told steps.old) (Free frame.node.number.0 ∷ []) (S.told steps.new) }
    ensures lacks { S.lacks steps.new ≡ S.lacks steps.old }
    ensures taken { OnlyFalls (N.is_taken nodes.old) (N.is_taken nodes.new) }
    ensures listed { OnlyFalls (N.is_listed nodes.old) (N.is_listed nodes.new) }
    ensures plain { OnlyRises (N.is_plain nodes.old) (N.is_plain nodes.new) }
    ensures next { N.next nodes.new ≡ N.next nodes.old }
    ensures slots { N.slots nodes.new ≡ N.slots nodes.old }
    ensures roots { (name : ℕ) → M.roots names.new name ≡ M.roots names.old name }
    ensures count { M.count names.new ≡ M.count names.old }
    ensures limit { M.limit names.new ≡ M.limit names.old }
    ensures over { M.over names.new ≡ M.over names.old }
{
    leave(nodes, names, frame.node, frame.leaving);
    names.left(frame.node, frame.leaving);
    nodes.drop_node(frame.node);
    steps.freed(frame.node.number);
}

// One more step of the way: the next part of the node, or the node itself.
fn go_on<N: Nodes, M: Names, S: Steps>(
    nodes: &mut N,
    names: &mut M,
    stack: &mut Vec<Frame>,
    search: &mut Vec<Parts>,
    guard: Guard,
    frame: Frame,
    steps: &mut S,
)
    requires unlisted { AreUnlisted (N.is_listed nodes.old) (stack.old.items ++ frame ∷ []) }
    requires bound { vec_len stack.old + 1 ≤ N.slots nodes.old + 1 }
    requires stack_room { N.slots nodes.old + 1 ≤ vec_capacity stack.old }
    requires room { N.slots nodes.old + 1 ≤ vec_capacity search.old }
    ensures does { Does (Both (N.stands nodes.old) (M.stands names.old))
        (Both (N.stands nodes.new) (M.stands names.new))
        (finish (guard_of guard) (N.slots nodes.old + 1) (stack.old.items ++ frame ∷ []))
        (finish (guard_of guard) (N.slots nodes.old + 1) stack.new.items) (S.told steps.old)
        (S.told steps.new) }
    ensures lacks { S.lacks steps.new ≡ S.lacks steps.old }
    ensures weight { weigh (N.slots nodes.old + 1) stack.new.items
        < weigh (N.slots nodes.old + 1) (stack.old.items ++ frame ∷ []) }
    ensures unlisted { AreUnlisted (N.is_listed nodes.new) stack.new.items }
    ensures taken { OnlyFalls (N.is_taken nodes.old) (N.is_taken nodes.new) }
    ensures listed { OnlyFalls (N.is_listed nodes.old) (N.is_listed nodes.new) }
    ensures plain { OnlyRises (N.is_plain nodes.old) (N.is_plain nodes.new) }
    ensures next { N.next nodes.new ≡ N.next nodes.old }
    ensures slots { N.slots nodes.new ≡ N.slots nodes.old }
    ensures roots { (name : ℕ) → M.roots names.new name ≡ M.roots names.old name }
    ensures count { M.count names.new ≡ M.count names.old }
    ensures limit { M.limit names.new ≡ M.limit names.old }
    ensures over { M.over names.new ≡ M.over names.old }
    ensures bound { vec_len stack.new ≤ N.slots nodes.old + 1 }
    ensures stack_room { vec_capacity stack.old ≤ vec_capacity stack.new }
    ensures room { vec_capacity search.old ≤ vec_capacity search.new }
{
    if frame.parts.count == 0 {
        close(nodes, names, frame, steps);
        return;
    }
    put_last(
        stack,
        Frame {
            node: frame.node,
            parts: frame.parts.rest(),
            leaving: frame.leaving,
        },
    );
    open(nodes, names, stack, search, guard, frame.parts.next);
}

/// A tree goes, dependencies first; hubs go with their last branch, but for the guard. Both stacks have room for
/// slots + 1, and may have anything in them. The names are told what each node leaves, and the steps each free.
pub fn free_tree<N: Nodes, M: Names, S: Steps>(
    nodes: &mut N,
    names: &mut M,
    stack: &mut Vec<Frame>,
    search: &mut Vec<Parts>,
    guard: Guard,
    root: Link,
    steps: &mut S,
)
    requires stack_room { N.slots nodes.old + 1 ≤ vec_capacity stack.old }
    requires room { N.slots nodes.old + 1 ≤ vec_capacity search.old }
    ensures does { Does (Both (N.stands nodes.old) (M.stands names.old))
        (Both (N.stands nodes.new) (M.stands names.new))
        (free_to (guard_of guard) (N.slots nodes.old + 1) root.number.0) (λ s. s) (S.told steps.old)
        (S.told steps.new) }
    ensures lacks { S.lacks steps.new ≡ S.lacks steps.old }
    ensures taken { OnlyFalls (N.is_taken nodes.old) (N.is_taken nodes.new) }
    ensures listed { OnlyFalls (N.is_listed nodes.old) (N.is_listed nodes.new) }
    ensures plain { OnlyRises (N.is_plain nodes.old) (N.is_plain nodes.new) }
    ensures next { N.next nodes.new ≡ N.next nodes.old }
    ensures slots { N.slots nodes.new ≡ N.slots nodes.old }
    ensures roots { (name : ℕ) → M.roots names.new name ≡ M.roots names.old name }
    ensures count { M.count names.new ≡ M.count names.old }
    ensures limit { M.limit names.new ≡ M.limit names.old }
    ensures over { M.over names.new ≡ M.over names.old }
    ensures stack_room { vec_capacity stack.old ≤ vec_capacity stack.new }
    ensures room { vec_capacity search.old ≤ vec_capacity search.new }
{
    stack.clear();
    open(nodes, names, stack, search, guard, root);
    'falling: while let Some(frame) = stack.pop() {
        go_on(nodes, names, stack, search, guard, frame, steps);
    }
}

/// The same while an event fires: a hub stays that is its node or whose tree holds it.
pub fn free_part<N: Nodes, M: Names, S: Steps>(
    nodes: &mut N,
    names: &mut M,
    stack: &mut Vec<Frame>,
    search: &mut Vec<Parts>,
    root: Link,
    steps: &mut S,
)
    requires stack_room { N.slots nodes.old + 1 ≤ vec_capacity stack.old }
    requires room { N.slots nodes.old + 1 ≤ vec_capacity search.old }
    ensures does { Does (Both (N.stands nodes.old) (M.stands names.old))
        (Both (N.stands nodes.new) (M.stands names.new)) (freed root.number.0) (λ s. s)
        (S.told steps.old) (S.told steps.new) }
    ensures lacks { S.lacks steps.new ≡ S.lacks steps.old }
    ensures taken { OnlyFalls (N.is_taken nodes.old) (N.is_taken nodes.new) }
    ensures listed { OnlyFalls (N.is_listed nodes.old) (N.is_listed nodes.new) }
    ensures plain { OnlyRises (N.is_plain nodes.old) (N.is_plain nodes.new) }
    ensures next { N.next nodes.new ≡ N.next nodes.old }
    ensures slots { N.slots nodes.new ≡ N.slots nodes.old }
    ensures roots { (name : ℕ) → M.roots names.new name ≡ M.roots names.old name }
    ensures count { M.count names.new ≡ M.count names.old }
    ensures limit { M.limit names.new ≡ M.limit names.old }
    ensures over { M.over names.new ≡ M.over names.old }
    ensures stack_room { vec_capacity stack.old ≤ vec_capacity stack.new }
    ensures room { vec_capacity search.old ≤ vec_capacity search.new }
{
    let guard = Guard::Holding(nodes.firing());
    free_tree(nodes, names, stack, search, guard, root, steps);
}

/// A hub goes with its tree where it has neither name nor branch, but for the guard.
pub fn free_unreferenced<N: Nodes, M: Names, S: Steps>(
    nodes: &mut N,
    names: &mut M,
    stack: &mut Vec<Frame>,
    search: &mut Vec<Parts>,
    guard: Guard,
    hub: Link,
    steps: &mut S,
)
    requires stack_room { N.slots nodes.old + 1 ≤ vec_capacity stack.old }
    requires room { N.slots nodes.old + 1 ≤ vec_capacity search.old }
    ensures does { Does (Both (N.stands nodes.old) (M.stands names.old))
        (Both (N.stands nodes.new) (M.stands names.new)) (reference_gone (guard_of guard)
        (free_to (guard_of guard) (N.slots nodes.old + 1)) hub.number.0) (λ s. s) (S.told steps.old)
        (S.told steps.new) }
    ensures lacks { S.lacks steps.new ≡ S.lacks steps.old }
    ensures taken { OnlyFalls (N.is_taken nodes.old) (N.is_taken nodes.new) }
    ensures listed { OnlyFalls (N.is_listed nodes.old) (N.is_listed nodes.new) }
    ensures plain { OnlyRises (N.is_plain nodes.old) (N.is_plain nodes.new) }
    ensures next { N.next nodes.new ≡ N.next nodes.old }
    ensures slots { N.slots nodes.new ≡ N.slots nodes.old }
    ensures roots { (name : ℕ) → M.roots names.new name ≡ M.roots names.old name }
    ensures count { M.count names.new ≡ M.count names.old }
    ensures limit { M.limit names.new ≡ M.limit names.old }
    ensures over { M.over names.new ≡ M.over names.old }
    ensures stack_room { vec_capacity stack.old ≤ vec_capacity stack.new }
    ensures room { vec_capacity search.old ≤ vec_capacity search.new }
{
    let is_last = nodes.is_unreferenced(hub);
    let count = count_falling(nodes, search, guard, hub, is_last);
    if count == 0 {
        return;
    }
    free_tree(nodes, names, stack, search, guard, hub, steps);
}
