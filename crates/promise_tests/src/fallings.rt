//! Which nodes would go with trees, worked out by hand.
use crate::calls::{Call, LIMITS, ROOM, make_all};
use crate::commands::{add, branch, fork, later, new_set, race, then};
use crate::tables::{TableEvaluator, evaluator_over_tables};
use crate::teller::Teller;
use kj_base::{Content, Form, Link, Name, NodeId, Slot, StepId};
use promise_nodes::Nodes;
use promise_walks::{would_free, would_free_members};
use std::test::Fail;

// A step that isn't run in these tests.
const STEP: StepId = StepId(9);

// A number that no node has in these tests.
const NOBODY: u64 = 12;

// A set, whose tasks are the members of a list of this name.
const SET: Name = Name(9);

// The root of a tree, and the numbers of the nodes that would go with it.
type Row<'a> = (u64, &'a [u64]);

fn link(number: u64) -> Link {
    Link {
        slot: Slot(0),
        number: NodeId(number),
    }
}

// The name of a hub goes, as its node knows.
fn unname(over: &mut TableEvaluator, hub: u64) {
    let nodes = &mut over.ground.keepers.nodes;
    let tree = match nodes.form(link(hub)) {
        Some(
            Form::Hub {
                content: Content::Tree(tree),
                ..
            },
        ) => *tree,
        _ => return,
    };
    nodes.put(
        link(hub),
        Form::Hub {
            content: Content::Tree(tree),
            is_named: false,
        },
    );
}

// Whether this node would go with the tree of this root.
fn goes(over: &mut TableEvaluator, root: u64, node: u64) -> bool {
    let keepers = &mut over.ground.keepers;
    would_free(
        &mut keepers.nodes,
        &mut keepers.frames,
        link(root),
        link(node),
    )
}

// Whether with the tree of this root just those nodes would go whose numbers stand here, of the first seven.
fn go_just(over: &mut TableEvaluator, root: u64, gone: &[u64]) -> bool {
    for node in 1..8u64 {
        if goes(over, root, node) != gone.contains(&node) {
            return false;
        }
    }
    !goes(over, root, NOBODY)
}

// The first root with whose tree other nodes would go than its row says.
fn first_wrong(over: &mut TableEvaluator, rows: &[Row]) -> Option<u64> {
    for (root, gone) in rows {
        if !go_just(over, *root, gone) {
            return Some(*root);
        }
    }
    None
}

#[test]
fn a_tree_goes_with_all_below(rt: HostRuntime) -> Result<(), Fail> {
    let mut over = evaluator_over_tables(rt.alloc(), LIMITS)?;
    let mut steps = Teller::new(rt.alloc(), ROOM)?;
    let calls = [
        Call::Apply(later(1)),
        Call::Apply(then(2, 1, STEP)),
        Call::Apply(then(3, 2, STEP)),
        Call::Apply(later(4)),
    ];
    make_all(&mut over, &calls, &mut steps);
    let rows: [Row; 4] = [(3, &[1, 2, 3]), (2, &[1, 2]), (4, &[4]), (NOBODY, &[])];
    assert_eq!(rt; first_wrong(&mut over, &rows), None);
    Ok(())
}

// Nodes 1 and 2 are a hub over its tree, 3 and 4 its branches, 5 and 6 the Sides of the race 7.
#[test]
fn a_hub_goes_with_its_last_branch(rt: HostRuntime) -> Result<(), Fail> {
    let mut over = evaluator_over_tables(rt.alloc(), LIMITS)?;
    let mut steps = Teller::new(rt.alloc(), ROOM)?;
    let calls = [
        Call::Apply(later(1)),
        Call::Apply(fork(2, 1)),
        Call::Apply(branch(3, 2)),
        Call::Apply(branch(4, 2)),
        Call::Apply(race(5, 3, 4)),
    ];
    make_all(&mut over, &calls, &mut steps);
    let named: [Row; 1] = [(7, &[3, 4, 5, 6, 7])];
    assert_eq!(rt; first_wrong(&mut over, &named), None);
    unname(&mut over, 2);
    let unnamed: [Row; 3] = [(7, &[1, 2, 3, 4, 5, 6, 7]), (5, &[3, 5]), (6, &[4, 6])];
    assert_eq!(rt; first_wrong(&mut over, &unnamed), None);
    Ok(())
}

// Nodes 1 and 2 are a hub over its tree, 3 its branch, 4 a hub over this, 5 the branch of that.
#[test]
fn a_hub_goes_with_the_hub_above(rt: HostRuntime) -> Result<(), Fail> {
    let mut over = evaluator_over_tables(rt.alloc(), LIMITS)?;
    let mut steps = Teller::new(rt.alloc(), ROOM)?;
    let calls = [
        Call::Apply(later(1)),
        Call::Apply(fork(2, 1)),
        Call::Apply(branch(3, 2)),
        Call::Apply(fork(4, 3)),
        Call::Apply(branch(5, 4)),
    ];
    make_all(&mut over, &calls, &mut steps);
    assert!(rt; go_just(&mut over, 5, &[5]));
    unname(&mut over, 4);
    assert!(rt; go_just(&mut over, 5, &[3, 4, 5]));
    unname(&mut over, 2);
    assert!(rt; go_just(&mut over, 5, &[1, 2, 3, 4, 5]));
    Ok(())
}

// Whether this node would go with the members of this list.
fn goes_with_members(over: &mut TableEvaluator, list: Name, node: u64) -> bool {
    let keepers = &mut over.ground.keepers;
    would_free_members(&mut keepers.nodes, &mut keepers.frames, list, link(node))
}

// Whether with the members of this list just those nodes would go whose numbers stand here, of the first seven.
fn members_go_just(over: &mut TableEvaluator, list: Name, gone: &[u64]) -> bool {
    for node in 1..8u64 {
        if goes_with_members(over, list, node) != gone.contains(&node) {
            return false;
        }
    }
    true
}

// Nodes 1 and 2 are a hub over its tree, 3 and 4 its branches, 5 and 6 the tasks of a set over them.
#[test]
fn a_hub_goes_with_the_tasks_of_a_set(rt: HostRuntime) -> Result<(), Fail> {
    let mut over = evaluator_over_tables(rt.alloc(), LIMITS)?;
    let mut steps = Teller::new(rt.alloc(), ROOM)?;
    let calls = [
        Call::Apply(later(1)),
        Call::Apply(fork(2, 1)),
        Call::Apply(branch(3, 2)),
        Call::Apply(branch(4, 2)),
        Call::Apply(new_set(SET.0, None)),
        Call::Apply(add(SET.0, 3)),
        Call::Apply(add(SET.0, 4)),
    ];
    make_all(&mut over, &calls, &mut steps);
    assert!(rt; members_go_just(&mut over, SET, &[3, 4, 5, 6]));
    unname(&mut over, 2);
    assert!(rt; members_go_just(&mut over, SET, &[1, 2, 3, 4, 5, 6]));
    let alone: [Row; 2] = [(5, &[3, 5]), (6, &[4, 6])];
    assert_eq!(rt; first_wrong(&mut over, &alone), None);
    assert!(rt; members_go_just(&mut over, Name(8), &[]));
    Ok(())
}
