//! Commands with their answers, and the nodes that they build, worked out by hand.
use crate::calls::{Call, LIMITS, ROOM, make_all, promised, refused};
use crate::commands::{
    all, branch, broken, chain, detach, fork, fulfil, later, now, pair, race, then,
};
use crate::tables::{TableEvaluator, evaluator_over_tables};
use crate::teller::Teller;
use kj_base::{Limits, Link, Name, NodeId, Slot, StepId};
use promise_commands::Refused;
use promise_nodes::Nodes;
use std::test::Fail;

// A step that isn't run in these tests.
const STEP: StepId = StepId(9);

fn link(node: u64) -> Link {
    Link {
        slot: Slot(0),
        number: NodeId(node),
    }
}

// The number of the node that a link leads to.
fn number(link: Option<Link>) -> Option<u64> {
    match link {
        Some(link) => Some(link.number.0),
        None => None,
    }
}

// The node whose event comes first, which leaves the queue.
fn first_event(over: &mut TableEvaluator) -> Option<u64> {
    number(over.ground.take())
}

fn owner(over: &TableEvaluator, node: u64) -> Option<u64> {
    number(over.ground.nodes().owner(link(node)))
}

#[test]
fn causes_come_in_their_order(rt: HostRuntime) -> Result<(), Fail> {
    let mut over = evaluator_over_tables(rt.alloc(), LIMITS)?;
    let mut steps = Teller::new(rt.alloc(), ROOM)?;
    let rows = [
        (later(1), None),
        (later(1), Some(Refused::Taken(Name(1)))),
        (then(3, 2, STEP), Some(Refused::Unknown(Name(2)))),
        (pair(4, 4), Some(Refused::Taken(Name(4)))),
        (pair(4, 5), None),
        (then(6, 5, STEP), Some(Refused::WrongKind(Name(5)))),
        (fulfil(4), Some(Refused::WrongKind(Name(4)))),
        (race(6, 1, 1), Some(Refused::Unknown(Name(1)))),
        (race(1, 4, 7), Some(Refused::Unknown(Name(7)))),
        (branch(6, 1), Some(Refused::WrongKind(Name(1)))),
        (then(1, 1, STEP), Some(Refused::Taken(Name(1)))),
        (fulfil(5), None),
    ];
    for (command, answer) in rows {
        assert_eq!(rt; refused(&mut over, &command, &mut steps), answer);
    }
    Ok(())
}

#[test]
fn rooms_run_out(rt: HostRuntime) -> Result<(), Fail> {
    let limits = Limits { slots: 8, names: 3 };
    let mut over = evaluator_over_tables(rt.alloc(), limits)?;
    let mut steps = Teller::new(rt.alloc(), ROOM)?;
    let rows = [
        (now(1), None),
        (broken(2), None),
        (later(3), None),
        (later(4), Some(Refused::Full)),
        (pair(4, 5), Some(Refused::Full)),
        (all(4, 1, 2), None),
        (then(1, 4, STEP), None),
        (chain(4, 1, STEP), Some(Refused::Full)),
        (then(4, 1, STEP), None),
        (then(1, 4, STEP), Some(Refused::Full)),
    ];
    for (command, answer) in rows {
        assert_eq!(rt; refused(&mut over, &command, &mut steps), answer);
    }
    Ok(())
}

#[test]
fn nodes_are_built_over_their_sources(rt: HostRuntime) -> Result<(), Fail> {
    let mut over = evaluator_over_tables(rt.alloc(), LIMITS)?;
    let mut steps = Teller::new(rt.alloc(), ROOM)?;
    let calls = [
        Call::Apply(later(1)),
        Call::Apply(later(2)),
        Call::Apply(race(3, 1, 2)),
        Call::Apply(pair(4, 5)),
        Call::Apply(chain(6, 4, STEP)),
        Call::Apply(fork(7, 6)),
        Call::Apply(branch(8, 7)),
    ];
    make_all(&mut over, &calls, &mut steps);
    assert_eq!(rt; steps.told.len(), 0);
    for (name, node) in [(3, Some(5)), (1, None), (8, Some(10))] {
        assert_eq!(rt; number(promised(&over, name)), node);
    }
    for (node, above) in [(1, 3), (4, 5), (7, 8), (8, 9)] {
        assert_eq!(rt; owner(&over, node), Some(above));
    }
    Ok(())
}

#[test]
fn ready_trees_arm_who_listens(rt: HostRuntime) -> Result<(), Fail> {
    let mut over = evaluator_over_tables(rt.alloc(), LIMITS)?;
    let mut steps = Teller::new(rt.alloc(), ROOM)?;
    let calls = [
        Call::Apply(pair(1, 2)),
        Call::Apply(detach(1)),
        Call::Apply(later(3)),
        Call::Apply(then(4, 3, STEP)),
        Call::Apply(detach(4)),
        Call::Apply(later(5)),
        Call::Apply(later(6)),
        Call::Apply(race(7, 5, 6)),
        Call::Apply(fulfil(2)),
    ];
    make_all(&mut over, &calls, &mut steps);
    assert_eq!(rt; steps.told.len(), 0);
    for event in [Some(2), Some(5), Some(8), Some(9), None] {
        assert_eq!(rt; first_event(&mut over), event);
    }
    Ok(())
}
