//! Turns, with what is told in each, worked out by hand.
use crate::calls::{Call, told_by};
use crate::commands::{all, chain, detach, later, race, then};
use crate::teller::{GIVES_PROMISE, GIVES_SEVEN, LACKS, Told};
use kj_base::NodeId;
use promise_turns::Turned;
use std::test::Fail;

const FIRED: Told = Told::Turned(Turned::Fired);

const IDLE: Told = Told::Turned(Turned::Idle);

fn freed(node: u64) -> Told {
    Told::Freed(NodeId(node))
}

#[test]
fn tasks_fire_in_their_order(rt: HostRuntime) -> Result<(), Fail> {
    let calls = [
        Call::Apply(later(1)),
        Call::Apply(then(2, 1, GIVES_SEVEN)),
        Call::Apply(detach(2)),
        Call::Apply(later(3)),
        Call::Apply(detach(3)),
        Call::Turn,
        Call::Turn,
        Call::Turn,
    ];
    let told = [
        freed(1),
        Told::Ran(NodeId(2), GIVES_SEVEN),
        freed(2),
        freed(3),
        FIRED,
        freed(4),
        freed(5),
        FIRED,
        IDLE,
    ];
    assert_eq!(rt; told_by(rt.alloc(), &calls)?.as_slice(), told.as_slice());
    Ok(())
}

#[test]
fn a_chain_gives_its_place(rt: HostRuntime) -> Result<(), Fail> {
    let calls = [
        Call::Apply(later(1)),
        Call::Apply(chain(2, 1, GIVES_PROMISE)),
        Call::Apply(detach(2)),
        Call::Turn,
        Call::Turn,
        Call::Turn,
    ];
    let told = [
        freed(1),
        Told::Ran(NodeId(2), GIVES_PROMISE),
        freed(2),
        freed(3),
        FIRED,
        freed(5),
        freed(4),
        FIRED,
        IDLE,
    ];
    assert_eq!(rt; told_by(rt.alloc(), &calls)?.as_slice(), told.as_slice());
    Ok(())
}

#[test]
fn a_race_frees_the_other_side(rt: HostRuntime) -> Result<(), Fail> {
    let calls = [
        Call::Apply(later(1)),
        Call::Apply(later(2)),
        Call::Apply(race(3, 1, 2)),
        Call::Apply(detach(3)),
        Call::Turn,
        Call::Turn,
        Call::Turn,
    ];
    let told = [
        freed(2),
        FIRED,
        freed(1),
        freed(3),
        freed(4),
        freed(5),
        freed(6),
        FIRED,
        IDLE,
    ];
    assert_eq!(rt; told_by(rt.alloc(), &calls)?.as_slice(), told.as_slice());
    Ok(())
}

#[test]
fn an_all_waits_for_each_side(rt: HostRuntime) -> Result<(), Fail> {
    let calls = [
        Call::Apply(later(1)),
        Call::Apply(later(2)),
        Call::Apply(all(3, 1, 2)),
        Call::Apply(detach(3)),
        Call::Turn,
        Call::Turn,
        Call::Turn,
        Call::Turn,
    ];
    let told = [
        FIRED,
        FIRED,
        freed(1),
        freed(2),
        freed(3),
        freed(4),
        freed(5),
        freed(6),
        FIRED,
        IDLE,
    ];
    assert_eq!(rt; told_by(rt.alloc(), &calls)?.as_slice(), told.as_slice());
    Ok(())
}

#[test]
fn a_stopped_loop_makes_no_turn(rt: HostRuntime) -> Result<(), Fail> {
    let calls = [
        Call::Apply(later(1)),
        Call::Apply(then(2, 1, LACKS)),
        Call::Apply(detach(2)),
        Call::Turn,
        Call::Turn,
    ];
    let told = [
        freed(1),
        Told::Turned(Turned::NoMemory),
        Told::Turned(Turned::Stopped),
    ];
    assert_eq!(rt; told_by(rt.alloc(), &calls)?.as_slice(), told.as_slice());
    Ok(())
}
