//! Tasks of sets that end, with what is told, worked out by hand.
use crate::calls::{Call, told_by};
use crate::commands::{add, broken, detach, later, new_set, on_empty, then};
use crate::teller::{CLEARS_SET, DROPS_SET, LACKS, NOTES, SET, Told};
use kj_base::{NodeId, StepId};
use promise_turns::Turned;
use std::test::Fail;

const FIRED: Told = Told::Turned(Turned::Fired);

fn freed(node: u64) -> Told {
    Told::Freed(NodeId(node))
}

fn set(error: Option<StepId>) -> Call {
    Call::Apply(new_set(SET.0, error))
}

// A task of the set over the promise of this name.
fn task(source: u32) -> Call {
    Call::Apply(add(SET.0, source))
}

#[test]
fn a_task_that_ends_well_runs_no_error_step(rt: HostRuntime) -> Result<(), Fail> {
    let calls = [set(Some(NOTES)), Call::Apply(later(1)), task(1), Call::Turn];
    let told = [freed(1), freed(2), FIRED];
    assert_eq!(rt; told_by(rt.alloc(), &calls)?.as_slice(), told.as_slice());
    Ok(())
}

#[test]
fn the_error_step_runs_before_its_task_goes(rt: HostRuntime) -> Result<(), Fail> {
    let calls = [
        set(Some(NOTES)),
        Call::Apply(broken(1)),
        task(1),
        Call::Turn,
    ];
    let told = [freed(1), Told::Ran(NodeId(2), NOTES), freed(2), FIRED];
    assert_eq!(rt; told_by(rt.alloc(), &calls)?.as_slice(), told.as_slice());
    Ok(())
}

#[test]
fn a_set_without_error_step_runs_none(rt: HostRuntime) -> Result<(), Fail> {
    let calls = [set(None), Call::Apply(broken(1)), task(1), Call::Turn];
    let told = [freed(1), freed(2), FIRED];
    assert_eq!(rt; told_by(rt.alloc(), &calls)?.as_slice(), told.as_slice());
    Ok(())
}

// The error step of a set that has another task does this to its own set.
fn ends_own_set(step: StepId) -> [Call; 6] {
    [
        set(Some(step)),
        Call::Apply(broken(1)),
        task(1),
        Call::Apply(later(2)),
        task(2),
        Call::Turn,
    ]
}

#[test]
fn an_error_step_ends_its_own_set(rt: HostRuntime) -> Result<(), Fail> {
    for step in [CLEARS_SET, DROPS_SET] {
        let told = [
            freed(1),
            Told::Ran(NodeId(2), step),
            freed(3),
            freed(4),
            freed(2),
            FIRED,
        ];
        assert_eq!(rt;
            told_by(rt.alloc(), &ends_own_set(step))?.as_slice(),
            told.as_slice()
        );
    }
    Ok(())
}

#[test]
fn the_last_task_tells_that_its_set_is_empty(rt: HostRuntime) -> Result<(), Fail> {
    let calls = [
        set(None),
        Call::Apply(later(1)),
        task(1),
        Call::Apply(on_empty(5, SET.0)),
        Call::Apply(detach(5)),
        Call::Turn,
        Call::Turn,
        Call::Turn,
    ];
    let told = [
        freed(1),
        freed(2),
        FIRED,
        freed(3),
        freed(4),
        FIRED,
        Told::Turned(Turned::Idle),
    ];
    assert_eq!(rt; told_by(rt.alloc(), &calls)?.as_slice(), told.as_slice());
    Ok(())
}

#[test]
fn a_set_stays_while_its_task_fires(rt: HostRuntime) -> Result<(), Fail> {
    let calls = [
        set(Some(NOTES)),
        Call::Apply(later(1)),
        Call::Apply(then(2, 1, DROPS_SET)),
        task(2),
        Call::Turn,
    ];
    let told = [
        freed(1),
        Told::Ran(NodeId(2), DROPS_SET),
        freed(2),
        Told::Ran(NodeId(3), NOTES),
        freed(3),
        FIRED,
    ];
    assert_eq!(rt; told_by(rt.alloc(), &calls)?.as_slice(), told.as_slice());
    Ok(())
}

#[test]
fn a_task_is_left_over_whose_error_step_lacks_memory(rt: HostRuntime) -> Result<(), Fail> {
    let calls = [
        set(Some(LACKS)),
        Call::Apply(broken(1)),
        task(1),
        Call::Turn,
        Call::Turn,
        Call::Close,
    ];
    let told = [
        freed(1),
        Told::Turned(Turned::NoMemory),
        Told::Turned(Turned::Stopped),
        freed(2),
    ];
    assert_eq!(rt; told_by(rt.alloc(), &calls)?.as_slice(), told.as_slice());
    Ok(())
}
