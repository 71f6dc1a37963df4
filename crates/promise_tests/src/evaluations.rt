//! Trees that are evaluated, with what is told, worked out by hand.
use crate::calls::{Call, told_by};
use crate::commands::{detach, later, then};
use crate::teller::{GIVES_PROMISE, GIVES_SEVEN, IS_REFUSED, LACKS, Told};
use kj_base::{Name, NodeId, StepId};
use promise_commands::Refused;
use promise_turns::Turned;
use std::test::Fail;

fn freed(node: u64) -> Told {
    Told::Freed(NodeId(node))
}

#[test]
fn dependencies_go_before_their_steps(rt: HostRuntime) -> Result<(), Fail> {
    let calls = [
        Call::Apply(later(1)),
        Call::Apply(then(2, 1, GIVES_SEVEN)),
        Call::Apply(then(3, 2, StepId(9))),
        Call::Evaluate(3),
    ];
    let told = [
        freed(1),
        Told::Ran(NodeId(2), GIVES_SEVEN),
        freed(2),
        Told::Ran(NodeId(3), StepId(9)),
        Told::Gave(Some(7)),
    ];
    assert_eq!(rt; told_by(rt.alloc(), &calls)?.as_slice(), told.as_slice());
    Ok(())
}

// The step's first command stands, and not its third: the name 60 is taken afterwards, and 61 free.
#[test]
fn a_refused_command_ends_its_step(rt: HostRuntime) -> Result<(), Fail> {
    let calls = [
        Call::Apply(later(1)),
        Call::Apply(then(2, 1, IS_REFUSED)),
        Call::Evaluate(2),
        Call::Apply(later(60)),
        Call::Apply(later(61)),
    ];
    let told = [
        freed(1),
        Told::Ran(NodeId(2), IS_REFUSED),
        Told::Threw(9),
        Told::Refused(Refused::Taken(Name(60))),
    ];
    assert_eq!(rt; told_by(rt.alloc(), &calls)?.as_slice(), told.as_slice());
    Ok(())
}

#[test]
fn a_promise_counts_only_below_a_chain(rt: HostRuntime) -> Result<(), Fail> {
    let calls = [
        Call::Apply(later(1)),
        Call::Apply(then(2, 1, GIVES_PROMISE)),
        Call::Evaluate(2),
        Call::Apply(detach(50)),
        Call::Apply(later(3)),
        Call::Apply(then(4, 3, GIVES_PROMISE)),
        Call::EvaluateLink(4),
        Call::Apply(detach(50)),
    ];
    let told = [
        freed(1),
        Told::Ran(NodeId(2), GIVES_PROMISE),
        Told::Threw(8),
        freed(5),
        Told::Ran(NodeId(6), GIVES_PROMISE),
        Told::Took(NodeId(7)),
        Told::Refused(Refused::Unknown(Name(50))),
    ];
    assert_eq!(rt; told_by(rt.alloc(), &calls)?.as_slice(), told.as_slice());
    Ok(())
}

#[test]
fn want_of_memory_stops_the_loop(rt: HostRuntime) -> Result<(), Fail> {
    let calls = [
        Call::Apply(later(1)),
        Call::Apply(then(2, 1, LACKS)),
        Call::Evaluate(2),
        Call::Apply(later(3)),
    ];
    let told = [
        freed(1),
        Told::Turned(Turned::NoMemory),
        Told::Refused(Refused::Stopped),
    ];
    assert_eq!(rt; told_by(rt.alloc(), &calls)?.as_slice(), told.as_slice());
    Ok(())
}
