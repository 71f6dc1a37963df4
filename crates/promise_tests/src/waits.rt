//! Waits, with what is told in each, worked out by hand.
use crate::calls::{LIMITS, ROOM};
use crate::commands::{later, pair, then};
use crate::teller::{GIVES_SEVEN, LACKS, Teller, Told};
use event_list::EventList;
use kj_base::{Name, NoMemory, NodeId};
use loop_core::{Loop, LoopOver};
use node_table::NodeTable;
use promise_commands::{Command, Refused, Waited};
use promise_turns::Turned;
use std::alloc::Global;
use std::test::Fail;

type TableLoop = Loop<NodeTable, EventList>;

// A wait: a name, and for how many turns.
type Wait = (u32, u32);

fn freed(node: u64) -> Told {
    Told::Freed(NodeId(node))
}

fn answered(node: u64) -> Told {
    Told::Answered(NodeId(node))
}

fn new_loop(alloc: Global) -> Result<TableLoop, NoMemory> {
    let store = NodeTable::new(alloc, LIMITS.slots)?;
    let queue = EventList::new(alloc, LIMITS.slots + 1)?;
    LoopOver::new(alloc, LIMITS, store, queue)
}

fn apply(over: &mut TableLoop, command: Command, steps: &mut Teller) {
    if let Err(refused) = over.apply(command, steps) {
        steps.tell(Told::Refused(refused));
    }
}

fn wait(over: &mut TableLoop, name: u32, turns: u32, steps: &mut Teller) {
    match over.wait(Name(name), turns, steps) {
        Waited::Done(outcome) => steps.tell_outcome(&outcome),
        Waited::Idle => steps.tell(Told::Turned(Turned::Idle)),
        Waited::Turns => steps.tell(Told::OutOfTurns),
        Waited::Refused(refused) => steps.tell(Told::Refused(refused)),
        Waited::NoMemory => steps.tell(Told::Turned(Turned::NoMemory)),
        Waited::Stopped => steps.tell(Told::Turned(Turned::Stopped)),
    }
}

// What two commands, these waits and the closing of a new loop tell, and what the closing answers.
fn told_by(alloc: Global, commands: [Command; 2], waits: &[Wait]) -> Result<Vec<Told>, NoMemory> {
    let mut over = new_loop(alloc)?;
    let mut steps = Teller::new(alloc, ROOM)?;
    for command in commands {
        apply(&mut over, command, &mut steps);
    }
    for (name, turns) in waits {
        wait(&mut over, *name, *turns, &mut steps);
    }
    for node in over.close(&mut steps).as_slice() {
        steps.tell(Told::Answered(*node));
    }
    Ok(steps.told)
}

#[test]
fn a_wait_gives_the_outcome(rt: HostRuntime) -> Result<(), Fail> {
    let commands = [later(1), then(2, 1, GIVES_SEVEN)];
    let told = [
        freed(1),
        Told::Ran(NodeId(2), GIVES_SEVEN),
        freed(2),
        Told::Gave(Some(7)),
        Told::Refused(Refused::Unknown(Name(2))),
    ];
    let waits = [(2, 5), (2, 5)];
    assert_eq!(rt;
        told_by(rt.alloc(), commands, &waits)?.as_slice(),
        told.as_slice()
    );
    Ok(())
}

#[test]
fn a_wait_that_ends_gives_the_name_back(rt: HostRuntime) -> Result<(), Fail> {
    let commands = [pair(1, 2), later(3)];
    let told = [
        Told::OutOfTurns,
        Told::Turned(Turned::Idle),
        Told::Turned(Turned::Idle),
        Told::Refused(Refused::WrongKind(Name(2))),
        freed(1),
        freed(2),
        answered(1),
        answered(2),
    ];
    let waits = [(1, 0), (1, 5), (1, 5), (2, 5)];
    assert_eq!(rt;
        told_by(rt.alloc(), commands, &waits)?.as_slice(),
        told.as_slice()
    );
    Ok(())
}

#[test]
fn a_wait_without_memory_stops_the_loop(rt: HostRuntime) -> Result<(), Fail> {
    let commands = [later(1), then(2, 1, LACKS)];
    let told = [
        freed(1),
        Told::Turned(Turned::NoMemory),
        Told::Turned(Turned::Stopped),
        freed(2),
        answered(2),
    ];
    let waits = [(2, 5), (2, 5)];
    assert_eq!(rt;
        told_by(rt.alloc(), commands, &waits)?.as_slice(),
        told.as_slice()
    );
    Ok(())
}
