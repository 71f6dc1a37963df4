//! Closings, with what is told in each, worked out by hand.
ghost use Rattle.std.specs.Prelude.{◌≡◌, ◌≤◌, ◌<◌, ◌+◌, None, Some, length};
ghost use Rattle.promise_names.specs.Held.{IsLoopsOwn, root_of};
ghost use Rattle.name_table.specs.Table.{trees};

use crate::calls::{Call, LIMITS, ROOM, close, make_all, refused, told_by};
use crate::commands::{branch, chain, detach, eager, fork, later, pair};
use crate::tables::{TableEvaluator, evaluator_over_tables};
use crate::teller::{GIVES_FOUND, Teller, Told};
use kj_base::{Name, NoMemory, NodeId};
use promise_commands::Command;
use promise_names::{Held, Names};
use promise_turns::Turned;
use std::alloc::Global;
use std::test::Fail;

const FIRED: Told = Told::Turned(Turned::Fired);

fn freed(node: u64) -> Told {
    Told::Freed(NodeId(node))
}

// A name holds this, where there is room. It promises nothing.
fn hold(over: &mut TableEvaluator, name: u32, held: Held) -> bool
    requires own { IsLoopsOwn held }
    requires no_root { root_of (Some held) ≡ None }
    ensures over { trees over.new.names.over ≡ trees over.old.names.over }
{
    let names = &mut over.ground.keepers.names;
    let limit = u64::from(names.limit());
    if names.len() >= limit {
        return false;
    }
    names.set(Name(name), held);
    true
}

// The promise of a name leaves it, and is left over.
fn leave_over(over: &mut TableEvaluator, name: u32)
    requires room { length (trees over.old.names.over) < 2 }
    ensures few { length (trees over.new.names.over) ≤ length (trees over.old.names.over) + 1 }
{
    let names = &mut over.ground.keepers.names;
    if let Some(Held::Promise(root)) = names.get(Name(name)) {
        names.remove(Name(name));
        names.leave_over(root);
    }
}

#[test]
fn names_go_by_rising_name(rt: HostRuntime) -> Result<(), Fail> {
    let calls = [
        Call::Apply(later(5)),
        Call::Apply(later(2)),
        Call::Apply(later(9)),
        Call::Apply(eager(7, 9)),
        Call::Apply(pair(3, 4)),
        Call::Close,
    ];
    let told = [freed(2), freed(5), freed(1), freed(3), freed(4)];
    assert_eq!(rt; told_by(rt.alloc(), &calls)?.as_slice(), told.as_slice());
    Ok(())
}

#[test]
fn a_cell_a_set_and_a_canceler_free_nothing(rt: HostRuntime) -> Result<(), Fail> {
    let mut over = evaluator_over_tables(rt.alloc(), LIMITS)?;
    let mut steps = Teller::new(rt.alloc(), ROOM)?;
    let group = Held::Group {
        error: None,
        tasks: 0,
        empty: None,
    };
    assert!(rt; hold(&mut over, 2, Held::Canceler));
    assert!(rt; hold(&mut over, 1, group));
    make_all(
        &mut over,
        &[Call::Apply(pair(4, 3)), Call::Close],
        &mut steps,
    );
    assert_eq!(rt; steps.told.as_slice(), [freed(1)].as_slice());
    assert_eq!(rt; over.ground.names().len(), 0);
    Ok(())
}

#[test]
fn a_hub_goes_with_its_last_branch(rt: HostRuntime) -> Result<(), Fail> {
    let calls = [
        Call::Apply(later(1)),
        Call::Apply(fork(2, 1)),
        Call::Apply(branch(4, 2)),
        Call::Apply(branch(3, 2)),
        Call::Close,
    ];
    let told = [freed(4), freed(1), freed(2), freed(3)];
    assert_eq!(rt; told_by(rt.alloc(), &calls)?.as_slice(), told.as_slice());
    Ok(())
}

#[test]
fn a_hub_goes_with_its_name(rt: HostRuntime) -> Result<(), Fail> {
    let calls = [
        Call::Apply(later(1)),
        Call::Apply(fork(5, 1)),
        Call::Apply(branch(2, 5)),
        Call::Apply(later(6)),
        Call::Close,
    ];
    let told = [freed(3), freed(1), freed(2), freed(4)];
    assert_eq!(rt; told_by(rt.alloc(), &calls)?.as_slice(), told.as_slice());
    Ok(())
}

#[test]
fn tasks_go_newest_first_behind_names(rt: HostRuntime) -> Result<(), Fail> {
    let calls = [
        Call::Apply(later(1)),
        Call::Apply(detach(1)),
        Call::Apply(later(2)),
        Call::Apply(detach(2)),
        Call::Apply(later(3)),
        Call::Close,
    ];
    let told = [freed(5), freed(3), freed(4), freed(1), freed(2)];
    assert_eq!(rt; told_by(rt.alloc(), &calls)?.as_slice(), told.as_slice());
    Ok(())
}

// The Chain under each hub gives a branch of that hub, which takes its place: no free of references ends such a hub.
#[test]
fn hubs_over_their_own_branches_go_last(rt: HostRuntime) -> Result<(), Fail> {
    let calls = [
        Call::Apply(later(1)),
        Call::Apply(chain(2, 1, GIVES_FOUND)),
        Call::Apply(fork(9, 2)),
        Call::Apply(branch(50, 9)),
        Call::Turn,
        Call::Apply(later(1)),
        Call::Apply(chain(2, 1, GIVES_FOUND)),
        Call::Apply(fork(8, 2)),
        Call::Apply(branch(50, 8)),
        Call::Turn,
        Call::Apply(later(3)),
        Call::Apply(detach(3)),
        Call::Close,
    ];
    let told = [
        freed(1),
        Told::Ran(NodeId(2), GIVES_FOUND),
        freed(2),
        freed(3),
        FIRED,
        freed(6),
        Told::Ran(NodeId(7), GIVES_FOUND),
        freed(7),
        freed(8),
        FIRED,
        freed(11),
        freed(12),
        freed(5),
        freed(4),
        freed(10),
        freed(9),
    ];
    assert_eq!(rt; told_by(rt.alloc(), &calls)?.as_slice(), told.as_slice());
    Ok(())
}

// These commands are applied in turn.
fn apply_all(over: &mut TableEvaluator, commands: &[Command], steps: &mut Teller)
    ensures over { trees over.new.names.over ≡ trees over.old.names.over }
{
    'applying: for command in commands {
        refused(over, command, steps);
    }
}

// What a closing frees after these commands, once the promises of these two names were left over.
fn left_over(
    alloc: Global,
    commands: &[Command],
    first: u32,
    second: u32,
) -> Result<Vec<Told>, NoMemory> {
    let mut over = evaluator_over_tables(alloc, LIMITS)?;
    let mut steps = Teller::new(alloc, ROOM)?;
    apply_all(&mut over, commands, &mut steps);
    leave_over(&mut over, first);
    leave_over(&mut over, second);
    close(&mut over, &mut steps);
    Ok(steps.told)
}

#[test]
fn what_is_left_over_goes_first(rt: HostRuntime) -> Result<(), Fail> {
    let commands = [later(1), later(2), later(3)];
    let told = [freed(3), freed(2), freed(1)];
    assert_eq!(rt;
        left_over(rt.alloc(), &commands, 3, 2)?.as_slice(),
        told.as_slice()
    );
    Ok(())
}

#[test]
fn nothing_goes_twice(rt: HostRuntime) -> Result<(), Fail> {
    let calls = [
        Call::Apply(later(1)),
        Call::Apply(fork(2, 1)),
        Call::Close,
        Call::Close,
    ];
    let told = [freed(1), freed(2)];
    assert_eq!(rt; told_by(rt.alloc(), &calls)?.as_slice(), told.as_slice());
    Ok(())
}
