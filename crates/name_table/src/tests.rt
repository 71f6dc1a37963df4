//! Worked lists of calls.
use crate::NameTable;
use kj_base::{Limits, Link, Name, NodeId, Slot, StepId};
use promise_names::{Awaited, Held, Leaving, Names};
use std::process::Abort;
use std::test::Fail;

// How many names there may be in these tests.
const LIMIT: u32 = 3;

const LIMITS: Limits = Limits {
    slots: 8,
    names: LIMIT,
};

#[derive(Drop)]
enum Call {
    Promise(u32, u64),
    Canceler(u32),
    // A set without tasks.
    Group(u32),
    // A name, its tasks now, and the cell that waits.
    Regroup(u32, u64, Option<u64>),
    Remove(u32),
}

// A call; and the name of which it speaks, what that holds then, the lowest name, and how many there are.
#[derive(Drop)]
struct Row {
    call: Call,
    name: u32,
    held: Option<Held>,
    first: Option<Name>,
    len: u64,
}

fn tree(number: u64) -> Link {
    Link {
        slot: Slot(0),
        number: NodeId(number),
    }
}

fn promise(number: u64) -> Option<Held> {
    Some(Held::Promise(tree(number)))
}

// The error step of each set.
const ERROR: Option<StepId> = Some(StepId(2));

fn link(number: Option<u64>) -> Option<Link> {
    match number {
        Some(number) => Some(tree(number)),
        None => None,
    }
}

// A set with as many tasks, and the cell that waits until it is empty.
fn set(tasks: u64, empty: Option<u64>) -> Held {
    Held::Group {
        error: ERROR,
        tasks,
        empty: link(empty),
    }
}

fn make_row(call: Call, name: u32, held: Option<Held>, first: u32, len: u64) -> Row {
    Row {
        call,
        name,
        held,
        first: Some(Name(first)),
        len,
    }
}

// A call, where there is room for it.
fn run(names: &mut NameTable, call: &Call) {
    match call {
        Call::Remove(name) => names.remove(Name(*name)),
        Call::Regroup(name, tasks, empty) => names.regroup(Name(*name), *tasks, link(*empty)),
        _ if names.len() >= u64::from(names.limit()) => {}
        Call::Promise(name, number) => names.set(Name(*name), Held::Promise(tree(*number))),
        Call::Canceler(name) => names.set(Name(*name), Held::Canceler),
        Call::Group(name) => names.set(
            Name(*name),
            Held::Group {
                error: ERROR,
                tasks: 0,
                empty: None,
            },
        ),
    }
}

fn run_rows(rt: &impl Abort, names: &mut NameTable, rows: &[Row]) -> Result<(), Fail> {
    for row in rows {
        run(names, &row.call);
        assert_eq!(rt; names.get(Name(row.name)), row.held);
        assert_eq!(rt; names.first(), row.first);
        assert_eq!(rt; names.len(), row.len);
    }
    Ok(())
}

#[test]
fn names_come_and_go(rt: HostRuntime) -> Result<(), Fail> {
    let mut names = NameTable::new(rt.alloc(), LIMITS)?;
    assert_eq!(rt; names.first(), None);
    let rows = [
        make_row(Call::Promise(5, 1), 5, promise(1), 5, 1),
        make_row(Call::Promise(2, 4), 2, promise(4), 2, 2),
        // A name that is there holds another thing, and is no name more.
        make_row(Call::Canceler(5), 5, Some(Held::Canceler), 2, 2),
        make_row(Call::Promise(9, 7), 9, promise(7), 2, 3),
        // There is room for three.
        make_row(Call::Promise(1, 8), 1, None, 2, 3),
        make_row(Call::Remove(2), 2, None, 5, 2),
        make_row(Call::Remove(2), 2, None, 5, 2),
        make_row(Call::Remove(4), 9, promise(7), 5, 2),
        // The room of a name that went is used again.
        make_row(Call::Promise(7, 3), 7, promise(3), 5, 3),
        make_row(Call::Remove(5), 9, promise(7), 7, 2),
        make_row(Call::Promise(0, 6), 0, promise(6), 0, 3),
        make_row(Call::Remove(9), 7, promise(3), 0, 2),
    ];
    run_rows(&rt, &mut names, &rows)?;
    assert_eq!(rt; names.limit(), LIMIT);
    Ok(())
}

#[test]
fn sets_are_told_their_tasks(rt: HostRuntime) -> Result<(), Fail> {
    let mut names = NameTable::new(rt.alloc(), LIMITS)?;
    let rows = [
        make_row(Call::Group(5), 5, Some(set(0, None)), 5, 1),
        make_row(Call::Promise(2, 4), 5, Some(set(0, None)), 2, 2),
        make_row(Call::Group(7), 7, Some(set(0, None)), 2, 3),
        make_row(Call::Regroup(5, 2, None), 5, Some(set(2, None)), 2, 3),
        make_row(Call::Regroup(7, 9, Some(6)), 7, Some(set(9, Some(6))), 2, 3),
        make_row(Call::Regroup(5, 1, Some(8)), 5, Some(set(1, Some(8))), 2, 3),
        // What is no set stays what it is, and a name that isn't there comes to nothing.
        make_row(Call::Regroup(2, 3, Some(8)), 2, promise(4), 2, 3),
        make_row(Call::Regroup(6, 3, None), 6, None, 2, 3),
        make_row(Call::Remove(2), 7, Some(set(9, Some(6))), 5, 2),
    ];
    run_rows(&rt, &mut names, &rows)
}

#[test]
fn a_promise_has_another_tree(rt: HostRuntime) -> Result<(), Fail> {
    let mut names = NameTable::new(rt.alloc(), LIMITS)?;
    names.set(Name(5), Held::Promise(tree(1)));
    names.rename(tree(1), tree(8));
    assert_eq!(rt; names.get(Name(5)), promise(8));
    Ok(())
}

#[test]
fn an_awaited_promise_has_no_name(rt: HostRuntime) -> Result<(), Fail> {
    let mut names = NameTable::new(rt.alloc(), LIMITS)?;
    assert_eq!(rt; names.awaited(), None);
    names.hold(Name(6), tree(1));
    assert_eq!(rt; names.get(Name(6)), None);
    assert_eq!(rt; names.len(), 0);
    names.rename(tree(1), tree(8));
    let promise = Awaited {
        name: Name(6),
        root: tree(8),
    };
    assert_eq!(rt; names.awaited(), Some(promise));
    // A step may take its name, and all others that there may be.
    for number in 5..5 + LIMIT {
        run(&mut names, &Call::Promise(number, u64::from(number)));
    }
    assert_eq!(rt; names.len(), u64::from(LIMIT));
    assert_eq!(rt; names.awaited(), Some(promise));
    names.let_go();
    assert_eq!(rt; names.awaited(), None);
    assert_eq!(rt; names.len(), u64::from(LIMIT));
    Ok(())
}

#[test]
fn trees_are_left_over(rt: HostRuntime) -> Result<(), Fail> {
    let mut names = NameTable::new(rt.alloc(), LIMITS)?;
    names.leave_over(tree(4));
    names.lose(tree(2));
    assert_eq!(rt; names.left_over(0), Some(tree(2)));
    assert_eq!(rt; names.left_over(1), Some(tree(4)));
    assert_eq!(rt; names.left_over(2), None);
    names.take_over(tree(2));
    assert_eq!(rt; names.left_over(0), Some(tree(4)));
    assert_eq!(rt; names.left_over(1), None);
    Ok(())
}

#[test]
fn loops_stop(rt: HostRuntime) -> Result<(), Fail> {
    let mut names = NameTable::new(rt.alloc(), LIMITS)?;
    assert!(rt; !names.is_stopped());
    run(&mut names, &Call::Canceler(3));
    names.left(tree(1), Leaving::Wrap(Name(3)));
    names.left(tree(1), Leaving::Cell);
    names.stop();
    assert!(rt; names.is_stopped());
    assert_eq!(rt; names.get(Name(3)), Some(Held::Canceler));
    Ok(())
}
