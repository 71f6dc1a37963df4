//! Worked lists of calls, and many calls beside those of a table.
use crate::NameTree;
use kj_base::{Limits, Link, Name, NodeId, Slot};
use name_table::NameTable;
use promise_names::{Awaited, Held, Leaving, Names};
use std::test::Fail;

const LIMITS: Limits = Limits { slots: 8, names: 3 };

const MANY: Limits = Limits {
    slots: 64,
    names: 40,
};

// How many calls are made beside those of a table.
const CALLS: u64 = 3000;

// Names of the calls have these bits alone, so that there are 64, far from and near to each other.
const NAME_BITS: u32 = 0xE000_0007;

fn tree(number: u64) -> Link {
    Link {
        slot: Slot(0),
        number: NodeId(number),
    }
}

fn promise(number: u64) -> Option<Held> {
    Some(Held::Promise(tree(number)))
}

// The next number of a plain generator.
fn next(seed: u32) -> u32 {
    seed.wrapping_mul(1_664_525).wrapping_add(1_013_904_223)
}

// A call that the number stands for, where there is room for it.
fn run<N: Names>(names: &mut N, call: u32, number: u64) {
    let name = Name(call & NAME_BITS);
    match call >> 8 & 7 {
        3 | 7 => names.remove(name),
        _ if names.len() >= u64::from(names.limit()) => {}
        2 => names.set(name, Held::Canceler),
        6 => names.set(
            name,
            Held::Group {
                error: None,
                tasks: 0,
                empty: None,
            },
        ),
        _ => names.set(name, Held::Promise(tree(number))),
    }
}

#[test]
fn calls_do_what_those_of_a_table_do(rt: HostRuntime) -> Result<(), Fail> {
    let mut names = NameTree::new(rt.alloc(), MANY)?;
    let mut table = NameTable::new(rt.alloc(), MANY)?;
    let mut call = 1;
    let mut most = 0;
    for number in 0..CALLS {
        call = next(call);
        run(&mut names, call, number);
        run(&mut table, call, number);
        let other = Name(next(call) & NAME_BITS);
        names.regroup(other, number, Some(tree(number)));
        table.regroup(other, number, Some(tree(number)));
        assert_eq!(rt;
            names.get(Name(call & NAME_BITS)),
            table.get(Name(call & NAME_BITS))
        );
        assert_eq!(rt; names.get(other), table.get(other));
        assert_eq!(rt; names.first(), table.first());
        assert_eq!(rt; names.len(), table.len());
        most = names.len().max(most);
    }
    assert_eq!(rt; most, u64::from(MANY.names));
    // No two names have promised one tree, so each root is known.
    assert!(rt; names.is_known);
    Ok(())
}

#[test]
fn the_lowest_and_the_highest_name_are_names(rt: HostRuntime) -> Result<(), Fail> {
    let mut names = NameTree::new(rt.alloc(), LIMITS)?;
    assert_eq!(rt; names.first(), None);
    let highest = Name(u32::MAX);
    names.set(highest, Held::Promise(tree(u64::MAX)));
    assert_eq!(rt; names.first(), Some(highest));
    if names.len() < u64::from(names.limit()) {
        names.set(Name(0), Held::Canceler);
    }
    assert_eq!(rt; names.first(), Some(Name(0)));
    assert_eq!(rt; names.get(highest), promise(u64::MAX));
    names.remove(Name(0));
    assert_eq!(rt; names.first(), Some(highest));
    Ok(())
}

#[test]
fn sets_are_told_their_tasks(rt: HostRuntime) -> Result<(), Fail> {
    let mut names = NameTree::new(rt.alloc(), LIMITS)?;
    names.set(
        Name(5),
        Held::Group {
            error: None,
            tasks: 0,
            empty: None,
        },
    );
    if names.len() < u64::from(names.limit()) {
        names.set(Name(6), Held::Promise(tree(1)));
    }
    let told = Held::Group {
        error: None,
        tasks: 3,
        empty: Some(tree(7)),
    };
    // What is no set stays what it is, and a name that isn't there comes to nothing.
    for number in 4..7 {
        names.regroup(Name(number), 3, Some(tree(7)));
    }
    assert_eq!(rt; names.get(Name(4)), None);
    assert_eq!(rt; names.get(Name(5)), Some(told));
    assert_eq!(rt; names.get(Name(6)), promise(1));
    assert_eq!(rt; names.len(), 2);
    Ok(())
}

#[test]
fn a_promise_has_another_tree(rt: HostRuntime) -> Result<(), Fail> {
    let mut names = NameTree::new(rt.alloc(), LIMITS)?;
    names.set(Name(5), Held::Promise(tree(1)));
    names.rename(tree(1), tree(8));
    assert_eq!(rt; names.get(Name(5)), promise(8));
    Ok(())
}

#[test]
fn a_tree_without_a_name_has_none(rt: HostRuntime) -> Result<(), Fail> {
    let mut names = NameTree::new(rt.alloc(), LIMITS)?;
    names.set(Name(5), Held::Promise(tree(1)));
    names.rename(tree(2), tree(8));
    assert_eq!(rt; names.get(Name(5)), promise(1));
    Ok(())
}

#[test]
fn a_tree_is_found_that_two_names_promised(rt: HostRuntime) -> Result<(), Fail> {
    let mut names = NameTree::new(rt.alloc(), LIMITS)?;
    names.set(Name(6), Held::Promise(tree(1)));
    if names.len() < u64::from(names.limit()) {
        names.set(Name(5), Held::Promise(tree(1)));
    }
    names.remove(Name(6));
    names.rename(tree(1), tree(8));
    assert_eq!(rt; names.get(Name(5)), promise(8));
    Ok(())
}

#[test]
fn an_awaited_promise_has_no_name(rt: HostRuntime) -> Result<(), Fail> {
    let mut names = NameTree::new(rt.alloc(), LIMITS)?;
    assert_eq!(rt; names.awaited(), None);
    names.hold(Name(6), tree(1));
    assert_eq!(rt; names.get(Name(6)), None);
    assert_eq!(rt; names.len(), 0);
    names.rename(tree(1), tree(8));
    let held = Awaited {
        name: Name(6),
        root: tree(8),
    };
    assert_eq!(rt; names.awaited(), Some(held));
    // A step may take its name, and all others that there may be.
    for number in 5..5 + LIMITS.names {
        if names.len() < u64::from(names.limit()) {
            names.set(Name(number), Held::Promise(tree(u64::from(number))));
        }
    }
    assert_eq!(rt; names.len(), u64::from(LIMITS.names));
    assert_eq!(rt; names.awaited(), Some(held));
    names.let_go();
    assert_eq!(rt; names.awaited(), None);
    assert_eq!(rt; names.get(Name(6)), promise(6));
    Ok(())
}

#[test]
fn trees_are_left_over(rt: HostRuntime) -> Result<(), Fail> {
    let mut names = NameTree::new(rt.alloc(), LIMITS)?;
    names.leave_over(tree(4));
    names.lose(tree(2));
    assert_eq!(rt; names.left_over(0), Some(tree(2)));
    assert_eq!(rt; names.left_over(1), Some(tree(4)));
    assert_eq!(rt; names.left_over(2), None);
    names.take_over(tree(2));
    assert_eq!(rt; names.left_over(0), Some(tree(4)));
    assert_eq!(rt; names.left_over(1), None);
    Ok(())
}

#[test]
fn loops_stop(rt: HostRuntime) -> Result<(), Fail> {
    let mut names = NameTree::new(rt.alloc(), LIMITS)?;
    assert!(rt; !names.is_stopped());
    names.set(Name(3), Held::Canceler);
    names.left(tree(1), Leaving::Wrap(Name(3)));
    names.left(tree(1), Leaving::Cell);
    names.stop();
    assert!(rt; names.is_stopped());
    assert_eq!(rt; names.get(Name(3)), Some(Held::Canceler));
    Ok(())
}
