//! Worked lists of calls.
ghost use Rattle.std.specs.Prelude.{◌≡◌, ◌≢◌, ◌∷◌, [], true, Some, IsSome, IsTrue, length};
ghost use Rattle.kj_base.specs.Places.{row};
ghost use Rattle.node_arena.specs.Arenas.{node_of, is_bare, has_room};

use crate::{NodeArena, short_rows_fit, takes_no_more};
use kj_base::{Form, Node, NodeId, Row, Slot, Store, place_two};
use std::test::Fail;

fn later(number: u64) -> Node {
    Node {
        number: NodeId(number),
        form: Form::Later,
    }
}

fn row(before: Option<Slot>, count: u8) -> Row {
    Row { before, count }
}

// So many nodes, each placed before the one that was placed last, as far as they fit.
fn chain(arenas: &mut NodeArena, count: u64) -> Option<Slot> {
    let mut last = None;
    for number in 0..count {
        if arenas.fits(&[Row {
            before: last,
            count: 1,
        }]) {
            last = Some(arenas.place(last, later(number)));
        }
    }
    last
}

// A second node before a first one: both are live, in two slots.
fn place_second(arena: &mut NodeArena, first: Slot, node: Node) -> Slot
    requires live { IsSome (node_of arena.old first.0) }
    requires bare { is_bare arena.old first.0 ≡ true }
    requires fits { IsTrue (has_room arena.old (row (Some first.0) 1 ∷ [])) }
    ensures apart { result.0 ≢ first.0 }
    ensures first { IsSome (node_of arena.new first.0) }
    ensures second { IsSome (node_of arena.new result.0) }
    ensures slots { length arena.new.cells ≡ length arena.old.cells }
{
    arena.place(Some(first), node)
}

// One of two nodes goes.
fn free_first(arena: &mut NodeArena, first: Slot, second: Slot)
    requires first { IsSome (node_of arena.old first.0) }
    requires second { IsSome (node_of arena.old second.0) }
    requires apart { second.0 ≢ first.0 }
    ensures second { IsSome (node_of arena.new second.0) }
    ensures slots { length arena.new.cells ≡ length arena.old.cells }
{
    arena.free(first);
}

#[test]
fn an_arena_is_free_without_a_live_node(rt: HostRuntime) -> Result<(), Fail> {
    let mut arena = NodeArena::new(rt.alloc(), 8)?;
    assert!(rt; arena.is_free(0));
    assert!(rt;
        arena.fits(&[Row {
            before: None,
            count: 1
        }])
    );
    let first = arena.place(None, later(1));
    assert!(rt;
        arena.fits(&[Row {
            before: Some(first),
            count: 1
        }])
    );
    let second = place_second(&mut arena, first, later(2));
    // Directly below the first, in one arena.
    assert_eq!(rt; first, Slot(7));
    assert_eq!(rt; second, Slot(6));
    assert!(rt; arena.fits(&[row(Some(second), 6)]));
    assert!(rt; !arena.fits(&[row(Some(second), 7)]));
    // No more nodes than slots, whatever the place.
    assert!(rt; !arena.fits(&[row(Some(first), 7)]));
    assert!(rt; arena.fits(&[row(Some(first), 6)]));
    assert!(rt; !arena.fits(&[row(None, 1)]));
    // One of the two still lives.
    free_first(&mut arena, first, second);
    assert!(rt; !arena.is_free(0));
    assert!(rt; !arena.fits(&[row(None, 1)]));
    assert_eq!(rt; arena.get(second).number, NodeId(2));
    arena.free(second);
    assert!(rt; arena.is_free(0));
    Ok(())
}

#[test]
fn a_node_is_replaced(rt: HostRuntime) -> Result<(), Fail> {
    let mut arena = NodeArena::new(rt.alloc(), 8)?;
    assert!(rt;
        arena.fits(&[Row {
            before: None,
            count: 2
        }])
    );
    let upper = place_two(&mut arena, None, later(6), later(7));
    assert_eq!(rt; arena.get(upper).number, NodeId(7));
    arena.set(upper, later(5));
    assert_eq!(rt; arena.get(upper).number, NodeId(5));
    Ok(())
}

#[test]
fn a_chain_fills_arenas(rt: HostRuntime) -> Result<(), Fail> {
    let mut arenas = NodeArena::new(rt.alloc(), 24)?;
    assert!(rt; arenas.fits(&[row(None, 2), row(None, 1), row(None, 8)]));
    assert!(rt; !arenas.fits(&[row(None, 1), row(None, 1), row(None, 1), row(None, 1)]));
    assert!(rt; !arenas.fits(&[row(None, 9), row(None, 9)]));
    let last = chain(&mut arenas, 20);
    assert_eq!(rt; last, Some(Slot(4)));
    assert!(rt; arenas.fits(&[row(last, 4)]));
    assert!(rt; !arenas.fits(&[row(last, 5)]));
    assert_eq!(rt; chain(&mut arenas, 1), None);
    short_rows_fit();
    takes_no_more();
    Ok(())
}
