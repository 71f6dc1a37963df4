//! A graph over the plain table and the plain queue.
ghost use Rattle.std.specs.Prelude.{◌≤◌};

use crate::Graph;
use event_list::EventList;
use kj_base::{
    Form, Limits, Link, MAX_SLOTS, Name, NoMemory, NodeId, Outcome, Queue, Store, Words,
};
use node_table::NodeTable;
use promise_nodes::{Mark, NodeRow, Nodes, Way};
use std::alloc::Global;
use std::test::Fail;

const ANEW: NodeRow = NodeRow {
    before: None,
    count: 1,
};

fn table_graph(alloc: Global, slots: u32) -> Result<Graph<NodeTable, EventList>, NoMemory>
    requires { slots ≤ MAX_SLOTS }
{
    let store = match NodeTable::new(alloc, slots) {
        Ok(store) => store,
        Err(none) => return Err(none),
    };
    let queue = match EventList::new(alloc, slots + 1) {
        Ok(queue) => queue,
        Err(none) => return Err(none),
    };
    Graph::new(alloc, Limits { slots, names: 1 }, store, queue)
}

#[test]
fn keeps_nodes(rt: HostRuntime) -> Result<(), Fail> {
    let mut graph = table_graph(rt.alloc(), 3)?;
    assert_eq!(rt; graph.slots(), 3);
    assert!(rt; graph.next() < 2);
    assert!(rt; graph.fits(&[ANEW]));
    let leaf = graph.build(None, Form::Later);
    assert_eq!(rt; leaf.number, NodeId(1));
    assert!(rt; graph.form(leaf).is_some());
    assert!(rt; graph.fits(&[ANEW]));
    let task = graph.build(None, Form::Task { tree: Some(leaf) });
    assert!(rt; graph.owner(leaf) == Some(task));
    assert!(rt; graph.owner(task).is_none());
    graph.arm(Way::BreadthFirst, task);
    graph.arm(Way::DepthFirst, leaf);
    graph.rewind();
    assert!(rt; graph.take() == Some(leaf));
    graph.set_firing(Some(leaf));
    assert!(rt; graph.firing() == Some(leaf));
    graph.set_awaited(Some(task));
    assert!(rt; graph.awaited() == Some(task));
    graph.disarm(task);
    assert!(rt; graph.take().is_none());
    graph.put(task, Form::Task { tree: None });
    assert!(rt; graph.owner(leaf).is_none());
    Ok(())
}

#[test]
fn uses_slots_again(rt: HostRuntime) -> Result<(), Fail> {
    let mut graph = table_graph(rt.alloc(), 1)?;
    for i in 0..5u64 {
        assert!(rt; graph.next() == i + 1);
        assert!(rt; graph.fits(&[ANEW]));
        let leaf = graph.build(None, Form::Last);
        assert!(rt; !graph.fits(&[ANEW]));
        assert!(rt; graph.next_branch(leaf).is_none());
        assert!(rt; graph.first_branch(leaf).is_none());
        assert!(rt; !graph.is_unreferenced(leaf));
        assert!(rt; !graph.leave_hub(leaf, leaf));
        graph.drop_node(leaf);
        assert!(rt; graph.form(leaf).is_none());
    }
    Ok(())
}

#[test]
fn replaces_a_tree(rt: HostRuntime) -> Result<(), Fail> {
    let mut graph = table_graph(rt.alloc(), 3)?;
    assert!(rt; graph.next() < 2);
    assert!(rt; graph.fits(&[ANEW]));
    let old = graph.build(None, Form::Later);
    assert!(rt; graph.fits(&[ANEW]));
    let task = graph.build(None, Form::Task { tree: Some(old) });
    assert!(rt; graph.fits(&[ANEW]));
    assert!(rt; !graph.fits(&[ANEW, ANEW]));
    let new = graph.build(None, Form::Last);
    graph.replace(old, new);
    assert!(rt; graph.owner(new) == Some(task));
    assert!(rt; graph.owner(old).is_none());
    Ok(())
}

#[test]
fn keeps_its_own_set(rt: HostRuntime) -> Result<(), Fail> {
    let mut graph = table_graph(rt.alloc(), 2)?;
    assert!(rt; graph.next() < 2);
    assert!(rt; graph.newest_task().is_none());
    assert!(rt; graph.fits(&[ANEW]));
    let first = graph.build(None, Form::Task { tree: None });
    assert!(rt; graph.fits(&[ANEW]));
    let second = graph.build(None, Form::Task { tree: None });
    graph.enlist(first);
    graph.enlist(second);
    assert!(rt; graph.newest_task() == Some(second));
    graph.delist(second);
    assert!(rt; graph.newest_task() == Some(first));
    Ok(())
}

#[test]
fn marks_nodes(rt: HostRuntime) -> Result<(), Fail> {
    let mut graph = table_graph(rt.alloc(), 2)?;
    assert!(rt; graph.next() < 2);
    assert!(rt; graph.fits(&[ANEW]));
    let first = graph.build(None, Form::Later);
    assert!(rt; graph.fits(&[ANEW]));
    let second = graph.build(None, Form::Last);
    assert!(rt; graph.mark_of(first) == Mark::Unmarked);
    graph.mark(first, Mark::Left);
    graph.mark(second, Mark::Gone);
    assert!(rt; graph.mark_of(first) == Mark::Left);
    assert!(rt; graph.mark_of(second) == Mark::Gone);
    graph.clear_marks();
    assert!(rt; graph.mark_of(first) == Mark::Unmarked);
    assert!(rt; graph.mark_of(second) == Mark::Unmarked);
    graph.mark(first, Mark::Gone);
    assert!(rt; graph.mark_of(first) == Mark::Gone);
    assert!(rt; graph.mark_of(second) == Mark::Unmarked);
    assert!(rt; graph.form(first).is_some());
    Ok(())
}

// Whether these are the newest two members of a list, from the newest on.
fn are_newest<St: Store + Drop, Q: Queue + Drop>(
    graph: &Graph<St, Q>,
    list: Name,
    newest: Link,
    older: Option<Link>,
) -> bool {
    graph.newest_member(list) == Some(newest) && graph.older_member(newest) == older
}

// Three leaves, of which the first two and the last are members of two lists that share a bucket: with four slots there
// are five of them.
fn three_members(
    graph: &mut Graph<NodeTable, EventList>,
    list: Name,
    other: Name,
) -> Option<(Link, Link, Link)> {
    if graph.next() > 1 || !graph.fits(&[ANEW]) {
        return None;
    }
    let first = graph.build(None, Form::Later);
    if !graph.fits(&[ANEW]) {
        return None;
    }
    let second = graph.build(None, Form::Later);
    if !graph.fits(&[ANEW]) {
        return None;
    }
    let last = graph.build(None, Form::Later);
    graph.join_list(first, list);
    graph.join_list(last, other);
    graph.join_list(second, list);
    Some((first, second, last))
}

#[test]
fn keeps_members_of_lists(rt: HostRuntime) -> Result<(), Fail> {
    let mut graph = table_graph(rt.alloc(), 4)?;
    let (list, other) = (Name(2), Name(7));
    assert!(rt; graph.newest_member(list).is_none());
    let Some((first, second, last)) = three_members(&mut graph, list, other) else {
        return Err(Fail::new("no room"));
    };
    assert!(rt; graph.list_of(first) == Some(list));
    assert!(rt; graph.list_of(last) == Some(other));
    assert!(rt; are_newest(&graph, list, second, Some(first)));
    assert!(rt; are_newest(&graph, other, last, None));
    assert!(rt; graph.older_member(first).is_none());
    // It is no member of the other list.
    graph.leave_list(second, other);
    assert!(rt; are_newest(&graph, list, second, Some(first)));
    graph.leave_list(second, list);
    assert!(rt; graph.list_of(second).is_none());
    assert!(rt; are_newest(&graph, list, first, None));
    Ok(())
}

#[test]
fn members_go(rt: HostRuntime) -> Result<(), Fail> {
    let mut graph = table_graph(rt.alloc(), 4)?;
    let (list, other) = (Name(2), Name(7));
    let Some((first, second, last)) = three_members(&mut graph, list, other) else {
        return Err(Fail::new("no room"));
    };
    assert!(rt; !graph.leave_hub(second, second));
    graph.drop_node(second);
    assert!(rt; are_newest(&graph, list, first, None));
    assert!(rt; graph.older_member(second).is_none());
    graph.clear_list(list);
    assert!(rt; graph.newest_member(list).is_none());
    assert!(rt; graph.list_of(first).is_none());
    assert!(rt; are_newest(&graph, other, last, None));
    graph.join_list(first, other);
    assert!(rt; are_newest(&graph, other, first, Some(last)));
    Ok(())
}
