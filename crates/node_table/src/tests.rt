//! A worked list of calls.
use crate::NodeTable;
use kj_base::{Form, Node, NodeId, Row, Slot, Store, place_two};
use std::test::Fail;

fn later(number: u64) -> Node {
    Node {
        number: NodeId(number),
        form: Form::Later,
    }
}

fn row(before: Option<Slot>, count: u8) -> Row {
    Row { before, count }
}

#[test]
fn keeps_nodes(rt: HostRuntime) -> Result<(), Fail> {
    let mut table = NodeTable::new(rt.alloc(), 3)?;
    assert!(rt; table.fits(&[row(None, 2), row(None, 1)]));
    assert!(rt; !table.fits(&[row(None, 2), row(None, 2)]));
    assert!(rt;
        table.fits(&[Row {
            before: None,
            count: 1
        }])
    );
    let first = table.place(None, later(1));
    assert!(rt;
        table.fits(&[Row {
            before: Some(first),
            count: 1
        }])
    );
    let second = table.place(Some(first), later(2));
    assert!(rt; table.fits(&[row(Some(second), 1)]));
    assert!(rt; !table.fits(&[row(Some(second), 2)]));
    assert_eq!(rt; table.get(second).number, NodeId(2));
    table.set(second, later(5));
    assert_eq!(rt; table.get(second).number, NodeId(5));
    table.free(second);
    assert!(rt;
        table.fits(&[Row {
            before: None,
            count: 2
        }])
    );
    let upper = place_two(&mut table, None, later(6), later(7));
    assert_eq!(rt; table.get(upper).number, NodeId(7));
    assert!(rt; !table.fits(&[row(None, 1)]));
    assert!(rt; table.fits(&[]));
    Ok(())
}
