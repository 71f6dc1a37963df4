//! What fits.
ghost use Rattle.std.specs.Prelude.{◌≡◌, ◌<◌, ◌≤◌, ◌∷◌, [], ℕ, List, Option, Some, None, Bool, true, false, length, map, take};
ghost use Rattle.kj_base.specs.Store.{row_of, rows_of};
ghost use Rattle.kj_model.specs.World.{World};
ghost use Rattle.promise_nodes.specs.Kept.{row_seen, rows_seen};
ghost use Rattle.promise_graph.specs.Kept.{AreNumbered, IsKept};
ghost use Rattle.promise_graph.specs.Standing.{Stands};
ghost use Rattle.promise_graph.specs.Rows.{room_of, row_at};

use crate::building::find_before;
use crate::fields::Fields;
use kj_base::{Queue, Row, Store};
use promise_nodes::NodeRow;

/// How many rows are asked for at once, at most.
const MOST_ROWS: usize = 16;

/// A row of no nodes.
const NO_ROW: Row = Row {
    before: None,
    count: 0,
};

// A row by slots.
fn placed_row<St: Store + Drop, Q: Queue + Drop>(g: &Fields<St, Q>, row: NodeRow) -> Row
    requires { AreNumbered (St.node_at g.now.store) g.now.marks }
    ensures { row_of result ≡ row_at g.now.marks (row_seen row) }
{
    Row {
        before: find_before(g, row.before),
        count: row.count,
    }
}

// These rows by slots; behind them are rows of no nodes.
fn placed_rows<St: Store + Drop, Q: Queue + Drop>(
    g: &Fields<St, Q>,
    rows: &[NodeRow],
) -> [Row; MOST_ROWS]
    requires numbered { AreNumbered (St.node_at g.now.store) g.now.marks }
    requires few { length rows.now ≤ 16 }
    ensures { rows_of (take (length rows.now) result)
        ≡ map (row_at g.now.marks) (rows_seen rows.now) }
{
    let mut placed = [NO_ROW; MOST_ROWS];
    'placing: for at in 0..rows.len() {
        placed[at] = placed_row(g, rows[at]);
    }
    placed
}

// Whether nodes in these rows can be placed.
pub(crate) fn fits<St: Store + Drop, Q: Queue + Drop>(g: &Fields<St, Q>, rows: &[NodeRow]) -> bool
    requires kept { IsKept (St.node_at g.now.store) (St.is_bare g.now.store)
        (Q.events g.now.queue) (St.slots g.now.store) (Q.size g.now.queue) g.now.marks }
    requires few { length rows.now ≤ 16 }
    ensures room { result ≡ room_of (St.room g.now.store) g.now.marks (rows_seen rows.now) }
    ensures ruled { (w : World)
        → Stands (St.node_at g.now.store) (Q.events g.now.queue) (St.stands g.now.store)
        g.now.marks w
        → result ≡ St.rule g.now.marks.slots w.spots (rows_seen rows.now) }
{
    let placed = placed_rows(g, rows);
    g.store.fits(&placed[..rows.len()])
}
