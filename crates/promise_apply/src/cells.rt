//! Commands on cells.
ghost use Rattle.std.specs.Prelude.{◌≡◌, ◌+◌, ◌<◌, ◌≤◌, ◌^◌, [], ◌∷◌, None, Some, IsTrue};
ghost use Rattle.kj_base.specs.Places.{row};
ghost use Rattle.kj_base.specs.declared.outcomes.Outcome.{Outcome};
ghost use Rattle.kj_model.specs.World.{World, CellOf, held_at};
ghost use Rattle.kj_model.specs.Outcomes.{fulfiller_dropped};
ghost use Rattle.kj_model.specs.Effects.{cell_settled, cell_dropped};
ghost use Rattle.promise_nodes.specs.Kept.{OnlyFalls, OnlyRises};
ghost use Rattle.promise_names.specs.Held.{AreFree};
ghost use Rattle.promise_apply.specs.Building.{AreNew, Both, pair_built};

use crate::building::build_leaf;
use kj_base::{Exception, Form, Kind, Link, Name, Outcome};
use promise_listening::settle;
use promise_names::{Held, Names};
use promise_nodes::{Nodes, Way};

/// The code of the exception where a fulfiller was dropped.
const FULFILLER_DROPPED: u32 = 1;

/// A promise and its fulfiller (kj/async.h, `newPromiseAndFulfiller`).
pub fn build_pair<N: Nodes, M: Names>(nodes: &mut N, names: &mut M, name: Name, cell: Name)
    requires fits { IsTrue (N.room nodes.old (row None 1 ∷ [])) }
    requires numbers { N.next nodes.old < 2 ^ 63 + 8 }
    requires room { M.count names.old + 1 < M.limit names.old }
    requires free { AreFree (M.roots names.old) (N.is_taken nodes.old) (N.next nodes.old) }
    ensures stands { (w : World)
        → Both (N.stands nodes.old) (M.stands names.old) w → AreNew name.0 cell.0 w
        → Both (N.stands nodes.new) (M.stands names.new) (pair_built name.0 cell.0 w) }
    ensures free { AreFree (M.roots names.new) (N.is_taken nodes.new) (N.next nodes.new) }
    ensures next { N.next nodes.new ≡ N.next nodes.old + 1 }
    ensures few { M.count names.new ≤ M.count names.old + 2 }
    ensures limit { M.limit names.new ≡ M.limit names.old }
    ensures slots { N.slots nodes.new ≡ N.slots nodes.old }
    ensures plain { OnlyRises (N.is_plain nodes.old) (N.is_plain nodes.new) }
    ensures over { M.over names.new ≡ M.over names.old }
{
    let leaf = build_leaf(nodes, names, name, Form::Cell { outcome: None });
    names.set(cell, Held::CellOf(leaf));
}

/// The cell of a fulfiller gets its outcome; nothing happens where it was settled or its promise is gone
/// (kj/async.h, `PromiseFulfiller::fulfill` and `reject`).
pub fn settle_cell<N: Nodes, M: Names>(
    nodes: &mut N,
    _names: &M,
    _name: Name,
    cell: Link,
    outcome: Outcome,
)
    ensures stands { (w : World) → Both (N.stands nodes.old) (M.stands _names.now) w
        → held_at _name.0 w.names ≡ Some (CellOf cell.number.0)
        → Both (N.stands nodes.new) (M.stands _names.now) (cell_settled _name.0 outcome w) }
    ensures taken { OnlyFalls (N.is_taken nodes.old) (N.is_taken nodes.new) }
    ensures next { N.next nodes.new ≡ N.next nodes.old }
    ensures slots { N.slots nodes.new ≡ N.slots nodes.old }
    ensures plain { OnlyRises (N.is_plain nodes.old) (N.is_plain nodes.new) }
{
    settle(nodes, Way::DepthFirst, cell, outcome);
}

fn dropped() -> Outcome
    ensures { result ≡ fulfiller_dropped }
{
    Outcome::Broken(Exception {
        kind: Kind::Failed,
        code: FULFILLER_DROPPED,
    })
}

/// The name of a fulfiller goes, and a cell that waits gets the exception of a dropped fulfiller.
pub fn drop_cell<N: Nodes, M: Names>(nodes: &mut N, names: &mut M, name: Name, cell: Link)
    requires free { AreFree (M.roots names.old) (N.is_taken nodes.old) (N.next nodes.old) }
    ensures stands { (w : World) → Both (N.stands nodes.old) (M.stands names.old) w
        → held_at name.0 w.names ≡ Some (CellOf cell.number.0)
        → Both (N.stands nodes.new) (M.stands names.new) (cell_dropped name.0 w) }
    ensures free { AreFree (M.roots names.new) (N.is_taken nodes.new) (N.next nodes.new) }
    ensures next { N.next nodes.new ≡ N.next nodes.old }
    ensures few { M.count names.new ≤ M.count names.old }
    ensures limit { M.limit names.new ≡ M.limit names.old }
    ensures slots { N.slots nodes.new ≡ N.slots nodes.old }
    ensures plain { OnlyRises (N.is_plain nodes.old) (N.is_plain nodes.new) }
    ensures over { M.over names.new ≡ M.over names.old }
{
    names.remove(name);
    settle(nodes, Way::DepthFirst, cell, dropped());
}
