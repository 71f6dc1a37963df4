//! Branches of hubs.
ghost use Rattle.std.specs.Prelude.{◌≡◌, ◌+◌, ◌<◌, ◌≤◌, ◌^◌, [], ◌∷◌, None, Some, IsTrue};
ghost use Rattle.kj_base.specs.Places.{row};
ghost use Rattle.kj_model.specs.World.{World, HubOf, held_at};
ghost use Rattle.kj_model.specs.Effects.{branch_built};
ghost use Rattle.promise_nodes.specs.Kept.{OnlyRises};
ghost use Rattle.promise_names.specs.Held.{AreFree, IsListless};
ghost use Rattle.promise_apply.specs.Building.{Both};

use crate::building::build_leaf;
use kj_base::{Form, Link, Name};
use promise_names::Names;
use promise_nodes::Nodes;

/// A branch that a new name promises, which is its hub's newest (kj/async.h, `ForkedPromise::addBranch`).
pub fn build_branch<N: Nodes, M: Names>(
    nodes: &mut N,
    names: &mut M,
    name: Name,
    _hub_name: Name,
    hub: Link,
)
    requires fits { IsTrue (N.room nodes.old (row None 1 ∷ [])) }
    requires numbers { N.next nodes.old < 2 ^ 63 + 8 }
    requires room { M.count names.old < M.limit names.old }
    requires free { AreFree (M.roots names.old) (N.is_taken nodes.old) (N.next nodes.old) }
    ensures stands { (w : World) → Both (N.stands nodes.old) (M.stands names.old) w
        → held_at _hub_name.0 w.names ≡ Some (HubOf hub.number.0)
        → IsListless (held_at name.0 w.names)
        → Both (N.stands nodes.new) (M.stands names.new) (branch_built name.0 _hub_name.0 w) }
    ensures free { AreFree (M.roots names.new) (N.is_taken nodes.new) (N.next nodes.new) }
    ensures few { M.count names.new ≤ M.count names.old + 1 }
    ensures limit { M.limit names.new ≡ M.limit names.old }
    ensures slots { N.slots nodes.new ≡ N.slots nodes.old }
    ensures plain { OnlyRises (N.is_plain nodes.old) (N.is_plain nodes.new) }
    ensures over { M.over names.new ≡ M.over names.old }
{
    let branch = build_leaf(nodes, names, name, Form::Branch { hub });
    nodes.join_hub(branch, hub);
}
