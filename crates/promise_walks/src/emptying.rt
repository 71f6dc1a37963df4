//! Sets that are empty now.
ghost use Rattle.std.specs.Prelude.{◌≡◌, ℕ};
ghost use Rattle.kj_model.specs.World.{World};
ghost use Rattle.kj_model.specs.Effects.{now_empty};
ghost use Rattle.promise_nodes.specs.Kept.{OnlyFalls, OnlyRises};
ghost use Rattle.promise_walks.specs.Walks.{Both};
ghost use Rattle.promise_walks.specs.Sets.{empty_cell};

use crate::looks::void;
use kj_base::{Link, Name};
use promise_listening::settle;
use promise_names::{Held, Names};
use promise_nodes::{Nodes, Way};

// The cell that waits until a set is empty, where the set has no tasks.
fn empty_cell(held: Option<Held>) -> Option<Link>
    ensures { result ≡ empty_cell held }
{
    match held {
        Some(Held::Group { tasks, empty, .. }) => { if tasks == 0 { empty } else { None } }
        _ => None,
    }
}

/// A set may be empty now: where it has no tasks, the cell that waits for this gets the empty value, and waits no more
/// (kj/async.h, `TaskSet::onEmpty`).
pub fn announce_empty<N: Nodes, M: Names>(nodes: &mut N, names: &mut M, group: Name)
    ensures stands { (w : World) → Both (N.stands nodes.old) (M.stands names.old) w
        → Both (N.stands nodes.new) (M.stands names.new) (now_empty group.0 w) }
    ensures taken { OnlyFalls (N.is_taken nodes.old) (N.is_taken nodes.new) }
    ensures listed { OnlyFalls (N.is_listed nodes.old) (N.is_listed nodes.new) }
    ensures plain { OnlyRises (N.is_plain nodes.old) (N.is_plain nodes.new) }
    ensures next { N.next nodes.new ≡ N.next nodes.old }
    ensures slots { N.slots nodes.new ≡ N.slots nodes.old }
    ensures roots { (name : ℕ) → M.roots names.new name ≡ M.roots names.old name }
    ensures count { M.count names.new ≡ M.count names.old }
    ensures limit { M.limit names.new ≡ M.limit names.old }
    ensures over { M.over names.new ≡ M.over names.old }
{
    let Some(cell) = empty_cell(names.get(group)) else {
        return;
    };
    names.regroup(group, 0, None);
    settle(nodes, Way::DepthFirst, cell, void());
}
