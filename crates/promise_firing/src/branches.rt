//! A hub that keeps the outcome of its tree.
ghost use Rattle.std.specs.Prelude.{◌≡◌, Some, vec_capacity};
ghost use Rattle.kj_model.specs.World.{World};
ghost use Rattle.kj_model.specs.Fire.{kept_then, branches_announced};
ghost use Rattle.promise_nodes.specs.Kept.{OnlyFalls, OnlyRises};
ghost use Rattle.promise_walks.specs.Walks.{Both, Does};
ghost use Rattle.promise_firing.specs.Ground.{IsSound, Keeps, ground};
ghost use Rattle.promise_firing.specs.Outliving.{BranchesLive, BranchesOutlive};

use kj_base::{Link, Outcome};
use promise_commands::Steps;
use promise_listening::{announce, keep};
use promise_names::Names;
use promise_nodes::{Nodes, Way};
use promise_walks::{Frame, Parts, free_part};

// Who listens to each branch of a hub is armed, in the order of making.
fn announce_branches<N: Nodes>(nodes: &mut N, hub: Link)
    ensures stands { (w : World) → N.stands nodes.old w → BranchesLive hub.number.0 w
        → N.stands nodes.new (branches_announced hub.number.0 w) }
    ensures taken { OnlyFalls (N.is_taken nodes.old) (N.is_taken nodes.new) }
    ensures plain { OnlyRises (N.is_plain nodes.old) (N.is_plain nodes.new) }
    ensures next { N.next nodes.new ≡ N.next nodes.old }
    ensures slots { N.slots nodes.new ≡ N.slots nodes.old }
{
    let mut at = nodes.first_branch(hub);
    let mut left = nodes.slots();
    'announcing: while left > 0 {
        let Some(branch) = at else {
            return;
        };
        announce(nodes, Way::DepthFirst, branch);
        at = nodes.next_branch(branch);
        left -= 1;
    }
}

/// The tree of a hub gave an outcome: it is freed, the outcome kept, and then who listens to each branch is armed, in the
/// order of making.
pub fn keep_for_branches<N: Nodes, M: Names, S: Steps>(
    nodes: &mut N,
    names: &mut M,
    frames: &mut Vec<Frame>,
    search: &mut Vec<Parts>,
    hub: Link,
    tree: Link,
    outcome: Outcome,
    steps: &mut S,
)
    requires sound { IsSound (ground (N.is_taken nodes.old) (N.is_plain nodes.old)
        (N.next nodes.old) (N.slots nodes.old) (M.roots names.old) (M.count names.old)
        (M.limit names.old) (vec_capacity frames.old) (vec_capacity search.old)) }
    ensures does { Does (λ w. Both (N.stands nodes.old) (M.stands names.old) w
        × BranchesOutlive hub.number.0 tree.number.0 w)
        (Both (N.stands nodes.new) (M.stands names.new))
        (kept_then (branches_announced hub.number.0) hub.number.0 tree.number.0 (Some outcome))
        (λ s. s) (S.told steps.old) (S.told steps.new) }
    ensures lacks { S.lacks steps.new ≡ S.lacks steps.old }
    ensures kept { Keeps (ground (N.is_taken nodes.old) (N.is_plain nodes.old)
        (N.next nodes.old) (N.slots nodes.old) (M.roots names.old)
        (M.count names.old) (M.limit names.old) (vec_capacity frames.old) (vec_capacity search.old))
        (ground (N.is_taken nodes.new) (N.is_plain nodes.new) (N.next nodes.new) (N.slots nodes.new)
        (M.roots names.new) (M.count names.new) (M.limit names.new) (vec_capacity frames.new)
        (vec_capacity search.new)) }
    ensures over { M.over names.new ≡ M.over names.old }
{
    free_part(nodes, names, frames, search, tree, steps);
    keep(nodes, hub, outcome);
    announce_branches(nodes, hub);
}
