//! A node that keeps the outcome of its tree.
ghost use Rattle.std.specs.Prelude.{◌≡◌, Some, vec_capacity};
ghost use Rattle.kj_base.specs.Queue.{DepthFirst};
ghost use Rattle.kj_model.specs.World.{World};
ghost use Rattle.kj_model.specs.Listening.{announced};
ghost use Rattle.kj_model.specs.Fire.{kept_then, branches_announced};
ghost use Rattle.promise_nodes.specs.Kept.{OnlyFalls, OnlyRises};
ghost use Rattle.promise_walks.specs.Walks.{Both, Does};
ghost use Rattle.promise_firing.specs.Ground.{IsSound, Keeps, ground};
ghost use Rattle.promise_firing.specs.Outliving.{Outlives, BranchesLive, BranchesOutlive};

use kj_base::{Link, Outcome};
use promise_commands::Steps;
use promise_listening::{announce, keep};
use promise_names::Names;
use promise_nodes::{Nodes, Way};
use promise_walks::{Frame, Parts, free_part};

/// The tree of an eager promise or of a wrapped one gave an outcome: it is freed, the outcome kept, and then who listens
/// is armed.
pub fn keep_outcome<N: Nodes, M: Names, S: Steps>(
    nodes: &mut N,
    names: &mut M,
    frames: &mut Vec<Frame>,
    search: &mut Vec<Parts>,
    node: Link,
    tree: Link,
    outcome: Outcome,
    steps: &mut S,
)
    requires sound { IsSound (ground (N.is_taken nodes.old) (N.is_plain nodes.old)
        (N.next nodes.old) (N.slots nodes.old) (M.roots names.old) (M.count names.old)
        (M.limit names.old) (vec_capacity frames.old) (vec_capacity search.old)) }
    ensures does { Does (λ w. Both (N.stands nodes.old) (M.stands names.old) w
        × Outlives node.number.0 tree.number.0 w) (Both (N.stands nodes.new) (M.stands names.new))
        (kept_then (announced DepthFirst node.number.0) node.number.0 tree.number.0 (Some outcome))
        (λ s. s) (S.told steps.old) (S.told steps.new) }
    ensures lacks { S.lacks steps.new ≡ S.lacks steps.old }
    ensures kept { Keeps (ground (N.is_taken nodes.old) (N.is_plain nodes.old)
        (N.next nodes.old) (N.slots nodes.old) (M.roots names.old)
        (M.count names.old) (M.limit names.old) (vec_capacity frames.old) (vec_capacity search.old))
        (ground (N.is_taken nodes.new) (N.is_plain nodes.new) (N.next nodes.new) (N.slots nodes.new)
        (M.roots names.new) (M.count names.new) (M.limit names.new) (vec_capacity frames.new)
        (vec_capacity search.new)) }
    ensures over { M.over names.new ≡ M.over names.old }
{
    free_part(nodes, names, frames, search, tree, steps);
    keep(nodes, node, outcome);
    announce(nodes, Way::DepthFirst, node);
}
