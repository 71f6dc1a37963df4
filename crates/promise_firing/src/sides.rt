//! Sides that fire.
ghost use Rattle.std.specs.Prelude.{◌≡◌, Some, true, false, vec_capacity};
ghost use Rattle.kj_model.specs.World.{World};
ghost use Rattle.kj_model.specs.Nodes.{Side, Waits, form_at};
ghost use Rattle.kj_model.specs.Listening.{join_ready};
ghost use Rattle.kj_model.specs.Fire.{all_fired, announced_if, fast_announced, kept_then};
ghost use Rattle.promise_nodes.specs.Kept.{OnlyFalls, OnlyRises, IsLive};
ghost use Rattle.promise_walks.specs.Walks.{Both, Does};
ghost use Rattle.promise_firing.specs.Ground.{IsSound, Keeps, ground};
ghost use Rattle.promise_firing.specs.Outliving.{Outlives};
ghost use Rattle.promise_firing.specs.Stages.{sides_of};

use crate::owners::Joined;
use kj_base::{Form, Link, Outcome, Stage};
use promise_commands::Steps;
use promise_listening::{announce, is_join_ready, keep};
use promise_names::Names;
use promise_nodes::{Nodes, Way};
use promise_walks::{Frame, Parts, free_part};

// Who listens to a join is armed, where it is ready.
fn announce_ready<N: Nodes>(nodes: &mut N, is_fast: bool, joined: Joined)
    ensures stands { (w : World)
        → N.stands nodes.old w → IsLive w joined.join.number.0 → N.stands nodes.new
        (announced_if (join_ready is_fast (sides_of joined) w.nodes) joined.join.number.0 w) }
    ensures taken { OnlyFalls (N.is_taken nodes.old) (N.is_taken nodes.new) }
    ensures plain { OnlyRises (N.is_plain nodes.old) (N.is_plain nodes.new) }
    ensures next { N.next nodes.new ≡ N.next nodes.old }
    ensures slots { N.slots nodes.new ≡ N.slots nodes.old }
{
    if !is_join_ready(nodes, is_fast, joined.first, joined.count) {
        return;
    }
    announce(nodes, Way::DepthFirst, joined.join);
}

/// The Side of an All has fired: it only counts, and who listens to the All is armed where no Side waits any more.
pub fn count_side<N: Nodes>(nodes: &mut N, joined: Joined, side: Link, tree: Link)
    ensures stands { (w : World)
        → N.stands nodes.old w → form_at side.number.0 w.nodes ≡ Some (Side (Waits tree.number.0))
        → IsLive w joined.join.number.0 → N.stands nodes.new
        (all_fired joined.join.number.0 (sides_of joined) side.number.0 tree.number.0 w) }
    ensures taken { OnlyFalls (N.is_taken nodes.old) (N.is_taken nodes.new) }
    ensures plain { OnlyRises (N.is_plain nodes.old) (N.is_plain nodes.new) }
    ensures next { N.next nodes.new ≡ N.next nodes.old }
    ensures slots { N.slots nodes.new ≡ N.slots nodes.old }
{
    let stage = Stage::Fired(tree);
    nodes.put(side, Form::Side { stage });
    announce_ready(nodes, false, joined);
}

// The same for a fast join, which becomes ready once.
fn announce_once<N: Nodes>(nodes: &mut N, was_ready: bool, joined: Joined)
    ensures stands { (w : World) → N.stands nodes.old w → IsLive w joined.join.number.0
        → N.stands nodes.new (fast_announced was_ready joined.join.number.0 (sides_of joined) w) }
    ensures taken { OnlyFalls (N.is_taken nodes.old) (N.is_taken nodes.new) }
    ensures plain { OnlyRises (N.is_plain nodes.old) (N.is_plain nodes.new) }
    ensures next { N.next nodes.new ≡ N.next nodes.old }
    ensures slots { N.slots nodes.new ≡ N.slots nodes.old }
{
    if was_ready {
        return;
    }
    announce_ready(nodes, true, joined);
}

/// The tree of a fast join's Side gave an outcome: it is freed, the outcome kept, and who listens to the join is armed
/// where it became ready by that; `was_ready` is whether it was before the tree was evaluated.
pub fn keep_side<N: Nodes, M: Names, S: Steps>(
    nodes: &mut N,
    names: &mut M,
    frames: &mut Vec<Frame>,
    search: &mut Vec<Parts>,
    joined: Joined,
    was_ready: bool,
    side: Link,
    tree: Link,
    outcome: Outcome,
    steps: &mut S,
)
    requires sound { IsSound (ground (N.is_taken nodes.old) (N.is_plain nodes.old)
        (N.next nodes.old) (N.slots nodes.old) (M.roots names.old) (M.count names.old)
        (M.limit names.old) (vec_capacity frames.old) (vec_capacity search.old)) }
    ensures does { Does (λ w. Both (N.stands nodes.old) (M.stands names.old) w
        × Outlives joined.join.number.0 tree.number.0 w)
        (Both (N.stands nodes.new) (M.stands names.new))
        (kept_then (fast_announced was_ready joined.join.number.0 (sides_of joined)) side.number.0
        tree.number.0 (Some outcome)) (λ s. s) (S.told steps.old) (S.told steps.new) }
    ensures lacks { S.lacks steps.new ≡ S.lacks steps.old }
    ensures kept { Keeps (ground (N.is_taken nodes.old) (N.is_plain nodes.old)
        (N.next nodes.old) (N.slots nodes.old) (M.roots names.old)
        (M.count names.old) (M.limit names.old) (vec_capacity frames.old) (vec_capacity search.old))
        (ground (N.is_taken nodes.new) (N.is_plain nodes.new) (N.next nodes.new) (N.slots nodes.new)
        (M.roots names.new) (M.count names.new) (M.limit names.new) (vec_capacity frames.new)
        (vec_capacity search.new)) }
    ensures over { M.over names.new ≡ M.over names.old }
{
    free_part(nodes, names, frames, search, tree, steps);
    keep(nodes, side, outcome);
    announce_once(nodes, was_ready, joined);
}
