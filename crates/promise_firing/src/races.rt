//! The first Side of a Race that fires.
ghost use Rattle.std.specs.Prelude.{◌≡◌, ◌==◌, IfSome, None, Some, true, vec_capacity};
ghost use Rattle.kj_model.specs.World.{World};
ghost use Rattle.kj_model.specs.Nodes.{Side, Waits, Race, form_at};
ghost use Rattle.kj_model.specs.Fire.{race_won};
ghost use Rattle.promise_nodes.specs.Shown.{link_number, next_number, stage_shown};
ghost use Rattle.promise_nodes.specs.Kept.{OnlyFalls, OnlyRises};
ghost use Rattle.promise_walks.specs.Walks.{Both, Does};
ghost use Rattle.promise_firing.specs.Ground.{IsSound, Keeps, ground};
ghost use Rattle.promise_firing.specs.Stages.{MayBeSide, MayWin, loser, race_decided, side_emptied, stage_tree, tree_of};

use kj_base::{Form, Link, NodeId, Stage};
use promise_commands::Steps;
use promise_listening::announce;
use promise_names::Names;
use promise_nodes::{Nodes, Way};
use promise_walks::{Frame, Parts, free_part};

fn tree_of_stage(stage: &Stage) -> Option<Link>
    ensures { stage_tree (stage_shown stage.now) ≡ link_number result }
{
    match stage {
        Stage::Waits(tree) => Some(*tree),
        Stage::Fired(tree) => Some(*tree),
        Stage::Keeps(_) => None,
        Stage::Gone => None,
    }
}

// The tree of a Side, where it has one.
fn side_tree<N: Nodes>(nodes: &N, side: Link) -> Option<Link>
    ensures tree { (w : World) → N.stands nodes.now w
        → tree_of (form_at side.number.0 w.nodes) ≡ link_number result }
    ensures plain { IfSome result (λ tree. N.is_plain nodes.now side.number.0 ≡ true) }
{
    match nodes.form(side) {
        Some(Form::Side { stage }) => tree_of_stage(stage),
        _ => None,
    }
}

// The tree of a Side goes, and the Side has nothing left.
fn empty_side<N: Nodes, M: Names, S: Steps>(
    nodes: &mut N,
    names: &mut M,
    frames: &mut Vec<Frame>,
    search: &mut Vec<Parts>,
    side: Link,
    steps: &mut S,
)
    requires sound { IsSound (ground (N.is_taken nodes.old) (N.is_plain nodes.old)
        (N.next nodes.old) (N.slots nodes.old) (M.roots names.old) (M.count names.old)
        (M.limit names.old) (vec_capacity frames.old) (vec_capacity search.old)) }
    ensures does { Does (λ w. Both (N.stands nodes.old) (M.stands names.old) w
        × MayBeSide (form_at side.number.0 w.nodes))
        (Both (N.stands nodes.new) (M.stands names.new)) (side_emptied side.number.0) (λ s. s)
        (S.told steps.old) (S.told steps.new) }
    ensures lacks { S.lacks steps.new ≡ S.lacks steps.old }
    ensures kept { Keeps (ground (N.is_taken nodes.old) (N.is_plain nodes.old)
        (N.next nodes.old) (N.slots nodes.old) (M.roots names.old)
        (M.count names.old) (M.limit names.old) (vec_capacity frames.old) (vec_capacity search.old))
        (ground (N.is_taken nodes.new) (N.is_plain nodes.new) (N.next nodes.new) (N.slots nodes.new)
        (M.roots names.new) (M.count names.new) (M.limit names.new) (vec_capacity frames.new)
        (vec_capacity search.new)) }
    ensures over { M.over names.new ≡ M.over names.old }
{
    match side_tree(nodes, side) {
        Some(tree) => {
            free_part(nodes, names, frames, search, tree, steps);
            nodes.put(side, Form::Side { stage: Stage::Gone });
        }
        None => nodes.put(side, Form::Side { stage: Stage::Gone }),
    }
}

// The Side that didn't fire.
fn loser_of(left: Link, side: Link) -> Link
    ensures { result.number.0 ≡ loser left.number.0 side.number.0 }
{
    if left.number.0 == side.number.0 {
        Link {
            slot: left.slot,
            number: NodeId(left.number.0.saturating_add(1)),
        }
    } else {
        left
    }
}

// A Side has fired, and it is the first of its Race.
fn decide<N: Nodes>(nodes: &mut N, race: Link, left: Link, side: Link, tree: Link)
    ensures stands { (w : World)
        → N.stands nodes.old w → form_at side.number.0 w.nodes ≡ Some (Side (Waits tree.number.0))
        → form_at race.number.0 w.nodes ≡ Some (Race left.number.0 (next_number left.number.0) None)
        → N.stands nodes.new
        (race_decided race.number.0 left.number.0 side.number.0 tree.number.0 w) }
    ensures taken { OnlyFalls (N.is_taken nodes.old) (N.is_taken nodes.new) }
    ensures plain { OnlyRises (N.is_plain nodes.old) (N.is_plain nodes.new) }
    ensures next { N.next nodes.new ≡ N.next nodes.old }
    ensures slots { N.slots nodes.new ≡ N.slots nodes.old }
{
    let stage = Stage::Fired(tree);
    nodes.put(side, Form::Side { stage });
    let winner = Some(side.number);
    nodes.put(race, Form::Race { left, winner });
}

/// The first Side of a Race has fired: the other's tree is freed, and who listens to the Race is armed. A Side that fires
/// second does nothing.
pub fn win_race<N: Nodes, M: Names, S: Steps>(
    nodes: &mut N,
    names: &mut M,
    frames: &mut Vec<Frame>,
    search: &mut Vec<Parts>,
    race: Link,
    left: Link,
    side: Link,
    tree: Link,
    steps: &mut S,
)
    requires sound { IsSound (ground (N.is_taken nodes.old) (N.is_plain nodes.old)
        (N.next nodes.old) (N.slots nodes.old) (M.roots names.old) (M.count names.old)
        (M.limit names.old) (vec_capacity frames.old) (vec_capacity search.old)) }
    ensures does { Does (λ w. Both (N.stands nodes.old) (M.stands names.old) w
        × MayWin race.number.0 left.number.0 side.number.0 tree.number.0 w)
        (Both (N.stands nodes.new) (M.stands names.new)) (race_won race.number.0 left.number.0
        (next_number left.number.0) side.number.0 (loser left.number.0 side.number.0) tree.number.0)
        (λ s. s) (S.told steps.old) (S.told steps.new) }
    ensures lacks { S.lacks steps.new ≡ S.lacks steps.old }
    ensures kept { Keeps (ground (N.is_taken nodes.old) (N.is_plain nodes.old)
        (N.next nodes.old) (N.slots nodes.old) (M.roots names.old)
        (M.count names.old) (M.limit names.old) (vec_capacity frames.old) (vec_capacity search.old))
        (ground (N.is_taken nodes.new) (N.is_plain nodes.new) (N.next nodes.new) (N.slots nodes.new)
        (M.roots names.new) (M.count names.new) (M.limit names.new) (vec_capacity frames.new)
        (vec_capacity search.new)) }
    ensures over { M.over names.new ≡ M.over names.old }
{
    decide(nodes, race, left, side, tree);
    let other = loser_of(left, side);
    empty_side(nodes, names, frames, search, other, steps);
    announce(nodes, Way::DepthFirst, race);
}
