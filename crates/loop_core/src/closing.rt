//! The closing.
ghost use Rattle.std.specs.Prelude.{◌≡◌, ◌≤◌, [], length, map, vec_capacity};
ghost use Rattle.kj_base.specs.Record.{Free};
ghost use Rattle.kj_model.specs.Calls.{close};
ghost use Rattle.kj_model.specs.World.{State};
ghost use Rattle.promise_commands.specs.Telling.{Hears};
ghost use Rattle.promise_walks.specs.Walks.{Both, Does};
ghost use Rattle.loop_core.specs.Loops.{StandsAt};
ghost use Rattle.loop_core.specs.Calls.{Closes, IsClosed};
ghost use Rattle.loop_core.specs.Frees.{numbers_of};

use crate::frees::Frees;
use kj_base::NodeId;
use promise_commands::Steps;
use promise_eval::{Evaluator, Ground};
use promise_firing::close_all;
use promise_names::Names;
use promise_nodes::Nodes;

// All that is held on this ground goes.
fn close_on<N: Nodes + Drop, M: Names + Drop, S: Steps>(ground: &mut Ground<N, M>, steps: &mut S)
    requires few_over { length (M.over ground.old.names) ≤ 2 }
    ensures does { Does (Both (N.stands ground.old.nodes) (M.stands ground.old.names))
        (Both (N.stands ground.new.nodes) (M.stands ground.new.names)) close (λ s. s)
        (S.told steps.old) (S.told steps.new) }
    ensures lacks { S.lacks steps.new ≡ S.lacks steps.old }
{
    let keepers = &mut ground.keepers;
    close_all(
        &mut keepers.nodes,
        &mut keepers.names,
        &mut keepers.frames,
        &mut keepers.search,
        steps,
    );
}

// All that is held on this ground goes, and the numbers that this frees come into an empty list that has room for them.
fn close_into<N: Nodes + Drop, M: Names + Drop>(
    ground: Ground<N, M>,
    freed: Vec<NodeId>,
) -> Vec<NodeId>
    requires few_over { length (M.over ground.names) ≤ 2 }
    requires empty { freed.items ≡ [] }
    requires room { N.slots ground.nodes ≤ vec_capacity freed }
    ensures closed { (s : State)
        → StandsAt N.rule (N.stands ground.nodes) (M.stands ground.names) s
        → IsClosed s (numbers_of result.items) }
{
    let mut ground = ground;
    let mut frees = Frees::new(freed, ground.nodes().slots());
    close_on(&mut ground, &mut frees);
    frees.freed
}

// Tells steps of frees, in order.
fn tell_frees<S: Steps>(freed: &[NodeId], steps: &mut S)
    ensures told { Hears (S.told steps.old) (map Free (numbers_of freed.now)) (S.told steps.new) }
    ensures lacks { S.lacks steps.new ≡ S.lacks steps.old }
{
    for node in freed {
        steps.freed(*node);
    }
}

/// All that a loop holds goes, and then the steps are told each free, in order; the numbers that were freed.
pub(crate) fn close_over<N: Nodes + Drop, M: Names + Drop, S: Steps>(
    over: Evaluator<N, M>,
    steps: &mut S,
) -> Vec<NodeId>
    requires few_over { length (M.over over.names) ≤ 2 }
    ensures closes { Closes (StandsAt N.rule (N.stands over.nodes) (M.stands over.names))
        (numbers_of result.items) (S.told steps.old) (S.told steps.new) }
    ensures lacks { S.lacks steps.new ≡ S.lacks steps.old }
{
    let (ground, room) = over.into_parts();
    let freed = close_into(ground, room);
    tell_frees(&freed, steps);
    freed
}
