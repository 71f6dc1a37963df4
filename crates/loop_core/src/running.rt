//! Turns.
ghost use Rattle.std.specs.Prelude.{◌≤◌, length, max};
ghost use Rattle.kj_base.specs.Counts.{HasLacked};
ghost use Rattle.kj_model.specs.World.{State};
ghost use Rattle.kj_model.specs.Calls.{run, turn};
ghost use Rattle.promise_turns.specs.Turns.{lacked_memory, turned_as};
ghost use Rattle.loop_core.specs.Loops.{StandsAt};
ghost use Rattle.loop_core.specs.Calls.{CallIs};

use promise_commands::Steps;
use promise_eval::Evaluator;
use promise_names::Names;
use promise_nodes::Nodes;
use promise_turns::{Turned, turn};

/// One turn.
pub(crate) fn turn_over<N: Nodes + Drop, M: Names + Drop, S: Steps>(
    over: &mut Evaluator<N, M>,
    steps: &mut S,
) -> Turned
    ensures turns { CallIs
        (StandsAt N.rule (N.stands over.old.nodes) (M.stands over.old.names))
        (StandsAt N.rule (N.stands over.new.nodes) (M.stands over.new.names)) N.rule
        turn (λ setting. turned_as result)
        (S.told steps.old) (S.told steps.new) (S.lacks steps.old) (S.lacks steps.new) }
    ensures memory { (s : State)
        → StandsAt N.rule (N.stands over.old.nodes) (M.stands over.old.names) s
        → HasLacked (lacked_memory result) (S.lacks steps.old) (S.lacks steps.new) }
    ensures over { length (M.over over.new.names) ≤ max 1 (length (M.over over.old.names)) }
{
    turn(over, steps)
}

/// So many turns, or until one doesn't fire.
pub(crate) fn run_over<N: Nodes + Drop, M: Names + Drop, S: Steps>(
    over: &mut Evaluator<N, M>,
    turns: u32,
    steps: &mut S,
) -> Turned
    ensures turns { CallIs
        (StandsAt N.rule (N.stands over.old.nodes) (M.stands over.old.names))
        (StandsAt N.rule (N.stands over.new.nodes) (M.stands over.new.names)) N.rule
        (λ setting. run setting turns) (λ setting. turned_as result)
        (S.told steps.old) (S.told steps.new) (S.lacks steps.old) (S.lacks steps.new) }
    ensures memory { (s : State)
        → StandsAt N.rule (N.stands over.old.nodes) (M.stands over.old.names) s
        → HasLacked (lacked_memory result) (S.lacks steps.old) (S.lacks steps.new) }
    ensures over { length (M.over over.new.names) ≤ max 1 (length (M.over over.old.names)) }
{
    let mut left = turns;
    while left > 0 {
        match turn(over, steps) {
            Turned::Fired => left -= 1,
            other => return other,
        }
    }
    Turned::Fired
}
