//! The turns of a wait.
ghost use Rattle.std.specs.Prelude.{◌≡◌, ◌≤◌, [], false, length};
ghost use Rattle.kj_base.specs.Counts.{HasLacked};
ghost use Rattle.kj_model.specs.World.{State};
ghost use Rattle.kj_model.specs.Calls.{wait_more};
ghost use Rattle.loop_core.specs.Calls.{CallLacks};
ghost use Rattle.loop_core.specs.Waits.{Rested, Waits, lacked_at, left_of_wait};

use promise_commands::Steps;
use promise_eval::Evaluator;
use promise_names::Names;
use promise_nodes::Nodes;
use promise_turns::{TakenTurn, take_turn};

/// Why the turns of a wait ended.
#[derive(Clone, Copy, Debug, PartialEq, Eq)]
pub(crate) enum WaitEnd {
    /// The event of the wait fired.
    Ready,
    /// No event is armed.
    Idle,
    /// As many were made as there may be.
    AllMade,
    /// A step of the last one found no memory.
    NoMemory,
}

/// Turns until the event of the wait fires, so many at most. The promise was taken out of its name before, and the wait
/// listens to its tree.
pub(crate) fn wait_turns<N: Nodes + Drop, M: Names + Drop, S: Steps>(
    over: &mut Evaluator<N, M>,
    turns: u32,
    steps: &mut S,
) -> WaitEnd
    requires none_over { M.over over.old.names ≡ [] }
    ensures waits { CallLacks (lacked_at result)
        (Waits N.rule (N.stands over.old.nodes) (M.stands over.old.names))
        (Rested N.rule (N.stands over.new.nodes) (M.stands over.new.names)) N.rule
        (λ setting. wait_more setting turns) (λ setting. left_of_wait result setting)
        (S.told steps.old) (S.told steps.new) (S.lacks steps.old) (S.lacks steps.new) }
    ensures memory { (s : State)
        → Waits N.rule (N.stands over.old.nodes) (M.stands over.old.names) s
        → HasLacked (lacked_at result) (S.lacks steps.old) (S.lacks steps.new) }
    ensures none_over { lacked_at result ≡ false → M.over over.new.names ≡ [] }
    ensures over { length (M.over over.new.names) ≤ 1 }
{
    let mut left = turns;
    while left > 0 {
        match take_turn(over, steps) {
            TakenTurn::Fired(event) => {
                if event.number.0 == 0 {
                    return WaitEnd::Ready;
                }
                left -= 1;
            }
            TakenTurn::Idle => return WaitEnd::Idle,
            TakenTurn::NoMemory => return WaitEnd::NoMemory,
        }
    }
    WaitEnd::AllMade
}
