//! Commands.
ghost use Rattle.std.specs.Prelude.{◌≡◌, false};
ghost use Rattle.kj_model.specs.Apply.{apply};
ghost use Rattle.promise_commands.specs.Commands.{command_of};
ghost use Rattle.promise_commands.specs.Refusals.{refusal_of};
ghost use Rattle.loop_core.specs.Loops.{StandsAt};
ghost use Rattle.loop_core.specs.Calls.{CallIs};

use promise_commands::{Command, Refused, Steps};
use promise_eval::{Evaluator, Ground};
use promise_names::Names;
use promise_nodes::Nodes;

// A command of the host, outside all steps, by the evaluator's ground.
fn apply_on<N: Nodes + Drop, M: Names + Drop, S: Steps>(
    ground: &mut Ground<N, M>,
    command: &Command,
    steps: &mut S,
) -> Result<(), Refused>
    ensures applied { CallIs
        (StandsAt N.rule (N.stands ground.old.nodes) (M.stands ground.old.names))
        (StandsAt N.rule (N.stands ground.new.nodes) (M.stands ground.new.names)) N.rule
        (λ setting s. apply setting false (command_of command.now) s)
        (λ setting s. (s, refusal_of result))
        (S.told steps.old) (S.told steps.new) (S.lacks steps.old) (S.lacks steps.new) }
    ensures slots { N.slots ground.new.nodes ≡ N.slots ground.old.nodes }
    ensures over { M.over ground.new.names ≡ M.over ground.old.names }
{
    ground.apply(command, steps)
}

/// A command of the host, outside all steps.
pub(crate) fn apply_over<N: Nodes + Drop, M: Names + Drop, S: Steps>(
    over: &mut Evaluator<N, M>,
    command: &Command,
    steps: &mut S,
) -> Result<(), Refused>
    ensures applied { CallIs
        (StandsAt N.rule (N.stands over.old.nodes) (M.stands over.old.names))
        (StandsAt N.rule (N.stands over.new.nodes) (M.stands over.new.names)) N.rule
        (λ setting s. apply setting false (command_of command.now) s)
        (λ setting s. (s, refusal_of result))
        (S.told steps.old) (S.told steps.new) (S.lacks steps.old) (S.lacks steps.new) }
    ensures over { M.over over.new.names ≡ M.over over.old.names }
{
    apply_on(&mut over.ground, command, steps)
}
