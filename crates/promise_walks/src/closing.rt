//! What a node does with the outcome of the tree below it.
ghost use Rattle.std.specs.Prelude.{◌≡◌, Some, Ok, true, is_err};
ghost use Rattle.kj_base.specs.Commands.{step_of};
ghost use Rattle.kj_base.specs.Counts.{HasLacked};
ghost use Rattle.kj_model.specs.Value.{chosen, given_outcome, side_valued, step_passed, then_valued};
ghost use Rattle.promise_nodes.specs.Kept.{OnlyRises};
ghost use Rattle.promise_walks.specs.Values.{Gives, GivesRoot, gave, gave_given, given_of};

use crate::land::{Given, Land};
use crate::pending::Continuation;
use kj_base::{Exception, Form, Kind, Link, NoMemory, Outcome, Stage, StepId};
use promise_commands::Steps;

/// The code of the exception where a step that gives values gave a promise.
const PROMISE_GIVEN: u32 = 8;

// The step for a value, or the one for an exception.
fn chosen_step(value: Option<StepId>, error: Option<StepId>, outcome: &Outcome) -> Option<StepId>
    ensures { step_of result ≡ chosen (step_of value) (step_of error) outcome.now }
{
    match outcome {
        Outcome::Value(_) => value,
        Outcome::Broken(_) => error,
    }
}

// The step that was chosen runs; where there is none the outcome passes.
fn pass_step<L: Land, S: Steps>(
    land: &mut L,
    under_chain: bool,
    node: Link,
    step: Option<StepId>,
    input: Outcome,
    steps: &mut S,
) -> Result<Given, NoMemory>
    ensures gives { Gives (L.stands land.old) (L.stands land.new)
        L.rule (λ setting s. step_passed setting under_chain node.number.0 (step_of step) input s)
        gave_given (S.told steps.old) (S.told steps.new) result }
    ensures lacks { HasLacked (is_err result) (S.lacks steps.old) (S.lacks steps.new) }
    ensures root { GivesRoot (L.roots land.new) (L.is_taken land.new) (L.next land.new) result }
    ensures plain { OnlyRises (L.is_plain land.old) (L.is_plain land.new) }
    ensures slots { L.slots land.new ≡ L.slots land.old }
    ensures over { L.over land.new ≡ L.over land.old }
{
    match step {
        Some(step) => land.step(under_chain, node, step, input, steps),
        None => Ok(Given::Gave(input)),
    }
}

// The tree of a Then gave an outcome: it is freed, and only then the step runs.
pub(crate) fn close_then<L: Land, S: Steps>(
    land: &mut L,
    under_chain: bool,
    then: Continuation,
    outcome: Outcome,
    steps: &mut S,
) -> Result<Given, NoMemory>
    requires plain { L.is_plain land.old then.node.number.0 ≡ true }
    ensures gives { Gives (L.stands land.old) (L.stands land.new)
        L.rule (λ setting s. then_valued setting under_chain then.node.number.0 (step_of then.value)
        (step_of then.error) then.tree.number.0 (Some outcome) s) gave_given (S.told steps.old)
        (S.told steps.new) result }
    ensures lacks { HasLacked (is_err result) (S.lacks steps.old) (S.lacks steps.new) }
    ensures root { GivesRoot (L.roots land.new) (L.is_taken land.new) (L.next land.new) result }
    ensures plain { OnlyRises (L.is_plain land.old) (L.is_plain land.new) }
    ensures slots { L.slots land.new ≡ L.slots land.old }
    ensures over { L.over land.new ≡ L.over land.old }
{
    land.free_part(then.tree, steps);
    land.put_bare(
        then.node,
        Form::Then {
            value: then.value,
            error: then.error,
            tree: None,
        },
    );
    let step = chosen_step(then.value, then.error, &outcome);
    pass_step(land, under_chain, then.node, step, outcome, steps)
}

// The tree of a Side gave an outcome: it is freed.
pub(crate) fn close_side<L: Land, S: Steps>(
    land: &mut L,
    side: Link,
    tree: Link,
    outcome: Outcome,
    steps: &mut S,
) -> Outcome
    requires plain { L.is_plain land.old side.number.0 ≡ true }
    ensures same { result ≡ outcome }
    ensures gives { Gives (L.stands land.old) (L.stands land.new)
        L.rule (λ setting s. side_valued side.number.0 tree.number.0 (Some outcome) s) gave
        (S.told steps.old) (S.told steps.new) (Ok outcome) }
    ensures lacks { S.lacks steps.new ≡ S.lacks steps.old }
    ensures plain { OnlyRises (L.is_plain land.old) (L.is_plain land.new) }
    ensures slots { L.slots land.new ≡ L.slots land.old }
    ensures over { L.over land.new ≡ L.over land.old }
{
    land.free_part(tree, steps);
    land.put_bare(side, Form::Side { stage: Stage::Gone });
    outcome
}

// What a Then gives that isn't under a Chain.
pub(crate) fn outcome_of_given(given: Given) -> Outcome
    ensures { Some result ≡ given_outcome (Some (given_of given)) }
{
    match given {
        Given::Gave(outcome) => outcome,
        Given::Took(_) => Outcome::Broken(Exception {
            kind: Kind::Failed,
            code: PROMISE_GIVEN,
        }),
    }
}
