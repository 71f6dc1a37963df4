//! What a run of a step does.
ghost use Rattle.std.specs.Prelude.{◌≡◌, ◌≤◌, ◌+◌, Ok, is_err, vec_capacity};
ghost use Rattle.kj_base.specs.Counts.{HasLacked};
ghost use Rattle.kj_model.specs.Value.{acted, all_applied, run_step};
ghost use Rattle.promise_commands.specs.Commands.{action_of};
ghost use Rattle.promise_nodes.specs.Kept.{OnlyRises};
ghost use Rattle.promise_names.specs.Held.{AreFree};
ghost use Rattle.promise_walks.specs.Walks.{Both};
ghost use Rattle.promise_walks.specs.Values.{Gives, GivesRoot, given_of, gave_given};
ghost use Rattle.promise_eval.specs.Done.{Did, commands_of};

use crate::ending::{end, refused};
use kj_base::{Link, NoMemory, Outcome, StepId};
use promise_apply::apply;
use promise_commands::{Action, Command, Steps};
use promise_names::Names;
use promise_nodes::Nodes;
use promise_walks::{Frame, Given, Parts};

// Commands in order, until the first is refused; whether none was.
fn apply_all<N: Nodes, M: Names, S: Steps>(
    nodes: &mut N,
    names: &mut M,
    frames: &mut Vec<Frame>,
    search: &mut Vec<Parts>,
    commands: &[Command],
    steps: &mut S,
) -> bool
    requires free { AreFree (M.roots names.old) (N.is_taken nodes.old) (N.next nodes.old) }
    requires few { M.count names.old ≤ M.limit names.old }
    requires frames_room { N.slots nodes.old + 1 ≤ vec_capacity frames.old }
    requires room { N.slots nodes.old + 1 ≤ vec_capacity search.old }
    ensures applied { Did (Both (N.stands nodes.old) (M.stands names.old))
        (Both (N.stands nodes.new) (M.stands names.new)) N.rule
        (λ setting s. all_applied setting (commands_of commands.now) s) (λ setting s. (s, result))
        (S.told steps.old) (S.told steps.new) }
    ensures lacks { S.lacks steps.new ≡ S.lacks steps.old }
    ensures free { AreFree (M.roots names.new) (N.is_taken nodes.new) (N.next nodes.new) }
    ensures few { M.count names.new ≤ M.limit names.new }
    ensures slots { N.slots nodes.new ≡ N.slots nodes.old }
    ensures plain { OnlyRises (N.is_plain nodes.old) (N.is_plain nodes.new) }
    ensures over { M.over names.new ≡ M.over names.old }
    ensures frames_room { vec_capacity frames.old ≤ vec_capacity frames.new }
    ensures room { vec_capacity search.old ≤ vec_capacity search.new }
{
    for i in 0..commands.len() {
        if apply(nodes, names, frames, search, &commands[i], steps).is_err() {
            return false;
        }
    }
    true
}

// The commands of an action, and then its ending; the first refusal decides in its place.
fn act<N: Nodes, M: Names, S: Steps>(
    nodes: &mut N,
    names: &mut M,
    frames: &mut Vec<Frame>,
    search: &mut Vec<Parts>,
    under_chain: bool,
    action: Action,
    input: Outcome,
    steps: &mut S,
) -> Given
    requires free { AreFree (M.roots names.old) (N.is_taken nodes.old) (N.next nodes.old) }
    requires few { M.count names.old ≤ M.limit names.old }
    requires frames_room { N.slots nodes.old + 1 ≤ vec_capacity frames.old }
    requires room { N.slots nodes.old + 1 ≤ vec_capacity search.old }
    ensures acted { Did (Both (N.stands nodes.old) (M.stands names.old))
        (Both (N.stands nodes.new) (M.stands names.new)) N.rule
        (λ setting s. acted setting (action_of action) under_chain input s)
        (λ setting s. (s, given_of result)) (S.told steps.old) (S.told steps.new) }
    ensures lacks { S.lacks steps.new ≡ S.lacks steps.old }
    ensures root { GivesRoot (M.roots names.new) (N.is_taken nodes.new) (N.next nodes.new)
        (Ok result) }
    ensures free { AreFree (M.roots names.new) (N.is_taken nodes.new) (N.next nodes.new) }
    ensures few { M.count names.new ≤ M.limit names.new }
    ensures slots { N.slots nodes.new ≡ N.slots nodes.old }
    ensures plain { OnlyRises (N.is_plain nodes.old) (N.is_plain nodes.new) }
    ensures over { M.over names.new ≡ M.over names.old }
    ensures frames_room { vec_capacity frames.old ≤ vec_capacity frames.new }
    ensures room { vec_capacity search.old ≤ vec_capacity search.new }
{
    let commands = action.commands.as_slice();
    if !apply_all(nodes, names, frames, search, commands, steps) {
        return refused();
    }
    end(nodes, names, search, under_chain, action.ending, input)
}

/// A step runs under a node, which may be directly below a Chain: its commands are carried out inside, and then its
/// ending. A step that finds no memory stops the loop. Both stacks have room for slots + 1, and may have anything in
/// them.
pub fn run_step<N: Nodes, M: Names, S: Steps>(
    nodes: &mut N,
    names: &mut M,
    frames: &mut Vec<Frame>,
    search: &mut Vec<Parts>,
    under_chain: bool,
    node: Link,
    step: StepId,
    input: Outcome,
    steps: &mut S,
) -> Result<Given, NoMemory>
    requires free { AreFree (M.roots names.old) (N.is_taken nodes.old) (N.next nodes.old) }
    requires few { M.count names.old ≤ M.limit names.old }
    requires frames_room { N.slots nodes.old + 1 ≤ vec_capacity frames.old }
    requires room { N.slots nodes.old + 1 ≤ vec_capacity search.old }
    ensures gives { Gives (Both (N.stands nodes.old) (M.stands names.old))
        (Both (N.stands nodes.new) (M.stands names.new)) N.rule
        (λ setting s. run_step setting under_chain node.number.0 step.0 input s) gave_given
        (S.told steps.old) (S.told steps.new) result }
    ensures lacks { HasLacked (is_err result) (S.lacks steps.old) (S.lacks steps.new) }
    ensures root { GivesRoot (M.roots names.new) (N.is_taken nodes.new) (N.next nodes.new) result }
    ensures free { AreFree (M.roots names.new) (N.is_taken nodes.new) (N.next nodes.new) }
    ensures few { M.count names.new ≤ M.limit names.new }
    ensures slots { N.slots nodes.new ≡ N.slots nodes.old }
    ensures plain { OnlyRises (N.is_plain nodes.old) (N.is_plain nodes.new) }
    ensures over { M.over names.new ≡ M.over names.old }
    ensures frames_room { vec_capacity frames.old ≤ vec_capacity frames.new }
    ensures room { vec_capacity search.old ≤ vec_capacity search.new }
{
    match steps.run(node.number, step, &input) {
        Ok(action) => {
            let given = act(
                nodes,
                names,
                frames,
                search,
                under_chain,
                action,
                input,
                steps,
            );
            Ok(given)
        }
        Err(none) => {
            names.stop();
            Err(none)
        }
    }
}
