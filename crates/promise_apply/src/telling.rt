//! Commands with the frees that they tell.
ghost use Rattle.std.specs.Prelude.{◌≡◌, ◌≤◌, ◌+◌, vec_capacity};
ghost use Rattle.promise_commands.specs.Commands.{command_of};
ghost use Rattle.promise_commands.specs.Refusals.{refusal_of};
ghost use Rattle.promise_nodes.specs.Kept.{OnlyRises};
ghost use Rattle.promise_names.specs.Held.{AreFree};
ghost use Rattle.promise_apply.specs.Building.{Both};
ghost use Rattle.promise_apply.specs.Applying.{DoesCommand};

use crate::applying::apply_silent;
use crate::clearing::apply_clear;
use crate::dropping::apply_drop;
use promise_commands::{Command, Refused, Steps};
use promise_names::Names;
use promise_nodes::Nodes;
use promise_walks::{Frame, Parts};

/// A command has its effect, or is refused; then all is as before. The steps are told each free, in order. Both stacks
/// have room for slots + 1, and may have anything in them.
pub fn apply<N: Nodes, M: Names, S: Steps>(
    nodes: &mut N,
    names: &mut M,
    frames: &mut Vec<Frame>,
    search: &mut Vec<Parts>,
    command: &Command,
    steps: &mut S,
) -> Result<(), Refused>
    requires free { AreFree (M.roots names.old) (N.is_taken nodes.old) (N.next nodes.old) }
    requires few { M.count names.old ≤ M.limit names.old }
    requires frames_room { N.slots nodes.old + 1 ≤ vec_capacity frames.old }
    requires search_room { N.slots nodes.old + 1 ≤ vec_capacity search.old }
    ensures applied { DoesCommand (Both (N.stands nodes.old) (M.stands names.old))
        (Both (N.stands nodes.new) (M.stands names.new)) N.rule (refusal_of result)
        (command_of command.now) (S.told steps.old) (S.told steps.new) }
    ensures lacks { S.lacks steps.new ≡ S.lacks steps.old }
    ensures free { AreFree (M.roots names.new) (N.is_taken nodes.new) (N.next nodes.new) }
    ensures few { M.count names.new ≤ M.limit names.new }
    ensures limit { M.limit names.new ≡ M.limit names.old }
    ensures slots { N.slots nodes.new ≡ N.slots nodes.old }
    ensures plain { OnlyRises (N.is_plain nodes.old) (N.is_plain nodes.new) }
    ensures over { M.over names.new ≡ M.over names.old }
    ensures frames_room { vec_capacity frames.old ≤ vec_capacity frames.new }
    ensures search_room { vec_capacity search.old ≤ vec_capacity search.new }
{
    match command {
        Command::Clear { group } => { apply_clear(nodes, names, frames, search, *group, steps) }
        Command::Drop { name } => { apply_drop(nodes, names, frames, search, *name, steps) }
        _ => apply_silent(nodes, names, command),
    }
}
