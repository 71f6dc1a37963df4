//! The actions of a server's steps.
ghost use Rattle.std.specs.Prelude.{◌≡◌, ◌≤◌, ◌<◌, ◌+◌, ◌++◌, ◌∷◌, []};
ghost use Rattle.std.specs.Prelude.{length, map, Some, None};
ghost use Rattle.promise_commands.specs.Commands.{command_of, action_of};
ghost use Rattle.promise_commands.specs.declared.action.TheConstants.{MAX_COMMANDS};
ghost use Rattle.kj_base.specs.Commands.{Now, Chain, All};
ghost use Rattle.http_steps.specs.Steps as steps;
ghost use Rattle.http_steps.specs.Actions as actions;
ghost use Rattle.http_steps.specs.declared.names.TheConstants.{LEAF, LAST, JOIN, MAX_CONNECTIONS};

use crate::names::{
    DRAIN_CELL, DRAIN_FORK, FIRST_CELL, JOIN, LAST, LEAF, MAX_CONNECTIONS, RACE, READABLE, TASKS,
};
use crate::server_step::{ANSWER, DRAIN, FAILED, READ, ServerStep, WRITE};
use http_stream::{ConnectionStep, Next};
use kj_base::{Ending, Exception, Kind, Name, StepId, Words};
use promise_commands::{Action, Command, Commands, Sources};

/// The code of the exception that ends an abandoned connection, which is of the kind DISCONNECTED.
pub const ABANDONED: u32 = 4;

/// The code of the exception of a step that finds no payload of its kind, which is FAILED.
pub const NO_PAYLOAD: u32 = 9;

// Puts a command at the end, where there is room.
fn put(commands: &mut Commands, command: Command)
    requires { length commands.old < MAX_COMMANDS }
    ensures commands { map command_of commands.new
        ≡ map command_of commands.old ++ command_of command ∷ [] }
    ensures length { length commands.new ≡ length commands.old + 1 }
{
    let _room = commands.push(command);
}

// The value of a connection's promises: its place.
fn place_words(place: u32) -> Words
    ensures { result ≡ place ∷ [] }
{
    let mut words = Words::new();
    let _room = words.push(place as u64);
    words
}

// A leaf that is ready with a connection's place.
fn leaf(place: u32) -> Command
    ensures { command_of result ≡ Now LEAF (place ∷ []) }
{
    Command::Now {
        name: Name(LEAF),
        value: place_words(place),
    }
}

// The number of a connection's step.
fn number_of(step: ConnectionStep) -> u32
    ensures { result ≡ steps.number_of step }
{
    match step {
        ConnectionStep::Read => READ,
        ConnectionStep::Answer => ANSWER,
        ConnectionStep::Write => WRITE,
    }
}

// A step over a promise, which may give another.
fn chain(source: u32, step: ConnectionStep) -> Command
    ensures { command_of result ≡ Chain LAST source (Some (steps.number_of step)) None }
{
    Command::Chain {
        name: Name(LAST),
        source: Name(source),
        value: Some(StepId(number_of(step))),
        error: None,
    }
}

// The leaf and what is waited for, joined.
fn join(ready: u32) -> Command
    ensures { command_of result ≡ All JOIN (LEAF ∷ ready ∷ []) }
{
    let mut parts = Sources::new();
    let _leaf = parts.push(Name(LEAF));
    let _ready = parts.push(Name(ready));
    Command::All {
        name: Name(JOIN),
        parts,
    }
}

fn put_go(commands: &mut Commands, place: u32, step: ConnectionStep)
    requires { length commands.old + 2 ≤ MAX_COMMANDS }
    ensures commands { map command_of commands.new
        ≡ map command_of commands.old ++ actions.go_commands place (steps.number_of step) }
    ensures length { length commands.new ≡ length commands.old + 2 }
{
    put(commands, leaf(place));
    put(commands, chain(LEAF, step));
}

// A step over the place beside what it waits for.
fn put_over(commands: &mut Commands, place: u32, ready: u32, step: ConnectionStep)
    requires { length commands.old + 3 ≤ MAX_COMMANDS }
    ensures { map command_of commands.new ≡ map command_of commands.old
        ++ actions.over_commands place ready (steps.number_of step) }
{
    put(commands, leaf(place));
    put(commands, join(ready));
    put(commands, chain(JOIN, step));
}

// The cell of a connection's stream.
fn cell_of(place: u32) -> Name
    requires { place < MAX_CONNECTIONS }
    ensures { result ≡ record { 0 = actions.cell_of place } }
{
    Name(FIRST_CELL + place)
}

fn put_wait(commands: &mut Commands, drained: bool, place: u32, step: ConnectionStep)
    requires room { length commands.old + 6 ≤ MAX_COMMANDS }
    requires place { place < MAX_CONNECTIONS }
    ensures { map command_of commands.new ≡ map command_of commands.old
        ++ actions.wait_commands drained place (steps.number_of step) }
{
    put(
        commands,
        Command::Pair {
            name: Name(READABLE),
            cell: cell_of(place),
        },
    );
    if drained {
        put_over(commands, place, READABLE, step);
        return;
    }
    put(
        commands,
        Command::Branch {
            name: Name(JOIN),
            hub: Name(DRAIN_FORK),
        },
    );
    put(
        commands,
        Command::Race {
            name: Name(RACE),
            left: Name(READABLE),
            right: Name(JOIN),
        },
    );
    put_over(commands, place, RACE, step);
}

// The commands of a connection's step; the cell of the wait before goes first.
fn connection_commands(waited: bool, drained: bool, place: u32, next: Next) -> Commands
    requires { place < MAX_CONNECTIONS }
    ensures { map command_of result
        ≡ actions.front_commands waited place ++ actions.next_commands drained place next }
{
    let mut commands = Commands::new();
    if waited {
        put(
            &mut commands,
            Command::DropCell {
                cell: cell_of(place),
            },
        );
    }
    match next {
        Next::Go(step) => put_go(&mut commands, place, step),
        Next::Wait(step) => put_wait(&mut commands, drained, place, step),
        Next::End => {}
        Next::Abandoned => {}
    }
    commands
}

// How a connection's step ends.
fn connection_ending(next: Next) -> Ending
    ensures { result ≡ actions.connection_ending next }
{
    match next {
        Next::Go(_) => Ending::Promise(Name(LAST)),
        Next::Wait(_) => Ending::Promise(Name(LAST)),
        Next::End => Ending::Value(Words::new()),
        Next::Abandoned => Ending::Throw(Exception {
            kind: Kind::Disconnected,
            code: ABANDONED,
        }),
    }
}

/// The action of a connection's step: whether it waited before, whether the drain began, its place,
/// and what follows.
pub(crate) fn connection_action(waited: bool, drained: bool, place: u32, next: Next) -> Action
    requires { place < MAX_CONNECTIONS }
    ensures { action_of result ≡ actions.connection_action waited drained place next }
{
    Action {
        commands: connection_commands(waited, drained, place, next),
        ending: connection_ending(next),
    }
}

// How a step ends that does nothing with a connection.
fn plain_ending(step: ServerStep) -> Ending
    ensures { result ≡ actions.plain_ending step }
{
    match step {
        ServerStep::Drain => Ending::Value(Words::new()),
        ServerStep::Connection(_) => Ending::Value(Words::new()),
        ServerStep::Failed => Ending::Value(Words::new()),
        ServerStep::Payload => Ending::Throw(Exception {
            kind: Kind::Failed,
            code: NO_PAYLOAD,
        }),
        ServerStep::Foreign => Ending::Input,
    }
}

/// The action of a step that does nothing with a connection.
pub(crate) fn plain_action(step: ServerStep) -> Action
    ensures { action_of result ≡ actions.plain_action step }
{
    Action {
        commands: Commands::new(),
        ending: plain_ending(step),
    }
}

// The drain's cell, and its fork.
fn put_drain(commands: &mut Commands)
    requires { length commands.old + 2 ≤ MAX_COMMANDS }
    ensures commands { map command_of commands.new
        ≡ map command_of commands.old ++ actions.drain_commands }
    ensures length { length commands.new ≡ length commands.old + 2 }
{
    put(
        commands,
        Command::Pair {
            name: Name(LEAF),
            cell: Name(DRAIN_CELL),
        },
    );
    put(
        commands,
        Command::Fork {
            hub: Name(DRAIN_FORK),
            source: Name(LEAF),
        },
    );
}

// The step over the drain, which the loop keeps.
fn put_drain_step(commands: &mut Commands)
    requires { length commands.old + 3 ≤ MAX_COMMANDS }
    ensures { map command_of commands.new
        ≡ map command_of commands.old ++ actions.drain_step_commands }
{
    put(
        commands,
        Command::Branch {
            name: Name(LEAF),
            hub: Name(DRAIN_FORK),
        },
    );
    put(
        commands,
        Command::Then {
            name: Name(LAST),
            source: Name(LEAF),
            value: Some(StepId(DRAIN)),
            error: None,
        },
    );
    put(commands, Command::Detach { source: Name(LAST) });
}

/// The commands that make the set of tasks, the drain's cell and fork, and the step over the drain.
pub(crate) fn first_commands() -> Commands
    ensures { map command_of result ≡ actions.first_commands }
{
    let mut commands = Commands::new();
    put(
        &mut commands,
        Command::NewSet {
            group: Name(TASKS),
            error: Some(StepId(FAILED)),
        },
    );
    put_drain(&mut commands);
    put_drain_step(&mut commands);
    commands
}

/// The commands that start the connection at a place, as a task of the set.
pub(crate) fn admit_commands(place: u32) -> Commands
    ensures { map command_of result ≡ actions.admit_commands place }
{
    let mut commands = Commands::new();
    put_go(&mut commands, place, ConnectionStep::Read);
    put(
        &mut commands,
        Command::Add {
            group: Name(TASKS),
            source: Name(LAST),
        },
    );
    commands
}
