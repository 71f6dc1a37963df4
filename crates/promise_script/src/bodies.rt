//! The action of a body, read from its text.
ghost use Rattle.std.specs.Prelude.{◌≡◌, [], IfOk};
ghost use Rattle.promise_commands.specs.Script.{passing_action};
ghost use Rattle.promise_script.specs.Left.{action_from, pushed, said_inside};
ghost use Rattle.promise_script.specs.ScriptText.{lines_of};

use crate::cuts::first_line;
use crate::lines::find_meaning;
use crate::meaning::Meaning;
use kj_base::{Ending, NoMemory};
use promise_commands::{Action, Command, Commands};
use std::alloc::Global;

/// What a line says inside a body.
#[derive(Drop)]
pub enum Inside {
    Nothing,
    Do(Command),
    Close(Ending),
}

// What a line says inside a body that means this.
fn said_inside(meaning: Option<Meaning>) -> Inside
    ensures { result ≡ said_inside meaning }
{
    match meaning {
        None => Inside::Nothing,
        Some(Meaning::Nothing) => Inside::Nothing,
        Some(Meaning::Limits(_)) => Inside::Nothing,
        Some(Meaning::Do(command)) => Inside::Do(command),
        Some(Meaning::Turn) => Inside::Nothing,
        Some(Meaning::Run(_)) => Inside::Nothing,
        Some(Meaning::Wait(_, _)) => Inside::Nothing,
        Some(Meaning::Step(_)) => Inside::Nothing,
        Some(Meaning::Close(ending)) => Inside::Close(ending),
    }
}

// One command more, where there is room.
fn push_command(commands: &mut Commands, command: Command)
    ensures { commands.new ≡ pushed commands.old command }
{
    let _fits = commands.push(command);
}

/// No commands, and the input.
pub fn passing() -> Action
    ensures { result ≡ passing_action }
{
    Action {
        commands: Commands::new(),
        ending: Ending::Input,
    }
}

/// The action of the body whose lines behind the first these octets begin with.
pub fn read_action(alloc: Global, octets: &[u8]) -> Result<Action, NoMemory>
    ensures { IfOk result (λ action. action ≡ action_from [] (lines_of octets.now)) }
{
    let mut commands = Commands::new();
    let mut rest = octets;
    let mut words = Vec::new(alloc);
    while !rest.is_empty() {
        let (text, behind) = first_line(rest);
        match said_inside(find_meaning(&mut words, text)?) {
            Inside::Nothing => {}
            Inside::Do(command) => push_command(&mut commands, command),
            Inside::Close(ending) => return Ok(Action { commands, ending }),
        }
        rest = behind;
    }
    Ok(passing())
}
