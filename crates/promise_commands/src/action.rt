//! What one run of a step does.
ghost use Rattle.std.specs.Prelude.{◌≡◌, ◌<◌, ◌≤◌, ◌↔◌, [], ◌∷◌, ◌++◌, length, IsTrue};

use crate::command::Command;
use arrayvec::ArrayVec;
use kj_base::Ending;
use std::marker::Model;

/// How many commands one run of a step may give.
pub const MAX_COMMANDS: usize = 16;

/// 0 to `MAX_COMMANDS` commands, applied in order.
#[derive(Drop)]
pub struct Commands {
    items: ArrayVec<Command, MAX_COMMANDS>,
}

impl Model for Commands {
    ghost use Rattle.std.specs.Prelude.{List, length, ◌≤◌};
    ghost use Rattle.promise_commands.specs.declared.command.Command.{Command};
    ghost use Rattle.promise_commands.specs.declared.action.TheConstants.{MAX_COMMANDS};

    ghost Value = { List Command };

    ghost view = { λ c. c.items.items };

    ghost invariant = { λ c. length c.items.items ≤ MAX_COMMANDS };
}

impl Commands {
    pub fn new() -> Self
        ensures { result ≡ [] }
    {
        Commands {
            items: ArrayVec::new(),
        }
    }

    /// Puts a command at the end; false where no more may be there.
    pub fn push(&mut self, command: Command) -> bool
        ensures answer { IsTrue result ↔ (length self.old < MAX_COMMANDS) }
        ensures pushed { length self.old < MAX_COMMANDS → self.new ≡ self.old ++ command ∷ [] }
        ensures full { MAX_COMMANDS ≤ length self.old → self.new ≡ self.old }
    {
        self.items.try_push(command).is_ok()
    }

    pub fn as_slice(&self) -> &[Command]
        ensures commands { result.now ≡ self.now }
        ensures few { length self.now ≤ MAX_COMMANDS }
    {
        self.items.as_slice()
    }

    /// The same commands; takes no memory.
    pub fn copy(&self) -> Commands
        ensures { result ≡ self.now }
    {
        let mut items = ArrayVec::new();
        let source = self.items.as_slice();
        for command in source {
            items.push(command.copy());
        }
        Commands { items }
    }
}

/// The commands of one run, and how it ends.
#[derive(Drop)]
pub struct Action {
    pub commands: Commands,
    pub ending: Ending,
}

impl Action {
    /// The same action; takes no memory.
    pub fn copy(&self) -> Action
        ensures { result ≡ self.now }
    {
        Action {
            commands: self.commands.copy(),
            ending: self.ending.copy(),
        }
    }
}
