//! Steps for tests.
ghost use Rattle.std.specs.Prelude.{◌≡◌};
ghost use Rattle.promise_commands.specs.Telling.{untold};

use kj_base::{Ending, Exception, Kind, Name, NoMemory, NodeId, Outcome, StepId, Words};
use promise_commands::{Action, Command, Commands, Refused, Steps};
use promise_turns::Turned;
use std::alloc::Global;

/// What was told, and what calls answered.
#[derive(Clone, Copy, Debug, PartialEq, Eq)]
pub enum Told {
    Ran(NodeId, StepId),
    Freed(NodeId),
    /// The answer of a command, or of a wait, that was refused.
    Refused(Refused),
    /// The answer of a turn, or of a wait that ended as a turn does.
    Turned(Turned),
    /// A wait had no more turns.
    OutOfTurns,
    /// An outcome's first word.
    Gave(Option<u64>),
    /// The code of an outcome's exception.
    Threw(u32),
    /// The promise that a step gave.
    Took(NodeId),
    /// One of the numbers that a closing answers.
    Answered(NodeId),
}

/// The step that gives the word 7.
pub const GIVES_SEVEN: StepId = StepId(1);
/// The step that throws code 2,000.
pub const THROWS: StepId = StepId(2);
/// The step that builds a promise of name 50 and gives it.
pub const GIVES_PROMISE: StepId = StepId(3);
/// The step whose second command is refused, and whose third would build a promise of name 61.
pub const IS_REFUSED: StepId = StepId(4);
/// The step that finds no memory.
pub const LACKS: StepId = StepId(5);
/// The step that builds nothing and gives the promise of name 50, where it is there.
pub const GIVES_FOUND: StepId = StepId(6);
/// The step that gives its input, and does no more.
pub const NOTES: StepId = StepId(101);
/// The step that clears the set of the tests.
pub const CLEARS_SET: StepId = StepId(102);
/// The step that drops that set.
pub const DROPS_SET: StepId = StepId(103);

/// The set of the tests.
pub const SET: Name = Name(30);

/// Tells what ran and what was freed. Steps but those above pass their input on.
#[derive(Drop)]
pub struct Teller {
    pub told: Vec<Told>,
    pub lacks: u64,
}

impl Teller {
    /// With room for so many items; it keeps no more.
    pub fn new(alloc: Global, room: usize) -> Result<Teller, NoMemory> {
        Ok(Teller {
            told: Vec::with_capacity(alloc, room)?,
            lacks: 0,
        })
    }

    /// One item more, where there is room.
    pub fn tell(&mut self, told: Told)
        ensures lacks { self.new.lacks ≡ self.old.lacks }
    {
        let _ = self.told.push(told);
    }

    /// What an evaluation gave.
    pub fn tell_outcome(&mut self, outcome: &Outcome) {
        match outcome {
            Outcome::Value(words) => {
                let first = words.as_slice().first().copied();
                self.tell(Told::Gave(first));
            }
            Outcome::Broken(exception) => self.tell(Told::Threw(exception.code)),
        }
    }
}

fn later(name: u32) -> Command {
    Command::Later { name: Name(name) }
}

fn commands_of(step: StepId) -> Commands {
    let mut commands = Commands::new();
    if step == GIVES_PROMISE {
        commands.push(later(50));
    }
    if step == IS_REFUSED {
        commands.push(later(60));
        commands.push(later(60));
        commands.push(later(61));
    }
    if step == CLEARS_SET {
        commands.push(Command::Clear { group: SET });
    }
    if step == DROPS_SET {
        commands.push(Command::Drop { name: SET });
    }
    commands
}

fn ending_of(step: StepId) -> Ending {
    if step == GIVES_SEVEN {
        let mut words = Words::new();
        words.push(7);
        return Ending::Value(words);
    }
    if step == THROWS {
        return Ending::Throw(Exception {
            kind: Kind::Overloaded,
            code: 2000,
        });
    }
    if step == GIVES_PROMISE || step == GIVES_FOUND {
        return Ending::Promise(Name(50));
    }
    Ending::Input
}

impl Steps for Teller {
    ghost told = { λ _. untold };

    ghost lacks = { λ s. s.lacks };

    fn run(&mut self, node: NodeId, step: StepId, _input: &Outcome) -> Result<Action, NoMemory> {
        if step == LACKS {
            self.lacks = self.lacks.saturating_add(1);
            return Err(NoMemory);
        }
        self.tell(Told::Ran(node, step));
        Ok(Action {
            commands: commands_of(step),
            ending: ending_of(step),
        })
    }

    fn freed(&mut self, node: NodeId) {
        self.tell(Told::Freed(node));
    }
}
