//! The steps of rounds on a loop.
ghost use Rattle.promise_commands.specs.Telling.{untold};

use kj_base::{Ending, Name, NoMemory, NodeId, Outcome, StepId};
use promise_commands::{Action, Command, Commands, Steps};

// The step that passes its input on.
pub(crate) const PASSES: StepId = StepId(1);

// The step that builds a promise with itself on top and ends with it, as long as it may.
pub(crate) const AGAIN: StepId = StepId(2);

// The name of a promise that is ready by itself or by its cell.
pub(crate) const LEAF: Name = Name(1);

// The name of a continuation.
pub(crate) const UPPER: Name = Name(2);

// Gives the actions of both steps, and sums up the words that they see.
#[derive(Drop)]
pub(crate) struct RoundSteps {
    // How often `AGAIN` still gives a promise.
    pub left: u32,
    pub runs: u64,
    pub sum: u64,
    pub frees: u64,
}

impl RoundSteps {
    pub fn new() -> RoundSteps {
        RoundSteps {
            left: 0,
            runs: 0,
            sum: 0,
            frees: 0,
        }
    }

    // A run, with what it sees.
    fn see(&mut self, input: &Outcome) {
        self.runs = self.runs.wrapping_add(1);
        if let Outcome::Value(words) = input {
            for word in words.as_slice() {
                self.sum = self.sum.wrapping_add(*word);
            }
        }
    }
}

fn passing() -> Action {
    Action {
        commands: Commands::new(),
        ending: Ending::Input,
    }
}

// A promise with `AGAIN` on top, in the place of the one whose step this is.
fn again() -> Action {
    let mut commands = Commands::new();
    commands.push(Command::Later { name: LEAF });
    commands.push(Command::Chain {
        name: UPPER,
        source: LEAF,
        value: Some(AGAIN),
        error: None,
    });
    Action {
        commands,
        ending: Ending::Promise(UPPER),
    }
}

impl Steps for RoundSteps {
    ghost told = { λ _. untold };

    // No run takes memory.
    ghost lacks = { λ _. 0 };

    fn run(&mut self, _node: NodeId, step: StepId, input: &Outcome) -> Result<Action, NoMemory> {
        self.see(input);
        if step == AGAIN && self.left > 0 {
            self.left -= 1;
            return Ok(again());
        }
        Ok(passing())
    }

    fn freed(&mut self, _node: NodeId) {
        self.frees = self.frees.wrapping_add(1);
    }
}
