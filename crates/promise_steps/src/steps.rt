//! The steps of a script.
ghost use Rattle.std.specs.Prelude.{◌≡◌, [], map, IfOk, OnOk};
ghost use Rattle.promise_commands.specs.Scripts.{body_of};
ghost use Rattle.promise_steps.specs.Following.{Follows, Prints};
ghost use Rattle.promise_steps.specs.Kept.{told_by};

use crate::kept::{Kept, begin, drain_into, freed, pass, read_body, tell_run};
use kj_base::{Bytes, NoMemory, NodeId, Outcome, StepId};
use promise_commands::{Action, Steps};
use promise_script::Script;
use std::alloc::Global;
use std::marker::Model;

/// The steps of a script. Each run gives a body of its step, read from the text of the script: the first run the first,
/// and runs after the last body the last. A step without a body gives no commands and its input. What was told is kept
/// until it is printed.
#[derive(Drop)]
pub struct ScriptSteps<'a> {
    kept: Kept<'a>,
}

impl<'a> Model for ScriptSteps<'a> {
    ghost use Rattle.promise_steps.specs.declared.kept.Kept.{Kept};

    ghost Value = { Kept };

    ghost use Rattle.promise_steps.specs.Kept.{IsKept};

    ghost view = { λ s. s.kept };

    ghost invariant = { λ s. IsKept s.kept };
}

impl<'a> ScriptSteps<'a> {
    /// Steps with the bodies of this script, none of which ran.
    pub fn new(alloc: Global, script: &'a Script<'a>) -> Result<ScriptSteps<'a>, NoMemory>
        ensures { IfOk result
            (λ steps. Follows (map body_of script.now.bodies) [] (told_by steps)) }
    {
        let kept = begin(alloc, script)?;
        Ok(ScriptSteps { kept })
    }

    /// Appends the lines of what was told, which is then forgotten. An `Err` may leave a part of the lines.
    pub fn drain_into(&mut self, text: &mut Bytes) -> Result<(), NoMemory>
        ensures { OnOk result (Prints (told_by self.old) (told_by self.new) text.old text.new) }
    {
        drain_into(&mut self.kept, text)
    }
}

impl<'a> Steps for ScriptSteps<'a> {
    ghost use Rattle.promise_steps.specs.Kept.{told_by};

    ghost told = { λ s. told_by s };

    // No run finds a lack of memory: where there is none to tell of it or to read its body, the steps fall silent.
    ghost lacks = { λ _. 0 };

    // No function of its own stands between this and what it calls, since each would copy the action.
    #[inline(never)]
    fn run(&mut self, node: NodeId, step: StepId, input: &Outcome) -> Result<Action, NoMemory> {
        let Some(which) = tell_run(&mut self.kept, node, step, input) else {
            return pass();
        };
        read_body(&mut self.kept, which)
    }

    fn freed(&mut self, node: NodeId) {
        freed(&mut self.kept, node);
    }
}
