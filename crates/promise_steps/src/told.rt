//! What steps tell.
ghost use Rattle.std.specs.Prelude.{◌≡◌, [], ◌∷◌, ◌++◌, List, OnOk};
ghost use Rattle.promise_commands.specs.Script.{Body};
ghost use Rattle.kj_model.specs.Text.{item_text};
ghost use Rattle.promise_steps.specs.Items.{item_of};

use crate::print::{print_free, print_run};
use kj_base::{Bytes, NoMemory, NodeId, Outcome, StepId};

/// A run with its input and the body that it gave, by its place among those of the script, if the step has one; or a free.
#[derive(Drop)]
pub enum Told {
    Ran {
        node: NodeId,
        step: StepId,
        input: Outcome,
        which: Option<u32>,
    },
    Freed(NodeId),
}

/// The line of a run or a free, with its end. An `Err` may leave a part of it.
pub(crate) fn print_told(text: &mut Bytes, told: &Told) -> Result<(), NoMemory>
    ensures { OnOk result ((bodies : List Body)
        → text.new ≡ text.old ++ item_text (item_of bodies told.now) ++ 10 ∷ []) }
{
    match told {
        Told::Ran {
            node,
            step,
            input,
            ..
        } => print_run(text, *node, *step, input),
        Told::Freed(node) => print_free(text, *node),
    }
}
