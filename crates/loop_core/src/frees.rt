//! Steps that keep what is freed.
ghost use Rattle.std.specs.Prelude.{◌≡◌, ◌<◌, ◌≤◌, ◌^◌, true, vec_capacity};

use kj_base::{NoMemory, NodeId, Outcome, StepId};
use promise_commands::{Action, Steps};

/// Keeps the numbers of the nodes that are freed, in order and in memory that it is given. It has no step.
#[derive(Drop)]
pub(crate) struct Frees {
    pub freed: Vec<NodeId>,
    /// There is memory for so many numbers.
    room: u32,
    /// Whether all that was freed is kept.
    whole: bool,
    /// How often a step was asked for.
    asked: u64,
    ghost spare: { room ≤ vec_capacity freed },
    ghost bounded: { room < 2 ^ 32 },
}

impl Frees {
    /// What is freed comes behind these numbers. There is memory for so many in all.
    pub(crate) fn new(freed: Vec<NodeId>, room: u32) -> Frees
        requires room { room ≤ vec_capacity freed }
        ensures freed { result.freed.items ≡ freed.items }
        ensures room { result.room ≡ room }
        ensures whole { result.whole ≡ true }
        ensures asked { result.asked ≡ 0 }
    {
        Frees {
            freed,
            room,
            whole: true,
            asked: 0,
        }
    }
}

impl Steps for Frees {
    ghost use Rattle.std.specs.Prelude.{◌+◌, ◌*◌};
    ghost use Rattle.loop_core.specs.Frees.{frees_told, numbers_of};

    ghost told = { λ f. frees_told f.whole f.room (numbers_of f.freed.items) };

    // The room stands in it, so that only a call that lacks memory may change it.
    ghost lacks = { λ f. f.asked * 2 ^ 32 + f.room };

    fn run(&mut self, _node: NodeId, _step: StepId, _input: &Outcome) -> Result<Action, NoMemory> {
        self.asked = self.asked.saturating_add(1);
        Err(NoMemory)
    }

    fn freed(&mut self, node: NodeId) {
        if self.freed.len() < self.room as usize {
            self.freed.push_reserved(node);
        } else {
            self.whole = false;
        }
    }
}
