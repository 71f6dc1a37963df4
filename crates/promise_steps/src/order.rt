//! The bodies of a script, by their steps.
ghost use Rattle.std.specs.Prelude.{◌≡◌, ◌≤◌, ◌+◌, ℕ, [], ◌∷◌, true, false, Some, IfOk, map, take, drop, vec_len};
ghost use Rattle.std.specs.List.{AllByRecursion};
ghost use Rattle.kj_base.specs.declared.outcomes.Outcome.{Outcome};
ghost use Rattle.kj_base.specs.Record.{Run};
ghost use Rattle.kj_model.specs.Log.{scripted};
ghost use Rattle.promise_commands.specs.Scripts.{body_of};
ghost use Rattle.promise_steps.specs.Order.{InOrder, is_before, left_of, given_of, next_of, step_of, IsLeft};

use kj_base::{NoMemory, StepId};
use promise_script::Script;
use std::alloc::Global;

/// A body, by its place among the bodies of the script, and whether a run took it for good. The last body of a step is
/// never taken so, since all later runs give it.
#[derive(Clone, Copy)]
pub struct Entry {
    pub which: u32,
    pub taken: bool,
}

/// The bodies by rising steps, those of one step as they stand in the script.
pub(crate) fn order_of(alloc: Global, script: &Script) -> Result<Vec<Entry>, NoMemory>
    ensures in_order { IfOk result (λ order. InOrder script.now.bodies order.items) }
    ensures left { IfOk result (λ order.
        IsLeft (left_of script.now.bodies order.items) (map body_of script.now.bodies) []) }
{
    let count = script.body_count();
    let mut order = Vec::with_capacity(alloc, count as usize)?;
    for which in 0..count {
        order.push(Entry {
            which,
            taken: false,
        })?;
    }
    order.sort_by_key(
        |entry| -> u32
            ensures { result ≡ step_of script.entry.now.bodies entry.now }
        { script.step(entry.which).0 },
    )?;
    Ok(order)
}

// Where the next body of a step stands, if there is one.
fn place_of(script: &Script, order: &Vec<Entry>, step: StepId) -> usize
    requires { InOrder script.now.bodies order.now.items }
    ensures before { AllByRecursion (λ e. is_before script.now.bodies step.0 e ≡ true)
        (take result order.now.items) }
    ensures after { AllByRecursion (λ e. is_before script.now.bodies step.0 e ≡ false)
        (drop result order.now.items) }
    ensures within { result ≤ vec_len order.now }
{
    order.partition_point(
        |entry| -> bool
            ensures { result ≡ is_before script.entry.now.bodies step.0 entry.now }
        {
            let found = script.step(entry.which);
            found.0 < step.0 || (found.0 == step.0 && entry.taken)
        },
    )
}

// The body at a place, where it is one of the step.
fn body_at(script: &Script, order: &Vec<Entry>, place: usize, step: StepId) -> Option<u32>
    ensures { result ≡ next_of script.now.bodies step.0 (drop place order.now.items) }
{
    let entry = order.get(place)?;
    if script.step(entry.which).0 == step.0 {
        return Some(entry.which);
    }
    None
}

/// The body that the next run of a step gives; none where the step has no body. It is taken unless it is the last.
pub(crate) fn take_next(script: &Script, order: &mut Vec<Entry>, step: StepId) -> Option<u32>
    requires { InOrder script.now.bodies order.old.items }
    ensures in_order { InOrder script.now.bodies order.new.items }
    ensures gives { scripted (left_of script.now.bodies order.old.items) [] step.0
        ≡ Some (given_of script.now.bodies result) }
    ensures left { (n : ℕ) (input : Outcome)
        → IsLeft (left_of script.now.bodies order.new.items)
        (left_of script.now.bodies order.old.items)
        (Run n step.0 input (given_of script.now.bodies result) ∷ []) }
{
    let place = place_of(script, order, step);
    let body = match body_at(script, order, place, step) {
        Some(body) => body,
        None => return None,
    };
    if body_at(script, order, place + 1, step).is_none() {
        return Some(body);
    }
    order[place].taken = true;
    Some(body)
}
