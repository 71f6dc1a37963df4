//! Evaluating a tree, by a stack.
ghost use Rattle.std.specs.Prelude.{◌≡◌, ◌<◌, ◌≤◌, ◌+◌, ◌-◌, ◌++◌, [], ◌∷◌, Some, Ok, IfOk, length, is_err, vec_len, vec_capacity};
ghost use Rattle.kj_base.specs.Counts.{HasLacked};
ghost use Rattle.kj_model.specs.World.{State, Setting};
ghost use Rattle.kj_model.specs.Value.{value, value_side, value_to};
ghost use Rattle.promise_nodes.specs.Kept.{OnlyRises};
ghost use Rattle.promise_walks.specs.Values.{Gives, gave};
ghost use Rattle.promise_walks.specs.Climbs.{ArePlain, climb, is_at, weigh, weigh_at, cost};

use crate::closing::{close_side, close_then, outcome_of_given};
use crate::joining::{go_through, join_kept};
use crate::land::Land;
use crate::looks::{Look, SideLook, hub_outcome, look_at, look_side, void};
use crate::pending::{At, Continuation, Pending};
use crate::pushing::{is_deep, put_last};
use crate::sums::{no_sum, plus};
use kj_base::{Link, NoMemory, Outcome};
use promise_commands::Steps;

// The Side that won a race: its outcome, or its tree is evaluated first.
fn enter_winner<L: Land>(land: &L, stack: &mut Vec<Pending>, side: Link) -> At
    requires plain { ArePlain (L.is_plain land.now) stack.old.items }
    requires bound { vec_len stack.old < L.slots land.now + 1 }
    requires room { L.slots land.now + 1 ≤ vec_capacity stack.old }
    ensures same { (setting : Setting) (s : State)
        → L.stands land.now s.world → climb setting (L.slots land.now + 1) stack.old.items
        (value_side (value_to setting (L.slots land.now - length stack.old.items)) side.number.0 s)
        ≡ is_at setting (L.slots land.now + 1) stack.new.items result s }
    ensures weight { weigh (L.slots land.now + 1) stack.new.items
        + weigh_at (L.slots land.now + 1 - length stack.new.items) result
        < weigh (L.slots land.now + 1) stack.old.items
        + cost (L.slots land.now + 1 - length stack.old.items) }
    ensures plain { ArePlain (L.is_plain land.now) stack.new.items }
    ensures bound { vec_len stack.new ≤ L.slots land.now + 1 }
    ensures room { vec_capacity stack.old ≤ vec_capacity stack.new }
{
    match look_side(land, side) {
        SideLook::Known(outcome) => At::Up(outcome),
        SideLook::Fired(tree) => {
            put_last(stack, Pending::Won { side, tree });
            At::Down(tree)
        }
    }
}

// A node is looked at: its outcome is known, or something below it is evaluated first.
fn enter<L: Land>(land: &L, stack: &mut Vec<Pending>, node: Link) -> At
    requires plain { ArePlain (L.is_plain land.now) stack.old.items }
    requires bound { vec_len stack.old ≤ L.slots land.now + 1 }
    requires room { L.slots land.now + 1 ≤ vec_capacity stack.old }
    ensures same { (setting : Setting) (s : State)
        → L.stands land.now s.world → climb setting (L.slots land.now + 1) stack.old.items
        (value_to setting (L.slots land.now + 1 - length stack.old.items) node.number.0 s)
        ≡ is_at setting (L.slots land.now + 1) stack.new.items result s }
    ensures weight { weigh (L.slots land.now + 1) stack.new.items
        + weigh_at (L.slots land.now + 1 - length stack.new.items) result
        < weigh (L.slots land.now + 1) stack.old.items
        + cost (L.slots land.now + 1 - length stack.old.items) }
    ensures plain { ArePlain (L.is_plain land.now) stack.new.items }
    ensures bound { vec_len stack.new ≤ L.slots land.now + 1 }
    ensures room { vec_capacity stack.old ≤ vec_capacity stack.new }
{
    if is_deep(land.slots(), stack.len()) {
        return At::Up(void());
    }
    match look_at(land, node) {
        Look::Known(outcome) => At::Up(outcome),
        Look::Branch(hub) => At::Up(hub_outcome(land, hub)),
        Look::Then { value, error, tree } => {
            put_last(
                stack,
                Pending::Then(Continuation {
                    node,
                    value,
                    error,
                    tree,
                }),
            );
            At::Down(tree)
        }
        Look::Winner(side) => enter_winner(land, stack, side),
        Look::Kept(sides) => At::Up(join_kept(land, sides)),
        Look::Sides(sides) => go_through(land, stack, no_sum(), sides),
    }
}

// A node goes on with the outcome of its tree.
fn close<L: Land, S: Steps>(
    land: &mut L,
    stack: &mut Vec<Pending>,
    pending: Pending,
    outcome: Outcome,
    steps: &mut S,
) -> Result<At, NoMemory>
    requires plain { ArePlain (L.is_plain land.old) (stack.old.items ++ pending ∷ []) }
    requires bound { vec_len stack.old < L.slots land.old + 1 }
    requires room { L.slots land.old + 1 ≤ vec_capacity stack.old }
    ensures gives { Gives (L.stands land.old) (L.stands land.new) L.rule (λ setting s. climb setting
        (L.slots land.old + 1) (stack.old.items ++ pending ∷ []) (s, Some outcome))
        (λ at setting s. is_at setting (L.slots land.old + 1) stack.new.items at s)
        (S.told steps.old) (S.told steps.new) result }
    ensures lacks { HasLacked (is_err result) (S.lacks steps.old) (S.lacks steps.new) }
    ensures weight { IfOk result (λ at. weigh (L.slots land.old + 1) stack.new.items
        + weigh_at (L.slots land.old + 1 - length stack.new.items) at
        < weigh (L.slots land.old + 1) (stack.old.items ++ pending ∷ [])) }
    ensures stack { ArePlain (L.is_plain land.new) stack.new.items }
    ensures plain { OnlyRises (L.is_plain land.old) (L.is_plain land.new) }
    ensures bound { vec_len stack.new ≤ L.slots land.old + 1 }
    ensures room { vec_capacity stack.old ≤ vec_capacity stack.new }
    ensures slots { L.slots land.new ≡ L.slots land.old }
    ensures over { L.over land.new ≡ L.over land.old }
{
    match pending {
        Pending::Then(then) => match close_then(land, false, then, outcome, steps) {
            Ok(given) => Ok(At::Up(outcome_of_given(given))),
            Err(none) => Err(none),
        },
        Pending::Won { side, tree } => Ok(At::Up(close_side(land, side, tree, outcome, steps))),
        Pending::Part {
            side,
            tree,
            behind,
            sum,
        } => {
            let outcome = close_side(land, side, tree, outcome, steps);
            Ok(go_through(land, stack, plus(sum, outcome), behind))
        }
    }
}

// The outcome of a ready tree, down and up until the stack is empty.
fn climb_all<L: Land, S: Steps>(
    land: &mut L,
    stack: &mut Vec<Pending>,
    root: Link,
    steps: &mut S,
) -> Result<Outcome, NoMemory>
    requires room { L.slots land.old + 1 ≤ vec_capacity stack.old }
    ensures gives { Gives (L.stands land.old) (L.stands land.new)
        L.rule (λ setting s. value_to setting (L.slots land.old + 1) root.number.0 s) gave
        (S.told steps.old) (S.told steps.new) result }
    ensures lacks { HasLacked (is_err result) (S.lacks steps.old) (S.lacks steps.new) }
    ensures plain { OnlyRises (L.is_plain land.old) (L.is_plain land.new) }
    ensures slots { L.slots land.new ≡ L.slots land.old }
    ensures over { L.over land.new ≡ L.over land.old }
    ensures room { vec_capacity stack.old ≤ vec_capacity stack.new }
{
    stack.clear();
    let mut at = At::Down(root);
    'walking: loop {
        match at {
            At::Down(node) => {
                at = enter(land, stack, node);
            }
            At::Up(outcome) => {
                let Some(pending) = stack.pop() else {
                    return Ok(outcome);
                };
                match close(land, stack, pending, outcome, steps) {
                    Ok(next) => at = next,
                    Err(none) => return Err(none),
                }
            }
        }
    }
}

/// The outcome of a ready tree, with the steps that run for it; want of memory where a step found none. The stack has
/// room for slots + 1, and may have anything in it.
pub fn evaluate<L: Land, S: Steps>(
    land: &mut L,
    stack: &mut Vec<Pending>,
    root: Link,
    steps: &mut S,
) -> Result<Outcome, NoMemory>
    requires room { L.slots land.old + 1 ≤ vec_capacity stack.old }
    ensures gives { Gives (L.stands land.old) (L.stands land.new) L.rule
        (λ setting s. value setting root.number.0 s) gave (S.told steps.old) (S.told steps.new)
        result }
    ensures lacks { HasLacked (is_err result) (S.lacks steps.old) (S.lacks steps.new) }
    ensures plain { OnlyRises (L.is_plain land.old) (L.is_plain land.new) }
    ensures slots { L.slots land.new ≡ L.slots land.old }
    ensures over { L.over land.new ≡ L.over land.old }
    ensures room { vec_capacity stack.old ≤ vec_capacity stack.new }
{
    climb_all(land, stack, root, steps)
}
