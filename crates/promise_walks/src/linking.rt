//! Evaluating the Then of a Chain, whose step may give a promise.
ghost use Rattle.std.specs.Prelude.{◌≡◌, ◌≤◌, ◌+◌, IfSome, Some, true, is_err, vec_capacity};
ghost use Rattle.kj_base.specs.Counts.{HasLacked};
ghost use Rattle.kj_model.specs.World.{World};
ghost use Rattle.kj_model.specs.Nodes.{form_at};
ghost use Rattle.kj_model.specs.Value.{value, value_link};
ghost use Rattle.promise_nodes.specs.Kept.{OnlyRises};
ghost use Rattle.promise_walks.specs.Values.{Gives, GivesRoot, gave_given};
ghost use Rattle.promise_walks.specs.Looks.{IsContinuation};

use crate::closing::close_then;
use crate::evaluating::evaluate;
use crate::land::{Given, Land};
use crate::looks::void;
use crate::pending::{Continuation, Pending};
use kj_base::{Form, Link, NoMemory};
use promise_commands::Steps;

// A Then that has its tree.
fn continuation<L: Land>(land: &L, node: Link) -> Option<Continuation>
    ensures seen { (w : World) → L.stands land.now w
        → IsContinuation result (form_at node.number.0 w.nodes) }
    ensures node { IfSome result (λ then. then.node ≡ node) }
    ensures plain { IfSome result (λ then. L.is_plain land.now then.node.number.0 ≡ true) }
{
    match land.form(node) {
        Some(
            Form::Then {
                value,
                error,
                tree: Some(tree),
            },
        ) => Some(Continuation {
            node,
            value: *value,
            error: *error,
            tree: *tree,
        }),
        _ => None,
    }
}

/// What the Then of a Chain gives, with the steps that run for it: an outcome, or the tree of a promise, which left its
/// name. The stack has room for slots + 1, and may have anything in it.
pub fn evaluate_link<L: Land, S: Steps>(
    land: &mut L,
    stack: &mut Vec<Pending>,
    link: Link,
    steps: &mut S,
) -> Result<Given, NoMemory>
    requires room { L.slots land.old + 1 ≤ vec_capacity stack.old }
    ensures gives { Gives (L.stands land.old) (L.stands land.new)
        L.rule (λ setting s. value_link setting link.number.0 s) gave_given (S.told steps.old)
        (S.told steps.new) result }
    ensures lacks { HasLacked (is_err result) (S.lacks steps.old) (S.lacks steps.new) }
    ensures root { GivesRoot (L.roots land.new) (L.is_taken land.new) (L.next land.new) result }
    ensures plain { OnlyRises (L.is_plain land.old) (L.is_plain land.new) }
    ensures slots { L.slots land.new ≡ L.slots land.old }
    ensures over { L.over land.new ≡ L.over land.old }
    ensures room { vec_capacity stack.old ≤ vec_capacity stack.new }
{
    let Some(then) = continuation(land, link) else {
        return Ok(Given::Gave(void()));
    };
    match evaluate(land, stack, then.tree, steps) {
        Ok(outcome) => close_then(land, true, then, outcome, steps),
        Err(none) => Err(none),
    }
}
