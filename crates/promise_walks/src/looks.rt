//! What the evaluation of a tree sees of a node.
ghost use Rattle.std.specs.Prelude.{◌≡◌, ℕ, List, [], Some, true, option_to_list};
ghost use Rattle.kj_model.specs.World.{World};
ghost use Rattle.kj_model.specs.Nodes.{form_at};
ghost use Rattle.kj_model.specs.Value.{content_outcome, hub_outcome, kept_of, or_void};
ghost use Rattle.promise_nodes.specs.Shown.{shown, content_shown};
ghost use Rattle.promise_nodes.specs.Kept.{ShowsPlain};
ghost use Rattle.promise_walks.specs.Looks.{IsLook, IsSideLook, IfThen, IfFired};

use crate::land::Land;
use crate::shape::Parts;
use kj_base::{Content, Form, Link, NodeId, Outcome, Stage, StepId, Words};

// What the outcome of a node is, or depends on.
#[derive(Drop)]
pub(crate) enum Look {
    Known(Outcome),
    Branch(Link),
    Then {
        value: Option<StepId>,
        error: Option<StepId>,
        tree: Link,
    },
    // The Side that won a race.
    Winner(Link),
    // The Sides of a fast join, which keep outcomes.
    Kept(Parts),
    // The Sides of another join.
    Sides(Parts),
}

// What the outcome of a Side is, or its tree whose event has fired.
#[derive(Drop)]
pub(crate) enum SideLook {
    Known(Outcome),
    Fired(Link),
}

// The empty value.
pub(crate) fn void() -> Outcome
    ensures { result ≡ Outcome.Value [] }
{
    Outcome::Value(Words::new())
}

// The outcome that is kept.
fn outcome_of(content: &Content) -> Outcome
    ensures { result ≡ content_outcome (content_shown content.now) }
{
    match content {
        Content::Tree(_) => void(),
        Content::Kept(outcome) => outcome.copy(),
    }
}

// The empty value for none.
fn settled_or_void(outcome: &Option<Outcome>) -> Outcome
    ensures { result ≡ or_void outcome.now }
{
    match outcome {
        Some(outcome) => outcome.copy(),
        None => void(),
    }
}

// A race without a winner has the empty value.
fn look_of_race(left: Link, winner: Option<NodeId>) -> Look
    ensures { IsLook result (Some (shown [] (Form.Race left winner))) }
{
    match winner {
        Some(number) => Look::Winner(Link {
            slot: left.slot,
            number,
        }),
        None => Look::Known(void()),
    }
}

fn look_of_join(is_fast: bool, first: Link, count: u8) -> Look
    ensures { IsLook result (Some (shown [] (Form.Join is_fast first count))) }
{
    let parts = Parts { next: first, count };
    if is_fast {
        Look::Kept(parts)
    } else {
        Look::Sides(parts)
    }
}

// What the outcome of a node of this form is, or depends on.
fn look_of(form: &Form) -> Look
    ensures look { (branches : List ℕ) → IsLook result (Some (shown branches form.now)) }
    ensures plain { IfThen result (ShowsPlain (Some form.now)) }
{
    match form {
        Form::Ready { outcome } => Look::Known(outcome.copy()),
        Form::Cell { outcome } => Look::Known(settled_or_void(outcome)),
        Form::Branch { hub } => Look::Branch(*hub),
        Form::Eager { content } => Look::Known(outcome_of(content)),
        Form::Wrap { content, .. } => Look::Known(outcome_of(content)),
        Form::Race { left, winner } => look_of_race(*left, *winner),
        Form::Join {
            is_fast,
            first,
            count,
        } => look_of_join(*is_fast, *first, *count),
        Form::Then {
            value,
            error,
            tree: Some(tree),
        } => Look::Then {
            value: *value,
            error: *error,
            tree: *tree,
        },
        _ => Look::Known(void()),
    }
}

// What the outcome of a node is, or depends on.
pub(crate) fn look_at<L: Land>(land: &L, node: Link) -> Look
    ensures look { (w : World) → L.stands land.now w
        → IsLook result (form_at node.number.0 w.nodes) }
    ensures plain { IfThen result (L.is_plain land.now node.number.0 ≡ true) }
{
    match land.form(node) {
        Some(form) => look_of(form),
        None => Look::Known(void()),
    }
}

// What the outcome of a Side in this stage is, or its tree.
fn look_of_stage(stage: &Stage) -> SideLook
    ensures { IsSideLook result (Some (shown [] (Form.Side stage.now))) }
{
    match stage {
        Stage::Fired(tree) => SideLook::Fired(*tree),
        Stage::Keeps(outcome) => SideLook::Known(outcome.copy()),
        Stage::Waits(_) => SideLook::Known(void()),
        Stage::Gone => SideLook::Known(void()),
    }
}

// The same of a node of any form.
fn look_of_side(form: &Form) -> SideLook
    ensures look { (branches : List ℕ) → IsSideLook result (Some (shown branches form.now)) }
    ensures plain { IfFired result (ShowsPlain (Some form.now)) }
{
    match form {
        Form::Side { stage } => look_of_stage(stage),
        _ => SideLook::Known(void()),
    }
}

// What the outcome of a Side is, or its tree whose event has fired.
pub(crate) fn look_side<L: Land>(land: &L, side: Link) -> SideLook
    ensures look { (w : World) → L.stands land.now w
        → IsSideLook result (form_at side.number.0 w.nodes) }
    ensures plain { IfFired result (L.is_plain land.now side.number.0 ≡ true) }
{
    match land.form(side) {
        Some(form) => look_of_side(form),
        None => SideLook::Known(void()),
    }
}

// The outcome of a hub.
pub(crate) fn hub_outcome<L: Land>(land: &L, hub: Link) -> Outcome
    ensures { (w : World) → L.stands land.now w
        → hub_outcome (form_at hub.number.0 w.nodes) ≡ result }
{
    match land.form(hub) {
        Some(Form::Hub { content, .. }) => outcome_of(content),
        _ => void(),
    }
}

// The outcome that a Side of a fast join keeps.
pub(crate) fn kept<L: Land>(land: &L, side: Link) -> Option<Outcome>
    ensures { (w : World) → L.stands land.now w
        → kept_of (form_at side.number.0 w.nodes) ≡ option_to_list result }
{
    match land.form(side) {
        Some(
            Form::Side {
                stage: Stage::Keeps(outcome),
            },
        ) => Some(outcome.copy()),
        _ => None,
    }
}
