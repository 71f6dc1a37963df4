//! Under what a Side stands.
ghost use Rattle.std.specs.Prelude.{◌≡◌, ℕ, List};
ghost use Rattle.kj_model.specs.World.{World, State, Setting};
ghost use Rattle.kj_model.specs.Fire.{side_fired_by, side_fired_under};
ghost use Rattle.kj_model.specs.Nodes.{owner_of};
ghost use Rattle.promise_nodes.specs.Shown.{shown};
ghost use Rattle.promise_nodes.specs.Kept.{IsLive};
ghost use Rattle.promise_firing.specs.Stages.{IsAbove, IsOwner, fired_under};

use kj_base::{Form, Link, NodeId};
use promise_nodes::Nodes;

/// A join with its Sides, whose numbers follow each other from the first one on.
#[derive(Clone, Copy, Debug, PartialEq, Eq)]
pub struct Joined {
    pub join: Link,
    pub first: Link,
    pub count: u8,
}

/// What owns a Side, and what its form tells. The second Side of a Race is the next node after the first.
#[derive(Clone, Copy, Debug, PartialEq, Eq)]
pub enum Above {
    Nothing,
    Race {
        race: Link,
        left: Link,
        winner: Option<NodeId>,
    },
    Join {
        joined: Joined,
        is_fast: bool,
    },
}

fn above_of(owner: Link, form: &Form) -> Above
    ensures fires { (setting : Setting) (branches : List ℕ) (side tree : ℕ) (s : State)
        → side_fired_under setting owner.number.0 (shown branches form.now) side tree s
        ≡ fired_under setting result side tree s }
    ensures above { (branches : List ℕ) → IsAbove result owner.number.0 (shown branches form.now) }
{
    match form {
        Form::Race { left, winner } => Above::Race {
            race: owner,
            left: *left,
            winner: *winner,
        },
        Form::Join {
            is_fast,
            first,
            count,
        } => Above::Join {
            joined: Joined {
                join: owner,
                first: *first,
                count: *count,
            },
            is_fast: *is_fast,
        },
        Form::Ready { .. } | Form::Later | Form::Last | Form::Cell { .. } => Above::Nothing,
        Form::Branch { .. } | Form::Then { .. } | Form::Chain { .. } => Above::Nothing,
        Form::Eager { .. } | Form::Wrap { .. } | Form::Hub { .. } => Above::Nothing,
        Form::Side { .. } | Form::Task { .. } | Form::Request { .. } => Above::Nothing,
    }
}

/// What owns a live Side.
pub fn above_side<N: Nodes>(nodes: &N, side: Link) -> Above
    ensures fires { (setting : Setting) (tree : ℕ) (s : State)
        → N.stands nodes.now s.world → IsLive s.world side.number.0
        → side_fired_by setting (owner_of side.number.0 s.world.nodes) side.number.0 tree s
        ≡ fired_under setting result side.number.0 tree s }
    ensures above { (w : World) → N.stands nodes.now w → IsLive w side.number.0
        → IsOwner result (owner_of side.number.0 w.nodes) }
{
    let Some(owner) = nodes.owner(side) else {
        return Above::Nothing;
    };
    match nodes.form(owner) {
        Some(form) => above_of(owner, form),
        None => Above::Nothing,
    }
}
