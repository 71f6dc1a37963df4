//! The name of a hub, as its node has it.
ghost use Rattle.std.specs.Prelude.{◌≡◌};
ghost use Rattle.kj_model.specs.World.{World};
ghost use Rattle.kj_model.specs.Effects.{hub_unnamed};
ghost use Rattle.promise_nodes.specs.Kept.{OnlyFalls, OnlyRises};
ghost use Rattle.promise_walks.specs.Hubs.{unnamed_form};

use kj_base::{Form, Link};
use promise_nodes::Nodes;

// The form of a hub without its name, where it is a hub's.
fn unnamed_form(form: &Form) -> Option<Form>
    ensures { result ≡ unnamed_form form.now }
{
    match form {
        Form::Hub { content, .. } => Some(Form::Hub {
            content: content.copy(),
            is_named: false,
        }),
        _ => None,
    }
}

/// A hub has no name now.
pub fn unname_hub<N: Nodes>(nodes: &mut N, hub: Link)
    ensures stands { (w : World) → N.stands nodes.old w
        → N.stands nodes.new (hub_unnamed hub.number.0 w) }
    ensures taken { OnlyFalls (N.is_taken nodes.old) (N.is_taken nodes.new) }
    ensures plain { OnlyRises (N.is_plain nodes.old) (N.is_plain nodes.new) }
    ensures next { N.next nodes.new ≡ N.next nodes.old }
    ensures slots { N.slots nodes.new ≡ N.slots nodes.old }
{
    let Some(form) = nodes.form(hub) else {
        return;
    };
    let Some(unnamed) = unnamed_form(form) else {
        return;
    };
    nodes.put(hub, unnamed);
}
