//! Nodes that go.
ghost use Rattle.std.specs.Prelude.{◌≡◌, [], true, false, is_some};
ghost use Rattle.kj_model.specs.World.{World};
ghost use Rattle.kj_model.specs.Nodes.{form_at};
ghost use Rattle.kj_model.specs.Changes.{gone};
ghost use Rattle.promise_nodes.specs.Shown.{shown};
ghost use Rattle.promise_nodes.specs.Kept.{IsPlain, OnlyFalls, OnlyRises, hub_of};
ghost use Rattle.promise_walks.specs.Walks.{Both, Does};

use kj_base::{Form, Link};
use promise_commands::Steps;
use promise_names::Names;
use promise_nodes::Nodes;

fn has_hub(form: &Form) -> bool
    ensures { result ≡ is_some (hub_of (shown [] form.now)) }
{
    match form {
        Form::Branch { .. } => true,
        Form::Ready { .. } | Form::Later | Form::Last | Form::Cell { .. } => false,
        Form::Then { .. } | Form::Chain { .. } | Form::Eager { .. } => false,
        Form::Wrap { .. } | Form::Hub { .. } | Form::Side { .. } => false,
        Form::Race { .. } | Form::Join { .. } => false,
        Form::Task { .. } | Form::Request { .. } => false,
    }
}

fn is_branch<N: Nodes>(nodes: &N, node: Link) -> bool
    ensures unlisted { result ≡ false → N.is_listed nodes.now node.number.0 ≡ false }
    ensures branch { result ≡ true → (w : World) → N.stands nodes.now w
        → IsPlain (form_at node.number.0 w.nodes) → ⊥ }
{
    match nodes.form(node) {
        Some(form) => has_hub(form),
        None => false,
    }
}

// A node that is no branch goes with its event, and the free is told; what it owned went before.
pub(crate) fn drop_plain<N: Nodes, M: Names, S: Steps>(
    nodes: &mut N,
    _names: &M,
    node: Link,
    steps: &mut S,
)
    requires plain { N.is_plain nodes.old node.number.0 ≡ true }
    ensures does { Does (Both (N.stands nodes.old) (M.stands _names.now))
        (Both (N.stands nodes.new) (M.stands _names.now)) (gone node.number.0) (λ s. s)
        (S.told steps.old) (S.told steps.new) }
    ensures lacks { S.lacks steps.new ≡ S.lacks steps.old }
    ensures taken { OnlyFalls (N.is_taken nodes.old) (N.is_taken nodes.new) }
    ensures plain { OnlyRises (N.is_plain nodes.old) (N.is_plain nodes.new) }
    ensures next { N.next nodes.new ≡ N.next nodes.old }
    ensures slots { N.slots nodes.new ≡ N.slots nodes.old }
{
    if is_branch(nodes, node) {
        return;
    }
    nodes.drop_node(node);
    steps.freed(node.number);
}
