//! What the event of a node does.
ghost use Rattle.std.specs.Prelude.{◌≡◌, List, ℕ, Some, true};
ghost use Rattle.kj_model.specs.World.{World, State, Setting};
ghost use Rattle.kj_model.specs.Nodes.{form_at, owner_of};
ghost use Rattle.kj_model.specs.Listening.{join_ready};
ghost use Rattle.kj_model.specs.Fire.{side_fired_by};
ghost use Rattle.promise_nodes.specs.Kept.{IsLive, ShowsPlain};
ghost use Rattle.promise_nodes.specs.Shown.{shown};
ghost use Rattle.promise_firing.specs.Stages.{IsOwner, fired_under, sides_of};
ghost use Rattle.promise_turns.specs.Events.{IfPlain, IsEvent};

use kj_base::{Content, Form, Link, Stage};
use promise_eval::Evaluator;
use promise_firing::{Above, Joined, above_side};
use promise_listening::is_join_ready;
use promise_names::Names;
use promise_nodes::Nodes;

/// What an event does, with the tree that its node has.
#[derive(Clone, Copy, Debug, PartialEq, Eq)]
pub(crate) enum Event {
    /// A Chain evaluates its Then, which may give a promise.
    Takes(Link),
    /// An eager or wrapped promise evaluates its tree, and keeps the outcome.
    Keeps(Link),
    /// A hub does that for its branches.
    Shares(Link),
    /// A Side of a race or a join has its tree ready.
    Waits(Link),
    /// A task evaluates its tree, and ends.
    Ends(Link),
    /// The request of another loop; no keeper has lists of ended requests yet.
    Requests,
    Nothing,
}

fn event_of(form: &Form) -> Event
    ensures event { (branches : List ℕ) → IsEvent result (Some (shown branches form.now)) }
    ensures plain { IfPlain result (ShowsPlain (Some form.now)) }
{
    match form {
        Form::Chain { link } => Event::Takes(*link),
        Form::Eager {
            content: Content::Tree(tree),
        } => Event::Keeps(*tree),
        Form::Wrap {
            content: Content::Tree(tree),
            ..
        } => Event::Keeps(*tree),
        Form::Hub {
            content: Content::Tree(tree),
            ..
        } => Event::Shares(*tree),
        Form::Side {
            stage: Stage::Waits(tree),
        } => Event::Waits(*tree),
        Form::Task { tree: Some(tree) } => Event::Ends(*tree),
        Form::Request { .. } => Event::Requests,
        Form::Eager { .. } | Form::Wrap { .. } | Form::Hub { .. } => Event::Nothing,
        Form::Side { .. } | Form::Task { .. } | Form::Then { .. } => Event::Nothing,
        Form::Ready { .. } | Form::Later | Form::Last => Event::Nothing,
        Form::Cell { .. } | Form::Branch { .. } => Event::Nothing,
        Form::Race { .. } | Form::Join { .. } => Event::Nothing,
    }
}

// What the event of a node does; nothing where it isn't live.
fn event_at<N: Nodes>(nodes: &N, node: Link) -> Event
    ensures event { (w : World)
        → N.stands nodes.now w
        → IsEvent result (form_at node.number.0 w.nodes) }
    ensures plain { IfPlain result (N.is_plain nodes.now node.number.0 ≡ true) }
{
    match nodes.form(node) {
        Some(form) => event_of(form),
        None => Event::Nothing,
    }
}

/// The same over the ground of an evaluator.
pub(crate) fn look<N: Nodes + Drop, M: Names + Drop>(over: &Evaluator<N, M>, node: Link) -> Event
    ensures event { (w : World)
        → N.stands over.now.nodes w
        → IsEvent result (form_at node.number.0 w.nodes) }
    ensures plain { IfPlain result (N.is_plain over.now.nodes node.number.0 ≡ true) }
{
    event_at(over.ground.nodes(), node)
}

/// What owns a live Side.
pub(crate) fn above<N: Nodes + Drop, M: Names + Drop>(over: &Evaluator<N, M>, side: Link) -> Above
    ensures fires { (setting : Setting) (tree : ℕ) (s : State)
        → N.stands over.now.nodes s.world
        → IsLive s.world side.number.0
        → side_fired_by setting (owner_of side.number.0 s.world.nodes) side.number.0 tree s ≡
        fired_under setting result side.number.0 tree s }
    ensures owner { (w : World)
        → N.stands over.now.nodes w
        → IsLive w side.number.0
        → IsOwner result (owner_of side.number.0 w.nodes) }
{
    above_side(over.ground.nodes(), side)
}

/// Whether a fast join is ready.
pub(crate) fn is_fast_ready<N: Nodes + Drop, M: Names + Drop>(
    over: &Evaluator<N, M>,
    joined: Joined,
) -> bool
    ensures { (w : World)
        → N.stands over.now.nodes w
        → result ≡ join_ready true (sides_of joined) w.nodes }
{
    is_join_ready(over.ground.nodes(), true, joined.first, joined.count)
}
