//! A promise that a wait takes out of its name, holds, and lets go.
ghost use Rattle.std.specs.Prelude.{◌≡◌, ◌≤◌, [], None, Some, length};
ghost use Rattle.kj_model.specs.Calls.{held_awaited, let_go, let_go_of, lost, with_awaited};
ghost use Rattle.kj_model.specs.Changes.{named};
ghost use Rattle.kj_model.specs.Effects.{disarmed_node};
ghost use Rattle.kj_model.specs.Value.{freed};
ghost use Rattle.kj_model.specs.World.{World, Promise, held_at};
ghost use Rattle.promise_names.specs.Held.{SeesHeld, awaited_key, awaited_shown, root_of};
ghost use Rattle.promise_nodes.specs.Shown.{link_number};
ghost use Rattle.promise_walks.specs.Walks.{Both, Does};
ghost use Rattle.loop_core.specs.Waits.{awaited_gone};

use kj_base::{Link, Name};
use promise_commands::Steps;
use promise_eval::{Evaluator, Ground};
use promise_listening::{WAIT, listen};
use promise_names::{Awaited, Held, Names};
use promise_nodes::Nodes;
use promise_walks::free_part;

/// The promise is taken out of its name, and the wait listens to its tree.
pub(crate) fn hold<N: Nodes + Drop, M: Names + Drop>(
    ground: &mut Ground<N, M>,
    name: Name,
    root: Link,
)
    requires named { M.roots ground.old.names name.0 ≡ Some root.number.0 }
    ensures stands { (w : World)
        → Both (N.stands ground.old.nodes) (M.stands ground.old.names) w
        → held_at name.0 w.names ≡ Some (Promise root.number.0)
        → Both (N.stands ground.new.nodes) (M.stands ground.new.names)
        (held_awaited name.0 root.number.0 w) }
    ensures slots { N.slots ground.new.nodes ≡ N.slots ground.old.nodes }
    ensures over { M.over ground.new.names ≡ M.over ground.old.names }
{
    let keepers = &mut ground.keepers;
    keepers.names.remove(name);
    keepers.names.hold(name, root);
    keepers.nodes.set_awaited(Some(root));
    listen(&mut keepers.nodes, root);
}

// None is awaited any more.
fn await_none<N: Nodes + Drop, M: Names + Drop>(ground: &mut Ground<N, M>)
    ensures stands { (w : World)
        → Both (N.stands ground.old.nodes) (M.stands ground.old.names) w
        → Both (N.stands ground.new.nodes) (M.stands ground.new.names) (with_awaited None w) }
    ensures slots { N.slots ground.new.nodes ≡ N.slots ground.old.nodes }
    ensures over { M.over ground.new.names ≡ M.over ground.old.names }
{
    let keepers = &mut ground.keepers;
    keepers.names.let_go();
    keepers.nodes.set_awaited(None);
}

// The event of the wait leaves the queue, if it is there.
fn disarm<N: Nodes + Drop, M: Names + Drop>(ground: &mut Ground<N, M>)
    ensures stands { (w : World)
        → Both (N.stands ground.old.nodes) (M.stands ground.old.names) w
        → Both (N.stands ground.new.nodes) (M.stands ground.new.names) (disarmed_node 0 w) }
    ensures slots { N.slots ground.new.nodes ≡ N.slots ground.old.nodes }
    ensures names { ground.new.names ≡ ground.old.names }
{
    ground.keepers.nodes.disarm(WAIT);
}

// A promise that is awaited has its name again.
fn give_back<N: Nodes + Drop, M: Names + Drop>(ground: &mut Ground<N, M>, promise: Awaited)
    requires held { M.roots ground.old.names awaited_key ≡ Some promise.root.number.0 }
    ensures stands { (w : World)
        → Both (N.stands ground.old.nodes) (M.stands ground.old.names) w
        → held_at promise.name.0 w.names ≡ None
        → Both (N.stands ground.new.nodes) (M.stands ground.new.names)
        (named promise.name.0 (Promise promise.root.number.0) (with_awaited None w)) }
    ensures slots { N.slots ground.new.nodes ≡ N.slots ground.old.nodes }
    ensures over { M.over ground.new.names ≡ M.over ground.old.names }
{
    let keepers = &mut ground.keepers;
    keepers.names.let_go();
    keepers.names.set(promise.name, Held::Promise(promise.root));
    keepers.nodes.set_awaited(None);
}

// A tree goes.
fn free<N: Nodes + Drop, M: Names + Drop, S: Steps>(
    ground: &mut Ground<N, M>,
    root: Link,
    steps: &mut S,
)
    ensures does { Does (Both (N.stands ground.old.nodes) (M.stands ground.old.names))
        (Both (N.stands ground.new.nodes) (M.stands ground.new.names)) (freed root.number.0)
        (λ s. s) (S.told steps.old) (S.told steps.new) }
    ensures lacks { S.lacks steps.new ≡ S.lacks steps.old }
    ensures slots { N.slots ground.new.nodes ≡ N.slots ground.old.nodes }
    ensures over { M.over ground.new.names ≡ M.over ground.old.names }
{
    let keepers = &mut ground.keepers;
    free_part(
        &mut keepers.nodes,
        &mut keepers.names,
        &mut keepers.frames,
        &mut keepers.search,
        root,
        steps,
    );
}

// A promise that is awaited is freed where its name was taken, and else has it again.
fn let_go_of<N: Nodes + Drop, M: Names + Drop, S: Steps>(
    ground: &mut Ground<N, M>,
    promise: Awaited,
    steps: &mut S,
)
    requires held { M.roots ground.old.names awaited_key ≡ Some promise.root.number.0 }
    ensures does { Does (Both (N.stands ground.old.nodes) (M.stands ground.old.names))
        (Both (N.stands ground.new.nodes) (M.stands ground.new.names))
        (let_go_of (awaited_shown (Some promise))) (λ s. s) (S.told steps.old)
        (S.told steps.new) }
    ensures lacks { S.lacks steps.new ≡ S.lacks steps.old }
    ensures slots { N.slots ground.new.nodes ≡ N.slots ground.old.nodes }
    ensures over { M.over ground.new.names ≡ M.over ground.old.names }
{
    match ground.names().get(promise.name) {
        Some(_) => {
            free(ground, promise.root, steps);
            await_none(ground);
        }
        None => give_back(ground, promise),
    }
}

/// Nobody listens any more, and the promise has its name again, or is freed where a step took that name.
pub(crate) fn let_go<N: Nodes + Drop, M: Names + Drop, S: Steps>(
    ground: &mut Ground<N, M>,
    steps: &mut S,
)
    ensures does { Does (Both (N.stands ground.old.nodes) (M.stands ground.old.names))
        (Both (N.stands ground.new.nodes) (M.stands ground.new.names)) let_go (λ s. s)
        (S.told steps.old) (S.told steps.new) }
    ensures lacks { S.lacks steps.new ≡ S.lacks steps.old }
    ensures slots { N.slots ground.new.nodes ≡ N.slots ground.old.nodes }
    ensures over { M.over ground.new.names ≡ M.over ground.old.names }
{
    disarm(ground);
    match ground.names().awaited() {
        Some(promise) => let_go_of(ground, promise, steps),
        None => {}
    }
}

/// The promise that is awaited is freed, with the wait's event.
pub(crate) fn free_awaited<N: Nodes + Drop, M: Names + Drop, S: Steps>(
    ground: &mut Ground<N, M>,
    steps: &mut S,
)
    ensures does { Does (Both (N.stands ground.old.nodes) (M.stands ground.old.names))
        (Both (N.stands ground.new.nodes) (M.stands ground.new.names)) awaited_gone (λ s. s)
        (S.told steps.old) (S.told steps.new) }
    ensures lacks { S.lacks steps.new ≡ S.lacks steps.old }
    ensures slots { N.slots ground.new.nodes ≡ N.slots ground.old.nodes }
    ensures over { M.over ground.new.names ≡ M.over ground.old.names }
{
    match ground.names().awaited() {
        Some(promise) => {
            free(ground, promise.root, steps);
            await_none(ground);
            disarm(ground);
        }
        None => {}
    }
}

/// A step found no memory: nobody listens any more, and the promise is left over without a name.
pub(crate) fn lose<N: Nodes + Drop, M: Names + Drop>(ground: &mut Ground<N, M>)
    requires room { length (M.over ground.old.names) ≤ 1 }
    ensures stands { (w : World)
        → Both (N.stands ground.old.nodes) (M.stands ground.old.names) w
        → Both (N.stands ground.new.nodes) (M.stands ground.new.names) (lost w) }
    ensures slots { N.slots ground.new.nodes ≡ N.slots ground.old.nodes }
    ensures over { length (M.over ground.new.names) ≤ 2 }
{
    disarm(ground);
    if let Some(promise) = ground.names().awaited() {
        ground.keepers.names.lose(promise.root);
        await_none(ground);
    }
}

/// The promise that is awaited.
pub(crate) fn awaited_over<N: Nodes + Drop, M: Names + Drop>(
    over: &Evaluator<N, M>,
) -> Option<Awaited>
    ensures { (w : World) → M.stands over.now.names w → w.awaited ≡ awaited_shown result }
{
    over.ground.names().awaited()
}

/// What a name holds.
pub(crate) fn held_over<N: Nodes + Drop, M: Names + Drop>(
    over: &Evaluator<N, M>,
    name: Name,
) -> Option<Held>
    ensures held { (w : World)
        → M.stands over.now.names w
        → SeesHeld result (held_at name.0 w.names) }
    ensures root { root_of result ≡ M.roots over.now.names name.0 }
{
    over.ground.names().get(name)
}

/// The tree of a promise.
pub(crate) fn promise_of(held: Held) -> Option<Link>
    ensures { link_number result ≡ root_of (Some held) }
{
    match held {
        Held::Promise(root) => Some(root),
        _ => None,
    }
}
