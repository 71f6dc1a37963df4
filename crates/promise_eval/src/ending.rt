//! How an action ends.
ghost use Rattle.std.specs.Prelude.{◌≡◌, ◌≤◌, ◌<◌, ◌+◌, Ok, vec_capacity};
ghost use Rattle.kj_model.specs.World.{World, State, held_at};
ghost use Rattle.kj_model.specs.Outcomes.{failed};
ghost use Rattle.kj_model.specs.Value.{ended, holds_firing, promise_ended, promise_taken};
ghost use Rattle.promise_names.specs.Held.{AreFree};
ghost use Rattle.promise_walks.specs.Walks.{Both};
ghost use Rattle.promise_walks.specs.Values.{GivesRoot, given_of};
ghost use Rattle.promise_eval.specs.Done.{IsDone};

use kj_base::{Ending, Exception, Kind, Link, Name, Outcome};
use promise_names::{Held, Names};
use promise_nodes::Nodes;
use promise_walks::{Given, Parts, holds};

/// The code of the exception where a step that gives values gave a promise.
const PROMISE_GIVEN: u32 = 8;

/// The code of the exception where a command of a step was refused, or the promise that it gave.
const COMMAND_REFUSED: u32 = 9;

fn failed(code: u32) -> Outcome
    ensures { result ≡ failed code }
{
    Outcome::Broken(Exception {
        kind: Kind::Failed,
        code,
    })
}

// What a step gives whose command or promise was refused.
pub(crate) fn refused() -> Given
    ensures { given_of result ≡ Rattle.kj_model.specs.Value.Gave (failed 9) }
{
    Given::Gave(failed(COMMAND_REFUSED))
}

// Whether the tree of a root holds the node whose event fires.
fn holds_firing<N: Nodes>(nodes: &N, search: &mut Vec<Parts>, root: Link) -> bool
    requires room { N.slots nodes.now + 1 ≤ vec_capacity search.old }
    ensures holds { (w : World)
        → N.stands nodes.now w
        → result ≡ holds_firing w.firing root.number.0 w }
    ensures room { vec_capacity search.old ≤ vec_capacity search.new }
{
    match nodes.firing() {
        Some(node) => holds(nodes, search, node, root),
        None => false,
    }
}

// The promise of a name leaves it, but for one that isn't there or whose tree holds the node whose event fires.
#[tactic(auto, using(crate::proofs::Loose::unnamed_then))]
fn take_promise<N: Nodes, M: Names>(
    nodes: &N,
    names: &mut M,
    search: &mut Vec<Parts>,
    name: Name,
) -> Given
    requires free { AreFree (M.roots names.old) (N.is_taken nodes.now) (N.next nodes.now) }
    requires room { N.slots nodes.now + 1 ≤ vec_capacity search.old }
    ensures taken { (s : State)
        → Both (N.stands nodes.now) (M.stands names.old) s.world
        → IsDone (Both (N.stands nodes.now) (M.stands names.new)) s.past (given_of result)
        (promise_taken name.0 (held_at name.0 s.world.names) s) }
    ensures root { GivesRoot (M.roots names.new) (N.is_taken nodes.now) (N.next nodes.now)
        (Ok result) }
    ensures free { AreFree (M.roots names.new) (N.is_taken nodes.now) (N.next nodes.now) }
    ensures few { M.count names.new ≤ M.count names.old }
    ensures limit { M.limit names.new ≡ M.limit names.old }
    ensures over { M.over names.new ≡ M.over names.old }
    ensures room { vec_capacity search.old ≤ vec_capacity search.new }
{
    let Some(Held::Promise(root)) = names.get(name) else {
        return refused();
    };
    if holds_firing(nodes, search, root) {
        return refused();
    }
    names.remove(name);
    Given::Took(root)
}

// A step gives a promise, which counts only where a Chain is directly above.
fn end_promise<N: Nodes, M: Names>(
    nodes: &N,
    names: &mut M,
    search: &mut Vec<Parts>,
    under_chain: bool,
    name: Name,
) -> Given
    requires free { AreFree (M.roots names.old) (N.is_taken nodes.now) (N.next nodes.now) }
    requires room { N.slots nodes.now + 1 ≤ vec_capacity search.old }
    ensures ended { (s : State)
        → Both (N.stands nodes.now) (M.stands names.old) s.world
        → IsDone (Both (N.stands nodes.now) (M.stands names.new)) s.past (given_of result)
        (promise_ended under_chain name.0 s) }
    ensures root { GivesRoot (M.roots names.new) (N.is_taken nodes.now) (N.next nodes.now)
        (Ok result) }
    ensures free { AreFree (M.roots names.new) (N.is_taken nodes.now) (N.next nodes.now) }
    ensures few { M.count names.new ≤ M.count names.old }
    ensures limit { M.limit names.new ≡ M.limit names.old }
    ensures over { M.over names.new ≡ M.over names.old }
    ensures room { vec_capacity search.old ≤ vec_capacity search.new }
{
    if under_chain {
        return take_promise(nodes, names, search, name);
    }
    Given::Gave(failed(PROMISE_GIVEN))
}

// What an action gives whose commands were all carried out.
pub(crate) fn end<N: Nodes, M: Names>(
    nodes: &N,
    names: &mut M,
    search: &mut Vec<Parts>,
    under_chain: bool,
    ending: Ending,
    input: Outcome,
) -> Given
    requires free { AreFree (M.roots names.old) (N.is_taken nodes.now) (N.next nodes.now) }
    requires room { N.slots nodes.now + 1 ≤ vec_capacity search.old }
    ensures ended { (s : State)
        → Both (N.stands nodes.now) (M.stands names.old) s.world
        → IsDone (Both (N.stands nodes.now) (M.stands names.new)) s.past (given_of result)
        (ended ending under_chain input s) }
    ensures root { GivesRoot (M.roots names.new) (N.is_taken nodes.now) (N.next nodes.now)
        (Ok result) }
    ensures free { AreFree (M.roots names.new) (N.is_taken nodes.now) (N.next nodes.now) }
    ensures few { M.count names.new ≤ M.count names.old }
    ensures limit { M.limit names.new ≡ M.limit names.old }
    ensures over { M.over names.new ≡ M.over names.old }
    ensures room { vec_capacity search.old ≤ vec_capacity search.new }
{
    match ending {
        Ending::Value(words) => Given::Gave(Outcome::Value(words)),
        Ending::Throw(exception) => Given::Gave(Outcome::Broken(exception)),
        Ending::Input => Given::Gave(input),
        Ending::Promise(name) => end_promise(nodes, names, search, under_chain, name),
    }
}
