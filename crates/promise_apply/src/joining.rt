//! Races and joins.
ghost use Rattle.std.specs.Prelude.{◌≡◌, ◌+◌, ◌<◌, ◌≤◌, ◌^◌, [], ◌∷◌, ◌++◌, ℕ, List, None, false, IsTrue, length};
ghost use Rattle.kj_base.specs.Places.{row};
ghost use Rattle.kj_model.specs.World.{World, held_at};
ghost use Rattle.kj_model.specs.Nodes.{parts_of};
ghost use Rattle.kj_model.specs.Effects.{sides_built, each_listened};
ghost use Rattle.promise_nodes.specs.Kept.{AreBuilt, AreRoots, OnlyFalls, OnlyRises};
ghost use Rattle.promise_nodes.specs.Shown.{shown, run_from};
ghost use Rattle.promise_names.specs.Held.{AreFree, IsListless};
ghost use Rattle.promise_apply.specs.Building.{Both};
ghost use Rattle.promise_apply.specs.Joining.{AreHeld, AreSources, FitsJoined, joined_built, joined_form, source_names, source_trees, tree_rows};

use crate::building::{Over, take_source};
use crate::sources::Source;
use kj_base::{Form, Link, Name, NodeId, Slot};
use promise_commands::MAX_PARTS;
use promise_listening::listen;
use promise_names::{Held, Names};
use promise_nodes::Nodes;

/// What waits for several promises.
#[derive(Clone, Copy, Debug, PartialEq, Eq)]
pub enum Joined {
    /// Two of them; the first one decides.
    Race,
    All,
    /// The first exception decides.
    Fast,
}

fn joined_form(kind: Joined, first: Link, count: u8) -> Form
    requires { FitsJoined kind count }
    ensures shown { (sources : List ℕ) → length sources ≡ count → first.number.0 + count < 2 ^ 64
        → shown [] result ≡ joined_form kind first.number.0 sources }
    ensures parts { parts_of (shown [] result) ≡ run_from count first.number.0 }
{
    match kind {
        Joined::Race => Form::Race {
            left: first,
            winner: None,
        },
        Joined::All => Form::Join {
            is_fast: false,
            first,
            count,
        },
        Joined::Fast => Form::Join {
            is_fast: true,
            first,
            count,
        },
    }
}

// The trees of these sources got listeners, in order.
fn listen_each<N: Nodes>(nodes: &mut N, sources: &[Source])
    ensures stands { (w : World) → N.stands nodes.old w
        → N.stands nodes.new (each_listened (source_trees sources.now) w) }
    ensures taken { OnlyFalls (N.is_taken nodes.old) (N.is_taken nodes.new) }
    ensures next { N.next nodes.new ≡ N.next nodes.old }
    ensures slots { N.slots nodes.new ≡ N.slots nodes.old }
    ensures plain { OnlyRises (N.is_plain nodes.old) (N.is_plain nodes.new) }
{
    for source in sources {
        listen(nodes, source.root);
    }
}

// A Side over each source in order; the first one's link, whose number is the next one where there is no source.
fn build_sides<N: Nodes, M: Names>(nodes: &mut N, names: &mut M, sources: &[Source]) -> Link
    requires sources { AreSources (M.roots names.old) sources.now }
    requires few { length sources.now ≤ MAX_PARTS }
    requires fits { IsTrue
        (N.room nodes.old (tree_rows (source_trees sources.now) ++ row None 1 ∷ [])) }
    requires numbers { N.next nodes.old ≤ 2 ^ 63 }
    requires free { AreFree (M.roots names.old) (N.is_taken nodes.old) (N.next nodes.old) }
    ensures number { result.number.0 ≡ N.next nodes.old }
    ensures stands { (w : World) → Both (N.stands nodes.old) (M.stands names.old) w
        → AreHeld sources.now w → Both (N.stands nodes.new) (M.stands names.new)
        (sides_built (source_names sources.now) w) }
    ensures free { AreFree (M.roots names.new) (N.is_taken nodes.new) (N.next nodes.old) }
    ensures fits { IsTrue (N.room nodes.new (row None 1 ∷ [])) }
    ensures sides { AreRoots (N.is_taken nodes.new)
        (run_from (length sources.now) (N.next nodes.old)) }
    ensures built { AreBuilt (N.next nodes.new) (run_from (length sources.now) (N.next nodes.old)) }
    ensures next { N.next nodes.new ≡ N.next nodes.old + length sources.now }
    ensures count { M.count names.new + length sources.now ≡ M.count names.old }
    ensures limit { M.limit names.new ≡ M.limit names.old }
    ensures slots { N.slots nodes.new ≡ N.slots nodes.old }
    ensures plain { OnlyRises (N.is_plain nodes.old) (N.is_plain nodes.new) }
    ensures over { M.over names.new ≡ M.over names.old }
{
    let mut first = Link {
        slot: Slot(0),
        number: NodeId(nodes.next()),
    };
    for i in 0..sources.len() {
        let Source { name, root } = sources[i];
        let side = take_source(nodes, names, name, root, Over::Side);
        if i == 0 {
            first = side;
        }
    }
    first
}

/// A Side over each source in order, and the race or join over them, which a new name promises; the Sides listen
/// (kj/async.h, `exclusiveJoin`, `joinPromises`, `joinPromisesFailFast`).
pub fn build_joined<N: Nodes, M: Names>(
    nodes: &mut N,
    names: &mut M,
    kind: Joined,
    name: Name,
    sources: &[Source],
)
    requires sources { AreSources (M.roots names.old) sources.now }
    requires few { length sources.now ≤ MAX_PARTS }
    requires kind { FitsJoined kind (length sources.now) }
    requires fits { IsTrue
        (N.room nodes.old (tree_rows (source_trees sources.now) ++ row None 1 ∷ [])) }
    requires numbers { N.next nodes.old ≤ 2 ^ 63 }
    requires room { M.count names.old + 1 ≤ M.limit names.old + length sources.now }
    requires free { AreFree (M.roots names.old) (N.is_taken nodes.old) (N.next nodes.old) }
    ensures stands { (w : World)
        → Both (N.stands nodes.old) (M.stands names.old) w → AreHeld sources.now w
        → IsListless (held_at name.0 (sides_built (source_names sources.now) w).names)
        → Both (N.stands nodes.new) (M.stands names.new)
        (joined_built kind name.0 (source_names sources.now) w) }
    ensures free { AreFree (M.roots names.new) (N.is_taken nodes.new) (N.next nodes.new) }
    ensures few { M.count names.new + length sources.now ≤ M.count names.old + 1 }
    ensures limit { M.limit names.new ≡ M.limit names.old }
    ensures slots { N.slots nodes.new ≡ N.slots nodes.old }
    ensures plain { OnlyRises (N.is_plain nodes.old) (N.is_plain nodes.new) }
    ensures over { M.over names.new ≡ M.over names.old }
{
    let first = build_sides(nodes, names, sources);
    let form = joined_form(kind, first, sources.len() as u8);
    let join = nodes.build(None, form);
    names.set(name, Held::Promise(join));
    listen_each(nodes, sources);
}
