//! A Chain whose Then was evaluated.
ghost use Rattle.std.specs.Prelude.{◌≡◌, Some, true, vec_capacity};
ghost use Rattle.kj_model.specs.World.{World};
ghost use Rattle.kj_model.specs.Nodes.{Ready, renamed};
ghost use Rattle.kj_model.specs.Changes.{put};
ghost use Rattle.kj_model.specs.Listening.{listened};
ghost use Rattle.kj_model.specs.Fire.{chain_ended, replaced, awaited_renamed};
ghost use Rattle.promise_nodes.specs.Kept.{OnlyFalls, OnlyRises, IsLive, IsReplaceable};
ghost use Rattle.promise_nodes.specs.Shown.{link_number};
ghost use Rattle.promise_names.specs.Held.{AreFree, root_renamed};
ghost use Rattle.promise_walks.specs.Walks.{Both, Does};
ghost use Rattle.promise_walks.specs.Values.{given_of};
ghost use Rattle.promise_firing.specs.Ground.{IsSound, Keeps, IsGiven, IsLoose, ground};
ghost use Rattle.promise_firing.specs.Outliving.{MayEnd};

use crate::going::drop_plain;
use kj_base::{Form, Link, Outcome};
use promise_commands::Steps;
use promise_listening::listen;
use promise_names::Names;
use promise_nodes::Nodes;
use promise_walks::{Frame, Given, Parts, free_part, put_bare};

// A Chain is the leaf with this outcome now, and who listens to it is armed.
fn become_ready<N: Nodes>(nodes: &mut N, chain: Link, outcome: Outcome)
    requires plain { N.is_plain nodes.old chain.number.0 ≡ true }
    ensures stands { (w : World) → N.stands nodes.old w
        → N.stands nodes.new (listened chain.number.0 (put chain.number.0 (Ready outcome) w)) }
    ensures taken { OnlyFalls (N.is_taken nodes.old) (N.is_taken nodes.new) }
    ensures plain { OnlyRises (N.is_plain nodes.old) (N.is_plain nodes.new) }
    ensures next { N.next nodes.new ≡ N.next nodes.old }
    ensures slots { N.slots nodes.new ≡ N.slots nodes.old }
{
    put_bare(nodes, chain, Form::Ready { outcome });
    listen(nodes, chain);
}

// A root, where the tree new took the place of old.
fn renamed_root(root: Link, old: Link, new: Link) -> Link
    ensures { result.number.0 ≡ renamed old.number.0 new.number.0 root.number.0 }
{
    if root.number.0 == old.number.0 {
        new
    } else {
        root
    }
}

// The same for a root that may be there.
fn renamed_awaited(awaited: Option<Link>, old: Link, new: Link) -> Option<Link>
    ensures { link_number result ≡ root_renamed old.number.0 new.number.0 (link_number awaited) }
{
    match awaited {
        Some(root) => Some(renamed_root(root, old, new)),
        None => None,
    }
}

// A wait for the tree of old awaits new now.
fn rename_awaited<N: Nodes>(nodes: &mut N, old: Link, new: Link)
    ensures stands { (w : World)
        → N.stands nodes.old w
        → N.stands nodes.new
        (record w { awaited = awaited_renamed old.number.0 new.number.0 w.awaited }) }
    ensures taken { OnlyFalls (N.is_taken nodes.old) (N.is_taken nodes.new) }
    ensures plain { OnlyRises (N.is_plain nodes.old) (N.is_plain nodes.new) }
    ensures next { N.next nodes.new ≡ N.next nodes.old }
    ensures slots { N.slots nodes.new ≡ N.slots nodes.old }
{
    let awaited = nodes.awaited();
    nodes.set_awaited(renamed_awaited(awaited, old, new));
}

// The tree of a root that nothing owns takes the place of a Chain: under its owner, under a name, or awaited.
fn give_place<N: Nodes, M: Names>(nodes: &mut N, names: &mut M, chain: Link, root: Link)
    requires free { AreFree (M.roots names.old) (N.is_taken nodes.old) (N.next nodes.old) }
    requires loose { IsLoose (M.roots names.old) (N.is_taken nodes.old) (N.next nodes.old)
        root.number.0 }
    ensures stands { (w : World) → Both (N.stands nodes.old) (M.stands names.old) w
        → IsLive w chain.number.0 → IsReplaceable w chain.number.0 root.number.0
        → Both (N.stands nodes.new) (M.stands names.new) (replaced chain.number.0 root.number.0 w) }
    ensures free { AreFree (M.roots names.new) (N.is_taken nodes.new) (N.next nodes.new) }
    ensures plain { OnlyRises (N.is_plain nodes.old) (N.is_plain nodes.new) }
    ensures next { N.next nodes.new ≡ N.next nodes.old }
    ensures slots { N.slots nodes.new ≡ N.slots nodes.old }
    ensures count { M.count names.new ≡ M.count names.old }
    ensures limit { M.limit names.new ≡ M.limit names.old }
    ensures over { M.over names.new ≡ M.over names.old }
{
    nodes.replace(chain, root);
    names.rename(chain, root);
    rename_awaited(nodes, chain, root);
}

/// The Then of a Chain gave an outcome or a promise: it is freed; the Chain is Ready in place, or gives its place to the
/// promise and goes.
pub fn end_chain<N: Nodes, M: Names, S: Steps>(
    nodes: &mut N,
    names: &mut M,
    frames: &mut Vec<Frame>,
    search: &mut Vec<Parts>,
    chain: Link,
    link: Link,
    given: Given,
    steps: &mut S,
)
    requires plain { N.is_plain nodes.old chain.number.0 ≡ true }
    requires given { IsGiven (M.roots names.old) (N.is_taken nodes.old) (N.next nodes.old) given }
    requires sound { IsSound (ground (N.is_taken nodes.old) (N.is_plain nodes.old)
        (N.next nodes.old) (N.slots nodes.old) (M.roots names.old) (M.count names.old)
        (M.limit names.old) (vec_capacity frames.old) (vec_capacity search.old)) }
    ensures does { Does (λ w. Both (N.stands nodes.old) (M.stands names.old) w
        × MayEnd chain.number.0 link.number.0 (given_of given) w)
        (Both (N.stands nodes.new) (M.stands names.new))
        (chain_ended chain.number.0 link.number.0 (Some (given_of given))) (λ s. s)
        (S.told steps.old) (S.told steps.new) }
    ensures lacks { S.lacks steps.new ≡ S.lacks steps.old }
    ensures kept { Keeps (ground (N.is_taken nodes.old) (N.is_plain nodes.old)
        (N.next nodes.old) (N.slots nodes.old) (M.roots names.old)
        (M.count names.old) (M.limit names.old) (vec_capacity frames.old) (vec_capacity search.old))
        (ground (N.is_taken nodes.new) (N.is_plain nodes.new) (N.next nodes.new) (N.slots nodes.new)
        (M.roots names.new) (M.count names.new) (M.limit names.new) (vec_capacity frames.new)
        (vec_capacity search.new)) }
    ensures over { M.over names.new ≡ M.over names.old }
{
    free_part(nodes, names, frames, search, link, steps);
    match given {
        Given::Gave(outcome) => become_ready(nodes, chain, outcome),
        Given::Took(root) => {
            give_place(nodes, names, chain, root);
            listen(nodes, root);
            drop_plain(nodes, names, chain, steps);
        }
    }
}
