//! What trees are evaluated on.
ghost use Rattle.std.specs.Prelude.{◌≡◌, ◌≤◌, ℕ, IfOk, None};
ghost use Rattle.kj_base.specs.Queue.{head_of};
ghost use Rattle.kj_model.specs.World.{World};
ghost use Rattle.kj_model.specs.Calls.{rewound_world, taken_world};
ghost use Rattle.kj_model.specs.Fire.{with_firing};
ghost use Rattle.promise_commands.specs.Commands.{command_of};
ghost use Rattle.promise_commands.specs.Refusals.{refusal_of};
ghost use Rattle.promise_nodes.specs.Shown.{link_number};
ghost use Rattle.promise_nodes.specs.Kept.{OnlyRises};
ghost use Rattle.promise_walks.specs.Walks.{Both};
ghost use Rattle.promise_apply.specs.Applying.{DoesCommand};

use crate::keepers::Keepers;
use kj_base::{Link, NoMemory};
use promise_apply::apply;
use promise_commands::{Command, Refused, Steps};
use promise_names::Names;
use promise_nodes::Nodes;
use std::alloc::Global;
use std::marker::Model;

/// The nodes and the names of a loop, ready for walks and steps (kj/async.c++, the graph of an `EventLoop`). It stands
/// for each world that its nodes and its names both stand for.
#[derive(Drop)]
pub struct Ground<N: Nodes + Drop, M: Names + Drop> {
    /// Whoever changes them shows that they stay ready.
    pub keepers: Keepers<N, M>,
}

impl<N: Nodes + Drop, M: Names + Drop> Model for Ground<N, M> {
    ghost use Rattle.std.specs.Prelude.{vec_capacity};
    ghost use Rattle.promise_eval.specs.Ready.{IsReady};
    ghost use Rattle.promise_eval.specs.declared.keepers.Keepers.{Keepers};

    ghost Value = { Keepers N M };

    ghost view = { λ g. g.keepers };

    ghost invariant = { λ g. IsReady (M.roots g.keepers.names) (M.count g.keepers.names)
        (M.limit g.keepers.names) (N.is_taken g.keepers.nodes) (N.next g.keepers.nodes)
        (N.slots g.keepers.nodes) (vec_capacity g.keepers.frames) (vec_capacity g.keepers.search) };
}

impl<N: Nodes + Drop, M: Names + Drop> Ground<N, M> {
    /// Over names of which none promises a tree yet. This takes the memory of the walks.
    pub fn new(alloc: Global, nodes: N, names: M) -> Result<Ground<N, M>, NoMemory>
        requires no_promises { (name : ℕ) → M.roots names name ≡ None }
        requires few { M.count names ≤ M.limit names }
        ensures nodes { IfOk result (λ g. g.nodes ≡ nodes) }
        ensures names { IfOk result (λ g. g.names ≡ names) }
    {
        let depth = nodes.slots() as usize + 1;
        let frames = Vec::with_capacity(alloc, depth)?;
        let search = Vec::with_capacity(alloc, depth)?;
        Ok(Ground {
            keepers: Keepers {
                nodes,
                names,
                frames,
                search,
            },
        })
    }

    /// The nodes.
    pub fn nodes(&self) -> &N
        ensures { result.now ≡ self.now.nodes }
    {
        &self.keepers.nodes
    }

    /// The names.
    pub fn names(&self) -> &M
        ensures { result.now ≡ self.now.names }
    {
        &self.keepers.names
    }

    /// A command is refused, and all is as before; or it has its effect. The steps are told each free, in order.
    pub fn apply<S: Steps>(&mut self, command: &Command, steps: &mut S) -> Result<(), Refused>
        ensures applied { DoesCommand (Both (N.stands self.old.nodes) (M.stands self.old.names))
            (Both (N.stands self.new.nodes) (M.stands self.new.names)) N.rule (refusal_of result)
            (command_of command.now) (S.told steps.old) (S.told steps.new) }
        ensures lacks { S.lacks steps.new ≡ S.lacks steps.old }
        ensures plain { OnlyRises (N.is_plain self.old.nodes) (N.is_plain self.new.nodes) }
        ensures slots { N.slots self.new.nodes ≡ N.slots self.old.nodes }
        ensures limit { M.limit self.new.names ≡ M.limit self.old.names }
        ensures over { M.over self.new.names ≡ M.over self.old.names }
    {
        apply(
            &mut self.keepers.nodes,
            &mut self.keepers.names,
            &mut self.keepers.frames,
            &mut self.keepers.search,
            command,
            steps,
        )
    }

    /// The first event leaves the queue; its node, or number 0 for the wait.
    pub fn take(&mut self) -> Option<Link>
        ensures head { (w : World)
            → N.stands self.old.nodes w
            → link_number result ≡ head_of w.queue }
        ensures stands { (w : World)
            → N.stands self.old.nodes w
            → N.stands self.new.nodes (taken_world w) }
        ensures plain { OnlyRises (N.is_plain self.old.nodes) (N.is_plain self.new.nodes) }
        ensures slots { N.slots self.new.nodes ≡ N.slots self.old.nodes }
        ensures names { self.new.names ≡ self.old.names }
    {
        self.keepers.nodes.take()
    }

    /// The first insertion point of the queue goes to the front.
    pub fn rewind(&mut self)
        ensures stands { (w : World)
            → N.stands self.old.nodes w
            → N.stands self.new.nodes (rewound_world w) }
        ensures plain { OnlyRises (N.is_plain self.old.nodes) (N.is_plain self.new.nodes) }
        ensures slots { N.slots self.new.nodes ≡ N.slots self.old.nodes }
        ensures names { self.new.names ≡ self.old.names }
    {
        self.keepers.nodes.rewind();
    }

    /// This event fires, or none.
    pub fn set_firing(&mut self, firing: Option<Link>)
        ensures stands { (w : World)
            → N.stands self.old.nodes w
            → N.stands self.new.nodes (with_firing (link_number firing) w) }
        ensures plain { OnlyRises (N.is_plain self.old.nodes) (N.is_plain self.new.nodes) }
        ensures slots { N.slots self.new.nodes ≡ N.slots self.old.nodes }
        ensures names { self.new.names ≡ self.old.names }
    {
        self.keepers.nodes.set_firing(firing);
    }
}
