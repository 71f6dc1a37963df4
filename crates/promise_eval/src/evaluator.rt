//! The evaluation of a loop's trees.
ghost use Rattle.std.specs.Prelude.{◌≡◌, ◌≤◌, [], IfOk, is_err, vec_capacity};
ghost use Rattle.kj_base.specs.Counts.{HasLacked};
ghost use Rattle.kj_model.specs.Value.{value, value_link};
ghost use Rattle.promise_nodes.specs.Kept.{OnlyRises};
ghost use Rattle.promise_walks.specs.Walks.{Both};
ghost use Rattle.promise_walks.specs.Values.{Gives, GivesRoot, gave, gave_given};

use crate::ground::Ground;
use kj_base::{Link, NoMemory, NodeId, Outcome};
use promise_commands::Steps;
use promise_names::Names;
use promise_nodes::Nodes;
use promise_walks::{Given, Pending, evaluate, evaluate_link};
use std::alloc::Global;
use std::marker::Model;

/// Evaluates the trees of a loop, by a stack of its own, and keeps the memory that the loop's closing takes.
#[derive(Drop)]
pub struct Evaluator<N: Nodes + Drop, M: Names + Drop> {
    pub ground: Ground<N, M>,
    pending: Vec<Pending>,
    // Empty, with room for the number of each slot's node.
    freed: Vec<NodeId>,
}

impl<N: Nodes + Drop, M: Names + Drop> Model for Evaluator<N, M> {
    ghost use Rattle.std.specs.Prelude.{vec_capacity};
    ghost use Rattle.promise_eval.specs.Ready.{HasMemory};
    ghost use Rattle.promise_eval.specs.declared.keepers.Keepers.{Keepers};

    ghost Value = { Keepers N M };

    ghost view = { λ e. e.ground };

    ghost invariant = { λ e. HasMemory (N.slots e.ground.nodes) (vec_capacity e.pending)
        (vec_capacity e.freed) e.freed.items };
}

impl<N: Nodes + Drop, M: Names + Drop> Evaluator<N, M> {
    /// Over this ground. This takes the memory of the stack, and that of the closing.
    pub fn new(alloc: Global, ground: Ground<N, M>) -> Result<Evaluator<N, M>, NoMemory>
        ensures { IfOk result (λ e. e ≡ ground) }
    {
        let slots = ground.nodes().slots() as usize;
        let pending = Vec::with_capacity(alloc, slots + 1)?;
        let freed = Vec::with_capacity(alloc, slots)?;
        Ok(Evaluator {
            ground,
            pending,
            freed,
        })
    }

    /// The ground, and an empty list that has room for the numbers of as many nodes as there are slots.
    pub fn into_parts(self) -> (Ground<N, M>, Vec<NodeId>)
        ensures ground { result.0 ≡ self }
        ensures empty { result.1.items ≡ [] }
        ensures room { N.slots self.nodes ≤ vec_capacity result.1 }
    {
        (self.ground, self.freed)
    }

    /// The outcome of a ready tree, with the steps that run for it; want of memory where a step found none.
    pub fn evaluate<S: Steps>(&mut self, root: Link, steps: &mut S) -> Result<Outcome, NoMemory>
        ensures gives { Gives (Both (N.stands self.old.nodes) (M.stands self.old.names))
            (Both (N.stands self.new.nodes) (M.stands self.new.names)) N.rule
            (λ setting s. value setting root.number.0 s) gave (S.told steps.old)
            (S.told steps.new) result }
        ensures lacks { HasLacked (is_err result) (S.lacks steps.old) (S.lacks steps.new) }
        ensures plain { OnlyRises (N.is_plain self.old.nodes) (N.is_plain self.new.nodes) }
        ensures slots { N.slots self.new.nodes ≡ N.slots self.old.nodes }
        ensures over { M.over self.new.names ≡ M.over self.old.names }
    {
        evaluate(&mut self.ground, &mut self.pending, root, steps)
    }

    /// What the Then of a Chain gives, with the steps that run for it: an outcome, or the tree of a promise, which left
    /// its name and which nothing owns.
    pub fn evaluate_link<S: Steps>(&mut self, link: Link, steps: &mut S) -> Result<Given, NoMemory>
        ensures gives { Gives (Both (N.stands self.old.nodes) (M.stands self.old.names))
            (Both (N.stands self.new.nodes) (M.stands self.new.names)) N.rule
            (λ setting s. value_link setting link.number.0 s) gave_given (S.told steps.old)
            (S.told steps.new) result }
        ensures lacks { HasLacked (is_err result) (S.lacks steps.old) (S.lacks steps.new) }
        ensures root { GivesRoot (M.roots self.new.names) (N.is_taken self.new.nodes)
            (N.next self.new.nodes) result }
        ensures plain { OnlyRises (N.is_plain self.old.nodes) (N.is_plain self.new.nodes) }
        ensures slots { N.slots self.new.nodes ≡ N.slots self.old.nodes }
        ensures over { M.over self.new.names ≡ M.over self.old.names }
    {
        evaluate_link(&mut self.ground, &mut self.pending, link, steps)
    }
}
