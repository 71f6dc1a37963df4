//! Numbers in their order, linked in place.
ghost use Rattle.std.specs.Prelude.{◌≡◌, ◌+◌, ◌<◌, ◌≤◌, ℕ, length, IfOk, IfSome, IfNone};
ghost use Rattle.executor_core.specs.Chains.{Marks, IsChain, Without, With, LinksLeft, LinksRight};

use kj_base::NoMemory;
use std::alloc::Global;

// A set of numbers below a limit. A number above all that came before it is added, and any number goes, in constant time.
#[derive(Drop)]
pub(crate) struct Chain {
    // The least number of the set, or else the bound.
    pub(crate) first: usize,
    // One more than the greatest number of the set, or 0.
    pub(crate) end: usize,
    // All numbers that ever came are below it.
    pub(crate) bound: usize,
    // For each number of the set: one more than the one before it, or 0.
    pub(crate) before: Vec<usize>,
    // For each number of the set: the one after it, or else the bound.
    pub(crate) after: Vec<usize>,
}

impl Chain {
    // Empty. It makes the room for all numbers below the limit.
    pub(crate) fn new(alloc: Global, limit: usize) -> Result<Chain, NoMemory>
        ensures chain { IfOk result (λ c. (w : Marks) → ((k : ℕ) → w k ≡ 0) → IsChain w limit c) }
        ensures bound { IfOk result (λ c. c.bound ≡ 0) }
    {
        Ok(Chain {
            first: 0,
            end: 0,
            bound: 0,
            before: vec![in alloc; 0usize; limit]?,
            after: vec![in alloc; 0usize; limit]?,
        })
    }

    // The least number.
    pub(crate) fn least(&self) -> Option<usize>
        ensures some { IfSome result (λ r. (w : Marks) (limit : ℕ) → IsChain w limit self.now
            → (w r ≡ 1) × (r < limit) × ((k : ℕ) → k < r → w k ≡ 0)) }
        ensures none { IfNone result ((w : Marks) (limit : ℕ) → IsChain w limit self.now → (k : ℕ)
            → w k ≡ 0) }
    {
        if self.first < self.bound {
            Some(self.first)
        } else {
            None
        }
    }

    // Adds a number that is not below the bound.
    pub(crate) fn push(&mut self, at: usize)
        requires room { (self.old.end ≤ self.old.bound) × (self.old.bound ≤ at)
            × (at < length self.old.before.items) × (at < length self.old.after.items) }
        ensures chain { (w v : Marks) (limit : ℕ) → IsChain w limit self.old → With w v at
            → IsChain v limit self.new }
        ensures bound { self.new.bound ≡ at + 1 }
    {
        self.link_left(self.end, at);
        self.before[at] = self.end;
        self.after[at] = at + 1;
        self.end = at + 1;
        self.bound = at + 1;
    }

    // Takes a number out of the set.
    pub(crate) fn remove(&mut self, at: usize)
        requires { (w : Marks) × (limit : ℕ) × IsChain w limit self.old × (w at ≡ 1) }
        ensures chain { (w v : Marks) (limit : ℕ) → IsChain w limit self.old → w at ≡ 1
            → Without w v at → IsChain v limit self.new }
        ensures bound { self.new.bound ≡ self.old.bound }
    {
        let before = self.before[at];
        let after = self.after[at];
        self.link_left(before, after);
        self.link_right(before, after);
    }

    // Takes all numbers out of the set.
    pub(crate) fn clear(&mut self)
        ensures chain { (w v : Marks) (limit : ℕ) → IsChain w limit self.old → ((k : ℕ) → v k ≡ 0)
            → IsChain v limit self.new }
        ensures bound { self.new.bound ≡ self.old.bound }
    {
        self.first = self.bound;
        self.end = 0;
    }

    fn link_left(&mut self, before: usize, after: usize)
        requires { before ≤ length self.old.after.items }
        ensures left { LinksLeft before after self.old.first self.new.first
            self.old.after.items self.new.after.items }
        ensures rest { (self.new.end ≡ self.old.end) × (self.new.bound ≡ self.old.bound)
            × (self.new.before.items ≡ self.old.before.items) }
    {
        if before == 0 {
            self.first = after;
        } else {
            self.after[before - 1] = after;
        }
    }

    fn link_right(&mut self, before: usize, after: usize)
        requires { (after ≤ self.old.bound) × (self.old.bound ≤ length self.old.before.items) }
        ensures right { LinksRight before after self.old.bound self.old.end self.new.end
            self.old.before.items self.new.before.items }
        ensures rest { (self.new.first ≡ self.old.first) × (self.new.bound ≡ self.old.bound)
            × (self.new.after.items ≡ self.old.after.items) }
    {
        if after == self.bound {
            self.end = before;
        } else {
            self.before[after] = before;
        }
    }
}
