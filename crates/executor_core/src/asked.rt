//! The requests that were asked to end, the least first.
ghost use Rattle.std.specs.Prelude.{◌≡◌, ◌+◌, ◌<◌, ◌≤◌, ◌∷◌, ℕ, List, [], length, IfOk, IfSome, IfNone, Some, None};
ghost use Rattle.std.specs.List.Sorted.{IsPermutation};
ghost use Rattle.std.specs.BinaryHeap.{heap_len, heap_capacity};
ghost use Rattle.executor_core.specs.Acts.{least, is_canceling};
ghost use Rattle.executor_core.specs.Asks.{Asks, Ordered, IsLeastOf, numbers};
ghost use Rattle.executor_core.specs.declared.request.Request.{Request};

use crate::request::Request;
use kj_base::NoMemory;
use std::alloc::Global;
use std::cmp::Reverse;
use std::collections::BinaryHeap;

// Numbers of requests, each entered once, when its end was asked. One that is not to be told any more stays until it comes
// first.
#[derive(Drop)]
pub(crate) struct Asked {
    pub(crate) heap: BinaryHeap<Reverse<usize>>,
}

impl Asked {
    // Empty. It makes the room for so many numbers.
    pub(crate) fn new(alloc: Global, limit: usize) -> Result<Asked, NoMemory>
        ensures numbers { IfOk result (λ a. numbers a ≡ []) }
        ensures ordered { IfOk result (λ a. Ordered a) }
        ensures room { IfOk result (λ a. (heap_len a.heap ≡ 0) × (heap_capacity a.heap ≡ limit)) }
    {
        Ok(Asked {
            heap: BinaryHeap::with_capacity(alloc, limit)?,
        })
    }

    // Adds a number.
    pub(crate) fn push(&mut self, at: usize)
        requires { heap_len self.old.heap < heap_capacity self.old.heap }
        ensures numbers { IsPermutation (at ∷ numbers self.old) (numbers self.new) }
        ensures ordered { Ordered self.old → Ordered self.new }
        ensures len { heap_len self.new.heap ≡ heap_len self.old.heap + 1 }
        ensures room { heap_capacity self.old.heap ≤ heap_capacity self.new.heap }
    {
        let _entered = self.heap.push(Reverse(at));
    }

    // The least request that is to be told that it is to end. What comes before it is forgotten.
    pub(crate) fn least(&mut self, all: &[Request]) -> Option<usize>
        requires { (limit : ℕ) × Asks limit all.now self.old }
        ensures kept { (limit : ℕ) → Asks limit all.now self.old → Asks limit all.now self.new }
        ensures some { IfSome result (λ r. (least is_canceling all.now ≡ Some r)
            × (r < length all.now)) }
        ensures none { IfNone result (least is_canceling all.now ≡ None) }
    {
        while let Some(at) = self.first() {
            if all[at].is_canceling() {
                return Some(at);
            }
            self.forget_first();
        }
        None
    }

    fn first(&self) -> Option<usize>
        ensures some { IfSome result (λ r. Ordered self.now → IsLeastOf r (numbers self.now)) }
        ensures len { IfSome result (λ _. 0 < heap_len self.now.heap) }
        ensures none { IfNone result (numbers self.now ≡ []) }
    {
        match self.heap.peek() {
            Some(first) => Some(first.0),
            None => None,
        }
    }

    fn forget_first(&mut self)
        requires { 0 < heap_len self.old.heap }
        ensures numbers { (r : ℕ) → Ordered self.old → IsLeastOf r (numbers self.old)
            → IsPermutation (numbers self.old) (r ∷ numbers self.new) }
        ensures ordered { Ordered self.old → Ordered self.new }
        ensures len { heap_len self.new.heap + 1 ≡ heap_len self.old.heap }
        ensures room { heap_capacity self.new.heap ≡ heap_capacity self.old.heap }
    {
        let _first = self.heap.pop();
    }
}
