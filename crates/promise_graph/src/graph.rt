//! The graph.
ghost use Rattle.std.specs.Prelude.{◌≡◌, ◌<◌, ◌≤◌, ◌+◌, ℕ, [], IfOk, None};
ghost use Rattle.kj_base.specs.Queue.{no_events};
ghost use Rattle.kj_base.specs.declared.numbers.Limits.{Limits};
ghost use Rattle.kj_model.specs.World.{new_world};
ghost use Rattle.promise_graph.specs.Standing.{StandsFor};

use crate::fields::Fields;
use crate::making::new_marks;
use crate::memberships::{Memberships, new_memberships};
use crate::visits::{Visits, new_visits};
use kj_base::{Limits, MAX_SLOTS, NoMemory, Queue, Store};
use std::alloc::Global;
use std::marker::Model;

/// The nodes of a promise graph in the slots of a store, with their event queue.
#[derive(Drop)]
pub struct Graph<St: Store + Drop, Q: Queue + Drop> {
    pub(crate) fields: Fields<St, Q>,
    pub(crate) visits: Visits,
    pub(crate) memberships: Memberships,
}

impl<St: Store + Drop, Q: Queue + Drop> Model for Graph<St, Q> {
    ghost use Rattle.promise_graph.specs.Visits.{AreVisits, Whole, whole};

    ghost Value = { Whole St Q };

    ghost use Rattle.promise_graph.specs.Kept.{IsKept};
    ghost use Rattle.promise_graph.specs.Memberships.{AreListed};

    ghost view = { λ a. whole a.fields a.visits a.memberships };

    ghost invariant = { λ a. IsKept (St.node_at a.fields.store) (St.is_bare a.fields.store)
        (Q.events a.fields.queue) (St.slots a.fields.store) (Q.size a.fields.queue) a.fields.marks
        × AreVisits a.visits a.fields.marks.slots × AreListed a.memberships a.fields.marks.slots };
}

impl<St: Store + Drop, Q: Queue + Drop> Graph<St, Q> {
    /// Over a store and a queue that are new, for a loop with these limits. This takes all memory.
    pub fn new(alloc: Global, limits: Limits, store: St, queue: Q) -> Result<Graph<St, Q>, NoMemory>
        requires few { limits.slots ≤ MAX_SLOTS }
        requires store { St.slots store ≡ limits.slots }
        requires size { Q.size queue ≡ limits.slots + 1 }
        requires no_nodes { (s : ℕ) → St.node_at store s ≡ None }
        requires no_events { Q.events queue ≡ no_events }
        requires no_spots { St.stands store [] }
        ensures stands { IfOk result (λ g. (all : Limits) → all.slots ≡ limits.slots → StandsFor
            (St.node_at g.store) (Q.events g.queue) (St.stands g.store) g.marks g.memberships
            (new_world all)) }
        ensures slots { IfOk result (λ g. g.marks.slots ≡ limits.slots) }
    {
        let marks = new_marks(alloc, limits.slots)?;
        let visits = new_visits(alloc, limits.slots)?;
        let memberships = new_memberships(alloc, limits.slots)?;
        Ok(Graph {
            fields: Fields {
                store,
                queue,
                marks,
            },
            visits,
            memberships,
        })
    }
}
