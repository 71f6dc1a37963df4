//! What walks note at the nodes, by slot.
ghost use Rattle.std.specs.Prelude.{◌≡◌, ◌<◌, Option, IfOk};
ghost use Rattle.kj_base.specs.Store.{slot_number};
ghost use Rattle.promise_graph.specs.Visits.{AreVisits, AreForgotten, IsNoted, mark_at, never};

use kj_base::{NoMemory, Slot};
use promise_nodes::Mark;
use std::alloc::Global;

/// The mark of a slot, which counts only in the epoch in which it was made.
#[derive(Clone, Copy)]
pub struct Visit {
    pub epoch: u32,
    pub mark: Mark,
}

/// The marks by slot, and the present epoch. A new epoch makes all of them stale at once.
#[derive(Drop)]
pub struct Visits {
    pub epoch: u32,
    pub by_slot: Vec<Visit>,
}

// What stands at a slot that was never marked.
fn never() -> Visit
    ensures { result ≡ never }
{
    Visit {
        epoch: 0,
        mark: Mark::Unmarked,
    }
}

// No mark, for so many slots.
pub(crate) fn new_visits(alloc: Global, count: u32) -> Result<Visits, NoMemory>
    ensures { IfOk result (λ v. AreVisits v count) }
{
    match vec![in alloc; never(); count as usize] {
        Ok(by_slot) => Ok(Visits { epoch: 0, by_slot }),
        Err(_) => Err(NoMemory),
    }
}

// All marks are forgotten. Where the epochs come to their end, they begin anew, over slots without marks.
pub(crate) fn forget(visits: &mut Visits, slots: u32)
    requires { AreVisits visits.old slots }
    ensures kept { AreVisits visits.new slots }
    ensures forgotten { AreForgotten visits.new }
{
    if visits.epoch < u32::MAX {
        visits.epoch += 1;
        return;
    }
    visits.by_slot.fill(never());
    visits.epoch = 0;
}

// A slot has this mark.
pub(crate) fn note(visits: &mut Visits, slots: u32, slot: Slot, mark: Mark)
    requires kept { AreVisits visits.old slots }
    requires within { slot.0 < slots }
    ensures kept { AreVisits visits.new slots }
    ensures noted { IsNoted slot.0 mark visits.old visits.new }
{
    let epoch = visits.epoch;
    visits.by_slot[slot.0 as usize] = Visit { epoch, mark };
}

// The mark of a slot, if there is one.
pub(crate) fn mark_at(visits: &Visits, slot: Option<Slot>) -> Mark
    ensures { result ≡ mark_at visits.now (slot_number slot) }
{
    let Some(slot) = slot else {
        return Mark::Unmarked;
    };
    let Some(visit) = visits.by_slot.get(slot.0 as usize) else {
        return Mark::Unmarked;
    };
    if visit.epoch == visits.epoch {
        visit.mark
    } else {
        Mark::Unmarked
    }
}
