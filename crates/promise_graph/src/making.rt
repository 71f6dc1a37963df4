//! New marks.
ghost use Rattle.std.specs.Prelude.{◌≡◌, ◌<◌, ◌≤◌, ◌+◌, ℕ, [], IfOk, None, replicate, length, slice_index_or};
ghost use Rattle.promise_graph.specs.Kept.{nobody};
ghost use Rattle.promise_graph.specs.New.{AreNew, AreSlots};

use crate::fields::{Marks, Rings};
use kj_base::{Link, MAX_SLOTS, NoMemory, NodeId, Slot};
use std::alloc::Global;

// No node.
pub(crate) fn nobody() -> Link
    ensures { result ≡ nobody }
{
    Link {
        slot: Slot(0),
        number: NodeId(0),
    }
}

fn zeros(alloc: Global, count: usize) -> Result<Vec<u64>, NoMemory>
    ensures { IfOk result (λ v. v.items ≡ replicate count 0) }
{
    match vec![in alloc; 0u64; count] {
        Ok(zeros) => Ok(zeros),
        Err(_) => Err(NoMemory),
    }
}

fn nobodies(alloc: Global, count: usize) -> Result<Vec<Link>, NoMemory>
    ensures { IfOk result (λ v. v.items ≡ replicate count nobody) }
{
    match vec![in alloc; nobody(); count] {
        Ok(owners) => Ok(owners),
        Err(_) => Err(NoMemory),
    }
}

// Each slot at its own place.
fn slots(alloc: Global, count: u32) -> Result<Vec<u32>, NoMemory>
    ensures { IfOk result (λ v. AreSlots v.items count) }
{
    let mut slots = match Vec::with_capacity(alloc, count as usize) {
        Ok(slots) => slots,
        Err(_) => return Err(NoMemory),
    };
    'counting: for slot in 0..count {
        if slots.push(slot).is_err() {
            return Err(NoMemory);
        }
    }
    Ok(slots)
}

fn rings(alloc: Global, count: u32) -> Result<Rings, NoMemory>
    ensures nexts { IfOk result (λ r. AreSlots r.nexts.items count) }
    ensures prevs { IfOk result (λ r. AreSlots r.prevs.items count) }
{
    let nexts = match slots(alloc, count) {
        Ok(nexts) => nexts,
        Err(none) => return Err(none),
    };
    let prevs = match slots(alloc, count) {
        Ok(prevs) => prevs,
        Err(none) => return Err(none),
    };
    Ok(Rings { nexts, prevs })
}

// The marks of so many empty slots.
pub(crate) fn new_marks(alloc: Global, count: u32) -> Result<Marks, NoMemory>
    requires { count ≤ MAX_SLOTS }
    ensures { IfOk result (λ m. AreNew m count) }
{
    let index = match Vec::with_capacity(alloc, 2 * count as usize + 1) {
        Ok(index) => index,
        Err(_) => return Err(NoMemory),
    };
    let numbers = match zeros(alloc, count as usize) {
        Ok(numbers) => numbers,
        Err(none) => return Err(none),
    };
    let owners = match nobodies(alloc, count as usize) {
        Ok(owners) => owners,
        Err(none) => return Err(none),
    };
    let branches = rings(alloc, count)?;
    let tasks = rings(alloc, count + 1)?;
    let hubs = rings(alloc, count + 1)?;
    Ok(Marks {
        numbers,
        owners,
        rings: branches,
        tasks,
        hubs,
        index,
        firing: None,
        awaited: None,
        next: 1,
        slots: count,
    })
}
