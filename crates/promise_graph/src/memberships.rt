//! Which nodes are members of which list, by slot: the tasks of a set, and the Wraps of a canceler.
ghost use Rattle.std.specs.Prelude.{◌≡◌, ◌<◌, ◌≤◌, ◌++◌, ◌∷◌, ℕ, List, Option, None, Some, Bool, true, IfOk, IfSome, find, drop, slice_get};
ghost use Rattle.kj_base.specs.Queue.{first_of};
ghost use Rattle.kj_base.specs.declared.limits.TheConstants.{MAX_SLOTS};
ghost use Rattle.linked_lists.specs.Lists.{members, is_in};
ghost use Rattle.promise_graph.specs.Memberships.{bucket, list_at, is_list, slots_in, AreListed, HasJoined, HasLeft, HasCleared, AreNone};

use kj_base::{MAX_SLOTS, Name, NoMemory, Slot};
use linked_lists::LinkedLists;
use std::alloc::Global;

/// The members of all lists. The slots of a list stand in the bucket of its name, beside those of lists whose names
/// leave the same remainder; there is one bucket more than slots, so lists under the first names have one each.
#[derive(Drop)]
pub struct Memberships {
    /// The slots of each bucket, the newest first. The buckets are the numbers behind the slots.
    pub links: LinkedLists,
    /// By slot: the list that its node is a member of.
    pub lists: Vec<Option<Name>>,
}

// No members, for so many slots.
pub(crate) fn new_memberships(alloc: Global, slots: u32) -> Result<Memberships, NoMemory>
    requires { slots ≤ MAX_SLOTS }
    ensures { IfOk result (λ x. AreNone x slots) }
{
    let links = LinkedLists::new(alloc, 2 * slots as usize + 1)?;
    match vec![in alloc; None; slots as usize] {
        Ok(lists) => Ok(Memberships { links, lists }),
        Err(_) => Err(NoMemory),
    }
}

// The bucket of a list.
fn bucket(slots: u32, list: Name) -> u32
    requires { slots ≤ MAX_SLOTS }
    ensures { result ≡ bucket slots list.0 }
{
    slots + list.0 % (slots + 1)
}

// The list of a slot, if it is in one.
pub(crate) fn list_at(x: &Memberships, slot: u32) -> Option<Name>
    ensures { result ≡ list_at x.now slot }
{
    match x.lists.get(slot as usize) {
        Some(list) => *list,
        None => None,
    }
}

// Whether a slot is in this list.
pub(crate) fn is_in_list(x: &Memberships, slot: u32, list: Name) -> bool
    ensures { result ≡ is_list list.0 (list_at x.now slot) }
{
    match list_at(x, slot) {
        Some(name) => name.0 == list.0,
        None => false,
    }
}

// A slot that is in no list becomes the newest member of one.
pub(crate) fn join(x: &mut Memberships, slots: u32, slot: Slot, list: Name)
    requires kept { AreListed x.old slots }
    requires few { slots ≤ MAX_SLOTS }
    requires within { slot.0 < slots }
    requires out { list_at x.old slot.0 ≡ None }
    ensures kept { AreListed x.new slots }
    ensures joined { HasJoined x.old x.new slots slot.0 list }
{
    let place = bucket(slots, list);
    if x.links.is_alone(slot.0) {
        x.links.insert_after(place, slot.0);
        x.lists[slot.0 as usize] = Some(list);
    }
}

// A slot leaves its list, if it is in one.
pub(crate) fn leave(x: &mut Memberships, slots: u32, slot: Slot)
    requires kept { AreListed x.old slots }
    requires within { slot.0 < slots }
    ensures kept { AreListed x.new slots }
    ensures left { HasLeft x.old x.new slots slot.0 }
{
    x.links.remove(slot.0);
    x.lists[slot.0 as usize] = None;
}

// The first slot of this list in a bucket, from one of its members on.
fn first_from(x: &Memberships, place: u32, list: Name, start: Option<u32>) -> Option<u32>
    requires { IfSome start (λ s. is_in s (members x.now.links place) ≡ true) }
    ensures { (k : ℕ)
        → start ≡ slice_get (members x.now.links place) k
        → result ≡ find (λ s. is_list list.0 (list_at x.now s))
        (drop k (members x.now.links place)) }
{
    let mut at = start;
    'searching: while let Some(slot) = at {
        if is_in_list(x, slot, list) {
            return Some(slot);
        }
        at = x.links.after(place, slot);
    }
    None
}

// The newest member of a list.
pub(crate) fn newest(x: &Memberships, slots: u32, list: Name) -> Option<u32>
    requires kept { AreListed x.now slots }
    requires few { slots ≤ MAX_SLOTS }
    ensures { result ≡ first_of (slots_in x.now slots list.0) }
{
    let place = bucket(slots, list);
    first_from(x, place, list, x.links.first(place))
}

// The newest of the members that are older than this one.
pub(crate) fn older(x: &Memberships, slots: u32, slot: Slot, list: Name) -> Option<u32>
    requires kept { AreListed x.now slots }
    requires few { slots ≤ MAX_SLOTS }
    requires member { list_at x.now slot.0 ≡ Some list }
    ensures { (front back : List ℕ)
        → slots_in x.now slots list.0 ≡ front ++ slot.0 ∷ back
        → result ≡ first_of back }
{
    let place = bucket(slots, list);
    first_from(x, place, list, x.links.after(place, slot.0))
}

// All members leave a list.
pub(crate) fn clear(x: &mut Memberships, slots: u32, list: Name)
    requires kept { AreListed x.old slots }
    requires few { slots ≤ MAX_SLOTS }
    ensures kept { AreListed x.new slots }
    ensures cleared { HasCleared x.old x.new slots list.0 }
{
    'clearing: while let Some(slot) = newest(x, slots, list) {
        leave(x, slots, Slot(slot));
    }
}
