//! From numbers to slots.
ghost use Rattle.std.specs.Prelude.{◌≡◌, ◌<◌, ◌≤◌, ◌+◌, ◌++◌, [], ◌∷◌, Bool, true, false, List, ℕ, filter, ◌==◌, vec_len, vec_capacity, nat_lt, slice_index_or, length};
ghost use Rattle.promise_graph.specs.Slots.{IsRising, AreBelow, slot_in, is_current};

/// A number that was given to a node, and the slot of that node. It is stale once the slot has another number.
#[derive(Clone, Copy)]
pub struct Entry {
    pub number: u64,
    pub slot: u32,
}

// How many entries have lower numbers, by bisection.
fn count_below(index: &Vec<Entry>, n: u64) -> usize
    requires { IsRising index.now.items }
    ensures below { AreBelow n index.now.items result }
    ensures bound { result ≤ vec_len index.now }
{
    index.partition_point(
        |entry| -> bool
            ensures { result ≡ nat_lt entry.now.number n }
        { entry.number < n },
    )
}

// The slot that number n was given, in an entry that may be stale.
pub(crate) fn find_in(index: &Vec<Entry>, n: u64) -> Option<u32>
    requires { IsRising index.now.items }
    ensures { result ≡ slot_in n index.now.items }
{
    let place = count_below(index, n);
    if place >= index.len() {
        return None;
    }
    if index[place].number != n {
        return None;
    }
    Some(index[place].slot)
}

// Whether this slot has this number.
pub(crate) fn has_number(numbers: &Vec<u64>, slot: u32, n: u64) -> bool
    ensures { result ≡ (slice_index_or numbers.now.items slot 0 == n) }
{
    match numbers.get(slot as usize) {
        Some(m) => *m == n,
        None => n == 0,
    }
}

// The stale entries go.
pub(crate) fn compact(index: &mut Vec<Entry>, numbers: &Vec<u64>)
    ensures items { index.new.items ≡ filter (is_current numbers.now.items) index.old.items }
    ensures capacity { vec_capacity index.new ≡ vec_capacity index.old }
{
    index.retain(
        |entry| -> bool
            ensures { result ≡ is_current numbers.entry.now.items entry.now }
        { has_number(numbers, entry.slot, entry.number) },
    );
}

// One more entry, for which there is room.
pub(crate) fn add_entry(index: &mut Vec<Entry>, number: u64, slot: u32)
    requires { vec_len index.old < vec_capacity index.old }
    ensures items { index.new.items
        ≡ index.old.items ++ record { number = number; slot = slot } ∷ [] }
    ensures capacity { vec_capacity index.old ≤ vec_capacity index.new }
{
    let _ = index.push(Entry { number, slot });
}
