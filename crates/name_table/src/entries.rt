//! Names with what they hold, by rising name.
ghost use Rattle.std.specs.Prelude.{◌≡◌, ◌<◌, ◌≤◌, ◌+◌, ℕ, IsSome, nat_lt, map, insert, slice_get, vec_len, vec_capacity};
ghost use Rattle.name_table.specs.Entries.{IsRising, held_in, without_entry, entered, rank, is_name_at, held_if, held_replaced, entry_replaced, awaited_replaced, held_regrouped, entries_regrouped};

use kj_base::{Link, Name};
use promise_names::{Awaited, Held};

/// A name with what it holds.
#[derive(Clone, Copy, Debug, PartialEq, Eq)]
pub struct Entry {
    pub name: Name,
    pub held: Held,
}

// The place of a name, or the place where it goes.
fn place_of(entries: &Vec<Entry>, name: Name) -> usize
    requires { IsRising entries.now.items }
    ensures place { result ≡ rank name.0 entries.now.items }
    ensures within { result ≤ vec_len entries.now }
{
    entries.partition_point(
        |entry| -> bool
            ensures { result ≡ nat_lt entry.now.name.0 name.0 }
        { entry.name.0 < name.0 },
    )
}

fn is_at(entries: &Vec<Entry>, place: usize, name: Name) -> bool
    ensures { result ≡ is_name_at name.0 entries.now.items place }
{
    match entries.get(place) {
        Some(entry) => entry.name.0 == name.0,
        None => false,
    }
}

// There is room, so the insertion takes no memory.
fn insert_at(entries: &mut Vec<Entry>, place: usize, entry: Entry)
    requires place { place ≤ vec_len entries.old }
    requires room { vec_len entries.old < vec_capacity entries.old }
    ensures items { entries.new.items ≡ insert entries.old.items place entry }
    ensures capacity { vec_capacity entries.old ≤ vec_capacity entries.new }
{
    let _ = entries.insert(place, entry);
}

fn held_at(entries: &Vec<Entry>, place: usize, name: Name) -> Option<Held>
    ensures { result ≡ held_if name.0 (slice_get entries.now.items place) }
{
    match entries.get(place) {
        Some(entry) if entry.name.0 == name.0 => Some(entry.held),
        _ => None,
    }
}

pub(crate) fn held_of(entries: &Vec<Entry>, name: Name) -> Option<Held>
    requires { IsRising entries.now.items }
    ensures { result ≡ held_in name.0 entries.now.items }
{
    held_at(entries, place_of(entries, name), name)
}

pub(crate) fn put(entries: &mut Vec<Entry>, entry: Entry)
    requires rising { IsRising entries.old.items }
    requires room { vec_len entries.old < vec_capacity entries.old }
    ensures items { entries.new.items ≡ entered entry entries.old.items }
    ensures few { vec_len entries.new ≤ vec_len entries.old + 1 }
    ensures capacity { vec_capacity entries.old ≤ vec_capacity entries.new }
{
    let place = place_of(entries, entry.name);
    if is_at(entries, place, entry.name) {
        entries[place] = entry;
    } else {
        insert_at(entries, place, entry);
    }
}

pub(crate) fn take(entries: &mut Vec<Entry>, name: Name)
    requires { IsRising entries.old.items }
    ensures items { entries.new.items ≡ without_entry name.0 entries.old.items }
    ensures gone { IsSome (held_in name.0 entries.old.items)
        → vec_len entries.new + 1 ≡ vec_len entries.old }
    ensures few { vec_len entries.new ≤ vec_len entries.old }
    ensures capacity { vec_capacity entries.new ≡ vec_capacity entries.old }
{
    let place = place_of(entries, name);
    if is_at(entries, place, name) {
        entries.remove(place);
    }
}

/// What a name holds, where a tree was replaced.
pub fn held_after(held: Held, old: Link, new: Link) -> Held
    ensures { result ≡ held_replaced old.number.0 new held }
{
    match held {
        Held::Promise(root) if root.number.0 == old.number.0 => Held::Promise(new),
        other => other,
    }
}

/// The promise that is awaited, where a tree was replaced.
pub fn awaited_after(awaited: Option<Awaited>, old: Link, new: Link) -> Option<Awaited>
    ensures { result ≡ awaited_replaced old.number.0 new awaited }
{
    match awaited {
        Some(promise) if promise.root.number.0 == old.number.0 => Some(Awaited {
            name: promise.name,
            root: new,
        }),
        other => other,
    }
}

pub(crate) fn replace(entries: &mut Vec<Entry>, old: Link, new: Link)
    ensures items { entries.new.items ≡ map (entry_replaced old.number.0 new) entries.old.items }
    ensures capacity { vec_capacity entries.new ≡ vec_capacity entries.old }
{
    for entry in entries.iter_mut() {
        entry.held = held_after(entry.held, old, new);
    }
}

/// What a name holds, where a set has so many tasks now, and this cell waits until it is empty.
pub fn held_with_tasks(held: Held, tasks: u64, empty: Option<Link>) -> Held
    ensures { result ≡ held_regrouped tasks empty held }
{
    match held {
        Held::Group { error, .. } => Held::Group {
            error,
            tasks,
            empty,
        },
        other => other,
    }
}

// The set stays in its place.
pub(crate) fn regroup(entries: &mut Vec<Entry>, group: Name, tasks: u64, empty: Option<Link>)
    requires { IsRising entries.old.items }
    ensures items { entries.new.items
        ≡ entries_regrouped (held_in group.0 entries.old.items) group tasks empty
        entries.old.items }
    ensures count { vec_len entries.new ≡ vec_len entries.old }
    ensures capacity { vec_capacity entries.new ≡ vec_capacity entries.old }
{
    let place = place_of(entries, group);
    if let Some(held) = held_at(entries, place, group) {
        entries[place] = Entry {
            name: group,
            held: held_with_tasks(held, tasks, empty),
        };
    }
}
