//! A history.
ghost use Rattle.std.specs.Prelude.{◌≡◌, ◌<◌, ◌≤◌, [], length, slice_get, vec_capacity, Some, IfOk};

use crate::entry::Entry;
use crate::log::Log;
use kj_base::NoMemory;
use std::alloc::Global;
use std::marker::Model;

/// Entries in their order. Contracts see the list.
#[derive(Drop)]
pub struct Entries {
    log: Log,
}

impl Model for Entries {
    ghost use Rattle.std.specs.Prelude.{List};
    ghost use Rattle.executor_core.specs.declared.entry.Entry.{Entry};

    ghost Value = { List Entry };

    ghost view = { λ e. e.log.entries };

    ghost invariant = { λ _. Unit {0} };
}

impl Entries {
    /// Takes no memory.
    pub fn from_log(log: Log) -> Entries
        ensures { result ≡ log.entries }
    {
        Entries { log }
    }

    /// How many there are.
    pub fn len(&self) -> usize
        ensures { result ≡ length self.now }
    {
        self.log.len()
    }

    /// The entry at a place. Takes no memory.
    pub fn at(&self, place: usize) -> Entry
        requires { place < length self.now }
        ensures { slice_get self.now place ≡ Some result }
    {
        self.log.at(place)
    }

    /// The entries in order.
    pub fn to_vec(&self, alloc: Global) -> Result<Vec<Entry>, NoMemory>
        ensures { IfOk result (λ v. v.items ≡ self.now) }
    {
        let mut items = Vec::with_capacity(alloc, self.log.len())?;
        copy_all(&self.log, &mut items);
        Ok(items)
    }
}

// There is room for all.
fn copy_all(log: &Log, items: &mut Vec<Entry>)
    requires empty { items.old.items ≡ [] }
    requires room { length log.now.entries ≤ vec_capacity items.old }
    ensures { items.new.items ≡ log.now.entries }
{
    for place in 0..log.len() {
        items.push_reserved(log.at(place));
    }
}
