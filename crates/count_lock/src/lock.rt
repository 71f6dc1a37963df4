//! The lock.
ghost use Rattle.std.specs.Prelude.{◌≡◌, ◌+◌};

use crate::bell::Bells;
use crate::kept::Kept;
use crate::view::{Key, Rule, View};
use atomic_table::Table;
use std::alloc::Global;

/// A ticket lock round a value that stands for a list of entries.
/// Word 0 counts the tickets drawn, word 1 those served and word 2 the entries; the caller's words follow.
#[derive(Drop)]
pub struct CountLock<T: Kept> {
    pub(crate) table: Table<Option<T>, View<T::Entry>, Key, Rule<T>, Global>,
    pub(crate) bells: Bells,
    pub ghost sized: { (table.shared.table_id.words ≡ table.shared.key.words + 3)
        × (table.shared.table_id.slots ≡ 1) },
}
