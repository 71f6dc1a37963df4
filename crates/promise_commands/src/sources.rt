//! The sources of a join.
ghost use Rattle.std.specs.Prelude.{◌≡◌, ◌<◌, ◌≤◌, ◌↔◌, [], ◌∷◌, ◌++◌, length, IsTrue};

use arrayvec::ArrayVec;
use kj_base::Name;
use std::marker::Model;

/// The most promises that a join has.
pub const MAX_PARTS: usize = 8;

/// 0 to 8 names of promises, in order.
#[derive(Drop)]
pub struct Sources {
    items: ArrayVec<Name, 8>,
}

impl Model for Sources {
    ghost use Rattle.std.specs.Prelude.{List, length, ◌≤◌};
    ghost use Rattle.kj_base.specs.declared.numbers.Name.{Name};

    ghost Value = { List Name };

    ghost view = { λ s. s.items.items };

    ghost invariant = { λ s. length s.items.items ≤ 8 };
}

impl Sources {
    pub fn new() -> Self
        ensures { result ≡ [] }
    {
        Sources {
            items: ArrayVec::new(),
        }
    }

    /// Puts a name at the end; false where eight names are there.
    pub fn push(&mut self, name: Name) -> bool
        ensures answer { IsTrue result ↔ (length self.old < MAX_PARTS) }
        ensures pushed { length self.old < MAX_PARTS → self.new ≡ self.old ++ name ∷ [] }
        ensures full { MAX_PARTS ≤ length self.old → self.new ≡ self.old }
    {
        self.items.try_push(name).is_ok()
    }

    pub fn as_slice(&self) -> &[Name]
        ensures names { result.now ≡ self.now }
        ensures few { length self.now ≤ MAX_PARTS }
    {
        self.items.as_slice()
    }

    /// The same names; takes no memory.
    pub fn copy(&self) -> Sources
        ensures { result ≡ self.now }
    {
        let mut items = ArrayVec::new();
        let source = self.items.as_slice();
        for name in source {
            items.push(*name);
        }
        Sources { items }
    }
}
