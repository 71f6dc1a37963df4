//! The value of a promise.
ghost use Rattle.std.specs.Prelude.{◌≡◌, ◌<◌, ◌≤◌, [], ◌∷◌, ◌++◌, length, IsTrue, ◌↔◌};

use arrayvec::ArrayVec;
use std::marker::Model;

/// 0 to 16 words of 64 bits; the empty list is the value of a promise that tells nothing but its
/// end.
#[derive(Drop)]
pub struct Words {
    items: ArrayVec<u64, 16>,
}

impl Model for Words {
    ghost use Rattle.std.specs.Prelude.{List, ℕ, length, ◌≤◌};

    ghost Value = { List ℕ };

    ghost view = { λ w. w.items.items };

    ghost invariant = { λ w. length w.items.items ≤ 16 };
}

impl Words {
    pub fn new() -> Self
        ensures { result ≡ [] }
    {
        Words {
            items: ArrayVec::new(),
        }
    }

    /// Puts a word at the end; false where 16 words are there.
    pub fn push(&mut self, word: u64) -> bool
        ensures answer { IsTrue result ↔ (length self.old < 16) }
        ensures pushed { length self.old < 16 → self.new ≡ self.old ++ word ∷ [] }
        ensures full { 16 ≤ length self.old → self.new ≡ self.old }
    {
        self.items.try_push(word).is_ok()
    }

    pub fn as_slice(&self) -> &[u64]
        ensures words { result.now ≡ self.now }
        ensures few { length self.now ≤ 16 }
    {
        self.items.as_slice()
    }

    /// The same words; takes no memory.
    pub fn copy(&self) -> Words
        ensures { result ≡ self.now }
    {
        let mut items = ArrayVec::new();
        let source = self.items.as_slice();
        for word in source {
            items.push(*word);
        }
        Words { items }
    }
}
