//! What a value under the lock stands for.
ghost use Rattle.std.specs.Prelude.{◌≡◌, ℕ, List, Option};
ghost use Rattle.count_lock.specs.Ends.{EndLaws};

/// A value stands for a list of entries: the history of its lock.
pub trait Kept {
    type Entry: Drop;

    ghost entries: { Self → List Self.Entry };

    /// The number of the pass that made an entry.
    ghost by: { Self.Entry → ℕ };

    /// What the value of one lock has that no entry changes, as a limit.
    ghost constant: { Self → ℕ };

    /// In a history of a lock with this constant, the place of the entry that ends a word, where one does.
    ghost fin: { ℕ → List Self.Entry → ℕ → Option ℕ };

    fn constant(&self) -> u64
        ensures { result ≡ constant self.now };

    ghost fin_laws: { EndLaws fin };
}
