//! A payload.
ghost use Rattle.std.specs.Prelude.{◌≡◌, [], ◌∷◌};

use kj_base::Sent;

/// Fits its own step, with its one word.
#[derive(Clone, Copy, Drop)]
pub struct Item {
    pub step: u32,
    pub word: u64,
    /// Tells one payload from another.
    pub mark: u64,
}

impl Sent for Item {
    ghost fits = { λ item step words. (step ≡ item.step) × (words ≡ item.word ∷ []) };
}
