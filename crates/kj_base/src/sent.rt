//! What moves between loops.
ghost use Rattle.std.specs.Prelude.{List, ℕ};

/// A payload that is handed from one loop to another with the step and words of its request.
pub trait Sent: Send {
    /// Which step and words a payload fits; a type may allow all.
    ghost fits: { Self → ℕ → List ℕ → Type 0 };
}
