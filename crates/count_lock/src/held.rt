//! The value while a pass has the turn.

/// It has to be spent by one of its releases.
pub struct Held<T> {
    pub(crate) value: T,
}

/// The value, while the entry of the pass is in the history and the ends are marked that it makes. It has to be spent by its release.
pub struct Noted<T> {
    pub(crate) value: T,
}
