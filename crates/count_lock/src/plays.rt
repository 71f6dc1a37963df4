//! What each step tells. These types are for the proofs alone.
ghost use Rattle.count_lock.specs.Rule.{drew, looked, noted, passed, laid, settled, attested, marked_one, loaded, left_half, right_half, joined, spent_view};

use crate::kept::Kept;
use crate::view::View;
use atomic_table::{Join, Play, Split};
use std::marker::PhantomData;

/// A ticket is drawn.
pub struct Draw;

impl<T: Kept> Play<Option<T>, View<T::Entry>> for Draw {
    ghost then = { drew };
}

/// The pass looks whether its ticket is served, and takes the value then.
pub struct Look;

impl<T: Kept> Play<Option<T>, View<T::Entry>> for Look {
    ghost then = { looked T.entries T.constant T.by };
}

/// The entry stands in the history.
pub struct Note;

impl<T: Kept> Play<Option<T>, View<T::Entry>> for Note {
    ghost then = { noted T.entries T.by };
}

/// The turn is passed on.
pub struct PassOn;

impl<T: Kept> Play<Option<T>, View<T::Entry>> for PassOn {
    ghost then = { passed };
}

/// The turn is laid down for good.
pub struct LayDown;

impl<T: Kept> Play<Option<T>, View<T::Entry>> for LayDown {
    ghost then = { laid };
}

/// What another pass had seen is seen.
pub struct Settle;

impl<T: Kept> Play<Option<T>, View<T::Entry>> for Settle {
    ghost then = { settled T.by };
}

/// What the pass has seen is told.
pub struct Attest;

impl<T: Kept> Play<Option<T>, View<T::Entry>> for Attest {
    ghost then = { attested T.by };
}

/// A word is marked as ended.
pub struct MarkOne;

impl<T: Kept> Play<Option<T>, View<T::Entry>> for MarkOne {
    ghost then = { marked_one };
}

/// A word is read.
pub struct Load;

impl<T: Kept> Play<Option<T>, View<T::Entry>> for Load {
    ghost then = { loaded T.fin };
}

/// A pass is split.
pub struct Halves;

impl<E> Split<View<E>> for Halves {
    ghost left = { left_half };

    ghost right = { right_half };
}

/// A pass is joined into another one.
pub struct Both;

impl<E> Join<View<E>> for Both {
    ghost both = { joined };

    ghost spent = { spent_view };
}
