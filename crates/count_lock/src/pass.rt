//! A caller's view of one lock.
ghost use Rattle.std.specs.Prelude.{◌≡◌, ◌<◌, ◌≤◌};

use crate::kept::Kept;
use crate::view::View;
use atomic_table::Seat;
use thiserror::Error;

/// It has a number, which its entries carry, and a range of spare numbers, which no entry carries.
pub struct Pass<T: Kept> {
    pub(crate) number: u32,
    pub(crate) from: u64,
    pub(crate) until: u64,
    pub(crate) seat: Seat<Option<T>, View<T::Entry>>,
    pub ghost ranged: { (from ≤ until) × (until ≤ 4294967296) × (number < from) },
    pub ghost number_is: { seat.me.0.number ≡ number },
    pub ghost from_is: { seat.me.0.from ≡ from },
    pub ghost until_is: { seat.me.0.until ≡ until },
}

/// Why a pass was not split.
#[derive(Clone, Copy, Debug, PartialEq, Eq, Error)]
pub enum SplitRefused {
    /// The pass has no spare number.
    #[error("no spare number is left")]
    Numbers,
}

impl<T: Kept> Drop for Pass<T> {
    fn drop(self) {
        let Self {
            number: _,
            from: _,
            until: _,
            seat: _,
        } = self;
    }
}

impl<T: Kept> Pass<T> {
    pub(crate) fn into_seat(self) -> Seat<Option<T>, View<T::Entry>>
        ensures { result ≡ self.seat }
    {
        let Self {
            number: _,
            from: _,
            until: _,
            seat,
        } = self;
        seat
    }
}
