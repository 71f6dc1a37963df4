//! Who made something, for clauses.
ghost use Rattle.std.specs.Prelude.{◌≡◌, ℕ};
ghost use base.Fml.{ftrue};
ghost use Rattle.atomic_table.specs.Seated.{TableId, table_id_coded};

use atomic_table::Seat;
use std::marker::{Model, PhantomData};

/// Names a lock and the number of one of its passes. It has no bytes.
pub struct Owner {
    marker: PhantomData<()>,
    pub ghost table_id: { TableId } by { table_id_coded },
    pub ghost number: { ℕ },
}

impl Model for Owner {
    ghost also_owns = { λ _. ftrue };
}

impl Owner {
    pub(crate) fn of<S, V>(_seat: &Seat<S, V>, _number: u64) -> Owner
        ensures { (result.table_id ≡ _seat.now.table_id) × (result.number ≡ _number) }
    {
        Owner {
            marker: PhantomData,
        }
    }
}

impl Drop for Owner {
    fn drop(self) {
        let Self { marker: _ } = self;
    }
}
