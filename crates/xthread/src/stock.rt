//! What goes in and out of the places of the requests.
ghost use Rattle.std.specs.Prelude.{◌≡◌, ◌<◌, ◌⊎◌, length, slice_get, slice_set, Some, vec_capacity};
ghost use Rattle.xthread.specs.declared.place.Place.TheVariants.{Waiting, Away, Finished};
ghost use Rattle.xthread.specs.Stock.{IsBack};

use crate::answers::Back;
use crate::place::Place;
use std::mem;

// The payload that waits there.
pub(crate) fn take_payload<P, R>(places: &mut Vec<Place<P, R>>, request: u32) -> P
    requires { (p : P) × (slice_get places.old.items request ≡ Some (Waiting p)) }
    ensures payload { slice_get places.old.items request ≡ Some (Waiting result) }
    ensures rest { places.new.items ≡ slice_set places.old.items request Away }
    ensures room { vec_capacity places.new ≡ vec_capacity places.old }
{
    match mem::replace(&mut places[request as usize], Place::Away) {
        Place::Waiting(payload) => payload,
        _ => unreachable!(),
    }
}

// The payload or the result that is there.
pub(crate) fn take_back<P, R>(places: &mut Vec<Place<P, R>>, request: u32) -> Back<P, R>
    requires { ((p : P) × (slice_get places.old.items request ≡ Some (Waiting p)))
        ⊎ ((r : R) × (slice_get places.old.items request ≡ Some (Finished r))) }
    ensures back { IsBack (slice_get places.old.items request) result }
    ensures rest { places.new.items ≡ slice_set places.old.items request Away }
    ensures room { vec_capacity places.new ≡ vec_capacity places.old }
{
    match mem::replace(&mut places[request as usize], Place::Away) {
        Place::Waiting(payload) => Back::Unstarted(payload),
        Place::Finished(result) => Back::Ran(result),
        Place::Away => unreachable!(),
    }
}
