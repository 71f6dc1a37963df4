//! What goes over the requests.
ghost use Rattle.std.specs.Prelude.{◌≡◌, ◌<◌, length, map, vec_capacity};
ghost use Rattle.executor_core.specs.Acts.{set_state, shut};

use crate::request::{Request, State};

// What closing the board does to each request.
pub(crate) fn shut_all(all: &mut Vec<Request>)
    ensures items { all.new.items ≡ map shut all.old.items }
    ensures room { vec_capacity all.new ≡ vec_capacity all.old }
{
    shut_each(all.as_mut_slice());
}

fn shut_each(all: &mut [Request])
    ensures { all.new ≡ map shut all.old }
{
    for q in all.iter_mut() {
        q.shut();
    }
}

// Puts one request into another state.
pub(crate) fn set_state_at(all: &mut Vec<Request>, at: usize, state: State)
    requires { at < length all.old.items }
    ensures items { all.new.items ≡ set_state all.old.items at state }
    ensures room { vec_capacity all.new ≡ vec_capacity all.old }
{
    all[at].state = state;
}
