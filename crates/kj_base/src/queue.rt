//! The event queue.
ghost use Rattle.std.specs.Prelude.{◌≡◌, ◌<◌, ℕ};
ghost use Rattle.kj_base.specs.Queue.{Events, first_armed, next_armed, last_armed, disarmed, head_of, taken, rewound};

/// Events in the order in which they fire, with two insertion points. No call takes memory.
pub trait Queue {
    /// The events in order, with the two insertion points.
    ghost events: { Self → Events };

    /// Events are below it; no call changes it.
    ghost size: { Self → ℕ };

    /// Depth first: at the first point, and both points rise. Nothing changes where the event
    /// stands there already.
    fn arm_first(&mut self, event: u32)
        requires { event < size self.old }
        ensures armed { events self.new ≡ first_armed event (events self.old) }
        ensures size { size self.new ≡ size self.old };

    /// Breadth first: at the second point, which rises.
    fn arm_next(&mut self, event: u32)
        requires { event < size self.old }
        ensures armed { events self.new ≡ next_armed event (events self.old) }
        ensures size { size self.new ≡ size self.old };

    /// Last: at the second point, which stays.
    fn arm_last(&mut self, event: u32)
        requires { event < size self.old }
        ensures armed { events self.new ≡ last_armed event (events self.old) }
        ensures size { size self.new ≡ size self.old };

    /// Takes an event out, if it is there; each point behind its place falls by 1.
    fn disarm(&mut self, event: u32)
        requires { event < size self.old }
        ensures disarmed { events self.new ≡ disarmed event (events self.old) }
        ensures size { size self.new ≡ size self.old };

    /// Takes the first event out; none exactly where the queue is empty.
    fn take(&mut self) -> Option<u32>
        ensures head { result ≡ head_of (events self.old) }
        ensures taken { events self.new ≡ taken (events self.old) }
        ensures size { size self.new ≡ size self.old };

    /// The first point goes to the front.
    fn rewind(&mut self)
        ensures rewound { events self.new ≡ rewound (events self.old) }
        ensures size { size self.new ≡ size self.old };
}

/// Arms two events last and takes one: the one that was armed later comes first where the queue was
/// empty.
pub fn take_after_two_last<Q: Queue>(queue: &mut Q, first: u32, second: u32) -> Option<u32>
    requires first_in { first < Q.size queue.old }
    requires second_in { second < Q.size queue.old }
    ensures head { result ≡ head_of (last_armed second (last_armed first (Q.events queue.old))) }
    ensures rest { Q.events queue.new ≡ taken (last_armed second
        (last_armed first (Q.events queue.old))) }
{
    queue.arm_last(first);
    queue.arm_last(second);
    queue.take()
}
