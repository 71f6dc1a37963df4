//! The queue's part of a turn.
ghost use Rattle.std.specs.Prelude.{◌≡◌};
ghost use Rattle.kj_base.specs.Queue.{head_of};
ghost use Rattle.kj_model.specs.World.{World};
ghost use Rattle.promise_nodes.specs.Shown.{link_number};
ghost use Rattle.promise_nodes.specs.Kept.{OnlyFalls, OnlyRises};
ghost use Rattle.promise_firing.specs.Events.{event_taken, event_ended};

use kj_base::Link;
use promise_nodes::Nodes;

/// The queue is rewound, and its first event is taken and fires; its node, or number 0 for the wait.
pub fn take_event<N: Nodes>(nodes: &mut N) -> Option<Link>
    ensures head { (w : World) → N.stands nodes.old w → link_number result ≡ head_of w.queue }
    ensures stands { (w : World) → N.stands nodes.old w
        → N.stands nodes.new (event_taken (link_number result) w) }
    ensures taken { OnlyFalls (N.is_taken nodes.old) (N.is_taken nodes.new) }
    ensures listed { OnlyFalls (N.is_listed nodes.old) (N.is_listed nodes.new) }
    ensures plain { OnlyRises (N.is_plain nodes.old) (N.is_plain nodes.new) }
    ensures next { N.next nodes.new ≡ N.next nodes.old }
    ensures slots { N.slots nodes.new ≡ N.slots nodes.old }
{
    nodes.rewind();
    let event = nodes.take();
    if event.is_some() {
        nodes.set_firing(event);
    }
    event
}

/// No event fires any more, and the queue is rewound.
pub fn end_event<N: Nodes>(nodes: &mut N)
    ensures stands { (w : World) → N.stands nodes.old w → N.stands nodes.new (event_ended w) }
    ensures taken { OnlyFalls (N.is_taken nodes.old) (N.is_taken nodes.new) }
    ensures listed { OnlyFalls (N.is_listed nodes.old) (N.is_listed nodes.new) }
    ensures plain { OnlyRises (N.is_plain nodes.old) (N.is_plain nodes.new) }
    ensures next { N.next nodes.new ≡ N.next nodes.old }
    ensures slots { N.slots nodes.new ≡ N.slots nodes.old }
{
    nodes.set_firing(None);
    nodes.rewind();
}
