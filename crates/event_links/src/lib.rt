//! The event queue, linked in place by number.
#![tactic(auto)]

ghost use Rattle.std.specs.Prelude.{◌≡◌, ◌==◌, ◌<◌, IfOk, true, if◌then◌else◌};
ghost use Rattle.kj_base.specs.Queue.{no_events, without_place};
ghost use Rattle.linked_lists.specs.Lists.{is_in, place_of};

use kj_base::{NoMemory, Queue};
use linked_lists::LinkedLists;
use std::alloc::Global;
use std::marker::Model;

#[cfg(test)]
mod tests;

/// The events of the queue in a list that is linked in place. Each call takes constant time, whatever is armed.
#[derive(Drop)]
pub struct EventLinks {
    // The head of the queue is the number behind all events.
    lists: LinkedLists,
    // An event armed depth first goes before this one, or to the end where it is the head.
    depth: u32,
    // One armed breadth first or last goes before this one, or to the end where it is the head.
    breadth: u32,
    size: u32,
}

impl Model for EventLinks {
    ghost use Rattle.event_links.specs.EventLinks.{Sized};

    ghost Value = { Sized };

    ghost use Rattle.event_links.specs.EventLinks.{view_of, IsKept};

    ghost view = { view_of };

    ghost invariant = { IsKept };
}

impl EventLinks {
    /// An empty queue for the events below `size`.
    pub fn new(alloc: Global, size: u32) -> Result<EventLinks, NoMemory>
        ensures empty { IfOk result (λ q. q.events ≡ no_events) }
        ensures size { IfOk result (λ q. q.size ≡ size) }
    {
        let lists = LinkedLists::new(alloc, size as usize + 1)?;
        Ok(EventLinks {
            lists,
            depth: size,
            breadth: size,
            size,
        })
    }

    // An event leaves the queue: a point at it goes to the event behind it.
    fn take_out(&mut self, event: u32)
        requires { is_in event self.old.events.list ≡ true }
        ensures events { self.new.events
            ≡ without_place (place_of event self.old.events.list) self.old.events }
        ensures size { self.new.size ≡ self.old.size }
    {
        let behind = self.lists.after(self.size, event).unwrap_or(self.size);
        self.depth = moved(self.depth, event, behind);
        self.breadth = moved(self.breadth, event, behind);
        self.lists.remove(event);
    }
}

// A point, where those at one number go to another.
fn moved(point: u32, from: u32, to: u32) -> u32
    ensures { result ≡ (if point == from then to else point) }
{
    if point == from { to } else { point }
}

impl Queue for EventLinks {
    ghost events = { λ q. q.events };

    ghost size = { λ q. q.size };

    fn arm_first(&mut self, event: u32) {
        if self.lists.is_alone(event) {
            self.lists.insert_before(self.depth, event);
        }
    }

    fn arm_next(&mut self, event: u32) {
        if self.lists.is_alone(event) {
            self.lists.insert_before(self.breadth, event);
            self.depth = moved(self.depth, self.breadth, event);
        }
    }

    fn arm_last(&mut self, event: u32) {
        if self.lists.is_alone(event) {
            self.lists.insert_before(self.breadth, event);
            self.depth = moved(self.depth, self.breadth, event);
            self.breadth = event;
        }
    }

    fn disarm(&mut self, event: u32) {
        if !self.lists.is_alone(event) {
            self.take_out(event);
        }
    }

    fn take(&mut self) -> Option<u32> {
        let Some(event) = self.lists.first(self.size) else {
            return None;
        };
        self.take_out(event);
        Some(event)
    }

    fn rewind(&mut self) {
        self.depth = self.lists.first(self.size).unwrap_or(self.size);
    }
}
