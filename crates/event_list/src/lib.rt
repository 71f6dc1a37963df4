//! The event queue over a vector.
#![tactic(auto)]

ghost use Rattle.std.specs.Prelude.{◌≡◌, ◌<◌, ◌≤◌, IfOk, IfSome, IsTrue, length, vec_len, vec_capacity, insert, slice_get, Some, ◌==◌, position};
ghost use Rattle.std.specs.List.{list_any};
ghost use Rattle.kj_base.specs.Queue.{no_events, falls, without_place};

use kj_base::{NoMemory, Queue};
use std::alloc::Global;
use std::marker::Model;

#[cfg(test)]
mod tests;

/// The events in a vector, in order. Each call takes time linear in the armed events at most, whatever the size is.
#[derive(Drop)]
pub struct EventList {
    events: Vec<u32>,
    // Where an event armed depth first goes.
    depth: usize,
    // Where one armed breadth first or last goes.
    breadth: usize,
    size: u32,
}

impl Model for EventList {
    ghost use Rattle.event_list.specs.EventList.{Sized};

    ghost Value = { Sized };

    ghost use Rattle.event_list.specs.EventList.{view_of, IsKept};

    ghost view = { view_of };

    ghost invariant = { IsKept };
}

impl EventList {
    /// An empty queue for the events below `size`, with room for all of them.
    pub fn new(alloc: Global, size: u32) -> Result<EventList, NoMemory>
        ensures empty { IfOk result (λ q. q.events ≡ no_events) }
        ensures size { IfOk result (λ q. q.size ≡ size) }
    {
        let events = match Vec::with_capacity(alloc, size as usize) {
            Ok(events) => events,
            Err(_) => return Err(NoMemory),
        };
        Ok(EventList {
            events,
            depth: 0,
            breadth: 0,
            size,
        })
    }

    fn take_out(&mut self, place: usize) -> u32
        requires { place < length self.old.events.list }
        ensures event { slice_get self.old.events.list place ≡ Some result }
        ensures events { self.new.events ≡ without_place place self.old.events }
        ensures size { self.new.size ≡ self.old.size }
    {
        let event = self.events.remove(place);
        self.depth = lowered(place, self.depth);
        self.breadth = lowered(place, self.breadth);
        event
    }
}

// A point behind the place that was taken out falls by 1.
fn lowered(place: usize, point: usize) -> usize
    ensures { result ≡ falls place point }
{
    if place < point { point - 1 } else { point }
}

fn place_of(events: &Vec<u32>, event: u32) -> Option<usize>
    ensures place { result ≡ position (λ x. x == event) events.now.items }
    ensures within { IfSome result (λ place. place < length events.now.items) }
{
    events.iter().position(|x| *x == event)
}

fn contains(events: &Vec<u32>, event: u32) -> bool
    ensures { result ≡ list_any (λ x. x == event) events.now.items }
{
    events.iter().any(|x| *x == event)
}

// There is room, so the insertion takes no memory.
fn insert_at(events: &mut Vec<u32>, place: usize, event: u32)
    requires place { place ≤ vec_len events.old }
    requires room { vec_len events.old < vec_capacity events.old }
    ensures items { events.new.items ≡ insert events.old.items place event }
    ensures capacity { vec_capacity events.old ≤ vec_capacity events.new }
{
    let _ = events.insert(place, event);
}

impl Queue for EventList {
    ghost events = { λ q. q.events };

    ghost size = { λ q. q.size };

    fn arm_first(&mut self, event: u32) {
        if !contains(&self.events, event) {
            let place = self.depth;
            insert_at(&mut self.events, place, event);
            self.depth += 1;
            self.breadth += 1;
        }
    }

    fn arm_next(&mut self, event: u32) {
        if !contains(&self.events, event) {
            let place = self.breadth;
            insert_at(&mut self.events, place, event);
            self.breadth = place + 1;
        }
    }

    fn arm_last(&mut self, event: u32) {
        if !contains(&self.events, event) {
            let back = self.breadth;
            insert_at(&mut self.events, back, event);
        }
    }

    fn disarm(&mut self, event: u32) {
        if let Some(place) = place_of(&self.events, event) {
            self.take_out(place);
        }
    }

    fn take(&mut self) -> Option<u32> {
        if self.events.is_empty() {
            return None;
        }
        Some(self.take_out(0))
    }

    fn rewind(&mut self) {
        self.depth = 0;
    }
}
