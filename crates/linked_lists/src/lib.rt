//! Lists that are linked in place, by number: each number below a size stands in one ring, and any of them can
//! be taken as the head of the list of the others. Each call takes constant time and no memory.
#![tactic(auto)]

ghost use Rattle.std.specs.Prelude.{◌≡◌, ◌≢◌, ◌<◌, ◌≤◌, ◌^◌, ◌↔◌, ℕ, [], true, length, slice_get, IfOk, IfSome, IsTrue, nat_eq};
ghost use Rattle.std.specs.List.{IsDistinct};
ghost use Rattle.linked_lists.specs.Lists.{members, is_in, member_behind, IsUnlisted, PutsBefore, PutsBehind, KeepsOtherLists, TakesOut, next_of, previous_of, redirected};

use kj_base::NoMemory;
use std::alloc::Global;
use std::marker::Model;

#[cfg(test)]
mod tests;

// The neighbours of a number in its ring.
#[derive(Clone, Copy)]
struct Link {
    next: u32,
    previous: u32,
}

/// Lists of numbers below a size, none of them in two lists or twice in one. A number that is in no list is the
/// head of its own: its members are the numbers behind it, in order.
#[derive(Drop)]
pub struct LinkedLists {
    links: Vec<Link>,
}

impl Model for LinkedLists {
    ghost use Rattle.std.specs.Prelude.{List, ℕ};

    ghost Value = { List (List ℕ) };

    ghost use Rattle.linked_lists.specs.Lists.{view_of, IsKept};

    ghost view = { view_of };

    ghost invariant = { IsKept };
}

impl LinkedLists {
    /// Every number below the size stands alone.
    pub fn new(alloc: Global, size: usize) -> Result<LinkedLists, NoMemory>
        requires { size ≤ 2 ^ 32 }
        ensures alone { IfOk result (λ lists. (head : ℕ) → members lists head ≡ []) }
        ensures size { IfOk result (λ lists. length lists ≡ size) }
    {
        Ok(LinkedLists {
            links: all_alone(alloc, size)?,
        })
    }

    /// Whether a number is in no list and has no members.
    pub fn is_alone(&self, number: u32) -> bool
        requires { number < length self.now }
        ensures alone { IsTrue result ↔ (members self.now number ≡ []) }
        ensures unlisted { IsTrue result → IsUnlisted self.now number }
    {
        self.links[number as usize].next == number
    }

    /// The first member of a list.
    pub fn first(&self, head: u32) -> Option<u32>
        requires { head < length self.now }
        ensures first { result ≡ slice_get (members self.now head) 0 }
        ensures member { IfSome result (λ first. is_in first (members self.now head) ≡ true) }
        ensures below { IfSome result (λ first. first < length self.now) }
    {
        let next = self.links[head as usize].next;
        if next == head { None } else { Some(next) }
    }

    /// The member behind another one.
    pub fn after(&self, head: u32, member: u32) -> Option<u32>
        requires { is_in member (members self.now head) ≡ true }
        ensures after { result ≡ member_behind member (members self.now head) }
        ensures member { IfSome result (λ after. is_in after (members self.now head) ≡ true) }
        ensures below { IfSome result (λ after. after < length self.now) }
        ensures apart { IsDistinct nat_eq (members self.now head) }
    {
        let next = self.links[member as usize].next;
        if next == head { None } else { Some(next) }
    }

    /// A number that stands alone goes directly before a member, or to the end of the list of a head.
    pub fn insert_before(&mut self, place: u32, number: u32)
        requires place { place < length self.old }
        requires number { number < length self.old }
        requires alone { members self.old number ≡ [] }
        requires other { place ≢ number }
        ensures list { PutsBefore self.old self.new place number }
        ensures others { KeepsOtherLists self.old self.new place number }
        ensures size { length self.new ≡ length self.old }
    {
        let previous = self.links[place as usize].previous;
        join(&mut self.links, previous, number);
        join(&mut self.links, number, place);
    }

    /// A number that stands alone goes directly behind a member, or to the front of the list of a head.
    pub fn insert_after(&mut self, place: u32, number: u32)
        requires place { place < length self.old }
        requires number { number < length self.old }
        requires alone { members self.old number ≡ [] }
        requires other { place ≢ number }
        ensures list { PutsBehind self.old self.new place number }
        ensures others { KeepsOtherLists self.old self.new place number }
        ensures size { length self.new ≡ length self.old }
    {
        let next = self.links[place as usize].next;
        self.insert_before(next, number);
    }

    /// A number leaves its list, and stands alone.
    pub fn remove(&mut self, number: u32)
        requires { number < length self.old }
        ensures alone { members self.new number ≡ [] }
        ensures others { TakesOut self.old self.new number }
        ensures size { length self.new ≡ length self.old }
    {
        let link = self.links[number as usize];
        join(&mut self.links, link.previous, link.next);
        join(&mut self.links, number, number);
    }
}

// So many numbers, each alone.
fn all_alone(alloc: Global, size: usize) -> Result<Vec<Link>, NoMemory>
    requires { size ≤ 2 ^ 32 }
    ensures next { IfOk result (λ links. (x : ℕ) → next_of links.items x ≡ x) }
    ensures previous { IfOk result (λ links. (x : ℕ) → previous_of links.items x ≡ x) }
    ensures size { IfOk result (λ links. length links.items ≡ size) }
{
    let mut links = Vec::with_capacity(alloc, size)?;
    for number in 0..size {
        links.push(Link {
            next: number as u32,
            previous: number as u32,
        })?;
    }
    Ok(links)
}

// Two numbers are neighbours.
fn join(links: &mut Vec<Link>, left: u32, right: u32)
    requires left { left < length links.old.items }
    requires right { right < length links.old.items }
    ensures next { (x : ℕ)
        → next_of links.new.items x ≡ redirected left right (next_of links.old.items) x }
    ensures previous { (x : ℕ)
        → previous_of links.new.items x ≡ redirected right left (previous_of links.old.items) x }
    ensures size { length links.new.items ≡ length links.old.items }
{
    links[left as usize].next = right;
    links[right as usize].previous = left;
}
