//! The plain store of nodes over a slab.
#![tactic(auto)]

ghost use Rattle.std.specs.Prelude.{◌≡◌, ◌≢◌, ◌+◌, ◌<◌, ◌≤◌, ℕ, None, Some, IfOk, IfSome, [], true, false, nat_le};
ghost use Rattle.slab.specs.Slab.{get, slab_len, ContainsKey, HasRoomFor};
ghost use Rattle.kj_base.specs.Places.{counts, table_fits};
ghost use Rattle.kj_base.specs.Store.{rows_of, slot_number, KeepsOthers};
ghost use Rattle.node_table.specs.NodeTable.{covered, covered_by, with_node, node_in};

use kj_base::{NoMemory, Node, Row, Slot, Store};
use slab::Slab;
use std::alloc::Global;
use std::marker::Model;

#[cfg(test)]
mod tests;

/// A node, and whether no node was ever placed before it.
#[derive(Drop)]
pub struct Cell {
    node: Node,
    is_bare: bool,
}

/// Nodes in a slab: each list of rows fits where the live nodes and the counts are at most the slots.
/// Each call takes constant time, and `fits` time linear in its rows.
#[derive(Drop)]
pub struct NodeTable {
    cells: Slab<Cell>,
    slots: u32,
}

impl Model for NodeTable {
    ghost use Rattle.node_table.specs.NodeTable.{Table};

    ghost Value = { Table };

    ghost use Rattle.node_table.specs.NodeTable.{view_of, IsKept};

    ghost view = { view_of };

    ghost invariant = { IsKept };
}

impl NodeTable {
    /// A store of so many slots, none of them live.
    pub fn new(alloc: Global, slots: u32) -> Result<NodeTable, NoMemory>
        ensures empty { IfOk result (λ t. t.cells ≡ []) }
        ensures slots { IfOk result (λ t. t.slots ≡ slots) }
    {
        let cells = match Slab::with_capacity(alloc, slots as usize) {
            Ok(cells) => cells,
            Err(_) => return Err(NoMemory),
        };
        // The slab's keys are below its capacity, which is what was asked for.
        if cells.capacity() != slots as usize {
            return Err(NoMemory);
        }
        Ok(NodeTable { cells, slots })
    }
}

// Whether nodes in these rows need at most so many slots.
fn are_within(slots: usize, rows: &[Row]) -> bool
    ensures { result ≡ nat_le (counts (rows_of rows.now)) slots }
{
    let mut left = slots;
    for row in rows {
        let count = row.count as usize;
        if left < count {
            return false;
        }
        left -= count;
    }
    true
}

// A node is placed before this one.
fn cover(cells: &mut Slab<Cell>, key: usize)
    requires { ContainsKey cells.old key }
    ensures cell { get cells.new key ≡ covered (get cells.old key) }
    ensures others { KeepsOthers (get cells.old) (get cells.new) key }
    ensures len { slab_len cells.new ≡ slab_len cells.old }
    ensures capacity { cells.new.capacity ≡ cells.old.capacity }
{
    let cell = &mut cells[key];
    cell.is_bare = false;
}

// The same, where there is one.
fn cover_before(cells: &mut Slab<Cell>, before: Option<Slot>)
    requires { IfSome before (λ slot. ContainsKey cells.old slot.0) }
    ensures cells { (slot : ℕ)
        → get cells.new slot ≡ covered_by (slot_number before) slot (get cells.old slot) }
    ensures len { slab_len cells.new ≡ slab_len cells.old }
    ensures capacity { cells.new.capacity ≡ cells.old.capacity }
{
    match before {
        Some(slot) => cover(cells, slot.0 as usize),
        None => {}
    }
}

fn place_in(cells: &mut Slab<Cell>, before: Option<Slot>, node: Node) -> usize
    requires before { IfSome before (λ slot. ContainsKey cells.old slot.0) }
    requires room { HasRoomFor cells.old 1 }
    ensures was_free { covered_by (slot_number before) result (get cells.old result) ≡ None }
    ensures placed { get cells.new result ≡ Some (record { node = node; is_bare = true }) }
    ensures others { (slot : ℕ) → slot ≢ result
        → get cells.new slot ≡ covered_by (slot_number before) slot (get cells.old slot) }
    ensures len { slab_len cells.new ≡ slab_len cells.old + 1 }
    ensures below { result < cells.old.capacity }
    ensures capacity { cells.new.capacity ≡ cells.old.capacity }
{
    cover_before(cells, before);
    cells.insert_reserved(Cell {
        node,
        is_bare: true,
    })
}

// The node of a live slot is replaced; whether the slot is bare stays.
fn set_in(cells: &mut Slab<Cell>, key: usize, node: Node)
    requires { ContainsKey cells.old key }
    ensures cell { get cells.new key ≡ with_node node (get cells.old key) }
    ensures others { KeepsOthers (get cells.old) (get cells.new) key }
    ensures len { slab_len cells.new ≡ slab_len cells.old }
    ensures capacity { cells.new.capacity ≡ cells.old.capacity }
{
    let cell = &mut cells[key];
    cell.node = node;
}

fn node_in_cell(cells: &Slab<Cell>, key: usize) -> &Node
    requires { ContainsKey cells.now key }
    ensures { node_in (get cells.now key) ≡ Some result.now }
{
    &cells[key].node
}

impl Store for NodeTable {
    ghost use Rattle.node_table.specs.NodeTable.{Table, node_of, bare_at, has_room, Stands};

    ghost slots = { λ t. t.slots };

    ghost node_at = { node_of };

    ghost is_bare = { bare_at };

    ghost stands_before = { λ t slot. None };

    ghost room = { has_room };

    ghost rule = { table_fits };

    ghost stands = { Stands };

    fn fits(&self, rows: &[Row]) -> bool {
        are_within(self.slots as usize - self.cells.len(), rows)
    }

    fn place(&mut self, before: Option<Slot>, node: Node) -> Slot {
        let key = place_in(&mut self.cells, before, node);
        Slot(key as u32)
    }

    fn get(&self, slot: Slot) -> &Node {
        node_in_cell(&self.cells, slot.0 as usize)
    }

    fn set(&mut self, slot: Slot, node: Node) {
        set_in(&mut self.cells, slot.0 as usize, node);
    }

    fn free(&mut self, slot: Slot) {
        self.cells.remove(slot.0 as usize);
    }

    ghost use Rattle.node_table.specs.Laws.{table_live_below, table_bare_live, table_few, table_left_out, table_one_of_two, table_before_bare, table_ruled, table_unplaced, table_renamed};

    ghost live_below = { table_live_below };

    ghost bare_live = { table_bare_live };

    ghost few = { table_few };

    ghost left_out = { table_left_out };

    ghost one_of_two = { table_one_of_two };

    ghost before_bare = { table_before_bare };

    ghost ruled = { table_ruled };

    ghost unplaced = { table_unplaced };

    ghost renamed = { table_renamed };
}
