//! The store of nodes in arenas of eight slots, so that a chain of continuations stands in one piece of memory.
#![tactic(auto)]

ghost use Rattle.std.specs.Prelude.{◌≡◌, ◌≢◌, ◌+◌, ◌*◌, ◌/◌, ◌%◌, ◌^◌, ◌<◌, ◌≤◌, ◌↔◌, ◌++◌, ◌∷◌, ◌&&◌, ℕ, List, None, Some, IfOk, IfSome, IsTrue, IsSome, [], true, false, nat_le, length, slice_get, vec_len, vec_capacity};
ghost use Rattle.std.specs.List.{push, range_with_len};
ghost use Rattle.node_arena.specs.declared.State.TheVariants.{Bare};
ghost use Rattle.kj_base.specs.Store.{rows_of, row_of, slot_number, KeepsOthers};
ghost use Rattle.node_arena.specs.Needs.{beyond_at, needed, places_fit, SameForShortRows};
ghost use Rattle.kj_base.specs.Places.{Spot, Row as RowSeen, arenas_fit, counts, table_fits};
ghost use Rattle.node_arena.specs.Arenas.{live_in, live_at, node_in, place_before_slot, slot_needs, IsUnused, below_slot, IsChosen, in_state, Covers, with_node, Stands, has_node, node_of};

use kj_base::{Form, NoMemory, Node, NodeId, Row, Slot, Store};
use std::alloc::Global;
use std::marker::Model;

#[cfg(test)]
mod tests;

/// How many slots an arena has.
pub const ARENA: u32 = 8;

/// What a slot has.
#[derive(Clone, Copy, Drop)]
pub enum State {
    /// No node.
    Free,
    /// A node before which none was ever placed.
    Bare,
    /// Another node.
    Covered,
}

/// A slot, with its node where it has one.
#[derive(Drop)]
pub struct Cell {
    state: State,
    node: Node,
}

/// Nodes in arenas of eight slots, filled from the last slot down. A node that goes before another one stands in
/// the slot below it where there is one, and else last in a free arena. An arena is free when it has no live slot.
/// Each call takes constant time, and `fits` time linear in its rows.
#[derive(Drop)]
pub struct NodeArena {
    cells: Vec<Cell>,
    // The arenas without a live slot.
    free: Vec<u32>,
    // How many slots are live.
    live: u32,
}

impl Model for NodeArena {
    ghost use Rattle.node_arena.specs.Arenas.{Arenas};

    ghost Value = { Arenas };

    ghost use Rattle.node_arena.specs.Arenas.{view_of, IsKept};

    ghost view = { view_of };

    ghost invariant = { IsKept };
}

impl NodeArena {
    /// A store of so many slots, a multiple of eight, none of them live.
    pub fn new(alloc: Global, slots: u32) -> Result<NodeArena, NoMemory>
        requires { slots % 8 ≡ 0 }
        ensures empty { IfOk result (λ t. Stands t []) }
        ensures no_nodes { IfOk result (λ t. (slot : ℕ) → node_of t slot ≡ None) }
        ensures slots { IfOk result (λ t. length t.cells ≡ slots) }
    {
        let cells = free_cells(alloc, slots as usize)?;
        let free = numbers_below(alloc, slots / ARENA)?;
        Ok(NodeArena {
            cells,
            free,
            live: 0,
        })
    }

    /// Whether an arena is free: exactly when it has no live slot.
    pub fn is_free(&self, arena: u32) -> bool
        requires { arena < length self.now.cells / 8 }
        ensures { IsTrue result ↔ IsUnused self.now.cells arena }
    {
        is_unused(&self.cells, arena as usize)
    }
}

/// Rows of one to eight nodes each fit where the arenas do, and the slots: a row needs one free arena where it goes
/// anew or where it has more nodes than there are slots below the one before which it goes, and else none.
pub fn short_rows_fit()
    ensures { (slots : ℕ) → SameForShortRows (places_fit slots)
        (λ spots rows. arenas_fit slots spots rows && table_fits slots spots rows) }
{}

/// Where rows fit, there are slots for the live nodes and for theirs.
pub fn takes_no_more()
    ensures { (slots : ℕ) (spots : List Spot) (rows : List RowSeen)
        → places_fit slots spots rows ≡ true → length spots + counts rows ≤ slots }
{}

// So many cells without a node.
fn free_cells(alloc: Global, slots: usize) -> Result<Vec<Cell>, NoMemory>
    ensures free { IfOk result (λ cells. (slot : ℕ) → live_at cells.items slot ≡ false) }
    ensures size { IfOk result (λ cells. length cells.items ≡ slots) }
{
    let mut cells = Vec::with_capacity(alloc, slots)?;
    for _ in 0..slots {
        let node = Node {
            number: NodeId(0),
            form: Form::Later,
        };
        cells.push(Cell {
            state: State::Free,
            node,
        })?;
    }
    Ok(cells)
}

// The numbers below the limit, in order.
fn numbers_below(alloc: Global, limit: u32) -> Result<Vec<u32>, NoMemory>
    ensures numbers { IfOk result (λ numbers. numbers.items ≡ range_with_len 0 limit) }
    ensures room { IfOk result (λ numbers. limit ≤ vec_capacity numbers) }
{
    let mut numbers = Vec::with_capacity(alloc, limit as usize)?;
    for number in 0..limit {
        numbers.push(number)?;
    }
    Ok(numbers)
}

fn is_live(cells: &Vec<Cell>, slot: usize) -> bool
    ensures { result ≡ live_at cells.now.items slot }
{
    if slot >= cells.len() {
        return false;
    }
    is_state_live(cells[slot].state)
}

fn is_state_live(state: State) -> bool
    ensures { result ≡ has_node state }
{
    match state {
        State::Free => false,
        State::Bare => true,
        State::Covered => true,
    }
}

fn is_unused(cells: &Vec<Cell>, arena: usize) -> bool
    requires { arena < 2 ^ 32 }
    ensures { IsTrue result ↔ IsUnused cells.now.items arena }
{
    let first = arena * 8;
    for place in 0..8 {
        if is_live(cells, first + place) {
            return false;
        }
    }
    true
}

// The place of the slot before which a row goes.
fn place_before(cells: &Vec<Cell>, before: Option<Slot>) -> Option<u32>
    ensures { result ≡ place_before_slot cells.now.items (slot_number before) }
{
    match before {
        Some(slot) => place_of_live(cells, slot),
        None => None,
    }
}

fn place_of_live(cells: &Vec<Cell>, slot: Slot) -> Option<u32>
    ensures { result ≡ place_before_slot cells.now.items (Some slot.0) }
{
    if is_live(cells, slot.0 as usize) {
        Some(slot.0 % ARENA)
    } else {
        None
    }
}

// How many free arenas so many nodes need that go before one at this place, or anew.
fn arenas_beyond(count: u8, place: Option<u32>) -> usize
    ensures result { result ≡ beyond_at count place }
    ensures few { result ≤ 32 }
{
    let place = place.unwrap_or(0) as usize;
    let count = count as usize;
    if place < count {
        (count - place - 1) / 8 + 1
    } else {
        0
    }
}

fn needs(cells: &Vec<Cell>, row: &Row) -> usize
    ensures needs { result ≡ slot_needs cells.now.items (row_of row.now) }
    ensures few { result ≤ 32 }
{
    arenas_beyond(row.count, place_before(cells, row.before))
}

// Whether so many free arenas and so many slots are enough for these rows.
fn are_enough(cells: &Vec<Cell>, free: usize, slots: usize, rows: &[Row]) -> bool
    ensures { result ≡ (nat_le (needed (slot_needs cells.now.items) (rows_of rows.now)) free
        && nat_le (counts (rows_of rows.now)) slots) }
{
    let mut arenas = free;
    let mut left = slots;
    for row in rows {
        let needs = needs(cells, row);
        let count = row.count as usize;
        if arenas < needs || left < count {
            return false;
        }
        arenas -= needs;
        left -= count;
    }
    true
}

// The slot below one, where its arena has one.
fn slot_below(before: Option<Slot>) -> Option<u32>
    ensures { result ≡ below_slot (slot_number before) }
{
    match before {
        Some(slot) => lower_slot(slot.0),
        None => None,
    }
}

fn lower_slot(slot: u32) -> Option<u32>
    ensures { result ≡ below_slot (Some slot) }
{
    if 0 < slot % ARENA {
        Some(slot - 1)
    } else {
        None
    }
}

// The slot of a new node: the one below, or else the last slot of an arena that is free no more.
fn choose(free: &mut Vec<u32>, below: Option<u32>) -> usize
    requires { below ≡ None → 0 < length free.old.items }
    ensures chosen { IsChosen below free.old.items free.new.items result }
    ensures capacity { vec_capacity free.old ≤ vec_capacity free.new }
{
    match below {
        Some(slot) => slot as usize,
        None => last_of_free(free),
    }
}

fn last_of_free(free: &mut Vec<u32>) -> usize
    requires { 0 < length free.old.items }
    ensures chosen { IsChosen None free.old.items free.new.items result }
    ensures capacity { vec_capacity free.old ≤ vec_capacity free.new }
{
    match free.pop() {
        Some(arena) => arena as usize * 8 + 7,
        None => 7,
    }
}

// A cell has another state.
fn mark(cells: &mut Vec<Cell>, slot: usize, state: State)
    requires { slot < length cells.old.items }
    ensures cell { slice_get cells.new.items slot
        ≡ in_state state (slice_get cells.old.items slot) }
    ensures others { KeepsOthers (slice_get cells.old.items) (slice_get cells.new.items) slot }
    ensures size { length cells.new.items ≡ length cells.old.items }
{
    cells[slot].state = state;
}

// A node is placed before this one, where there is one.
fn cover_before(cells: &mut Vec<Cell>, before: Option<Slot>)
    requires { IfSome before (λ slot. slot.0 < length cells.old.items) }
    ensures cells { Covers (slot_number before) cells.old.items cells.new.items }
    ensures size { length cells.new.items ≡ length cells.old.items }
{
    match before {
        Some(slot) => mark(cells, slot.0 as usize, State::Covered),
        None => {}
    }
}

// A cell is bare with this node.
fn put(cells: &mut Vec<Cell>, slot: usize, node: Node)
    requires { slot < length cells.old.items }
    ensures cell { slice_get cells.new.items slot ≡ Some (record { state = Bare; node = node }) }
    ensures others { KeepsOthers (slice_get cells.old.items) (slice_get cells.new.items) slot }
    ensures size { length cells.new.items ≡ length cells.old.items }
{
    cells[slot] = Cell {
        state: State::Bare,
        node,
    };
}

// The node of a cell is replaced.
fn set_in(cells: &mut Vec<Cell>, slot: usize, node: Node)
    requires { slot < length cells.old.items }
    ensures cell { slice_get cells.new.items slot
        ≡ with_node node (slice_get cells.old.items slot) }
    ensures others { KeepsOthers (slice_get cells.old.items) (slice_get cells.new.items) slot }
    ensures size { length cells.new.items ≡ length cells.old.items }
{
    cells[slot].node = node;
}

fn node_in_cell(cells: &Vec<Cell>, slot: usize) -> &Node
    requires { live_at cells.now.items slot ≡ true }
    ensures { node_in (slice_get cells.now.items slot) ≡ Some result.now }
{
    &cells[slot].node
}

// There is room, so the push takes no memory.
fn give(free: &mut Vec<u32>, arena: u32)
    requires { vec_len free.old < vec_capacity free.old }
    ensures items { free.new.items ≡ push free.old.items arena }
    ensures capacity { vec_capacity free.old ≤ vec_capacity free.new }
{
    let _ = free.push(arena);
}

impl Store for NodeArena {
    ghost use Rattle.node_arena.specs.Arenas.{Arenas, slot_count, node_of, is_bare, stands_before, has_room, Stands};
    ghost use Rattle.node_arena.specs.Needs.{places_fit};

    ghost slots = { slot_count };

    ghost node_at = { node_of };

    ghost is_bare = { is_bare };

    ghost stands_before = { stands_before };

    ghost room = { has_room };

    ghost rule = { places_fit };

    ghost stands = { Stands };

    fn fits(&self, rows: &[Row]) -> bool {
        let slots = self.cells.len() - self.live as usize;
        are_enough(&self.cells, self.free.len(), slots, rows)
    }

    fn place(&mut self, before: Option<Slot>, node: Node) -> Slot {
        self.live += 1;
        let slot = choose(&mut self.free, slot_below(before));
        cover_before(&mut self.cells, before);
        put(&mut self.cells, slot, node);
        Slot(slot as u32)
    }

    fn get(&self, slot: Slot) -> &Node {
        node_in_cell(&self.cells, slot.0 as usize)
    }

    fn set(&mut self, slot: Slot, node: Node) {
        set_in(&mut self.cells, slot.0 as usize, node);
    }

    fn free(&mut self, slot: Slot) {
        mark(&mut self.cells, slot.0 as usize, State::Free);
        self.live -= 1;
        let arena = slot.0 / ARENA;
        if is_unused(&self.cells, arena as usize) {
            give(&mut self.free, arena);
        }
    }

    ghost use Rattle.node_arena.specs.Laws.{arena_live_below, arena_bare_live, arena_few, arena_left_out, arena_one_of_two, arena_before_bare, arena_ruled, arena_unplaced, arena_renamed};

    ghost live_below = { arena_live_below };

    ghost bare_live = { arena_bare_live };

    ghost few = { arena_few };

    ghost left_out = { arena_left_out };

    ghost one_of_two = { arena_one_of_two };

    ghost before_bare = { arena_before_bare };

    ghost ruled = { arena_ruled };

    ghost unplaced = { arena_unplaced };

    ghost renamed = { arena_renamed };
}
