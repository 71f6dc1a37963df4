//! The keeper of nodes.
ghost use Rattle.std.specs.Prelude.{◌≡◌, ◌≢◌, ◌<◌, ◌≤◌, ℕ, Bool, true, false, List, [], ◌∷◌, ◌++◌, Option, None, Some, IsSome, IsTrue, map, length};
ghost use Rattle.kj_base.specs.Places.{Spot, Row as RowSeen, row, spot_of, spot_placed, spots_without, IsOneToOne, spot_as, row_as};
ghost use Rattle.kj_base.specs.Store.{slot_number, rows_of, IsBareOrNone, IsCovered, StandsBefore, rows_after, KeepsOthers, HasLower, KeepsLive, is_named, AreBelow};
ghost use Rattle.kj_base.specs.declared.nodes.Node.{Node};

use crate::nodes::{Node, Row, Slot};

/// Keeps nodes in slots. A live slot is bare where no node was ever placed before its node. No call
/// takes memory.
pub trait Store {
    /// The number of slots, which no call changes.
    ghost slots: { Self → ℕ };

    /// The node of each live slot.
    ghost node_at: { Self → ℕ → Option Node };

    /// The live slots before which no node was ever placed.
    ghost is_bare: { Self → ℕ → Bool };

    /// The slot that a live slot stands directly before in one arena.
    ghost stands_before: { Self → ℕ → Option ℕ };

    /// Whether nodes in these rows can be placed.
    ghost room: { Self → List RowSeen → Bool };

    /// The same by the number of slots and the spots of the live slots alone.
    ghost rule: { ℕ → List Spot → List RowSeen → Bool };

    /// The live slots are those of these spots.
    ghost stands: { Self → List Spot → Type 0 };

    /// Whether nodes in these rows, which name different bare slots, can be placed.
    fn fits(&self, rows: &[Row]) -> bool
        ensures { result ≡ room self.now (rows_of rows.now) };

    /// Puts a node into a slot that wasn't live: before the slot given, or anew.
    fn place(&mut self, before: Option<Slot>, node: Node) -> Slot
        requires bare { IsBareOrNone (is_bare self.old) (slot_number before) }
        requires fits { IsTrue (room self.old (row (slot_number before) 1 ∷ [])) }

        // The new slot.
        ensures was_free { node_at self.old result.0 ≡ None }
        ensures below { result.0 < slots self.new }
        ensures placed { node_at self.new result.0 ≡ Some node }
        ensures bare { is_bare self.new result.0 ≡ true }
        ensures before { StandsBefore (slot_number before) (stands_before self.new result.0) }

        // The other slots.
        ensures covered { IsCovered (is_bare self.new) (slot_number before) }
        ensures nodes { KeepsOthers (node_at self.old) (node_at self.new) result.0 }
        ensures bares { (other : ℕ) → other ≢ result.0 → slot_number before ≢ Some other
            → is_bare self.new other ≡ is_bare self.old other }
        ensures befores { KeepsOthers (stands_before self.old) (stands_before self.new) result.0 }

        // What fits afterwards.
        ensures slots { slots self.new ≡ slots self.old }
        ensures rest { (more : List RowSeen) (count : ℕ) → 0 < count
            → IsTrue (room self.old (row (slot_number before) count ∷ more))
            → IsTrue (room self.new (rows_after result.0 count more)) }
        ensures spots { (spots : List Spot) (key : ℕ) → stands self.old spots → AreBelow key spots
            → stands self.new (spots ++ spot_placed result.0 key (slot_number before) spots ∷ []) };

    /// The node of a live slot.
    fn get(&self, slot: Slot) -> &Node
        requires { IsSome (node_at self.now slot.0) }
        ensures { node_at self.now slot.0 ≡ Some result.now };

    /// A live slot has another node now.
    fn set(&mut self, slot: Slot, node: Node)
        requires { IsSome (node_at self.old slot.0) }
        ensures changed { node_at self.new slot.0 ≡ Some node }
        ensures nodes { KeepsOthers (node_at self.old) (node_at self.new) slot.0 }
        ensures bares { (other : ℕ) → is_bare self.new other ≡ is_bare self.old other }
        ensures befores { (other : ℕ) → stands_before self.new other
            ≡ stands_before self.old other }
        ensures slots { slots self.new ≡ slots self.old }
        ensures room { (rows : List RowSeen) → room self.new rows ≡ room self.old rows }
        ensures spots { (spots : List Spot) → stands self.old spots → stands self.new spots };

    /// The node of a live slot goes.
    fn free(&mut self, slot: Slot)
        requires { IsSome (node_at self.old slot.0) }
        ensures freed { node_at self.new slot.0 ≡ None }
        ensures nodes { KeepsOthers (node_at self.old) (node_at self.new) slot.0 }
        ensures bares { KeepsOthers (is_bare self.old) (is_bare self.new) slot.0 }
        ensures befores { KeepsOthers (stands_before self.old) (stands_before self.new) slot.0 }
        ensures slots { slots self.new ≡ slots self.old }
        ensures spots { (spots : List Spot) → stands self.old spots
            → stands self.new (spots_without slot.0 spots) };

    /// A live slot is below the number of slots.
    ghost live_below: { (store : Self) (slot : ℕ) → IsSome (node_at store slot)
        → slot < slots store };

    /// A bare slot is live.
    ghost bare_live: { (store : Self) (slot : ℕ) → is_bare store slot ≡ true
        → IsSome (node_at store slot) };

    /// There are no more live slots than slots.
    ghost few: { (store : Self) (spots : List Spot) → stands store spots
        → length spots ≤ slots store };

    /// Rows may be left out.
    ghost left_out: { (store : Self) (front : List RowSeen) (left : RowSeen) (back : List RowSeen)
        → IsTrue (room store (front ++ left ∷ back)) → IsTrue (room store (front ++ back)) };

    /// A row of two may become a row of one.
    ghost one_of_two: { (store : Self) (front : List RowSeen) (before : Option ℕ)
        (back : List RowSeen) → IsTrue (room store (front ++ row before 2 ∷ back))
        → IsTrue (room store (front ++ row before 1 ∷ back)) };

    /// A row that goes anew may go before a bare slot that no other row names.
    ghost before_bare: { (store : Self) (front : List RowSeen) (slot count : ℕ)
        (back : List RowSeen) → is_bare store slot ≡ true → is_named slot (front ++ back) ≡ false
        → IsTrue (room store (front ++ row None count ∷ back))
        → IsTrue (room store (front ++ row (Some slot) count ∷ back)) };

    /// What fits is known from the spots.
    ghost ruled: { (store : Self) (spots : List Spot) (rows : List RowSeen) → stands store spots
        → room store rows ≡ rule (slots store) spots rows };

    /// A row before a node that isn't there is one anew.
    ghost unplaced: { (slot_count : ℕ) (spots : List Spot) (front : List RowSeen) (number count : ℕ)
        (back : List RowSeen) → spot_of number spots ≡ None
        → rule slot_count spots (front ++ row (Some number) count ∷ back)
        ≡ rule slot_count spots (front ++ row None count ∷ back) };

    /// What fits doesn't depend on the numbers of the nodes.
    ghost renamed: { (slot_count : ℕ) (rename : ℕ → ℕ) (spots : List Spot) (rows : List RowSeen)
        → IsOneToOne rename → rule slot_count (map (spot_as rename) spots)
        (map (row_as rename) rows) ≡ rule slot_count spots rows };
}

/// Places two nodes, one before the other, in a store where a row of two fits.
pub fn place_two<S: Store>(store: &mut S, before: Option<Slot>, lower: Node, upper: Node) -> Slot
    requires bare { IsBareOrNone (S.is_bare store.old) (slot_number before) }
    requires fits { IsTrue (S.room store.old (row (slot_number before) 2 ∷ [])) }
    ensures upper { S.node_at store.new result.0 ≡ Some upper }
    ensures lower { HasLower lower (S.node_at store.new) (S.stands_before store.new) result.0 }
    ensures kept { KeepsLive (S.node_at store.old) (S.node_at store.new) }
    ensures slots { S.slots store.new ≡ S.slots store.old }
{
    let first = store.place(before, lower);
    store.place(Some(first), upper)
}
