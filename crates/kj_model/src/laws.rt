//! Laws of the definitions.
ghost use Rattle.std.specs.Prelude.{◌≡◌, ℕ, Bool, true, false, List, [], ◌∷◌, ◌++◌, ◌≤◌, ◌<◌, length, filter, Option, Some};
ghost use Rattle.kj_base.specs.Places.{spot_placed};
ghost use Rattle.kj_model.specs.Places.{placed};
ghost use Rattle.kj_base.specs.Commands.{Command};
ghost use Rattle.kj_base.specs.Queue.{Events, Way, IsQueue, is_armed, armed, disarmed, taken, rewound, no_events};
ghost use Rattle.kj_model.specs.Apply.{Refused, refusal, apply};
ghost use Rattle.kj_model.specs.Calls.{Call, call, calls, turn, Idle};
ghost use Rattle.kj_model.specs.Causes.{causes, first_cause};
ghost use Rattle.kj_model.specs.Framed.{FreedBy};
ghost use Rattle.kj_model.specs.Falling.{falling, Reason, StandApart};
ghost use Rattle.kj_model.specs.Free.{Guard, Every, free_to};
ghost use Rattle.kj_model.specs.Grown.{Grows};
ghost use Rattle.kj_model.specs.Nodes.{Entry, is_in};
ghost use Rattle.kj_model.specs.Owned.{tree_roots};
ghost use Rattle.kj_model.specs.OwnedTest.{is_owned};
ghost use Rattle.kj_model.specs.Trees.{tree_numbers, AreApart, HubsStay, Frees};
ghost use Rattle.kj_model.specs.World.{World, State, Setting};

/// Each operation of the queue keeps its points in order and its events apart.
pub fn queue_is_kept()
    ensures empty { IsQueue no_events }
    ensures armed { (way : Way) (e : ℕ) (q : Events) → IsQueue q → IsQueue (armed way e q) }
    ensures disarmed { (e : ℕ) (q : Events) → IsQueue q → IsQueue (disarmed e q) }
    ensures taken { (q : Events) → IsQueue q → IsQueue (taken q) }
    ensures rewound { (q : Events) → IsQueue q → IsQueue (rewound q) }
{}

/// Disarming an event that wasn't armed before gives back the list and both points.
pub fn disarm_undoes_arming()
    ensures { (way : Way) (e : ℕ) (q : Events) → IsQueue q → is_armed e q ≡ false
        → disarmed e (armed way e q) ≡ q }
{}

/// A refusal is the first cause that holds in the order of the causes, and after it the world and
/// the record are as before.
pub fn refusals_come_in_order()
    ensures first { (setting : Setting) (inside : Bool) (c : Command) (s : State)
        → refusal setting inside c s ≡ first_cause (causes setting inside c s) }
    ensures answer { (setting : Setting) (inside : Bool) (c : Command) (s : State)
        → (apply setting inside c s).1 ≡ refusal setting inside c s }
    ensures same { (setting : Setting) (inside : Bool) (c : Command) (s : State) (refused : Refused)
        → (apply setting inside c s).1 ≡ Some refused → (apply setting inside c s).0 ≡ s }
{}

/// A turn of a loop whose queue is empty changes nothing.
pub fn idle_turn_changes_nothing()
    ensures { (setting : Setting) (s : State) → s.world.stopped ≡ false → IsQueue s.world.queue
        → s.world.queue.list ≡ [] → turn setting s ≡ (s, Idle) }
{}

/// Freeing a node frees exactly what goes with it, hubs too, in this order, and each other node
/// keeps what it owns. Where no hub goes these are the nodes of its tree, dependencies first, each
/// once.
pub fn tree_is_freed()
    ensures whole { (guard : Guard) (k n : ℕ) (s : State)
        → Frees (falling guard s.world k [] [] n) s (free_to guard k n s) }
    ensures closing { (k n : ℕ) (s : State) → AreApart (tree_numbers k s.world.nodes n)
        → Frees (tree_numbers k s.world.nodes n) s (free_to Every k n s) }
    ensures guarded { (guard : Guard) (k n : ℕ) (s : State)
        → AreApart (tree_numbers k s.world.nodes n)
        → HubsStay (tree_numbers k s.world.nodes n) s.world.nodes
        → Frees (tree_numbers k s.world.nodes n) s (free_to guard k n s) }
{}

/// A free leaves all else as it was: the queue loses the events of what went, hubs lose the
/// branches that went, and cancelers the Wraps.
pub fn free_keeps_the_rest()
    ensures { (guard : Guard) (k n : ℕ) (s : State)
        → FreedBy (falling guard s.world k [] [] n) s (free_to guard k n s) }
{}

/// What goes with a node is its tree where no hub goes; else the hubs' trees too.
pub fn what_goes_has_a_reason()
    ensures tree { (guard : Guard) (w : World) (k n : ℕ) → AreApart (tree_numbers k w.nodes n)
        → HubsStay (tree_numbers k w.nodes n) w.nodes
        → falling guard w k [] [] n ≡ tree_numbers k w.nodes n }
    ensures closing { (w : World) (k n : ℕ) → AreApart (tree_numbers k w.nodes n)
        → falling Every w k [] [] n ≡ tree_numbers k w.nodes n }
    ensures reasons { (guard : Guard) (w : World) (k n m : ℕ)
        → is_in m (falling guard w k [] [] n) ≡ true
        → Reason k w.nodes (falling guard w k [] [] n) n m }
{}

/// Where the trees stand apart, what goes with a node goes once, and the nodes of its own tree all
/// go, in the order of the tree.
pub fn what_goes_goes_once()
    ensures once { (guard : Guard) (w : World) (k n : ℕ) → StandApart n w.nodes
        → AreApart (falling guard w k [] [] n) }
    ensures order { (guard : Guard) (w : World) (k n : ℕ) → StandApart n w.nodes
        → filter (λ m. is_in m (tree_numbers k w.nodes n)) (falling guard w k [] [] n)
        ≡ tree_numbers k w.nodes n }
{}

/// In a world that passes the test of what each world keeps, the trees of its roots stand apart.
pub fn owned_trees_stand_apart()
    ensures { (n : ℕ) (s : State) → is_owned s ≡ true → is_in n (tree_roots s.world) ≡ true
        → StandApart n s.world.nodes }
{}

/// A tree with fewer nodes than the bound is read whole: a greater bound reads the same.
pub fn tree_is_whole()
    ensures { (m k n : ℕ) (nodes : List Entry) → k ≤ m → length (tree_numbers k nodes n) < k
        → tree_numbers m nodes n ≡ tree_numbers k nodes n }
{}

/// Each call only adds to the record.
pub fn record_grows()
    ensures one { (setting : Setting) (c : Call) (s : State) → Grows s (call setting c s).0 }
    ensures all { (setting : Setting) (cs : List Call) (s : State)
        → Grows s (calls setting cs s).0 }
{}

/// A node that is placed adds the one spot that stores place it at.
pub fn placing_goes_by_the_store()
    ensures { (before : Option ℕ) (w : World) → (placed before w).spots
        ≡ w.spots ++ spot_placed w.next w.next_key before w.spots ∷ [] }
{}
