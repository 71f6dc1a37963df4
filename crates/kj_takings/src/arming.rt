//! Laws of arming.
ghost use Rattle.kj_base.specs.Queue.{Way};
ghost use Rattle.kj_base.specs.declared.numbers.Limits.{Limits};
ghost use Rattle.kj_base.specs.declared.outcomes.Outcome.{Outcome};
ghost use Rattle.kj_model.specs.Listening.{announced, listened, listener, settled};
ghost use Rattle.kj_model.specs.Nodes.{Form};
ghost use Rattle.kj_model.specs.Places.{built};
ghost use Rattle.kj_model.specs.World.{State, new_state};
ghost use Rattle.kj_ownership.specs.Shapes.{Shaped};
ghost use Rattle.kj_ownership.specs.Standing.{Owned};
ghost use Rattle.kj_takings.specs.Arming.{HasReadyTree, IsReady, QueueReady};
ghost use Rattle.std.specs.Prelude.{Some, Option, ℕ, ◌≡◌};

/// Who listens to a ready tree waits for a ready tree: for this one, or for one of Thens over it.
pub fn listeners_of_ready_trees()
    ensures { (n e : ℕ) (s : State) → Owned s → Shaped s.world → IsReady s.world.nodes n
        → listener n s.world ≡ Some e → HasReadyTree s.world e }
{}

/// No event stands in the queue of a new loop. Where each event in the queue has a ready tree, so it
/// is after a node is built, after a ready tree is announced, after a tree got a listener, ready or
/// not, and after a cell is settled.
pub fn what_is_armed_has_a_ready_tree()
    ensures start { (limits : Limits) → QueueReady (new_state limits).world }
    ensures announced { (way : Way) (n : ℕ) (s : State) → Owned s → Shaped s.world
        → IsReady s.world.nodes n → QueueReady s.world → QueueReady (announced way n s.world) }
    ensures listened { (n : ℕ) (s : State) → Owned s → Shaped s.world
        → QueueReady s.world → QueueReady (listened n s.world) }
    ensures built { (before : Option ℕ) (form : Form) (s : State) → Owned s
        → QueueReady s.world → QueueReady (built before form s.world) }
    ensures settled { (way : Way) (n : ℕ) (o : Outcome) (s : State) → Owned s → Shaped s.world
        → QueueReady s.world → QueueReady (settled way n o s.world) }
{}
