//! Laws of paths.
ghost use Rattle.kj_base.specs.Commands.{Action};
ghost use Rattle.kj_base.specs.Places.{Row, arenas_fit, counts};
ghost use Rattle.kj_base.specs.Record.{Item};
ghost use Rattle.kj_base.specs.declared.numbers.Limits.{Limits};
ghost use Rattle.kj_model.specs.Calls.{Call, calls, close};
ghost use Rattle.kj_model.specs.World.{Setting, World, new_state};
ghost use Rattle.kj_ownership.specs.Fits.{Fits};
ghost use Rattle.kj_paths.specs.Paths.{LivesIn, Paths, is_used};
ghost use Rattle.kj_paths.specs.Rows.{GoApart, counted_fit, over_store};
ghost use Rattle.kj_paths.specs.Worked.{worked_builds, worked_limits, worked_path, worked_paths, worked_setting, worked_turn};
ghost use Rattle.kj_takings.specs.Told.{NoneCloses};
ghost use Rattle.std.specs.Prelude.{false, length, true, ℕ, List, Option, ◌++◌, ◌+◌, ◌≡◌, ◌≤◌};

/// After each list of calls from a new loop, and once the loop is closed after it, each live node
/// has its arena and place, and the live nodes of each arena are one path, each but the first owned
/// by the one before it. What is asked: the store takes no more nodes than it has slots.
pub fn calls_keep_paths()
    ensures between { (setting : Setting) (limits : Limits) (cs : List Call)
        → Fits setting → NoneCloses cs
        → Paths (calls setting cs (new_state limits)).0.world }
    ensures closed { (setting : Setting) (limits : Limits) (cs : List Call)
        → Fits setting → NoneCloses cs
        → Paths (close (calls setting cs (new_state limits)).0).world }
{}

/// An arena is in use exactly where a live node has its place there, so it is free exactly where
/// none lives. The arena of the next node that is placed anew is free, and after the closing all
/// are.
pub fn free_arenas_have_no_live_node()
    ensures used { (w : World) (key : ℕ) → Paths w → is_used key w.spots ≡ true → LivesIn key w }
    ensures lives { (w : World) (key : ℕ) → LivesIn key w → is_used key w.spots ≡ true }
    ensures next { (w : World) → Paths w → is_used w.next_key w.spots ≡ false }
    ensures closed { (setting : Setting) (limits : Limits) (cs : List Call)
        → Fits setting → NoneCloses cs → (key : ℕ)
        → is_used key (close (calls setting cs (new_state limits)).0).world.spots ≡ false }
{}

/// Where rows before different nodes that are first in their arenas fit into arenas, there are slots
/// for the live nodes and for theirs.
pub fn arenas_have_slots_enough()
    ensures { (slots : ℕ) (w : World) (more : List Row) → Paths w → GoApart w more
        → arenas_fit slots w.spots more ≡ true → length w.spots + counts more ≤ slots }
{}

/// So over arenas, whatever the steps do, each list of calls from a new loop goes as it does where
/// the slots are counted too: the same replies, the same runs and frees, and the same world. Nothing
/// more is asked of arenas, and over them the paths hold after each list of calls and after a
/// closing.
pub fn arenas_keep_paths()
    ensures alike { (answer : List Item → ℕ → Option Action) (limits : Limits) (cs : List Call)
        → NoneCloses cs
        → calls (over_store arenas_fit answer) cs (new_state limits)
        ≡ calls (over_store counted_fit answer) cs (new_state limits) }
    ensures between { (answer : List Item → ℕ → Option Action) (limits : Limits) (cs : List Call)
        → NoneCloses cs
        → Paths (calls (over_store arenas_fit answer) cs (new_state limits)).0.world }
    ensures closed { (answer : List Item → ℕ → Option Action) (limits : Limits) (cs : List Call)
        → NoneCloses cs
        → Paths (close (calls (over_store arenas_fit answer) cs (new_state limits)).0).world }
{}

/// In a worked case, with takings among the calls, a promise of two nodes in an arena of its own takes
/// the place of a Chain in the middle of a path of six.
pub fn a_promise_comes_with_its_path()
    ensures before { (calls worked_setting worked_builds (new_state worked_limits)).0.world.spots
        ≡ worked_path }
    ensures after { (calls worked_setting (worked_builds ++ worked_turn)
        (new_state worked_limits)).0.world.spots ≡ worked_paths }
{}
