//! Laws of loops that run.
ghost use Rattle.kj_model.specs.Calls.{NoMemory, WaitNoMemory, run, turn, wait};
ghost use Rattle.kj_model.specs.Nodes.{Request, form_at};
ghost use Rattle.kj_model.specs.World.{RequestOf, Setting, State, held_at};
ghost use Rattle.kj_ownership.specs.Kept.{Rests};
ghost use Rattle.kj_ownership.specs.Memory.{FindsMemory, LacksMemory};
ghost use Rattle.kj_ownership.specs.Requests.{FiresNoRequest, NamesNoRequest, is_request};
ghost use Rattle.std.specs.Prelude.{Some, false, true, ℕ, Option, ◌≡◌};

/// Between two turns of a loop that runs, a Request stands under its own name; so where no name is a request's, no node
/// is a Request, and no Request's event fires.
pub fn requests_are_named()
    ensures named { (s : State) (n name : ℕ) (tree : Option ℕ) → Rests s → s.world.stopped ≡ false
        → form_at n s.world.nodes ≡ Some (Request name tree)
        → held_at name s.world.names ≡ Some (RequestOf (Some n)) }
    ensures none { (s : State) (n : ℕ) → Rests s → s.world.stopped ≡ false
        → NamesNoRequest s.world → is_request (form_at n s.world.nodes) ≡ false }
    ensures fires_none { (s : State) → Rests s → s.world.stopped ≡ false
        → NamesNoRequest s.world → FiresNoRequest s.world }
{}

/// Where steps always find memory no turn, no run of turns and no wait answers that there was none, and turns
/// don't stop the loop.
pub fn memory_keeps_loops_running()
    ensures turn { (setting : Setting) (s : State) → FindsMemory setting
        → (turn setting s).1 ≡ NoMemory → ⊥ }
    ensures run { (setting : Setting) (turns : ℕ) (s : State) → FindsMemory setting
        → (run setting turns s).1 ≡ NoMemory → ⊥ }
    ensures wait { (setting : Setting) (name turns : ℕ) (s : State) → FindsMemory setting
        → (wait setting name turns s).1 ≡ WaitNoMemory → ⊥ }
    ensures turn_goes_on { (setting : Setting) (s : State) → FindsMemory setting
        → (turn setting s).0.world.stopped ≡ s.world.stopped }
    ensures run_goes_on { (setting : Setting) (turns : ℕ) (s : State) → FindsMemory setting
        → (run setting turns s).0.world.stopped ≡ s.world.stopped }
{}

/// A turn answers that there was no memory just where it stops a loop that runs, and then some step finds none
/// after all that was told. So it is with a run of turns, and a wait answers it only there.
pub fn only_a_lack_stops()
    ensures turn { (setting : Setting) (s : State)
        → (turn setting s).1 ≡ NoMemory → LacksMemory setting (turn setting s).0.past }
    ensures run { (setting : Setting) (turns : ℕ) (s : State)
        → (run setting turns s).1 ≡ NoMemory → LacksMemory setting (run setting turns s).0.past }
    ensures wait { (setting : Setting) (name turns : ℕ) (s : State)
        → (wait setting name turns s).1 ≡ WaitNoMemory
        → LacksMemory setting (wait setting name turns s).0.past }
    ensures told { (setting : Setting) (s : State) → s.world.stopped ≡ false
        → (turn setting s).0.world.stopped ≡ true → (turn setting s).1 ≡ NoMemory }
    ensures stopped { (setting : Setting) (s : State)
        → (turn setting s).1 ≡ NoMemory → (turn setting s).0.world.stopped ≡ true }
{}
