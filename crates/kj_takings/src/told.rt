//! Laws of what is told: each ask, each ended request and each abandoned cell, once.
ghost use Rattle.kj_base.specs.Commands.{Reply, Stop};
ghost use Rattle.kj_base.specs.declared.numbers.Limits.{Limits};
ghost use Rattle.kj_base.specs.declared.outcomes.Outcome.{Outcome};
ghost use Rattle.kj_model.specs.Apply.{is_full, refusal, refused_full};
ghost use Rattle.kj_model.specs.Calls.{Call, CallApply, CallTakeAbandoned, CallTakeAsk, CallTakeEnded, TookAbandoned, TookAsk, TookEnded, call, calls};
ghost use Rattle.kj_model.specs.Framed.{times};
ghost use Rattle.kj_model.specs.Uses.{is_live_request};
ghost use Rattle.kj_model.specs.World.{AskCell, Asked, Ended, Setting, State, held_at, new_state};
ghost use Rattle.kj_ownership.specs.Fits.{Fits};
ghost use Rattle.kj_ownership.specs.Kept.{Kept, TakesSpent, is_open};
ghost use Rattle.kj_ownership.specs.Standing.{one_if};
ghost use Rattle.kj_takings.specs.Told.{IsReached, LeavesList, NoneCloses, StartsWith, TellsOnce, abandoned_left, ask_cells, ask_told, asks_left, begins, begun, ended_left, ended_names, ends_told, has_ended, has_request, is_done, lets_go, lost_told, request_after, told_in};
ghost use Rattle.std.specs.Prelude.{Bool, None, Some, false, true, ℕ, List, [], ◌+◌, ◌≡◌, ◌≤◌};

/// A loop is reached by calls from its beginning on, of which none closed it, and by each call more.
/// In each such state the lists tell each once, so a taking call frees a name that leaves no root,
/// and what loops keep between calls holds with nothing asked of takings.
pub fn reached_loops_tell_once()
    ensures start { (setting : Setting) (limits : Limits) → IsReached setting (new_state limits) }
    ensures step { (setting : Setting) (c : Call) (s : State)
        → is_open c ≡ true → IsReached setting s → IsReached setting (call setting c s).0 }
    ensures listed { (setting : Setting) (s : State)
        → Fits setting → IsReached setting s → TellsOnce s.world }
    ensures spent { (setting : Setting) (c : Call) (s : State)
        → Fits setting → IsReached setting s → TakesSpent c s.world }
    ensures kept { (setting : Setting) (s : State)
        → Fits setting → IsReached setting s → Kept s }
{}

/// However often a request of one name began, as often its end was told, but for the last one, which
/// may run still, or has ended and is listed once.
pub fn each_end_is_told_once()
    ensures { (setting : Setting) (limits : Limits) (cs : List Call) (r : ℕ)
        → Fits setting → NoneCloses cs
        → begun r cs (calls setting cs (new_state limits)).1
        ≡ ends_told r (calls setting cs (new_state limits)).1
        + (times r (ended_names (calls setting cs (new_state limits)).0.world.ended)
        + one_if (is_live_request (held_at r
        (calls setting cs (new_state limits)).0.world.names))) }
{}

/// Each ask is told at most once, and each abandoned cell: numbers of nodes are never used again.
pub fn each_ask_is_told_once()
    ensures asks { (setting : Setting) (limits : Limits) (cs : List Call) → Fits setting
        → NoneCloses cs → (p : ℕ) → times p (told_in ask_told setting cs (new_state limits)) ≤ 1 }
    ensures abandoned { (setting : Setting) (limits : Limits) (cs : List Call) → Fits setting
        → NoneCloses cs → (p : ℕ) → times p (told_in lost_told setting cs (new_state limits)) ≤ 1 }
{}

/// A name is a request's from its Begin until its end is told, and no other call changes that. The
/// name of a Begin wasn't a request's, and that of a Stop is a request's that runs, and has ended
/// then.
pub fn requests_keep_their_names()
    ensures after { (setting : Setting) (c : Call) (s : State) (n : ℕ)
        → Fits setting → is_open c ≡ true → IsReached setting s
        → has_request (call setting c s).0.world n
        ≡ request_after n c (call setting c s).1 (has_request s.world n) }
    ensures new { (setting : Setting) (c : Call) (s : State) (n : ℕ)
        → Fits setting → is_open c ≡ true → IsReached setting s
        → begins n c (call setting c s).1 ≡ true → has_request s.world n ≡ false }
    ensures stopped { (setting : Setting) (r : ℕ) (s : State)
        → is_done (call setting (CallApply (Stop r)) s).1 ≡ true
        → (is_live_request (held_at r s.world.names) ≡ true)
        × (has_ended (held_at r (call setting (CallApply (Stop r)) s).0.world.names) ≡ true) }
{}

/// What is listed and not taken stays listed, in its order and before what comes: so each list is
/// told from the oldest on.
pub fn lists_keep_their_order()
    ensures asks { (setting : Setting) (c : Call) (s : State)
        → Fits setting → is_open c ≡ true → IsReached setting s
        → StartsWith (asks_left c s.world) (call setting c s).0.world.asks }
    ensures ended { (setting : Setting) (c : Call) (s : State)
        → Fits setting → is_open c ≡ true → IsReached setting s
        → StartsWith (ended_left c s.world) (call setting c s).0.world.ended }
    ensures abandoned { (setting : Setting) (c : Call) (s : State)
        → Fits setting → is_open c ≡ true → IsReached setting s
        → StartsWith (abandoned_left c (call setting c s).1 s.world)
        (call setting c s).0.world.abandoned }
{}

/// What a taking call tells was listed once, and is listed no more; the name of an end is that of a
/// request that has ended, and goes, as that of an abandoned cell does. None is told only where the
/// list is empty.
pub fn what_is_taken_was_listed()
    ensures ask { (setting : Setting) (s : State) (a : Asked) → Fits setting → IsReached setting s
        → (call setting CallTakeAsk s).1 ≡ TookAsk (Some a)
        → LeavesList a.cell (ask_cells s.world.asks)
        (ask_cells (call setting CallTakeAsk s).0.world.asks) }
    ensures end { (setting : Setting) (s : State) (e : Ended) → Fits setting → IsReached setting s
        → (call setting CallTakeEnded s).1 ≡ TookEnded (Some e)
        → LeavesList e.request (ended_names s.world.ended)
        (ended_names (call setting CallTakeEnded s).0.world.ended) }
    ensures abandoned { (setting : Setting) (s : State) (cell : ℕ)
        → Fits setting → IsReached setting s
        → (call setting CallTakeAbandoned s).1 ≡ TookAbandoned (Some cell)
        → LeavesList cell s.world.abandoned (call setting CallTakeAbandoned s).0.world.abandoned }
    ensures end_was { (setting : Setting) (s : State) (e : Ended)
        → Fits setting → IsReached setting s
        → (call setting CallTakeEnded s).1 ≡ TookEnded (Some e)
        → has_ended (held_at e.request s.world.names) ≡ true }
    ensures end_goes { (setting : Setting) (s : State) (e : Ended)
        → (call setting CallTakeEnded s).1 ≡ TookEnded (Some e)
        → held_at e.request (call setting CallTakeEnded s).0.world.names ≡ None }
    ensures cell_goes { (setting : Setting) (s : State) (cell : ℕ)
        → (call setting CallTakeAbandoned s).1 ≡ TookAbandoned (Some cell)
        → held_at cell (call setting CallTakeAbandoned s).0.world.names ≡ None }
    ensures no_ask { (setting : Setting) (s : State)
        → (call setting CallTakeAsk s).1 ≡ TookAsk None → s.world.asks ≡ [] }
    ensures no_end { (setting : Setting) (s : State)
        → (call setting CallTakeEnded s).1 ≡ TookEnded None → s.world.ended ≡ [] }
    ensures no_cell { (setting : Setting) (s : State)
        → (call setting CallTakeAbandoned s).1 ≡ TookAbandoned None → s.world.abandoned ≡ [] }
{}

/// The cell of an ask keeps its name until it gets a reply or is told as abandoned, and from the
/// call on that tells its ask a reply to it is refused for want of room alone, while the loop runs.
pub fn asks_keep_their_cells()
    ensures stays { (setting : Setting) (c : Call) (s : State) (name p : ℕ) (b : Bool)
        → Fits setting → is_open c ≡ true → IsReached setting s
        → lets_go name c (call setting c s).1 ≡ false
        → held_at name s.world.names ≡ Some (AskCell p b)
        → (d : Bool) × (held_at name (call setting c s).0.world.names ≡ Some (AskCell p d)) }
    ensures told { (setting : Setting) (s : State) (a : Asked) → Fits setting → IsReached setting s
        → (call setting CallTakeAsk s).1 ≡ TookAsk (Some a) → (p : ℕ)
        × (held_at a.cell (call setting CallTakeAsk s).0.world.names ≡ Some (AskCell p true)) }
    ensures taken { (setting : Setting) (c : Call) (s : State) (name p : ℕ)
        → Fits setting → is_open c ≡ true → IsReached setting s
        → lets_go name c (call setting c s).1 ≡ false
        → held_at name s.world.names ≡ Some (AskCell p true)
        → held_at name (call setting c s).0.world.names ≡ Some (AskCell p true) }
    ensures replied { (setting : Setting) (name p : ℕ) (o : Outcome) (s : State)
        → Fits setting → IsReached setting s → s.world.stopped ≡ false
        → held_at name s.world.names ≡ Some (AskCell p true)
        → refusal setting false (Reply name o) s
        ≡ refused_full (is_full setting (Reply name o) s.world) }
{}
