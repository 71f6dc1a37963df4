//! Laws of taking.
ghost use Rattle.kj_base.specs.declared.numbers.Limits.{Limits};
ghost use Rattle.kj_model.specs.Calls.{Call, call, calls};
ghost use Rattle.kj_model.specs.World.{Setting, State, new_state};
ghost use Rattle.kj_ownership.specs.Fits.{Fits};
ghost use Rattle.kj_takings.specs.Alike.{AlikeStates, AreRising};
ghost use Rattle.kj_takings.specs.Calls.{CallFits, IsNowhere, Step, StepsFit, TakingFits, firmed, is_taking, left_calls, loose_after, loosened_by, name_freed, none_loose, plain_replies, reply_but_why, right_calls};
ghost use Rattle.kj_takings.specs.Told.{IsReached};
ghost use Rattle.kj_takings.specs.Worked.{passing_setting, worked_past, worked_start, worked_steps};
ghost use Rattle.std.specs.Prelude.{Bool, false, ℕ, List, ◌≡◌};

/// Two states are alike where they differ only in asks, ended requests and abandoned cells, in
/// whether an ask was taken, and in loose names, which are kept for these lists only. A new state is
/// alike itself with no loose name, and so is each whose names stand by rising number; and likeness
/// goes both ways.
pub fn states_are_alike()
    ensures start { (limits : Limits)
        → AlikeStates none_loose (new_state limits) (new_state limits) }
    ensures itself { (s : State) → AreRising s.world.names → AlikeStates none_loose s s }
    ensures back { (loose : ℕ → Bool) (s t : State)
        → AlikeStates loose s t → AlikeStates loose t s }
{}

/// A call that takes nothing keeps states alike, with the same record and, but for why a command or
/// a wait was refused, the same reply: where neither the call nor a step that ran in it makes a
/// loose name, a reply's name is firm and holds the same, and there is room for the names that they
/// name.
pub fn calls_go_alike()
    ensures state { (loose : ℕ → Bool) (setting : Setting) (c : Call) (s t : State)
        → is_taking c ≡ false → CallFits loose setting c s t → AlikeStates loose s t
        → AlikeStates loose (call setting c s).0 (call setting c t).0 }
    ensures answer { (loose : ℕ → Bool) (setting : Setting) (c : Call) (s t : State)
        → is_taking c ≡ false → CallFits loose setting c s t → AlikeStates loose s t
        → reply_but_why (call setting c s).1 ≡ reply_but_why (call setting c t).1 }
{}

/// A call that takes an ask, an ended request or an abandoned cell, on either side alone, keeps
/// states alike; the name that it frees is loose from then on, until it is in neither map.
pub fn takings_change_nothing_else()
    ensures left { (loose : ℕ → Bool) (setting : Setting) (c : Call) (s t : State)
        → TakingFits c s → AlikeStates loose s t
        → AlikeStates (loosened_by (name_freed c s.world) loose) (call setting c s).0 t }
    ensures right { (loose : ℕ → Bool) (setting : Setting) (c : Call) (s t : State)
        → TakingFits c t → AlikeStates loose s t
        → AlikeStates (loosened_by (name_freed c t.world) loose) s (call setting c t).0 }
    ensures settled { (loose : ℕ → Bool) (name : ℕ) (s t : State)
        → IsNowhere name s t → AlikeStates loose s t
        → AlikeStates (firmed name loose) s t }
{}

/// What is asked of calls beside one another can be met: a request that ends is taken on one side
/// only after the next turn, and its number is then used again; on both sides the same steps run.
pub fn takings_fit_a_worked_case()
    ensures fits { StepsFit passing_setting none_loose worked_steps worked_start worked_start }
    ensures settled { (n : ℕ)
        → loose_after passing_setting none_loose worked_steps worked_start worked_start n ≡ false }
    ensures runs { (calls passing_setting (left_calls worked_steps) worked_start).0.past
        ≡ worked_past }
{}

/// Two lists of calls of loops that differ only in where they take run the same steps and free the
/// same nodes, in the same order, and their other calls have the same replies, but for why a command
/// or a wait was refused.
pub fn takings_change_no_run()
    ensures runs { (setting : Setting) (loose : ℕ → Bool) (steps : List Step) (s t : State)
        → Fits setting → IsReached setting s → IsReached setting t
        → StepsFit setting loose steps s t → AlikeStates loose s t
        → (calls setting (right_calls steps) t).0.past
        ≡ (calls setting (left_calls steps) s).0.past }
    ensures replies { (setting : Setting) (loose : ℕ → Bool) (steps : List Step) (s t : State)
        → Fits setting → IsReached setting s → IsReached setting t
        → StepsFit setting loose steps s t → AlikeStates loose s t
        → plain_replies (right_calls steps) (calls setting (right_calls steps) t).1
        ≡ plain_replies (left_calls steps) (calls setting (left_calls steps) s).1 }
    ensures states { (setting : Setting) (loose : ℕ → Bool) (steps : List Step) (s t : State)
        → Fits setting → IsReached setting s → IsReached setting t
        → StepsFit setting loose steps s t → AlikeStates loose s t
        → AlikeStates (loose_after setting loose steps s t)
        (calls setting (left_calls steps) s).0 (calls setting (right_calls steps) t).0 }
{}
