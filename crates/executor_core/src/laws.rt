//! Laws of legal histories.
ghost use Rattle.std.specs.Prelude.{◌≡◌, ◌≢◌, ℕ, ◌≤◌, List, [], ◌∷◌, ◌++◌, length, filter, slice_get, cond, true, false, ◌↔◌, Some};
ghost use Rattle.executor_core.specs.declared.entry.Entry.{Entry};
ghost use Rattle.executor_core.specs.Acts.{act, IsOwn, IsRunning};
ghost use Rattle.executor_core.specs.Ends.{end_of};
ghost use Rattle.executor_core.specs.declared.call.Call.TheVariants.{Collect};
ghost use Rattle.executor_core.specs.declared.call.Reply.TheVariants.{Ended};
ghost use Rattle.kj_base.specs.declared.outcomes.Outcome.{Outcome};
ghost use Rattle.executor_core.specs.Histories.{LegalFrom, Legal, board_of, of_caller, times, there, is_submit, is_spend, is_start, is_finish, is_any_submit, is_any_start, is_any_finish, is_close, is_among, outstanding, unfinished, Outstanding, Unfinished, Settled, starts_in, ends_in, ends_by};

/// A beginning of a legal history is legal, and what follows it is legal from the board that it leaves.
pub fn beginnings_are_legal()
    ensures { (limit : ℕ) (es fs : List Entry) → Legal limit (es ++ fs) → Legal limit es
        × LegalFrom (board_of limit es) fs }
{}

/// A request starts at most once, and ends at most once.
pub fn requests_start_and_end_once()
    ensures start { (limit : ℕ) (es : List Entry) → Legal limit es → (n : ℕ) → starts_in es n ≤ 1 }
    ensures end { (limit : ℕ) (es : List Entry) → Legal limit es → (n : ℕ)
        → ends_in limit es n ≤ 1 }
{}

/// Once the executor is closed each request has ended, started at most once and ended exactly once.
pub fn closed_is_settled()
    ensures { (limit : ℕ) (es : List Entry) → Legal limit es → (board_of limit es).closed ≡ true
        → Settled limit es }
{}

/// Whatever starts or is finished is so by an entry of the target, whose own entries have these in their order.
pub fn target_starts_and_finishes()
    ensures starts { (limit : ℕ) (es : List Entry) → Legal limit es
        → filter is_any_start (of_caller 0 es) ≡ filter is_any_start es }
    ensures finishes { (limit : ℕ) (es : List Entry) → Legal limit es
        → filter is_any_finish (of_caller 0 es) ≡ filter is_any_finish es }
    ensures start { (limit : ℕ) (es : List Entry) → Legal limit es → (n : ℕ)
        → times (is_start n) (of_caller 0 es) ≡ times (is_start n) es }
    ensures finish { (limit : ℕ) (es : List Entry) → Legal limit es → (n : ℕ)
        → times (is_finish n) (of_caller 0 es) ≡ times (is_finish n) es }
{}

/// The board has a request for each submission: as many, and each where it was submitted, once.
pub fn requests_are_submissions()
    ensures count { (limit : ℕ) (es : List Entry) → Legal limit es
        → times is_any_submit es ≡ length (board_of limit es).requests }
    ensures each { (limit : ℕ) (es : List Entry) → Legal limit es → (n : ℕ)
        → times (is_submit n) es ≡ there (slice_get (board_of limit es).requests n) }
{}

/// The executor is closed where a closing stands in its history, which is once.
pub fn closed_where_a_close_stands()
    ensures { (limit : ℕ) (es : List Entry) → Legal limit es
        → times is_close es ≡ cond (board_of limit es).closed 1 0 }
{}

/// The target's own entries tell what runs, and a submitter's own entries what is its own and not spent.
pub fn own_entries_tell()
    ensures runs { (limit : ℕ) (es : List Entry) → Legal limit es → (n : ℕ)
        → Unfinished (of_caller 0 es) n ↔ IsRunning (board_of limit es) n }
    ensures fresh { (n : ℕ) (mine : List Entry) → times (is_start n) mine ≡ 0 → Unfinished mine n
        → ⊥ }
    ensures own { (limit : ℕ) (es : List Entry) → Legal limit es → (c n : ℕ)
        → Outstanding (of_caller c es) n → IsOwn (board_of limit es) c n }
{}

/// What is open after one entry more.
pub fn entry_opens_or_ends()
    ensures asked { (n : ℕ) (mine : List Entry) (e : Entry)
        → is_among n (outstanding (mine ++ e ∷ []))
        ≡ cond (is_spend n e) false (cond (is_submit n e) true (is_among n (outstanding mine))) }
    ensures run { (n : ℕ) (mine : List Entry) (e : Entry)
        → is_among n (unfinished (mine ++ e ∷ []))
        ≡ cond (is_finish n e) false (cond (is_start n e) true (is_among n (unfinished mine))) }
{}

/// The place of an end is that of an entry of the history that ends the request, which has then ended: its caller is given its
/// outcome.
pub fn ends_have_places()
    ensures entry { (limit : ℕ) (es : List Entry) (n place : ℕ) → end_of limit es n ≡ Some place
        → (before : List Entry) × (e : Entry) × (more : List Entry) × (es ≡ before ++ e ∷ more)
        × (length before ≡ place) × (ends_by (board_of limit before) n e.call e.reply ≢ 0) }
    ensures collected { (limit : ℕ) (es : List Entry) (c n place : ℕ) → Legal limit es
        → Outstanding (of_caller c es) n → end_of limit es n ≡ Some place
        → (o : Outcome) × ((act (board_of limit es) c (Collect n)).1 ≡ Ended o) }
{}
