//! Worked scripts on the order of events.
ghost use Rattle.std.specs.Prelude.{◌≡◌};
ghost use Rattle.kj_model.specs.Log.{log_of};
ghost use Rattle.kj_model.specs.Places.{arenas_fit, table_fits};
ghost use Rattle.kj_model.specs.Text.{log_text};
ghost use Rattle.kj_model.specs.OrderScripts.{dependency_goes_first, dependency_goes_first_log, armed_in_order, armed_in_order_log, run_makes_turns, run_makes_turns_log, settled_goes_ahead, settled_goes_ahead_log, settled_in_order, settled_in_order_log, reply_stands_behind, reply_stands_behind_log, wait_moves_no_point, wait_moves_no_point_log, last_in_reverse, last_in_reverse_log, chain_over_last, chain_over_last_log, promise_loop, promise_loop_log, promise_needs_a_chain, promise_needs_a_chain_log, bodies_by_run, bodies_by_run_log, dropped_fulfiller, dropped_fulfiller_log, exception_passes, exception_passes_log, last_in_a_race, last_in_a_race_log, chain_ready_in_place, chain_ready_in_place_log, eager_keeps, eager_keeps_log, settled_once, settled_once_log};

/// A turn runs one event, a step runs after what it waits for was freed, and events run in the
/// order of arming.
pub fn turns_take_events_in_order()
    ensures dependency_goes_first { log_text (log_of table_fits dependency_goes_first)
        ≡ dependency_goes_first_log }
    ensures armed_in_order { log_text (log_of table_fits armed_in_order) ≡ armed_in_order_log }
    ensures run_makes_turns { log_text (log_of arenas_fit run_makes_turns) ≡ run_makes_turns_log }
{}

/// What a settled cell arms runs before what was armed earlier, in the order of settling; a reply
/// goes behind.
pub fn settled_cells_go_ahead()
    ensures settled_goes_ahead { log_text (log_of arenas_fit settled_goes_ahead)
        ≡ settled_goes_ahead_log }
    ensures settled_in_order { log_text (log_of arenas_fit settled_in_order)
        ≡ settled_in_order_log }
    ensures reply_stands_behind { log_text (log_of arenas_fit reply_stands_behind)
        ≡ reply_stands_behind_log }
    ensures wait_moves_no_point { log_text (log_of arenas_fit wait_moves_no_point)
        ≡ wait_moves_no_point_log }
{}

/// Last events run behind all others, the newest first.
pub fn last_events_go_last()
    ensures last_in_reverse { log_text (log_of arenas_fit last_in_reverse) ≡ last_in_reverse_log }
    ensures chain_over_last { log_text (log_of arenas_fit chain_over_last) ≡ chain_over_last_log }
    ensures last_in_a_race { log_text (log_of arenas_fit last_in_a_race) ≡ last_in_a_race_log }
{}

/// A chain takes the place of the promise that its step gave.
pub fn chains_take_promises()
    ensures promise_loop { log_text (log_of arenas_fit promise_loop) ≡ promise_loop_log }
    ensures promise_needs_a_chain { log_text (log_of arenas_fit promise_needs_a_chain)
        ≡ promise_needs_a_chain_log }
    ensures chain_ready_in_place { log_text (log_of arenas_fit chain_ready_in_place)
        ≡ chain_ready_in_place_log }
{}

/// An outcome passes where the step for it is absent, and steps without a body give their input.
pub fn outcomes_pass()
    ensures bodies_by_run { log_text (log_of arenas_fit bodies_by_run) ≡ bodies_by_run_log }
    ensures dropped_fulfiller { log_text (log_of arenas_fit dropped_fulfiller)
        ≡ dropped_fulfiller_log }
    ensures exception_passes { log_text (log_of arenas_fit exception_passes)
        ≡ exception_passes_log }
    ensures eager_keeps { log_text (log_of arenas_fit eager_keeps) ≡ eager_keeps_log }
    ensures settled_once { log_text (log_of arenas_fit settled_once) ≡ settled_once_log }
{}
