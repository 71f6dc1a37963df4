//! Worked scripts on sets, cancelers and dropped promises.
ghost use Rattle.std.specs.Prelude.{◌≡◌};
ghost use Rattle.kj_model.specs.Log.{log_of};
ghost use Rattle.kj_model.specs.Places.{arenas_fit};
ghost use Rattle.kj_model.specs.Text.{log_text};
ghost use Rattle.kj_model.specs.OwningScripts.{dropped_ahead_of_the_point, dropped_ahead_of_the_point_log, empty_before_the_error_step, empty_before_the_error_step_log, clear_in_the_error_step, clear_in_the_error_step_log, one_promise_of_emptiness, one_promise_of_emptiness_log, cancelled_while_armed, cancelled_while_armed_log, newer_wrap_frees_an_older, newer_wrap_frees_an_older_log, clear_is_busy, clear_is_busy_log, promise_is_busy, promise_is_busy_log, cancel_is_busy, cancel_is_busy_log, dropped_while_armed, dropped_while_armed_log, cleared_set_is_empty, cleared_set_is_empty_log, filled_in_the_error_step, filled_in_the_error_step_log, cancelled_in_a_turn, cancelled_in_a_turn_log, canceler_dropped, canceler_dropped_log};

/// The steps of a promise that was dropped never run, and its events leave the queue.
pub fn dropped_promises_never_run()
    ensures dropped_ahead_of_the_point { log_text (log_of arenas_fit dropped_ahead_of_the_point)
        ≡ dropped_ahead_of_the_point_log }
    ensures dropped_while_armed { log_text (log_of arenas_fit dropped_while_armed)
        ≡ dropped_while_armed_log }
{}

/// A set frees its tasks, and tells when it is empty.
pub fn sets_own_their_tasks()
    ensures empty_before_the_error_step { log_text (log_of arenas_fit empty_before_the_error_step)
        ≡ empty_before_the_error_step_log }
    ensures clear_in_the_error_step { log_text (log_of arenas_fit clear_in_the_error_step)
        ≡ clear_in_the_error_step_log }
    ensures one_promise_of_emptiness { log_text (log_of arenas_fit one_promise_of_emptiness)
        ≡ one_promise_of_emptiness_log }
    ensures cleared_set_is_empty { log_text (log_of arenas_fit cleared_set_is_empty)
        ≡ cleared_set_is_empty_log }
    ensures filled_in_the_error_step { log_text (log_of arenas_fit filled_in_the_error_step)
        ≡ filled_in_the_error_step_log }
{}

/// A canceler ends its wraps, newest first.
pub fn cancelers_end_their_wraps()
    ensures cancelled_while_armed { log_text (log_of arenas_fit cancelled_while_armed)
        ≡ cancelled_while_armed_log }
    ensures newer_wrap_frees_an_older { log_text (log_of arenas_fit newer_wrap_frees_an_older)
        ≡ newer_wrap_frees_an_older_log }
    ensures cancelled_in_a_turn { log_text (log_of arenas_fit cancelled_in_a_turn)
        ≡ cancelled_in_a_turn_log }
    ensures canceler_dropped { log_text (log_of arenas_fit canceler_dropped)
        ≡ canceler_dropped_log }
{}

/// No step frees the node whose event fires.
pub fn what_fires_is_kept()
    ensures clear_is_busy { log_text (log_of arenas_fit clear_is_busy) ≡ clear_is_busy_log }
    ensures promise_is_busy { log_text (log_of arenas_fit promise_is_busy) ≡ promise_is_busy_log }
    ensures cancel_is_busy { log_text (log_of arenas_fit cancel_is_busy) ≡ cancel_is_busy_log }
{}
