//! Worked scripts on waits, asks and requests.
ghost use Rattle.std.specs.Prelude.{◌≡◌};
ghost use Rattle.kj_model.specs.Log.{log_of};
ghost use Rattle.kj_model.specs.Places.{arenas_fit};
ghost use Rattle.kj_model.specs.Text.{log_text};
ghost use Rattle.kj_model.specs.WaitingScripts.{name_taken_meanwhile, name_taken_meanwhile_log, name_counts_meanwhile, name_counts_meanwhile_log, request_ends, request_ends_log, request_stopped, request_stopped_log, ask_abandoned, ask_abandoned_log, ask_replied, ask_replied_log, abandoned_name_is_free, abandoned_name_is_free_log, awaited_again, awaited_again_log, request_of_a_promise, request_of_a_promise_log, asks_in_order, asks_in_order_log, ask_dropped_in_its_step, ask_dropped_in_its_step_log, request_again, request_again_log};

/// A wait holds its promise until it ends.
pub fn waits_hold_their_promise()
    ensures name_taken_meanwhile { log_text (log_of arenas_fit name_taken_meanwhile)
        ≡ name_taken_meanwhile_log }
    ensures name_counts_meanwhile { log_text (log_of arenas_fit name_counts_meanwhile)
        ≡ name_counts_meanwhile_log }
    ensures awaited_again { log_text (log_of arenas_fit awaited_again) ≡ awaited_again_log }
{}

/// Asks, ended requests and abandoned cells are told once each.
pub fn asks_and_requests()
    ensures request_ends { log_text (log_of arenas_fit request_ends) ≡ request_ends_log }
    ensures request_stopped { log_text (log_of arenas_fit request_stopped) ≡ request_stopped_log }
    ensures ask_abandoned { log_text (log_of arenas_fit ask_abandoned) ≡ ask_abandoned_log }
    ensures ask_replied { log_text (log_of arenas_fit ask_replied) ≡ ask_replied_log }
    ensures abandoned_name_is_free { log_text (log_of arenas_fit abandoned_name_is_free)
        ≡ abandoned_name_is_free_log }
    ensures request_of_a_promise { log_text (log_of arenas_fit request_of_a_promise)
        ≡ request_of_a_promise_log }
    ensures asks_in_order { log_text (log_of arenas_fit asks_in_order) ≡ asks_in_order_log }
    ensures ask_dropped_in_its_step { log_text (log_of arenas_fit ask_dropped_in_its_step)
        ≡ ask_dropped_in_its_step_log }
    ensures request_again { log_text (log_of arenas_fit request_again) ≡ request_again_log }
{}
