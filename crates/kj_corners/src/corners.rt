//! Worked scripts on corners of the definitions.
ghost use Rattle.std.specs.Prelude.{◌≡◌, true};
ghost use Rattle.kj_corners.specs.AskLists.{replied_ask_calls, replied_ask_past, replied_ask_replies, listed_ask_calls, listed_ask_past, listed_ask_replies};
ghost use Rattle.kj_model.specs.CallLists.{Seen, seen_without_memory};
ghost use Rattle.kj_model.specs.Log.{log_of};
ghost use Rattle.kj_model.specs.OwnedTest.{always_owned};
ghost use Rattle.kj_model.specs.Places.{table_fits};
ghost use Rattle.kj_model.specs.Text.{log_text};
ghost use Rattle.kj_corners.specs.Scripts.{disarmed_at_the_first_point, disarmed_at_the_first_point_log, disarmed_at_the_second_point, disarmed_at_the_second_point_log, hub_arms_its_branches_first, hub_arms_its_branches_first_log, no_rewind_after_a_value, no_rewind_after_a_value_log, fast_is_ready_once, fast_is_ready_once_log, wrap_that_fires_keeps_its_canceler, wrap_that_fires_keeps_its_canceler_log, busy_over_a_hub_that_holds_it, busy_over_a_hub_that_holds_it_log, newest_wrap_goes_first, newest_wrap_goes_first_log, asks_before_ends, asks_before_ends_log, turns_before_idle, turns_before_idle_log};

/// Events go to their points: what leaves a point lowers none, a hub arms its branches first, and a
/// wait leaves the points as they are.
pub fn events_go_to_their_points()
    ensures disarmed_at_the_first_point { log_text (log_of table_fits disarmed_at_the_first_point)
        ≡ disarmed_at_the_first_point_log }
    ensures disarmed_at_the_second_point { log_text (log_of table_fits disarmed_at_the_second_point)
        ≡ disarmed_at_the_second_point_log }
    ensures hub_arms_its_branches_first { log_text (log_of table_fits hub_arms_its_branches_first)
        ≡ hub_arms_its_branches_first_log }
    ensures no_rewind_after_a_value { log_text (log_of table_fits no_rewind_after_a_value)
        ≡ no_rewind_after_a_value_log }
{}

/// A fast join tells once that it is ready.
pub fn joins_are_ready_once()
    ensures { log_text (log_of table_fits fast_is_ready_once) ≡ fast_is_ready_once_log }
{}

/// A command is busy that would settle the Wrap whose event fires, or free the hub over it.
pub fn what_fires_is_busy()
    ensures wrap_that_fires_keeps_its_canceler { log_text
        (log_of table_fits wrap_that_fires_keeps_its_canceler)
        ≡ wrap_that_fires_keeps_its_canceler_log }
    ensures busy_over_a_hub_that_holds_it { log_text
        (log_of table_fits busy_over_a_hub_that_holds_it) ≡ busy_over_a_hub_that_holds_it_log }
{}

/// Wraps are settled newest first, asks are told before ends, and want of turns before want of
/// events.
pub fn lists_come_in_order()
    ensures newest_wrap_goes_first { log_text (log_of table_fits newest_wrap_goes_first)
        ≡ newest_wrap_goes_first_log }
    ensures asks_before_ends { log_text (log_of table_fits asks_before_ends)
        ≡ asks_before_ends_log }
    ensures turns_before_idle { log_text (log_of table_fits turns_before_idle)
        ≡ turns_before_idle_log }
{}

/// What is told of an ask that was replied to, and of one that was abandoned while it was still
/// listed.
pub fn asks_are_told_once()
    ensures replied { seen_without_memory replied_ask_calls
        ≡ (record { past = replied_ask_past; replies = replied_ask_replies }) }
    ensures still_listed { seen_without_memory listed_ask_calls
        ≡ (record { past = listed_ask_past; replies = listed_ask_replies }) }
{}

/// Each live node stands once, queues and hubs fit their worlds, and each number is live or was
/// freed once.
pub fn corner_scripts_keep_it()
    ensures disarmed_at_the_first_point { always_owned table_fits disarmed_at_the_first_point
        ≡ true }
    ensures disarmed_at_the_second_point { always_owned table_fits disarmed_at_the_second_point
        ≡ true }
    ensures hub_arms_its_branches_first { always_owned table_fits hub_arms_its_branches_first
        ≡ true }
    ensures no_rewind_after_a_value { always_owned table_fits no_rewind_after_a_value ≡ true }
    ensures fast_is_ready_once { always_owned table_fits fast_is_ready_once ≡ true }
    ensures wrap_that_fires_keeps_its_canceler { always_owned table_fits
        wrap_that_fires_keeps_its_canceler ≡ true }
    ensures busy_over_a_hub_that_holds_it { always_owned table_fits busy_over_a_hub_that_holds_it
        ≡ true }
    ensures newest_wrap_goes_first { always_owned table_fits newest_wrap_goes_first ≡ true }
    ensures asks_before_ends { always_owned table_fits asks_before_ends ≡ true }
    ensures turns_before_idle { always_owned table_fits turns_before_idle ≡ true }
{}
