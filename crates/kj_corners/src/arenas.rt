//! The worked scripts of the definitions over the arenas of the program's store: their logs, and the paths of their
//! arenas.
ghost use Rattle.std.specs.Prelude.{◌≡◌, true};
ghost use Rattle.kj_corners.specs.Paths.{always_paths};
ghost use Rattle.kj_model.specs.Log.{log_of};
ghost use Rattle.kj_model.specs.Text.{log_text};
ghost use Rattle.node_arena.specs.Needs.{places_fit};
ghost use Rattle.kj_model.specs.OrderScripts.{run_makes_turns, run_makes_turns_log, settled_goes_ahead, settled_goes_ahead_log, settled_in_order, settled_in_order_log, reply_stands_behind, reply_stands_behind_log, wait_moves_no_point, wait_moves_no_point_log, last_in_reverse, last_in_reverse_log, chain_over_last, chain_over_last_log, last_in_a_race, last_in_a_race_log, promise_loop, promise_loop_log, promise_needs_a_chain, promise_needs_a_chain_log, chain_ready_in_place, chain_ready_in_place_log, bodies_by_run, bodies_by_run_log, dropped_fulfiller, dropped_fulfiller_log, exception_passes, exception_passes_log, eager_keeps, eager_keeps_log, settled_once, settled_once_log};
ghost use Rattle.kj_model.specs.SharingScripts.{loser_is_disarmed, loser_is_disarmed_log, loser_fires_without_effect, loser_fires_without_effect_log, loser_takes_the_hub, loser_takes_the_hub_log, all_in_order, all_in_order_log, all_ends_every_part, all_ends_every_part_log, fast_ends_early, fast_ends_early_log, fast_goes_on, fast_goes_on_log, too_many_words, too_many_words_log, joins_of_none, joins_of_none_log, branches_share, branches_share_log, closing_drops_references, closing_drops_references_log, hub_that_fires_stays, hub_that_fires_stays_log, exception_to_each_branch, exception_to_each_branch_log, hub_over_a_given_promise, hub_over_a_given_promise_log, hub_holds_its_branch, hub_holds_its_branch_log, hub_holds_what_fires, hub_holds_what_fires_log, hub_fires_and_loses_its_branch, hub_fires_and_loses_its_branch_log, hub_holds_the_cancelled, hub_holds_the_cancelled_log};
ghost use Rattle.kj_model.specs.OwningScripts.{dropped_ahead_of_the_point, dropped_ahead_of_the_point_log, dropped_while_armed, dropped_while_armed_log, empty_before_the_error_step, empty_before_the_error_step_log, clear_in_the_error_step, clear_in_the_error_step_log, one_promise_of_emptiness, one_promise_of_emptiness_log, cleared_set_is_empty, cleared_set_is_empty_log, filled_in_the_error_step, filled_in_the_error_step_log, cancelled_while_armed, cancelled_while_armed_log, newer_wrap_frees_an_older, newer_wrap_frees_an_older_log, cancelled_in_a_turn, cancelled_in_a_turn_log, canceler_dropped, canceler_dropped_log, clear_is_busy, clear_is_busy_log, promise_is_busy, promise_is_busy_log, cancel_is_busy, cancel_is_busy_log};
ghost use Rattle.kj_model.specs.RefusingScripts.{named_twice, named_twice_log, order_of_causes, order_of_causes_log, outside_alone, outside_alone_log, refused_in_a_step, refused_in_a_step_log, path_of_eight, path_of_eight_log, path_of_nine, path_of_nine_log, two_leaves_in_arenas, two_leaves_in_arenas_log, request_in_one_arena, request_in_one_arena_log, no_place_twice, no_place_twice_log, chain_over_the_first_place, chain_over_the_first_place_log, full_by_places, full_by_places_log};
ghost use Rattle.kj_model.specs.WaitingScripts.{name_taken_meanwhile, name_taken_meanwhile_log, name_counts_meanwhile, name_counts_meanwhile_log, awaited_again, awaited_again_log, request_ends, request_ends_log, request_stopped, request_stopped_log, ask_abandoned, ask_abandoned_log, ask_replied, ask_replied_log, abandoned_name_is_free, abandoned_name_is_free_log, request_of_a_promise, request_of_a_promise_log, asks_in_order, asks_in_order_log, ask_dropped_in_its_step, ask_dropped_in_its_step_log, request_again, request_again_log};

/// The scripts on order of events have their logs over these arenas.
pub fn order_scripts_have_their_logs()
    ensures run_makes_turns { log_text (log_of places_fit run_makes_turns) ≡ run_makes_turns_log }
    ensures settled_goes_ahead { log_text (log_of places_fit settled_goes_ahead)
        ≡ settled_goes_ahead_log }
    ensures settled_in_order { log_text (log_of places_fit settled_in_order)
        ≡ settled_in_order_log }
    ensures reply_stands_behind { log_text (log_of places_fit reply_stands_behind)
        ≡ reply_stands_behind_log }
    ensures wait_moves_no_point { log_text (log_of places_fit wait_moves_no_point)
        ≡ wait_moves_no_point_log }
    ensures last_in_reverse { log_text (log_of places_fit last_in_reverse) ≡ last_in_reverse_log }
    ensures chain_over_last { log_text (log_of places_fit chain_over_last) ≡ chain_over_last_log }
    ensures last_in_a_race { log_text (log_of places_fit last_in_a_race) ≡ last_in_a_race_log }
    ensures promise_loop { log_text (log_of places_fit promise_loop) ≡ promise_loop_log }
    ensures promise_needs_a_chain { log_text (log_of places_fit promise_needs_a_chain)
        ≡ promise_needs_a_chain_log }
    ensures chain_ready_in_place { log_text (log_of places_fit chain_ready_in_place)
        ≡ chain_ready_in_place_log }
    ensures bodies_by_run { log_text (log_of places_fit bodies_by_run) ≡ bodies_by_run_log }
    ensures dropped_fulfiller { log_text (log_of places_fit dropped_fulfiller)
        ≡ dropped_fulfiller_log }
    ensures exception_passes { log_text (log_of places_fit exception_passes)
        ≡ exception_passes_log }
    ensures eager_keeps { log_text (log_of places_fit eager_keeps) ≡ eager_keeps_log }
    ensures settled_once { log_text (log_of places_fit settled_once) ≡ settled_once_log }
{}

/// After each of their lines the live nodes of each arena are one path.
pub fn order_scripts_keep_paths()
    ensures run_makes_turns { always_paths places_fit run_makes_turns ≡ true }
    ensures settled_goes_ahead { always_paths places_fit settled_goes_ahead ≡ true }
    ensures settled_in_order { always_paths places_fit settled_in_order ≡ true }
    ensures reply_stands_behind { always_paths places_fit reply_stands_behind ≡ true }
    ensures wait_moves_no_point { always_paths places_fit wait_moves_no_point ≡ true }
    ensures last_in_reverse { always_paths places_fit last_in_reverse ≡ true }
    ensures chain_over_last { always_paths places_fit chain_over_last ≡ true }
    ensures last_in_a_race { always_paths places_fit last_in_a_race ≡ true }
    ensures promise_loop { always_paths places_fit promise_loop ≡ true }
    ensures promise_needs_a_chain { always_paths places_fit promise_needs_a_chain ≡ true }
    ensures chain_ready_in_place { always_paths places_fit chain_ready_in_place ≡ true }
    ensures bodies_by_run { always_paths places_fit bodies_by_run ≡ true }
    ensures dropped_fulfiller { always_paths places_fit dropped_fulfiller ≡ true }
    ensures exception_passes { always_paths places_fit exception_passes ≡ true }
    ensures eager_keeps { always_paths places_fit eager_keeps ≡ true }
    ensures settled_once { always_paths places_fit settled_once ≡ true }
{}

/// The scripts on shared promises have their logs over these arenas.
pub fn sharing_scripts_have_their_logs()
    ensures loser_is_disarmed { log_text (log_of places_fit loser_is_disarmed)
        ≡ loser_is_disarmed_log }
    ensures loser_fires_without_effect { log_text (log_of places_fit loser_fires_without_effect)
        ≡ loser_fires_without_effect_log }
    ensures loser_takes_the_hub { log_text (log_of places_fit loser_takes_the_hub)
        ≡ loser_takes_the_hub_log }
    ensures all_in_order { log_text (log_of places_fit all_in_order) ≡ all_in_order_log }
    ensures all_ends_every_part { log_text (log_of places_fit all_ends_every_part)
        ≡ all_ends_every_part_log }
    ensures fast_ends_early { log_text (log_of places_fit fast_ends_early) ≡ fast_ends_early_log }
    ensures fast_goes_on { log_text (log_of places_fit fast_goes_on) ≡ fast_goes_on_log }
    ensures too_many_words { log_text (log_of places_fit too_many_words) ≡ too_many_words_log }
    ensures joins_of_none { log_text (log_of places_fit joins_of_none) ≡ joins_of_none_log }
    ensures branches_share { log_text (log_of places_fit branches_share) ≡ branches_share_log }
    ensures closing_drops_references { log_text (log_of places_fit closing_drops_references)
        ≡ closing_drops_references_log }
    ensures hub_that_fires_stays { log_text (log_of places_fit hub_that_fires_stays)
        ≡ hub_that_fires_stays_log }
    ensures exception_to_each_branch { log_text (log_of places_fit exception_to_each_branch)
        ≡ exception_to_each_branch_log }
    ensures hub_over_a_given_promise { log_text (log_of places_fit hub_over_a_given_promise)
        ≡ hub_over_a_given_promise_log }
    ensures hub_holds_its_branch { log_text (log_of places_fit hub_holds_its_branch)
        ≡ hub_holds_its_branch_log }
    ensures hub_holds_what_fires { log_text (log_of places_fit hub_holds_what_fires)
        ≡ hub_holds_what_fires_log }
    ensures hub_fires_and_loses_its_branch { log_text
        (log_of places_fit hub_fires_and_loses_its_branch) ≡ hub_fires_and_loses_its_branch_log }
    ensures hub_holds_the_cancelled { log_text (log_of places_fit hub_holds_the_cancelled)
        ≡ hub_holds_the_cancelled_log }
{}

/// After each of their lines the live nodes of each arena are one path.
pub fn sharing_scripts_keep_paths()
    ensures loser_is_disarmed { always_paths places_fit loser_is_disarmed ≡ true }
    ensures loser_fires_without_effect { always_paths places_fit loser_fires_without_effect ≡ true }
    ensures loser_takes_the_hub { always_paths places_fit loser_takes_the_hub ≡ true }
    ensures all_in_order { always_paths places_fit all_in_order ≡ true }
    ensures all_ends_every_part { always_paths places_fit all_ends_every_part ≡ true }
    ensures fast_ends_early { always_paths places_fit fast_ends_early ≡ true }
    ensures fast_goes_on { always_paths places_fit fast_goes_on ≡ true }
    ensures too_many_words { always_paths places_fit too_many_words ≡ true }
    ensures joins_of_none { always_paths places_fit joins_of_none ≡ true }
    ensures branches_share { always_paths places_fit branches_share ≡ true }
    ensures closing_drops_references { always_paths places_fit closing_drops_references ≡ true }
    ensures hub_that_fires_stays { always_paths places_fit hub_that_fires_stays ≡ true }
    ensures exception_to_each_branch { always_paths places_fit exception_to_each_branch ≡ true }
    ensures hub_over_a_given_promise { always_paths places_fit hub_over_a_given_promise ≡ true }
    ensures hub_holds_its_branch { always_paths places_fit hub_holds_its_branch ≡ true }
    ensures hub_holds_what_fires { always_paths places_fit hub_holds_what_fires ≡ true }
    ensures hub_fires_and_loses_its_branch { always_paths places_fit hub_fires_and_loses_its_branch
        ≡ true }
    ensures hub_holds_the_cancelled { always_paths places_fit hub_holds_the_cancelled ≡ true }
{}

/// The scripts on tasks and cancelers have their logs over these arenas.
pub fn owning_scripts_have_their_logs()
    ensures dropped_ahead_of_the_point { log_text (log_of places_fit dropped_ahead_of_the_point)
        ≡ dropped_ahead_of_the_point_log }
    ensures dropped_while_armed { log_text (log_of places_fit dropped_while_armed)
        ≡ dropped_while_armed_log }
    ensures empty_before_the_error_step { log_text (log_of places_fit empty_before_the_error_step)
        ≡ empty_before_the_error_step_log }
    ensures clear_in_the_error_step { log_text (log_of places_fit clear_in_the_error_step)
        ≡ clear_in_the_error_step_log }
    ensures one_promise_of_emptiness { log_text (log_of places_fit one_promise_of_emptiness)
        ≡ one_promise_of_emptiness_log }
    ensures cleared_set_is_empty { log_text (log_of places_fit cleared_set_is_empty)
        ≡ cleared_set_is_empty_log }
    ensures filled_in_the_error_step { log_text (log_of places_fit filled_in_the_error_step)
        ≡ filled_in_the_error_step_log }
    ensures cancelled_while_armed { log_text (log_of places_fit cancelled_while_armed)
        ≡ cancelled_while_armed_log }
    ensures newer_wrap_frees_an_older { log_text (log_of places_fit newer_wrap_frees_an_older)
        ≡ newer_wrap_frees_an_older_log }
    ensures cancelled_in_a_turn { log_text (log_of places_fit cancelled_in_a_turn)
        ≡ cancelled_in_a_turn_log }
    ensures canceler_dropped { log_text (log_of places_fit canceler_dropped)
        ≡ canceler_dropped_log }
    ensures clear_is_busy { log_text (log_of places_fit clear_is_busy) ≡ clear_is_busy_log }
    ensures promise_is_busy { log_text (log_of places_fit promise_is_busy) ≡ promise_is_busy_log }
    ensures cancel_is_busy { log_text (log_of places_fit cancel_is_busy) ≡ cancel_is_busy_log }
{}

/// After each of their lines the live nodes of each arena are one path.
pub fn owning_scripts_keep_paths()
    ensures dropped_ahead_of_the_point { always_paths places_fit dropped_ahead_of_the_point ≡ true }
    ensures dropped_while_armed { always_paths places_fit dropped_while_armed ≡ true }
    ensures empty_before_the_error_step { always_paths places_fit empty_before_the_error_step
        ≡ true }
    ensures clear_in_the_error_step { always_paths places_fit clear_in_the_error_step ≡ true }
    ensures one_promise_of_emptiness { always_paths places_fit one_promise_of_emptiness ≡ true }
    ensures cleared_set_is_empty { always_paths places_fit cleared_set_is_empty ≡ true }
    ensures filled_in_the_error_step { always_paths places_fit filled_in_the_error_step ≡ true }
    ensures cancelled_while_armed { always_paths places_fit cancelled_while_armed ≡ true }
    ensures newer_wrap_frees_an_older { always_paths places_fit newer_wrap_frees_an_older ≡ true }
    ensures cancelled_in_a_turn { always_paths places_fit cancelled_in_a_turn ≡ true }
    ensures canceler_dropped { always_paths places_fit canceler_dropped ≡ true }
    ensures clear_is_busy { always_paths places_fit clear_is_busy ≡ true }
    ensures promise_is_busy { always_paths places_fit promise_is_busy ≡ true }
    ensures cancel_is_busy { always_paths places_fit cancel_is_busy ≡ true }
{}

/// The scripts on refusals and places have their logs over these arenas.
pub fn refusing_scripts_have_their_logs()
    ensures named_twice { log_text (log_of places_fit named_twice) ≡ named_twice_log }
    ensures order_of_causes { log_text (log_of places_fit order_of_causes) ≡ order_of_causes_log }
    ensures outside_alone { log_text (log_of places_fit outside_alone) ≡ outside_alone_log }
    ensures refused_in_a_step { log_text (log_of places_fit refused_in_a_step)
        ≡ refused_in_a_step_log }
    ensures path_of_eight { log_text (log_of places_fit path_of_eight) ≡ path_of_eight_log }
    ensures path_of_nine { log_text (log_of places_fit path_of_nine) ≡ path_of_nine_log }
    ensures two_leaves_in_arenas { log_text (log_of places_fit two_leaves_in_arenas)
        ≡ two_leaves_in_arenas_log }
    ensures request_in_one_arena { log_text (log_of places_fit request_in_one_arena)
        ≡ request_in_one_arena_log }
    ensures no_place_twice { log_text (log_of places_fit no_place_twice) ≡ no_place_twice_log }
    ensures chain_over_the_first_place { log_text (log_of places_fit chain_over_the_first_place)
        ≡ chain_over_the_first_place_log }
    ensures full_by_places { log_text (log_of places_fit full_by_places) ≡ full_by_places_log }
{}

/// After each of their lines the live nodes of each arena are one path.
pub fn refusing_scripts_keep_paths()
    ensures named_twice { always_paths places_fit named_twice ≡ true }
    ensures order_of_causes { always_paths places_fit order_of_causes ≡ true }
    ensures outside_alone { always_paths places_fit outside_alone ≡ true }
    ensures refused_in_a_step { always_paths places_fit refused_in_a_step ≡ true }
    ensures path_of_eight { always_paths places_fit path_of_eight ≡ true }
    ensures path_of_nine { always_paths places_fit path_of_nine ≡ true }
    ensures two_leaves_in_arenas { always_paths places_fit two_leaves_in_arenas ≡ true }
    ensures request_in_one_arena { always_paths places_fit request_in_one_arena ≡ true }
    ensures no_place_twice { always_paths places_fit no_place_twice ≡ true }
    ensures chain_over_the_first_place { always_paths places_fit chain_over_the_first_place ≡ true }
    ensures full_by_places { always_paths places_fit full_by_places ≡ true }
{}

/// The scripts on waits and requests have their logs over these arenas.
pub fn waiting_scripts_have_their_logs()
    ensures name_taken_meanwhile { log_text (log_of places_fit name_taken_meanwhile)
        ≡ name_taken_meanwhile_log }
    ensures name_counts_meanwhile { log_text (log_of places_fit name_counts_meanwhile)
        ≡ name_counts_meanwhile_log }
    ensures awaited_again { log_text (log_of places_fit awaited_again) ≡ awaited_again_log }
    ensures request_ends { log_text (log_of places_fit request_ends) ≡ request_ends_log }
    ensures request_stopped { log_text (log_of places_fit request_stopped) ≡ request_stopped_log }
    ensures ask_abandoned { log_text (log_of places_fit ask_abandoned) ≡ ask_abandoned_log }
    ensures ask_replied { log_text (log_of places_fit ask_replied) ≡ ask_replied_log }
    ensures abandoned_name_is_free { log_text (log_of places_fit abandoned_name_is_free)
        ≡ abandoned_name_is_free_log }
    ensures request_of_a_promise { log_text (log_of places_fit request_of_a_promise)
        ≡ request_of_a_promise_log }
    ensures asks_in_order { log_text (log_of places_fit asks_in_order) ≡ asks_in_order_log }
    ensures ask_dropped_in_its_step { log_text (log_of places_fit ask_dropped_in_its_step)
        ≡ ask_dropped_in_its_step_log }
    ensures request_again { log_text (log_of places_fit request_again) ≡ request_again_log }
{}

/// After each of their lines the live nodes of each arena are one path.
pub fn waiting_scripts_keep_paths()
    ensures name_taken_meanwhile { always_paths places_fit name_taken_meanwhile ≡ true }
    ensures name_counts_meanwhile { always_paths places_fit name_counts_meanwhile ≡ true }
    ensures awaited_again { always_paths places_fit awaited_again ≡ true }
    ensures request_ends { always_paths places_fit request_ends ≡ true }
    ensures request_stopped { always_paths places_fit request_stopped ≡ true }
    ensures ask_abandoned { always_paths places_fit ask_abandoned ≡ true }
    ensures ask_replied { always_paths places_fit ask_replied ≡ true }
    ensures abandoned_name_is_free { always_paths places_fit abandoned_name_is_free ≡ true }
    ensures request_of_a_promise { always_paths places_fit request_of_a_promise ≡ true }
    ensures asks_in_order { always_paths places_fit asks_in_order ≡ true }
    ensures ask_dropped_in_its_step { always_paths places_fit ask_dropped_in_its_step ≡ true }
    ensures request_again { always_paths places_fit request_again ≡ true }
{}
