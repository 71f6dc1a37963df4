//! What each world of a loop keeps, computed on the worked scripts.
ghost use Rattle.std.specs.Prelude.{◌≡◌, true};
ghost use Rattle.kj_model.specs.OwnedTest.{always_owned};
ghost use Rattle.kj_model.specs.Places.{arenas_fit, table_fits};
ghost use Rattle.kj_model.specs.OrderScripts.{dependency_goes_first, armed_in_order, run_makes_turns, settled_goes_ahead, settled_in_order, reply_stands_behind, wait_moves_no_point, last_in_reverse, chain_over_last, promise_loop, promise_needs_a_chain, bodies_by_run, dropped_fulfiller, exception_passes, last_in_a_race, chain_ready_in_place, eager_keeps, settled_once};
ghost use Rattle.kj_model.specs.SharingScripts.{loser_is_disarmed, loser_fires_without_effect, all_in_order, all_ends_every_part, fast_ends_early, fast_goes_on, too_many_words, branches_share, closing_drops_references, hub_that_fires_stays, hub_holds_its_branch, hub_holds_what_fires, hub_fires_and_loses_its_branch, hub_holds_the_cancelled, loser_takes_the_hub, joins_of_none, exception_to_each_branch, hub_over_a_given_promise};
ghost use Rattle.kj_model.specs.OwningScripts.{dropped_ahead_of_the_point, empty_before_the_error_step, clear_in_the_error_step, one_promise_of_emptiness, cancelled_while_armed, newer_wrap_frees_an_older, clear_is_busy, promise_is_busy, cancel_is_busy, dropped_while_armed, cleared_set_is_empty, filled_in_the_error_step, cancelled_in_a_turn, canceler_dropped};
ghost use Rattle.kj_model.specs.RefusingScripts.{taken_and_unknown, named_twice, order_of_causes, outside_alone, path_of_eight, path_of_nine, two_leaves_in_a_table, two_leaves_in_arenas, request_in_one_arena, no_place_twice, chain_over_the_first_place, refused_in_a_step, full_by_places, full_of_names};
ghost use Rattle.kj_model.specs.WaitingScripts.{name_taken_meanwhile, name_counts_meanwhile, request_ends, request_stopped, ask_abandoned, ask_replied, abandoned_name_is_free, awaited_again, request_of_a_promise, asks_in_order, ask_dropped_in_its_step, request_again};

/// Each live node stands once, queues and hubs fit their worlds, and each number is live or was
/// freed once.
pub fn order_scripts_keep_it()
    ensures dependency_goes_first { always_owned table_fits dependency_goes_first ≡ true }
    ensures armed_in_order { always_owned table_fits armed_in_order ≡ true }
    ensures run_makes_turns { always_owned arenas_fit run_makes_turns ≡ true }
    ensures settled_goes_ahead { always_owned arenas_fit settled_goes_ahead ≡ true }
    ensures settled_in_order { always_owned arenas_fit settled_in_order ≡ true }
    ensures reply_stands_behind { always_owned arenas_fit reply_stands_behind ≡ true }
    ensures wait_moves_no_point { always_owned arenas_fit wait_moves_no_point ≡ true }
    ensures last_in_reverse { always_owned arenas_fit last_in_reverse ≡ true }
    ensures chain_over_last { always_owned arenas_fit chain_over_last ≡ true }
    ensures promise_loop { always_owned arenas_fit promise_loop ≡ true }
    ensures promise_needs_a_chain { always_owned arenas_fit promise_needs_a_chain ≡ true }
    ensures bodies_by_run { always_owned arenas_fit bodies_by_run ≡ true }
    ensures dropped_fulfiller { always_owned arenas_fit dropped_fulfiller ≡ true }
    ensures exception_passes { always_owned arenas_fit exception_passes ≡ true }
    ensures last_in_a_race { always_owned arenas_fit last_in_a_race ≡ true }
    ensures chain_ready_in_place { always_owned arenas_fit chain_ready_in_place ≡ true }
    ensures eager_keeps { always_owned arenas_fit eager_keeps ≡ true }
    ensures settled_once { always_owned arenas_fit settled_once ≡ true }
{}

/// Each live node stands once, queues and hubs fit their worlds, and each number is live or was
/// freed once.
pub fn sharing_scripts_keep_it()
    ensures loser_is_disarmed { always_owned arenas_fit loser_is_disarmed ≡ true }
    ensures loser_fires_without_effect { always_owned arenas_fit loser_fires_without_effect ≡ true }
    ensures all_in_order { always_owned arenas_fit all_in_order ≡ true }
    ensures all_ends_every_part { always_owned arenas_fit all_ends_every_part ≡ true }
    ensures fast_ends_early { always_owned arenas_fit fast_ends_early ≡ true }
    ensures fast_goes_on { always_owned arenas_fit fast_goes_on ≡ true }
    ensures too_many_words { always_owned arenas_fit too_many_words ≡ true }
    ensures branches_share { always_owned arenas_fit branches_share ≡ true }
    ensures closing_drops_references { always_owned arenas_fit closing_drops_references ≡ true }
    ensures hub_that_fires_stays { always_owned arenas_fit hub_that_fires_stays ≡ true }
    ensures hub_holds_its_branch { always_owned arenas_fit hub_holds_its_branch ≡ true }
    ensures hub_holds_what_fires { always_owned arenas_fit hub_holds_what_fires ≡ true }
    ensures hub_fires_and_loses_its_branch { always_owned arenas_fit hub_fires_and_loses_its_branch
        ≡ true }
    ensures hub_holds_the_cancelled { always_owned arenas_fit hub_holds_the_cancelled ≡ true }
    ensures loser_takes_the_hub { always_owned arenas_fit loser_takes_the_hub ≡ true }
    ensures joins_of_none { always_owned arenas_fit joins_of_none ≡ true }
    ensures exception_to_each_branch { always_owned arenas_fit exception_to_each_branch ≡ true }
    ensures hub_over_a_given_promise { always_owned arenas_fit hub_over_a_given_promise ≡ true }
{}

/// Each live node stands once, queues and hubs fit their worlds, and each number is live or was
/// freed once.
pub fn owning_scripts_keep_it()
    ensures dropped_ahead_of_the_point { always_owned arenas_fit dropped_ahead_of_the_point ≡ true }
    ensures empty_before_the_error_step { always_owned arenas_fit empty_before_the_error_step
        ≡ true }
    ensures clear_in_the_error_step { always_owned arenas_fit clear_in_the_error_step ≡ true }
    ensures one_promise_of_emptiness { always_owned arenas_fit one_promise_of_emptiness ≡ true }
    ensures cancelled_while_armed { always_owned arenas_fit cancelled_while_armed ≡ true }
    ensures newer_wrap_frees_an_older { always_owned arenas_fit newer_wrap_frees_an_older ≡ true }
    ensures clear_is_busy { always_owned arenas_fit clear_is_busy ≡ true }
    ensures promise_is_busy { always_owned arenas_fit promise_is_busy ≡ true }
    ensures cancel_is_busy { always_owned arenas_fit cancel_is_busy ≡ true }
    ensures dropped_while_armed { always_owned arenas_fit dropped_while_armed ≡ true }
    ensures cleared_set_is_empty { always_owned arenas_fit cleared_set_is_empty ≡ true }
    ensures filled_in_the_error_step { always_owned arenas_fit filled_in_the_error_step ≡ true }
    ensures cancelled_in_a_turn { always_owned arenas_fit cancelled_in_a_turn ≡ true }
    ensures canceler_dropped { always_owned arenas_fit canceler_dropped ≡ true }
{}

/// Each live node stands once, queues and hubs fit their worlds, and each number is live or was
/// freed once.
pub fn refusing_scripts_keep_it()
    ensures taken_and_unknown { always_owned table_fits taken_and_unknown ≡ true }
    ensures named_twice { always_owned arenas_fit named_twice ≡ true }
    ensures order_of_causes { always_owned arenas_fit order_of_causes ≡ true }
    ensures outside_alone { always_owned arenas_fit outside_alone ≡ true }
    ensures path_of_eight { always_owned arenas_fit path_of_eight ≡ true }
    ensures path_of_nine { always_owned arenas_fit path_of_nine ≡ true }
    ensures two_leaves_in_a_table { always_owned table_fits two_leaves_in_a_table ≡ true }
    ensures two_leaves_in_arenas { always_owned arenas_fit two_leaves_in_arenas ≡ true }
    ensures request_in_one_arena { always_owned arenas_fit request_in_one_arena ≡ true }
    ensures no_place_twice { always_owned arenas_fit no_place_twice ≡ true }
    ensures chain_over_the_first_place { always_owned arenas_fit chain_over_the_first_place ≡ true }
    ensures refused_in_a_step { always_owned arenas_fit refused_in_a_step ≡ true }
    ensures full_by_places { always_owned arenas_fit full_by_places ≡ true }
    ensures full_of_names { always_owned table_fits full_of_names ≡ true }
{}

/// Each live node stands once, queues and hubs fit their worlds, and each number is live or was
/// freed once.
pub fn waiting_scripts_keep_it()
    ensures name_taken_meanwhile { always_owned arenas_fit name_taken_meanwhile ≡ true }
    ensures name_counts_meanwhile { always_owned arenas_fit name_counts_meanwhile ≡ true }
    ensures request_ends { always_owned arenas_fit request_ends ≡ true }
    ensures request_stopped { always_owned arenas_fit request_stopped ≡ true }
    ensures ask_abandoned { always_owned arenas_fit ask_abandoned ≡ true }
    ensures ask_replied { always_owned arenas_fit ask_replied ≡ true }
    ensures abandoned_name_is_free { always_owned arenas_fit abandoned_name_is_free ≡ true }
    ensures awaited_again { always_owned arenas_fit awaited_again ≡ true }
    ensures request_of_a_promise { always_owned arenas_fit request_of_a_promise ≡ true }
    ensures asks_in_order { always_owned arenas_fit asks_in_order ≡ true }
    ensures ask_dropped_in_its_step { always_owned arenas_fit ask_dropped_in_its_step ≡ true }
    ensures request_again { always_owned arenas_fit request_again ≡ true }
{}
