//! Worked scripts on races, joins and hubs.
ghost use Rattle.std.specs.Prelude.{◌≡◌, ℕ, List, [], ◌∷◌};
ghost use Rattle.kj_model.specs.Changes.{frees_in};
ghost use Rattle.kj_model.specs.Falling.{falling};
ghost use Rattle.kj_model.specs.Free.{Holding, free};
ghost use Rattle.kj_model.specs.HubWorld.{hub_world, hub_state};
ghost use Rattle.kj_model.specs.Log.{log_of};
ghost use Rattle.kj_model.specs.Places.{arenas_fit};
ghost use Rattle.kj_model.specs.Text.{log_text};
ghost use Rattle.kj_model.specs.SharingScripts.{loser_is_disarmed, loser_is_disarmed_log, loser_fires_without_effect, loser_fires_without_effect_log, all_in_order, all_in_order_log, all_ends_every_part, all_ends_every_part_log, fast_ends_early, fast_ends_early_log, fast_goes_on, fast_goes_on_log, too_many_words, too_many_words_log, branches_share, branches_share_log, closing_drops_references, closing_drops_references_log, hub_that_fires_stays, hub_that_fires_stays_log, hub_holds_its_branch, hub_holds_its_branch_log, hub_holds_what_fires, hub_holds_what_fires_log, hub_fires_and_loses_its_branch, hub_fires_and_loses_its_branch_log, hub_holds_the_cancelled, hub_holds_the_cancelled_log, loser_takes_the_hub, loser_takes_the_hub_log, joins_of_none, joins_of_none_log, exception_to_each_branch, exception_to_each_branch_log, hub_over_a_given_promise, hub_over_a_given_promise_log};

/// The first Side of a race that fires decides it.
pub fn races_have_one_winner()
    ensures loser_is_disarmed { log_text (log_of arenas_fit loser_is_disarmed)
        ≡ loser_is_disarmed_log }
    ensures loser_fires_without_effect { log_text (log_of arenas_fit loser_fires_without_effect)
        ≡ loser_fires_without_effect_log }
    ensures loser_takes_the_hub { log_text (log_of arenas_fit loser_takes_the_hub)
        ≡ loser_takes_the_hub_log }
{}

/// A join gives its outcomes in index order, or the first exception.
pub fn joins_go_by_index()
    ensures all_in_order { log_text (log_of arenas_fit all_in_order) ≡ all_in_order_log }
    ensures all_ends_every_part { log_text (log_of arenas_fit all_ends_every_part)
        ≡ all_ends_every_part_log }
    ensures fast_ends_early { log_text (log_of arenas_fit fast_ends_early) ≡ fast_ends_early_log }
    ensures fast_goes_on { log_text (log_of arenas_fit fast_goes_on) ≡ fast_goes_on_log }
    ensures too_many_words { log_text (log_of arenas_fit too_many_words) ≡ too_many_words_log }
    ensures joins_of_none { log_text (log_of arenas_fit joins_of_none) ≡ joins_of_none_log }
{}

/// Each branch gives the outcome of its hub; the last reference frees it.
pub fn hubs_are_shared()
    ensures branches_share { log_text (log_of arenas_fit branches_share) ≡ branches_share_log }
    ensures closing_drops_references { log_text (log_of arenas_fit closing_drops_references)
        ≡ closing_drops_references_log }
    ensures hub_that_fires_stays { log_text (log_of arenas_fit hub_that_fires_stays)
        ≡ hub_that_fires_stays_log }
    ensures exception_to_each_branch { log_text (log_of arenas_fit exception_to_each_branch)
        ≡ exception_to_each_branch_log }
    ensures hub_over_a_given_promise { log_text (log_of arenas_fit hub_over_a_given_promise)
        ≡ hub_over_a_given_promise_log }
{}

/// A hub that came to hold its own branch, or what fires, stays until the closing.
pub fn hubs_that_hold_themselves()
    ensures hub_holds_its_branch { log_text (log_of arenas_fit hub_holds_its_branch)
        ≡ hub_holds_its_branch_log }
    ensures hub_holds_what_fires { log_text (log_of arenas_fit hub_holds_what_fires)
        ≡ hub_holds_what_fires_log }
    ensures hub_fires_and_loses_its_branch { log_text
        (log_of arenas_fit hub_fires_and_loses_its_branch) ≡ hub_fires_and_loses_its_branch_log }
    ensures hub_holds_the_cancelled { log_text (log_of arenas_fit hub_holds_the_cancelled)
        ≡ hub_holds_the_cancelled_log }
{}

/// The last branch takes a hub without a name along, ahead of itself, unless the hub holds what the
/// guard names.
pub fn last_branch_takes_the_hub()
    ensures first { frees_in (free (Holding []) 4 hub_state).past ≡ 4 ∷ [] }
    ensures both { frees_in (free (Holding []) 6 hub_state).past ≡ 4 ∷ 1 ∷ 2 ∷ 3 ∷ 5 ∷ 6 ∷ [] }
    ensures kept { frees_in (free (Holding (1 ∷ [])) 6 hub_state).past ≡ 4 ∷ 5 ∷ 6 ∷ [] }
    ensures both_fall { falling (Holding []) hub_world 9 [] [] 6 ≡ 4 ∷ 1 ∷ 2 ∷ 3 ∷ 5 ∷ 6 ∷ [] }
    ensures kept_stays { falling (Holding (1 ∷ [])) hub_world 9 [] [] 6 ≡ 4 ∷ 5 ∷ 6 ∷ [] }
{}
