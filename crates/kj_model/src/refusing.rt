//! Worked scripts on refusals, and on places for nodes.
ghost use Rattle.std.specs.Prelude.{◌≡◌};
ghost use Rattle.kj_model.specs.Log.{log_of};
ghost use Rattle.kj_model.specs.Places.{arenas_fit, table_fits};
ghost use Rattle.kj_model.specs.Text.{log_text};
ghost use Rattle.kj_model.specs.RefusingScripts.{taken_and_unknown, taken_and_unknown_log, named_twice, named_twice_log, order_of_causes, order_of_causes_log, outside_alone, outside_alone_log, path_of_eight, path_of_eight_log, path_of_nine, path_of_nine_log, two_leaves_in_a_table, two_leaves_in_a_table_log, two_leaves_in_arenas, two_leaves_in_arenas_log, request_in_one_arena, request_in_one_arena_log, no_place_twice, no_place_twice_log, chain_over_the_first_place, chain_over_the_first_place_log, refused_in_a_step, refused_in_a_step_log, full_by_places, full_by_places_log, full_of_names, full_of_names_log};

/// A refusal names the first cause in the order of the causes, and all is as before.
pub fn refusals_change_nothing()
    ensures taken_and_unknown { log_text (log_of table_fits taken_and_unknown)
        ≡ taken_and_unknown_log }
    ensures named_twice { log_text (log_of arenas_fit named_twice) ≡ named_twice_log }
    ensures order_of_causes { log_text (log_of arenas_fit order_of_causes) ≡ order_of_causes_log }
    ensures outside_alone { log_text (log_of arenas_fit outside_alone) ≡ outside_alone_log }
    ensures refused_in_a_step { log_text (log_of arenas_fit refused_in_a_step)
        ≡ refused_in_a_step_log }
{}

/// A command is refused as full exactly where the store has no place for its nodes, or the names
/// would be too many.
pub fn stores_are_full()
    ensures path_of_eight { log_text (log_of arenas_fit path_of_eight) ≡ path_of_eight_log }
    ensures path_of_nine { log_text (log_of arenas_fit path_of_nine) ≡ path_of_nine_log }
    ensures two_leaves_in_a_table { log_text (log_of table_fits two_leaves_in_a_table)
        ≡ two_leaves_in_a_table_log }
    ensures two_leaves_in_arenas { log_text (log_of arenas_fit two_leaves_in_arenas)
        ≡ two_leaves_in_arenas_log }
    ensures request_in_one_arena { log_text (log_of arenas_fit request_in_one_arena)
        ≡ request_in_one_arena_log }
    ensures no_place_twice { log_text (log_of arenas_fit no_place_twice) ≡ no_place_twice_log }
    ensures chain_over_the_first_place { log_text (log_of arenas_fit chain_over_the_first_place)
        ≡ chain_over_the_first_place_log }
    ensures full_by_places { log_text (log_of arenas_fit full_by_places) ≡ full_by_places_log }
    ensures full_of_names { log_text (log_of table_fits full_of_names) ≡ full_of_names_log }
{}
