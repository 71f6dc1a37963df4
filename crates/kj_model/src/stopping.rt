//! Worked lists of calls where no step finds memory.
ghost use Rattle.std.specs.Prelude.{◌≡◌};
ghost use Rattle.kj_model.specs.CallLists.{Seen, seen_without_memory, no_memory_calls, no_memory_past, no_memory_replies, no_memory_waiting_calls, no_memory_waiting_past, no_memory_waiting_replies};

/// A step that finds no memory stops its loop, and the closing frees what is left.
pub fn no_memory_stops_the_loop()
    ensures in_a_turn { seen_without_memory no_memory_calls
        ≡ (record { past = no_memory_past; replies = no_memory_replies }) }
    ensures in_a_wait { seen_without_memory no_memory_waiting_calls
        ≡ (record { past = no_memory_waiting_past; replies = no_memory_waiting_replies }) }
{}
