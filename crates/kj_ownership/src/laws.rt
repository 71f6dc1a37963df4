//! Laws of ownership.
ghost use Rattle.kj_base.specs.Commands.{Clear, Command, Drop, Stop};
ghost use Rattle.kj_base.specs.Places.{counts};
ghost use Rattle.kj_base.specs.Queue.{head_of};
ghost use Rattle.kj_base.specs.Record.{Item};
ghost use Rattle.kj_base.specs.declared.numbers.Limits.{Limits};
ghost use Rattle.kj_base.specs.declared.outcomes.Outcome.{Outcome};
ghost use Rattle.kj_model.specs.Apply.{apply, is_full, names_after, rows, would_free};
ghost use Rattle.kj_model.specs.Calls.{Call, call, close, held_awaited, hubs_of, turn};
ghost use Rattle.kj_model.specs.Changes.{frees_in, named, silent, unnamed};
ghost use Rattle.kj_model.specs.Effects.{hub_unnamed};
ghost use Rattle.kj_model.specs.Falling.{falling};
ghost use Rattle.kj_model.specs.Fire.{fire_form};
ghost use Rattle.kj_model.specs.Framed.{times};
ghost use Rattle.kj_model.specs.Free.{Guard, Holding, free};
ghost use Rattle.kj_model.specs.Nodes.{Chain, Entry, Race, Side, Task, Waits, form_at, is_in, owner_of};
ghost use Rattle.kj_model.specs.Owned.{IsInOrder, numbers, tree_roots};
ghost use Rattle.kj_model.specs.Places.{table_fits};
ghost use Rattle.kj_model.specs.Trees.{tree_numbers};
ghost use Rattle.kj_model.specs.Value.{Took, run_step, value, value_link};
ghost use Rattle.kj_model.specs.World.{Group, HubOf, Promise, RequestOf, Setting, State, depth_of, held_at, new_state};
ghost use Rattle.kj_ownership.specs.Firing.{BranchesOutlive, HasLeftSet, IsFiring, MayWin, Outlives, TakesPlace, event_ended, event_taken, gave_promise, task_off, world_freed};
ghost use Rattle.kj_ownership.specs.Fits.{Fits};
ghost use Rattle.kj_ownership.specs.Going.{hub_goes, set_goes};
ghost use Rattle.kj_ownership.specs.Kept.{Kept, Rests, TakesSpent, is_open};
ghost use Rattle.kj_ownership.specs.Owners.{is_live, owns};
ghost use Rattle.kj_ownership.specs.Shapes.{Shaped};
ghost use Rattle.kj_ownership.specs.Standing.{Owned, Standing, one_if};
ghost use Rattle.kj_ownership.specs.Stems.{Frames, is_steady, stem};
ghost use Rattle.std.specs.Prelude.{[], Bool, None, Some, drop, false, flat_map, length, nat_lt, true, ℕ, List, Option, ◌&&◌, ◌*◌, ◌++◌, ◌+◌, ◌^◌, ◌<◌, ◌∷◌, ◌≡◌, ◌≤◌};

/// A new loop keeps what loops keep between calls, and so does each call that doesn't close it, where the store takes no more nodes than it has slots, and a taking call frees the name of an ended request or of an ask's cell.
pub fn calls_keep_worlds()
    ensures start { (limits : Limits) → Kept (new_state limits) }
    ensures step { (setting : Setting) (c : Call) (s : State) → Fits setting → is_open c ≡ true
        → TakesSpent c s.world → Kept s → Kept (call setting c s).0 }
{}

/// The plain table takes no more nodes than it has slots.
pub fn table_takes_no_more()
    ensures { (setting : Setting) → setting.fits ≡ table_fits → Fits setting }
{}

/// Each command, in a step or outside, keeps what worlds keep.
pub fn commands_keep_worlds()
    ensures owned { (setting : Setting) (inside : Bool) (c : Command) (s : State) → Fits setting
        → Owned s → Shaped s.world → Owned (apply setting inside c s).0 }
    ensures shaped { (setting : Setting) (inside : Bool) (c : Command) (s : State) → Fits setting
        → Owned s → Shaped s.world → Shaped (apply setting inside c s).0.world }
{}

/// While a step runs under a node, each command leaves that node, the nodes above it that are being evaluated, and the one whose event fires, with their forms, but for a hub's name and branches.
pub fn steps_spare_what_is_evaluated()
    ensures { (setting : Setting) (c : Command) (s : State) (n : ℕ) (fs : List ℕ)
        → Fits setting → Owned s → Shaped s.world → Frames s.world n fs
        → is_steady (form_at n s.world.nodes) ≡ true → (m : ℕ) → is_in m (n ∷ fs) ≡ true
        → stem (form_at m (apply setting true c s).0.world.nodes) ≡ stem (form_at m s.world.nodes) }
{}

/// After each call no step has run under a node that was freed before.
pub fn freed_steps_never_run()
    ensures { (setting : Setting) (c : Call) (s : State) → Fits setting → is_open c ≡ true
        → TakesSpent c s.world → Kept s → IsInOrder (call setting c s).0.past }
{}

/// Freeing a root that stands nowhere keeps what worlds keep, under each guard, hubs included.
pub fn free_keeps_what_worlds_keep()
    ensures { (guard : Guard) (root : ℕ) (loose out : List ℕ) (s : State)
        → Standing (root ∷ loose) out [] s → Standing loose out [] (free guard root s) }
{}

/// Closing a world that keeps what worlds keep, and in which no tree is awaited, frees each number that was built once and
/// no other; and it answers the live numbers, each once, which are no more than there are slots.
pub fn close_frees_each_number_once()
    ensures once { (s : State) → Owned s → s.world.awaited ≡ None → (m : ℕ)
        → times m (frees_in (close s).past) ≡ one_if (nat_lt 0 m && nat_lt m s.world.next) }
    ensures answer { (s : State) → Owned s → s.world.awaited ≡ None
        → (m : ℕ) → times m (frees_in (drop (length s.past) (close s).past))
        ≡ times m (numbers s.world.nodes) }
    ensures few { (s : State) → Owned s → s.world.awaited ≡ None
        → length (frees_in (drop (length s.past) (close s).past)) ≤ s.world.limits.slots }
    ensures none { (s : State) → Owned s → s.world.awaited ≡ None → (m : ℕ)
        → is_live m (close s).world.nodes ≡ false }
    ensures owned { (s : State) → Owned s → s.world.awaited ≡ None → Owned (close s) }
{}

/// A Drop of a promise and a Stop would free just what goes with the tree, read off the nodes as they stand; a Drop of a
/// hub what goes with the hub, where it has no branch, read off the nodes once it has no name; a Clear or a Drop of a set
/// what goes with its tasks, one after another, the newest first.
pub fn busy_reads_what_goes()
    ensures dropped { (f name root : ℕ) (s : State)
        → held_at name s.world.names ≡ Some (Promise root) → would_free f (Drop name) s
        ≡ is_in f (falling (Holding []) (unnamed name s.world) (depth_of s.world) [] [] root) }
    ensures unnamed { (f name hub : ℕ) (s : State)
        → held_at name s.world.names ≡ Some (HubOf hub) → would_free f (Drop name) s
        ≡ is_in f (hub_goes hub (hub_unnamed hub (unnamed name s.world))) }
    ensures stopped { (f request node : ℕ) (s : State)
        → held_at request s.world.names ≡ Some (RequestOf (Some node))
        → would_free f (Stop request) s ≡ is_in f (falling (Holding [])
        (named request (RequestOf None) s.world) (depth_of s.world) [] [] node) }
    ensures cleared { (f name : ℕ) (error empty : Option ℕ) (tasks : List ℕ) (s : State)
        → held_at name s.world.names ≡ Some (Group error tasks empty)
        → would_free f (Clear name) s ≡ is_in f (set_goes tasks s.world) }
    ensures without_set { (f name : ℕ) (error empty : Option ℕ) (tasks : List ℕ) (s : State)
        → held_at name s.world.names ≡ Some (Group error tasks empty)
        → would_free f (Drop name) s ≡ is_in f (set_goes tasks s.world) }
{}

/// No more nodes live than the trees of the roots have: those of names, the awaited one, those left over, those detached, and hubs.
pub fn live_nodes_are_few()
    ensures { (s : State) → Owned s → length (numbers s.world.nodes)
        ≤ length (flat_map (tree_numbers (depth_of s.world) s.world.nodes)
        (tree_roots s.world ++ hubs_of s.world.nodes)) }
{}

/// Over the plain table, where each tree has at most so many nodes, and the slots are enough for as many trees and the names for the command's, no command is refused as full.
pub fn no_command_is_full()
    ensures { (setting : Setting) (c : Command) (s : State) (most : ℕ) → setting.fits ≡ table_fits
        → Owned s → ((root : ℕ) → is_in root (tree_roots s.world ++ hubs_of s.world.nodes) ≡ true
        → length (tree_numbers (depth_of s.world) s.world.nodes root) ≤ most)
        → length (tree_roots s.world ++ hubs_of s.world.nodes) * most + counts (rows c s.world)
        ≤ s.world.limits.slots → names_after c s.world ≤ s.world.limits.names
        → s.world.next ≤ 2 ^ 63 → is_full setting c s.world ≡ false }
{}

/// Between two turns of a loop that runs, the first event of the queue may fire, where it is a node's: the node lives. What its event does leads back to where the next turn may begin; nothing is awaited then that wasn't before.
pub fn events_fire_and_end()
    ensures taken { (n : ℕ) (s : State) → Rests s → s.world.stopped ≡ false
        → head_of s.world.queue ≡ Some n → 0 < n → IsFiring n (silent (event_taken n) s) }
    ensures ended { (setting : Setting) (n : ℕ) (s : State)
        → Fits setting → IsFiring n s → s.world.left_over ≡ []
        → Rests (silent event_ended (fire_form setting n (form_at n s.world.nodes) s)) }
    ensures unawaited { (setting : Setting) (n : ℕ) (s : State)
        → Fits setting → IsFiring n s → s.world.awaited ≡ None
        → (fire_form setting n (form_at n s.world.nodes) s).world.awaited ≡ None }
    ensures turned { (setting : Setting) (s : State) → Fits setting → Rests s
        → Rests (turn setting s).0 }
{}

/// Between two calls a turn may begin, and where a wait begins.
pub fn turns_begin_between_calls()
    ensures kept { (s : State) → Kept s → Rests s }
    ensures waits { (name root : ℕ) (s : State)
        → Kept s → held_at name s.world.names ≡ Some (Promise root)
        → Rests (silent (held_awaited name root) s) }
{}

/// While a node's event fires, the steps of its tree leave its form and that of its owner, but for a hub's name and branches, what is left over and what is awaited, and its event still fires; when the tree was freed after that, the node and its owner live, and the branches that a hub has then.
pub fn what_fires_outlives_its_tree()
    ensures fires { (setting : Setting) (n tree : ℕ) (s : State) → Fits setting → IsFiring n s
        → owns n tree s.world.nodes ≡ true → IsFiring n (value setting tree s).0 }
    ensures form { (setting : Setting) (n tree : ℕ) (s : State)
        → Fits setting → IsFiring n s → owns n tree s.world.nodes ≡ true
        → stem (form_at n (value setting tree s).0.world.nodes) ≡ stem (form_at n s.world.nodes) }
    ensures left_over { (setting : Setting) (n tree : ℕ) (s : State) → Fits setting → IsFiring n s
        → owns n tree s.world.nodes ≡ true
        → (value setting tree s).0.world.left_over ≡ s.world.left_over }
    ensures awaited { (setting : Setting) (n tree : ℕ) (s : State)
        → Fits setting → IsFiring n s → owns n tree s.world.nodes ≡ true
        → (value setting tree s).0.world.awaited ≡ s.world.awaited }
    ensures outlives { (setting : Setting) (n tree : ℕ) (s : State) → Fits setting → IsFiring n s
        → owns n tree s.world.nodes ≡ true → Outlives n tree (value setting tree s).0.world }
    ensures branches { (setting : Setting) (n tree : ℕ) (s : State) → Fits setting → IsFiring n s
        → owns n tree s.world.nodes ≡ true → BranchesOutlive n tree (value setting tree s).0.world }
    ensures owner_form { (setting : Setting) (n tree owner : ℕ) (s : State) → Fits setting
        → IsFiring n s → owns n tree s.world.nodes ≡ true → owns owner n s.world.nodes ≡ true
        → stem (form_at owner (value setting tree s).0.world.nodes)
        ≡ stem (form_at owner s.world.nodes) }
    ensures owner_outlives { (setting : Setting) (n tree owner : ℕ) (s : State) → Fits setting
        → IsFiring n s → owns n tree s.world.nodes ≡ true → owns owner n s.world.nodes ≡ true
        → Outlives owner tree (value setting tree s).0.world }
{}

/// The owner that is found of a node is one, with the form that is found.
pub fn owners_are_found()
    ensures form { (n : ℕ) (owner : Entry) (s : State)
        → Owned s → owner_of n s.world.nodes ≡ Some owner
        → form_at owner.number s.world.nodes ≡ Some owner.form }
    ensures owns { (n : ℕ) (owner : Entry) (s : State) → Owned s
        → owner_of n s.world.nodes ≡ Some owner → owns owner.number n s.world.nodes ≡ true }
{}

/// While the event of a Chain fires, the steps of its Then leave it, and it outlives its Then; a promise that the Then's step gave stands nowhere and may take the Chain's place, once the Then was freed.
pub fn a_chain_takes_the_promise()
    ensures form { (setting : Setting) (n link : ℕ) (s : State)
        → Fits setting → IsFiring n s → form_at n s.world.nodes ≡ Some (Chain link)
        → form_at n (value_link setting link s).0.world.nodes ≡ Some (Chain link) }
    ensures outlives { (setting : Setting) (n link : ℕ) (s : State)
        → Fits setting → IsFiring n s → form_at n s.world.nodes ≡ Some (Chain link)
        → Outlives n link (value_link setting link s).0.world }
    ensures fires { (setting : Setting) (n link : ℕ) (s : State)
        → Fits setting → IsFiring n s → form_at n s.world.nodes ≡ Some (Chain link)
        → gave_promise (value_link setting link s).1 ≡ false
        → IsFiring n (value_link setting link s).0 }
    ensures loose { (setting : Setting) (n link root : ℕ) (s : State)
        → Fits setting → IsFiring n s → form_at n s.world.nodes ≡ Some (Chain link)
        → (value_link setting link s).1 ≡ Some (Took root)
        → Standing (root ∷ []) [] [] (value_link setting link s).0 }
    ensures place { (setting : Setting) (n link root : ℕ) (s : State) (past : List Item)
        → Fits setting → IsFiring n s → form_at n s.world.nodes ≡ Some (Chain link)
        → (value_link setting link s).1 ≡ Some (Took root)
        → TakesPlace n root (world_freed link past (value_link setting link s).0.world) }
{}

/// While the event of a Side fires that waits under a Race without a winner, it may win: the Race outlives the tree of its other Side.
pub fn a_race_may_be_won()
    ensures { (race left right side tree : ℕ) (s : State) → IsFiring side s
        → form_at side s.world.nodes ≡ Some (Side (Waits tree))
        → form_at race s.world.nodes ≡ Some (Race left right None)
        → owns race side s.world.nodes ≡ true → MayWin race left right side tree s.world }
{}

/// The event of a Task fires: when its tree was evaluated and freed, and the Task has left its set, it lives without a
/// tree and is left over. Neither what waited until the set was empty nor the error step of the set frees it.
pub fn a_task_outlives_its_error_step()
    ensures leaves { (setting : Setting) (n tree : ℕ) (s : State) → Fits setting → IsFiring n s
        → form_at n s.world.nodes ≡ Some (Task (Some tree))
        → HasLeftSet n s (task_off setting n tree s) }
    ensures stays { (setting : Setting) (n tree step : ℕ) (input : Outcome) (s : State)
        → Fits setting → IsFiring n s → form_at n s.world.nodes ≡ Some (Task (Some tree))
        → HasLeftSet n s (run_step setting false n step input (task_off setting n tree s)).0 }
{}
