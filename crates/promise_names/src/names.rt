//! A keeper of names.
ghost use Rattle.std.specs.Prelude.{◌≡◌, ◌+◌, ◌<◌, ◌≤◌, ◌++◌, ◌∷◌, ◌^◌, [], ℕ, List, Option, None, Some, Bool, true, false, IsSome, length, slice_get};
ghost use Rattle.kj_model.specs.World.{World, Promise, RequestOf, held_at};
ghost use Rattle.kj_model.specs.Nodes.{dropped};
ghost use Rattle.kj_model.specs.Calls.{with_awaited};
ghost use Rattle.kj_model.specs.Changes.{named, unnamed};
ghost use Rattle.kj_model.specs.Effects.{wraps_of};
ghost use Rattle.kj_model.specs.Fire.{without_left_over};
ghost use Rattle.promise_nodes.specs.Shown.{link_number};
ghost use Rattle.promise_nodes.specs.Kept.{SameNames, awaited_root};
ghost use Rattle.promise_names.specs.Once.{AreOnce, AreRising};
ghost use Rattle.promise_names.specs.Held.{held_shown, SeesHeld, IsListless, IsLoopsOwn, HasRoot, root_of, name_number, awaited_key, awaited_shown, first_name, root_renamed, roots_replaced, with_left_over, with_lost, stopped_world, left_world, regrouped, IsCounted, AreApart, HasNoneListed};
ghost use Rattle.promise_names.specs.declared.names.Held.{Held};

use kj_base::{Link, Name, StepId};

/// What a name holds; the tasks of a set and the Wraps of a canceler stand in lists beside it.
#[derive(Clone, Copy, Debug, PartialEq, Eq)]
pub enum Held {
    Promise(Link),
    /// The fulfiller of a cell.
    CellOf(Link),
    /// The cell of an ask, and whether the ask was taken from the loop.
    AskCell {
        cell: Link,
        is_taken: bool,
    },
    HubOf(Link),
    /// A set: its error step, how many tasks it has, and the cell that waits until it is empty.
    Group {
        error: Option<StepId>,
        tasks: u64,
        empty: Option<Link>,
    },
    Canceler,
    /// None once the request has ended.
    RequestOf(Option<Link>),
}

/// The promise that a wait awaits: the name that it left, and its tree.
#[derive(Clone, Copy, Debug, PartialEq, Eq)]
pub struct Awaited {
    pub name: Name,
    pub root: Link,
}

/// What a node that goes leaves to whoever keeps the names.
#[derive(Clone, Copy, Debug, PartialEq, Eq)]
pub enum Leaving {
    Nothing,
    /// A cell that waits.
    Cell,
    /// A wrapped promise, and its canceler.
    Wrap(Name),
}

/// Keeps the names of a loop with what they hold, and the lists of a world that aren't of nodes; it knows no nodes.
/// No call takes memory.
pub trait Names {
    /// It stands for the names and lists of this world, and whether that is stopped, whatever its nodes are.
    ghost stands: { Self → World → Type 0 };

    /// The root that each name promises, and the one that is awaited, by a key that no name has.
    ghost roots: { Self → ℕ → Option ℕ };

    /// How many promises are awaited, and names are there.
    ghost count: { Self → ℕ };

    /// How many of these there may be, which is one more than the names that there may be; no call changes it.
    ghost limit: { Self → ℕ };

    /// The trees that are left over, in order; two at most.
    ghost over: { Self → List ℕ };

    /// What a name holds; none where it isn't there.
    fn get(&self, name: Name) -> Option<Held>
        ensures held { (w : World) → stands self.now w → SeesHeld result (held_at name.0 w.names) }
        ensures root { root_of result ≡ roots self.now name.0 };

    /// How many names there are.
    fn len(&self) -> u64
        ensures count { result ≤ count self.now }
        ensures awaited { count self.now ≤ result + 1 }
        ensures bound { result ≤ 2 ^ 32 }
        ensures names { (w : World) → stands self.now w → length w.names ≡ result };

    /// How many names there may be.
    fn limit(&self) -> u32
        ensures { result + 1 ≡ limit self.now };

    /// The lowest name.
    fn first(&self) -> Option<Name>
        ensures { (w : World) → stands self.now w → name_number result ≡ first_name w.names };

    /// A name holds this now: a name that is there, or for which there is room. What was a set or a canceler stays one.
    fn set(&mut self, name: Name, held: Held)
        requires room { count self.old < limit self.old }
        requires kind { IsLoopsOwn held }
        ensures stands { (w : World) (members : List ℕ)
            → stands self.old w
            → IsListless (held_at name.0 w.names)
            → IsCounted members held
            → stands self.new (named name.0 (held_shown members held) w) }
        ensures root { HasRoot (roots self.old) (roots self.new) name.0 (root_of (Some held)) }
        ensures few { count self.new ≤ count self.old + 1 }
        ensures limit { limit self.new ≡ limit self.old }
        ensures over { over self.new ≡ over self.old };

    /// A name goes, with its tasks or Wraps where it has any.
    fn remove(&mut self, name: Name)
        ensures stands { (w : World) → stands self.old w → stands self.new (unnamed name.0 w) }
        ensures root { HasRoot (roots self.old) (roots self.new) name.0 None }
        ensures gone { IsSome (roots self.old name.0) → count self.new + 1 ≡ count self.old }
        ensures few { count self.new ≤ count self.old }
        ensures limit { limit self.new ≡ limit self.old }
        ensures over { over self.new ≡ over self.old };

    /// A set has so many tasks now, and this cell waits until it is empty.
    fn regroup(&mut self, group: Name, tasks: u64, empty: Option<Link>)
        ensures stands { (w : World) (members : List ℕ)
            → stands self.old w
            → length members ≡ tasks
            → stands self.new (regrouped group.0 members (link_number empty) w) }
        ensures roots { (name : ℕ) → roots self.new name ≡ roots self.old name }
        ensures count { count self.new ≡ count self.old }
        ensures limit { limit self.new ≡ limit self.old }
        ensures over { over self.new ≡ over self.old };

    /// The promise of a tree, where a name has it or it is awaited, has another tree now.
    fn rename(&mut self, old: Link, new: Link)
        requires apart { AreApart (roots self.old) }
        ensures stands { (w : World) → stands self.old w
            → stands self.new (roots_replaced old.number.0 new.number.0 w) }
        ensures roots { (name : ℕ)
            → roots self.new name ≡ root_renamed old.number.0 new.number.0 (roots self.old name) }
        ensures count { count self.new ≡ count self.old }
        ensures limit { limit self.new ≡ limit self.old }
        ensures over { over self.new ≡ over self.old };

    /// A node goes: a Wrap leaves its canceler, and the cell of an ask that waits is abandoned. Its slot is only a hint.
    fn left(&mut self, node: Link, leaving: Leaving)
        ensures stands { (w : World) → stands self.old w
            → stands self.new (left_world node.number.0 leaving w) }
        ensures roots { (name : ℕ) → roots self.new name ≡ roots self.old name }
        ensures count { count self.new ≡ count self.old }
        ensures limit { limit self.new ≡ limit self.old }
        ensures over { over self.new ≡ over self.old };

    /// Whether the loop has stopped.
    fn is_stopped(&self) -> bool
        ensures { (w : World) → stands self.now w → result ≡ w.stopped };

    /// The loop has stopped.
    fn stop(&mut self)
        ensures stands { (w : World) → stands self.old w → stands self.new (stopped_world w) }
        ensures roots { (name : ℕ) → roots self.new name ≡ roots self.old name }
        ensures count { count self.new ≡ count self.old }
        ensures limit { limit self.new ≡ limit self.old }
        ensures over { over self.new ≡ over self.old };

    /// The promise that a wait awaits.
    fn awaited(&self) -> Option<Awaited>
        ensures awaited { (w : World) → stands self.now w → w.awaited ≡ awaited_shown result }
        ensures root { awaited_root (awaited_shown result) ≡ roots self.now awaited_key };

    /// A wait awaits the promise of this tree, which left this name.
    fn hold(&mut self, name: Name, root: Link)
        requires room { count self.old < limit self.old }
        ensures stands { (w : World)
            → stands self.old w
            → stands self.new
            (with_awaited (awaited_shown (Some (record { name = name; root = root }))) w) }
        ensures root { HasRoot (roots self.old) (roots self.new) awaited_key
            (Some root.number.0) }
        ensures few { count self.new ≤ count self.old + 1 }
        ensures limit { limit self.new ≡ limit self.old }
        ensures over { over self.new ≡ over self.old };

    /// None is awaited any more.
    fn let_go(&mut self)
        ensures stands { (w : World)
            → stands self.old w
            → stands self.new (with_awaited None w) }
        ensures root { HasRoot (roots self.old) (roots self.new) awaited_key None }
        ensures gone { IsSome (roots self.old awaited_key)
            → count self.new + 1 ≡ count self.old }
        ensures few { count self.new ≤ count self.old }
        ensures limit { limit self.new ≡ limit self.old }
        ensures over { over self.new ≡ over self.old };

    /// One of the trees that are left over.
    fn left_over(&self, place: usize) -> Option<Link>
        ensures { link_number result ≡ slice_get (over self.now) place };

    /// A tree is left over, behind the others.
    fn leave_over(&mut self, tree: Link)
        requires room { length (over self.old) < 2 }
        ensures stands { (w : World) → stands self.old w
            → stands self.new (with_left_over tree.number.0 w) }
        ensures roots { (name : ℕ) → roots self.new name ≡ roots self.old name }
        ensures count { count self.new ≡ count self.old }
        ensures limit { limit self.new ≡ limit self.old }
        ensures over { over self.new ≡ over self.old ++ tree.number.0 ∷ [] };

    /// A tree is left over, before the others.
    fn lose(&mut self, tree: Link)
        requires room { length (over self.old) < 2 }
        ensures stands { (w : World) → stands self.old w
            → stands self.new (with_lost tree.number.0 w) }
        ensures roots { (name : ℕ) → roots self.new name ≡ roots self.old name }
        ensures count { count self.new ≡ count self.old }
        ensures limit { limit self.new ≡ limit self.old }
        ensures over { over self.new ≡ tree.number.0 ∷ over self.old };

    /// A tree is no longer left over.
    fn take_over(&mut self, tree: Link)
        ensures stands { (w : World) → stands self.old w
            → stands self.new (without_left_over tree.number.0 w) }
        ensures roots { (name : ℕ) → roots self.new name ≡ roots self.old name }
        ensures count { count self.new ≡ count self.old }
        ensures limit { limit self.new ≡ limit self.old }
        ensures over { over self.new ≡ dropped tree.number.0 (over self.old) };

    /// Nodes and the queue don't matter.
    ghost nodes_free: { (names : Self) (w v : World) → SameNames w v → stands names w
        → stands names v };

    /// The trees that are left over.
    ghost over_is: { (names : Self) (w : World) → stands names w → w.left_over ≡ over names };

    /// Names stand by rising number.
    ghost rising: { (names : Self) (w : World) → stands names w → AreRising w.names };

    /// No name stands twice.
    ghost once: { (names : Self) (w : World) → stands names w → AreOnce w.names };

    /// How many names there may be in each world that it stands for.
    ghost limit_is: { (names : Self) (w : World) → stands names w
        → w.limits.names + 1 ≡ limit names };

    /// The root of each promise in each world that it stands for.
    ghost roots_are: { (names : Self) (w : World) (name root : ℕ) → stands names w
        → held_at name w.names ≡ Some (Promise root) → roots names name ≡ Some root };

    /// No asks, ended requests or abandoned cells are listed.
    ghost none_listed: { (names : Self) (w : World) → stands names w → HasNoneListed w };

    /// No name is a request's.
    ghost no_requests: { (names : Self) (w : World) (name : ℕ) (node : Option ℕ) → stands names w
        → held_at name w.names ≡ Some (RequestOf node) → ⊥ };

    /// No canceler has a Wrap.
    ghost no_wraps: { (names : Self) (w : World) (name : ℕ) → stands names w
        → wraps_of (held_at name w.names) ≡ [] };
}
