//! A keeper of nodes.
ghost use Rattle.std.specs.Prelude.{◌≡◌, ◌≢◌, ◌+◌, ◌<◌, ◌≤◌, ◌^◌, ◌∷◌, [], ℕ, List, Option, None, Some, Bool, true, false, IsTrue, option_copied, length, ◌++◌};
ghost use Rattle.kj_base.specs.Places.{Spot, Row as RowSeen, row};
ghost use Rattle.kj_base.specs.Queue.{head_of, first_of};
ghost use Rattle.kj_model.specs.World.{World, Awaited};
ghost use Rattle.kj_model.specs.Nodes.{form_at, owner_of, parts_of, is_in, Branch};
ghost use Rattle.kj_model.specs.Places.{built};
ghost use Rattle.kj_model.specs.Fire.{branches_of};
ghost use Rattle.kj_model.specs.Free.{without_branch};
ghost use Rattle.kj_model.specs.Changes.{gone_world, arm_listener};
ghost use Rattle.kj_model.specs.Effects.{with_branch_in, with_detached, disarmed_node};
ghost use Rattle.kj_model.specs.Calls.{rewound_world, taken_world, hubs_of};
ghost use Rattle.promise_nodes.specs.Shown.{shown, link_number, Sees, SeesOwner, way_of};
ghost use Rattle.promise_nodes.specs.Once.{AreOnce};
ghost use Rattle.promise_nodes.specs.Members.{AreApart, AreEachOnce, AreLists, IsListOf, IsNoMember, lists_in, newest_member, with_member, without_member, without_members};
ghost use Rattle.promise_nodes.specs.Kept.{SameNodes, IsLive, newest_task, without_detached, IsEvent, IsBranch, IsPart, IsReplaceable, KeepsKind, is_unreferenced, awaited_root, rows_left, OnlyFalls, OnlyRises, RisesIn, IsPlain, ShowsPlain, AreRoots, AreBuilt, AddsNone, AreRowsBuilt, put_form, rows_seen, tree_replaced, AreUnmarked, IsMarked, Same, SameRows};

use kj_base::{Form, Link, Name};

/// The three ways to arm an event.
#[derive(Clone, Copy, Debug, PartialEq, Eq)]
pub enum Way {
    DepthFirst,
    BreadthFirst,
    AtLast,
}

/// What a walk that changes nothing notes at a node: that it left its hub, or that it went.
#[derive(Clone, Copy, Debug, PartialEq, Eq)]
pub enum Mark {
    Unmarked,
    Left,
    Gone,
}

/// One or two nodes, placed one before the other, the first of them before a node or anew.
#[derive(Clone, Copy, Debug, PartialEq, Eq)]
pub struct NodeRow {
    pub before: Option<Link>,
    pub count: u8,
}

/// What stands in the places of an array of rows that aren't used.
impl Default for NodeRow {
    fn default() -> NodeRow {
        NodeRow {
            before: None,
            count: 1,
        }
    }
}

/// Keeps the nodes of a loop, its event queue, the event that fires and the tree that a wait awaits; it knows of names only
/// which nodes are members of which list: a Task is a member of its set, and a Wrap of its canceler, and a list has the name
/// of its set or canceler. A member that doesn't live any more is one of the world's until it leaves, but it isn't kept.
/// A link says which node is meant by its number; its slot only finds it sooner. No call takes memory.
///
/// The contracts speak of each world that it stands for: of its nodes, queue, spots, limits, firing event and awaited
/// tree, and of the members of its lists, whatever the names of that world are else.
pub trait Nodes {
    ghost use Rattle.promise_nodes.specs.declared.nodes.Mark.{Mark};

    /// It stands for this world.
    ghost stands: { Self → World → Type 0 };

    /// The number of slots, which no call changes.
    ghost slots: { Self → ℕ };

    /// The number of the next node.
    ghost next: { Self → ℕ };

    /// Whether a node is live and was made the tree of another one.
    ghost is_taken: { Self → ℕ → Bool };

    /// Whether a node is live and stands in the list of a hub's branches.
    ghost is_listed: { Self → ℕ → Bool };

    /// Whether a number was given to a node that is no hub and no branch, or that went.
    ghost is_plain: { Self → ℕ → Bool };

    /// The marks by the numbers of nodes. No world sees them, and calls that say nothing of them may change them.
    ghost marks: { Self → ℕ → Mark };

    /// Whether nodes in these rows can be placed.
    ghost room: { Self → List RowSeen → Bool };

    /// The same by the number of slots and the spots of the live nodes.
    ghost rule: { ℕ → List Spot → List RowSeen → Bool };

    /// The number of slots.
    fn slots(&self) -> u32
        ensures { result ≡ slots self.now };

    /// The link to the next node that is built.
    fn next(&self) -> u64
        ensures { result ≡ next self.now };

    /// The form of a live node; none where it isn't live.
    fn form(&self, node: Link) -> Option<&Form>
        ensures form { (w : World)
            → stands self.now w
            → Sees (option_copied result) (form_at node.number.0 w.nodes) }
        ensures listed { is_listed self.now node.number.0 ≡ true → IsBranch (option_copied result) }
        ensures plain { ShowsPlain (option_copied result)
            → is_plain self.now node.number.0 ≡ true };

    /// The node that owns a live one.
    fn owner(&self, node: Link) -> Option<Link>
        ensures { (w : World)
            → stands self.now w
            → IsLive w node.number.0
            → SeesOwner w.nodes result (owner_of node.number.0 w.nodes) };

    /// The node whose event fires.
    fn firing(&self) -> Option<Link>
        ensures { (w : World) → stands self.now w → w.firing ≡ link_number result };

    /// The root that a wait awaits.
    fn awaited(&self) -> Option<Link>
        ensures { (w : World) → stands self.now w → awaited_root w.awaited ≡ link_number result };

    /// Whether nodes in these rows can be placed.
    fn fits(&self, rows: &[NodeRow]) -> bool
        requires few { length rows.now ≤ 16 }
        ensures room { result ≡ room self.now (rows_seen rows.now) }
        ensures ruled { (w : World)
            → stands self.now w
            → result ≡ rule (slots self.now) w.spots (rows_seen rows.now) };

    /// A node with the next number, before another one or anew. It takes the trees that its form has.
    fn build(&mut self, before: Option<Link>, form: Form) -> Link
        requires before { IsPart (link_number before) (parts_of (shown [] form)) }
        requires roots { AreRoots (is_taken self.old) (parts_of (shown [] form)) }
        requires built { AreBuilt (next self.old) (parts_of (shown [] form)) }
        requires fits { IsTrue (room self.old (row (link_number before) 1 ∷ [])) }
        requires numbers { next self.old < 2 ^ 63 + 9 }
        ensures number { result.number.0 ≡ next self.old }
        ensures next { next self.new ≡ next self.old + 1 }
        ensures rest { (more : List RowSeen) (count : ℕ)
            → 0 < count
            → AreRowsBuilt (next self.old) more
            → IsTrue (room self.old (row (link_number before) count ∷ more))
            → IsTrue (room self.new (rows_left (next self.old) count more)) }
        ensures stands { (w : World)
            → stands self.old w
            → stands self.new (built (link_number before) (shown [] form) w) }
        ensures anew { (w : World) → stands self.old w → form_at (next self.old) w.nodes ≡ None }
        ensures root { is_taken self.new result.number.0 ≡ false }
        ensures unlisted { is_listed self.new result.number.0 ≡ false }
        ensures taken { RisesIn (parts_of (shown [] form)) (is_taken self.old) (is_taken self.new) }
        ensures listed { OnlyFalls (is_listed self.old) (is_listed self.new) }
        ensures plain { OnlyRises (is_plain self.old) (is_plain self.new) }
        ensures slots { slots self.new ≡ slots self.old };

    /// A node has this form now, where it is live; it has no new tree. A hub keeps its branches.
    fn put(&mut self, node: Link, form: Form)
        ensures stands { (w : World)
            → stands self.old w
            → KeepsKind form (form_at node.number.0 w.nodes)
            → AddsNone w node.number.0 (shown [] form)
            → stands self.new (put_form node.number.0 form w) }
        ensures taken { OnlyFalls (is_taken self.old) (is_taken self.new) }
        ensures listed { OnlyFalls (is_listed self.old) (is_listed self.new) }
        ensures plain { OnlyRises (is_plain self.old) (is_plain self.new) }
        ensures next { next self.new ≡ next self.old }
        ensures slots { slots self.new ≡ slots self.old };

    /// A node goes, with its event.
    fn drop_node(&mut self, node: Link)
        requires unlisted { is_listed self.old node.number.0 ≡ false }
        ensures stands { (w : World)
            → stands self.old w
            → stands self.new (gone_world node.number.0 w) }
        ensures taken { OnlyFalls (is_taken self.old) (is_taken self.new) }
        ensures listed { OnlyFalls (is_listed self.old) (is_listed self.new) }
        ensures plain { OnlyRises (is_plain self.old) (is_plain self.new) }
        ensures next { next self.new ≡ next self.old }
        ensures slots { slots self.new ≡ slots self.old };

    /// A branch is its hub's newest.
    fn join_hub(&mut self, branch: Link, hub: Link)
        requires unlisted { is_listed self.old branch.number.0 ≡ false }
        ensures stands { (w : World)
            → stands self.old w
            → form_at branch.number.0 w.nodes ≡ Some (Branch hub.number.0)
            → stands self.new
            (with_branch_in branch.number.0 hub.number.0 (form_at hub.number.0 w.nodes) w) }
        ensures taken { OnlyFalls (is_taken self.old) (is_taken self.new) }
        ensures listed { RisesIn (branch.number.0 ∷ []) (is_listed self.old) (is_listed self.new) }
        ensures plain { OnlyRises (is_plain self.old) (is_plain self.new) }
        ensures next { next self.new ≡ next self.old }
        ensures slots { slots self.new ≡ slots self.old };

    /// A branch leaves its hub; whether the hub has neither name nor branch now.
    fn leave_hub(&mut self, branch: Link, hub: Link) -> bool
        ensures stands { (w : World)
            → stands self.old w
            → form_at branch.number.0 w.nodes ≡ Some (Branch hub.number.0)
            → stands self.new (without_branch branch.number.0 hub.number.0 w) }
        ensures last { (w : World)
            → stands self.old w
            → form_at branch.number.0 w.nodes ≡ Some (Branch hub.number.0)
            → result ≡ is_unreferenced
            (form_at hub.number.0 (without_branch branch.number.0 hub.number.0 w).nodes) }
        ensures unlisted { is_listed self.new branch.number.0 ≡ false }
        ensures taken { OnlyFalls (is_taken self.old) (is_taken self.new) }
        ensures listed { OnlyFalls (is_listed self.old) (is_listed self.new) }
        ensures plain { OnlyRises (is_plain self.old) (is_plain self.new) }
        ensures next { next self.new ≡ next self.old }
        ensures slots { slots self.new ≡ slots self.old };

    /// Whether a hub has neither name nor branch.
    fn is_unreferenced(&self, hub: Link) -> bool
        ensures { (w : World)
            → stands self.now w
            → result ≡ is_unreferenced (form_at hub.number.0 w.nodes) };

    /// The oldest branch of a hub.
    fn first_branch(&self, hub: Link) -> Option<Link>
        ensures { (w : World)
            → stands self.now w
            → link_number result ≡ first_of (branches_of (form_at hub.number.0 w.nodes)) };

    /// The branch that was made after this one.
    fn next_branch(&self, branch: Link) -> Option<Link>
        ensures { (w : World) (hub : ℕ) (front back : List ℕ)
            → stands self.now w
            → branches_of (form_at hub w.nodes) ≡ front ++ branch.number.0 ∷ back
            → link_number result ≡ first_of back };

    /// The tree new takes the place of old under the owner of old, where there is one.
    fn replace(&mut self, old: Link, new: Link)
        requires root { is_taken self.old new.number.0 ≡ false }
        requires built { new.number.0 < next self.old }
        ensures stands { (w : World)
            → stands self.old w
            → IsLive w old.number.0
            → IsReplaceable w old.number.0 new.number.0
            → stands self.new (tree_replaced old.number.0 new.number.0 w) }
        ensures root { is_taken self.old old.number.0 ≡ false
            → OnlyFalls (is_taken self.old) (is_taken self.new) }
        ensures taken { RisesIn (new.number.0 ∷ []) (is_taken self.old) (is_taken self.new) }
        ensures listed { OnlyFalls (is_listed self.old) (is_listed self.new) }
        ensures plain { OnlyRises (is_plain self.old) (is_plain self.new) }
        ensures next { next self.new ≡ next self.old }
        ensures slots { slots self.new ≡ slots self.old };

    /// A live node is the newest task of the loop's own set. A task that goes leaves that set.
    fn enlist(&mut self, task: Link)
        ensures stands { (w : World)
            → stands self.old w
            → IsLive w task.number.0
            → is_in task.number.0 w.detached ≡ false
            → stands self.new (with_detached task.number.0 w) }
        ensures taken { OnlyFalls (is_taken self.old) (is_taken self.new) }
        ensures listed { OnlyFalls (is_listed self.old) (is_listed self.new) }
        ensures plain { OnlyRises (is_plain self.old) (is_plain self.new) }
        ensures next { next self.new ≡ next self.old }
        ensures slots { slots self.new ≡ slots self.old };

    /// A node leaves the loop's own set, if it is there.
    fn delist(&mut self, task: Link)
        ensures stands { (w : World)
            → stands self.old w
            → stands self.new (without_detached task.number.0 w) }
        ensures taken { OnlyFalls (is_taken self.old) (is_taken self.new) }
        ensures listed { OnlyFalls (is_listed self.old) (is_listed self.new) }
        ensures plain { OnlyRises (is_plain self.old) (is_plain self.new) }
        ensures next { next self.new ≡ next self.old }
        ensures slots { slots self.new ≡ slots self.old };

    /// The newest live task of the loop's own set.
    fn newest_task(&self) -> Option<Link>
        ensures { (w : World) → stands self.now w → link_number result ≡ newest_task w };

    /// The oldest live hub.
    fn oldest_hub(&self) -> Option<Link>
        ensures { (w : World)
            → stands self.now w
            → link_number result ≡ first_of (hubs_of w.nodes) };

    /// A live node that is a member of no list is the newest member of one.
    fn join_list(&mut self, node: Link, list: Name)
        ensures stands { (w v : World)
            → stands self.old w
            → IsLive w node.number.0
            → IsNoMember node.number.0 (lists_in w)
            → SameNodes w v
            → AreLists v (with_member list.0 node.number.0 (lists_in w))
            → stands self.new v }
        ensures taken { Same (is_taken self.old) (is_taken self.new) }
        ensures listed { Same (is_listed self.old) (is_listed self.new) }
        ensures plain { Same (is_plain self.old) (is_plain self.new) }
        ensures room { SameRows (room self.old) (room self.new) }
        ensures next { next self.new ≡ next self.old }
        ensures slots { slots self.new ≡ slots self.old };

    /// A node leaves a list, if it is a member of this one.
    fn leave_list(&mut self, node: Link, list: Name)
        ensures stands { (w v : World)
            → stands self.old w
            → SameNodes w v
            → AreLists v (without_member list.0 node.number.0 (lists_in w))
            → stands self.new v }
        ensures taken { Same (is_taken self.old) (is_taken self.new) }
        ensures listed { Same (is_listed self.old) (is_listed self.new) }
        ensures plain { Same (is_plain self.old) (is_plain self.new) }
        ensures room { SameRows (room self.old) (room self.new) }
        ensures next { next self.new ≡ next self.old }
        ensures slots { slots self.new ≡ slots self.old };

    /// All members leave a list.
    fn clear_list(&mut self, list: Name)
        ensures stands { (w v : World)
            → stands self.old w
            → SameNodes w v
            → AreLists v (without_members list.0 (lists_in w))
            → stands self.new v }
        ensures taken { Same (is_taken self.old) (is_taken self.new) }
        ensures listed { Same (is_listed self.old) (is_listed self.new) }
        ensures plain { Same (is_plain self.old) (is_plain self.new) }
        ensures room { SameRows (room self.old) (room self.new) }
        ensures next { next self.new ≡ next self.old }
        ensures slots { slots self.new ≡ slots self.old };

    /// The list that a live node is a member of.
    fn list_of(&self, node: Link) -> Option<Name>
        ensures { (w : World)
            → stands self.now w
            → IsLive w node.number.0
            → IsListOf node.number.0 (lists_in w) result };

    /// The newest live member of a list.
    fn newest_member(&self, list: Name) -> Option<Link>
        ensures { (w : World)
            → stands self.now w
            → link_number result ≡ newest_member w (lists_in w list.0) };

    /// The newest of the live members that are older than this one, which lives.
    fn older_member(&self, node: Link) -> Option<Link>
        ensures { (w : World) (list : ℕ) (front back : List ℕ)
            → stands self.now w
            → IsLive w node.number.0
            → lists_in w list ≡ front ++ node.number.0 ∷ back
            → link_number result ≡ newest_member w front };

    /// The event of a live node, or of the wait, is armed.
    fn arm(&mut self, way: Way, node: Link)
        ensures stands { (w : World)
            → stands self.old w
            → IsEvent w node.number.0
            → stands self.new (arm_listener (way_of way) (Some node.number.0) w) }
        ensures taken { OnlyFalls (is_taken self.old) (is_taken self.new) }
        ensures listed { OnlyFalls (is_listed self.old) (is_listed self.new) }
        ensures plain { OnlyRises (is_plain self.old) (is_plain self.new) }
        ensures next { next self.new ≡ next self.old }
        ensures slots { slots self.new ≡ slots self.old };

    /// An event leaves the queue, if it is there.
    fn disarm(&mut self, node: Link)
        ensures stands { (w : World)
            → stands self.old w
            → stands self.new (disarmed_node node.number.0 w) }
        ensures taken { OnlyFalls (is_taken self.old) (is_taken self.new) }
        ensures listed { OnlyFalls (is_listed self.old) (is_listed self.new) }
        ensures plain { OnlyRises (is_plain self.old) (is_plain self.new) }
        ensures next { next self.new ≡ next self.old }
        ensures slots { slots self.new ≡ slots self.old };

    /// The first event leaves the queue; its node, or number 0 for the wait.
    fn take(&mut self) -> Option<Link>
        ensures head { (w : World) → stands self.old w → link_number result ≡ head_of w.queue }
        ensures stands { (w : World) → stands self.old w → stands self.new (taken_world w) }
        ensures taken { OnlyFalls (is_taken self.old) (is_taken self.new) }
        ensures listed { OnlyFalls (is_listed self.old) (is_listed self.new) }
        ensures plain { OnlyRises (is_plain self.old) (is_plain self.new) }
        ensures next { next self.new ≡ next self.old }
        ensures slots { slots self.new ≡ slots self.old };

    /// The first insertion point of the queue goes to the front.
    fn rewind(&mut self)
        ensures stands { (w : World) → stands self.old w → stands self.new (rewound_world w) }
        ensures taken { OnlyFalls (is_taken self.old) (is_taken self.new) }
        ensures listed { OnlyFalls (is_listed self.old) (is_listed self.new) }
        ensures plain { OnlyRises (is_plain self.old) (is_plain self.new) }
        ensures next { next self.new ≡ next self.old }
        ensures slots { slots self.new ≡ slots self.old };

    /// This event fires, or none.
    fn set_firing(&mut self, firing: Option<Link>)
        ensures stands { (w : World)
            → stands self.old w
            → stands self.new (record w { firing = link_number firing }) }
        ensures taken { OnlyFalls (is_taken self.old) (is_taken self.new) }
        ensures listed { OnlyFalls (is_listed self.old) (is_listed self.new) }
        ensures plain { OnlyRises (is_plain self.old) (is_plain self.new) }
        ensures next { next self.new ≡ next self.old }
        ensures slots { slots self.new ≡ slots self.old };

    /// A wait awaits this root, or none.
    fn set_awaited(&mut self, awaited: Option<Link>)
        ensures stands { (w : World) (a : Option Awaited)
            → stands self.old w
            → awaited_root a ≡ link_number awaited
            → stands self.new (record w { awaited = a }) }
        ensures taken { OnlyFalls (is_taken self.old) (is_taken self.new) }
        ensures listed { OnlyFalls (is_listed self.old) (is_listed self.new) }
        ensures plain { OnlyRises (is_plain self.old) (is_plain self.new) }
        ensures next { next self.new ≡ next self.old }
        ensures slots { slots self.new ≡ slots self.old };

    /// No node has a mark.
    fn clear_marks(&mut self)
        ensures marks { AreUnmarked (marks self.new) }
        ensures stands { (w : World) → stands self.old w → stands self.new w }
        ensures taken { Same (is_taken self.old) (is_taken self.new) }
        ensures listed { Same (is_listed self.old) (is_listed self.new) }
        ensures plain { Same (is_plain self.old) (is_plain self.new) }
        ensures room { SameRows (room self.old) (room self.new) }
        ensures next { next self.new ≡ next self.old }
        ensures slots { slots self.new ≡ slots self.old };

    /// A live node has this mark in place of the one that it had.
    fn mark(&mut self, node: Link, mark: Mark)
        ensures marks { (w : World)
            → stands self.old w
            → IsLive w node.number.0
            → IsMarked node.number.0 mark (marks self.old) (marks self.new) }
        ensures stands { (w : World) → stands self.old w → stands self.new w }
        ensures taken { Same (is_taken self.old) (is_taken self.new) }
        ensures listed { Same (is_listed self.old) (is_listed self.new) }
        ensures plain { Same (is_plain self.old) (is_plain self.new) }
        ensures room { SameRows (room self.old) (room self.new) }
        ensures next { next self.new ≡ next self.old }
        ensures slots { slots self.new ≡ slots self.old };

    /// The mark of a node.
    fn mark_of(&self, node: Link) -> Mark
        ensures { result ≡ marks self.now node.number.0 };

    /// Names don't matter, as long as lists have the same members.
    ghost names_free: { (nodes : Self) (w v : World)
        → SameNodes w v
        → AreLists v (lists_in w)
        → stands nodes w
        → stands nodes v };

    /// A plain number is of no hub and no branch.
    ghost plain_is: { (nodes : Self) (w : World) (n : ℕ)
        → stands nodes w
        → is_plain nodes n ≡ true
        → IsPlain (form_at n w.nodes) };

    /// The tasks of the loop's own set were built.
    ghost tasks_built: { (nodes : Self) (w : World) (n : ℕ)
        → stands nodes w
        → is_in n w.detached ≡ true
        → n < next nodes };

    /// The members were built.
    ghost members_built: { (nodes : Self) (w : World) (list n : ℕ)
        → stands nodes w
        → is_in n (lists_in w list) ≡ true
        → n < next nodes };

    /// No node is a member of two lists.
    ghost lists_apart: { (nodes : Self) (w : World)
        → stands nodes w
        → AreApart (lists_in w) };

    /// No member stands twice in its list.
    ghost members_once: { (nodes : Self) (w : World) (list : ℕ)
        → stands nodes w
        → AreEachOnce (lists_in w list) };

    /// No node stands twice.
    ghost once: { (nodes : Self) (w : World) → stands nodes w → AreOnce w.nodes };

    /// The hubs were built.
    ghost hubs_built: { (nodes : Self) (w : World) (n : ℕ)
        → stands nodes w
        → is_in n (hubs_of w.nodes) ≡ true
        → n < next nodes };

    /// A hub has no more branches than there are slots.
    ghost few_branches: { (nodes : Self) (w : World) (hub : ℕ)
        → stands nodes w
        → length (branches_of (form_at hub w.nodes)) ≤ slots nodes };

    /// Rows may be left out.
    ghost left_out: { (nodes : Self) (front : List RowSeen) (left : RowSeen) (back : List RowSeen)
        → IsTrue (room nodes (front ++ left ∷ back))
        → IsTrue (room nodes (front ++ back)) };

    /// A row of two may become a row of one.
    ghost one_of_two: { (nodes : Self) (front : List RowSeen) (before : Option ℕ)
        (back : List RowSeen)
        → IsTrue (room nodes (front ++ row before 2 ∷ back))
        → IsTrue (room nodes (front ++ row before 1 ∷ back)) };

    /// The next number of each world that it stands for.
    ghost next_is: { (nodes : Self) (w : World) → stands nodes w → w.next ≡ next nodes };

    /// The slots of each world that it stands for.
    ghost slots_are: { (nodes : Self) (w : World) → stands nodes w → w.limits.slots ≡ slots nodes };
}
