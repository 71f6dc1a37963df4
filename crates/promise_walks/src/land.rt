//! What evaluations stand on.
ghost use Rattle.std.specs.Prelude.{◌≡◌, ℕ, List, Option, [], Bool, true, option_copied, is_err};
ghost use Rattle.kj_base.specs.Counts.{HasLacked};
ghost use Rattle.kj_base.specs.Places.{Spot, Row as RowSeen};
ghost use Rattle.kj_model.specs.World.{World};
ghost use Rattle.kj_model.specs.Nodes.{form_at};
ghost use Rattle.kj_model.specs.Changes.{put};
ghost use Rattle.kj_model.specs.Value.{freed, run_step};
ghost use Rattle.promise_nodes.specs.Shown.{Sees, shown};
ghost use Rattle.promise_nodes.specs.Kept.{OnlyFalls, OnlyRises, ShowsPlain};
ghost use Rattle.promise_walks.specs.Walks.{Does};
ghost use Rattle.promise_walks.specs.Values.{Gives, GivesRoot, IsBare, gave_given};

use kj_base::{Form, Link, NoMemory, Outcome, StepId};
use promise_commands::Steps;
use promise_nodes::Nodes;

/// What a step gave.
#[derive(Drop)]
pub enum Given {
    Gave(Outcome),
    /// The tree of a promise, which left its name.
    Took(Link),
}

/// A loop, as the evaluation of a tree sees it: its nodes, the frees of trees, and the steps, whose commands may change
/// any node. The contract speaks of each world that it stands for.
pub trait Land {
    /// It stands for this world.
    ghost stands: { Self → World → Type 0 };

    /// The number of slots, which no call changes.
    ghost slots: { Self → ℕ };

    /// The number of the next node.
    ghost next: { Self → ℕ };

    /// Whether a node is live and was made the tree of another one.
    ghost is_taken: { Self → ℕ → Bool };

    /// The root that each name promises.
    ghost roots: { Self → ℕ → Option ℕ };

    /// Whether a number was given to a node that is no hub and no branch, or that went.
    ghost is_plain: { Self → ℕ → Bool };

    /// The trees that are left over, which no call changes.
    ghost over: { Self → List ℕ };

    /// Whether rows fit, by the number of slots and the spots of the live nodes.
    ghost rule: { ℕ → List Spot → List RowSeen → Bool };

    /// The number of slots.
    fn slots(&self) -> u32
        ensures { result ≡ slots self.now };

    /// The form of a live node; none where it isn't live.
    fn form(&self, node: Link) -> Option<&Form>
        ensures form { (w : World) → stands self.now w
            → Sees (option_copied result) (form_at node.number.0 w.nodes) }
        ensures plain { ShowsPlain (option_copied result)
            → is_plain self.now node.number.0 ≡ true };

    /// A node has this form now, where it is live; it owns nothing.
    fn put_bare(&mut self, node: Link, form: Form)
        requires plain { is_plain self.old node.number.0 ≡ true }
        requires bare { IsBare form }
        ensures stands { (w : World) → stands self.old w
            → stands self.new (put node.number.0 (shown [] form) w) }
        ensures plain { OnlyRises (is_plain self.old) (is_plain self.new) }
        ensures slots { slots self.new ≡ slots self.old }
        ensures over { over self.new ≡ over self.old };

    /// A tree goes while an event fires.
    fn free_part<S: Steps>(&mut self, tree: Link, steps: &mut S)
        ensures does { Does (stands self.old) (stands self.new) (freed tree.number.0) (λ s. s)
            (S.told steps.old) (S.told steps.new) }
        ensures lacks { S.lacks steps.new ≡ S.lacks steps.old }
        ensures plain { OnlyRises (is_plain self.old) (is_plain self.new) }
        ensures slots { slots self.new ≡ slots self.old }
        ensures over { over self.new ≡ over self.old };

    /// A step runs under a node, which may be below a Chain: its commands are carried out, and then its ending.
    fn step<S: Steps>(
        &mut self,
        under_chain: bool,
        node: Link,
        step: StepId,
        input: Outcome,
        steps: &mut S,
    ) -> Result<Given, NoMemory>
        ensures gives { Gives (stands self.old) (stands self.new)
            rule (λ setting s. run_step setting under_chain node.number.0 step.0 input s) gave_given
            (S.told steps.old) (S.told steps.new) result }
        ensures lacks { HasLacked (is_err result) (S.lacks steps.old) (S.lacks steps.new) }
        ensures root { GivesRoot (roots self.new) (is_taken self.new) (next self.new) result }
        ensures plain { OnlyRises (is_plain self.old) (is_plain self.new) }
        ensures slots { slots self.new ≡ slots self.old }
        ensures over { over self.new ≡ over self.old };

    /// The slots of each world that it stands for.
    ghost slots_are: { (land : Self) (w : World) → stands land w → w.limits.slots ≡ slots land };
}

/// The form of a node in a keeper, for a land over it: the node owns nothing afterwards.
pub fn put_bare<N: Nodes>(nodes: &mut N, node: Link, form: Form)
    requires plain { N.is_plain nodes.old node.number.0 ≡ true }
    requires bare { IsBare form }
    ensures stands { (w : World) → N.stands nodes.old w
        → N.stands nodes.new (put node.number.0 (shown [] form) w) }
    ensures taken { OnlyFalls (N.is_taken nodes.old) (N.is_taken nodes.new) }
    ensures listed { OnlyFalls (N.is_listed nodes.old) (N.is_listed nodes.new) }
    ensures plain { OnlyRises (N.is_plain nodes.old) (N.is_plain nodes.new) }
    ensures next { N.next nodes.new ≡ N.next nodes.old }
    ensures slots { N.slots nodes.new ≡ N.slots nodes.old }
{
    nodes.put(node, form);
}
