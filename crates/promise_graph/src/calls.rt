//! The calls of a graph.
ghost use Rattle.std.specs.Prelude.{◌≡◌, ◌<◌, ◌≤◌, ◌+◌, ℕ, Option, Some, None};

use crate::graph::Graph;
use crate::{
    building, events, finding, fitting, freeing, hubs, listing, own_set, owners, putting,
    replacing, visits,
};
use kj_base::{Form, Link, Name, Queue, Store};
use promise_nodes::{Mark, NodeRow, Nodes, Way};

impl<St: Store + Drop, Q: Queue + Drop> Nodes for Graph<St, Q> {
    ghost use Rattle.promise_graph.specs.Kept.{is_taken, is_listed, is_plain};
    ghost use Rattle.promise_graph.specs.Standing.{StandsFor};
    ghost use Rattle.promise_graph.specs.Rows.{room_of};
    ghost use Rattle.promise_graph.specs.Visits.{mark_of};

    ghost stands = { λ g w. StandsFor (St.node_at g.store) (Q.events g.queue) (St.stands g.store)
        g.marks g.memberships w };

    ghost slots = { λ g. g.marks.slots };

    ghost next = { λ g. g.marks.next };

    ghost is_taken = { λ g n. is_taken g.marks n };

    ghost is_listed = { λ g n. is_listed (St.node_at g.store) g.marks n };

    ghost is_plain = { λ g n. is_plain (St.node_at g.store) g.marks n };

    ghost marks = { λ g n. mark_of g.visits g.marks n };

    ghost room = { λ g rows. room_of (St.room g.store) g.marks rows };

    ghost rule = { St.rule };

    fn slots(&self) -> u32 {
        self.fields.marks.slots
    }

    fn next(&self) -> u64 {
        self.fields.marks.next
    }

    fn form(&self, node: Link) -> Option<&Form> {
        finding::form(&self.fields, node)
    }

    fn owner(&self, node: Link) -> Option<Link> {
        owners::owner(&self.fields, node)
    }

    fn firing(&self) -> Option<Link> {
        self.fields.marks.firing
    }

    fn awaited(&self) -> Option<Link> {
        self.fields.marks.awaited
    }

    fn fits(&self, rows: &[NodeRow]) -> bool {
        fitting::fits(&self.fields, rows)
    }

    fn build(&mut self, before: Option<Link>, form: Form) -> Link {
        building::build(&mut self.fields, before, form)
    }

    fn put(&mut self, node: Link, form: Form) {
        putting::put(&mut self.fields, node, form);
    }

    fn drop_node(&mut self, node: Link) {
        listing::leave_any(&self.fields, &mut self.memberships, node);
        freeing::drop_node(&mut self.fields, node);
    }

    fn join_hub(&mut self, branch: Link, hub: Link) {
        hubs::join_hub(&mut self.fields, branch, hub);
    }

    fn leave_hub(&mut self, branch: Link, hub: Link) -> bool {
        hubs::leave_hub(&mut self.fields, branch, hub)
    }

    fn is_unreferenced(&self, hub: Link) -> bool {
        hubs::is_unreferenced(&self.fields, hub)
    }

    fn first_branch(&self, hub: Link) -> Option<Link> {
        hubs::first_branch(&self.fields, hub)
    }

    fn next_branch(&self, branch: Link) -> Option<Link> {
        hubs::next_branch(&self.fields, branch)
    }

    fn replace(&mut self, old: Link, new: Link) {
        replacing::replace(&mut self.fields, old, new);
    }

    fn enlist(&mut self, task: Link) {
        own_set::enlist(&mut self.fields, task);
    }

    fn delist(&mut self, task: Link) {
        own_set::delist(&mut self.fields, task);
    }

    fn newest_task(&self) -> Option<Link> {
        own_set::newest_task(&self.fields)
    }

    fn oldest_hub(&self) -> Option<Link> {
        own_set::oldest_hub(&self.fields)
    }

    fn join_list(&mut self, node: Link, list: Name) {
        listing::join_list(&self.fields, &mut self.memberships, node, list);
    }

    fn leave_list(&mut self, node: Link, list: Name) {
        listing::leave_list(&self.fields, &mut self.memberships, node, list);
    }

    fn clear_list(&mut self, list: Name) {
        listing::clear_list(&self.fields, &mut self.memberships, list);
    }

    fn list_of(&self, node: Link) -> Option<Name> {
        listing::list_of(&self.fields, &self.memberships, node)
    }

    fn newest_member(&self, list: Name) -> Option<Link> {
        listing::newest_member(&self.fields, &self.memberships, list)
    }

    fn older_member(&self, node: Link) -> Option<Link> {
        listing::older_member(&self.fields, &self.memberships, node)
    }

    fn arm(&mut self, way: Way, node: Link) {
        events::arm(&mut self.fields, way, node);
    }

    fn disarm(&mut self, node: Link) {
        events::disarm(&mut self.fields, node);
    }

    fn take(&mut self) -> Option<Link> {
        events::take(&mut self.fields)
    }

    fn rewind(&mut self) {
        events::rewind(&mut self.fields);
    }

    fn set_firing(&mut self, firing: Option<Link>) {
        events::set_firing(&mut self.fields, firing);
    }

    fn set_awaited(&mut self, awaited: Option<Link>) {
        events::set_awaited(&mut self.fields, awaited);
    }

    fn clear_marks(&mut self) {
        visits::forget(&mut self.visits, self.fields.marks.slots);
    }

    fn mark(&mut self, node: Link, mark: Mark) {
        if let Some(slot) = finding::find(&self.fields, node) {
            visits::note(&mut self.visits, self.fields.marks.slots, slot, mark);
        }
    }

    fn mark_of(&self, node: Link) -> Mark {
        visits::mark_at(&self.visits, finding::find(&self.fields, node))
    }

    ghost use Rattle.promise_graph.specs.Laws.{names_free, left_out, one_of_two};

    ghost names_free = { λ g w v same lists st.
        names_free _ _ _ _ _ w v same lists st };

    ghost plain_is = { λ g w n st h. st.nodes.plain n h };

    ghost tasks_built = { λ g w n st h. st.nodes.tasks n h };

    ghost members_built = { λ g w list n st i. st.lists.below list n i };

    ghost lists_apart = { λ g w st. st.lists.apart };

    ghost members_once = { λ g w list st. st.lists.once list };

    ghost once = { λ g w st. st.nodes.stands.seen.nodes.once };

    ghost hubs_built = { λ g w n st h. st.nodes.hubs n h };

    ghost few_branches = { λ g w hub st. st.nodes.few hub };

    ghost left_out = { λ g front left back h. left_out (St.room g.store) g.marks
        (St.left_out g.store) front left back h };

    ghost one_of_two = { λ g front before back h. one_of_two (St.room g.store) g.marks
        (St.one_of_two g.store) front before back h };

    ghost next_is = { λ g w st. st.nodes.stands.seen.next_is };

    ghost slots_are = { λ g w st. st.nodes.stands.seen.slots_are };
}
