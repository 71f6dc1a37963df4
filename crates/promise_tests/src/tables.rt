//! The layers over the plain store, the plain queue and the table of names.
ghost use Rattle.std.specs.Prelude.{◌≡◌, ◌≤◌, ℕ, [], None, IfOk};
ghost use Rattle.kj_model.specs.World.{new_world};
ghost use Rattle.node_table.specs.NodeTable.{node_of, Stands as TableStands};
ghost use Rattle.promise_graph.specs.Standing.{StandsFor};
ghost use Rattle.name_table.specs.Table.{Stands as NamesStand, count_of, root_at, trees};

use event_list::EventList;
use kj_base::{Limits, MAX_SLOTS, NoMemory};
use name_table::NameTable;
use node_table::NodeTable;
use promise_eval::{Evaluator, Ground};
use promise_graph::Graph;
use std::alloc::Global;

/// Evaluates trees of nodes in a table.
pub type TableEvaluator = Evaluator<Graph<NodeTable, EventList>, NameTable>;

// An empty graph.
fn table_graph(alloc: Global, limits: Limits) -> Result<Graph<NodeTable, EventList>, NoMemory>
    requires few { limits.slots ≤ MAX_SLOTS }
    ensures stands { IfOk result (λ g. StandsFor (node_of g.store) g.queue.events
        (TableStands g.store) g.marks g.memberships (new_world limits)) }
{
    let store = match NodeTable::new(alloc, limits.slots) {
        Ok(store) => store,
        Err(none) => return Err(none),
    };
    let queue = match EventList::new(alloc, limits.slots + 1) {
        Ok(queue) => queue,
        Err(none) => return Err(none),
    };
    match Graph::new(alloc, limits, store, queue) {
        Ok(graph) => Ok(graph),
        Err(none) => Err(none),
    }
}

// No names.
fn no_names(alloc: Global, limits: Limits) -> Result<NameTable, NoMemory>
    ensures stands { IfOk result (λ n. NamesStand n (new_world limits)) }
    ensures no_promises { IfOk result (λ n. (name : ℕ) → root_at n name ≡ None) }
    ensures none { IfOk result (λ n. count_of n ≡ 0) }
    ensures none_over { IfOk result (λ n. trees n.over ≡ []) }
{
    match NameTable::new(alloc, limits) {
        Ok(names) => Ok(names),
        Err(none) => Err(none),
    }
}

/// For a loop with these limits, in which nothing was built.
pub fn evaluator_over_tables(alloc: Global, limits: Limits) -> Result<TableEvaluator, NoMemory>
    requires few { limits.slots ≤ MAX_SLOTS }
    ensures nodes { IfOk result (λ e. StandsFor (node_of e.nodes.store) e.nodes.queue.events
        (TableStands e.nodes.store) e.nodes.marks e.nodes.memberships (new_world limits)) }
    ensures names { IfOk result (λ e. NamesStand e.names (new_world limits)) }
    ensures none_over { IfOk result (λ e. trees e.names.over ≡ []) }
{
    let graph = table_graph(alloc, limits)?;
    let names = no_names(alloc, limits)?;
    let ground = Ground::new(alloc, graph, names)?;
    Evaluator::new(alloc, ground)
}
