//! Commands that free nothing, applied to nodes and names.
ghost use Rattle.std.specs.Prelude.{◌≡◌, ◌≤◌, [], ◌∷◌, ◌++◌, ℕ, List, Option, None, Bool, length, map};
ghost use Rattle.kj_base.specs.Commands.{Command as CommandSeen, Action, step_of};
ghost use Rattle.kj_base.specs.declared.outcomes.Outcome.TheVariants.{Value, Broken as BrokenBy};
ghost use Rattle.kj_base.specs.Places.{row};
ghost use Rattle.kj_base.specs.Record.{Item};
ghost use Rattle.kj_model.specs.World.{State};
ghost use Rattle.kj_model.specs.Nodes.{Ready, parts_of};
ghost use Rattle.kj_model.specs.Uses.{use_as, new_over, IsNew, IsSource, IsCell, IsHub};
ghost use Rattle.kj_model.specs.Effects.{leaf_built, over_named, over_listening, chain_built, fork_built, branch_built, cell_settled, cell_dropped, detached_built};
ghost use Rattle.kj_model.specs.Apply.{anew, before_source, apply};
ghost use Rattle.promise_commands.specs.Commands.{command_of, name_numbers};
ghost use Rattle.promise_commands.specs.Refusals.{refusal_of};
ghost use Rattle.promise_nodes.specs.Shown.{shown};
ghost use Rattle.promise_nodes.specs.Kept.{OnlyRises, rows_seen};
ghost use Rattle.promise_names.specs.Held.{AreFree};
ghost use Rattle.promise_apply.specs.Building.{Both, over_shown, pair_built};
ghost use Rattle.promise_apply.specs.Uses.{uses_shown};
ghost use Rattle.promise_apply.specs.Joining.{FitsJoined, joined_built, rows_before};
ghost use Rattle.promise_apply.specs.Applying.{Applies, IsApplied, IsCommand, IsSilent, setting_of};

use crate::building::{Over, build_leaf, build_over, detach};
use crate::cells::{build_pair, drop_cell, settle_cell};
use crate::chaining::{build_chain, build_fork, build_listening};
use crate::groups::{apply_cancel, apply_holder};
use crate::joining::{Joined, build_joined};
use crate::naming::{Role, Use};
use crate::refusing::check;
use crate::sets::{apply_add, apply_empty};
use crate::sharing::build_branch;
use crate::sources::{cell_named, hub_named, root_named, sources_named};
use arrayvec::ArrayVec;
use kj_base::{Exception, Form, Name, Outcome, StepId, Words};
use promise_commands::{Command, MAX_PARTS, Refused};
use promise_names::{Held, Names};
use promise_nodes::{NodeRow, Nodes};

/// The most names that a command has: a new one, and the sources of a join.
const MAX_USES: usize = 9;

// A leaf that a new name promises.
fn apply_leaf<N: Nodes, M: Names>(
    nodes: &mut N,
    names: &mut M,
    name: Name,
    form: Form,
) -> Result<(), Refused>
    requires leaf { parts_of (shown [] form) ≡ [] }
    requires free { AreFree (M.roots names.old) (N.is_taken nodes.old) (N.next nodes.old) }
    requires few { M.count names.old ≤ M.limit names.old }
    ensures applied { (c : CommandSeen) → IsCommand c
        (use_as IsNew name.0 ∷ []) (λ w. anew 1 ∷ []) (leaf_built name.0 (shown [] form))
        → Applies (Both (N.stands nodes.old) (M.stands names.old))
        (Both (N.stands nodes.new) (M.stands names.new)) N.rule (refusal_of result) c }
    ensures free { AreFree (M.roots names.new) (N.is_taken nodes.new) (N.next nodes.new) }
    ensures few { M.count names.new ≤ M.limit names.new }
    ensures limit { M.limit names.new ≡ M.limit names.old }
    ensures slots { N.slots nodes.new ≡ N.slots nodes.old }
    ensures plain { OnlyRises (N.is_plain nodes.old) (N.is_plain nodes.new) }
    ensures over { M.over names.new ≡ M.over names.old }
{
    check(
        nodes,
        names,
        &[Use {
            role: Role::New,
            name,
        }],
        &[NodeRow {
            before: None,
            count: 1,
        }],
    )?;
    build_leaf(nodes, names, name, form);
    Ok(())
}

// A promise and its fulfiller.
fn apply_pair<N: Nodes, M: Names>(
    nodes: &mut N,
    names: &mut M,
    name: Name,
    cell: Name,
) -> Result<(), Refused>
    requires free { AreFree (M.roots names.old) (N.is_taken nodes.old) (N.next nodes.old) }
    requires few { M.count names.old ≤ M.limit names.old }
    ensures applied { (c : CommandSeen)
        → IsCommand c (use_as IsNew name.0 ∷ use_as IsNew cell.0 ∷ []) (λ w. anew 1 ∷ [])
        (pair_built name.0 cell.0) → Applies (Both (N.stands nodes.old) (M.stands names.old))
        (Both (N.stands nodes.new) (M.stands names.new)) N.rule (refusal_of result) c }
    ensures free { AreFree (M.roots names.new) (N.is_taken nodes.new) (N.next nodes.new) }
    ensures few { M.count names.new ≤ M.limit names.new }
    ensures limit { M.limit names.new ≡ M.limit names.old }
    ensures slots { N.slots nodes.new ≡ N.slots nodes.old }
    ensures plain { OnlyRises (N.is_plain nodes.old) (N.is_plain nodes.new) }
    ensures over { M.over names.new ≡ M.over names.old }
{
    let uses = [
        Use {
            role: Role::New,
            name,
        },
        Use {
            role: Role::New,
            name: cell,
        },
    ];
    check(
        nodes,
        names,
        &uses,
        &[NodeRow {
            before: None,
            count: 1,
        }],
    )?;
    build_pair(nodes, names, name, cell);
    Ok(())
}

// A node over a source, which a new name promises.
fn apply_over<N: Nodes, M: Names>(
    nodes: &mut N,
    names: &mut M,
    name: Name,
    source: Name,
    over: Over,
) -> Result<(), Refused>
    requires free { AreFree (M.roots names.old) (N.is_taken nodes.old) (N.next nodes.old) }
    requires few { M.count names.old ≤ M.limit names.old }
    ensures applied { (c : CommandSeen) → IsCommand c (new_over name.0 (source.0 ∷ []))
        (λ w. before_source 1 source.0 w ∷ []) (over_named name.0 (over_shown over) source.0)
        → Applies (Both (N.stands nodes.old) (M.stands names.old))
        (Both (N.stands nodes.new) (M.stands names.new)) N.rule (refusal_of result) c }
    ensures free { AreFree (M.roots names.new) (N.is_taken nodes.new) (N.next nodes.new) }
    ensures few { M.count names.new ≤ M.limit names.new }
    ensures limit { M.limit names.new ≡ M.limit names.old }
    ensures slots { N.slots nodes.new ≡ N.slots nodes.old }
    ensures plain { OnlyRises (N.is_plain nodes.old) (N.is_plain nodes.new) }
    ensures over { M.over names.new ≡ M.over names.old }
{
    let uses = [
        Use {
            role: Role::New,
            name,
        },
        Use {
            role: Role::Source,
            name: source,
        },
    ];
    let root = root_named(names, source);
    check(
        nodes,
        names,
        &uses,
        &[NodeRow {
            before: root,
            count: 1,
        }],
    )?;
    match root {
        Some(root) => {
            build_over(nodes, names, name, source, root, over);
            Ok(())
        }
        None => Ok(()),
    }
}

// The same, and the node listens.
fn apply_listening<N: Nodes, M: Names>(
    nodes: &mut N,
    names: &mut M,
    name: Name,
    source: Name,
    over: Over,
) -> Result<(), Refused>
    requires free { AreFree (M.roots names.old) (N.is_taken nodes.old) (N.next nodes.old) }
    requires few { M.count names.old ≤ M.limit names.old }
    ensures applied { (c : CommandSeen) → IsCommand c (new_over name.0 (source.0 ∷ []))
        (λ w. before_source 1 source.0 w ∷ []) (over_listening name.0 (over_shown over) source.0)
        → Applies (Both (N.stands nodes.old) (M.stands names.old))
        (Both (N.stands nodes.new) (M.stands names.new)) N.rule (refusal_of result) c }
    ensures free { AreFree (M.roots names.new) (N.is_taken nodes.new) (N.next nodes.new) }
    ensures few { M.count names.new ≤ M.limit names.new }
    ensures limit { M.limit names.new ≡ M.limit names.old }
    ensures slots { N.slots nodes.new ≡ N.slots nodes.old }
    ensures plain { OnlyRises (N.is_plain nodes.old) (N.is_plain nodes.new) }
    ensures over { M.over names.new ≡ M.over names.old }
{
    let uses = [
        Use {
            role: Role::New,
            name,
        },
        Use {
            role: Role::Source,
            name: source,
        },
    ];
    let root = root_named(names, source);
    check(
        nodes,
        names,
        &uses,
        &[NodeRow {
            before: root,
            count: 1,
        }],
    )?;
    match root {
        Some(root) => {
            build_listening(nodes, names, name, source, root, over);
            Ok(())
        }
        None => Ok(()),
    }
}

// A Then over a source, and a Chain over it.
fn apply_chain<N: Nodes, M: Names>(
    nodes: &mut N,
    names: &mut M,
    name: Name,
    source: Name,
    value: Option<StepId>,
    error: Option<StepId>,
) -> Result<(), Refused>
    requires free { AreFree (M.roots names.old) (N.is_taken nodes.old) (N.next nodes.old) }
    requires few { M.count names.old ≤ M.limit names.old }
    ensures applied { (c : CommandSeen)
        → IsCommand c (new_over name.0 (source.0 ∷ [])) (λ w. before_source 2 source.0 w ∷ [])
        (chain_built name.0 source.0 (step_of value) (step_of error))
        → Applies (Both (N.stands nodes.old) (M.stands names.old))
        (Both (N.stands nodes.new) (M.stands names.new)) N.rule (refusal_of result) c }
    ensures free { AreFree (M.roots names.new) (N.is_taken nodes.new) (N.next nodes.new) }
    ensures few { M.count names.new ≤ M.limit names.new }
    ensures limit { M.limit names.new ≡ M.limit names.old }
    ensures slots { N.slots nodes.new ≡ N.slots nodes.old }
    ensures plain { OnlyRises (N.is_plain nodes.old) (N.is_plain nodes.new) }
    ensures over { M.over names.new ≡ M.over names.old }
{
    let uses = [
        Use {
            role: Role::New,
            name,
        },
        Use {
            role: Role::Source,
            name: source,
        },
    ];
    let root = root_named(names, source);
    check(
        nodes,
        names,
        &uses,
        &[NodeRow {
            before: root,
            count: 2,
        }],
    )?;
    match root {
        Some(root) => {
            build_chain(nodes, names, name, source, root, value, error);
            Ok(())
        }
        None => Ok(()),
    }
}

// A hub over a source.
fn apply_fork<N: Nodes, M: Names>(
    nodes: &mut N,
    names: &mut M,
    name: Name,
    source: Name,
) -> Result<(), Refused>
    requires free { AreFree (M.roots names.old) (N.is_taken nodes.old) (N.next nodes.old) }
    requires few { M.count names.old ≤ M.limit names.old }
    ensures applied { (c : CommandSeen)
        → IsCommand c (new_over name.0 (source.0 ∷ [])) (λ w. anew 1 ∷ [])
        (fork_built name.0 source.0) → Applies (Both (N.stands nodes.old) (M.stands names.old))
        (Both (N.stands nodes.new) (M.stands names.new)) N.rule (refusal_of result) c }
    ensures free { AreFree (M.roots names.new) (N.is_taken nodes.new) (N.next nodes.new) }
    ensures few { M.count names.new ≤ M.limit names.new }
    ensures limit { M.limit names.new ≡ M.limit names.old }
    ensures slots { N.slots nodes.new ≡ N.slots nodes.old }
    ensures plain { OnlyRises (N.is_plain nodes.old) (N.is_plain nodes.new) }
    ensures over { M.over names.new ≡ M.over names.old }
{
    let uses = [
        Use {
            role: Role::New,
            name,
        },
        Use {
            role: Role::Source,
            name: source,
        },
    ];
    check(
        nodes,
        names,
        &uses,
        &[NodeRow {
            before: None,
            count: 1,
        }],
    )?;
    match root_named(names, source) {
        Some(root) => {
            build_fork(nodes, names, name, source, root);
            Ok(())
        }
        None => Ok(()),
    }
}

// A branch of a hub.
fn apply_branch<N: Nodes, M: Names>(
    nodes: &mut N,
    names: &mut M,
    name: Name,
    hub: Name,
) -> Result<(), Refused>
    requires free { AreFree (M.roots names.old) (N.is_taken nodes.old) (N.next nodes.old) }
    requires few { M.count names.old ≤ M.limit names.old }
    ensures applied { (c : CommandSeen)
        → IsCommand c (use_as IsNew name.0 ∷ use_as IsHub hub.0 ∷ []) (λ w. anew 1 ∷ [])
        (branch_built name.0 hub.0) → Applies (Both (N.stands nodes.old) (M.stands names.old))
        (Both (N.stands nodes.new) (M.stands names.new)) N.rule (refusal_of result) c }
    ensures free { AreFree (M.roots names.new) (N.is_taken nodes.new) (N.next nodes.new) }
    ensures few { M.count names.new ≤ M.limit names.new }
    ensures limit { M.limit names.new ≡ M.limit names.old }
    ensures slots { N.slots nodes.new ≡ N.slots nodes.old }
    ensures plain { OnlyRises (N.is_plain nodes.old) (N.is_plain nodes.new) }
    ensures over { M.over names.new ≡ M.over names.old }
{
    let uses = [
        Use {
            role: Role::New,
            name,
        },
        Use {
            role: Role::Hub,
            name: hub,
        },
    ];
    check(
        nodes,
        names,
        &uses,
        &[NodeRow {
            before: None,
            count: 1,
        }],
    )?;
    match hub_named(names, hub) {
        Some(node) => {
            build_branch(nodes, names, name, hub, node);
            Ok(())
        }
        None => Ok(()),
    }
}

// The cell of a fulfiller gets its outcome.
fn apply_outcome<N: Nodes, M: Names>(
    nodes: &mut N,
    names: &mut M,
    name: Name,
    outcome: Outcome,
) -> Result<(), Refused>
    requires free { AreFree (M.roots names.old) (N.is_taken nodes.old) (N.next nodes.old) }
    requires few { M.count names.old ≤ M.limit names.old }
    ensures applied { (c : CommandSeen)
        → IsCommand c (use_as IsCell name.0 ∷ []) (λ w. []) (cell_settled name.0 outcome)
        → Applies (Both (N.stands nodes.old) (M.stands names.old))
        (Both (N.stands nodes.new) (M.stands names.new)) N.rule (refusal_of result) c }
    ensures free { AreFree (M.roots names.new) (N.is_taken nodes.new) (N.next nodes.new) }
    ensures few { M.count names.new ≤ M.limit names.new }
    ensures limit { M.limit names.new ≡ M.limit names.old }
    ensures slots { N.slots nodes.new ≡ N.slots nodes.old }
    ensures plain { OnlyRises (N.is_plain nodes.old) (N.is_plain nodes.new) }
    ensures over { M.over names.new ≡ M.over names.old }
{
    check(
        nodes,
        names,
        &[Use {
            role: Role::Cell,
            name,
        }],
        &[],
    )?;
    match cell_named(names, name) {
        Some(cell) => {
            settle_cell(nodes, names, name, cell, outcome);
            Ok(())
        }
        None => Ok(()),
    }
}

// A fulfiller goes.
fn apply_drop_cell<N: Nodes, M: Names>(
    nodes: &mut N,
    names: &mut M,
    name: Name,
) -> Result<(), Refused>
    requires free { AreFree (M.roots names.old) (N.is_taken nodes.old) (N.next nodes.old) }
    requires few { M.count names.old ≤ M.limit names.old }
    ensures applied { (c : CommandSeen)
        → IsCommand c (use_as IsCell name.0 ∷ []) (λ w. []) (cell_dropped name.0)
        → Applies (Both (N.stands nodes.old) (M.stands names.old))
        (Both (N.stands nodes.new) (M.stands names.new)) N.rule (refusal_of result) c }
    ensures free { AreFree (M.roots names.new) (N.is_taken nodes.new) (N.next nodes.new) }
    ensures few { M.count names.new ≤ M.limit names.new }
    ensures limit { M.limit names.new ≡ M.limit names.old }
    ensures slots { N.slots nodes.new ≡ N.slots nodes.old }
    ensures plain { OnlyRises (N.is_plain nodes.old) (N.is_plain nodes.new) }
    ensures over { M.over names.new ≡ M.over names.old }
{
    check(
        nodes,
        names,
        &[Use {
            role: Role::Cell,
            name,
        }],
        &[],
    )?;
    match cell_named(names, name) {
        Some(cell) => {
            drop_cell(nodes, names, name, cell);
            Ok(())
        }
        None => Ok(()),
    }
}

// A Task over a source, in the loop's own set.
fn apply_detach<N: Nodes, M: Names>(
    nodes: &mut N,
    names: &mut M,
    source: Name,
) -> Result<(), Refused>
    requires free { AreFree (M.roots names.old) (N.is_taken nodes.old) (N.next nodes.old) }
    requires few { M.count names.old ≤ M.limit names.old }
    ensures applied { (c : CommandSeen)
        → IsCommand c (use_as IsSource source.0 ∷ []) (λ w. before_source 1 source.0 w ∷ [])
        (detached_built source.0) → Applies (Both (N.stands nodes.old) (M.stands names.old))
        (Both (N.stands nodes.new) (M.stands names.new)) N.rule (refusal_of result) c }
    ensures free { AreFree (M.roots names.new) (N.is_taken nodes.new) (N.next nodes.new) }
    ensures few { M.count names.new ≤ M.limit names.new }
    ensures limit { M.limit names.new ≡ M.limit names.old }
    ensures slots { N.slots nodes.new ≡ N.slots nodes.old }
    ensures plain { OnlyRises (N.is_plain nodes.old) (N.is_plain nodes.new) }
    ensures over { M.over names.new ≡ M.over names.old }
{
    let root = root_named(names, source);
    check(
        nodes,
        names,
        &[Use {
            role: Role::Source,
            name: source,
        }],
        &[NodeRow {
            before: root,
            count: 1,
        }],
    )?;
    match root {
        Some(root) => {
            detach(nodes, names, source, root);
            Ok(())
        }
        None => Ok(()),
    }
}

// The names of a join: a new one, and its sources.
fn joined_uses(name: Name, wanted: &[Name]) -> ArrayVec<Use, MAX_USES>
    requires few { length wanted.now ≤ MAX_PARTS }
    ensures { uses_shown result.items ≡ new_over name.0 (name_numbers wanted.now) }
{
    let mut uses = ArrayVec::new();
    uses.push(Use {
        role: Role::New,
        name,
    });
    for source in wanted {
        uses.push(Use {
            role: Role::Source,
            name: *source,
        });
    }
    uses
}

// The rows of a join: one before each tree, and one anew.
fn joined_rows<M: Names>(names: &M, wanted: &[Name]) -> ArrayVec<NodeRow, MAX_USES>
    requires few { length wanted.now ≤ MAX_PARTS }
    ensures { rows_seen result.items
        ≡ rows_before (M.roots names.now) (name_numbers wanted.now) ++ row None 1 ∷ [] }
{
    let mut rows = ArrayVec::new();
    for source in wanted {
        rows.push(NodeRow {
            before: root_named(names, *source),
            count: 1,
        });
    }
    rows.push(NodeRow {
        before: None,
        count: 1,
    });
    rows
}

// A race or a join over sources.
fn apply_joined<N: Nodes, M: Names>(
    nodes: &mut N,
    names: &mut M,
    kind: Joined,
    name: Name,
    wanted: &[Name],
) -> Result<(), Refused>
    requires few_parts { length wanted.now ≤ MAX_PARTS }
    requires kind { FitsJoined kind (length wanted.now) }
    requires free { AreFree (M.roots names.old) (N.is_taken nodes.old) (N.next nodes.old) }
    requires few { M.count names.old ≤ M.limit names.old }
    ensures applied { (c : CommandSeen) → IsCommand c (new_over name.0 (name_numbers wanted.now))
        (λ w. map (λ source. before_source 1 source w) (name_numbers wanted.now) ++ anew 1 ∷ [])
        (joined_built kind name.0 (name_numbers wanted.now))
        → Applies (Both (N.stands nodes.old) (M.stands names.old))
        (Both (N.stands nodes.new) (M.stands names.new)) N.rule (refusal_of result) c }
    ensures free { AreFree (M.roots names.new) (N.is_taken nodes.new) (N.next nodes.new) }
    ensures few { M.count names.new ≤ M.limit names.new }
    ensures limit { M.limit names.new ≡ M.limit names.old }
    ensures slots { N.slots nodes.new ≡ N.slots nodes.old }
    ensures plain { OnlyRises (N.is_plain nodes.old) (N.is_plain nodes.new) }
    ensures over { M.over names.new ≡ M.over names.old }
{
    let uses = joined_uses(name, wanted);
    let rows = joined_rows(names, wanted);
    let uses = uses.as_slice();
    let rows = rows.as_slice();
    check(nodes, names, uses, rows)?;
    match sources_named(names, wanted) {
        Some(sources) => {
            let found = sources.as_slice();
            build_joined(nodes, names, kind, name, found);
            Ok(())
        }
        None => Ok(()),
    }
}

fn broken(exception: Exception) -> Form
    ensures { shown [] result ≡ Ready (BrokenBy exception) }
{
    Form::Ready {
        outcome: Outcome::Broken(exception),
    }
}

fn ready(value: &Words) -> Form
    ensures { shown [] result ≡ Ready (Value value.now) }
{
    Form::Ready {
        outcome: Outcome::Value(value.copy()),
    }
}

/// A command that frees nothing has its effect, or is refused; then all is as before.
pub(crate) fn apply_silent<N: Nodes, M: Names>(
    nodes: &mut N,
    names: &mut M,
    command: &Command,
) -> Result<(), Refused>
    requires silent { IsSilent command.now }
    requires free { AreFree (M.roots names.old) (N.is_taken nodes.old) (N.next nodes.old) }
    requires few { M.count names.old ≤ M.limit names.old }
    ensures applied { (answer : List Item → ℕ → Option Action) (inside : Bool) (s : State)
        → Both (N.stands nodes.old) (M.stands names.old) s.world
        → IsApplied (Both (N.stands nodes.new) (M.stands names.new)) s.past (refusal_of result)
        (apply (setting_of N.rule answer) inside (command_of command.now) s) }
    ensures free { AreFree (M.roots names.new) (N.is_taken nodes.new) (N.next nodes.new) }
    ensures few { M.count names.new ≤ M.limit names.new }
    ensures limit { M.limit names.new ≡ M.limit names.old }
    ensures slots { N.slots nodes.new ≡ N.slots nodes.old }
    ensures plain { OnlyRises (N.is_plain nodes.old) (N.is_plain nodes.new) }
    ensures over { M.over names.new ≡ M.over names.old }
{
    match command {
        Command::Now { name, value } => apply_leaf(nodes, names, *name, ready(value)),
        Command::Broken { name, exception } => apply_leaf(nodes, names, *name, broken(*exception)),
        Command::Later { name } => apply_leaf(nodes, names, *name, Form::Later),
        Command::Last { name } => apply_leaf(nodes, names, *name, Form::Last),
        Command::Pair { name, cell } => apply_pair(nodes, names, *name, *cell),
        Command::Then {
            name,
            source,
            value,
            error,
        } => {
            let over = Over::Then {
                value: *value,
                error: *error,
            };
            apply_over(nodes, names, *name, *source, over)
        }
        Command::Chain {
            name,
            source,
            value,
            error,
        } => apply_chain(nodes, names, *name, *source, *value, *error),
        Command::Eager { name, source } => {
            apply_listening(nodes, names, *name, *source, Over::Eager)
        }
        Command::Fork { hub, source } => apply_fork(nodes, names, *hub, *source),
        Command::Branch { name, hub } => apply_branch(nodes, names, *name, *hub),
        Command::Race { name, left, right } => {
            apply_joined(nodes, names, Joined::Race, *name, &[*left, *right])
        }
        Command::All { name, parts } => {
            apply_joined(nodes, names, Joined::All, *name, parts.as_slice())
        }
        Command::Fast { name, parts } => {
            apply_joined(nodes, names, Joined::Fast, *name, parts.as_slice())
        }
        Command::Fulfil { cell, value } => {
            apply_outcome(nodes, names, *cell, Outcome::Value(value.copy()))
        }
        Command::Reject { cell, exception } => {
            apply_outcome(nodes, names, *cell, Outcome::Broken(*exception))
        }
        Command::DropCell { cell } => apply_drop_cell(nodes, names, *cell),
        Command::Detach { source } => apply_detach(nodes, names, *source),
        Command::NewSet { group, error } => {
            let held = Held::Group {
                error: *error,
                tasks: 0,
                empty: None,
            };
            apply_holder(nodes, names, *group, held)
        }
        Command::Add { group, source } => apply_add(nodes, names, *group, *source),
        Command::OnEmpty { name, group } => apply_empty(nodes, names, *name, *group),
        Command::NewCanceler { canceler } => {
            apply_holder(nodes, names, *canceler, Held::Canceler)
        }
        Command::Cancel { canceler } => apply_cancel(nodes, names, *canceler),
        // A Clear and a Drop aren't silent.
        Command::Clear { .. } => Ok(()),
        Command::Drop { .. } => Ok(()),
    }
}
