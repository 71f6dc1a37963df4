//! Why a command is refused, by its names and the rows of nodes that it builds.
ghost use Rattle.std.specs.Prelude.{◌≡◌, ◌+◌, ◌-◌, ◌≤◌, [], None, false, OnOk, length};
ghost use Rattle.kj_model.specs.Apply.{Full};
ghost use Rattle.kj_model.specs.World.{World};
ghost use Rattle.promise_commands.specs.Refusals.{refusal_of};
ghost use Rattle.promise_nodes.specs.Kept.{rows_seen};
ghost use Rattle.promise_apply.specs.Building.{Both};
ghost use Rattle.promise_apply.specs.Uses.{uses_shown};
ghost use Rattle.promise_apply.specs.Applying.{ArePassed, HasRoom, awaited_over, count_new, count_sources, lacks_room, names_left, names_refused, refused_first, refused_for, refused_if, stays};

use crate::naming::{
    Fault, Use, first_fault, is_new_before, is_new_role, is_source_before, is_source_role, is_there,
};
use kj_base::Name;
use promise_commands::Refused;
use promise_names::Names;
use promise_nodes::{NodeRow, Nodes};

/// No node has a number above this one and the nodes of one command.
const LAST_NUMBER: u64 = 1 << 63;

fn news(uses: &[Use]) -> u64
    requires few { length uses.now ≤ 9 }
    ensures count { result ≡ count_new (uses_shown uses.now) }
    ensures few { result ≤ 9 }
{
    let mut count = 0;
    for used in uses {
        if is_new_role(used.role) {
            count += 1;
        }
    }
    count
}

fn taken_sources(uses: &[Use]) -> u64
    requires few { length uses.now ≤ 9 }
    ensures count { result ≡ count_sources (uses_shown uses.now) }
    ensures few { result ≤ 9 }
{
    let mut count = 0;
    for used in uses {
        if is_source_role(used.role) {
            count += 1;
        }
    }
    count
}

// Whether this name is there after the new names came and the sources went.
fn stays<M: Names>(names: &M, uses: &[Use], name: Name) -> bool
    ensures { (w : World) → M.stands names.now w → result ≡ stays name.0 (uses_shown uses.now) w }
{
    is_new_before(uses, name) || (is_there(names, name) && !is_source_before(uses, name))
}

// One name more, where that of the awaited promise is gone.
fn awaited_more<M: Names>(names: &M, uses: &[Use]) -> u64
    ensures more { (w : World) → M.stands names.now w
        → result ≡ awaited_over w.awaited (uses_shown uses.now) w }
    ensures few { result ≤ 1 }
{
    match names.awaited() {
        Some(promise) if !stays(names, uses, promise.name) => 1,
        _ => 0,
    }
}

// How many names there would be.
fn names_after<M: Names>(names: &M, uses: &[Use]) -> u64
    requires few { length uses.now ≤ 9 }
    ensures count { M.count names.now + count_new (uses_shown uses.now)
        - count_sources (uses_shown uses.now) ≤ result + 1 }
    ensures names { (w : World) → M.stands names.now w → ArePassed (uses_shown uses.now) w
        → result ≡ names_left (uses_shown uses.now) w }
{
    let there = names.len() + news(uses);
    there.saturating_sub(taken_sources(uses)) + awaited_more(names, uses)
}

fn lacks_room<N: Nodes, M: Names>(nodes: &N, names: &M, uses: &[Use], rows: &[NodeRow]) -> bool
    requires few { length uses.now ≤ 9 }
    requires few_rows { length rows.now ≤ 9 }
    ensures lacks { (w : World)
        → Both (N.stands nodes.now) (M.stands names.now) w → ArePassed (uses_shown uses.now) w
        → result ≡ lacks_room N.rule (uses_shown uses.now) (rows_seen rows.now) w }
    ensures room { result ≡ false → HasRoom (N.room nodes.now) (N.next nodes.now)
        (M.count names.now) (M.limit names.now) (uses_shown uses.now) (rows_seen rows.now) }
{
    !nodes.fits(rows)
        || u64::from(names.limit()) < names_after(names, uses)
        || (!rows.is_empty() && LAST_NUMBER < nodes.next())
}

// Whether a name refuses.
fn check_names<N: Nodes, M: Names>(nodes: &N, names: &M, uses: &[Use]) -> Result<(), Refused>
    ensures { (w : World) → Both (N.stands nodes.now) (M.stands names.now) w
        → refusal_of result ≡ names_refused (uses_shown uses.now) w }
{
    if let Some(name) = first_fault(nodes, names, Fault::Unknown, uses) {
        return Err(Refused::Unknown(name));
    }
    if let Some(name) = first_fault(nodes, names, Fault::Wrong, uses) {
        return Err(Refused::WrongKind(name));
    }
    match first_fault(nodes, names, Fault::Taken, uses) {
        Some(name) => Err(Refused::Taken(name)),
        None => Ok(()),
    }
}

/// The first cause by its names against a command.
pub(crate) fn check_named<N: Nodes, M: Names>(
    nodes: &N,
    names: &M,
    uses: &[Use],
) -> Result<(), Refused>
    ensures refusal { (w : World) → Both (N.stands nodes.now) (M.stands names.now) w
        → refusal_of result ≡ refused_first (uses_shown uses.now) w }
{
    if names.is_stopped() {
        return Err(Refused::Stopped);
    }
    check_names(nodes, names, uses)
}

/// Whether a command that builds nothing is Full, once its names pass.
pub(crate) fn check_count<N: Nodes, M: Names>(
    nodes: &N,
    names: &M,
    uses: &[Use],
) -> Result<(), Refused>
    requires few { length uses.now ≤ 9 }
    ensures refusal { (w : World) → Both (N.stands nodes.now) (M.stands names.now) w
        → refused_first (uses_shown uses.now) w ≡ None
        → refusal_of result ≡ refused_if (lacks_room N.rule (uses_shown uses.now) [] w) Full }
{
    if lacks_room(nodes, names, uses, &[]) {
        return Err(Refused::Full);
    }
    Ok(())
}

/// The first cause against a command with these names, which builds these rows.
pub(crate) fn check<N: Nodes, M: Names>(
    nodes: &N,
    names: &M,
    uses: &[Use],
    rows: &[NodeRow],
) -> Result<(), Refused>
    requires few { length uses.now ≤ 9 }
    requires few_rows { length rows.now ≤ 9 }
    ensures refusal { (w : World) → Both (N.stands nodes.now) (M.stands names.now) w
        → refusal_of result ≡ refused_for N.rule (uses_shown uses.now) (rows_seen rows.now) w }
    ensures room { OnOk result (HasRoom (N.room nodes.now) (N.next nodes.now) (M.count names.now)
        (M.limit names.now) (uses_shown uses.now) (rows_seen rows.now)) }
{
    if names.is_stopped() {
        return Err(Refused::Stopped);
    }
    check_names(nodes, names, uses)?;
    if lacks_room(nodes, names, uses, rows) {
        return Err(Refused::Full);
    }
    Ok(())
}
