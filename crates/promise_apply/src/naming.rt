//! The names of a command, and why one of them refuses it.
ghost use Rattle.std.specs.Prelude.{◌≡◌, ◌<◌, [], ◌&&◌, ◌||◌, ◌==◌, List, Option, None, Some, true, false};
ghost use Rattle.std.specs.List.{list_any};
ghost use Rattle.kj_model.specs.World.{World, Held as Seen};
ghost use Rattle.kj_model.specs.Nodes.{form_at};
ghost use Rattle.kj_model.specs.Uses.{Use as UseSeen, first_failing, has_role, has_empty_cell, is_name, is_new, is_source, used_before, is_unknown, is_wrong, is_taken, is_promise, is_cell, is_taken_ask, is_hub, is_group, is_canceler, is_live_request, waits_at};
ghost use Rattle.promise_names.specs.Held.{SeesHeld};
ghost use Rattle.promise_apply.specs.Uses.{role_shown, use_shown, uses_shown, has_fault, name_number};
ghost use Rattle.promise_apply.specs.Building.{Both};
ghost use Rattle.promise_apply.specs.declared.naming.Use.{Use as Used};

use kj_base::{Form, Link, Name};
use promise_names::{Held, Names};
use promise_nodes::Nodes;

/// What a command wants of a name.
#[derive(Clone, Copy, Debug, PartialEq, Eq)]
pub enum Role {
    /// It is new.
    New,
    /// It is a promise, which the command takes.
    Source,
    Cell,
    /// The cell of an ask that was taken.
    Ask,
    Hub,
    Group,
    /// A set without a cell that waits until it is empty.
    GroupAlone,
    Canceler,
    Request,
    /// What can be dropped.
    Droppable,
}

/// One name of a command.
#[derive(Clone, Copy, Debug, PartialEq, Eq)]
pub struct Use {
    pub role: Role,
    pub name: Name,
}

/// What stands in the places of an array of names that aren't used.
impl Default for Use {
    fn default() -> Use {
        Use {
            role: Role::Droppable,
            name: Name(0),
        }
    }
}

/// Why a name refuses a command.
#[derive(Clone, Copy, Debug, PartialEq, Eq)]
pub enum Fault {
    /// It should be there and isn't, or is a source that is named twice.
    Unknown,
    /// It holds something else.
    Wrong,
    /// It is new and there already, or its set has a cell that waits.
    Taken,
}

pub(crate) fn is_new_role(role: Role) -> bool
    ensures { result ≡ is_new (role_shown role) }
{
    match role {
        Role::New => true,
        Role::Source | Role::Cell | Role::Ask | Role::Hub | Role::Group => false,
        Role::GroupAlone | Role::Canceler | Role::Request | Role::Droppable => false,
    }
}

pub(crate) fn is_source_role(role: Role) -> bool
    ensures { result ≡ is_source (role_shown role) }
{
    match role {
        Role::Source => true,
        Role::New | Role::Cell | Role::Ask | Role::Hub | Role::Group => false,
        Role::GroupAlone | Role::Canceler | Role::Request | Role::Droppable => false,
    }
}

pub(crate) fn is_there<M: Names>(names: &M, name: Name) -> bool
    ensures { (w : World) → M.stands names.now w → result ≡ is_name name.0 w.names }
{
    names.get(name).is_some()
}

fn some_new(before: &[Use], name: Name) -> bool
    ensures { result
        ≡ list_any (λ (u : Used). is_new (role_shown u.role) && (u.name.0 == name.0)) before.now }
{
    before
        .iter()
        .any(|used| is_new_role(used.role) && used.name.0 == name.0)
}

fn some_source(before: &[Use], name: Name) -> bool
    ensures { result ≡ list_any (λ (u : Used). is_source (role_shown u.role)
        && (u.name.0 == name.0)) before.now }
{
    before
        .iter()
        .any(|used| is_source_role(used.role) && used.name.0 == name.0)
}

pub(crate) fn is_new_before(before: &[Use], name: Name) -> bool
    ensures { result ≡ used_before is_new name.0 (uses_shown before.now) }
{
    some_new(before, name)
}

pub(crate) fn is_source_before(before: &[Use], name: Name) -> bool
    ensures { result ≡ used_before is_source name.0 (uses_shown before.now) }
{
    some_source(before, name)
}

fn is_unknown_name<M: Names>(names: &M, before: &[Use], used: Use) -> bool
    ensures { (w : World) → M.stands names.now w
        → result ≡ is_unknown w (uses_shown before.now) (use_shown used) }
{
    !is_new_role(used.role)
        && (!is_there(names, used.name)
            || (is_source_role(used.role) && is_source_before(before, used.name)))
}

fn is_promise(held: Option<Held>) -> bool
    ensures { (seen : Option Seen) → SeesHeld held seen → result ≡ is_promise seen }
{
    match held {
        Some(Held::Promise(_)) => true,
        _ => false,
    }
}

fn is_cell(held: Option<Held>) -> bool
    ensures { (seen : Option Seen) → SeesHeld held seen → result ≡ is_cell seen }
{
    match held {
        Some(Held::CellOf(_)) => true,
        _ => false,
    }
}

fn is_taken_ask(held: Option<Held>) -> bool
    ensures { (seen : Option Seen) → SeesHeld held seen → result ≡ is_taken_ask seen }
{
    match held {
        Some(Held::AskCell { is_taken, .. }) => is_taken,
        _ => false,
    }
}

fn is_hub(held: Option<Held>) -> bool
    ensures { (seen : Option Seen) → SeesHeld held seen → result ≡ is_hub seen }
{
    match held {
        Some(Held::HubOf(_)) => true,
        _ => false,
    }
}

fn is_group(held: Option<Held>) -> bool
    ensures { (seen : Option Seen) → SeesHeld held seen → result ≡ is_group seen }
{
    match held {
        Some(Held::Group { .. }) => true,
        _ => false,
    }
}

fn is_canceler(held: Option<Held>) -> bool
    ensures { (seen : Option Seen) → SeesHeld held seen → result ≡ is_canceler seen }
{
    match held {
        Some(Held::Canceler) => true,
        _ => false,
    }
}

fn is_live_request(held: Option<Held>) -> bool
    ensures { (seen : Option Seen) → SeesHeld held seen → result ≡ is_live_request seen }
{
    match held {
        Some(Held::RequestOf(Some(_))) => true,
        _ => false,
    }
}

fn is_droppable(held: Option<Held>) -> bool
    ensures { (seen : Option Seen) → SeesHeld held seen
        → result ≡ (is_promise seen || is_hub seen || is_group seen || is_canceler seen) }
{
    is_promise(held) || is_hub(held) || is_group(held) || is_canceler(held)
}

// Whether what a name holds is what the command wants of it.
fn has_role(role: Role, held: Option<Held>) -> bool
    ensures { (seen : Option Seen) → SeesHeld held seen → result ≡ has_role (role_shown role) seen }
{
    match role {
        Role::New => true,
        Role::Source => is_promise(held),
        Role::Cell => is_cell(held),
        Role::Ask => is_taken_ask(held),
        Role::Hub => is_hub(held),
        Role::Group => is_group(held),
        Role::GroupAlone => is_group(held),
        Role::Canceler => is_canceler(held),
        Role::Request => is_live_request(held),
        Role::Droppable => is_droppable(held),
    }
}

fn is_wrong_name<M: Names>(names: &M, used: Use) -> bool
    ensures { (w : World) (before : List UseSeen) → M.stands names.now w
        → result ≡ is_wrong w before (use_shown used) }
{
    !has_role(used.role, names.get(used.name))
}

fn is_waiting<N: Nodes>(nodes: &N, cell: Link) -> bool
    ensures { (w : World) → N.stands nodes.now w
        → result ≡ waits_at (form_at cell.number.0 w.nodes) }
{
    match nodes.form(cell) {
        Some(Form::Cell { outcome: None }) => true,
        _ => false,
    }
}

// Whether a set has a cell that waits until it is empty.
fn has_empty_cell<N: Nodes>(nodes: &N, held: Option<Held>) -> bool
    ensures { (w : World) (seen : Option Seen) → N.stands nodes.now w → SeesHeld held seen
        → result ≡ has_empty_cell w.nodes seen }
{
    match held {
        Some(
            Held::Group {
                empty: Some(cell),
                ..
            },
        ) => is_waiting(nodes, cell),
        _ => false,
    }
}

fn is_taken_name<N: Nodes, M: Names>(nodes: &N, names: &M, before: &[Use], used: Use) -> bool
    ensures { (w : World) → Both (N.stands nodes.now) (M.stands names.now) w
        → result ≡ is_taken w (uses_shown before.now) (use_shown used) }
{
    match used.role {
        Role::New => is_there(names, used.name) || is_new_before(before, used.name),
        Role::GroupAlone => has_empty_cell(nodes, names.get(used.name)),
        Role::Source | Role::Cell | Role::Ask | Role::Hub | Role::Group => false,
        Role::Canceler | Role::Request | Role::Droppable => false,
    }
}

// Whether a name has this fault; the names of the command before it may matter.
fn has_fault<N: Nodes, M: Names>(
    nodes: &N,
    names: &M,
    fault: Fault,
    before: &[Use],
    used: Use,
) -> bool
    ensures { (w : World) → Both (N.stands nodes.now) (M.stands names.now) w
        → result ≡ has_fault fault w (uses_shown before.now) (use_shown used) }
{
    match fault {
        Fault::Unknown => is_unknown_name(names, before, used),
        Fault::Wrong => is_wrong_name(names, used),
        Fault::Taken => is_taken_name(nodes, names, before, used),
    }
}

/// The first name of a command that has this fault.
pub fn first_fault<N: Nodes, M: Names>(
    nodes: &N,
    names: &M,
    fault: Fault,
    uses: &[Use],
) -> Option<Name>
    ensures { (w : World) → Both (N.stands nodes.now) (M.stands names.now) w
        → name_number result ≡ first_failing (has_fault fault w) [] (uses_shown uses.now) }
{
    for i in 0..uses.len() {
        if has_fault(nodes, names, fault, &uses[..i], uses[i]) {
            return Some(uses[i].name);
        }
    }
    None
}
