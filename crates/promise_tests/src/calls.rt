//! Calls on the layers over the plain keepers. What they answer stands among what they tell, so that a test is a list of
//! calls and a list of what was told. Each layer is called in one place, whose clauses a test never sees.
ghost use Rattle.std.specs.Prelude.{◌≡◌, ◌≤◌, length};
ghost use Rattle.name_table.specs.Table.{trees};

use crate::tables::{TableEvaluator, evaluator_over_tables};
use crate::teller::{Teller, Told};
use kj_base::{Limits, Link, Name, NoMemory};
use promise_commands::{Command, Refused};
use promise_firing::close_all;
use promise_names::{Held, Names};
use promise_turns::{Turned, turn};
use promise_walks::Given;
use std::alloc::Global;

/// The limits of the loops of tests.
pub const LIMITS: Limits = Limits {
    slots: 16,
    names: 8,
};

/// How many items are told in a test at most.
pub const ROOM: usize = 32;

/// A call on a loop.
#[derive(Drop)]
pub enum Call {
    Apply(Command),
    Turn,
    /// The tree of the promise of this name is evaluated.
    Evaluate(u32),
    /// So is the Then of the Chain of this name, which may give a promise.
    EvaluateLink(u32),
    Close,
}

/// The answer of a command.
pub fn refused(over: &mut TableEvaluator, command: &Command, steps: &mut Teller) -> Option<Refused>
    ensures over { trees over.new.names.over ≡ trees over.old.names.over }
{
    over.ground.apply(command, steps).err()
}

/// The tree that a name promises.
pub fn promised(over: &TableEvaluator, name: u32) -> Option<Link> {
    match over.ground.names().get(Name(name)) {
        Some(Held::Promise(root)) => Some(root),
        _ => None,
    }
}

/// Closes the loop.
pub fn close(over: &mut TableEvaluator, steps: &mut Teller)
    requires few { length (trees over.old.names.over) ≤ 2 }
    ensures over { trees over.new.names.over ≡ trees over.old.names.over }
{
    let keepers = &mut over.ground.keepers;
    close_all(
        &mut keepers.nodes,
        &mut keepers.names,
        &mut keepers.frames,
        &mut keepers.search,
        steps,
    );
}

fn evaluate(over: &mut TableEvaluator, root: Link, steps: &mut Teller)
    ensures over { trees over.new.names.over ≡ trees over.old.names.over }
{
    match over.evaluate(root, steps) {
        Ok(outcome) => steps.tell_outcome(&outcome),
        Err(_) => steps.tell(Told::Turned(Turned::NoMemory)),
    }
}

fn evaluate_link(over: &mut TableEvaluator, link: Link, steps: &mut Teller)
    ensures over { trees over.new.names.over ≡ trees over.old.names.over }
{
    match over.evaluate_link(link, steps) {
        Ok(Given::Took(root)) => steps.tell(Told::Took(root.number)),
        Ok(Given::Gave(outcome)) => steps.tell_outcome(&outcome),
        Err(_) => steps.tell(Told::Turned(Turned::NoMemory)),
    }
}

/// A call is made. A name that promises nothing isn't evaluated.
pub fn make(over: &mut TableEvaluator, call: &Call, steps: &mut Teller)
    requires few { length (trees over.old.names.over) ≤ 1 }
    ensures few { length (trees over.new.names.over) ≤ 1 }
{
    match call {
        Call::Apply(command) => {
            if let Some(refused) = refused(over, command, steps) {
                steps.tell(Told::Refused(refused));
            }
        }
        Call::Turn => {
            let turned = turn(over, steps);
            steps.tell(Told::Turned(turned));
        }
        Call::Evaluate(name) => {
            if let Some(root) = promised(over, *name) {
                evaluate(over, root, steps);
            }
        }
        Call::EvaluateLink(name) => {
            if let Some(link) = promised(over, *name) {
                evaluate_link(over, link, steps);
            }
        }
        Call::Close => close(over, steps),
    }
}

/// These calls are made in turn.
pub fn make_all(over: &mut TableEvaluator, calls: &[Call], steps: &mut Teller)
    requires few { length (trees over.old.names.over) ≤ 1 }
    ensures few { length (trees over.new.names.over) ≤ 1 }
{
    for call in calls {
        make(over, call, steps);
    }
}

/// What these calls tell, made on a new loop.
pub fn told_by(alloc: Global, calls: &[Call]) -> Result<Vec<Told>, NoMemory> {
    let mut over = evaluator_over_tables(alloc, LIMITS)?;
    let mut steps = Teller::new(alloc, ROOM)?;
    make_all(&mut over, calls, &mut steps);
    Ok(steps.told)
}
