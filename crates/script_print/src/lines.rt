//! The lines of a body, and those outside bodies. Where a call answers `Err`, a part of its text
//! may stand there.
ghost use Rattle.std.specs.Prelude.{◌≡◌, ◌++◌, OnOk};
ghost use Rattle.promise_script.specs.declared.meaning.Meaning.TheVariants.{Close};
ghost use Rattle.promise_script.specs.Scripts.{limits_meanings, line_meaning};
ghost use Rattle.script_print.specs.Printed.{action_meanings, printed_line, printed_lines};

use crate::commands::print_command;
use crate::words::{print_exception, print_numbers, print_valued};
use kj_base::{Bytes, Ending, Limits, NoMemory, StepId};
use promise_commands::{Action, Line};

/// The line of the limits, if there are some.
pub fn print_limits(text: &mut Bytes, limits: Option<Limits>) -> Result<(), NoMemory>
    ensures { OnOk result (text.new ≡ text.old ++ printed_lines (limits_meanings limits)) }
{
    match limits {
        Some(limits) => {
            let numbers = [u64::from(limits.slots), u64::from(limits.names)];
            print_numbers(text, b"limits", &numbers)
        }
        None => Ok(()),
    }
}

// The last line of a body.
fn print_ending(text: &mut Bytes, ending: &Ending) -> Result<(), NoMemory>
    ensures { OnOk result (text.new ≡ text.old ++ printed_line (Close ending.now)) }
{
    match ending {
        Ending::Value(value) => print_numbers(text, b"value", value.as_slice()),
        Ending::Throw(exception) => print_exception(text, b"throw", &[], *exception),
        Ending::Promise(name) => print_numbers(text, b"promise", &[u64::from(name.0)]),
        Ending::Input => print_numbers(text, b"input", &[]),
    }
}

/// A body of a step.
pub fn print_body(text: &mut Bytes, step: StepId, action: &Action) -> Result<(), NoMemory>
    ensures { OnOk result
        (text.new ≡ text.old ++ printed_lines (action_meanings step action.now)) }
{
    print_numbers(text, b"step", &[u64::from(step.0)])?;
    for command in action.commands.as_slice() {
        print_command(text, command)?;
    }
    print_ending(text, &action.ending)
}

/// A line outside bodies.
pub fn print_line(text: &mut Bytes, line: &Line) -> Result<(), NoMemory>
    ensures { OnOk result (text.new ≡ text.old ++ printed_line (line_meaning line.now)) }
{
    match line {
        Line::Do(command) => print_command(text, command),
        Line::Turn => print_numbers(text, b"turn", &[]),
        Line::Run(turns) => print_numbers(text, b"run", &[u64::from(*turns)]),
        Line::Wait(name, turns) => {
            print_numbers(text, b"wait", &[u64::from(name.0), u64::from(*turns)])
        }
    }
}
