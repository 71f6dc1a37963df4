//! The line of a command.
ghost use Rattle.std.specs.Prelude.{◌≡◌, ◌++◌, OnOk};
ghost use Rattle.promise_script.specs.declared.meaning.Meaning.TheVariants.{Do};
ghost use Rattle.script_print.specs.Printed.{printed_line};

use crate::words::{print_exception, print_names, print_numbers, print_steps, print_valued};
use kj_base::{Bytes, Name, NoMemory};
use promise_commands::Command;

// A name as a number.
fn id(name: &Name) -> u64
    ensures { result ≡ name.now.0 }
{
    u64::from(name.0)
}

/// A command as a line. An `Err` may leave a part of it.
pub fn print_command(text: &mut Bytes, command: &Command) -> Result<(), NoMemory>
    ensures { OnOk result (text.new ≡ text.old ++ printed_line (Do command.now)) }
{
    match command {
        Command::Now { name, value } => print_valued(text, b"now", &[id(name)], value.as_slice()),
        Command::Broken { name, exception } => {
            print_exception(text, b"fail", &[id(name)], *exception)
        }
        Command::Later { name } => print_numbers(text, b"later", &[id(name)]),
        Command::Last { name } => print_numbers(text, b"last", &[id(name)]),
        Command::Pair { name, cell } => print_numbers(text, b"pair", &[id(name), id(cell)]),
        Command::Then {
            name,
            source,
            value,
            error,
        } => print_steps(text, b"then", &[id(name), id(source)], &[*value, *error]),
        Command::Chain {
            name,
            source,
            value,
            error,
        } => print_steps(text, b"chain", &[id(name), id(source)], &[*value, *error]),
        Command::Eager { name, source } => print_numbers(text, b"eager", &[id(name), id(source)]),
        Command::Fork { hub, source } => print_numbers(text, b"fork", &[id(hub), id(source)]),
        Command::Branch { name, hub } => print_numbers(text, b"branch", &[id(name), id(hub)]),
        Command::Race { name, left, right } => {
            print_numbers(text, b"race", &[id(name), id(left), id(right)])
        }
        Command::All { name, parts } => print_names(text, b"all", &[id(name)], parts.as_slice()),
        Command::Fast { name, parts } => print_names(text, b"fast", &[id(name)], parts.as_slice()),
        Command::Fulfil { cell, value } => {
            print_valued(text, b"fulfil", &[id(cell)], value.as_slice())
        }
        Command::Reject { cell, exception } => {
            print_exception(text, b"reject", &[id(cell)], *exception)
        }
        Command::DropCell { cell } => print_numbers(text, b"dropcell", &[id(cell)]),
        Command::Detach { source } => print_numbers(text, b"detach", &[id(source)]),
        Command::NewSet { group, error } => print_steps(text, b"set", &[id(group)], &[*error]),
        Command::Add { group, source } => print_numbers(text, b"add", &[id(group), id(source)]),
        Command::OnEmpty { name, group } => {
            print_numbers(text, b"empty", &[id(name), id(group)])
        }
        Command::Clear { group } => print_numbers(text, b"clear", &[id(group)]),
        Command::NewCanceler { canceler } => print_numbers(text, b"canceler", &[id(canceler)]),
        Command::Cancel { canceler } => print_numbers(text, b"cancel", &[id(canceler)]),
        Command::Drop { name } => print_numbers(text, b"drop", &[id(name)]),
    }
}
