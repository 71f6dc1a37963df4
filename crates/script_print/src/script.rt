//! Printing of scripts.
ghost use Rattle.std.specs.Prelude.{◌≡◌, ◌+◌, ◌≤◌, List, ℕ, IfOk, Result, length};
ghost use Rattle.promise_commands.specs.Script.{Script};
ghost use Rattle.promise_script.specs.declared.reader.ReadRefused.{ReadRefused};
ghost use Rattle.promise_script.specs.Scripts.{IsReadAs, IsScriptText};
ghost use Rattle.script_print.specs.Again.{IsReadAgain};
ghost use Rattle.script_print.specs.Printed.{printed};

use crate::lines::{print_body, print_limits, print_line};
use kj_base::{Bytes, NoMemory};
use promise_script::Script;
use std::alloc::Global;

/// The text of a script, without remarks: its limits, if it says some, its bodies, and its lines
/// outside them. Its room is made at once.
pub fn print(alloc: Global, script: &Script) -> Result<Bytes, NoMemory>
    ensures text { IfOk result (λ text. text ≡ printed script.now) }
    ensures again { IfOk result (λ text. (again : Result Script ReadRefused)
        → IsReadAs text again → IsReadAgain script.now again) }
    ensures short { IfOk result (λ text. (source : List ℕ)
        → IsScriptText source script.now → length text ≤ length source + 1) }
{
    let mut text = Bytes::with_capacity(alloc, script.text().len() + 1)?;
    print_limits(&mut text, script.limits())?;
    for which in 0..script.body_count() {
        let action = script.action(alloc, which)?;
        print_body(&mut text, script.step(which), &action)?;
    }
    let mut left = script.lines(alloc);
    while let Some(numbered) = left.next()? {
        print_line(&mut text, &numbered.line)?;
    }
    Ok(text)
}
