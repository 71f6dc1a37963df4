//! Laws of printed scripts.
ghost use Rattle.std.specs.Prelude.{◌≡◌, ◌+◌, ◌≤◌, List, ℕ, Result, length};
ghost use Rattle.promise_commands.specs.Script.{Script};
ghost use Rattle.promise_script.specs.declared.reader.ReadRefused.{ReadRefused};
ghost use Rattle.promise_script.specs.Scripts.{IsReadAs, IsScriptText};
ghost use Rattle.script_print.specs.Again.{IsPrintable, IsReadAgain, IsSame};
ghost use Rattle.script_print.specs.Printed.{printed};

/// A script that is read can be printed, and what is printed is read as the same script but for the
/// numbers of its lines. Scripts that are the same but for these have one text. It is no longer
/// than a text that was read, but for the end of the last line.
pub fn read_again()
    ensures printable { (text : List ℕ) (script : Script)
        → IsScriptText text script → IsPrintable script }
    ensures again { (script : Script) (again : Result Script ReadRefused)
        → IsPrintable script → IsReadAs (printed script) again → IsReadAgain script again }
    ensures short { (text : List ℕ) (script : Script)
        → IsScriptText text script → length (printed script) ≤ length text + 1 }
    ensures one_text { (one other : Script) → IsSame one other → printed one ≡ printed other }
{}
