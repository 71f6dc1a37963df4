//! The top call: it judges the words, and does what they say.
ghost use Rattle.std.specs.Prelude.{◌≡◌};
ghost use Rattle.kj_serve.specs.declared.forms.Form.{Form};
ghost use Rattle.kj_serve.specs.Words.{IsForm, IsNoForm};
ghost use Rattle.kj_serve.specs.Ends.{Ends};
ghost use Rattle.kj_serve.specs.Outside.{outside_of};

use crate::forms::{Form, form_of};
use crate::make::make_command;
use crate::replay::replay_command;
use crate::run::run_command;
use crate::status::WRONG_WORDS;
use kj_io::{Sink, Source, Spawner};
use std::alloc::Global;
use std::sync::Wait;
use std::thread::Threads;

/// Does what the words say, over these outside objects, and gives the status of the program.
pub fn kj_main<R: Wait + Threads + Sync, I: Source, O: Sink, W: Spawner>(
    rt: &R,
    alloc: Global,
    words: &[String],
    input: &mut I,
    output: &mut O,
    spawner: &mut W,
) -> u8
    // Words of a form: what it promises of each status, of the input and of the output.
    ensures form { (form : Form) → IsForm words.now form
        → Ends form result
        (outside_of I.left I.faults O.taken O.faults input.old output.old)
        (outside_of I.left I.faults O.taken O.faults input.new output.new) }

    // Other words: status 2, and nothing is read or written.
    ensures other_words { IsNoForm words.now → result ≡ 2 }
    ensures two { result ≡ 2 → IsNoForm words.now }
    ensures untouched { result ≡ 2 → (input.new ≡ input.old) × (output.new ≡ output.old) }

    // No form has jobs so far.
    ensures no_jobs { spawner.new ≡ spawner.old }
{
    match form_of(words) {
        Some(Form::Run) => run_command(alloc, input, output),
        Some(Form::Replay { service }) => replay_command(
            rt, alloc, 1, service, false, input, output, spawner,
        ),
        Some(
            Form::Make {
                number,
                conns,
                requests,
            },
        ) => make_command(alloc, number, conns, requests, output),
        None => WRONG_WORDS,
    }
}
