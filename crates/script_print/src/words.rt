//! Lines from their words. Where a call answers `Err`, a part of its line may stand there.
ghost use Rattle.std.specs.Prelude.{◌≡◌, ◌++◌, ◌∷◌, [], OnOk, decimal, map, flat_map};
ghost use Rattle.kj_model.specs.Text.{all_spaced};
ghost use Rattle.promise_script.specs.ScriptText.{exception_words, name_word, step_word};
ghost use Rattle.script_print.specs.Printed.{words_line};

use kj_base::{Bytes, Exception, Name, NoMemory, StepId};
use promise_steps::{kind_word, print_number, print_words};

// A first word, and numbers behind it.
fn print_start(text: &mut Bytes, verb: &[u8], numbers: &[u64]) -> Result<(), NoMemory>
    ensures { OnOk result (text.new ≡ text.old ++ verb.now ++ all_spaced numbers.now) }
{
    text.extend(verb)?;
    print_words(text, numbers)
}

/// A line of a first word, numbers and words.
pub fn print_valued(
    text: &mut Bytes,
    verb: &[u8],
    numbers: &[u64],
    words: &[u64],
) -> Result<(), NoMemory>
    ensures { OnOk result (text.new ≡ text.old
        ++ words_line (verb.now ∷ map decimal numbers.now ++ map decimal words.now)) }
{
    print_start(text, verb, numbers)?;
    print_words(text, words)?;
    text.push(b'\n')
}

/// A line of a first word and numbers.
pub fn print_numbers(text: &mut Bytes, verb: &[u8], numbers: &[u64]) -> Result<(), NoMemory>
    ensures { OnOk result
        (text.new ≡ text.old ++ words_line (verb.now ∷ map decimal numbers.now)) }
{
    print_start(text, verb, numbers)?;
    text.push(b'\n')
}

/// A line of a first word, numbers and an exception.
pub fn print_exception(
    text: &mut Bytes,
    verb: &[u8],
    numbers: &[u64],
    exception: Exception,
) -> Result<(), NoMemory>
    ensures { OnOk result (text.new ≡ text.old
        ++ words_line (verb.now ∷ map decimal numbers.now ++ exception_words exception)) }
{
    print_start(text, verb, numbers)?;
    text.push(b' ')?;
    text.extend(kind_word(exception.kind))?;
    print_number(text, u64::from(exception.code))?;
    text.push(b'\n')
}

// A step's number, or `-` for none, after a space.
fn print_step(text: &mut Bytes, step: Option<StepId>) -> Result<(), NoMemory>
    ensures { OnOk result (text.new ≡ text.old ++ 32 ∷ step_word step) }
{
    match step {
        Some(step) => print_number(text, u64::from(step.0)),
        None => text.extend(b" -"),
    }
}

/// A line of a first word, numbers and steps.
pub fn print_steps(
    text: &mut Bytes,
    verb: &[u8],
    numbers: &[u64],
    steps: &[Option<StepId>],
) -> Result<(), NoMemory>
    ensures { OnOk result (text.new ≡ text.old
        ++ words_line (verb.now ∷ map decimal numbers.now ++ map step_word steps.now)) }
{
    print_start(text, verb, numbers)?;
    for step in steps {
        print_step(text, *step)?;
    }
    text.push(b'\n')
}

/// A line of a first word, numbers and names.
pub fn print_names(
    text: &mut Bytes,
    verb: &[u8],
    numbers: &[u64],
    names: &[Name],
) -> Result<(), NoMemory>
    ensures { OnOk result (text.new ≡ text.old
        ++ words_line (verb.now ∷ map decimal numbers.now ++ map name_word names.now)) }
{
    print_start(text, verb, numbers)?;
    for name in names {
        print_number(text, u64::from(name.0))?;
    }
    text.push(b'\n')
}
