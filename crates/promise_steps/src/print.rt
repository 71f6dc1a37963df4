//! The text of a log. Where a call answers `Err`, a part of its text may stand there.
ghost use Rattle.std.specs.Prelude.{◌≡◌, ◌++◌, ◌∷◌, [], OnOk, codes, decimal};
ghost use Rattle.kj_model.specs.Text.{spaced, all_spaced, kind_text, outcome_text, refused_text, line_text};
ghost use Rattle.kj_model.specs.Log.{RefusedAt, WasIdle, wait_line};
ghost use Rattle.promise_commands.specs.Refusals.{refused_of};
ghost use Rattle.promise_commands.specs.Waits.{waited_of};

use itoa::Buffer;
use kj_base::{Bytes, Kind, Name, NoMemory, NodeId, Outcome, StepId};
use promise_commands::{Refused, Waited};

/// A number after a space.
pub fn print_number(text: &mut Bytes, n: u64) -> Result<(), NoMemory>
    ensures { OnOk result (text.new ≡ text.old ++ spaced n) }
{
    let mut buffer = Buffer::new();
    text.push(b' ')?;
    text.extend(buffer.format(n).as_bytes())
}

/// The word of a kind.
pub fn kind_word(kind: Kind) -> &'static [u8]
    ensures { result.now ≡ kind_text kind }
{
    match kind {
        Kind::Failed => b"failed",
        Kind::Overloaded => b"overloaded",
        Kind::Disconnected => b"disconnected",
        Kind::Unimplemented => b"unimplemented",
    }
}

/// Each word after a space.
pub fn print_words(text: &mut Bytes, words: &[u64]) -> Result<(), NoMemory>
    ensures { OnOk result (text.new ≡ text.old ++ all_spaced words.now) }
{
    for word in words {
        print_number(text, *word)?;
    }
    Ok(())
}

// An outcome in words.
fn print_outcome(text: &mut Bytes, outcome: &Outcome) -> Result<(), NoMemory>
    ensures { OnOk result (text.new ≡ text.old ++ outcome_text outcome.now) }
{
    match outcome {
        Outcome::Value(words) => {
            text.extend(b"value")?;
            print_words(text, words.as_slice())
        }
        Outcome::Broken(exception) => {
            text.extend(b"throw ")?;
            text.extend(kind_word(exception.kind))?;
            print_number(text, u64::from(exception.code))
        }
    }
}

// The line of a run, with its end.
pub(crate) fn print_run(
    text: &mut Bytes,
    node: NodeId,
    step: StepId,
    input: &Outcome,
) -> Result<(), NoMemory>
    ensures { OnOk result (text.new ≡ text.old
        ++ (codes "run" ++ spaced node.0 ++ spaced step.0 ++ codes " " ++ outcome_text input.now)
        ++ 10 ∷ []) }
{
    text.extend(b"run")?;
    print_number(text, node.0)?;
    print_number(text, u64::from(step.0))?;
    text.push(b' ')?;
    print_outcome(text, input)?;
    text.push(b'\n')
}

// The line of a free, with its end.
pub(crate) fn print_free(text: &mut Bytes, node: NodeId) -> Result<(), NoMemory>
    ensures { OnOk result (text.new ≡ text.old ++ (codes "free" ++ spaced node.0) ++ 10 ∷ []) }
{
    text.extend(b"free")?;
    print_number(text, node.0)?;
    text.push(b'\n')
}

// Why a line was refused, after its number.
fn print_cause(text: &mut Bytes, refused: Refused) -> Result<(), NoMemory>
    ensures { OnOk result (text.new ≡ text.old ++ refused_text (refused_of refused)) }
{
    match refused {
        Refused::Unknown(name) => {
            text.extend(b" unknown")?;
            print_number(text, u64::from(name.0))
        }
        Refused::Taken(name) => {
            text.extend(b" taken")?;
            print_number(text, u64::from(name.0))
        }
        Refused::Full => text.extend(b" full"),
        Refused::Busy(name) => {
            text.extend(b" busy")?;
            print_number(text, u64::from(name.0))
        }
        Refused::WrongKind(name) => {
            text.extend(b" wrong")?;
            print_number(text, u64::from(name.0))
        }
        Refused::Stopped => text.extend(b" stopped"),
    }
}

/// The line of a refusal, with its end.
pub fn print_refused(text: &mut Bytes, number: u32, refused: Refused) -> Result<(), NoMemory>
    ensures { OnOk result
        (text.new ≡ text.old ++ line_text (RefusedAt number (refused_of refused)) ++ 10 ∷ []) }
{
    text.extend(b"refused")?;
    print_number(text, u64::from(number))?;
    print_cause(text, refused)?;
    text.push(b'\n')
}

/// The line of a turn that found the queue empty, with its end.
pub fn print_idle(text: &mut Bytes) -> Result<(), NoMemory>
    ensures { OnOk result (text.new ≡ text.old ++ line_text WasIdle ++ 10 ∷ []) }
{
    text.extend(b"idle\n")
}

// The line of a wait that is done, with its end.
fn print_done(text: &mut Bytes, name: Name, outcome: &Outcome) -> Result<(), NoMemory>
    ensures { OnOk result (text.new ≡ text.old
        ++ (codes "wait" ++ spaced name.0 ++ codes " done " ++ outcome_text outcome.now)
        ++ 10 ∷ []) }
{
    text.extend(b"wait")?;
    print_number(text, u64::from(name.0))?;
    text.extend(b" done ")?;
    print_outcome(text, outcome)?;
    text.push(b'\n')
}

// The line of a wait that ended so before, with its end.
fn print_undone(text: &mut Bytes, name: Name, end: &[u8]) -> Result<(), NoMemory>
    ensures { OnOk result
        (text.new ≡ text.old ++ (codes "wait" ++ spaced name.0 ++ end.now) ++ 10 ∷ []) }
{
    text.extend(b"wait")?;
    print_number(text, u64::from(name.0))?;
    text.extend(end)?;
    text.push(b'\n')
}

/// The line of a wait, or of its refusal, with its end.
pub fn print_waited(
    text: &mut Bytes,
    number: u32,
    name: Name,
    waited: Waited,
) -> Result<(), NoMemory>
    ensures { OnOk result (text.new ≡ text.old
        ++ line_text (wait_line number name.0 (waited_of waited)) ++ 10 ∷ []) }
{
    match waited {
        Waited::Done(outcome) => print_done(text, name, &outcome),
        Waited::Idle => print_undone(text, name, b" idle"),
        Waited::Turns => print_undone(text, name, b" turns"),
        Waited::Refused(refused) => print_refused(text, number, refused),
        Waited::NoMemory => print_undone(text, name, b" memory"),
        Waited::Stopped => print_undone(text, name, b" stopped"),
    }
}
