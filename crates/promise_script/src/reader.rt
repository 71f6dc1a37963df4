//! Reading of scripts.
ghost use Rattle.std.specs.Prelude.{true, ◌≡◌, ◌<◌, ◌^◌, IfOk, length};
ghost use Rattle.promise_script.specs.Scripts.{IsReadAs, ScriptFits};
ghost use Rattle.promise_script.specs.Assembly.{refused_at, unbuilt_command};
ghost use Rattle.promise_script.specs.Kept.{Answers, IsKeptAs, kept_before, line_stood};

use crate::cuts::{first_line, first_word_of};
use crate::kept::Kept;
use crate::lines::find_meaning;
use crate::script::Script;
use crate::spots::Spots;
use kj_base::NoMemory;
use std::alloc::Global;
use thiserror::Error;

/// Why a text was not read. A line is told by its number, from 1: the first that no script has
/// behind the lines before it, or the one behind the last where a body isn't closed.
#[derive(Clone, Copy, Debug, PartialEq, Eq, Error)]
pub enum ReadRefused {
    #[error("line {line} is bad")]
    Bad { line: u32 },
    /// The line is refused, and its first word is one of those that aren't built yet.
    #[error("line {line} is not built")]
    NotBuilt { line: u32 },
    #[error("out of memory")]
    NoMemory,
}

impl From<NoMemory> for ReadRefused {
    ghost use Rattle.promise_script.specs.declared.reader.ReadRefused.TheVariants.{NoMemory as NoMemoryCase};

    ghost from_gives = { λ _ e. e ≡ NoMemoryCase };

    fn from(_error: NoMemory) -> ReadRefused {
        ReadRefused::NoMemory
    }
}

// Whether the word begins a command that isn't built yet.
fn is_unbuilt_command(word: &[u8]) -> bool
    ensures { result ≡ unbuilt_command word.now }
{
    word == b"wrap".as_slice()
        || word == b"ask".as_slice()
        || word == b"begin".as_slice()
        || word == b"stop".as_slice()
        || word == b"reply".as_slice()
}

// Why a line is refused.
fn refusal(text: &[u8], number: u32) -> ReadRefused
    ensures { result ≡ refused_at number text.now }
{
    if is_unbuilt_command(first_word_of(text)) {
        return ReadRefused::NotBuilt { line: number };
    }
    ReadRefused::Bad { line: number }
}

// Adds one line, behind which the text goes on at this place; false where it may not stand here.
fn stand_line<'a>(
    words: &mut Vec<&'a [u8]>,
    kept: &mut Kept,
    place: u32,
    text: &'a [u8],
) -> Result<bool, NoMemory>
    ensures { IfOk result
        (λ stands. Answers stands (line_stood place kept.old text.now) kept.new) }
{
    match find_meaning(words, text)? {
        Some(meaning) => kept.stand(place, &meaning),
        None => Ok(false),
    }
}

// How many lines begin a body, in the text of a script.
fn count_bodies(octets: &[u8]) -> usize {
    octets
        .split(|octet| *octet == b'\n')
        .filter(|text| text.starts_with(b"step "))
        .count()
}

// Before the first line, with room for the bodies.
fn before_lines(alloc: Global, octets: &[u8]) -> Result<Kept, NoMemory>
    ensures { IfOk result (λ kept. kept ≡ kept_before) }
{
    let spots = Spots::with_capacity(alloc, count_bodies(octets))?;
    Ok(Kept {
        started: false,
        limits: None,
        spots,
        body: None,
    })
}

/// Reads a script, line by line: lines end with LF, the last may end with the text. An `Err` tells
/// the first line that no script has behind the lines before it, or that memory ran out.
pub fn read<'a>(alloc: Global, octets: &'a [u8]) -> Result<Script<'a>, ReadRefused>
    requires { length octets.now < 2 ^ 32 }
    ensures text { IsReadAs octets.now result }
    ensures fits { IfOk result (λ script. ScriptFits script) }
{
    match read_lines(alloc, octets) {
        Ok(kept) => Ok(Script {
            octets,
            limits: kept.limits,
            spots: kept.spots,
        }),
        Err(refused) => Err(refused),
    }
}

// Reads the lines one after another.
fn read_lines(alloc: Global, octets: &[u8]) -> Result<Kept, ReadRefused>
    requires { length octets.now < 2 ^ 32 }
    ensures { IsKeptAs octets.now result }
{
    let mut kept = before_lines(alloc, octets)?;
    let mut rest = octets;
    let mut words = Vec::new(alloc);
    let mut number: u32 = 0;
    while !rest.is_empty() {
        let (text, behind) = first_line(rest);
        let place = (octets.len() - behind.len()) as u32;
        number += 1;
        if !stand_line(&mut words, &mut kept, place, text)? {
            return Err(refusal(text, number));
        }
        rest = behind;
    }
    if kept.body.is_some() {
        return Err(ReadRefused::Bad { line: number + 1 });
    }
    Ok(kept)
}
