//! What a line means, from its octets.
ghost use Rattle.std.specs.Prelude.{◌≡◌, ◌==◌, ◌<◌, ◌↔◌, IsTrue, IfOk, IfSome, OnOk, map, None};
ghost use Rattle.promise_script.specs.declared.meaning.Meaning.{Meaning};
ghost use Rattle.promise_script.specs.ScriptText.{Means, words_of};
ghost use Rattle.std.specs.List.{count_by};
ghost use Rattle.promise_script.specs.Decode.{bare, waited, limits_fit, limits_read, name_and, one_number, turns_read, meaning_read, words_meaning, text_read};

use crate::commands::{read_combined, read_made, read_used};
use crate::fields::{read_name, read_number, read_words};
use crate::meaning::{MAX_TURNS, Meaning, SLOTS_STEP};
use crate::parts::{read_exception, read_one_name};
use crate::verbs::{Verb, read_verb};
use kj_base::{Ending, Limits, MAX_NAMES, MAX_SLOTS, Name, NoMemory, StepId};
use std::alloc::{AllocError, Global};

/// The most spaces in a line that means something and is no remark: those of a name and 16 words
/// behind the first word.
const MOST_SPACES: usize = 17;

// Whether a loop may have these limits.
fn limits_fit(slots: u32, names: u32) -> bool
    ensures { result ≡ limits_fit slots names }
{
    SLOTS_STEP <= slots
        && slots <= MAX_SLOTS
        && slots % SLOTS_STEP == 0
        && 1 <= names
        && names <= MAX_NAMES
}

fn read_limits(parts: &[&[u8]]) -> Option<Limits>
    ensures { result ≡ limits_read (map (λ w. w.now) parts.now) }
{
    match parts {
        [] => None,
        [_] => None,
        [slots, names] => {
            let slots = read_number(slots)?;
            let names = read_number(names)?;
            if !limits_fit(slots, names) {
                return None;
            }
            Some(Limits { slots, names })
        }
        [_, _, _, ..] => None,
    }
}

// The one number of a line.
fn read_one_number(parts: &[&[u8]]) -> Option<u32>
    ensures { result ≡ one_number (map (λ w. w.now) parts.now) }
{
    match parts {
        [] => None,
        [number] => read_number(number),
        [_, _, ..] => None,
    }
}

// How many turns a line asks.
fn read_turns(parts: &[&[u8]]) -> Option<u32>
    ensures { result ≡ turns_read (map (λ w. w.now) parts.now) }
{
    let turns = read_one_number(parts)?;
    if turns > MAX_TURNS {
        return None;
    }
    Some(turns)
}

// A name, and how many turns a line asks.
fn read_wait(parts: &[&[u8]]) -> Option<(Name, u32)>
    ensures { result ≡ name_and turns_read (map (λ w. w.now) parts.now) }
{
    match parts {
        [] => None,
        [name, rest @ ..] => {
            let name = read_name(name)?;
            let turns = read_turns(rest)?;
            Some((name, turns))
        }
    }
}

// What a line means that waits.
fn read_awaited(parts: &[&[u8]]) -> Option<Meaning>
    ensures { result ≡ waited (map (λ w. w.now) parts.now) }
{
    let (name, turns) = read_wait(parts)?;
    Some(Meaning::Wait(name, turns))
}

// What a line means that begins so.
fn read_meaning(verb: Verb, parts: &[&[u8]]) -> Option<Meaning>
    ensures { result ≡ meaning_read verb (map (λ w. w.now) parts.now) }
{
    match verb {
        Verb::Make(maker) => Some(Meaning::Do(read_made(maker, parts)?)),
        Verb::Combine(combiner) => Some(Meaning::Do(read_combined(combiner, parts)?)),
        Verb::Use(user) => Some(Meaning::Do(read_used(user, parts)?)),
        Verb::Limits => Some(Meaning::Limits(read_limits(parts)?)),
        Verb::Turn => read_bare(parts, Meaning::Turn),
        Verb::Run => Some(Meaning::Run(read_turns(parts)?)),
        Verb::Wait => read_awaited(parts),
        Verb::Step => Some(Meaning::Step(StepId(read_one_number(parts)?))),
        Verb::Value => Some(Meaning::Close(Ending::Value(read_words(parts)?))),
        Verb::Throw => Some(Meaning::Close(Ending::Throw(read_exception(parts)?))),
        Verb::Promise => Some(Meaning::Close(Ending::Promise(read_one_name(parts)?))),
        Verb::Input => read_bare(parts, Meaning::Close(Ending::Input)),
    }
}

// What a line means that is its first word alone.
fn read_bare(parts: &[&[u8]], meaning: Meaning) -> Option<Meaning>
    ensures { result ≡ bare meaning (map (λ w. w.now) parts.now) }
{
    if !parts.is_empty() {
        return None;
    }
    Some(meaning)
}

// What these words mean.
fn meaning_of(words: &[&[u8]]) -> Option<Meaning>
    ensures { result ≡ words_meaning (map (λ w. w.now) words.now) }
{
    match words {
        [] => None,
        [word, parts @ ..] => {
            let verb = read_verb(word)?;
            read_meaning(verb, parts)
        }
    }
}

// How many spaces a line has.
fn space_count(text: &[u8]) -> usize
    ensures { result ≡ count_by (λ c. c == 32) text.now }
{
    text.iter().filter(|octet| **octet == b' ').count()
}

// The words of a line, which single spaces part, in place of those that were there.
fn put_words<'a>(words: &mut Vec<&'a [u8]>, text: &'a [u8]) -> Result<(), AllocError>
    ensures { OnOk result (map (λ w. w.now) words.new.items ≡ words_of text.now) }
{
    words.clear();
    words.extend(text.split(|octet| *octet == b' '))
}

// Whether a line has more spaces than one that means something. They are counted only where it has
// so many octets.
fn has_many_spaces(text: &[u8]) -> bool
    ensures { IsTrue result ↔ (MOST_SPACES < count_by (λ c. c == 32) text.now) }
{
    text.len() > MOST_SPACES && space_count(text) > MOST_SPACES
}

/// What `read_line` gives, as the reader's own definition says it. The words of the line take the place
/// of those of the line before, so that one line after another takes no memory anew.
pub fn find_meaning<'a>(
    words: &mut Vec<&'a [u8]>,
    text: &'a [u8],
) -> Result<Option<Meaning>, NoMemory>
    ensures { IfOk result (λ meaning. meaning ≡ text_read text.now) }
{
    if text.is_empty() {
        return Ok(Some(Meaning::Nothing));
    }
    if text[0] == b'#' {
        return Ok(Some(Meaning::Nothing));
    }
    if has_many_spaces(text) {
        return Ok(None);
    }
    put_words(words, text)?;
    Ok(meaning_of(words.as_slice()))
}

/// What one line means, its end left out; none where it means nothing that a script may say.
pub fn read_line(alloc: Global, text: &[u8]) -> Result<Option<Meaning>, NoMemory>
    ensures meaning { IfOk result (λ found. IfSome found (λ meaning. Means text.now meaning)) }
    ensures none { result ≡ Ok None → (meaning : Meaning) → Means text.now meaning → ⊥ }
{
    let mut words = Vec::new(alloc);
    find_meaning(&mut words, text)
}
