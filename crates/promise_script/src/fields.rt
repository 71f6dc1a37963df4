//! The fields of a line.
ghost use Rattle.std.specs.Prelude.{◌≡◌, ◌^◌, map};
ghost use Rattle.promise_script.specs.Decode.{number_read, name_read, step_read, kind_read, words_read, names_read};

use crate::meaning::MAX_WORDS;
use kj_base::{Kind, Name, StepId, Words, read_decimal};
use promise_commands::{MAX_PARTS, Sources};

/// A number below 2^32 in decimal digits, without leading zeros.
pub fn read_number(word: &[u8]) -> Option<u32>
    ensures { result ≡ number_read (2 ^ 32) word.now }
{
    let n = read_decimal(word)?;
    if n > u64::from(u32::MAX) {
        return None;
    }
    Some(n as u32)
}

// A number below 2^64.
fn read_word(word: &[u8]) -> Option<u64>
    ensures { result ≡ number_read (2 ^ 64) word.now }
{
    read_decimal(word)
}

pub fn read_name(word: &[u8]) -> Option<Name>
    ensures { result ≡ name_read word.now }
{
    let n = read_number(word)?;
    Some(Name(n))
}

/// A step's number, or `-` for none.
pub fn read_step(word: &[u8]) -> Option<Option<StepId>>
    ensures { result ≡ step_read word.now }
{
    if word == b"-".as_slice() {
        return Some(None);
    }
    let n = read_number(word)?;
    Some(Some(StepId(n)))
}

pub fn read_kind(word: &[u8]) -> Option<Kind>
    ensures { result ≡ kind_read word.now }
{
    match word {
        b"failed" => Some(Kind::Failed),
        b"overloaded" => Some(Kind::Overloaded),
        b"disconnected" => Some(Kind::Disconnected),
        b"unimplemented" => Some(Kind::Unimplemented),
        _ => None,
    }
}

/// The words of a value.
pub fn read_words(parts: &[&[u8]]) -> Option<Words>
    ensures { result ≡ words_read (map (λ w. w.now) parts.now) }
{
    if parts.len() > MAX_WORDS {
        return None;
    }
    let mut words = Words::new();
    for part in parts {
        let word = read_word(part)?;
        words.push(word);
    }
    Some(words)
}

/// The names of a join's parts.
pub fn read_names(parts: &[&[u8]]) -> Option<Sources>
    ensures { result ≡ names_read (map (λ w. w.now) parts.now) }
{
    if parts.len() > MAX_PARTS {
        return None;
    }
    let mut names = Sources::new();
    for part in parts {
        let name = read_name(part)?;
        names.push(name);
    }
    Some(names)
}
