//! The forms of the program's words.
ghost use Rattle.std.specs.Prelude.{◌≡◌, ◌+◌, ◌<◌, ◌↔◌, [], ◌∷◌, IsTrue, IfSome, IfNone};
ghost use Rattle.kj_serve.specs.Words.{IsForm, IsFormOf, IsNoForm, IsNoFormOf};

use crate::replay::ServiceName;
use conn_record::MAX_CONNS;
use kj_base::{is_word, read_decimal};

/// The most requests that it makes for each of them.
pub const MAX_REQUESTS: u64 = 1_000;

/// The most requests that it makes for all of them together.
pub const MAX_REQUESTS_IN_ALL: u64 = 100_000;

/// What the program is to do.
#[derive(Clone, Copy, Debug, PartialEq, Eq)]
pub enum Form {
    /// Runs a script and writes its log.
    Run,
    /// Reads a recording and writes the replies to its connections.
    Replay {
        service: ServiceName,
    },
    /// Writes the generator's recording of so many connections with so many requests each.
    Make {
        number: u64,
        conns: u32,
        requests: u32,
    },
}

/// The form that the words are, where they are one.
pub fn form_of(words: &[String]) -> Option<Form>
    ensures found { IfSome result (IsForm words.now) }
    ensures none { IfNone result (IsNoForm words.now) }
{
    match words {
        [] => None,
        [word] => one_word(word.as_str().as_bytes()),
        [_, _] => None,
        [word, loops, service] => three_words(
            word.as_str().as_bytes(),
            loops.as_str().as_bytes(),
            service.as_str().as_bytes(),
        ),
        [word, number, conns, requests] => four_words(
            word.as_str().as_bytes(),
            number.as_str().as_bytes(),
            conns.as_str().as_bytes(),
            requests.as_str().as_bytes(),
        ),
        [_, _, _, _, _, ..] => None,
    }
}

// The form that one word is.
fn one_word(word: &[u8]) -> Option<Form>
    ensures found { IfSome result (IsFormOf (word.now ∷ [])) }
    ensures none { IfNone result (IsNoFormOf (word.now ∷ [])) }
{
    if is_word(word, b"run") {
        return Some(Form::Run);
    }
    None
}

// The form that three words are.
fn three_words(word: &[u8], loops: &[u8], service: &[u8]) -> Option<Form>
    ensures found { IfSome result (IsFormOf (word.now ∷ loops.now ∷ service.now ∷ [])) }
    ensures none { IfNone result (IsNoFormOf (word.now ∷ loops.now ∷ service.now ∷ [])) }
{
    if !is_word(word, b"replay") {
        return None;
    }
    if !is_word(loops, b"1") {
        return None;
    }
    if is_word(service, b"echo") {
        let service = ServiceName::Echo;
        return Some(Form::Replay { service });
    }
    if is_word(service, b"target") {
        let service = ServiceName::Target;
        return Some(Form::Replay { service });
    }
    None
}

// The form that four words are.
fn four_words(word: &[u8], number: &[u8], conns: &[u8], requests: &[u8]) -> Option<Form>
    ensures found { IfSome result
        (IsFormOf (word.now ∷ number.now ∷ conns.now ∷ requests.now ∷ [])) }
    ensures none { IfNone result
        (IsNoFormOf (word.now ∷ number.now ∷ conns.now ∷ requests.now ∷ [])) }
{
    if !is_word(word, b"make") {
        return None;
    }
    let number = read_decimal(number)?;
    let conns = read_decimal(conns)?;
    let requests = read_decimal(requests)?;
    if !is_within(conns, MAX_CONNS as u64) {
        return None;
    }
    if !is_within(requests, MAX_REQUESTS) {
        return None;
    }
    if conns * requests > MAX_REQUESTS_IN_ALL {
        return None;
    }
    Some(Form::Make {
        number,
        conns: conns as u32,
        requests: requests as u32,
    })
}

// Whether a number is at least 1 and at most this.
fn is_within(n: u64, most: u64) -> bool
    ensures { IsTrue result ↔ (0 < n) × (n < most + 1) }
{
    0 < n && n <= most
}
