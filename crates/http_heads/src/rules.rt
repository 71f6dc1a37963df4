ghost use Rattle.std.specs.Prelude.{◌≡◌, ◌+◌, fold, min, codes, count_by, IsTrue, Some, None, if◌then◌else◌};
ghost use Rattle.std.specs.List.{list_all, list_any};
ghost use Rattle.std.specs.Char.{is_ascii_digit};
ghost use Rattle.std.specs.Str.Parse.{digits_value};
ghost use Rattle.http_heads.specs.Values.{is_same, is_named, list_of};
ghost use Rattle.http_heads.specs.Framing.{is_chunked, coding_of, is_length, length_of, add_length, framing_by, framing_of, persists_by, persists};
ghost use Rattle.http_heads.specs.Marks.{IsMarked, framing_by_marks};

use crate::field::{Field, Head};
use crate::front::MAX_BODY;
use crate::list::{Elements, is_named, is_same};
use crate::marks::{Marks, marks_of};
use crate::{Framing, MessageRules};

/// Whether there is a field of this name.
pub fn has_field(name: &[u8], fields: &[Field]) -> bool
    ensures { result ≡ list_any (is_named name.now) fields.now }
{
    fields.iter().any(|field| is_named(name, field))
}

/// How many fields of this name there are.
pub fn count_fields(name: &[u8], fields: &[Field]) -> usize
    ensures { result ≡ count_by (is_named name.now) fields.now }
{
    fields.iter().filter(|field| is_named(name, field)).count()
}

// Whether an option stands in the Connection list.
fn has_option(option: &[u8], fields: &[Field]) -> bool
    ensures { result
        ≡ list_any (λ e. is_same e option.now) (list_of (codes "connection") fields.now) }
{
    let mut found = false;
    for element in Elements::new(b"connection", fields) {
        found |= is_same(element, option);
    }
    found
}

/// Whether the connection goes on after a message of this version with these fields
/// (RFC 9112, section 9.3).
#[tactic(auto, unfolding(crate::specs::Framing::persists_by))]
pub fn persists_by(minor: u8, fields: &[Field]) -> bool
    ensures { result ≡ persists_by minor fields.now }
{
    if has_option(b"close", fields) {
        false
    } else if minor == 1 {
        true
    } else {
        has_option(b"keep-alive", fields)
    }
}

/// Whether the connection goes on after a request with this head.
pub fn persists(head: &Head) -> bool
    ensures { result ≡ persists head.now }
{
    persists_by(head.minor, head.fields.as_slice())
}

fn is_chunked(element: &[u8]) -> bool
    ensures { result ≡ is_chunked element.now }
{
    is_same(element, b"chunked")
}

/// How the list of Transfer-Encoding delimits a body (RFC 9112, sections 6.1 and 6.3): 400 where it
/// does not end with `chunked` or has it twice, 501 where it has another coding too.
pub fn transfer_coding(fields: &[Field]) -> Framing
    ensures { result ≡ coding_of (list_of (codes "transfer-encoding") fields.now) }
{
    let mut last = false;
    let mut seen = false;
    let mut twice = false;
    let mut other = false;
    for element in Elements::new(b"transfer-encoding", fields) {
        last = is_chunked(element);
        twice |= seen & last;
        seen |= last;
        other |= !last;
    }
    if !last || twice {
        Framing::Fault(400)
    } else if other {
        Framing::Fault(501)
    } else {
        Framing::Chunked
    }
}

// One more than a body may have.
const OVER: u64 = MAX_BODY as u64 + 1;

fn are_digits(element: &[u8]) -> bool
    ensures { result ≡ list_all is_ascii_digit element.now }
{
    element.iter().all(|b| b.is_ascii_digit())
}

// The number that the digits write, or one too large where it is larger.
fn value_of(digits: &[u8]) -> u64
    requires { IsTrue (list_all is_ascii_digit digits.now) }
    ensures { result ≡ min (digits_value 10 digits.now) (MAX_BODY + 1) }
{
    let mut n: u64 = 0;
    for b in digits {
        n = (n * 10 + u64::from(b.saturating_sub(b'0'))).min(OVER);
    }
    n
}

fn parse_length(element: &[u8]) -> Option<u64>
    ensures { result
        ≡ (if is_length element.now then Some (digits_value 10 element.now) else None) }
{
    if element.is_empty() {
        return None;
    }
    if !are_digits(element) {
        return None;
    }
    let n = value_of(element);
    if n == OVER { None } else { Some(n) }
}

/// What the elements of Content-Length come to.
#[derive(Clone, Copy, Debug, PartialEq, Eq)]
pub enum Sizes {
    Absent,
    /// Each element is this number.
    Same(u64),
    Invalid,
}

fn add_length(sizes: Sizes, element: &[u8]) -> Sizes
    ensures { result ≡ add_length sizes element.now }
{
    match (sizes, parse_length(element)) {
        (Sizes::Absent, Some(n)) => Sizes::Same(n),
        (Sizes::Same(m), Some(n)) if m == n => sizes,
        _ => Sizes::Invalid,
    }
}

fn sizes_of(fields: &[Field]) -> Sizes
    ensures { result ≡ fold add_length Sizes.Absent (list_of (codes "content-length") fields.now) }
{
    let mut sizes = Sizes::Absent;
    for element in Elements::new(b"content-length", fields) {
        sizes = add_length(sizes, element);
    }
    sizes
}

fn framing_by(sizes: Sizes) -> Framing
    ensures { result ≡ framing_by sizes }
{
    match sizes {
        Sizes::Same(n) => Framing::Length(n),
        Sizes::Absent => Framing::Fault(400),
        Sizes::Invalid => Framing::Fault(400),
    }
}

/// How the list of Content-Length delimits a body (RFC 9112, section 6.3): 400 where it has no
/// number, unequal ones, or one above the limit of a body.
pub fn content_length(fields: &[Field]) -> Framing
    ensures { result ≡ length_of (list_of (codes "content-length") fields.now) }
{
    framing_by(sizes_of(fields))
}

// The framing, where it is known which fields there are.
fn framing_by_marks(head: &Head, marks: Marks) -> Framing
    ensures { result ≡ framing_by_marks head.now marks }
{
    let fields = head.fields.as_slice();
    if marks.hosts {
        return Framing::Fault(400);
    }
    if !marks.host && head.minor == 1 {
        return Framing::Fault(400);
    }
    if head.method.as_slice() == b"CONNECT".as_slice() {
        return Framing::Fault(501);
    }
    if marks.coded {
        if head.minor == 0 || marks.sized {
            Framing::Fault(400)
        } else {
            transfer_coding(fields)
        }
    } else if marks.sized {
        content_length(fields)
    } else {
        Framing::Empty
    }
}

/// How the body of a request is delimited: the first case that holds.
pub fn framing(head: &Head) -> Framing
    ensures { result ≡ framing_of head.now }
{
    framing_by_marks(head, marks_of(head.fields.as_slice()))
}

/// Both, by one pass over the fields where few of them are lists.
pub fn rules_of(head: &Head) -> MessageRules
    ensures framing { result.framing ≡ framing_of head.now }
    ensures persists { result.persists ≡ persists head.now }
{
    let fields = head.fields.as_slice();
    let marks = marks_of(fields);
    let persists = persists_by_marks(head.minor, fields, marks);
    MessageRules {
        framing: framing_by_marks(head, marks),
        persists,
    }
}

// Whether the connection goes on, where it is known which fields there are.
fn persists_by_marks(minor: u8, fields: &[Field], marks: Marks) -> bool
    requires { IsMarked fields.now marks }
    ensures { result ≡ persists_by minor fields.now }
{
    if marks.optioned {
        persists_by(minor, fields)
    } else {
        minor == 1
    }
}
