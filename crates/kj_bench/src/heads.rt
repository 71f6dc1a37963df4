//! Heads, each read in several ways.
ghost use Rattle.std.specs.Prelude.{◌≡◌, ◌≤◌, ◌*◌, IfOk, length};

use crate::http::{Done, NOTHING, whole};
use http_heads::rules::rules_of;
use http_heads::{Field, Fields, Framing, Head, HeadFill, HeadRead, fill_head, read_head};
use httparse::Status;
use httparse::spans::{EMPTY_HEADER_SPAN, HeaderSpan, RequestSpans, Span, parse_request};
use kj_base::{Bytes, NoMemory};
use std::alloc::Global;

// What is done with a head.
#[derive(Clone, Copy, Debug, PartialEq, Eq)]
pub(crate) enum Way {
    // Its octets are copied.
    Octets,
    // The kit's `httparse` finds its parts.
    Parts,
    // And they are copied.
    Copies,
    // It is read, with its framing and its persistence.
    Fresh,
    // The same, into the memory of the head before it.
    Again,
}

// As many as `read_head` has at first.
const SPANS: usize = 32;

const SHORT_HEAD: &[u8] = b"GET /a/b HTTP/1.1\r\nHost: example.test\r\nX: 12345\r\n\r\n";

fn long_head(alloc: Global) -> Result<Bytes, NoMemory> {
    let mut head = Bytes::from_slice(alloc, b"GET /a/b HTTP/1.1\r\nHost: example.test\r\n")?;
    for _ in 0..19 {
        head.extend(b"X-Some-Name: a value of some length, 12\r\n")?;
    }
    head.extend(b"\r\n")?;
    Ok(head)
}

// A head of 51 octets and two fields, or of 820 octets and twenty.
pub(crate) fn head_text(alloc: Global, is_long: bool) -> Result<Bytes, NoMemory> {
    if is_long {
        long_head(alloc)
    } else {
        Bytes::from_slice(alloc, SHORT_HEAD)
    }
}

// The calls without their clauses: figures rest on none.

fn head_at_front(alloc: Global, text: &[u8]) -> Result<HeadRead, NoMemory> {
    read_head(alloc, text)
}

fn filled(alloc: Global, head: &mut Head, text: &[u8]) -> Result<HeadFill, NoMemory> {
    fill_head(alloc, head, text)
}

// A head without a body, behind which the connection goes on.
fn is_plain(head: &Head) -> bool {
    let rules = rules_of(head);
    rules.framing == Framing::Empty && rules.persists
}

fn read_fresh(alloc: Global, text: &[u8]) -> Result<bool, NoMemory> {
    match head_at_front(alloc, text)? {
        HeadRead::Whole(head, _) => Ok(is_plain(&head)),
        HeadRead::More => Ok(false),
        HeadRead::Crowded => Ok(false),
        HeadRead::Bad => Ok(false),
    }
}

fn read_again(alloc: Global, head: &mut Head, text: &[u8]) -> Result<bool, NoMemory> {
    match filled(alloc, head, text)? {
        HeadFill::Whole(_) => Ok(is_plain(head)),
        HeadFill::More => Ok(false),
        HeadFill::Crowded => Ok(false),
        HeadFill::Bad => Ok(false),
    }
}

fn parse(text: &[u8]) -> bool {
    let mut spans = [EMPTY_HEADER_SPAN; SPANS];
    matches!(parse_request(text, &mut spans), Ok(Status::Complete(_)))
}

// The octets that a span covers.
fn part(text: &[u8], span: Span) -> &[u8] {
    match text.get(span.start..span.end) {
        Some(octets) => octets,
        None => &[],
    }
}

// Each part in memory of its own.
fn copies(
    alloc: Global,
    text: &[u8],
    spans: &[HeaderSpan],
    found: &RequestSpans,
) -> Result<Head, NoMemory> {
    let mut fields = Vec::with_capacity(alloc, found.headers)?;
    for span in spans.iter().take(found.headers) {
        let name = Bytes::from_slice(alloc, part(text, span.name))?;
        let value = Bytes::from_slice(alloc, part(text, span.value))?;
        fields.push(Field { name, value })?;
    }
    let method = Bytes::from_slice(alloc, part(text, found.method))?;
    let target = Bytes::from_slice(alloc, part(text, found.path))?;
    Ok(Head {
        method,
        target,
        minor: found.version,
        fields: Fields::from_vec(fields),
    })
}

fn parse_and_copy(alloc: Global, text: &[u8]) -> Result<bool, NoMemory> {
    let mut spans = [EMPTY_HEADER_SPAN; SPANS];
    match parse_request(text, &mut spans) {
        Ok(Status::Complete(found)) => {
            let head = copies(alloc, text, &spans, &found)?;
            Ok(head.minor == 1)
        }
        Ok(Status::Partial) => Ok(false),
        Err(_) => Ok(false),
    }
}

fn is_read(alloc: Global, way: Way, head: &mut Head, text: &[u8]) -> Result<bool, NoMemory> {
    match way {
        Way::Octets => Ok(Bytes::from_slice(alloc, text)?.len() == text.len()),
        Way::Parts => Ok(parse(text)),
        Way::Copies => parse_and_copy(alloc, text),
        Way::Fresh => read_fresh(alloc, text),
        Way::Again => read_again(alloc, head, text),
    }
}

// One head that is the whole text, or none.
pub(crate) fn read_one(
    alloc: Global,
    way: Way,
    head: &mut Head,
    text: &[u8],
) -> Result<Done, NoMemory>
    ensures { IfOk result (λ done. (done.items ≤ 1)
        × (done.octets ≡ done.items * length text.now)) }
{
    if is_read(alloc, way, head, text)? {
        Ok(whole(text))
    } else {
        Ok(NOTHING)
    }
}
