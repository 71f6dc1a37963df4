//! The head at the front of a stream.
ghost use Rattle.std.specs.Prelude.{◌≡◌, List, ℕ, ◌++◌, length, IfOk, OnOk, Ok, ◌<◌};
ghost use Rattle.httparse.specs.Grammar.{RequestHead};
ghost use Rattle.httparse.specs.Spans.{IsRequestWithin, IsRequestAt};
ghost use Rattle.http_heads.specs.Heads.{Reads, Parses, StartsWithHead, head_of, read_of, GoesOn};

use crate::field::{Head, refill};
use crate::front::{MAX_FIELDS, MAX_OCTETS, front_of};
use crate::section::fill_fields;
use crate::{HeadFill, HeadRead};
use httparse::spans::{EMPTY_HEADER_SPAN, HeaderSpan, RequestSpans, parse_request};
use httparse::{Error, Status};
use kj_base::NoMemory;
use std::alloc::Global;

// Most heads have no more fields; one that has is parsed again with room for all.
const FEW_FIELDS: usize = 32;

// Copies the parts of a head out of the octets.
fn fill_parts(
    alloc: Global,
    head: &mut Head,
    bytes: &[u8],
    spans: &[HeaderSpan],
    found: &RequestSpans,
) -> Result<(), NoMemory>
    requires { IsRequestWithin bytes.now spans.now found.now }
    ensures { OnOk result ((tree : RequestHead)
        → IsRequestAt bytes.now spans.now found.now tree
        → head.new ≡ head_of tree) }
{
    refill(&mut head.method, found.method.of(bytes))?;
    refill(&mut head.target, found.path.of(bytes))?;
    head.minor = found.version;
    fill_fields(alloc, &mut head.fields, bytes, spans, found.headers)?;
    Ok(())
}

// Reads a head of any length, with room for all fields that it may have.
fn parse_many(alloc: Global, head: &mut Head, bytes: &[u8]) -> Result<HeadFill, NoMemory>
    ensures { IfOk result (Parses bytes.now head.new) }
{
    let mut spans = [EMPTY_HEADER_SPAN; MAX_FIELDS];
    match parse_request(bytes, &mut spans) {
        Ok(Status::Complete(found)) => {
            fill_parts(alloc, head, bytes, &spans, &found)?;
            Ok(HeadFill::Whole(found.len))
        }
        Ok(Status::Partial) => Ok(HeadFill::More),
        Err(Error::TooManyHeaders) => Ok(HeadFill::Crowded),
        Err(_) => Ok(HeadFill::Bad),
    }
}

// Reads a head of any length.
fn parse(alloc: Global, head: &mut Head, bytes: &[u8]) -> Result<HeadFill, NoMemory>
    ensures { IfOk result (Parses bytes.now head.new) }
{
    let mut spans = [EMPTY_HEADER_SPAN; FEW_FIELDS];
    match parse_request(bytes, &mut spans) {
        Ok(Status::Complete(found)) => {
            fill_parts(alloc, head, bytes, &spans, &found)?;
            Ok(HeadFill::Whole(found.len))
        }
        Ok(Status::Partial) => Ok(HeadFill::More),
        Err(Error::TooManyHeaders) => parse_many(alloc, head, bytes),
        Err(_) => Ok(HeadFill::Bad),
    }
}

/// Reads the head of the request at the front of a stream: a start line of version 1.0 or 1.1 and
/// its section of fields, with their empty line (RFC 9112, sections 2.2, 3 and 5).
pub fn read_head(alloc: Global, bytes: &[u8]) -> Result<HeadRead, NoMemory>
    // A head, nothing complete, or nothing that can become complete.
    ensures reads { IfOk result (Reads bytes.now) }

    // More comes only where fewer octets are there than a head may have.
    ensures more { result ≡ Ok HeadRead.More → length bytes.now < MAX_OCTETS }

    // The same of Crowded. And neither comes where the first line can't be one.
    ensures goes_on { IfOk result (GoesOn bytes.now) }
{
    let mut head = Head::new(alloc);
    match fill_head(alloc, &mut head, bytes)? {
        HeadFill::Whole(len) => Ok(HeadRead::Whole(head, len)),
        HeadFill::More => Ok(HeadRead::More),
        HeadFill::Crowded => Ok(HeadRead::Crowded),
        HeadFill::Bad => Ok(HeadRead::Bad),
    }
}

/// The same, read into a head whose memory is used again. Where no head is there, its parts may
/// have changed all the same.
pub fn fill_head(alloc: Global, head: &mut Head, bytes: &[u8]) -> Result<HeadFill, NoMemory>
    ensures reads { IfOk result (λ fill. Reads bytes.now (read_of head.new fill)) }
    ensures goes_on { IfOk result (λ fill. GoesOn bytes.now (read_of head.new fill)) }
{
    let front = front_of(bytes, MAX_OCTETS);
    match parse(alloc, head, front)? {
        HeadFill::Whole(len) => Ok(HeadFill::Whole(len)),
        HeadFill::More if bytes.len() < MAX_OCTETS => Ok(HeadFill::More),
        HeadFill::Crowded if bytes.len() < MAX_OCTETS => Ok(HeadFill::Crowded),
        HeadFill::More => Ok(HeadFill::Bad),
        HeadFill::Crowded => Ok(HeadFill::Bad),
        HeadFill::Bad => Ok(HeadFill::Bad),
    }
}

/// Octets begin with at most one head, whatever follows it.
pub fn one_head()
    ensures { (bytes more : List ℕ) (a b : Head) (m n : ℕ)
        → StartsWithHead bytes a m
        → StartsWithHead (bytes ++ more) b n
        → (a ≡ b) × (m ≡ n) }
{}

/// A head stays one, whatever follows it.
pub fn head_stays()
    ensures { (bytes more : List ℕ) (head : Head) (len : ℕ)
        → StartsWithHead bytes head len
        → StartsWithHead (bytes ++ more) head len }
{}
