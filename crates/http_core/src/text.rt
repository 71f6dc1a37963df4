//! The texts of answers.
ghost use Rattle.std.specs.Prelude.{◌≡◌, ◌++◌, length, take, OnOk, OnErr};
ghost use Rattle.http_core.specs.Text.{reason, status_line, has_no_length, length_line, connection_line, is_chunked, all_chunks, chunked_text, body_text, head_text, text, fault_text};

use crate::{Answer, Request};
use http_frames::write_chunk;
use itoa::Buffer;
use kj_base::{Bytes, NoMemory};
use std::alloc::Global;

// The octets of a chunk of an answer, but for the last.
const CHUNK: usize = 4096;

fn reason(status: u16) -> &'static [u8]
    ensures { result.now ≡ reason status }
{
    match status {
        200 => b"OK",
        204 => b"No Content",
        304 => b"Not Modified",
        400 => b"Bad Request",
        404 => b"Not Found",
        500 => b"Internal Server Error",
        501 => b"Not Implemented",
        503 => b"Service Unavailable",
        _ => b"",
    }
}

#[tactic(auto, unfolding(crate::specs::Text::status_line))]
fn push_status(out: &mut Bytes, status: u16) -> Result<(), NoMemory>
    ensures ok { OnOk result (out.new ≡ out.old ++ status_line status) }
    ensures err { OnErr result (take (length out.old) out.new ≡ out.old) }
{
    let mut buffer = Buffer::new();
    out.extend(b"HTTP/1.1 ")?;
    out.extend(buffer.format(status).as_bytes())?;
    out.push(b' ')?;
    out.extend(reason(status))?;
    out.extend(b"\r\n")?;
    Ok(())
}

fn has_no_length(status: u16) -> bool
    ensures { result ≡ has_no_length status }
{
    status == 204 || status == 304
}

fn is_chunked(minor: u8, answer: &Answer) -> bool
    ensures { result ≡ is_chunked minor answer.now }
{
    answer.chunked && minor == 1
}

#[tactic(auto, unfolding(crate::specs::Text::length_line))]
fn push_length(out: &mut Bytes, minor: u8, answer: &Answer) -> Result<(), NoMemory>
    ensures ok { OnOk result (out.new ≡ out.old ++ length_line minor answer.now) }
    ensures err { OnErr result (take (length out.old) out.new ≡ out.old) }
{
    if has_no_length(answer.status) {
        return Ok(());
    }
    if is_chunked(minor, answer) {
        return out.extend(b"Transfer-Encoding: chunked\r\n");
    }
    let mut buffer = Buffer::new();
    out.extend(b"Content-Length: ")?;
    out.extend(buffer.format(answer.body.len()).as_bytes())?;
    out.extend(b"\r\n")?;
    Ok(())
}

#[tactic(auto, unfolding(crate::specs::Text::connection_line))]
fn push_connection(out: &mut Bytes, minor: u8, closes: bool) -> Result<(), NoMemory>
    ensures ok { OnOk result (out.new ≡ out.old ++ connection_line minor closes) }
    ensures err { OnErr result (take (length out.old) out.new ≡ out.old) }
{
    if closes {
        out.extend(b"Connection: close\r\n")
    } else if minor == 0 {
        out.extend(b"Connection: keep-alive\r\n")
    } else {
        Ok(())
    }
}

// Appends the octets in chunks.
fn push_chunks(alloc: Global, out: &mut Bytes, octets: &[u8]) -> Result<(), NoMemory>
    ensures ok { OnOk result (out.new ≡ out.old ++ all_chunks octets.now) }
    ensures err { OnErr result (take (length out.old) out.new ≡ out.old) }
{
    let mut rest = octets;
    while !rest.is_empty() {
        let (piece, after) = rest.split_at(CHUNK.min(rest.len()));
        write_chunk(alloc, out, piece)?;
        rest = after;
    }
    Ok(())
}

// Appends the octets in chunks, with the last one.
#[tactic(auto, unfolding(crate::specs::Text::chunked_text))]
fn push_chunked(alloc: Global, out: &mut Bytes, octets: &[u8]) -> Result<(), NoMemory>
    ensures ok { OnOk result (out.new ≡ out.old ++ chunked_text octets.now) }
    ensures err { OnErr result (take (length out.old) out.new ≡ out.old) }
{
    push_chunks(alloc, out, octets)?;
    out.extend(b"0\r\n\r\n")?;
    Ok(())
}

// Appends the body of an answer, as its request wants it.
#[tactic(auto, unfolding(crate::specs::Text::body_text))]
fn push_body(
    alloc: Global,
    out: &mut Bytes,
    request: &Request,
    answer: &Answer,
) -> Result<(), NoMemory>
    ensures ok { OnOk result (out.new ≡ out.old
        ++ body_text request.now.head.method request.now.head.minor answer.now) }
    ensures err { OnErr result (take (length out.old) out.new ≡ out.old) }
{
    let method = request.head.method.as_slice();
    if method == b"HEAD".as_slice() || has_no_length(answer.status) {
        return Ok(());
    }
    if is_chunked(request.head.minor, answer) {
        return push_chunked(alloc, out, answer.body.as_slice());
    }
    out.extend(answer.body.as_slice())
}

// Appends the lines of an answer, with the empty one.
#[tactic(auto, unfolding(crate::specs::Text::head_text))]
fn push_head(out: &mut Bytes, minor: u8, answer: &Answer, closes: bool) -> Result<(), NoMemory>
    ensures ok { OnOk result (out.new ≡ out.old ++ head_text minor answer.now closes) }
    ensures err { OnErr result (take (length out.old) out.new ≡ out.old) }
{
    push_status(out, answer.status)?;
    push_length(out, minor, answer)?;
    push_connection(out, minor, closes)?;
    out.extend(b"\r\n")?;
    Ok(())
}
// Appends the text of an answer; after want of memory a part of it may stand behind the octets.
#[tactic(auto, unfolding(crate::specs::Text::text))]
fn append_answer(
    alloc: Global,
    out: &mut Bytes,
    request: &Request,
    answer: &Answer,
    closes: bool,
) -> Result<(), NoMemory>
    ensures ok { OnOk result (out.new ≡ out.old ++ text request.now answer.now closes) }
    ensures err { OnErr result (take (length out.old) out.new ≡ out.old) }
{
    push_head(out, request.head.minor, answer, closes)?;
    push_body(alloc, out, request, answer)?;
    Ok(())
}

/// Appends the text of an answer; whole or not at all.
pub fn push_answer(
    alloc: Global,
    out: &mut Bytes,
    request: &Request,
    answer: &Answer,
    closes: bool,
) -> Result<(), NoMemory>
    ensures ok { OnOk result (out.new ≡ out.old ++ text request.now answer.now closes) }
    ensures err { OnErr result (out.new ≡ out.old) }
{
    let before = out.len();
    match append_answer(alloc, out, request, answer, closes) {
        Ok(()) => Ok(()),
        Err(error) => {
            out.truncate(before);
            Err(error)
        }
    }
}

/// Appends the text of a fault.
#[tactic(auto, unfolding(crate::specs::Text::fault_text))]
pub fn push_fault(out: &mut Bytes, code: u16) -> Result<(), NoMemory>
    ensures ok { OnOk result (out.new ≡ out.old ++ fault_text code) }
    ensures err { OnErr result (out.new ≡ out.old) }
{
    if code == 501 {
        out.extend(
            b"HTTP/1.1 501 Not Implemented\r\nContent-Length: 0\r\nConnection: close\r\n\r\n",
        )
    } else {
        out.extend(b"HTTP/1.1 400 Bad Request\r\nContent-Length: 0\r\nConnection: close\r\n\r\n")
    }
}
