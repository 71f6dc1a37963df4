//! Bodies in chunks, each read in several ways.
ghost use Rattle.std.specs.Prelude.{◌≡◌, ◌≤◌, ◌*◌, IfOk, length};
ghost use Rattle.http_frames.specs.Progress.{phase_after};
ghost use Rattle.http_frames.specs.declared.Phase.TheVariants.{Going};

use crate::http::{Done, NOTHING, whole};
use http_frames::{Chunks, Frame, write_chunk};
use http_heads::front_of;
use httparse::{Status, parse_chunk_size};
use kj_base::{Bytes, NoMemory};
use std::alloc::Global;

// What is done with a body in chunks.
#[derive(Clone, Copy, Debug, PartialEq, Eq)]
pub(crate) enum BodyWay {
    // Its octets are copied.
    Octets,
    // The kit's `httparse` reads the line of each chunk, whose data are copied.
    Lines,
    // It is decoded in pieces of so many octets.
    Pieces(usize),
}

// A body of so many octets in chunks, with its last chunk and an empty trailer.
pub(crate) fn body_text(alloc: Global, chunk: usize, size: usize) -> Result<Bytes, NoMemory> {
    let mut text = Bytes::new(alloc);
    let mut data = Bytes::new(alloc);
    for _ in 0..chunk.min(size) {
        data.push(b'x')?;
    }
    let mut left = size;
    for _ in 0..size {
        let piece = front_of(data.as_slice(), left);
        if piece.is_empty() {
            break;
        }
        write_chunk(alloc, &mut text, piece)?;
        left = left.saturating_sub(piece.len());
    }
    text.extend(b"0\r\n\r\n")?;
    Ok(text)
}

// The octets of a line at the front and the size that it tells.
fn line_at_front(text: &[u8]) -> Option<(usize, usize)> {
    match parse_chunk_size(text) {
        Ok(Status::Complete((len, size))) => Some((len, usize::try_from(size).ok()?)),
        Ok(Status::Partial) => None,
        Err(_) => None,
    }
}

// The data of chunks, one after another: neither their sum nor what ends each is looked at.
fn copy_chunks(alloc: Global, text: &[u8]) -> Result<bool, NoMemory> {
    let mut body = Bytes::new(alloc);
    let mut rest = text;
    for _ in 0..text.len() {
        let Some((len, size)) = line_at_front(rest) else {
            return Ok(false);
        };
        if size == 0 {
            return Ok(true);
        }
        let end = len.saturating_add(size);
        let (Some(data), Some(behind)) = (rest.get(len..end), rest.get(end.saturating_add(2)..))
        else {
            return Ok(false);
        };
        body.extend(data)?;
        rest = behind;
    }
    Ok(false)
}

// Feeds one piece; the clause says no more than when the next may come.
fn feed(chunks: &mut Chunks, piece: &[u8]) -> Result<Frame, NoMemory>
    requires { chunks.old.phase ≡ Going }
    ensures { IfOk result (λ frame. chunks.new.phase ≡ phase_after frame) }
{
    chunks.feed(piece)
}

fn decode(alloc: Global, text: &[u8], piece: usize) -> Result<bool, NoMemory> {
    let mut chunks = Chunks::new(alloc);
    let mut rest = text;
    for _ in 0..text.len() {
        let front = front_of(rest, piece);
        match feed(&mut chunks, front)? {
            Frame::More => rest = &rest[front.len()..],
            Frame::Whole(_) => return Ok(true),
            Frame::Bad => break,
        }
    }
    Ok(false)
}

fn is_read(alloc: Global, way: BodyWay, text: &[u8]) -> Result<bool, NoMemory> {
    match way {
        BodyWay::Octets => Ok(Bytes::from_slice(alloc, text)?.len() == text.len()),
        BodyWay::Lines => copy_chunks(alloc, text),
        BodyWay::Pieces(piece) => decode(alloc, text, piece),
    }
}

// One body that is the whole text, or none.
pub(crate) fn read_body(alloc: Global, way: BodyWay, text: &[u8]) -> Result<Done, NoMemory>
    ensures { IfOk result (λ done. (done.items ≤ 1)
        × (done.octets ≡ done.items * length text.now)) }
{
    if is_read(alloc, way, text)? {
        Ok(whole(text))
    } else {
        Ok(NOTHING)
    }
}
