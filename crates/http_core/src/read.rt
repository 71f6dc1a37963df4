//! Reads one request from pieces.
ghost use Rattle.std.specs.Prelude.{◌≡◌, ℕ, List, [], ◌++◌, ◌<◌, ◌≤◌, length, drop, IfOk, IfSome, IsTrue, false, ◌∷◌, Ok, ◌-◌, ◌==◌};
ghost use Rattle.http_heads.specs.Framing.{framing_of};
ghost use Rattle.http_heads.specs.declared.Framing.TheVariants as framings;
ghost use Rattle.http_frames.specs.Progress.{IsFed};
ghost use Rattle.http_core.specs.Requests.{skip_pairs};
ghost use Rattle.http_core.specs.Serving.{is_idle};
ghost use Rattle.http_core.specs.Reading.{NoHeadWithin, NoStopWithin, HasStart, phase_of, IsReadyRead, IsReadyOpening, IsReading, ReadsOn, BodyReadsOn, Opens, Begins, TakesSome};

use crate::ruled::{RuledHead, RuledRequest};
use crate::spare::Spare;
use http_frames::{Chunks, Frame, Lengths, Phase};
use http_heads::{Framing, HeadFill, MAX_OCTETS, brings_head, fill_head, first_stop};
use kj_base::{Bytes, NoMemory};
use std::alloc::Global;

/// What came of a request that isn't whole.
#[derive(Debug, Drop)]
pub enum Part {
    /// Octets of its first line, without CRLF pairs before them.
    Line(Bytes),
    /// Octets of its head, whose first line is whole.
    Head(Bytes),
    /// So many octets of a head that has too many fields.
    Crowded(usize),
    /// Its head, and a part of a body of known length.
    Sized(RuledHead, Lengths),
    /// Its head, and a part of a body in chunks.
    Chunked(RuledHead, Chunks),
}

/// What a piece did.
#[derive(Debug, Drop)]
pub enum RequestRead {
    /// The request isn't whole.
    More(Part),
    /// The request is whole, and so many octets of the piece are left behind it.
    Whole(RuledRequest, usize),
    /// The octets begin no request: 400 or 501.
    Fault(u16),
}

// What stands at the front, where a request begins.
#[derive(Debug, Drop)]
enum Opening {
    // Its first line isn't whole.
    Line,
    // Its head isn't whole.
    Head,
    // Its head isn't whole, and has too many fields.
    Crowded,
    // Its head is whole, or can't be one.
    Read(RequestRead),
}

/// Whether nothing of a request came but CRLF pairs before it.
pub fn is_idle(part: &Part) -> bool
    ensures { result ≡ is_idle part.now }
{
    match part {
        Part::Line(octets) => octets.is_empty(),
        Part::Head(_) => false,
        Part::Crowded(_) => false,
        Part::Sized(_, _) => false,
        Part::Chunked(_, _) => false,
    }
}

/// The last octets of a piece, as a request leaves them behind it.
pub fn last(piece: &[u8], left: usize) -> &[u8]
    ensures end { left ≤ length piece.now → result.now ≡ drop (length piece.now - left) piece.now }
    ensures few { length result.now ≤ left }
{
    if left < piece.len() {
        &piece[piece.len() - left..]
    } else {
        piece
    }
}

fn has_pair(bytes: &[u8]) -> bool
    ensures yes { IsTrue result → bytes.now ≡ 13 ∷ 10 ∷ drop 2 bytes.now }
    ensures no { result ≡ false → skip_pairs bytes.now ≡ bytes.now }
{
    if bytes.len() < 2 {
        return false;
    }
    if bytes[0] != b'\r' {
        return false;
    }
    bytes[1] == b'\n'
}

/// Without the CRLF pairs at the front, which a client may send before a request.
pub fn skip_pairs(bytes: &[u8]) -> &[u8]
    ensures { result.now ≡ skip_pairs bytes.now }
{
    let mut rest = bytes;
    while has_pair(rest) {
        rest = &rest[2..];
    }
    rest
}

// Reads the next octets of a body of known length.
fn read_sized(head: RuledHead, mut lengths: Lengths, piece: &[u8]) -> Result<RequestRead, NoMemory>
    requires { lengths.phase ≡ Phase.Going }
    ensures ready { IfOk result IsReadyRead }
    ensures steps { IfOk result (λ step. framing_of head ≡ framings.Length lengths.size
        → (behind : List ℕ) → lengths.body ≡ behind → BodyReadsOn head behind piece.now step) }
{
    match lengths.feed(piece)? {
        Frame::More => Ok(RequestRead::More(Part::Sized(head, lengths))),
        Frame::Whole(count) => {
            let body = lengths.body();
            let request = head.with_body(body);
            Ok(RequestRead::Whole(request, piece.len().saturating_sub(count)))
        }
        Frame::Bad => Ok(RequestRead::Fault(400)),
    }
}

// Reads the next octets of a body in chunks.
fn read_chunked(
    spare: &mut Spare,
    head: RuledHead,
    mut chunks: Chunks,
    piece: &[u8],
) -> Result<RequestRead, NoMemory>
    requires { chunks.phase ≡ Phase.Going }
    ensures ready { IfOk result IsReadyRead }
    ensures steps { IfOk result (λ step. framing_of head ≡ framings.Chunked → (behind : List ℕ)
        → IsFed chunks behind → BodyReadsOn head behind piece.now step) }
{
    match chunks.feed(piece)? {
        Frame::More => Ok(RequestRead::More(Part::Chunked(head, chunks))),
        Frame::Whole(count) => {
            let (body, kept) = chunks.into_parts();
            spare.keep_line(kept);
            let request = head.with_body(body);
            Ok(RequestRead::Whole(request, piece.len().saturating_sub(count)))
        }
        Frame::Bad => Ok(RequestRead::Fault(400)),
    }
}

// Reads what stands behind a head.
fn read_behind(
    alloc: Global,
    spare: &mut Spare,
    head: RuledHead,
    behind: &[u8],
) -> Result<RequestRead, NoMemory>
    ensures ready { IfOk result IsReadyRead }
    ensures steps { IfOk result (BodyReadsOn head [] behind.now) }
{
    match head.framing() {
        Framing::Empty => {
            let request = head.with_body(spare.take_body(alloc));
            Ok(RequestRead::Whole(request, behind.len()))
        }
        Framing::Length(size) => {
            read_sized(head, Lengths::new_in(spare.take_body(alloc), size), behind)
        }
        Framing::Chunked => {
            let body = spare.take_body(alloc);
            let chunks = Chunks::new_in(alloc, body, spare.take_line(alloc));
            read_chunked(spare, head, chunks, behind)
        }
        Framing::Fault(code) => Ok(RequestRead::Fault(code)),
    }
}

// Reads a request whose head may be whole.
fn read_front(alloc: Global, spare: &mut Spare, bytes: &[u8]) -> Result<Opening, NoMemory>
    ensures ready { IfOk result IsReadyOpening }
    ensures opens { IfOk result (λ opening. (from : ℕ) → NoHeadWithin from bytes.now
        → Opens from bytes.now opening) }
{
    match fill_head(alloc, &mut spare.head, bytes)? {
        HeadFill::More => Ok(Opening::Head),
        HeadFill::Crowded => Ok(Opening::Crowded),
        HeadFill::Bad => Ok(Opening::Read(RequestRead::Fault(400))),
        HeadFill::Whole(len) => {
            let behind = behind_head(bytes, len);
            let head = RuledHead::new(spare.take_head(alloc));
            let step = read_behind(alloc, spare, head, behind)?;
            Ok(Opening::Read(step))
        }
    }
}

// Reads a request once its first line is whole, or can't be one. No stop of it stands before
// `from`.
fn begin_line(
    alloc: Global,
    spare: &mut Spare,
    bytes: &[u8],
    from: usize,
) -> Result<Opening, NoMemory>
    ensures ready { IfOk result IsReadyOpening }
    ensures begins { IfOk result (λ opening. NoStopWithin from bytes.now
        → Begins from bytes.now opening) }
{
    if bytes.len() >= MAX_OCTETS {
        return read_front(alloc, spare, bytes);
    }
    match first_stop(bytes, from) {
        None => Ok(Opening::Line),
        Some(_) => read_front(alloc, spare, bytes),
    }
}

// Reads a request whose first line was whole, once its head may be.
fn begin_head(
    alloc: Global,
    spare: &mut Spare,
    bytes: &[u8],
    from: usize,
) -> Result<Opening, NoMemory>
    ensures ready { IfOk result IsReadyOpening }
    ensures begins { IfOk result (λ opening. HasStart bytes.now → NoHeadWithin from bytes.now
        → Begins from bytes.now opening) }
{
    if bytes.len() < MAX_OCTETS {
        if !brings_head(bytes, from) {
            return Ok(Opening::Head);
        }
    }
    read_front(alloc, spare, bytes)
}

fn behind_head(bytes: &[u8], len: usize) -> &[u8]
    ensures { result.now ≡ drop len bytes.now }
{
    if len < bytes.len() {
        &bytes[len..]
    } else {
        &[]
    }
}

/// Reads a request of which nothing came before but CRLF pairs.
pub fn open(alloc: Global, spare: &mut Spare, piece: &[u8]) -> Result<RequestRead, NoMemory>
    ensures ready { IfOk result IsReadyRead }
    ensures steps { IfOk result (λ step. (bytes : List ℕ) → skip_pairs bytes ≡ []
        → ReadsOn bytes piece.now step) }
    ensures some { IfOk result (TakesSome piece.now) }
{
    let octets = skip_pairs(piece);
    match begin_line(alloc, spare, octets, 0)? {
        Opening::Line => {
            let kept = spare.copy(alloc, octets)?;
            Ok(RequestRead::More(Part::Line(kept)))
        }
        Opening::Head => {
            let kept = spare.copy(alloc, octets)?;
            Ok(RequestRead::More(Part::Head(kept)))
        }
        Opening::Crowded => Ok(RequestRead::More(Part::Crowded(octets.len()))),
        Opening::Read(step) => Ok(step),
    }
}

// Reads on in a first line.
fn read_in_line(
    alloc: Global,
    spare: &mut Spare,
    mut octets: Bytes,
    piece: &[u8],
) -> Result<RequestRead, NoMemory>
    ensures ready { IfOk result IsReadyRead }
    ensures steps { IfOk result (λ step. (bytes : List ℕ) → IsReading (Part.Line octets) bytes
        → ReadsOn bytes piece.now step) }
{
    if octets.is_empty() {
        return open(alloc, spare, piece);
    }
    let from = octets.len();
    octets.extend(piece)?;
    // A lone CR may be the first of a pair, which is dropped.
    if from == 1 {
        return open(alloc, spare, octets.as_slice());
    }
    match begin_line(alloc, spare, octets.as_slice(), from)? {
        Opening::Line => Ok(RequestRead::More(Part::Line(octets))),
        Opening::Head => Ok(RequestRead::More(Part::Head(octets))),
        Opening::Crowded => Ok(RequestRead::More(Part::Crowded(octets.len()))),
        Opening::Read(step) => {
            spare.keep_octets(octets);
            Ok(step)
        }
    }
}

// Reads on in a head.
fn read_in_head(
    alloc: Global,
    spare: &mut Spare,
    mut octets: Bytes,
    piece: &[u8],
) -> Result<RequestRead, NoMemory>
    ensures ready { IfOk result IsReadyRead }
    ensures steps { IfOk result (λ step. (bytes : List ℕ) → IsReading (Part.Head octets) bytes
        → ReadsOn bytes piece.now step) }
{
    let from = octets.len();
    octets.extend(piece)?;
    match begin_head(alloc, spare, octets.as_slice(), from)? {
        Opening::Line => Ok(RequestRead::More(Part::Line(octets))),
        Opening::Head => Ok(RequestRead::More(Part::Head(octets))),
        Opening::Crowded => Ok(RequestRead::More(Part::Crowded(octets.len()))),
        Opening::Read(step) => {
            spare.keep_octets(octets);
            Ok(step)
        }
    }
}

// Reads on in a head that has too many fields: it is refused where it has as many octets as a
// head may have.
fn read_in_crowd(len: usize, piece: &[u8]) -> RequestRead
    ensures ready { IsReadyRead result }
    ensures steps { (bytes : List ℕ) → IsReading (Part.Crowded len) bytes
        → ReadsOn bytes piece.now result }
{
    if len >= MAX_OCTETS {
        return RequestRead::Fault(400);
    }
    if piece.len() >= MAX_OCTETS - len {
        return RequestRead::Fault(400);
    }
    RequestRead::More(Part::Crowded(len + piece.len()))
}

/// Reads on in a request.
pub fn read_on(
    alloc: Global,
    spare: &mut Spare,
    part: Part,
    piece: &[u8],
) -> Result<RequestRead, NoMemory>
    requires { phase_of part ≡ Phase.Going }
    ensures ready { IfOk result IsReadyRead }
    ensures steps { IfOk result (λ step. (bytes : List ℕ) → IsReading part bytes
        → ReadsOn bytes piece.now step) }
{
    match part {
        Part::Line(octets) => read_in_line(alloc, spare, octets, piece),
        Part::Head(octets) => read_in_head(alloc, spare, octets, piece),
        Part::Crowded(len) => Ok(read_in_crowd(len, piece)),
        Part::Sized(head, lengths) => read_sized(head, lengths, piece),
        Part::Chunked(head, chunks) => read_chunked(spare, head, chunks, piece),
    }
}
