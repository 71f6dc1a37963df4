//! Messages whose reading was worked out by hand, whole and in pieces.
mod cases;

ghost use Rattle.std.specs.Prelude.{◌≡◌, IfOk};
ghost use Rattle.http_frames.specs.Progress.{phase_after};
ghost use Rattle.http_frames.specs.declared.Phase.TheVariants.{Going};

use crate::{Chunks, Frame, Lengths, write_chunk};
use cases::Case;
use http_heads::rules::framing;
use http_heads::{Framing, HeadRead, front_of, read_head};
use kj_base::{Bytes, NoMemory};
use std::alloc::Global;
use std::test::Fail;

/// What a message comes to.
#[derive(Clone, Copy, Debug, PartialEq, Eq)]
pub enum Read {
    HeadMore,
    HeadBad,
    Fault(u16),
    More,
    Bad,
    /// How many octets the head and the body have.
    Whole(usize),
}

// The octets between two places.
fn between(text: &[u8], from: usize, to: usize) -> &[u8] {
    if from <= to && to <= text.len() {
        &text[from..to]
    } else {
        &text[..0]
    }
}

// The head at the front; no clause, so that the checks below carry no grammar.
fn head_at_front(alloc: Global, text: &[u8]) -> Result<HeadRead, NoMemory> {
    read_head(alloc, text)
}

fn feed_chunks(chunks: &mut Chunks, piece: &[u8]) -> Result<Frame, NoMemory>
    requires { chunks.old.phase ≡ Going }
    ensures { IfOk result (λ frame. chunks.new.phase ≡ phase_after frame) }
{
    chunks.feed(piece)
}

fn feed_lengths(lengths: &mut Lengths, piece: &[u8]) -> Result<Frame, NoMemory>
    requires { lengths.old.phase ≡ Going }
    ensures { IfOk result (λ frame. lengths.new.phase ≡ phase_after frame) }
{
    lengths.feed(piece)
}

// Memory that had a body before.
fn used(alloc: Global) -> Result<Bytes, NoMemory> {
    Bytes::from_slice(alloc, b"a body before it")
}

fn read_chunks(
    alloc: Global,
    text: &[u8],
    start: usize,
    cuts: &[usize],
) -> Result<(Read, Bytes), NoMemory> {
    let mut chunks = Chunks::new_in(alloc, used(alloc)?, used(alloc)?);
    let mut at = start;
    for cut in cuts {
        match feed_chunks(&mut chunks, between(text, at, *cut))? {
            Frame::Whole(count) => return Ok((
                Read::Whole(at.saturating_add(count)),
                chunks.body(),
            )),
            Frame::Bad => return Ok((Read::Bad, Bytes::new(alloc))),
            Frame::More => at = at.max(*cut),
        }
    }
    Ok((Read::More, Bytes::new(alloc)))
}

fn read_length(
    alloc: Global,
    text: &[u8],
    start: usize,
    size: u64,
    cuts: &[usize],
) -> Result<(Read, Bytes), NoMemory> {
    let mut lengths = Lengths::new_in(used(alloc)?, size);
    let mut at = start;
    for cut in cuts {
        match feed_lengths(&mut lengths, between(text, at, *cut))? {
            Frame::Whole(count) => return Ok((
                Read::Whole(at.saturating_add(count)),
                lengths.body(),
            )),
            Frame::Bad => return Ok((Read::Bad, Bytes::new(alloc))),
            Frame::More => at = at.max(*cut),
        }
    }
    Ok((Read::More, Bytes::new(alloc)))
}

// Reads a message that comes in pieces, each of which ends at a cut.
fn read_cut(alloc: Global, text: &[u8], cuts: &[usize]) -> Result<(Read, Bytes), NoMemory> {
    for (index, cut) in cuts.iter().enumerate() {
        match head_at_front(alloc, front_of(text, *cut))? {
            HeadRead::More => {}
            HeadRead::Crowded => {}
            HeadRead::Bad => return Ok((Read::HeadBad, Bytes::new(alloc))),
            HeadRead::Whole(head, len) => {
                let cuts = &cuts[index..];
                return match framing(&head) {
                    Framing::Empty => Ok((Read::Whole(len), Bytes::new(alloc))),
                    Framing::Length(size) => read_length(alloc, text, len, size, cuts),
                    Framing::Chunked => read_chunks(alloc, text, len, cuts),
                    Framing::Fault(status) => Ok((Read::Fault(status), Bytes::new(alloc))),
                };
            }
        }
    }
    Ok((Read::HeadMore, Bytes::new(alloc)))
}

// Whether a message comes to what was worked out, in these pieces.
fn is_read_as(
    alloc: Global,
    text: &[u8],
    cuts: &[usize],
    want: Read,
    body: &[u8],
) -> Result<bool, NoMemory> {
    let (read, found) = read_cut(alloc, text, cuts)?;
    Ok(read == want && found.as_slice() == body)
}

// Whether each message of a table comes to what was worked out.
fn are_messages(alloc: Global, table: &[Case]) -> Result<bool, NoMemory> {
    let mut right = true;
    for (text, want, body) in table {
        right &= is_read_as(alloc, text, &[text.len()], *want, body)?;
    }
    Ok(right)
}

// The same of chunked bodies.
fn are_bodies(alloc: Global, table: &[Case]) -> Result<bool, NoMemory> {
    let mut right = true;
    for (text, want, body) in table {
        let (read, found) = read_chunks(alloc, text, 0, &[text.len()])?;
        right &= read == *want && found.as_slice() == *body;
    }
    Ok(right)
}

#[test]
fn messages_are_read_as_worked_out(rt: HostRuntime) -> Result<(), Fail> {
    assert!(rt; are_messages(rt.alloc(), cases::messages())?);
    assert!(rt; are_bodies(rt.alloc(), cases::bodies())?);
    Ok(())
}

// Ten messages that are cut at every place.
static CUT: [&[u8]; 10] = [
    b"GET / HTTP/1.1\r\nHost: a\r\n\r\n",
    b"\r\nGET / HTTP/1.0\n\n",
    b"GET / HTTP/1.1\r\nHost: a\r\nX: \0\r\n\r\n",
    b"POST / HTTP/1.1\r\nHost: a\r\nContent-Length: 3\r\n\r\nabcGET",
    b"POST / HTTP/1.1\r\nHost: a\r\nContent-Length: 5, 6\r\n\r\nabcde",
    b"POST / HTTP/1.1\r\nHost: a\r\nTransfer-Encoding: chunked\r\n\r\n3;x=1\r\nabc\r\n0\r\n\r\nGET",
    b"POST / HTTP/1.1\r\nHost: a\r\nTransfer-Encoding: chunked\r\n\r\n1\r\na\r\nb\r\n0123456789a\r\n0\r\nT: 1\r\n\r\nGET",
    b"POST / HTTP/1.1\r\nHost: a\r\nTransfer-Encoding: chunked\r\n\r\n1\r\nab\r\n0\r\n\r\n",
    b"POST / HTTP/1.1\r\nHost: a\r\nTransfer-Encoding: chunked\r\n\r\n1;\0\r\na\r\n0\r\n\r\n",
    b"POST / HTTP/1.1\r\nHost: a\r\nTransfer-Encoding: chunked\r\n\r\n0\r\nT: 1\n\nGET",
];

fn messages() -> &'static [&'static [u8]] {
    &CUT
}

// Whether a message comes to the same however it is cut into two and into three.
fn is_same_in_pieces(
    alloc: Global,
    text: &[u8],
    want: Read,
    body: &[u8],
) -> Result<bool, NoMemory> {
    let mut same = true;
    for first in 0..text.len() {
        same &= is_read_as(alloc, text, &[first, text.len()], want, body)?;
        for second in first..text.len() {
            same &= is_read_as(alloc, text, &[first, second, text.len()], want, body)?;
        }
    }
    Ok(same)
}

// Each place from one on, up to the end.
fn each_place(alloc: Global, from: usize, end: usize) -> Result<Vec<usize>, NoMemory> {
    let mut places = Vec::new(alloc);
    for place in from..end {
        places.push(place)?;
    }
    places.push(end)?;
    Ok(places)
}

#[test]
fn cutting_changes_nothing(rt: HostRuntime) -> Result<(), Fail> {
    for text in messages() {
        let (read, body) = read_cut(rt.alloc(), text, &[text.len()])?;
        let same = is_same_in_pieces(rt.alloc(), text, read, body.as_slice())?;
        assert!(rt; same);
        let places = each_place(rt.alloc(), 0, text.len())?;
        let same = is_read_as(rt.alloc(), text, places.as_slice(), read, body.as_slice())?;
        assert!(rt; same);
    }
    Ok(())
}

// A front, so many of one text, and an end.
fn text_of(
    alloc: Global,
    front: &[u8],
    unit: &[u8],
    count: usize,
    end: &[u8],
) -> Result<Bytes, NoMemory> {
    let mut text = Bytes::from_slice(alloc, front)?;
    for _ in 0..count {
        text.extend(unit)?;
    }
    text.extend(end)?;
    Ok(text)
}

// A front, so many of a text, an end, and what they come to.
type Limit = (&'static [u8], &'static [u8], usize, &'static [u8], Read);

// Heads: a start line and a Host line of 25 octets together, and what fills them.
static HEAD_LIMITS: [Limit; 7] = [
    // the longest head
    (
        b"GET / HTTP/1.1\r\nHost: a\r\nX: ",
        b"x",
        65_504,
        b"\r\n\r\n",
        Read::Whole(65_536),
    ),
    // a head of one octet more
    (
        b"GET / HTTP/1.1\r\nHost: a\r\nX: ",
        b"x",
        65_505,
        b"\r\n\r\n",
        Read::HeadBad,
    ),
    // room for one octet
    (
        b"GET / HTTP/1.1\r\nHost: a\r\nX: ",
        b"x",
        65_507,
        b"",
        Read::HeadMore,
    ),
    // no room for more
    (
        b"GET / HTTP/1.1\r\nHost: a\r\nX: ",
        b"x",
        65_508,
        b"",
        Read::HeadBad,
    ),
    // 100 fields
    (
        b"GET / HTTP/1.1\r\nHost: a\r\n",
        b"X:\r\n",
        99,
        b"\r\n",
        Read::Whole(423),
    ),
    // 101 fields
    (
        b"GET / HTTP/1.1\r\nHost: a\r\n",
        b"X:\r\n",
        100,
        b"\r\n",
        Read::HeadMore,
    ),
    // many fields, and 65,536 octets
    (
        b"GET / HTTP/1.1\r\nHost: a\r\n",
        b"X:\r\n",
        16_378,
        b"",
        Read::HeadBad,
    ),
];

// Bodies, whole and octet by octet.
static BODY_LIMITS: [Limit; 12] = [
    // the longest line of a chunk
    (
        b"3;",
        b"x",
        4_092,
        b"\r\nabc\r\n0\r\n\r\n",
        Read::Whole(4_106),
    ),
    // a line of one octet more
    (b"3;", b"x", 4_093, b"\r\nabc\r\n0\r\n\r\n", Read::Bad),
    // the longest last line
    (b"0;", b"x", 4_092, b"\r\n\r\n", Read::Whole(4_098)),
    // a last line of one octet more
    (b"0;", b"x", 4_093, b"\r\n\r\n", Read::Bad),
    // a line without its end
    (b"3;", b"x", 4_092, b"", Read::More),
    // 4,097 octets without a line end
    (b"3;", b"x", 4_095, b"", Read::Bad),
    // the longest trailer
    (b"0\r\nT: ", b"x", 65_529, b"\r\n\r\n", Read::Whole(65_539)),
    // a trailer of one octet more
    (b"0\r\nT: ", b"x", 65_530, b"\r\n\r\n", Read::Bad),
    // room for one octet of a trailer
    (b"0\r\nT: ", b"x", 65_532, b"", Read::More),
    // 100 fields in a trailer
    (b"0\r\n", b"T:\r\n", 100, b"\r\n", Read::Whole(405)),
    // 101 fields in a trailer
    (b"0\r\n", b"T:\r\n", 101, b"\r\n", Read::More),
    // many fields, and 65,536 octets
    (b"0\r\n", b"T:\r\n", 16_384, b"", Read::Bad),
];

fn head_limits() -> &'static [Limit] {
    &HEAD_LIMITS
}

fn body_limits() -> &'static [Limit] {
    &BODY_LIMITS
}

// Whether each head comes to what was worked out.
fn are_head_limits(alloc: Global, table: &[Limit]) -> Result<bool, NoMemory> {
    let mut right = true;
    for (front, unit, count, end, want) in table {
        let text = text_of(alloc, front, unit, *count, end)?;
        let (read, _) = read_cut(alloc, text.as_slice(), &[text.len()])?;
        right &= read == *want;
    }
    Ok(right)
}

// Whether each body comes to what was worked out, whole and octet by octet.
fn are_body_limits(alloc: Global, table: &[Limit]) -> Result<bool, NoMemory> {
    let mut right = true;
    for (front, unit, count, end, want) in table {
        let text = text_of(alloc, front, unit, *count, end)?;
        let (whole, _) = read_chunks(alloc, text.as_slice(), 0, &[text.len()])?;
        let places = each_place(alloc, 0, text.len())?;
        let (single, _) = read_chunks(alloc, text.as_slice(), 0, places.as_slice())?;
        right &= whole == *want && single == *want;
    }
    Ok(right)
}

#[test]
fn limits_are_kept(rt: HostRuntime) -> Result<(), Fail> {
    assert!(rt; are_head_limits(rt.alloc(), head_limits())?);
    assert!(rt; are_body_limits(rt.alloc(), body_limits())?);
    Ok(())
}

// What a body in two pieces comes to.
fn fed_twice(alloc: Global, first: &[u8], second: &[u8]) -> Result<(Frame, Frame), NoMemory> {
    let mut chunks = Chunks::new(alloc);
    match feed_chunks(&mut chunks, first)? {
        Frame::More => Ok((Frame::More, feed_chunks(&mut chunks, second)?)),
        other => Ok((other, other)),
    }
}

#[test]
fn lengths_are_fed(rt: HostRuntime) -> Result<(), Fail> {
    let mut lengths = Lengths::new(rt.alloc(), 3);
    assert!(rt; feed_lengths(&mut lengths, b"ab")? == Frame::More);
    assert!(rt; feed_lengths(&mut lengths, b"cd")? == Frame::Whole(1));
    Ok(())
}

#[test]
fn chunks_are_fed(rt: HostRuntime) -> Result<(), Fail> {
    let text = b"3;x=1\r\nabc\r\n0\r\n\r\nGET";
    let parts = fed_twice(rt.alloc(), &text[..10], &text[10..])?;
    assert!(rt; parts == (Frame::More, Frame::Whole(7)));
    let whole = fed_twice(rt.alloc(), text, b"")?;
    assert!(rt; whole.0 == Frame::Whole(17));
    let digits = fed_twice(rt.alloc(), b"00000000000000000\r\n", b"")?;
    assert!(rt; digits.0 == Frame::Bad);
    Ok(())
}

#[test]
fn chunks_are_written(rt: HostRuntime) -> Result<(), Fail> {
    let mut out = Bytes::from_slice(rt.alloc(), b"x")?;
    write_chunk(rt.alloc(), &mut out, b"abc")?;
    write_chunk(rt.alloc(), &mut out, b"0123456789abcdef0")?;
    assert!(rt; out.as_slice() == b"x3\r\nabc\r\n11\r\n0123456789abcdef0\r\n".as_slice());
    Ok(())
}
