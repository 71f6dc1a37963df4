use crate::{Answer, Connection, Echo, Fed, Request, Service, Target};
use kj_base::{Bytes, NoMemory};
use std::alloc::Global;
use std::process::Abort;
use std::test::Fail;

// Octets of a connection, and what is written for them.
#[derive(Clone, Copy)]
struct Case {
    octets: &'static [u8],
    output: &'static [u8],
}

// The calls without their clauses: no test cites them, and each proof is shorter without them.

fn feed<S: Service>(connection: &mut Connection<S>, piece: &[u8]) -> Result<Fed, NoMemory> {
    connection.feed(piece)
}

fn end<S: Service>(connection: &mut Connection<S>) -> Result<(), NoMemory> {
    connection.end()
}

fn drain<S: Service>(connection: &mut Connection<S>) {
    connection.drain();
}

fn take_output<S: Service>(connection: &mut Connection<S>) -> Bytes {
    connection.take_output()
}

fn connection_of<S: Service>(alloc: Global, service: S) -> Connection<S> {
    Connection::new(alloc, service)
}

fn cut(octets: &[u8], at: usize) -> (&[u8], &[u8]) {
    octets.split_at(at.min(octets.len()))
}

// Only the functions that make a connection drop one, so few ways out of a function drop any.

fn keep_output<S: Service>(
    connection: &mut Connection<S>,
    output: &mut Bytes,
) -> Result<(), NoMemory> {
    let ready = take_output(connection);
    output.extend(ready.as_slice())
}

// Feeds octets in two pieces, cut there, and ends; the output is taken behind each piece.
fn feed_cut<S: Service>(
    connection: &mut Connection<S>,
    octets: &[u8],
    at: usize,
    output: &mut Bytes,
) -> Result<(), NoMemory> {
    let (first, second) = cut(octets, at);
    feed(connection, first)?;
    keep_output(connection, output)?;
    feed(connection, second)?;
    end(connection)?;
    keep_output(connection, output)
}

// What is written for octets that come in two pieces, cut there.
fn replies<S: Service + Drop>(
    alloc: Global,
    service: S,
    octets: &[u8],
    at: usize,
) -> Result<Bytes, NoMemory> {
    let mut connection = connection_of(alloc, service);
    let mut output = Bytes::new(alloc);
    feed_cut(&mut connection, octets, at, &mut output)?;
    Ok(output)
}

// What is done with a connection.
#[derive(Clone, Copy)]
enum Move<'a> {
    Feed(&'a [u8]),
    End,
    Drain,
    TakeOutput,
}

fn fed_word(fed: Fed) -> &'static [u8] {
    match fed {
        Fed::More => b"<more>",
        Fed::Closed => b"<closed>",
    }
}

// Makes a move, and appends what it gives.
fn make_move<S: Service>(
    connection: &mut Connection<S>,
    what: Move<'_>,
    story: &mut Bytes,
) -> Result<(), NoMemory> {
    match what {
        Move::Feed(piece) => {
            let fed = feed(connection, piece)?;
            story.extend(fed_word(fed))
        }
        Move::End => end(connection),
        Move::Drain => {
            drain(connection);
            Ok(())
        }
        Move::TakeOutput => keep_output(connection, story),
    }
}

fn make_moves<S: Service>(
    connection: &mut Connection<S>,
    moves: &[Move<'_>],
    story: &mut Bytes,
) -> Result<(), NoMemory> {
    for what in moves {
        make_move(connection, *what, story)?;
    }
    Ok(())
}

// What these moves give: a word for each piece, and the output where it is taken.
fn story_of<S: Service + Drop>(
    alloc: Global,
    service: S,
    moves: &[Move<'_>],
) -> Result<Bytes, NoMemory> {
    let mut connection = connection_of(alloc, service);
    let mut story = Bytes::new(alloc);
    make_moves(&mut connection, moves, &mut story)?;
    Ok(story)
}

fn expect<S: Service + Drop>(
    rt: &impl Abort,
    alloc: Global,
    service: S,
    case: &Case,
    at: usize,
) -> Result<(), NoMemory> {
    let output = replies(alloc, service, case.octets, at)?;
    assert!(rt; output.as_slice() == case.output, "cut at {at}");
    Ok(())
}

fn expect_target(rt: &impl Abort, alloc: Global, case: &Case) -> Result<(), NoMemory> {
    for at in 0..=case.octets.len() {
        expect(rt, alloc, Target, case, at)?;
    }
    Ok(())
}

fn expect_echo(rt: &impl Abort, alloc: Global, case: &Case) -> Result<(), NoMemory> {
    for at in 0..=case.octets.len() {
        expect(rt, alloc, Echo, case, at)?;
    }
    Ok(())
}

const OK_EMPTY: &[u8] = b"HTTP/1.1 200 OK\r\nContent-Length: 0\r\n\r\n";

const FAULT: &[u8] = b"HTTP/1.1 400 Bad Request\r\nContent-Length: 0\r\nConnection: close\r\n\r\n";

// The text for a method or a coding that isn't built.
const NOT_BUILT: &[u8] =
    b"HTTP/1.1 501 Not Implemented\r\nContent-Length: 0\r\nConnection: close\r\n\r\n";

const TARGETS: [Case; 14] = [
    // A target in absolute form, and one that is an asterisk.
    Case {
        octets: b"GET http://a/b HTTP/1.1\r\nHost: a\r\n\r\nOPTIONS * HTTP/1.1\r\nHost: a\r\n\r\n",
        output: b"HTTP/1.1 200 OK\r\nContent-Length: 14\r\n\r\nGET http://a/bHTTP/1.1 200 OK\r\nContent-Length: 9\r\n\r\nOPTIONS *",
    },
    // 204 has no length, and its connection closes.
    Case {
        octets: b"GET /empty HTTP/1.0\r\n\r\nx",
        output: b"HTTP/1.1 204 No Content\r\nConnection: close\r\n\r\n",
    },
    Case {
        octets: b"HEAD /empty HTTP/1.1\r\nHost: a\r\n\r\nHEAD /none HTTP/1.1\r\nHost: a\r\n\r\n",
        output: b"HTTP/1.1 204 No Content\r\n\r\nHTTP/1.1 404 Not Found\r\nContent-Length: 4\r\n\r\n",
    },
    // `close` wins over `keep-alive`.
    Case {
        octets: b"GET /a HTTP/1.0\r\nConnection: keep-alive, close\r\n\r\nGET /b HTTP/1.0\r\n\r\n",
        output: b"HTTP/1.1 200 OK\r\nContent-Length: 6\r\nConnection: close\r\n\r\nGET /a",
    },
    // A body that looks like a request is a body.
    Case {
        octets: b"PUT /a HTTP/1.1\r\nHost: a\r\nContent-Length: 18\r\n\r\nGET / HTTP/1.1\r\n\r\nGET /b HTTP/1.1\r\nHost: a\r\n\r\n",
        output: b"HTTP/1.1 200 OK\r\nContent-Length: 6\r\n\r\nPUT /aHTTP/1.1 200 OK\r\nContent-Length: 6\r\n\r\nGET /b",
    },
    Case {
        octets: b"GET /a HTTP/1.1\r\nHost: h\r\n\r\nHEAD /a HTTP/1.1\r\nHost: h\r\n\r\nPOST /b HTTP/1.1\r\nHost: h\r\nContent-Length: 3\r\n\r\nabc",
        output: b"HTTP/1.1 200 OK\r\nContent-Length: 6\r\n\r\nGET /aHTTP/1.1 200 OK\r\nContent-Length: 7\r\n\r\nHTTP/1.1 200 OK\r\nContent-Length: 7\r\n\r\nPOST /b",
    },
    Case {
        octets: b"GET /x HTTP/1.1\r\nHost: localhost:8080\r\nUser-Agent: curl/8.0\r\nAccept: */*\r\n\r\n",
        output: b"HTTP/1.1 200 OK\r\nContent-Length: 6\r\n\r\nGET /x",
    },
    Case {
        octets: b"GET /chunk HTTP/1.1\r\nHost: a\r\n\r\n",
        output: b"HTTP/1.1 200 OK\r\nTransfer-Encoding: chunked\r\n\r\na\r\nGET /chunk\r\n0\r\n\r\n",
    },
    Case {
        octets: b"GET /empty HTTP/1.1\r\nHost: a\r\n\r\n",
        output: b"HTTP/1.1 204 No Content\r\n\r\n",
    },
    Case {
        octets: b"GET /none HTTP/1.1\r\nHost: a\r\nConnection: close\r\n\r\nGET /x HTTP/1.1\r\nHost: a\r\n\r\n",
        output: b"HTTP/1.1 404 Not Found\r\nContent-Length: 4\r\nConnection: close\r\n\r\nnone",
    },
    Case {
        octets: b"GET /chunk HTTP/1.0\r\nConnection: Keep-Alive\r\n\r\nGET /b HTTP/1.0\r\n\r\nGET /c HTTP/1.0\r\n\r\n",
        output: b"HTTP/1.1 200 OK\r\nContent-Length: 10\r\nConnection: keep-alive\r\n\r\nGET /chunkHTTP/1.1 200 OK\r\nContent-Length: 6\r\nConnection: close\r\n\r\nGET /b",
    },
    Case {
        octets: b"HEAD /chunk HTTP/1.1\r\nHost: a\r\n\r\n",
        output: b"HTTP/1.1 200 OK\r\nTransfer-Encoding: chunked\r\n\r\n",
    },
    Case {
        octets: b"GET /a HTTP/1.1\r\nHost: a\r\n\r\nPOST /b HTTP/1.1\r\nHost: a\r\nTransfer-Encoding: gzip, chunked\r\n\r\n",
        output: b"HTTP/1.1 200 OK\r\nContent-Length: 6\r\n\r\nGET /aHTTP/1.1 501 Not Implemented\r\nContent-Length: 0\r\nConnection: close\r\n\r\n",
    },
    Case {
        octets: b"\r\n\r\nGET /a HTTP/1.1\r\nhost: a\r\nConnection: upgrade , CLOSE\r\n\r\n\r\n",
        output: b"HTTP/1.1 200 OK\r\nContent-Length: 6\r\nConnection: close\r\n\r\nGET /a",
    },
];

const ECHOES: [Case; 31] = [
    // A body of known length, one in chunks, a CRLF pair, and none in version 1.0, behind which nothing is read.
    Case {
        octets: b"POST / HTTP/1.1\r\nHost: a\r\nContent-Length: 2\r\n\r\nabPOST / HTTP/1.1\r\nHost: a\r\nTransfer-Encoding: chunked\r\n\r\n1\r\nc\r\n0\r\n\r\n\r\nGET / HTTP/1.0\r\n\r\nx",
        output: b"HTTP/1.1 200 OK\r\nContent-Length: 2\r\n\r\nabHTTP/1.1 200 OK\r\nContent-Length: 1\r\n\r\ncHTTP/1.1 200 OK\r\nContent-Length: 0\r\nConnection: close\r\n\r\n",
    },
    // Chunks of several sizes, with zeros and in both cases of letters.
    Case {
        octets: b"POST / HTTP/1.1\r\nHost: a\r\nTransfer-Encoding: chunked\r\n\r\n001\r\na\r\nA\r\n0123456789\r\n0000\r\n\r\nGET / HTTP/1.1\r\nHost: a\r\n\r\n",
        output: b"HTTP/1.1 200 OK\r\nContent-Length: 11\r\n\r\na0123456789HTTP/1.1 200 OK\r\nContent-Length: 0\r\n\r\n",
    },
    // An end within the line of a chunk, its data, its CRLF and the trailer.
    Case {
        octets: b"POST / HTTP/1.1\r\nHost: a\r\nTransfer-Encoding: chunked\r\n\r\n3",
        output: FAULT,
    },
    Case {
        octets: b"POST / HTTP/1.1\r\nHost: a\r\nTransfer-Encoding: chunked\r\n\r\n3\r\nab",
        output: FAULT,
    },
    Case {
        octets: b"POST / HTTP/1.1\r\nHost: a\r\nTransfer-Encoding: chunked\r\n\r\n3\r\nabc\r",
        output: FAULT,
    },
    Case {
        octets: b"POST / HTTP/1.1\r\nHost: a\r\nTransfer-Encoding: chunked\r\n\r\n0\r\nT: 1\r\n",
        output: FAULT,
    },
    // Lines of chunks end with CRLF alone.
    Case {
        octets: b"POST / HTTP/1.1\r\nHost: a\r\nTransfer-Encoding: chunked\r\n\r\n3\nabc\r\n0\r\n\r\n",
        output: FAULT,
    },
    // Lengths that differ, one that is no number, and one above the limit.
    Case {
        octets: b"POST / HTTP/1.1\r\nHost: a\r\nContent-Length: 2\r\nContent-Length: 3\r\n\r\nabc",
        output: FAULT,
    },
    Case {
        octets: b"POST / HTTP/1.1\r\nHost: a\r\nContent-Length: +2\r\n\r\nab",
        output: FAULT,
    },
    Case {
        octets: b"POST / HTTP/1.1\r\nHost: a\r\nContent-Length: 16777217\r\n\r\nab",
        output: FAULT,
    },
    // Version 1.0 has no chunks.
    Case {
        octets: b"POST / HTTP/1.0\r\nTransfer-Encoding: chunked\r\n\r\n0\r\n\r\n",
        output: FAULT,
    },
    Case {
        octets: b"POST / HTTP/1.1\r\nHost: a\r\nTransfer-Encoding: chunked\r\n\r\n3;x=1\r\nabc\r\n0\r\nT: 1\r\n\r\nGET / HTTP/1.1\r\nHost: a\r\n\r\n",
        output: b"HTTP/1.1 200 OK\r\nContent-Length: 3\r\n\r\nabcHTTP/1.1 200 OK\r\nContent-Length: 0\r\n\r\n",
    },
    Case {
        octets: b"POST / HTTP/1.1\r\nHost: a\r\nContent-Length: 3\r\nTransfer-Encoding: chunked\r\n\r\n3;x=1\r\nabc\r\n0\r\nT: 1\r\n\r\nGET / HTTP/1.1\r\nHost: a\r\n\r\n",
        output: FAULT,
    },
    Case {
        octets: b"GET / HTTP/1.1\r\n\r\n",
        output: FAULT,
    },
    Case {
        octets: b"GET / HTTP/1.0\r\n\r\n",
        output: b"HTTP/1.1 200 OK\r\nContent-Length: 0\r\nConnection: close\r\n\r\n",
    },
    Case {
        octets: b"\r\nGET / HTTP/1.1\r\nHost: a\r\n\r\n\r\n",
        output: OK_EMPTY,
    },
    Case {
        octets: b"\r\n",
        output: b"",
    },
    Case {
        octets: b"",
        output: b"",
    },
    Case {
        octets: b"\r",
        output: FAULT,
    },
    Case {
        octets: b"\n",
        output: FAULT,
    },
    Case {
        octets: b"GET / HTTP/1.1\r\nHost: a\r\n",
        output: FAULT,
    },
    Case {
        octets: b"POST / HTTP/1.1\r\nHost: a\r\nContent-Length: 5\r\n\r\nab",
        output: FAULT,
    },
    Case {
        octets: b"POST / HTTP/1.1\r\nHost: a\r\nTransfer-Encoding: gzip, chunked\r\n\r\n",
        output: NOT_BUILT,
    },
    Case {
        octets: b"CONNECT a:1 HTTP/1.1\r\nHost: a\r\n\r\n",
        output: NOT_BUILT,
    },
    Case {
        octets: b"POST / HTTP/1.1\r\nHost: a\r\nTransfer-Encoding: chunked\r\n\r\n;\r\nabc",
        output: FAULT,
    },
    Case {
        octets: b"POST / HTTP/1.1\r\nHost: a\r\nTransfer-Encoding: chunked\r\n\r\n3\r\nabcd\r\n",
        output: FAULT,
    },
    Case {
        octets: b"POST / HTTP/1.1\r\nHost: a\r\nTransfer-Encoding: chunked\r\n\r\n3\r\nabc\r\n0\r\n",
        output: FAULT,
    },
    Case {
        octets: b"POST / HTTP/1.1\r\nHost: a\r\nContent-Length: 2, 2\r\nContent-Length: 2\r\n\r\nabPOST / HTTP/1.1\r\nHost: a\r\nContent-Length: 1\r\n\r\nc",
        output: b"HTTP/1.1 200 OK\r\nContent-Length: 2\r\n\r\nabHTTP/1.1 200 OK\r\nContent-Length: 1\r\n\r\nc",
    },
    Case {
        octets: b"POST / HTTP/1.1\r\nHost: a\r\nContent-Length: 0\r\n\r\nGET / HTTP/1.1\r\nHost: a\r\n\r\nG",
        output: b"HTTP/1.1 200 OK\r\nContent-Length: 0\r\n\r\nHTTP/1.1 200 OK\r\nContent-Length: 0\r\n\r\nHTTP/1.1 400 Bad Request\r\nContent-Length: 0\r\nConnection: close\r\n\r\n",
    },
    Case {
        octets: b"GET / HTTP/2.0\r\nHost: a\r\n\r\n",
        output: FAULT,
    },
    Case {
        octets: b"\n\nGET / HTTP/1.1\nHost: a\n\nGET / HTTP/1.1\r\nHost: a\r\nHost: a\r\n\r\n",
        output: b"HTTP/1.1 200 OK\r\nContent-Length: 0\r\n\r\nHTTP/1.1 400 Bad Request\r\nContent-Length: 0\r\nConnection: close\r\n\r\n",
    },
];

#[test]
fn target_answers_wherever_the_octets_are_cut(rt: HostRuntime) -> Result<(), Fail> {
    for case in TARGETS {
        expect_target(&rt, rt.alloc(), &case)?;
    }
    Ok(())
}

#[test]
fn echo_answers_wherever_the_octets_are_cut(rt: HostRuntime) -> Result<(), Fail> {
    for case in ECHOES {
        expect_echo(&rt, rt.alloc(), &case)?;
    }
    Ok(())
}

fn many(alloc: Global, part: &[u8], count: usize) -> Result<Bytes, NoMemory> {
    let mut octets = Bytes::new(alloc);
    for _ in 0..count {
        octets.extend(part)?;
    }
    Ok(octets)
}

#[test]
fn pairs_before_a_request_count_for_nothing(rt: HostRuntime) -> Result<(), Fail> {
    let alloc = rt.alloc();
    let mut octets = many(alloc, b"\r\n", 40_000)?;
    octets.extend(b"GET / HTTP/1.1\r\nHost: a\r\n\r\n")?;
    let output = replies(alloc, Echo, octets.as_slice(), 30_001)?;
    assert!(&rt; output.as_slice() == OK_EMPTY);
    Ok(())
}

// A head of 28 octets, a value of so many, and two line ends of two.
fn head_with_value(alloc: Global, count: usize) -> Result<Bytes, NoMemory> {
    let mut octets = Bytes::from_slice(alloc, b"GET / HTTP/1.1\r\nHost: a\r\nX: ")?;
    octets.extend(many(alloc, b"x", count)?.as_slice())?;
    octets.extend(b"\r\n\r\n")?;
    Ok(octets)
}

#[test]
fn heads_have_a_limit(rt: HostRuntime) -> Result<(), Fail> {
    let alloc = rt.alloc();
    let longest = head_with_value(alloc, 65_504)?;
    assert!(&rt; longest.len() == 65_536);
    let longer = head_with_value(alloc, 65_505)?;
    let (most, last) = cut(longer.as_slice(), 65_535);
    let moves = [
        Move::Feed(longest.as_slice()),
        Move::TakeOutput,
        Move::Feed(most),
        Move::Feed(last),
        Move::TakeOutput,
    ];
    let story = story_of(alloc, Echo, &moves)?;
    assert!(&rt;
        story.as_slice()
            == b"<more>HTTP/1.1 200 OK\r\nContent-Length: 0\r\n\r\n<more><closed>HTTP/1.1 400 Bad Request\r\nContent-Length: 0\r\nConnection: close\r\n\r\n".as_slice()
    );
    Ok(())
}

// Moves, and what they give.
#[derive(Clone, Copy)]
struct Story {
    moves: &'static [Move<'static>],
    story: &'static [u8],
}

// What follows a last request, the end or a drain is dropped.
static STORIES: [Story; 3] = [
    Story {
        moves: &[
            Move::Feed(b"GET /a HTTP/1.1\r\nHost: a\r\n"),
            Move::Feed(b"Connection: close\r\n\r\nGET /b"),
            Move::Feed(b" HTTP/1.1\r\nHost: a\r\n\r\n"),
            Move::End,
            Move::Drain,
            Move::TakeOutput,
            Move::TakeOutput,
        ],
        story: b"<more><closed><closed>HTTP/1.1 200 OK\r\nContent-Length: 6\r\nConnection: close\r\n\r\nGET /a",
    },
    Story {
        moves: &[
            Move::End,
            Move::Feed(b"GET / HTTP/1.1\r\nHost: a\r\n\r\n"),
            Move::Drain,
            Move::End,
            Move::TakeOutput,
        ],
        story: b"<closed>",
    },
    Story {
        moves: &[
            Move::Feed(b"GET / HTTP/1.1\r\nHost: a\r\n\r\nGET /"),
            Move::Drain,
            Move::Feed(b" HTTP/1.1\r\nHost: a\r\n\r\n"),
            Move::End,
            Move::TakeOutput,
        ],
        story: b"<more><closed>HTTP/1.1 200 OK\r\nContent-Length: 5\r\n\r\nGET /",
    },
];

#[test]
fn octets_behind_an_end_are_dropped(rt: HostRuntime) -> Result<(), Fail> {
    for told in STORIES.iter() {
        let story = story_of(rt.alloc(), Target, told.moves)?;
        assert!(&rt; story.as_slice() == told.story);
    }
    Ok(())
}

// Octets that begin no request, and how many of them there are when this is seen.
static NO_REQUESTS: [(&[u8], usize); 7] = [
    (b"HELLO\n GET / HTTP/1.1\r\nHost: a\r\n\r\n", 6),
    (b"\r\n\r\nHELLO\r\n\r\n", 11),
    (b"\nHELLO\n", 7),
    (b"GET / HTTP/3\r\nHost: a\r\n\r\n", 14),
    // The beginning of a TLS hello.
    (b"\x16\x03\x01\x02\0", 1),
    (b"GET /\0 HTTP/1.1\r\n", 6),
    // Behind the first line it is seen at the end of the head.
    (b"GET / HTTP/1.1\r\nno field\r\nHost: a\r\n\r\nGET", 37),
];

fn count_until_closed<S: Service>(
    connection: &mut Connection<S>,
    octets: &[u8],
) -> Result<usize, NoMemory> {
    let mut count: usize = 0;
    for octet in octets {
        count = count.saturating_add(1);
        if feed(connection, &[*octet])? == Fed::Closed {
            return Ok(count);
        }
    }
    Ok(0)
}

// How many octets are taken, each in a piece of its own, until the connection closes.
fn taken_until_closed(alloc: Global, octets: &[u8]) -> Result<usize, NoMemory> {
    let mut connection = connection_of(alloc, Echo);
    count_until_closed(&mut connection, octets)
}

#[test]
fn octets_that_begin_no_request_are_refused_early(rt: HostRuntime) -> Result<(), Fail> {
    for (octets, count) in NO_REQUESTS.iter() {
        assert!(&rt; taken_until_closed(rt.alloc(), octets)? == *count);
    }
    Ok(())
}

#[test]
fn octets_that_begin_no_request_are_refused_at_once(rt: HostRuntime) -> Result<(), Fail> {
    for (octets, count) in NO_REQUESTS.iter() {
        let (front, _) = cut(octets, *count);
        let story = story_of(rt.alloc(), Echo, &[Move::Feed(front), Move::TakeOutput])?;
        assert!(&rt;
            story.as_slice()
                == b"<closed>HTTP/1.1 400 Bad Request\r\nContent-Length: 0\r\nConnection: close\r\n\r\n".as_slice()
        );
    }
    Ok(())
}

#[test]
fn too_many_fields_are_refused_at_the_limit(rt: HostRuntime) -> Result<(), Fail> {
    let alloc = rt.alloc();
    let fields = many(alloc, b"A: b\r\n", 101)?;
    let rest = many(alloc, b"x", 64_911)?;
    let moves = [
        Move::Feed(b"GET / HTTP/1.0\r\n"),
        Move::Feed(fields.as_slice()),
        Move::Feed(b"\r\n"),
        Move::Feed(rest.as_slice()),
        Move::TakeOutput,
        Move::Feed(b"x"),
        Move::TakeOutput,
    ];
    let story = story_of(alloc, Echo, &moves)?;
    assert!(&rt;
        story.as_slice()
            == b"<more><more><more><more><closed>HTTP/1.1 400 Bad Request\r\nContent-Length: 0\r\nConnection: close\r\n\r\n".as_slice()
    );
    Ok(())
}

fn logged(alloc: Global) -> Connection<Log> {
    let targets = Bytes::new(alloc);
    connection_of(alloc, Log { targets })
}

// Octets come in two pieces, cut there, with those of another connection between them.
fn feed_both(
    connection: &mut Connection<Log>,
    other: &mut Connection<Log>,
    octets: &[u8],
    at: usize,
) -> Result<(), NoMemory> {
    let (first, second) = cut(octets, at);
    feed(connection, first)?;
    feed(other, b"GET /other HTTP/1.1\r\nHost: a\r\n\r\n")?;
    feed(connection, second)?;
    end(connection)?;
    end(other)
}

// What the services were asked then.
fn asked(alloc: Global, octets: &[u8], at: usize) -> Result<Bytes, NoMemory> {
    let mut connection = logged(alloc);
    let mut other = logged(alloc);
    feed_both(&mut connection, &mut other, octets, at)?;
    let mut targets = connection.service().targets;
    targets.extend(other.service().targets.as_slice())?;
    Ok(targets)
}

const FIVE_REQUESTS: &[u8] =
    b"GET /1 HTTP/1.1\r\nHost: a\r\n\r\nPOST /2 HTTP/1.1\r\nHost: a\r\nContent-Length: 3\r\n\r\nabcGET /1 HTTP/1.1\r\nHost: a\r\n\r\nHEAD /3 HTTP/1.0\r\n\r\nGET /4 HTTP/1.1\r\nHost: a\r\n\r\n";

#[test]
fn a_service_is_asked_once_for_each_request_in_order(rt: HostRuntime) -> Result<(), Fail> {
    for at in 0..=FIVE_REQUESTS.len() {
        let targets = asked(rt.alloc(), FIVE_REQUESTS, at)?;
        assert!(&rt; targets.as_slice() == b"/1 /2 /1 /3 /other ".as_slice());
    }
    Ok(())
}

// The answer in chunks of a body of so many octets.
fn chunked_answer(alloc: Global, count: usize) -> Result<Bytes, NoMemory> {
    let body = many(alloc, b"x", count)?;
    let mut connection = connection_of(alloc, Fixed { body });
    feed(&mut connection, b"GET / HTTP/1.1\r\nHost: a\r\n\r\n")?;
    Ok(take_output(&mut connection))
}

// The same by hand: a chunk of 4,096 octets, and what follows it.
fn one_chunk_and(alloc: Global, behind: &[u8]) -> Result<Bytes, NoMemory> {
    let head = b"HTTP/1.1 200 OK\r\nTransfer-Encoding: chunked\r\n\r\n1000\r\n";
    let mut text = Bytes::from_slice(alloc, head)?;
    text.extend(many(alloc, b"x", 4096)?.as_slice())?;
    text.extend(b"\r\n")?;
    text.extend(behind)?;
    Ok(text)
}

#[test]
fn chunks_of_answers_have_4096_octets(rt: HostRuntime) -> Result<(), Fail> {
    let alloc = rt.alloc();
    let one = one_chunk_and(alloc, b"0\r\n\r\n")?;
    assert!(&rt; chunked_answer(alloc, 4096)?.as_slice() == one.as_slice());
    let two = one_chunk_and(alloc, b"1\r\nx\r\n0\r\n\r\n")?;
    assert!(&rt; chunked_answer(alloc, 4097)?.as_slice() == two.as_slice());
    Ok(())
}

// Answers each request with this body in chunks, and tells nothing.
#[derive(Debug, Drop)]
struct Fixed {
    body: Bytes,
}

impl Service for Fixed {
    ghost use Rattle.std.specs.Prelude.{None};

    ghost told = { None };

    fn answer(&mut self, alloc: Global, _request: &Request) -> Result<Answer, NoMemory> {
        let body = Bytes::from_slice(alloc, self.body.as_slice())?;
        Ok(Answer {
            status: 200,
            body,
            chunked: true,
        })
    }
}

// Keeps the targets that it is asked for, and tells nothing.
#[derive(Debug, Drop)]
struct Log {
    targets: Bytes,
}

impl Service for Log {
    ghost use Rattle.std.specs.Prelude.{None};

    ghost told = { None };

    fn answer(&mut self, alloc: Global, request: &Request) -> Result<Answer, NoMemory> {
        self.targets.extend(request.head.target.as_slice())?;
        self.targets.push(b' ')?;
        let body = Bytes::new(alloc);
        Ok(Answer {
            status: 200,
            body,
            chunked: false,
        })
    }
}
