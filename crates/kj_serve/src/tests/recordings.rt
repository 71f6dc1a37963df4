//! Recordings and the replies to them, worked out by hand.
use crate::tests::{done, failing};
use kj_base::{Bytes, NoMemory};
use kj_io::Turn;
use std::alloc::Global;
use std::test::Fail;

// What `make 1 1 1` writes.
const RECORDING: &[u8] = b"kjrec 1\nconn 36\nGET /0/0 HTTP/1.1\r\nHost: kj.test\r\n\r\n\n";

// A service, the octets of a recording, the status of `replay` on them, and what it writes.
const RECORDINGS: [(&str, &[u8], u8, &[u8]); 9] = [
    (
        "target",
        RECORDING,
        0,
        b"kjrep 1\nconn 46\nHTTP/1.1 200 OK\r\nContent-Length: 8\r\n\r\nGET /0/0\n",
    ),
    ("echo", b"kjrec 1\n", 0, b"kjrep 1\n"),
    ("echo", b"kjrec 1\nconn 0\n\n", 0, b"kjrep 1\nconn 0\n\n"),
    ("echo", b"kjrec 1\nconn 36\nGET", 1, b"bad record 0\n"),
    ("echo", b"kjrec 1\nconn 0\n\ncon", 1, b"bad record 1\n"),
    ("echo", b"", 1, b"bad record 0\n"),
    (
        "target",
        b"kjrec 1\nconn 18\nGET / HTTP/1.1\r\n\r\n\n",
        0,
        b"kjrep 1\nconn 66\nHTTP/1.1 400 Bad Request\r\nContent-Length: 0\r\nConnection: close\r\n\r\n\n",
    ),
    (
        "echo",
        b"kjrec 1\nconn 18\nGET / HTTP/1.0\r\n\r\n\n",
        0,
        b"kjrep 1\nconn 57\nHTTP/1.1 200 OK\r\nContent-Length: 0\r\nConnection: close\r\n\r\n\n",
    ),
    (
        "target",
        b"kjrec 1\nconn 2\n\r\n\n",
        0,
        b"kjrep 1\nconn 0\n\n",
    ),
];

// Recordings, and the replies to their connections.
#[test]
fn made_and_replayed(rt: HostRuntime) -> Result<(), Fail> {
    let alloc = rt.alloc();
    let made = done(
        &rt,
        alloc,
        &["make", "1", "1", "1"],
        b"",
        Vec::new(alloc),
        Vec::new(alloc),
    )?;
    assert!(&rt; made.is(0, RECORDING));
    for (service, octets, status, text) in RECORDINGS {
        let ended = done(
            &rt,
            alloc,
            &["replay", "1", service],
            octets,
            Vec::new(alloc),
            Vec::new(alloc),
        )?;
        assert!(&rt;
            ended.is(status, text),
            "{service} on {} octets",
            octets.len()
        );
    }
    let front = done(
        &rt,
        alloc,
        &["replay", "1", "target"],
        RECORDING,
        Vec::new(alloc),
        failing(alloc, 1, 20)?,
    )?;
    assert!(&rt; front.is(4, b"kjrep 1\nconn 46\nHTTP"));
    Ok(())
}

const FAULT: &[u8] = b"HTTP/1.1 400 Bad Request\r\nContent-Length: 0\r\nConnection: close\r\n\r\n";

// A text of version 1 with one connection.
fn one_connection(alloc: Global, header: &[u8], octets: &[u8]) -> Result<Bytes, NoMemory> {
    let mut text = Bytes::from_slice(alloc, header)?;
    text.extend(format!(in alloc; "conn {}\n", octets.len())?.as_bytes())?;
    text.extend(octets)?;
    text.extend(b"\n")?;
    Ok(text)
}

// A service, the octets of a connection, and what is written to it.
const CONNECTIONS: [(&str, &[u8], &[u8]); 13] = [
    (
        "target",
        b"GET /a HTTP/1.1\r\nHost: h\r\n\r\nHEAD /a HTTP/1.1\r\nHost: h\r\n\r\nPOST /b HTTP/1.1\r\nHost: h\r\nContent-Length: 3\r\n\r\nabc",
        b"HTTP/1.1 200 OK\r\nContent-Length: 6\r\n\r\nGET /aHTTP/1.1 200 OK\r\nContent-Length: 7\r\n\r\nHTTP/1.1 200 OK\r\nContent-Length: 7\r\n\r\nPOST /b",
    ),
    (
        "echo",
        b"POST / HTTP/1.1\r\nHost: a\r\nTransfer-Encoding: chunked\r\n\r\n3;x=1\r\nabc\r\n0\r\nT: 1\r\n\r\nGET / HTTP/1.1\r\nHost: a\r\n\r\n",
        b"HTTP/1.1 200 OK\r\nContent-Length: 3\r\n\r\nabcHTTP/1.1 200 OK\r\nContent-Length: 0\r\n\r\n",
    ),
    (
        "echo",
        b"POST / HTTP/1.1\r\nHost: a\r\nContent-Length: 3\r\nTransfer-Encoding: chunked\r\n\r\n3;x=1\r\nabc\r\n0\r\nT: 1\r\n\r\nGET / HTTP/1.1\r\nHost: a\r\n\r\n",
        FAULT,
    ),
    ("echo", b"GET / HTTP/1.1\r\n\r\n", FAULT),
    (
        "echo",
        b"\r\nGET / HTTP/1.0\r\n\r\n",
        b"HTTP/1.1 200 OK\r\nContent-Length: 0\r\nConnection: close\r\n\r\n",
    ),
    ("echo", b"\r\n", b""),
    ("echo", b"GET / HTTP/1.1\r\nHost: a\r\n", FAULT),
    (
        "echo",
        b"POST / HTTP/1.1\r\nHost: a\r\nContent-Length: 5\r\n\r\nab",
        FAULT,
    ),
    (
        "target",
        b"GET /x HTTP/1.1\r\nHost: localhost:8080\r\nUser-Agent: curl/8.0\r\nAccept: */*\r\n\r\n",
        b"HTTP/1.1 200 OK\r\nContent-Length: 6\r\n\r\nGET /x",
    ),
    (
        "echo",
        b"POST / HTTP/1.1\r\nHost: a\r\nTransfer-Encoding: gzip, chunked\r\n\r\n",
        b"HTTP/1.1 501 Not Implemented\r\nContent-Length: 0\r\nConnection: close\r\n\r\n",
    ),
    (
        "target",
        b"GET /0/0 HTTP/1.1\r\nHost: kj.test\r\n\r\n",
        b"HTTP/1.1 200 OK\r\nContent-Length: 8\r\n\r\nGET /0/0",
    ),
    (
        "target",
        b"GET /chunk HTTP/1.1\r\nHost: a\r\n\r\n",
        b"HTTP/1.1 200 OK\r\nTransfer-Encoding: chunked\r\n\r\na\r\nGET /chunk\r\n0\r\n\r\n",
    ),
    (
        "target",
        b"GET /empty HTTP/1.1\r\nHost: a\r\n\r\n",
        b"HTTP/1.1 204 No Content\r\n\r\n",
    ),
];

// Recordings of one connection with its replies, read in two pieces that are cut at each place.
#[test]
fn cut_recordings(rt: HostRuntime) -> Result<(), Fail> {
    let alloc = rt.alloc();
    for (service, octets, replies) in CONNECTIONS {
        let input = one_connection(alloc, b"kjrec 1\n", octets)?;
        let output = one_connection(alloc, b"kjrep 1\n", replies)?;
        for place in 1..input.len() {
            let mut reads = Vec::new(alloc);
            reads.push(Turn::Octets(place))?;
            let words = ["replay", "1", service];
            let ended = done(&rt, alloc, &words, input.as_slice(), reads, Vec::new(alloc))?;
            assert!(&rt; ended.is(0, output.as_slice()), "{service} at {place}");
        }
    }
    Ok(())
}

// A made recording of 40 connections with five requests each is answered.
#[test]
fn many_connections(rt: HostRuntime) -> Result<(), Fail> {
    let alloc = rt.alloc();
    let words = ["make", "1", "40", "5"];
    let made = done(&rt, alloc, &words, b"", Vec::new(alloc), Vec::new(alloc))?;
    assert!(&rt; made.status == 0);
    let input = made.written.as_slice();
    let words = ["replay", "1", "target"];
    let whole = done(&rt, alloc, &words, input, Vec::new(alloc), Vec::new(alloc))?;
    assert!(&rt; whole.status == 0);
    let output = whole.written.as_slice();
    assert_eq!(&rt; found(output, b"conn "), 40);
    assert_eq!(&rt; found(output, b"HTTP/1.1 200 OK"), 200);
    let mut single = Vec::new(alloc);
    for _ in 0..input.len() {
        single.push(Turn::Octets(1))?;
    }
    let cut = done(&rt, alloc, &words, input, single, Vec::new(alloc))?;
    assert!(&rt; cut.is(0, output));
    let front = done(
        &rt,
        alloc,
        &words,
        input,
        Vec::new(alloc),
        failing(alloc, 1, 20)?,
    )?;
    assert!(&rt; output.len() > 20 && front.is(4, &output[..20]));
    Ok(())
}

// How often a text stands among these octets.
fn found(octets: &[u8], text: &[u8]) -> usize {
    let mut count: usize = 0;
    for start in 0..octets.len() {
        if octets[start..].starts_with(text) {
            count = count.saturating_add(1);
        }
    }
    count
}
