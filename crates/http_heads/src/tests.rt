//! Heads that are read, and what they say.
use crate::rules::{framing, persists, rules_of};
use crate::{
    Field, Fields, Framing, Head, HeadFill, HeadRead, SectionRead, brings_head, brings_section,
    fill_head, first_stop, read_head, read_section, text,
};
use kj_base::{Bytes, NoMemory};
use std::alloc::Global;
use std::test::Fail;

// Why, the head, how its body is delimited, and whether the connection goes on after it.
static HEADS: [(&str, &[u8], Framing, bool); 22] = [
    (
        "equal numbers",
        b"POST / HTTP/1.1\r\nHost: a\r\nContent-Length: 5, 5\r\n\r\n",
        Framing::Length(5),
        true,
    ),
    (
        "two numbers",
        b"POST / HTTP/1.1\r\nHost: a\r\nContent-Length: 5\r\nContent-Length: 6\r\n\r\n",
        Framing::Fault(400),
        true,
    ),
    (
        "too large a number",
        b"POST / HTTP/1.1\r\nHost: a\r\nContent-Length: 16777217\r\n\r\n",
        Framing::Fault(400),
        true,
    ),
    (
        "the largest number",
        b"POST / HTTP/1.1\r\nHost: a\r\nContent-Length: 16777216\r\n\r\n",
        Framing::Length(16_777_216),
        true,
    ),
    (
        "chunked first",
        b"POST / HTTP/1.1\r\nHost: a\r\nTransfer-Encoding: chunked, gzip\r\n\r\n",
        Framing::Fault(400),
        true,
    ),
    (
        "another coding before chunked",
        b"POST / HTTP/1.1\r\nHost: a\r\nTransfer-Encoding: gzip, chunked\r\n\r\n",
        Framing::Fault(501),
        true,
    ),
    (
        "chunked",
        b"POST / HTTP/1.1\r\nHost: a\r\nTransfer-Encoding: chunked\r\n\r\n",
        Framing::Chunked,
        true,
    ),
    (
        "neither",
        b"GET / HTTP/1.1\r\nHost: a\r\n\r\n",
        Framing::Empty,
        true,
    ),
    (
        "no Host",
        b"GET / HTTP/1.1\r\n\r\n",
        Framing::Fault(400),
        true,
    ),
    (
        "CONNECT",
        b"CONNECT a:1 HTTP/1.1\r\nHost: a\r\n\r\n",
        Framing::Fault(501),
        true,
    ),
    (
        "1.1 and close (9.3)",
        b"GET / HTTP/1.1\r\nHost: a\r\nConnection: close\r\n\r\n",
        Framing::Empty,
        false,
    ),
    (
        "close in other letters, in a list",
        b"GET / HTTP/1.1\r\nHost: a\r\nConnection: x, CLOSE\r\n\r\n",
        Framing::Empty,
        false,
    ),
    (
        "close on the second line",
        b"GET / HTTP/1.1\r\nHost: a\r\nConnection: x\r\nconnection: close\r\n\r\n",
        Framing::Empty,
        false,
    ),
    (
        "an element that begins with close",
        b"GET / HTTP/1.1\r\nHost: a\r\nConnection: closed\r\n\r\n",
        Framing::Empty,
        true,
    ),
    (
        "close in another field",
        b"GET / HTTP/1.1\r\nHost: a\r\nX: close\r\n\r\n",
        Framing::Empty,
        true,
    ),
    (
        "1.0 alone",
        b"GET / HTTP/1.0\r\n\r\n",
        Framing::Empty,
        false,
    ),
    (
        "1.0 and keep-alive",
        b"GET / HTTP/1.0\r\nConnection: keep-alive\r\n\r\n",
        Framing::Empty,
        true,
    ),
    (
        "1.0 and keep-alive in other letters",
        b"GET / HTTP/1.0\r\nConnection: ,Keep-Alive ,\r\n\r\n",
        Framing::Empty,
        true,
    ),
    (
        "1.0, keep-alive and close",
        b"GET / HTTP/1.0\r\nConnection: keep-alive, close\r\n\r\n",
        Framing::Empty,
        false,
    ),
    (
        "1.0 and another option",
        b"GET / HTTP/1.0\r\nConnection: keep\r\n\r\n",
        Framing::Empty,
        false,
    ),
    (
        "1.1, keep-alive and close",
        b"GET / HTTP/1.1\r\nHost: a\r\nConnection: keep-alive\r\nConnection: close\r\n\r\n",
        Framing::Empty,
        false,
    ),
    (
        "1.1 and an empty list",
        b"GET / HTTP/1.1\r\nHost: a\r\nConnection:\r\n\r\n",
        Framing::Empty,
        true,
    ),
];

#[test]
fn heads_frame_and_persist(rt: HostRuntime) -> Result<(), Fail> {
    for (reason, head, want, goes_on) in HEADS.iter() {
        assert!(rt; brings_head(head, 0), "{reason}");
        match read_head(rt.alloc(), head)? {
            HeadRead::Whole(read, len) => {
                assert!(rt; len == head.len(), "{reason}");
                assert!(rt; framing(&read) == *want, "{reason}");
                assert!(rt; persists(&read) == *goes_on, "{reason}");
                let rules = rules_of(&read);
                assert!(rt; rules.framing == *want, "{reason}");
                assert!(rt; rules.persists == *goes_on, "{reason}");
            }
            HeadRead::More => assert!(rt; false, "{reason}"),
            HeadRead::Crowded => assert!(rt; false, "{reason}"),
            HeadRead::Bad => assert!(rt; false, "{reason}"),
        }
    }
    Ok(())
}

#[test]
fn parts_of_heads_and_sections(rt: HostRuntime) -> Result<(), Fail> {
    let octets = b"PUT /x?y HTTP/1.0\nA:\t b \t\r\nCc:\r\n\r\nrest";
    match read_head(rt.alloc(), octets)? {
        HeadRead::Whole(head, len) => {
            assert!(rt; len == 34);
            assert!(rt; head.method.as_slice() == b"PUT".as_slice());
            assert!(rt; head.target.as_slice() == b"/x?y".as_slice());
            assert!(rt; head.minor == 0);
            let names = [b"A".as_slice(), b"Cc".as_slice()];
            let values = [b"b".as_slice(), b"".as_slice()];
            let fields = head.fields.into_vec();
            assert!(rt; fields.len() == 2);
            for (field, (name, value)) in fields.iter().zip(names.iter().zip(values.iter())) {
                assert!(rt; field.name.as_slice() == *name);
                assert!(rt; field.value.as_slice() == *value);
            }
            assert!(rt; Fields::from_vec(fields).as_slice().len() == 2);
        }
        HeadRead::More => assert!(rt; false),
        HeadRead::Crowded => assert!(rt; false),
        HeadRead::Bad => assert!(rt; false),
    }
    match read_section(rt.alloc(), b"T: 1\r\n\nrest")? {
        SectionRead::Whole(fields, len) => {
            assert!(rt; len == 7);
            assert!(rt; fields.as_slice().len() == 1);
        }
        SectionRead::More => assert!(rt; false),
        SectionRead::Crowded => assert!(rt; false),
        SectionRead::Bad => assert!(rt; false),
    }
    assert!(rt;
        matches!(
            read_head(rt.alloc(), b"GET / HTTP/1.1\r\nHost: a\r\n")?,
            HeadRead::More
        )
    );
    let mut fields = Fields::new(rt.alloc());
    let name = Bytes::from_slice(rt.alloc(), b"A")?;
    fields.push(Field {
        name,
        value: Bytes::new(rt.alloc()),
    })?;
    assert!(rt; fields.as_slice().len() == 1);
    assert!(rt; text::trim(b" \ta b\t") == b"a b".as_slice());
    Ok(())
}

// Octets, from where on they are looked at, and whether a head and a section may end there.
static ENDS: [(&[u8], usize, bool, bool); 9] = [
    (b"a\r\n\r\n", 0, true, true),
    (b"a\n\n", 0, true, true),
    (b"a\r\n\n", 3, true, true),
    (b"a\r\n\r\n", 5, false, false),
    (b"a\r\nb\r\n", 0, false, false),
    (b"\r\n", 0, false, true),
    (b"\n", 0, false, true),
    (b"\n\n\n\n", 1, false, true),
    (b"\r\n\r\n\r\n", 2, false, true),
];

#[test]
fn empty_lines_are_found(rt: HostRuntime) {
    for (octets, from, head, section) in ENDS.iter() {
        assert!(rt; brings_head(octets, *from) == *head);
        assert!(rt; brings_section(octets, *from) == *section);
    }
}

// Octets, where their first line stops, and whether they may still become a head.
static FIRST_LINES: [(&[u8], Option<usize>, bool); 13] = [
    (b"GET / HTTP/1.1\r\n", Some(15), true),
    (b"GET / HTTP/1.0\nA: b", Some(14), true),
    (b"\n\r\n\nGET / HTTP/1.1\n", Some(18), true),
    (b"GET / HTTP/1.1\r", None, true),
    (b"\r", None, true),
    (b"\r\n\n", None, true),
    (b"HELLO\n", Some(5), false),
    (b"\nHELLO\n", Some(6), false),
    (b"GET / HTTP/2.0\r\n", Some(15), false),
    (b"GET  / HTTP/1.1\r\n", Some(16), false),
    // The beginning of a TLS hello.
    (b"\x16\x03\x01", Some(0), false),
    (b"GET\0", Some(3), false),
    (b"GET\t/ HTTP/1.1", Some(3), false),
];

#[test]
fn first_lines_are_looked_at(rt: HostRuntime) -> Result<(), Fail> {
    for (octets, stop, may) in FIRST_LINES.iter() {
        assert!(rt; first_stop(octets, 0) == *stop);
        let read = read_head(rt.alloc(), octets)?;
        assert!(rt; matches!(read, HeadRead::More) == *may);
        assert!(rt; matches!(read, HeadRead::Bad) != *may);
    }
    Ok(())
}

// A head with so many fields.
fn head_of(alloc: Global, count: usize) -> Result<Bytes, NoMemory> {
    let mut head = Bytes::from_slice(alloc, b"GET / HTTP/1.0\r\n")?;
    for _ in 0..count {
        head.extend(b"Name: value\r\n")?;
    }
    head.extend(b"\r\n")?;
    Ok(head)
}

// The call without its clauses, which no test cites.
fn fill(alloc: Global, head: &mut Head, octets: &[u8]) -> Result<HeadFill, NoMemory> {
    fill_head(alloc, head, octets)
}

#[test]
fn one_head_is_used_for_many(rt: HostRuntime) -> Result<(), Fail> {
    let mut head = Head::new(rt.alloc());
    for count in [2_usize, 100, 0, 32, 33, 1].iter() {
        let octets = head_of(rt.alloc(), *count)?;
        let filled = fill(rt.alloc(), &mut head, octets.as_slice())?;
        assert!(rt; filled == HeadFill::Whole(octets.len()));
        let fields = head.fields.as_slice();
        assert!(rt; fields.len() == *count);
        for field in fields {
            assert!(rt; field.name.as_slice() == b"Name".as_slice());
            assert!(rt; field.value.as_slice() == b"value".as_slice());
        }
    }
    let crowd = head_of(rt.alloc(), 101)?;
    assert!(rt; fill(rt.alloc(), &mut head, crowd.as_slice())? == HeadFill::Crowded);
    assert!(rt; matches!(read_head(rt.alloc(), crowd.as_slice())?, HeadRead::Crowded));
    Ok(())
}
