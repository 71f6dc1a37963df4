//! Connections over streams in memory, driven step by step.
use crate::{ConnectionStep, Finished, Next, Served, ServedConnection};
use http_core::{Answer, Echo, Request, Service, Target};
use kj_base::{Bytes, NoMemory};
use kj_io::{MemStream, StreamTurn};
use std::alloc::Global;
use std::test::Fail;

// More steps than any of the tests needs.
const STEPS: u32 = 2_000;

// Three requests, and their replies by `Target`.
const THREE: &[u8] = b"GET /a HTTP/1.1\r\nHost: h\r\n\r\nHEAD /a HTTP/1.1\r\nHost: h\r\n\r\n\
POST /b HTTP/1.1\r\nHost: h\r\nContent-Length: 3\r\n\r\nabc";

const REPLIES: &[u8] = b"HTTP/1.1 200 OK\r\nContent-Length: 6\r\n\r\nGET /a\
HTTP/1.1 200 OK\r\nContent-Length: 7\r\n\r\nHTTP/1.1 200 OK\r\nContent-Length: 7\r\n\r\nPOST /b";

const FIRST: &[u8] = b"HTTP/1.1 200 OK\r\nContent-Length: 6\r\n\r\nGET /a";

const CLOSING: &[u8] = b"HTTP/1.1 200 OK\r\nContent-Length: 6\r\nConnection: close\r\n\r\nGET /a";

const BAD: &[u8] = b"HTTP/1.1 400 Bad Request\r\nContent-Length: 0\r\nConnection: close\r\n\r\n";

// How a connection is driven: the turns of its stream, and before which step a drain begins.
#[derive(Drop)]
struct Drive {
    reads: Vec<StreamTurn>,
    writes: Vec<StreamTurn>,
    drain_at: u32,
}

impl Drive {
    fn plain(alloc: Global) -> Drive {
        Drive {
            reads: Vec::new(alloc),
            writes: Vec::new(alloc),
            drain_at: STEPS,
        }
    }
}

// The connection's end, where it came, and how many steps answered.
#[derive(Drop)]
struct Driven {
    finished: Option<Finished<MemStream>>,
    answers: u32,
}

// Takes the steps of a connection until it ends; a step that waits is taken again at once.
fn run_steps<V: Service + Drop>(
    alloc: Global,
    service: &mut V,
    octets: &[u8],
    drive: Drive,
) -> Result<Driven, NoMemory> {
    let octets = Bytes::from_slice(alloc, octets)?;
    let stream = MemStream::new(alloc, octets, drive.reads, drive.writes);
    let mut connection: ServedConnection<V, MemStream> = ServedConnection::new(alloc, stream);
    let mut step = ConnectionStep::Read;
    let mut answers = 0u32;
    for taken in 0..STEPS {
        let drained = taken >= drive.drain_at;
        let next = match step {
            ConnectionStep::Read => connection.read(drained)?,
            ConnectionStep::Answer => {
                answers = answers.saturating_add(1);
                connection.answer(service, drained)?
            }
            ConnectionStep::Write => connection.write(drained)?,
        };
        match next {
            Next::Go(then) => step = then,
            Next::Wait(then) => step = then,
            Next::End => break,
            Next::Abandoned => break,
        }
    }
    if !connection.is_over() {
        return Ok(Driven {
            finished: None,
            answers,
        });
    }
    let served: Served<V, MemStream> = connection.finish(7);
    Ok(Driven {
        finished: Some(served.into_finished()),
        answers,
    })
}

// What is wanted of the end of a connection.
#[derive(Clone, Copy)]
struct Wanted {
    written: &'static [u8],
    answered: u64,
    abandoned: bool,
    drained: bool,
    closes: bool,
}

const WHOLE: Wanted = Wanted {
    written: REPLIES,
    answered: 3,
    abandoned: false,
    drained: false,
    closes: false,
};

fn ends_so(driven: &Driven, wanted: Wanted) -> bool {
    match &driven.finished {
        None => false,
        Some(finished) => {
            finished.written.as_slice() == wanted.written
                && finished.answered == wanted.answered
                && finished.abandoned == wanted.abandoned
                && finished.drained == wanted.drained
                && finished.closes == wanted.closes
                && finished.stream.written() == wanted.written
        }
    }
}

#[test]
fn pipelined_requests_go_out_in_one_write(rt: HostRuntime) -> Result<(), Fail> {
    let alloc = rt.alloc();
    let mut turns = Drive::plain(alloc);
    turns.writes.push(StreamTurn::Fault)?;
    turns.writes.push(StreamTurn::Octets(1_000))?;
    let driven = run_steps(alloc, &mut Target, THREE, turns)?;
    assert!(&rt; ends_so(&driven, WHOLE));
    assert_eq!(&rt; driven.answers, 3);
    Ok(())
}

#[test]
fn gaps_at_each_octet(rt: HostRuntime) -> Result<(), Fail> {
    let alloc = rt.alloc();
    let mut turns = Drive::plain(alloc);
    for _ in 0..200 {
        turns.reads.push(StreamTurn::Octets(1))?;
        turns.reads.push(StreamTurn::Gap)?;
        turns.writes.push(StreamTurn::Octets(1))?;
        turns.writes.push(StreamTurn::Gap)?;
    }
    let driven = run_steps(alloc, &mut Target, THREE, turns)?;
    assert!(&rt; ends_so(&driven, WHOLE));
    Ok(())
}

// A drain that begins before the first answer, and one in a gap behind the first request.
#[test]
fn drains(rt: HostRuntime) -> Result<(), Fail> {
    let alloc = rt.alloc();
    let mut turns = Drive::plain(alloc);
    turns.drain_at = 1;
    let wanted = Wanted {
        written: CLOSING,
        answered: 1,
        abandoned: false,
        drained: true,
        closes: true,
    };
    assert!(&rt; ends_so(&run_steps(alloc, &mut Target, THREE, turns)?, wanted));

    // Read, answer, write, a read that waits, and the drain before the next.
    let mut turns = Drive::plain(alloc);
    turns.reads.push(StreamTurn::Gap)?;
    turns.reads.push(StreamTurn::Octets(28))?;
    turns.drain_at = 4;
    let wanted = Wanted {
        written: FIRST,
        answered: 1,
        abandoned: false,
        drained: true,
        closes: false,
    };
    assert!(&rt; ends_so(&run_steps(alloc, &mut Target, THREE, turns)?, wanted));

    // Before the first step.
    let mut turns = Drive::plain(alloc);
    turns.drain_at = 0;
    let wanted = Wanted {
        written: b"",
        answered: 0,
        abandoned: false,
        drained: true,
        closes: false,
    };
    assert!(&rt; ends_so(&run_steps(alloc, &mut Target, THREE, turns)?, wanted));
    Ok(())
}

// So many turns that let one octet pass, and then a fault.
fn fault_after(alloc: Global, count: u32) -> Result<Vec<StreamTurn>, NoMemory> {
    let mut turns = Vec::new(alloc);
    turns.push(StreamTurn::Fault)?;
    for _ in 0..count {
        turns.push(StreamTurn::Octets(1))?;
    }
    Ok(turns)
}

// Whether the connection was abandoned with a front of all replies, or ended whole.
fn keeps_front(driven: &Driven) -> bool {
    match &driven.finished {
        None => false,
        Some(finished) => {
            if !finished.abandoned {
                return ends_so(driven, WHOLE);
            }
            REPLIES.starts_with(finished.written.as_slice())
        }
    }
}

#[test]
fn each_call_fails_in_turn(rt: HostRuntime) -> Result<(), Fail> {
    let alloc = rt.alloc();
    for count in 0..125 {
        let mut turns = Drive::plain(alloc);
        turns.reads = fault_after(alloc, count)?;
        assert!(&rt; keeps_front(&run_steps(alloc, &mut Target, THREE, turns)?));
        let mut turns = Drive::plain(alloc);
        turns.writes = fault_after(alloc, count)?;
        assert!(&rt; keeps_front(&run_steps(alloc, &mut Target, THREE, turns)?));
    }
    Ok(())
}

#[test]
fn faults_have_their_texts(rt: HostRuntime) -> Result<(), Fail> {
    let alloc = rt.alloc();
    for (octets, written, answered) in [
        (b"GET / HTTP/1.1\r\n\r\n".as_slice(), BAD, 0),
        (b"GET".as_slice(), BAD, 0),
        (b"\r\n".as_slice(), b"".as_slice(), 0),
        (
            b"GET / HTTP/1.0\r\n\r\nGET".as_slice(),
            b"HTTP/1.1 200 OK\r\nContent-Length: 0\r\nConnection: close\r\n\r\n".as_slice(),
            1,
        ),
    ] {
        let wanted = Wanted {
            written,
            answered,
            ..WHOLE
        };
        assert!(&rt;
            ends_so(
                &run_steps(alloc, &mut Echo, octets, Drive::plain(alloc))?,
                wanted
            )
        );
    }
    Ok(())
}

// Counts its calls, and answers as `Echo`.
#[derive(Drop)]
struct Counting(u64);

impl Service for Counting {
    ghost use Rattle.std.specs.Prelude.{Some};
    ghost use Rattle.http_core.specs.Services.{echo_of};

    ghost told = { Some echo_of };

    fn answer(&mut self, alloc: Global, request: &Request) -> Result<Answer, NoMemory> {
        self.0 = self.0.saturating_add(1);
        Echo.answer(alloc, request)
    }
}

#[test]
fn the_service_is_asked_once_a_request(rt: HostRuntime) -> Result<(), Fail> {
    let alloc = rt.alloc();
    let mut counting = Counting(0);
    let driven = run_steps(alloc, &mut counting, THREE, Drive::plain(alloc))?;
    assert_eq!(&rt; counting.0, 3);
    match driven.finished {
        None => assert!(&rt; false),
        Some(finished) => {
            assert_eq!(&rt; finished.answered, 3);
            assert!(&rt; finished.read.as_slice() == THREE);
            assert!(&rt; finished.stream.holds(THREE));
        }
    }
    Ok(())
}
