//! Each call once, on its happy path and on a fault.
use crate::{
    Failed, Got, Job, MemSink, MemSource, MemStream, Put, Read, Refusing, Sink, Source, Spawner,
    StdSink, StdSource, Stream, StreamTurn, Threads, Turn, read_behind, read_whole, run_all,
    write_all,
};
use kj_base::Bytes;
use std::sync::Wait;
use std::test::Fail;
use std::thread;

#[test]
fn reads_to_the_end_or_past_the_limit(rt: HostRuntime) -> Result<(), Fail> {
    let alloc = rt.alloc();
    let text = b"some octets".as_slice();
    for (limit, whole) in [(11, true), (12, true), (10, false), (0, false)] {
        let mut turns = Vec::new(alloc);
        for most in [4, 1, 0] {
            turns.push(Turn::Octets(most))?;
        }
        let mut source = MemSource::new(Bytes::from_slice(alloc, text)?, turns);
        match read_whole(alloc, &mut source, limit) {
            Read::Whole(octets) => assert!(&rt; whole && octets.as_slice() == text),
            Read::TooLong => assert!(&rt; !whole),
            Read::Failed => assert!(&rt; false),
            Read::NoMemory => assert!(&rt; false),
        }
        assert_eq!(&rt; source.faults(), 0);
    }
    let mut faulty = Vec::new(alloc);
    faulty.push(Turn::Fault)?;
    let mut source = MemSource::new(Bytes::from_slice(alloc, text)?, faulty);
    assert!(&rt; matches!(read_whole(alloc, &mut source, 100), Read::Failed));
    assert_eq!(&rt; source.faults(), 1);
    Ok(())
}

#[test]
fn writes_all_or_a_front(rt: HostRuntime) -> Result<(), Fail> {
    let alloc = rt.alloc();
    let mut turns = Vec::new(alloc);
    turns.push(Turn::Fault)?;
    turns.push(Turn::Octets(2))?;
    turns.push(Turn::Octets(3))?;
    let mut sink = MemSink::new(alloc, turns);
    assert_eq!(&rt; write_all(&mut sink, b"some octets"), Err(Failed));
    assert!(&rt; sink.as_slice() == b"some ".as_slice());
    assert_eq!(&rt; sink.faults(), 1);
    assert_eq!(&rt; write_all(&mut sink, b"more"), Ok(()));
    assert!(&rt; sink.as_slice() == b"some more".as_slice());
    Ok(())
}

#[test]
fn streams_give_and_take_in_turns(rt: HostRuntime) -> Result<(), Fail> {
    let alloc = rt.alloc();
    let turns = [
        StreamTurn::Fault,
        StreamTurn::Gap,
        StreamTurn::Octets(2),
        StreamTurn::Octets(0),
    ];
    let mut stream = MemStream::new(
        alloc,
        Bytes::from_slice(alloc, b"some octets")?,
        Vec::from_array(alloc, turns)?,
        Vec::from_array(alloc, turns)?,
    );
    let mut buf = [0u8; 4];
    for got in [
        Got::Bytes(1),
        Got::Bytes(2),
        Got::NotYet,
        Got::Failed,
        Got::Bytes(4),
    ] {
        assert_eq!(&rt; stream.read(&mut buf), got);
    }
    assert!(&rt; buf.as_slice() == b"e oc".as_slice());
    for put in [
        Put::Bytes(1),
        Put::Bytes(2),
        Put::NotYet,
        Put::Failed,
        Put::Bytes(4),
    ] {
        assert_eq!(&rt; stream.write(b"more"), put);
    }
    assert!(&rt; stream.written() == b"mmomore".as_slice());
    assert!(&rt; stream.holds(b"some octets"));
    assert!(&rt; !stream.holds(b"some octet"));
    assert_eq!(&rt; (stream.faults(), stream.pauses()), (2, 2));
    Ok(())
}

#[test]
fn reads_stand_behind_what_is_there(rt: HostRuntime) -> Result<(), Fail> {
    let alloc = rt.alloc();
    let turns = [StreamTurn::Fault, StreamTurn::Gap, StreamTurn::Octets(3)];
    let mut stream = MemStream::new(
        alloc,
        Bytes::from_slice(alloc, b"octets")?,
        Vec::from_array(alloc, turns)?,
        Vec::new(alloc),
    );
    let mut octets = Bytes::from_slice(alloc, b"some ")?;
    for (room, got, text) in [
        (4, Got::Bytes(3), b"some oct".as_slice()),
        (4, Got::NotYet, b"some oct".as_slice()),
        (4, Got::Failed, b"some oct".as_slice()),
        (2, Got::Bytes(2), b"some octet".as_slice()),
        (2, Got::Bytes(1), b"some octets".as_slice()),
        (2, Got::End, b"some octets".as_slice()),
    ] {
        assert_eq!(&rt; read_behind(alloc, &mut stream, &mut octets, room)?, got);
        assert!(&rt; octets.as_slice() == text);
    }
    Ok(())
}

#[test]
fn system_readers_and_writers(rt: HostRuntime) -> Result<(), Fail> {
    let alloc = rt.alloc();
    let mut source = StdSource::new(b"abc".as_slice());
    let mut buf = [0u8; 2];
    assert_eq!(&rt; source.read(&mut buf), Ok(2));
    assert_eq!(&rt; source.read(&mut buf), Ok(1));
    assert_eq!(&rt; source.read(&mut buf), Ok(0));
    assert_eq!(&rt; source.faults(), 0);
    let mut sink = StdSink::new(Vec::new(alloc));
    assert_eq!(&rt; sink.write(b"abc"), Ok(3));
    assert_eq!(&rt; sink.faults(), 0);
    Ok(())
}

// A job that doubles its number.
#[derive(Drop)]
struct Doubling(u32);

impl Job for Doubling {
    ghost use Rattle.std.specs.Prelude.{◌≡◌, ◌+◌, ◌<◌, ◌^◌};

    ghost ready = { λ job. job.0 < 2 ^ 31 };

    ghost done = { λ before after. after.0 ≡ before.0 + before.0 };

    fn work<R: Wait + thread::Threads + Sync>(&mut self, _rt: &R) {
        self.0 += self.0;
    }
}

#[test]
fn jobs_come_back_in_order(rt: HostRuntime) -> Result<(), Fail> {
    let alloc = rt.alloc();
    let mut refusing = Refusing::new(true);
    match run_all(&rt, &mut refusing, Vec::from_array(alloc, [Doubling(1)])?) {
        Ok(_) => assert!(&rt; false),
        Err(not_started) => assert!(&rt; not_started.jobs.iter().all(|job| job.0 == 1)),
    }
    assert_eq!(&rt; refusing.faults(), 1);
    let mut spawner = Threads;
    match run_all(
        &rt,
        &mut spawner,
        Vec::from_array(alloc, [Doubling(1), Doubling(2), Doubling(3)])?,
    ) {
        Ok(jobs) => {
            let numbers: Vec<u32> = jobs.iter().map(|job| job.0).collect(alloc)?;
            assert!(&rt; numbers.as_slice() == [2, 4, 6].as_slice());
        }
        Err(_) => assert!(&rt; false),
    }
    assert_eq!(&rt; spawner.faults(), 0);
    Ok(())
}
