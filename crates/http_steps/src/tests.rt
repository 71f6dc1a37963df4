//! Servers whose steps are taken by hand, in the order in which a loop takes them.
use crate::{ANSWER, DRAIN, HttpSteps, MAX_CONNECTIONS, READ};
use http_core::{Answer, Echo, Request, Service, Target};
use http_stream::{Finished, Served};
use kj_base::{Bytes, Ending, NoMemory, NodeId, Outcome, StepId, Words};
use kj_io::{MemStream, StreamTurn};
use promise_commands::{Action, Command, Steps};
use std::alloc::Global;
use std::collections::VecDeque;
use std::test::Fail;

// More steps than any of the tests needs.
const STEPS: u32 = 4_000;

// As many octets as any stream gives or takes in a test that counts them.
const PLACES: u32 = 128;

const THREE: &[u8] = b"GET /a HTTP/1.1\r\nHost: h\r\n\r\nHEAD /a HTTP/1.1\r\nHost: h\r\n\r\n\
POST /b HTTP/1.1\r\nHost: h\r\nContent-Length: 3\r\n\r\nabc";

const REPLIES: &[u8] = b"HTTP/1.1 200 OK\r\nContent-Length: 6\r\n\r\nGET /a\
HTTP/1.1 200 OK\r\nContent-Length: 7\r\n\r\nHTTP/1.1 200 OK\r\nContent-Length: 7\r\n\r\nPOST /b";

const FIRST: &[u8] = b"HTTP/1.1 200 OK\r\nContent-Length: 6\r\n\r\nGET /a";

const CLOSING: &[u8] = b"HTTP/1.1 200 OK\r\nContent-Length: 6\r\nConnection: close\r\n\r\nGET /a";

const BAD: &[u8] = b"HTTP/1.1 400 Bad Request\r\nContent-Length: 0\r\nConnection: close\r\n\r\n";

const TWICE: &[u8] = b"GET / HTTP/1.1\r\nHost: a\r\n\r\nGET / HTTP/1.1\r\nHost: a\r\n\r\n";

// When the drain begins.
#[derive(Clone, Copy, PartialEq, Eq)]
enum DrainTime {
    Never,
    BeforeAnAnswer,
    // While a connection that answered waits for the next request.
    InAGap,
}

// A step that comes, and whether the connection waited for it.
#[derive(Clone, Copy)]
struct Event {
    step: u32,
    place: u32,
    waited: bool,
}

// What the steps of a server came to.
#[derive(Clone, Copy)]
struct Driven {
    answers: u32,
    exceptions: u32,
    // A place had a cell to wait for exactly where its last action made one.
    cells_agree: bool,
}

fn begins_drain(time: DrainTime, event: Event, answers: u32) -> bool {
    match time {
        DrainTime::Never => false,
        DrainTime::BeforeAnAnswer => event.step == ANSWER,
        DrainTime::InAGap => event.step == READ && event.waited && answers > 0,
    }
}

// The step of the promise that an action ends with, and whether it waits for a cell.
fn following(action: &Action) -> Option<(u32, bool)> {
    let Ending::Promise(_) = &action.ending else {
        return None;
    };
    let mut step = None;
    let mut waits = false;
    for command in action.commands.as_slice() {
        match command {
            Command::Chain { value, .. } => step = *value,
            Command::Pair { .. } => waits = true,
            _ => {}
        }
    }
    let step: StepId = step?;
    Some((step.0, waits))
}

fn value(place: u32) -> Outcome {
    let mut words = Words::new();
    let _room = words.push(place as u64);
    Outcome::Value(words)
}

// Takes steps until none comes; a connection that waits is woken at once, behind all others.
fn drive<V: Service + Drop>(
    alloc: Global,
    server: &mut HttpSteps<V, MemStream>,
    count: u32,
    time: DrainTime,
) -> Result<Driven, NoMemory> {
    let mut driven = Driven {
        answers: 0,
        exceptions: 0,
        cells_agree: true,
    };
    let mut events = VecDeque::new(alloc);
    for place in 0..count {
        events.push_back(Event {
            step: READ,
            place,
            waited: false,
        })?;
    }
    for _ in 0..STEPS {
        let Some(event) = events.pop_front() else {
            break;
        };
        if begins_drain(time, event, driven.answers) {
            let _drained = server.run(NodeId(1), StepId(DRAIN), &Outcome::Value(Words::new()))?;
        }
        let action = server.run(NodeId(1), StepId(event.step), &value(event.place))?;
        if event.step == ANSWER {
            driven.answers = driven.answers.saturating_add(1);
        }
        if let Ending::Throw(_) = &action.ending {
            driven.exceptions = driven.exceptions.saturating_add(1);
        }
        let mut waits_now = false;
        if let Some((step, waits)) = following(&action) {
            waits_now = waits;
            events.push_back(Event {
                step,
                place: event.place,
                waited: waits,
            })?;
        }
        if server.waiting(event.place).is_some() != waits_now {
            driven.cells_agree = false;
        }
    }
    Ok(driven)
}

// The turns of a stream.
#[derive(Drop)]
struct Turns {
    reads: Vec<StreamTurn>,
    writes: Vec<StreamTurn>,
}

impl Turns {
    fn plain(alloc: Global) -> Turns {
        Turns {
            reads: Vec::new(alloc),
            writes: Vec::new(alloc),
        }
    }

    // A gap before each octet.
    fn gaps(alloc: Global) -> Result<Turns, NoMemory> {
        let mut turns = Turns::plain(alloc);
        for _ in 0..250 {
            turns.reads.push(StreamTurn::Octets(1))?;
            turns.reads.push(StreamTurn::Gap)?;
            turns.writes.push(StreamTurn::Octets(1))?;
            turns.writes.push(StreamTurn::Gap)?;
        }
        Ok(turns)
    }
}

// Puts a connection over these octets at a place, where it is free.
fn admit_octets<V: Service + Drop>(
    alloc: Global,
    server: &mut HttpSteps<V, MemStream>,
    place: u32,
    octets: &[u8],
    turns: Turns,
) -> Result<bool, NoMemory> {
    if !server.is_free(place) {
        return Ok(false);
    }
    let octets = Bytes::from_slice(alloc, octets)?;
    let commands = server.admit(
        place,
        MemStream::new(alloc, octets, turns.reads, turns.writes),
    );
    Ok(commands.as_slice().len() == 3)
}

// One connection, served to its end.
fn serve_one<V: Service + Drop>(
    alloc: Global,
    service: V,
    octets: &[u8],
    turns: Turns,
    time: DrainTime,
) -> Result<(Option<Finished<MemStream>>, Driven), NoMemory> {
    let mut server = match HttpSteps::new(alloc, service, 1) {
        Ok(server) => server,
        Err(_) => return Err(NoMemory),
    };
    let _admitted = admit_octets(alloc, &mut server, 0, octets, turns)?;
    let driven = drive(alloc, &mut server, 1, time)?;
    match server.take(0) {
        None => Ok((None, driven)),
        Some(served) => Ok((Some(served.into_finished()), driven)),
    }
}

// Whether it ended with these octets written, and wasn't abandoned.
fn wrote(served: &(Option<Finished<MemStream>>, Driven), written: &[u8]) -> bool {
    match &served.0 {
        None => false,
        Some(finished) => {
            finished.written.as_slice() == written
                && finished.stream.written() == written
                && !finished.abandoned
                && served.1.cells_agree
                && served.1.exceptions == 0
        }
    }
}

fn is_served<V: Service + Drop>(
    alloc: Global,
    plain: V,
    paused: V,
    octets: &[u8],
    written: &[u8],
) -> Result<bool, NoMemory> {
    let plain = serve_one(alloc, plain, octets, Turns::plain(alloc), DrainTime::Never)?;
    let gaps = serve_one(alloc, paused, octets, Turns::gaps(alloc)?, DrainTime::Never)?;
    Ok(wrote(&plain, written) && wrote(&gaps, written))
}

// The service `target`, over a stream without gaps and over one with a gap at each octet.
#[test]
fn targets_are_answered(rt: HostRuntime) -> Result<(), Fail> {
    let alloc = rt.alloc();
    for (octets, written) in [
        (THREE, REPLIES),
        (
            b"GET /x HTTP/1.1\r\nHost: localhost:8080\r\nUser-Agent: curl/8.0\r\n\
Accept: */*\r\n\r\n"
                .as_slice(),
            b"HTTP/1.1 200 OK\r\nContent-Length: 6\r\n\r\nGET /x".as_slice(),
        ),
        (
            b"GET /0/0 HTTP/1.1\r\nHost: kj.test\r\n\r\n".as_slice(),
            b"HTTP/1.1 200 OK\r\nContent-Length: 8\r\n\r\nGET /0/0".as_slice(),
        ),
        (
            b"GET /chunk HTTP/1.1\r\nHost: a\r\n\r\n".as_slice(),
            b"HTTP/1.1 200 OK\r\nTransfer-Encoding: chunked\r\n\r\na\r\nGET /chunk\r\n0\r\n\r\n".as_slice(),
        ),
        (
            b"GET /empty HTTP/1.1\r\nHost: a\r\n\r\n".as_slice(),
            b"HTTP/1.1 204 No Content\r\n\r\n".as_slice(),
        ),
    ] {
        assert!(&rt; is_served(alloc, Target, Target, octets, written)?);
    }
    Ok(())
}

// The service `echo`.
#[test]
fn bodies_and_faults_are_answered(rt: HostRuntime) -> Result<(), Fail> {
    let alloc = rt.alloc();
    for (octets, written) in [
        (
            b"POST / HTTP/1.1\r\nHost: a\r\nTransfer-Encoding: chunked\r\n\r\n\
3;x=1\r\nabc\r\n0\r\nT: 1\r\n\r\nGET / HTTP/1.1\r\nHost: a\r\n\r\n"
                .as_slice(),
            b"HTTP/1.1 200 OK\r\nContent-Length: 3\r\n\r\nabc\
HTTP/1.1 200 OK\r\nContent-Length: 0\r\n\r\n"
                .as_slice(),
        ),
        (b"GET / HTTP/1.1\r\n\r\n".as_slice(), BAD),
        (
            b"GET / HTTP/1.0\r\n\r\n".as_slice(),
            b"HTTP/1.1 200 OK\r\nContent-Length: 0\r\nConnection: close\r\n\r\n".as_slice(),
        ),
        (b"\r\n".as_slice(), b"".as_slice()),
        (b"GET / HTTP/1.1\r\nHost: a\r\n".as_slice(), BAD),
        (
            b"POST / HTTP/1.1\r\nHost: a\r\nContent-Length: 5\r\n\r\nab".as_slice(),
            BAD,
        ),
    ] {
        assert!(&rt; is_served(alloc, Echo, Echo, octets, written)?);
    }
    Ok(())
}

// Whether one request was answered, and a drain ended the connection.
fn is_drained(served: &(Option<Finished<MemStream>>, Driven), written: &[u8]) -> bool {
    match &served.0 {
        None => false,
        Some(finished) => finished.answered == 1 && finished.drained && wrote(served, written),
    }
}

#[test]
fn a_drain_lets_one_answer_out(rt: HostRuntime) -> Result<(), Fail> {
    let alloc = rt.alloc();
    let time = DrainTime::BeforeAnAnswer;
    let plain = serve_one(alloc, Target, THREE, Turns::plain(alloc), time)?;
    assert!(&rt; is_drained(&plain, CLOSING));
    let gaps = serve_one(alloc, Target, THREE, Turns::gaps(alloc)?, time)?;
    assert!(&rt; is_drained(&gaps, CLOSING));
    let gaps = serve_one(alloc, Target, THREE, Turns::gaps(alloc)?, DrainTime::InAGap)?;
    assert!(&rt; is_drained(&gaps, FIRST));
    Ok(())
}

// So many turns that let one octet pass, and then a fault.
fn fault_after(alloc: Global, count: u32) -> Result<Vec<StreamTurn>, NoMemory> {
    let mut turns = Vec::new(alloc);
    turns.push(StreamTurn::Fault)?;
    for _ in 0..count {
        turns.push(StreamTurn::Octets(1))?;
    }
    Ok(turns)
}

// Whether a connection ended whole.
fn is_whole(served: Option<Served<Target, MemStream>>) -> bool {
    match served {
        None => false,
        Some(served) => {
            let finished = served.into_finished();
            finished.written.as_slice() == REPLIES && !finished.abandoned && finished.answered == 3
        }
    }
}

// Whether a connection ended whole, or was abandoned with a front of all replies.
fn keeps_front(served: Option<Served<Target, MemStream>>, exceptions: u32) -> bool {
    match served {
        None => false,
        Some(served) => {
            let finished = served.into_finished();
            if !finished.abandoned {
                return exceptions == 0 && finished.written.as_slice() == REPLIES;
            }
            exceptions == 1 && REPLIES.starts_with(finished.written.as_slice())
        }
    }
}

// Whether a connection with these turns has its octets, and those beside it are served whole.
fn fails_alone(alloc: Global, turns: Turns) -> Result<bool, NoMemory> {
    let mut server = match HttpSteps::new(alloc, Target, 3) {
        Ok(server) => server,
        Err(_) => return Err(NoMemory),
    };
    let _left = admit_octets(alloc, &mut server, 0, THREE, Turns::plain(alloc))?;
    let _middle = admit_octets(alloc, &mut server, 1, THREE, turns)?;
    let _right = admit_octets(alloc, &mut server, 2, THREE, Turns::plain(alloc))?;
    let driven = drive(alloc, &mut server, 3, DrainTime::Never)?;
    let left = is_whole(server.take(0));
    let middle = keeps_front(server.take(1), driven.exceptions);
    let right = is_whole(server.take(2));
    Ok(driven.cells_agree && left && middle && right)
}

// The task of a connection whose stream fails throws once, and the connections beside it go on.
#[test]
fn each_call_fails_in_turn(rt: HostRuntime) -> Result<(), Fail> {
    let alloc = rt.alloc();
    for count in 0..PLACES {
        let mut turns = Turns::plain(alloc);
        turns.reads = fault_after(alloc, count)?;
        assert!(&rt; fails_alone(alloc, turns)?);
        let mut turns = Turns::plain(alloc);
        turns.writes = fault_after(alloc, count)?;
        assert!(&rt; fails_alone(alloc, turns)?);
    }
    Ok(())
}

// So many octets that pass at once, and then a gap.
fn gap_after(alloc: Global, count: u32) -> Result<Vec<StreamTurn>, NoMemory> {
    let mut turns = Vec::new(alloc);
    turns.push(StreamTurn::Gap)?;
    if count > 0 {
        turns.push(StreamTurn::Octets(count as usize))?;
    }
    Ok(turns)
}

#[test]
fn a_gap_at_each_octet_changes_nothing(rt: HostRuntime) -> Result<(), Fail> {
    let alloc = rt.alloc();
    for count in 0..PLACES {
        let mut turns = Turns::plain(alloc);
        turns.reads = gap_after(alloc, count)?;
        turns.writes = gap_after(alloc, count)?;
        let served = serve_one(alloc, Target, THREE, turns, DrainTime::Never)?;
        assert!(&rt; wrote(&served, REPLIES));
    }
    Ok(())
}

// Answers with how many requests it answered before, one digit.
#[derive(Drop)]
struct Counting(u8);

impl Service for Counting {
    ghost use Rattle.std.specs.Prelude.{None};

    ghost told = { None };

    fn answer(&mut self, alloc: Global, request: &Request) -> Result<Answer, NoMemory> {
        let body = Bytes::from_slice(alloc, &[b'0'.saturating_add(self.0)])?;
        self.0 = self.0.saturating_add(1);
        Ok(Answer {
            status: 200,
            body,
            chunked: false,
        })
    }
}

// Three connections that take turns, and what each has written.
#[derive(Drop)]
struct InTurn {
    gaps: bool,
    time: DrainTime,
    answers: u32,
    written: [&'static [u8]; 3],
}

const IN_TURN: [&[u8]; 3] = [
    b"HTTP/1.1 200 OK\r\nContent-Length: 1\r\n\r\n0HTTP/1.1 200 OK\r\nContent-Length: 1\r\n\r\n3",
    b"HTTP/1.1 200 OK\r\nContent-Length: 1\r\n\r\n1HTTP/1.1 200 OK\r\nContent-Length: 1\r\n\r\n4",
    b"HTTP/1.1 200 OK\r\nContent-Length: 1\r\n\r\n2HTTP/1.1 200 OK\r\nContent-Length: 1\r\n\r\n5",
];

const CLOSED: [&[u8]; 3] = [
    b"HTTP/1.1 200 OK\r\nContent-Length: 1\r\nConnection: close\r\n\r\n0",
    b"HTTP/1.1 200 OK\r\nContent-Length: 1\r\nConnection: close\r\n\r\n1",
    b"HTTP/1.1 200 OK\r\nContent-Length: 1\r\nConnection: close\r\n\r\n2",
];

// Whether a connection ended at its place with these octets, so many requests answered.
fn ends_with(
    served: Option<Served<Counting, MemStream>>,
    place: u32,
    written: &[u8],
    answered: u64,
) -> bool {
    match served {
        None => false,
        Some(served) => {
            let at_place = served.index() == place;
            let finished = served.into_finished();
            at_place
                && finished.written.as_slice() == written
                && finished.answered == answered
                && finished.stream.holds(TWICE)
        }
    }
}

// Whether three connections come to this, with a service that counts.
fn takes_turns(alloc: Global, case: &InTurn) -> Result<bool, NoMemory> {
    let mut server = match HttpSteps::new(alloc, Counting(0), 3) {
        Ok(server) => server,
        Err(_) => return Err(NoMemory),
    };
    let mut good = server.first().as_slice().len() == 6;
    for place in 0..3 {
        let turns = if case.gaps {
            Turns::gaps(alloc)?
        } else {
            Turns::plain(alloc)
        };
        good = admit_octets(alloc, &mut server, place, TWICE, turns)? && good;
    }
    let driven = drive(alloc, &mut server, 3, case.time)?;
    good = good && driven.cells_agree && driven.answers == case.answers && driven.exceptions == 0;
    let answered = (case.answers / 3) as u64;
    for place in 0..3u32 {
        let written = case.written[place as usize];
        good = ends_with(server.take(place), place, written, answered) && good;
    }
    let taken = server.take(0).is_none();
    Ok(good && taken && server.service().0 as u32 == case.answers)
}

// Each gets its own octets back, one answer in a turn, and the service is asked once a request;
// also where a drain begins before the first answer.
#[test]
fn connections_take_turns(rt: HostRuntime) -> Result<(), Fail> {
    let alloc = rt.alloc();
    for (gaps, time, answers, written) in [
        (false, DrainTime::Never, 6, IN_TURN),
        (true, DrainTime::Never, 6, IN_TURN),
        (false, DrainTime::BeforeAnAnswer, 3, CLOSED),
        (true, DrainTime::BeforeAnAnswer, 3, CLOSED),
    ] {
        let case = InTurn {
            gaps,
            time,
            answers,
            written,
        };
        assert!(&rt; takes_turns(alloc, &case)?);
    }
    Ok(())
}

#[test]
fn a_service_comes_back(rt: HostRuntime) -> Result<(), Fail> {
    let alloc = rt.alloc();
    let refused: Result<HttpSteps<Counting, MemStream>, (NoMemory, Counting)> = HttpSteps::new(
        alloc,
        Counting(7),
        MAX_CONNECTIONS + 1,
    );
    match refused {
        Ok(_) => assert!(&rt; false),
        Err((_, service)) => assert_eq!(&rt; service.0, 7),
    }
    Ok(())
}
