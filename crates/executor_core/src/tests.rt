//! Every row of the table of calls, and ends that are asked in an order that does not rise, on boards of five requests.
ghost use Rattle.std.specs.Prelude.{◌≡◌, ◌<◌, ◌≤◌, ℕ, length, [], true, false, slice_get, Some, vec_capacity};
ghost use Rattle.executor_core.specs.Acts.{MayAct, IsOwn, IsRunning, NoneRuns, running_state, spent_state};

use crate::board::Board;
use crate::{Call, Entries, Log, Reply, Request, State};
use kj_base::{Exception, Kind, Outcome, StepId, Words};
use std::test::Fail;

fn is_running(q: &Request) -> bool
    ensures { result ≡ running_state q.now.state }
{
    match q.state {
        State::Executing => true,
        State::Canceling => true,
        State::Stopping => true,
        _ => false,
    }
}

fn is_spent(q: &Request) -> bool
    ensures { result ≡ spent_state q.now.state }
{
    match q.state {
        State::Spent => true,
        _ => false,
    }
}

fn none_runs(all: &[Request]) -> bool
    ensures { result ≡ true → (r : ℕ) (q : Request) → slice_get all.now r ≡ Some q
        → running_state q.state ≡ false }
{
    for i in 0..all.len() {
        if is_running(&all[i]) {
            return false;
        }
    }
    true
}

fn runs(all: &[Request], request: u32) -> bool
    ensures { result ≡ true → (q : Request) × (slice_get all.now request ≡ Some q)
        × (running_state q.state ≡ true) }
{
    match all.get(request as usize) {
        Some(q) => is_running(q),
        None => false,
    }
}

fn is_own(all: &[Request], caller: u32, request: u32) -> bool
    ensures { result ≡ true → (q : Request) × (slice_get all.now request ≡ Some q)
        × (q.caller ≡ caller) × (spent_state q.state ≡ false) }
{
    match all.get(request as usize) {
        Some(q) => q.caller == caller && !is_spent(q),
        None => false,
    }
}

impl Board {
    // Whether the caller may make the call.
    fn may_act(&self, caller: u32, call: &Call) -> bool
        ensures { result ≡ true → MayAct self.now caller call.now }
    {
        match call {
            Call::Submit { step: _, words: _ } => true,
            Call::Next => caller == 0,
            Call::Finish {
                request,
                outcome: _,
            } => caller == 0 && runs(self.requests.as_slice(), *request),
            Call::Cancel { request } => is_own(self.requests.as_slice(), caller, *request),
            Call::Collect { request } => is_own(self.requests.as_slice(), caller, *request),
            Call::Close => caller == 0 && none_runs(self.requests.as_slice()),
        }
    }
}

fn word(value: u64) -> Words {
    let mut words = Words::new();
    words.push(value);
    words
}

fn failed(code: u32) -> Outcome {
    Outcome::Broken(Exception {
        kind: Kind::Failed,
        code,
    })
}

fn is_same_outcome(a: &Outcome, b: &Outcome) -> bool {
    match (a, b) {
        (Outcome::Value(a), Outcome::Value(b)) => a.as_slice() == b.as_slice(),
        (Outcome::Broken(a), Outcome::Broken(b)) => *a == *b,
        _ => false,
    }
}

fn is_same(a: &Reply, b: &Reply) -> bool {
    match (a, b) {
        (Reply::Closed, Reply::Closed) => true,
        (Reply::Full, Reply::Full) => true,
        (Reply::Ticket(a), Reply::Ticket(b)) => *a == *b,
        (
            Reply::Start {
                request: a,
                step: s,
                words: v,
            },
            Reply::Start {
                request: b,
                step: t,
                words: w,
            },
        ) => *a == *b && *s == *t && v.as_slice() == w.as_slice(),
        (Reply::Stop(a), Reply::Stop(b)) => *a == *b,
        (Reply::Empty, Reply::Empty) => true,
        (Reply::Done, Reply::Done) => true,
        (Reply::Withdrawn, Reply::Withdrawn) => true,
        (Reply::Asked, Reply::Asked) => true,
        (Reply::TooLate, Reply::TooLate) => true,
        (Reply::Ended(a), Reply::Ended(b)) => is_same_outcome(a, b),
        (Reply::NotYet, Reply::NotYet) => true,
        _ => false,
    }
}

fn disconnected() -> Outcome {
    Outcome::Broken(Exception {
        kind: Kind::Disconnected,
        code: 3,
    })
}

fn submit(value: u64) -> Call {
    Call::Submit {
        step: StepId(7),
        words: word(value),
    }
}

fn start(request: u32, value: u64) -> Reply {
    Reply::Start {
        request,
        step: StepId(7),
        words: word(value),
    }
}

fn finish(request: u32) -> Call {
    Call::Finish {
        request,
        outcome: failed(2),
    }
}

// Whether the board answers each call so, and the caller may make it.
fn answers_so(board: &mut Board, rows: Vec<(u32, Call, Reply)>) -> bool {
    for (caller, call, want) in rows {
        if !board.may_act(caller, &call) {
            return false;
        }
        let reply = board.act(caller, call);
        if !is_same(&reply, &want) {
            return false;
        }
    }
    true
}

#[test]
fn the_board_answers_by_the_table(rt: HostRuntime) -> Result<(), Fail> {
    let alloc = rt.alloc();
    let mut board = Board::new(alloc, 5)?;
    let rows = Vec::from_array(
        alloc,
        [
            (0, Call::Next, Reply::Empty),
            (1, submit(5), Reply::Ticket(0)),
            (1, Call::Collect { request: 0 }, Reply::NotYet),
            (2, submit(6), Reply::Ticket(1)),
            (0, submit(7), Reply::Ticket(2)),
            (2, Call::Cancel { request: 1 }, Reply::Withdrawn),
            (0, Call::Next, start(0, 5)),
            (0, Call::Next, start(2, 7)),
            (0, Call::Next, Reply::Empty),
            (0, Call::Cancel { request: 2 }, Reply::Asked),
            (1, Call::Cancel { request: 0 }, Reply::Asked),
            (1, Call::Cancel { request: 0 }, Reply::TooLate),
            (1, submit(8), Reply::Ticket(3)),
            (0, Call::Next, start(3, 8)),
            (0, Call::Next, Reply::Stop(0)),
            (0, Call::Next, Reply::Stop(2)),
            (0, Call::Next, Reply::Empty),
            (1, Call::Collect { request: 0 }, Reply::NotYet),
            (0, finish(0), Reply::Done),
            (1, Call::Cancel { request: 0 }, Reply::TooLate),
            (1, Call::Collect { request: 0 }, Reply::Ended(failed(2))),
            (0, finish(2), Reply::Done),
            (0, finish(3), Reply::Done),
            (1, submit(4), Reply::Ticket(4)),
            (1, submit(9), Reply::Full),
            (0, Call::Close, Reply::Done),
            (0, Call::Close, Reply::Done),
            (1, submit(9), Reply::Closed),
            (
                1,
                Call::Collect { request: 4 },
                Reply::Ended(disconnected()),
            ),
            (0, Call::Collect { request: 2 }, Reply::Ended(failed(2))),
        ],
    )?;
    assert!(rt; answers_so(&mut board, rows));
    assert!(rt; !board.may_act(1, &Call::Collect { request: 0 }) && !board.may_act(0, &finish(3)));
    Ok(())
}

#[test]
fn the_least_that_is_asked_is_told_first(rt: HostRuntime) -> Result<(), Fail> {
    let alloc = rt.alloc();
    let mut board = Board::new(alloc, 5)?;
    let cancel = |request| Call::Cancel { request };
    let rows = Vec::from_array(
        alloc,
        [
            (1, submit(5), Reply::Ticket(0)),
            (1, submit(6), Reply::Ticket(1)),
            (1, submit(7), Reply::Ticket(2)),
            (1, submit(8), Reply::Ticket(3)),
            (1, submit(9), Reply::Ticket(4)),
            (0, Call::Next, start(0, 5)),
            (0, Call::Next, start(1, 6)),
            (0, Call::Next, start(2, 7)),
            (0, Call::Next, start(3, 8)),
            (0, Call::Next, start(4, 9)),
            (1, cancel(3), Reply::Asked),
            (1, cancel(1), Reply::Asked),
            (1, cancel(4), Reply::Asked),
            (0, finish(1), Reply::Done),
            (0, Call::Next, Reply::Stop(3)),
            (1, cancel(2), Reply::Asked),
            (1, cancel(0), Reply::Asked),
            (0, Call::Next, Reply::Stop(0)),
            (0, finish(2), Reply::Done),
            (0, finish(0), Reply::Done),
            (1, cancel(3), Reply::TooLate),
            (0, Call::Next, Reply::Stop(4)),
            (0, Call::Next, Reply::Empty),
            (0, finish(4), Reply::Done),
            (0, finish(3), Reply::Done),
            (0, Call::Next, Reply::Empty),
            (1, Call::Collect { request: 2 }, Reply::Ended(failed(2))),
            (0, Call::Close, Reply::Done),
        ],
    )?;
    assert!(rt; answers_so(&mut board, rows));
    Ok(())
}

fn is_same_call(a: &Call, b: &Call) -> bool {
    match (a, b) {
        (Call::Submit { step: s, words: v }, Call::Submit { step: t, words: w }) => {
            *s == *t && v.as_slice() == w.as_slice()
        }
        (Call::Next, Call::Next) => true,
        (
            Call::Finish {
                request: a,
                outcome: v,
            },
            Call::Finish {
                request: b,
                outcome: w,
            },
        ) => *a == *b && is_same_outcome(v, w),
        (Call::Cancel { request: a }, Call::Cancel { request: b }) => *a == *b,
        (Call::Collect { request: a }, Call::Collect { request: b }) => *a == *b,
        (Call::Close, Call::Close) => true,
        _ => false,
    }
}

fn finished(request: u32, outcome: Outcome) -> Call {
    Call::Finish { request, outcome }
}

fn value(word: u64) -> Outcome {
    let mut words = Words::new();
    words.push(word);
    words.push(2);
    Outcome::Value(words)
}

// An entry of each kind, with words and without. There is room for ten.
fn note_all(log: &mut Log)
    requires { (log.old.entries ≡ []) × (log.old.room ≡ 10) }
    ensures { length log.new.entries ≡ 10 }
{
    log.submit(1, 0, StepId(7), &word(5));
    log.submit(2, 1, StepId(8), &Words::new());
    log.start(0, StepId(7), &word(5));
    log.ask(1, 0);
    log.stop(0);
    log.finish(0, &value(6));
    log.finish(1, &failed(4));
    log.collect(1, 0, &value(6));
    log.withdraw(2, 1);
    log.close();
}

#[test]
fn a_log_gives_its_entries_back(rt: HostRuntime) -> Result<(), Fail> {
    let mut log = Log::new(rt.alloc(), 10)?;
    note_all(&mut log);
    assert!(rt; log.len() == 10);
    let entries = Entries::from_log(log);
    assert!(rt; entries.len() == 10);
    let want = Vec::from_array(
        rt.alloc(),
        [
            (1, submit(5), Reply::Ticket(0)),
            (
                2,
                Call::Submit {
                    step: StepId(8),
                    words: Words::new(),
                },
                Reply::Ticket(1),
            ),
            (0, Call::Next, start(0, 5)),
            (1, Call::Cancel { request: 0 }, Reply::Asked),
            (0, Call::Next, Reply::Stop(0)),
            (0, finished(0, value(6)), Reply::Done),
            (0, finished(1, failed(4)), Reply::Done),
            (1, Call::Collect { request: 0 }, Reply::Ended(value(6))),
            (2, Call::Cancel { request: 1 }, Reply::Withdrawn),
            (0, Call::Close, Reply::Done),
        ],
    )?;
    let found = entries.to_vec(rt.alloc())?;
    assert!(rt; found.len() == want.len());
    for (entry, (caller, call, reply)) in found.iter().zip(want.iter()) {
        assert!(rt; entry.caller == *caller);
        assert!(rt; is_same_call(&entry.call, call));
        assert!(rt; is_same(&entry.reply, reply));
    }
    Ok(())
}

#[test]
fn an_entry_is_read_at_its_place(rt: HostRuntime) -> Result<(), Fail> {
    let mut log = Log::new(rt.alloc(), 10)?;
    note_all(&mut log);
    let entries = Entries::from_log(log);
    assert!(rt; is_same_call(&entries.at(6).call, &finished(1, failed(4))));
    assert!(rt; is_same(&entries.at(7).reply, &Reply::Ended(value(6))));
    Ok(())
}
