//! Calls of one thread on a small executor, worked out by hand, with the history that they leave.
ghost use Rattle.std.specs.Prelude.{◌≡◌};
ghost use Rattle.xthread.specs.Told.{IsReady, Holds};
ghost use Rattle.executor_tests.specs.Callers.{IsIdle, HasOne, IsIdleTarget};

use crate::both::ask_both;
use crate::item::Item;
use crate::submitter::one_word;
use crate::tally::Tally;
use executor_core::{Call, Entry, NotTaken, Reply};
use kj_base::{Exception, Kind, Outcome, StepId, Words};
use std::process::Abort;
use std::sync::Wait;
use std::test::Fail;
use xthread::{Back, Cancelled, Collected, Executor, ExecutorPass, Next, Ticket};

const FAILED: Exception = Exception {
    kind: Kind::Failed,
    code: 2,
};

const GONE: Exception = Exception {
    kind: Kind::Disconnected,
    code: 3,
};

// The payloads differ in their marks; the step and words of each submission are the same.
fn item(mark: u64) -> Item
    ensures { (result.step ≡ 7) × (result.word ≡ 5) }
{
    Item {
        step: 7,
        word: 5,
        mark,
    }
}

fn submit(caller: u32, request: u32) -> Entry {
    Entry {
        caller,
        call: Call::Submit {
            step: StepId(7),
            words: one_word(5),
        },
        reply: Reply::Ticket(request),
    }
}

fn start(request: u32) -> Entry {
    Entry {
        caller: 0,
        call: Call::Next,
        reply: Reply::Start {
            request,
            step: StepId(7),
            words: one_word(5),
        },
    }
}

fn stop(request: u32) -> Entry {
    Entry {
        caller: 0,
        call: Call::Next,
        reply: Reply::Stop(request),
    }
}

fn finish(request: u32, exception: Exception) -> Entry {
    Entry {
        caller: 0,
        call: Call::Finish {
            request,
            outcome: Outcome::Broken(exception),
        },
        reply: Reply::Done,
    }
}

fn cancel(caller: u32, request: u32, reply: Reply) -> Entry {
    Entry {
        caller,
        call: Call::Cancel { request },
        reply,
    }
}

fn collect(caller: u32, request: u32, exception: Exception) -> Entry {
    Entry {
        caller,
        call: Call::Collect { request },
        reply: Reply::Ended(Outcome::Broken(exception)),
    }
}

fn close() -> Entry {
    Entry {
        caller: 0,
        call: Call::Close,
        reply: Reply::Done,
    }
}

fn is_same_outcome(a: &Outcome, b: &Outcome) -> bool {
    match (a, b) {
        (Outcome::Value(a), Outcome::Value(b)) => a.as_slice() == b.as_slice(),
        (Outcome::Broken(a), Outcome::Broken(b)) => *a == *b,
        _ => false,
    }
}

fn is_same_call(a: &Call, b: &Call) -> bool {
    match (a, b) {
        (Call::Submit { step: s, words: v }, Call::Submit { step: t, words: w }) => {
            *s == *t && v.as_slice() == w.as_slice()
        }
        (Call::Next, Call::Next) => true,
        (
            Call::Finish {
                request: a,
                outcome: o,
            },
            Call::Finish {
                request: b,
                outcome: p,
            },
        ) => *a == *b && is_same_outcome(o, p),
        (Call::Cancel { request: a }, Call::Cancel { request: b }) => *a == *b,
        (Call::Collect { request: a }, Call::Collect { request: b }) => *a == *b,
        (Call::Close, Call::Close) => true,
        _ => false,
    }
}

// The replies that entries of a history have.
fn is_same_reply(a: &Reply, b: &Reply) -> bool {
    match (a, b) {
        (Reply::Ticket(a), Reply::Ticket(b)) => *a == *b,
        (
            Reply::Start {
                request: a,
                step: s,
                words: v,
            },
            Reply::Start {
                request: b,
                step: t,
                words: w,
            },
        ) => *a == *b && *s == *t && v.as_slice() == w.as_slice(),
        (Reply::Stop(a), Reply::Stop(b)) => *a == *b,
        (Reply::Done, Reply::Done) => true,
        (Reply::Withdrawn, Reply::Withdrawn) => true,
        (Reply::Asked, Reply::Asked) => true,
        (Reply::Ended(a), Reply::Ended(b)) => is_same_outcome(a, b),
        _ => false,
    }
}

fn is_same(a: &[Entry], b: &[Entry]) -> bool {
    if a.len() != b.len() {
        return false;
    }
    for (a, b) in a.iter().zip(b.iter()) {
        let same = a.caller == b.caller
            && is_same_call(&a.call, &b.call)
            && is_same_reply(&a.reply, &b.reply);
        if !same {
            return false;
        }
    }
    true
}

fn is_of_row(step: StepId, words: &Words, payload: &Item, mark: u64) -> bool {
    step == StepId(7) && words.as_slice() == [5].as_slice() && payload.mark == mark
}

#[test]
fn what_does_not_start_comes_back(rt: HostRuntime) -> Result<(), Fail> {
    let (executor, mut target) = Executor::<Item, u64>::new(rt.alloc(), 1)?;
    let Ok(mut pass) = executor.split(&mut target) else {
        return Err(Fail::new("no number is spare"));
    };
    let ticket = match executor.submit(&rt, &mut pass, StepId(7), one_word(5), item(1)) {
        Ok(ticket) => ticket,
        Err(_) => panic!(rt; "not taken"),
    };
    let back = match executor.submit(&rt, &mut pass, StepId(7), one_word(5), item(2)) {
        Ok(_ticket) => panic!(rt; "taken"),
        Err((NotTaken::Closed, _)) => panic!(rt; "closed"),
        Err((NotTaken::Full, back)) => back,
    };
    let withdrawn = match executor.cancel(&rt, &mut pass, ticket) {
        Cancelled::Withdrawn(back) => back,
        Cancelled::Asked(_ticket) => panic!(rt; "asked"),
        Cancelled::TooLate(_ticket) => panic!(rt; "too late"),
    };
    assert!(rt; back.mark == 2 && withdrawn.mark == 1);
    let entries = executor.history(&rt, target).to_vec(rt.alloc())?;
    let want = [submit(1, 0), cancel(1, 0, Reply::Withdrawn)];
    assert!(rt; is_same(entries.as_slice(), want.as_slice()));
    Ok(())
}

// A request that runs can only be asked to end: it ends by its finish.
fn cancel_while_it_runs<W: Wait + Abort>(
    rt: &W,
    executor: &Executor<Item, u64>,
    target: &mut ExecutorPass<Item, u64>,
    pass: &mut ExecutorPass<Item, u64>,
)
    requires { IsIdleTarget executor.now.lock target.old × IsIdle executor.now.lock pass.old }
    ensures { IsIdleTarget executor.now.lock target.new × IsIdle executor.now.lock pass.new }
{
    let ticket = match executor.submit(rt, pass, StepId(7), one_word(5), item(1)) {
        Ok(ticket) => ticket,
        Err(_) => panic!(rt; "not taken"),
    };
    let Next::Start(request, step, words, payload) = executor.next(rt, target) else {
        panic!(rt; "nothing to start");
    };
    assert!(rt; request == 0 && is_of_row(step, &words, &payload, 1));
    let Next::Empty = executor.next(rt, target) else {
        panic!(rt; "something to do");
    };
    let ticket = match executor.cancel(rt, pass, ticket) {
        Cancelled::Asked(ticket) => ticket,
        Cancelled::Withdrawn(_) => panic!(rt; "withdrawn"),
        Cancelled::TooLate(_ticket) => panic!(rt; "too late"),
    };
    let ticket = match executor.collect(rt, pass, ticket) {
        Collected::NotYet(ticket) => ticket,
        Collected::Ended(_, _) => panic!(rt; "ended"),
    };
    let Next::Stop(told) = executor.next(rt, target) else {
        panic!(rt; "nothing to stop");
    };
    assert!(rt; told == 0);
    executor.finish(rt, target, request, Outcome::Broken(FAILED), 9);
    collect_what_ran(rt, executor, pass, ticket)
}

// A request that has ended can't be cancelled, and gives its result.
fn collect_what_ran<W: Wait + Abort>(
    rt: &W,
    executor: &Executor<Item, u64>,
    pass: &mut ExecutorPass<Item, u64>,
    ticket: Ticket,
)
    requires { HasOne executor.now.lock pass.old ticket }
    ensures { IsIdle executor.now.lock pass.new }
{
    let ticket = match executor.cancel(rt, pass, ticket) {
        Cancelled::TooLate(ticket) => ticket,
        Cancelled::Withdrawn(_) => panic!(rt; "withdrawn"),
        Cancelled::Asked(_ticket) => panic!(rt; "asked"),
    };
    match executor.collect(rt, pass, ticket) {
        Collected::Ended(Outcome::Broken(exception), Back::Ran(given)) => {
            assert!(rt; exception == FAILED && given == 9)
        }
        Collected::Ended(_, _) => panic!(rt; "another outcome"),
        Collected::NotYet(_ticket) => panic!(rt; "not yet"),
    }
}

// A request that is queued at the closing gives its payload back, and the next one isn't taken.
fn close_with_one_queued<W: Wait + Abort>(
    rt: &W,
    executor: &Executor<Item, u64>,
    target: &mut ExecutorPass<Item, u64>,
    pass: &mut ExecutorPass<Item, u64>,
)
    requires { IsIdleTarget executor.now.lock target.old × IsIdle executor.now.lock pass.old }
    ensures { IsReady executor.now.lock target.new × IsIdle executor.now.lock pass.new }
{
    let ticket = match executor.submit(rt, pass, StepId(7), one_word(5), item(2)) {
        Ok(ticket) => ticket,
        Err(_) => panic!(rt; "not taken"),
    };
    executor.close(rt, target);
    let back = match executor.submit(rt, pass, StepId(7), one_word(5), item(3)) {
        Err((NotTaken::Closed, back)) => back,
        Err((NotTaken::Full, _)) => panic!(rt; "full"),
        Ok(_ticket) => panic!(rt; "taken"),
    };
    assert!(rt; back.mark == 3);
    match executor.collect(rt, pass, ticket) {
        Collected::Ended(Outcome::Broken(exception), Back::Unstarted(back)) => {
            assert!(rt; exception == GONE && back.mark == 2)
        }
        Collected::Ended(_, _) => panic!(rt; "another outcome"),
        Collected::NotYet(_ticket) => panic!(rt; "not yet"),
    }
}

#[test]
fn a_request_is_cancelled_while_it_runs(rt: HostRuntime) -> Result<(), Fail> {
    let (executor, mut target) = Executor::<Item, u64>::new(rt.alloc(), 2)?;
    let Ok(mut pass) = executor.split(&mut target) else {
        return Err(Fail::new("no number is spare"));
    };
    cancel_while_it_runs(&rt, &executor, &mut target, &mut pass);
    close_with_one_queued(&rt, &executor, &mut target, &mut pass);
    executor.join(&mut target, pass);
    let entries = executor.history(&rt, target).to_vec(rt.alloc())?;
    let want = [
        submit(1, 0),
        start(0),
        cancel(1, 0, Reply::Asked),
        stop(0),
        finish(0, FAILED),
        collect(1, 0, FAILED),
        submit(1, 1),
        close(),
        collect(1, 1, GONE),
    ];
    assert!(rt; is_same(entries.as_slice(), want.as_slice()));
    Ok(())
}

// What the pass submits; the mark tells its payload from others with the same step and words.
fn put<W: Wait + Abort>(
    rt: &W,
    executor: &Executor<Item, u64>,
    pass: &mut ExecutorPass<Item, u64>,
    mark: u64,
) -> Ticket
    requires { IsReady executor.now.lock pass.old }
    ensures { IsReady executor.now.lock pass.new × Holds pass.new result }
{
    match executor.submit(rt, pass, StepId(7), one_word(5), item(mark)) {
        Ok(ticket) => ticket,
        Err(_) => panic!(rt; "not taken"),
    }
}

fn run_one<W: Wait + Abort>(
    rt: &W,
    executor: &Executor<Item, u64>,
    target: &mut ExecutorPass<Item, u64>,
    mark: u64,
    given: u64,
)
    requires { IsIdleTarget executor.now.lock target.old }
    ensures { IsIdleTarget executor.now.lock target.new }
{
    let Next::Start(request, step, words, payload) = executor.next(rt, target) else {
        panic!(rt; "nothing to start");
    };
    assert!(rt; is_of_row(step, &words, &payload, mark));
    executor.finish(rt, target, request, Outcome::Broken(FAILED), given);
}

fn take_result<W: Wait + Abort>(
    rt: &W,
    executor: &Executor<Item, u64>,
    pass: &mut ExecutorPass<Item, u64>,
    ticket: Ticket,
    want: u64,
)
    requires { IsReady executor.now.lock pass.old × Holds pass.old ticket }
    ensures { IsReady executor.now.lock pass.new }
{
    match executor.collect(rt, pass, ticket) {
        Collected::Ended(_, Back::Ran(given)) => assert!(rt; given == want),
        Collected::Ended(_, Back::Unstarted(_)) => panic!(rt; "it ran"),
        Collected::NotYet(_ticket) => panic!(rt; "not yet"),
    }
}

fn take_unstarted<W: Wait + Abort>(
    rt: &W,
    executor: &Executor<Item, u64>,
    pass: &mut ExecutorPass<Item, u64>,
    ticket: Ticket,
    mark: u64,
)
    requires { IsReady executor.now.lock pass.old × Holds pass.old ticket }
    ensures { IsReady executor.now.lock pass.new }
{
    match executor.collect(rt, pass, ticket) {
        Collected::Ended(_, Back::Unstarted(back)) => assert!(rt; back.mark == mark),
        Collected::Ended(_, Back::Ran(_)) => panic!(rt; "it never ran"),
        Collected::NotYet(_ticket) => panic!(rt; "not yet"),
    }
}

fn take_withdrawn<W: Wait + Abort>(
    rt: &W,
    executor: &Executor<Item, u64>,
    pass: &mut ExecutorPass<Item, u64>,
    ticket: Ticket,
    mark: u64,
)
    requires { IsReady executor.now.lock pass.old × Holds pass.old ticket }
    ensures { IsReady executor.now.lock pass.new }
{
    match executor.cancel(rt, pass, ticket) {
        Cancelled::Withdrawn(back) => assert!(rt; back.mark == mark),
        Cancelled::Asked(_ticket) => panic!(rt; "asked"),
        Cancelled::TooLate(_ticket) => panic!(rt; "too late"),
    }
}

// Requests of two callers with the same step and words, two at a time: each caller gets back its own, run, withdrawn and closed.
#[test]
fn each_caller_gets_back_its_own(rt: HostRuntime) -> Result<(), Fail> {
    let (executor, mut target) = Executor::<Item, u64>::new(rt.alloc(), 6)?;
    let Ok(mut one) = executor.split(&mut target) else {
        return Err(Fail::new("no number is spare"));
    };
    let Ok(mut two) = executor.split(&mut target) else {
        return Err(Fail::new("no number is spare"));
    };
    let first = put(&rt, &executor, &mut one, 1);
    let second = put(&rt, &executor, &mut two, 2);
    run_one(&rt, &executor, &mut target, 1, 11);
    run_one(&rt, &executor, &mut target, 2, 22);
    take_result(&rt, &executor, &mut one, first, 11);
    take_result(&rt, &executor, &mut two, second, 22);
    let first = put(&rt, &executor, &mut one, 3);
    let second = put(&rt, &executor, &mut two, 4);
    take_withdrawn(&rt, &executor, &mut one, first, 3);
    take_withdrawn(&rt, &executor, &mut two, second, 4);
    let first = put(&rt, &executor, &mut one, 5);
    let second = put(&rt, &executor, &mut two, 6);
    executor.close(&rt, &mut target);
    take_unstarted(&rt, &executor, &mut one, first, 5);
    take_unstarted(&rt, &executor, &mut two, second, 6);
    let entries = executor.history(&rt, target);
    assert!(rt; entries.len() == 17);
    Ok(())
}

// By the finish and the closing, and not by another's withdrawal: the submitters make no other call between two looks.
#[test]
fn an_end_is_seen_at_the_next_look(rt: HostRuntime) -> Result<(), Fail> {
    let (executor, mut target) = Executor::<Item, u64>::new(rt.alloc(), 4)?;
    let Ok(mut one) = executor.split(&mut target) else {
        return Err(Fail::new("no number is spare"));
    };
    let Ok(mut two) = executor.split(&mut target) else {
        return Err(Fail::new("no number is spare"));
    };
    let Ok(mut three) = executor.split(&mut target) else {
        return Err(Fail::new("no number is spare"));
    };
    let first = put(&rt, &executor, &mut one, 1);
    let second = put(&rt, &executor, &mut two, 2);
    let third = put(&rt, &executor, &mut three, 3);
    assert!(rt; !executor.ended(&mut one, &first) && !executor.ended(&mut two, &second));
    run_one(&rt, &executor, &mut target, 1, 11);
    assert!(rt; executor.ended(&mut one, &first) && !executor.ended(&mut two, &second));
    take_withdrawn(&rt, &executor, &mut three, third, 3);
    assert!(rt; executor.ended(&mut one, &first) && !executor.ended(&mut two, &second));
    executor.close(&rt, &mut target);
    assert!(rt; executor.ended(&mut one, &first) && executor.ended(&mut two, &second));
    take_result(&rt, &executor, &mut one, first, 11);
    take_unstarted(&rt, &executor, &mut two, second, 2);
    let entries = executor.history(&rt, target);
    assert!(rt; entries.len() == 9);
    Ok(())
}

#[test]
fn two_executors_keep_apart(rt: HostRuntime) -> Result<(), Fail> {
    let (left, mut one) = Executor::<Item, u64>::new(rt.alloc(), 1)?;
    let (right, mut two) = Executor::<Item, u64>::new(rt.alloc(), 1)?;
    let mut tally = Tally::new();
    ask_both(&rt, &left, &right, &mut one, &mut two, &mut tally);
    assert!(rt; tally.withdrawn == 2);
    let here = left.history(&rt, one);
    let there = right.history(&rt, two);
    assert!(rt; here.len() == 2 && there.len() == 2);
    Ok(())
}
