//! Reads and writes that fail in turn.
use crate::tests::scripts::{TWO, TWO_LOG};
use crate::tests::{Ended, done, failing};
use kj_base::NoMemory;
use kj_io::Sink;
use std::alloc::Global;
use std::process::Abort;
use std::sync::Wait;
use std::test::Fail;
use std::thread::Threads;

// What the program does with these words on these octets where nothing fails.
#[derive(Clone, Copy)]
struct Example<'a> {
    words: &'a [&'a str],
    octets: &'a [u8],
    status: u8,
    output: &'a [u8],
}

// Which call fails.
#[derive(Clone, Copy)]
enum Call {
    Read,
    Write,
}

// The program on an example of which the k-th read or write fails.
fn failed<R: Wait + Threads + Sync>(
    rt: &R,
    alloc: Global,
    example: Example<'_>,
    call: Call,
    k: usize,
) -> Result<Ended, NoMemory> {
    let turns = failing(alloc, k, 7)?;
    let none = Vec::new(alloc);
    let (reads, writes) = match call {
        Call::Read => (turns, none),
        Call::Write => (none, turns),
    };
    done(rt, alloc, example.words, example.octets, reads, writes)
}

// Whether a run ended as it must: a failed read leaves nothing written, a failed write a front of
// the output.
fn is_right(ended: &Ended, example: Example<'_>) -> bool {
    if ended.reads > 0 {
        return ended.is(3, b"");
    }
    if ended.written.faults() > 0 {
        return ended.status == 4 && example.output.starts_with(ended.written.as_slice());
    }
    ended.is(example.status, example.output)
}

// The k-th call fails, for each k until a run meets no fault.
fn fail_each<R: Abort + Wait + Threads + Sync>(
    rt: &R,
    alloc: Global,
    example: Example<'_>,
    call: Call,
) -> Result<(), Fail> {
    let mut met = true;
    for k in 0..60 {
        let ended = failed(rt, alloc, example, call, k)?;
        assert!(rt; is_right(&ended, example), "call {k}");
        met = ended.reads > 0 || ended.written.faults() > 0;
        if !met {
            break;
        }
    }
    assert!(rt; !met);
    Ok(())
}

#[test]
fn failing_calls(rt: HostRuntime) -> Result<(), Fail> {
    let alloc = rt.alloc();
    let make: [&str; 4] = ["make", "1", "2", "2"];
    let replay: [&str; 3] = ["replay", "1", "target"];
    let recording = done(&rt, alloc, &make, b"", Vec::new(alloc), Vec::new(alloc))?;
    let recording = recording.written.as_slice();
    let replies = done(
        &rt,
        alloc,
        &replay,
        recording,
        Vec::new(alloc),
        Vec::new(alloc),
    )?;
    let replies = replies.written.as_slice();
    let cases: [(&[&str], &[u8], u8, &[u8]); 7] = [
        (&["run"], TWO, 0, TWO_LOG),
        (&["run"], b"later x\n", 1, b"bad line 1\n"),
        (&["run"], b"wrap 1 1\n", 9, b"not built line 1\n"),
        (&replay, recording, 0, replies),
        (&replay, b"kjrec 1\nconn 3\nGE", 1, b"bad record 0\n"),
        (&make, b"", 0, recording),
        (&["run"], b"", 0, b""),
    ];
    for (words, octets, status, output) in cases {
        let example = Example {
            words,
            octets,
            status,
            output,
        };
        fail_each(&rt, alloc, example, Call::Read)?;
        fail_each(&rt, alloc, example, Call::Write)?;
    }
    Ok(())
}
