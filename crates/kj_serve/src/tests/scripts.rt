//! Scripts that were worked out by hand, and their logs.
use crate::tests::{Ended, ran};
use kj_base::Bytes;
use kj_io::Turn;
use std::alloc::Global;
use std::process::Abort;
use std::sync::Wait;
use std::test::Fail;
use std::thread::Threads;

// Two promises with a continuation each, both detached, and two turns.
pub const TWO: &[u8] =
    b"later 1\nthen 2 1 10 -\ndetach 2\nlater 3\nthen 4 3 11 -\ndetach 4\nturn\nturn\n";

pub const TWO_LOG: &[u8] =
    b"free 1\nrun 2 10 value\nfree 2\nfree 3\nfree 4\nrun 5 11 value\nfree 5\nfree 6\n";

// Octets, the status of `run` on them, and what it writes.
const SCRIPTS: [(&[u8], u8, &[u8]); 25] = [
    (b"", 0, b""),
    (
        b"later 1\nthen 2 1 10 -\ndetach 2\nturn\n",
        0,
        b"free 1\nrun 2 10 value\nfree 2\nfree 3\n",
    ),
    (TWO, 0, TWO_LOG),
    (
        b"later 1\nlater 1\nthen 3 2 - -\nturn\n",
        0,
        b"refused 2 taken 1\nrefused 3 unknown 2\nidle\nfree 1\n",
    ),
    // A fulfiller is no promise, and a promise no fulfiller.
    (
        b"pair 1 2\nthen 3 2 - -\nfulfil 1\n",
        0,
        b"refused 2 wrong 2\nrefused 3 wrong 1\nfree 1\n",
    ),
    // The last line may end with the input.
    (b"later 1\nturn", 0, b"idle\nfree 1\n"),
    // Lines that mean nothing are counted.
    (
        b"\n# any octet \xff\x00\r in a remark\n\ndetach 1\n",
        0,
        b"refused 4 unknown 1\n",
    ),
    // A continuation without a step for its outcome passes it on.
    (
        b"later 1\nthen 2 1 - 5\nthen 3 2 6 -\ndetach 3\nturn\n",
        0,
        b"free 1\nfree 2\nrun 3 6 value\nfree 3\nfree 4\n",
    ),
    // A name is free again once it was a source.
    (
        b"later 1\nthen 2 1 - -\nlater 1\ndetach 2\ndetach 1\nturn\nturn\nturn\n",
        0,
        b"free 1\nfree 2\nfree 4\nfree 3\nfree 5\nidle\n",
    ),
    // What is still there at the end is freed: names by rising name, then tasks, the newest first.
    (
        b"later 9\nlater 4\nlater 1\nlater 2\ndetach 1\ndetach 2\n",
        0,
        b"free 2\nfree 1\nfree 4\nfree 6\nfree 3\nfree 5\n",
    ),
    (
        b"later 4294967295\ndetach 4294967295\n",
        0,
        b"free 1\nfree 2\n",
    ),
    // A run of turns tells nothing of an empty queue.
    (b"later 1\nrun 5\nturn\n", 0, b"idle\nfree 1\n"),
    // Limits are kept: 2 arenas and 1 name.
    (
        b"limits 16 1\nlater 1\nlater 2\ndetach 1\nlater 2\n",
        0,
        b"refused 3 full\nfree 3\nfree 1\nfree 2\n",
    ),
    // A promise that goes before no other one takes an arena of eight slots for itself.
    (
        b"limits 8 4\nnow 3 0\nnow 4 0\n",
        0,
        b"refused 3 full\nfree 1\n",
    ),
    // Eight promises, each a continuation of the one before, are in one arena; a ninth takes another one.
    (
        b"limits 8 2\nnow 1 1\nthen 2 1 - -\nthen 1 2 - -\nthen 2 1 - -\nthen 1 2 - -\nthen 2 1 - -\nthen 1 2 - -\nthen 2 1 - -\nthen 1 2 - -\nwait 2 5\n",
        0,
        b"refused 10 full\nfree 1\nfree 2\nfree 3\nfree 4\nfree 5\nfree 6\nfree 7\nfree 8\nwait 2 done value 1\n",
    ),
    (
        b"limits 16 2\nnow 1 1\nthen 2 1 - -\nthen 1 2 - -\nthen 2 1 - -\nthen 1 2 - -\nthen 2 1 - -\nthen 1 2 - -\nthen 2 1 - -\nthen 1 2 - -\nwait 1 5\n",
        0,
        b"free 1\nfree 2\nfree 3\nfree 4\nfree 5\nfree 6\nfree 7\nfree 8\nfree 9\nwait 1 done value 1\n",
    ),
    // A hub with two branches, of which the first was made first.
    (
        b"now 1 5\nfork 2 1\nbranch 3 2\nbranch 4 2\ndetach 3\ndetach 4\nrun 5\n",
        0,
        b"free 1\nfree 3\nfree 5\nfree 4\nfree 6\nfree 2\n",
    ),
    // A join gives all words of its parts.
    (
        b"now 1 5\nnow 2 6\nall 3 1 2\nthen 4 3 9 -\ndetach 4\nrun 5\n",
        0,
        b"free 1\nfree 2\nfree 3\nfree 4\nfree 5\nrun 6 9 value 5 6\nfree 6\nfree 7\n",
    ),
    // A body's commands, a value, an exception, and bodies by the number of the run.
    (
        b"step 7\nvalue 1 2\nstep 7\nthrow overloaded 3\nlater 1\nthen 2 1 7 -\ndetach 2\nlater 3\nthen 4 3 7 8\nthen 5 4 - 8\ndetach 5\nrun 2\n",
        0,
        b"free 1\nrun 2 7 value\nfree 2\nfree 3\nfree 4\nrun 5 7 value\nfree 5\nrun 6 8 throw overloaded 3\nfree 6\nfree 7\n",
    ),
    // A body behind the turn that runs it, between lines whose numbers count its own; and a last line that ends with the
    // input.
    (
        b"later 1\nthen 2 1 7 -\ndetach 2\nturn\nstep 7\n# x\nlater 9\n\nvalue 4\nlater 9\nturn",
        0,
        b"free 1\nrun 2 7 value\nfree 2\nfree 3\nrefused 10 taken 9\nidle\nfree 4\n",
    ),
    (b"later 1\nlater 01\n", 1, b"bad line 2\n"),
    (b"later 1\r\n", 1, b"bad line 1\n"),
    (b"turn\nlimits 8 1\n", 1, b"bad line 2\n"),
    (b"step 1\nlater 1\n", 1, b"bad line 3\n"),
    (b"later 1\nwrap 2 3 1\nturn 1\n", 9, b"not built line 2\n"),
];

#[test]
fn scripts_and_their_logs(rt: HostRuntime) -> Result<(), Fail> {
    let alloc = rt.alloc();
    for (octets, status, text) in SCRIPTS {
        let ended = ran(&rt, alloc, octets, Vec::new(alloc), Vec::new(alloc))?;
        assert!(&rt; ended.is(status, text), "at {}", octets.len());
    }
    Ok(())
}

// The log of the two continuations, with the input cut in two at each place and the output cut
// everywhere.
#[test]
fn cut_input(rt: HostRuntime) -> Result<(), Fail> {
    let alloc = rt.alloc();
    for place in 1..TWO.len() {
        let mut reads = Vec::new(alloc);
        reads.push(Turn::Octets(place))?;
        let ended = ran(&rt, alloc, TWO, reads, Vec::new(alloc))?;
        assert!(&rt; ended.is(0, TWO_LOG), "at {place}");
    }
    let mut single = Vec::new(alloc);
    for _ in 0..200 {
        single.push(Turn::Octets(1))?;
    }
    let ended = ran(&rt, alloc, TWO, Vec::new(alloc), single)?;
    assert!(&rt; ended.is(0, TWO_LOG));
    Ok(())
}

// What a script logs, where the program ends with 0.
pub fn log_of<R: Abort + Wait + Threads + Sync>(
    rt: &R,
    alloc: Global,
    octets: &[u8],
) -> Result<Ended, Fail> {
    let ended = ran(rt, alloc, octets, Vec::new(alloc), Vec::new(alloc))?;
    assert_eq!(rt; ended.status, 0);
    Ok(ended)
}

// The 4,097th name is refused, and none before; likewise the 65,537th node where each eight of them are one path.
#[test]
fn full(rt: HostRuntime) -> Result<(), Fail> {
    let alloc = rt.alloc();
    let mut names = Bytes::new(alloc);
    for n in 1..4098 {
        names.extend(format!(in alloc; "later {n}\n")?.as_bytes())?;
    }
    let log = log_of(&rt, alloc, names.as_slice())?;
    let front = b"refused 4097 full\nfree 1\nfree 2\n".as_slice();
    assert!(&rt; log.written.as_slice().starts_with(front));
    // Each of these fills an arena: the leaf, six continuations and the task over them.
    let mut nodes = Bytes::new(alloc);
    for _ in 0..8_192 {
        nodes.extend(b"later 1\nthen 2 1 - -\nthen 1 2 - -\nthen 2 1 - -\n")?;
        nodes.extend(b"then 1 2 - -\nthen 2 1 - -\nthen 1 2 - -\ndetach 1\n")?;
    }
    nodes.extend(b"later 1\nlater 2\n")?;
    let log = log_of(&rt, alloc, nodes.as_slice())?;
    let front = b"refused 65537 full\nrefused 65538 full\nfree 65529\nfree 65530\nfree 65531\n";
    assert!(&rt; log.written.as_slice().starts_with(front.as_slice()));
    Ok(())
}

// One octet more than the limit: nothing is written.
#[test]
fn too_long(rt: HostRuntime) -> Result<(), Fail> {
    let alloc = rt.alloc();
    let mut remarks = Bytes::new(alloc);
    for _ in 0..262_144 {
        remarks.extend(b"# a remark of sixty-four octets with its end, which means nothi\n")?;
    }
    remarks.push(b'#')?;
    let ended = ran(
        &rt,
        alloc,
        remarks.as_slice(),
        Vec::new(alloc),
        Vec::new(alloc),
    )?;
    assert!(&rt; ended.is(6, b""));
    Ok(())
}
