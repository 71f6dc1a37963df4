//! Longer scripts that were worked out by hand.
use crate::tests::scripts::log_of;
use kj_base::{Bytes, NoMemory};
use std::alloc::Global;
use std::test::Fail;

// Octets, and the whole log.
const WHOLE: [(&[u8], &[u8]); 20] = [
    (
        b"later 1\nthen 2 1 10 -\ndetach 2\nlater 3\nthen 4 3 11 -\ndetach 4\nrun 2\n",
        b"free 1\nrun 2 10 value\nfree 2\nfree 3\nfree 4\nrun 5 11 value\nfree 5\nfree 6\n",
    ),
    // A step fulfils a cell: what waits for it goes before what was armed already.
    (
        b"step 10\nfulfil 5 7\nvalue\npair 4 5\nthen 6 4 11 -\ndetach 6\nlater 1\nthen 2 1 10 -\ndetach 2\nlater 7\nthen 8 7 12 -\ndetach 8\nrun 3\n",
        b"free 4\nrun 5 10 value\nfree 5\nfree 6\nfree 1\nrun 2 11 value 7\nfree 2\nfree 3\nfree 7\nrun 8 12 value\nfree 8\nfree 9\n",
    ),
    // The loser's event is disarmed where the race is evaluated, and fires without effect elsewhere.
    (
        b"later 1\nlater 2\nrace 3 1 2\ndetach 3\nrun 3\n",
        b"free 2\nfree 1\nfree 3\nfree 4\nfree 5\nfree 6\n",
    ),
    (
        b"later 1\nlater 2\nrace 3 1 2\nrun 2\nturn\n",
        b"free 2\nidle\nfree 1\nfree 3\nfree 4\nfree 5\n",
    ),
    // A fulfiller goes without a word: the promise is broken.
    (
        b"pair 1 2\nthen 3 1 10 11\ndetach 3\ndropcell 2\nrun 1\n",
        b"free 1\nrun 2 11 throw failed 1\nfree 2\nfree 3\n",
    ),
    (
        b"pair 1 2\nthen 3 1 10 -\ndetach 3\ndropcell 2\nrun 1\n",
        b"free 1\nfree 2\nfree 3\n",
    ),
    // Sets and cancelers without members: a set is empty at once.
    (
        b"set 1 -\nset 1 7\nempty 2 1\nempty 2 1\nclear 1\nclear 2\ncancel 1\ncanceler 5\ncancel 5\nclear 9\nthen 3 2 10 -\ndetach 3\nrun 1\n",
        b"refused 2 taken 1\nrefused 4 taken 2\nrefused 6 wrong 2\nrefused 7 wrong 1\nrefused 10 unknown 9\nfree 1\nrun 2 10 value\nfree 2\nfree 3\n",
    ),
    (
        b"step 10\nset 5 -\nempty 6 5\npromise 6\nlater 1\nchain 2 1 10 -\ndetach 2\nrun 2\n",
        b"free 1\nrun 2 10 value\nfree 2\nfree 3\nfree 5\nfree 4\n",
    ),
    // A promise that waits goes, and its fulfiller stays, which can't be dropped so.
    (
        b"pair 1 2\ndrop 1\nfulfil 2 7\ndrop 2\ndrop 1\n",
        b"free 1\nrefused 4 wrong 2\nrefused 5 unknown 1\n",
    ),
    // A promise goes with all below it.
    (
        b"later 1\nthen 2 1 10 -\ndrop 2\nturn\n",
        b"free 1\nfree 2\nidle\n",
    ),
    // A hub without branches goes with its name, and another with its last branch.
    (b"later 1\nfork 2 1\ndrop 2\n", b"free 1\nfree 2\n"),
    (
        b"later 1\nfork 2 1\nbranch 3 2\nbranch 4 2\ndrop 2\ndrop 3\ndrop 4\n",
        b"free 3\nfree 1\nfree 2\nfree 4\n",
    ),
    // Sets and cancelers go without a word.
    (
        b"set 1 -\ncanceler 2\ndrop 1\ndrop 2\nset 2 -\ndrop 1\n",
        b"refused 6 unknown 1\n",
    ),
    // A step drops a promise that waits.
    (
        b"step 10\ndrop 5\nvalue\npair 5 6\nlater 1\nthen 2 1 10 -\ndetach 2\nrun 1\n",
        b"free 2\nrun 3 10 value\nfree 1\nfree 3\nfree 4\n",
    ),
    // A step can't drop the promise whose event fires.
    (
        b"step 10\ndrop 3\nvalue\nlater 1\nthen 2 1 10 -\neager 3 2\nrun 1\nthen 4 3 11 12\ndetach 4\nrun 1\n",
        b"free 1\nrun 2 10 value\nfree 2\nfree 3\nrun 4 12 throw failed 9\nfree 4\nfree 5\n",
    ),
    // A wait for a join, whose parts have both a step for values and one for exceptions.
    (
        b"now 1 5\nfail 2 failed 1002\nnow 3 6\nfail 4 overloaded 1004\nthen 11 1 31 -\nthen 12 2 32 42\nthen 13 3 33 -\nthen 14 4 34 44\nall 20 11 12 13 14\nwait 20 10\n",
        b"free 1\nrun 5 31 value 5\nfree 5\nfree 2\nrun 6 42 throw failed 1002\nfree 6\nfree 3\nrun 7 33 value 6\nfree 7\nfree 4\nrun 8 44 throw overloaded 1004\nfree 8\nfree 9\nfree 10\nfree 11\nfree 12\nfree 13\nwait 20 done throw failed 1002\n",
    ),
    (
        b"now 1 5\nfail 2 failed 1002\nnow 3 6\nfail 4 overloaded 1004\nthen 11 1 31 -\nthen 12 2 32 42\nthen 13 3 33 -\nthen 14 4 34 44\nfast 20 11 12 13 14\nwait 20 10\n",
        b"free 1\nrun 5 31 value 5\nfree 5\nfree 2\nrun 6 42 throw failed 1002\nfree 6\nfree 9\nfree 10\nfree 3\nfree 7\nfree 11\nfree 4\nfree 8\nfree 12\nfree 13\nwait 20 done throw failed 1002\n",
    ),
    // A wait that ends early gives the name back, and where no turn may be made none is.
    (
        b"pair 1 2\nwait 1 3\nfulfil 2 7\nwait 1 0\nwait 1 1\n",
        b"wait 1 idle\nwait 1 turns\nfree 1\nwait 1 done value 7\n",
    ),
    // A step takes the name meanwhile, so the promise goes.
    (
        b"limits 32 4\nstep 20\nlater 1\nvalue\nlater 1\nthen 2 1 20 -\ndetach 2\nlast 1\nwait 1 1\n",
        b"free 1\nrun 2 20 value\nfree 2\nfree 3\nfree 4\nwait 1 turns\nfree 5\n",
    ),
    // A wait is refused by its name.
    (
        b"wait 1 1\npair 1 2\nwait 2 1\n",
        b"refused 1 unknown 1\nrefused 3 wrong 2\nfree 1\n",
    ),
];

// Octets, and the lines of runs in the log.
const RUNS: [(&[u8], &[u8]); 2] = [
    (
        b"step 10\nfulfil 21 1\nfulfil 22 2\nvalue\npair 11 21\npair 12 22\nthen 13 11 31 -\nthen 14 12 32 -\ndetach 13\ndetach 14\nlater 1\nthen 2 1 10 -\ndetach 2\nlater 3\nthen 4 3 40 -\ndetach 4\nrun 4\n",
        b"run 8 10 value\nrun 3 31 value 1\nrun 4 32 value 2\nrun 11 40 value\n",
    ),
    // Last events come in the opposite order of arming, after all others.
    (
        b"last 1\nthen 2 1 11 -\ndetach 2\nlast 3\nthen 4 3 12 -\ndetach 4\nlater 5\nthen 6 5 13 -\ndetach 6\nrun 3\n",
        b"run 8 13 value\nrun 5 12 value\nrun 2 11 value\n",
    ),
];

// The lines that begin with this word, each with its end.
fn lines_with(alloc: Global, log: &[u8], word: &[u8]) -> Result<Bytes, NoMemory> {
    let mut lines = Bytes::new(alloc);
    for line in log.split(|octet| *octet == b'\n') {
        if line.starts_with(word) {
            lines.extend(line)?;
            lines.push(b'\n')?;
        }
    }
    Ok(lines)
}

// How many lines begin with this word.
fn count_with(log: &[u8], word: &[u8]) -> usize {
    log.split(|octet| *octet == b'\n')
        .filter(|line| line.starts_with(word))
        .count()
}

#[test]
fn whole_logs(rt: HostRuntime) -> Result<(), Fail> {
    let alloc = rt.alloc();
    for (octets, text) in WHOLE {
        let log = log_of(&rt, alloc, octets)?;
        assert!(&rt; log.written.as_slice() == text, "at {}", octets.len());
    }
    Ok(())
}

#[test]
fn runs_of_steps(rt: HostRuntime) -> Result<(), Fail> {
    let alloc = rt.alloc();
    for (octets, text) in RUNS {
        let log = log_of(&rt, alloc, octets)?;
        let runs = lines_with(alloc, log.written.as_slice(), b"run ")?;
        assert!(&rt; runs.as_slice() == text, "at {}", octets.len());
    }
    Ok(())
}

// A step that gives a promise of the same step, again and again: its nodes are never in more than three arenas.
#[test]
fn promise_loop(rt: HostRuntime) -> Result<(), Fail> {
    let alloc = rt.alloc();
    let script =
        b"limits 24 1\nstep 1\nlater 10\nchain 11 10 1 -\npromise 11\nlater 10\nchain 11 10 1 -\ndetach 11\nrun 100000\n";
    let log = log_of(&rt, alloc, script)?;
    let text = log.written.as_slice();
    assert!(&rt; text.starts_with(b"free 1\nrun 2 1 value\nfree 2\nfree 3\n"));
    assert!(&rt; text.ends_with(b"free 300002\nfree 300003\nfree 300004\nfree 4\n"));
    let runs = count_with(text, b"run ");
    let frees = count_with(text, b"free ");
    assert_eq!(&rt; (runs, frees), (100_000, 300_004));
    Ok(())
}
