//! Whole scripts and what they are read as, worked by hand from the grammar.
use crate::{ReadRefused, Script, one_script, read, some_script};
use kj_base::{Ending, INPUT_LIMIT, Limits, Name, NoMemory, StepId};
use promise_commands::{Command, Line, MAX_COMMANDS, NumberedLine};
use std::alloc::{AllocError, Global};
use std::test::Fail;

// The line at fault, if there is one, of a text that isn't too long to be read.
fn fault(alloc: Global, text: &[u8]) -> Option<ReadRefused> {
    if text.len() > INPUT_LIMIT {
        return Some(ReadRefused::NoMemory);
    }
    read(alloc, text).err()
}

fn bad(line: u32) -> Option<ReadRefused> {
    Some(ReadRefused::Bad { line })
}

fn not_built(line: u32) -> Option<ReadRefused> {
    Some(ReadRefused::NotBuilt { line })
}

#[test]
fn reads_scripts(rt: HostRuntime) -> Result<(), Fail> {
    one_script();
    some_script();
    for text in [
        b"".as_slice(),
        b"\n",
        b"\n\n\n",
        b"# \x00\r",
        b"# first\r\nturn\n",
        b"limits 8 1",
        b"# first\n\nlimits 8 1\nturn\n",
        b"turn\nrun 1000000\nlater 1\n",
        b"step 1\ninput\n",
        b"step 1\nvalue 1 2",
        b"step 1\nthrow failed 3\n",
        b"step 1\npromise 4\n",
        b"step 1\n\n# inside\nlater 2\n\ninput\nturn\n",
        b"step 1\ninput\nstep 1\nvalue\nstep 1\ninput\n",
        b"turn\nstep 1\ninput\nturn\n",
        b"limits 8 1\nstep 1\ninput\n",
    ] {
        assert!(rt; fault(rt.alloc(), text).is_none());
    }
    Ok(())
}

#[test]
fn tells_the_bad_line(rt: HostRuntime) -> Result<(), Fail> {
    for (text, line) in [
        (b"bogus".as_slice(), 1),
        (b" turn\n", 1),
        (b"turn\n turn\nbogus\n", 2),
        (b"\n# x\nturn \n", 3),
        (b"turn\n\x00", 2),
        (b"turn\r\n", 1),
        (b"\r\n", 1),
        (b"turn\n\r\n", 2),
        (b"turn\nlimits 8 1\n", 2),
        (b"limits 8 1\nlimits 8 1\n", 2),
        (b"step 1\ninput\nlimits 8 1\n", 3),
        (b"step 1\nlimits 8 1\ninput\n", 2),
        (b"limits 12 1\n", 1),
        (b"run 1000001\n", 1),
        (b"now 1\nnow 01\nnow 2\n", 2),
        (b"input\n", 1),
        (b"turn\nvalue 1\n", 2),
        (b"step 1\ninput\ninput\n", 3),
        (b"step 1\nstep 2\ninput\n", 2),
        (b"step 1\nturn\ninput\n", 2),
        (b"step 1\nrun 3\ninput\n", 2),
        (b"step 1", 2),
        (b"step 1\n", 2),
        (b"step 1\n\n# x\n", 4),
        (b"step 1\nlater 2\n", 3),
        (b"turn\nstep 1\ninput\nstep 2\nlater 2", 6),
        (b"step -\ninput\n", 1),
        (b"bogus\nset 1 -\n", 1),
    ] {
        assert!(rt; fault(rt.alloc(), text) == bad(line));
    }
    Ok(())
}

#[test]
fn tells_what_is_not_built(rt: HostRuntime) -> Result<(), Fail> {
    for word in [
        b"wrap".as_slice(),
        b"wrap x",
        b"ask 1 2 3 4",
        b"begin 1 2",
        b"stop 1",
        b"reply 1 value",
    ] {
        assert!(rt; fault(rt.alloc(), word) == not_built(1));
    }
    for (text, refused) in [
        (b"turn\nwrap 1 2\nbogus\n".as_slice(), not_built(2)),
        (b"step 1\nwrap 1 2\ninput\n", not_built(2)),
        (b"step 1\nwrap 1 2", not_built(2)),
        (b"add\n", bad(1)),
        (b"step 1\ninput\nwait 1\n", bad(3)),
        (b"step 1\nwait 1 2\ninput\n", bad(2)),
        (b"sets 1\n", bad(1)),
        (b"set\t1\n", bad(1)),
        (b"set\r\n", bad(1)),
        (b" set 1 -\n", bad(1)),
        (b"Set 1 -\n", bad(1)),
        (b"timer 1 2 3\n", bad(1)),
        (b"deadline 1 2 3\n", bad(1)),
        (b"advance 1\n", bad(1)),
    ] {
        assert!(rt; fault(rt.alloc(), text) == refused);
    }
    Ok(())
}

// Whether a text that is cut behind so many octets has this fault, for each of these cuts.
fn cuts_have(
    alloc: Global,
    text: &[u8],
    cuts: (usize, usize),
    refused: Option<ReadRefused>,
) -> bool {
    let (first, last) = cuts;
    for cut in first..=last {
        match text.get(..cut) {
            Some(front) => {
                if fault(alloc, front) != refused {
                    return false;
                }
            }
            None => return false,
        }
    }
    true
}

#[test]
fn reads_what_is_cut(rt: HostRuntime) -> Result<(), Fail> {
    let text = b"limits 8 1\nstep 1\nnow 2\ninput\nturn\n".as_slice();
    assert!(rt; text.len() == 35);
    for (cuts, refused) in [
        ((0, 0), None),
        ((1, 9), bad(1)),
        ((10, 11), None),
        ((12, 16), bad(2)),
        ((17, 22), bad(3)),
        ((23, 28), bad(4)),
        ((29, 30), None),
        ((31, 33), bad(5)),
        ((34, 35), None),
    ] {
        assert!(rt; cuts_have(rt.alloc(), text, cuts, refused));
    }
    Ok(())
}

#[test]
fn reads_words_that_are_cut(rt: HostRuntime) -> Result<(), Fail> {
    let word = b"turn\ncanceler 1\n".as_slice();
    for (cuts, refused) in [
        ((0, 0), None),
        ((1, 3), bad(1)),
        ((4, 5), None),
        ((6, 14), bad(2)),
        ((15, 16), None),
    ] {
        assert!(rt; cuts_have(rt.alloc(), word, cuts, refused));
    }
    let unbuilt = b"turn\nwrap 1\n".as_slice();
    for (cuts, refused) in [((4, 5), None), ((6, 8), bad(2)), ((9, 12), not_built(2))] {
        assert!(rt; cuts_have(rt.alloc(), unbuilt, cuts, refused));
    }
    Ok(())
}

// A body of so many commands, one of them behind a remark, and its ending.
fn long_body(alloc: Global, commands: usize) -> Result<Vec<u8>, AllocError> {
    let mut text = Vec::new(alloc);
    text.extend_from_slice(b"step 1\n# remark\n")?;
    for _ in 0..commands {
        text.extend_from_slice(b"later 1\n")?;
    }
    text.extend_from_slice(b"input\n")?;
    Ok(text)
}

#[test]
fn counts_the_commands_of_a_body(rt: HostRuntime) -> Result<(), Fail> {
    let text = long_body(rt.alloc(), MAX_COMMANDS)?;
    assert!(rt; fault(rt.alloc(), &text).is_none());
    let text = long_body(rt.alloc(), MAX_COMMANDS + 1)?;
    assert!(rt; fault(rt.alloc(), &text) == bad(19));
    Ok(())
}

// The lines outside bodies.
fn lines_of(alloc: Global, script: &Script) -> Result<Vec<NumberedLine>, NoMemory> {
    let mut lines = Vec::new(alloc);
    let mut left = script.lines(alloc);
    for _ in 0..100 {
        match left.next()? {
            Some(line) => lines.push(line)?,
            None => return Ok(lines),
        }
    }
    Ok(lines)
}

// Whether the lines outside bodies have these numbers.
fn has_numbers(alloc: Global, text: &[u8], numbers: &[u32]) -> Result<bool, Fail> {
    if text.len() > INPUT_LIMIT {
        return Ok(false);
    }
    let script = read(alloc, text)?;
    let lines = lines_of(alloc, &script)?;
    Ok(
        lines.len() == numbers.len()
            && lines
                .iter()
                .zip(numbers.iter())
                .all(|(line, number)| line.number == *number),
    )
}

#[test]
fn numbers_lines_outside_bodies(rt: HostRuntime) -> Result<(), Fail> {
    for (text, numbers) in [
        (b"".as_slice(), [].as_slice()),
        (b"# x\n\n", &[]),
        (b"limits 8 1\n", &[]),
        (b"turn", &[1]),
        (b"turn\n\nturn\n", &[1, 3]),
        (b"step 1\ninput\n", &[]),
        (b"step 1\nlater 2\ninput\nturn\nstep 1\ninput\n", &[4]),
        (b"turn\nstep 1\n\n# x\nlater 2\ninput\nrun 3", &[1, 7]),
        (
            b"step 1\ninput\nstep 2\nlater 1\nvalue\n\nlater 1\nturn\n",
            &[7, 8],
        ),
    ] {
        assert!(rt; has_numbers(rt.alloc(), text, numbers)?);
    }
    Ok(())
}

#[test]
fn tells_limits_bodies_and_lines(rt: HostRuntime) -> Result<(), Fail> {
    let text =
        b"# x\nlimits 16 2\nlater 1\n\nstep 5\nnow 2 3\n\nvalue\nrun 7\nstep 6\ninput\nturn\nwait 1 9";
    let script = read(rt.alloc(), text)?;
    let limits = Limits {
        slots: 16,
        names: 2,
    };
    assert!(rt; script.limits() == Some(limits));
    let lines = lines_of(rt.alloc(), &script)?;
    let [first, second, third, fourth] = lines.as_slice() else {
        return Err(Fail::new("others were read"));
    };
    assert!(rt; matches!(&first.line, Line::Do(Command::Later { name }) if name.0 == 1));
    assert!(rt; matches!(&second.line, Line::Run(7)));
    assert!(rt; matches!(&third.line, Line::Turn));
    assert!(rt; matches!(&fourth.line, Line::Wait(Name(1), 9)));
    assert!(rt; script.body_count() == 2);
    assert!(rt; script.step(0) == StepId(5) && script.step(1) == StepId(6));
    let five = script.action(rt.alloc(), 0)?;
    let six = script.action(rt.alloc(), 1)?;
    let beyond = script.action(rt.alloc(), 2)?;
    assert!(rt; five.commands.as_slice().len() == 1);
    assert!(rt; matches!(&five.ending, Ending::Value(words) if words.as_slice().is_empty()));
    assert!(rt; six.commands.as_slice().is_empty());
    assert!(rt; matches!(&six.ending, Ending::Input));
    assert!(rt; beyond.commands.as_slice().is_empty());
    Ok(())
}
