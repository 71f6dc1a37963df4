//! Scripts and what they are printed as, worked by hand from the grammar.
use crate::{print, print_body, print_limits, print_line, read_again};
use kj_base::{Bytes, Ending, Exception, INPUT_LIMIT, Kind, Limits, Name, StepId, Words};
use promise_commands::{Action, Command, Commands, Line};
use promise_script::read;
use std::alloc::Global;
use std::test::Fail;

// What a text that isn't too long to be read is printed as.
fn printed(alloc: Global, text: &[u8]) -> Result<Bytes, Fail> {
    if text.len() > INPUT_LIMIT {
        return Err(Fail::new("a text is too long"));
    }
    let script = read(alloc, text)?;
    Ok(print(alloc, &script)?)
}

// Whether a text is printed so, and what is printed is printed so again.
fn prints(alloc: Global, text: &[u8], want: &[u8]) -> Result<bool, Fail> {
    let first = printed(alloc, text)?;
    let second = printed(alloc, first.as_slice())?;
    Ok(first.as_slice() == want && second.as_slice() == want)
}

#[test]
fn prints_each_line(rt: HostRuntime) -> Result<(), Fail> {
    read_again();
    for text in [
        b"now 1\n".as_slice(),
        b"now 4294967295 0 18446744073709551615\n",
        b"now 1 1 2 3 4 5 6 7 8 9 10 11 12 13 14 15 16\n",
        b"fail 1 overloaded 7\n",
        b"later 0\n",
        b"last 1\n",
        b"pair 1 2\n",
        b"then 1 2 - 3\n",
        b"then 1 2 3 -\n",
        b"chain 1 2 - -\n",
        b"chain 1 2 0 4294967295\n",
        b"eager 1 2\n",
        b"fork 1 2\n",
        b"branch 1 2\n",
        b"race 1 2 3\n",
        b"all 1\n",
        b"all 1 3 2\n",
        b"fast 1 2 3 4 5 6 7 8 9\n",
        b"fulfil 1\n",
        b"fulfil 1 2 3\n",
        b"reject 1 disconnected 0\n",
        b"reject 1 failed 4294967295\n",
        b"dropcell 1\n",
        b"detach 1\n",
        b"set 1 -\n",
        b"set 1 2\n",
        b"add 1 2\n",
        b"empty 1 2\n",
        b"clear 1\n",
        b"canceler 1\n",
        b"cancel 1\n",
        b"drop 1\n",
        b"limits 8 1\n",
        b"limits 4194304 1048576\n",
        b"turn\n",
        b"run 0\n",
        b"run 1000000\n",
        b"wait 4294967295 1000000\n",
        b"step 0\ninput\n",
        b"step 1\nvalue\n",
        b"step 1\nvalue 1 2\n",
        b"step 4294967295\nthrow unimplemented 1\n",
        b"step 1\npromise 2\n",
    ] {
        assert!(rt; prints(rt.alloc(), text, text)?);
    }
    Ok(())
}

#[test]
fn prints_bodies_before_lines_and_no_remarks(rt: HostRuntime) -> Result<(), Fail> {
    for (text, want) in [
        (b"".as_slice(), b"".as_slice()),
        (b"\n# x\n\n", b""),
        (b"# \x00\r", b""),
        (b"turn", b"turn\n"),
        (b"\nturn\n\n#\nrun 2\n", b"turn\nrun 2\n"),
        (b"# x\nlimits 8 1", b"limits 8 1\n"),
        (
            b"limits 16 2\nturn\nstep 1\ninput\nturn",
            b"limits 16 2\nstep 1\ninput\nturn\nturn\n",
        ),
        (
            b"later 1\nstep 2\n\n# x\nnow 3 4\nlast 5\n\nvalue 6\nwait 1 9\nstep 1\ninput",
            b"step 2\nnow 3 4\nlast 5\nvalue 6\nstep 1\ninput\nlater 1\nwait 1 9\n",
        ),
        (
            b"step 1\ndrop 1\npromise 2\nstep 1\nthrow failed 3\nstep 1\ndrop 1\npromise 2\n",
            b"step 1\ndrop 1\npromise 2\nstep 1\nthrow failed 3\nstep 1\ndrop 1\npromise 2\n",
        ),
    ] {
        assert!(rt; prints(rt.alloc(), text, want)?);
    }
    Ok(())
}

// A body that fails, behind two commands.
fn failing() -> Action {
    let mut commands = Commands::new();
    let mut value = Words::new();
    value.push(7);
    commands.push(Command::Now {
        name: Name(1),
        value,
    });
    commands.push(Command::Detach { source: Name(1) });
    Action {
        commands,
        ending: Ending::Throw(Exception {
            kind: Kind::Overloaded,
            code: 1000,
        }),
    }
}

#[test]
fn prints_what_was_not_read(rt: HostRuntime) -> Result<(), Fail> {
    let mut text = Bytes::new(rt.alloc());
    print_limits(&mut text, None)?;
    print_limits(
        &mut text,
        Some(Limits {
            slots: 24,
            names: 3,
        }),
    )?;
    print_body(&mut text, StepId(5), &failing())?;
    print_line(&mut text, &Line::Do(Command::Last { name: Name(4) }))?;
    print_line(&mut text, &Line::Wait(Name(4), 2))?;
    let want = b"limits 24 3\nstep 5\nnow 1 7\ndetach 1\nthrow overloaded 1000\nlast 4\nwait 4 2\n";
    assert!(rt; text.as_slice() == want.as_slice());
    Ok(())
}
