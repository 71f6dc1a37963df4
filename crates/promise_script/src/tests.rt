//! Lines of scripts and what they mean, worked by hand from the grammar.
use crate::{Meaning, one_line, read_line};
use kj_base::{Ending, Exception, Kind, Limits, Name, NoMemory, StepId};
use promise_commands::Command;
use std::alloc::Global;
use std::test::Fail;

// Whether a line means something that a script may say.
fn is_line(alloc: Global, text: &[u8]) -> Result<bool, NoMemory> {
    let meaning = read_line(alloc, text)?;
    Ok(meaning.is_some())
}

#[test]
fn reads_each_line(rt: HostRuntime) -> Result<(), Fail> {
    one_line();
    for text in [
        b"".as_slice(),
        b"# \x00 anything",
        b"now 1",
        b"now 4294967295 0 18446744073709551615",
        b"now 1 1 2 3 4 5 6 7 8 9 10 11 12 13 14 15 16",
        b"fail 1 overloaded 7",
        b"later 1",
        b"last 1",
        b"pair 1 2",
        b"then 1 2 - 3",
        b"chain 1 2 3 -",
        b"eager 1 2",
        b"fork 1 2",
        b"branch 1 2",
        b"race 1 2 3",
        b"all 1",
        b"fast 1 2 3 4 5 6 7 8 9",
        b"fulfil 1 2",
        b"reject 1 disconnected 0",
        b"dropcell 1",
        b"detach 1",
        b"set 1 -",
        b"set 1 4294967295",
        b"add 1 2",
        b"empty 1 2",
        b"clear 1",
        b"canceler 1",
        b"cancel 1",
        b"drop 1",
        b"limits 8 1",
        b"limits 4194304 1048576",
        b"turn",
        b"run 1000000",
        b"wait 1 0",
        b"wait 4294967295 1000000",
        b"step 0",
        b"value",
        b"value 1 2",
        b"throw unimplemented 1",
        b"promise 1",
        b"input",
    ] {
        assert!(rt; is_line(rt.alloc(), text)?);
    }
    Ok(())
}

#[test]
fn reads_nothing_else(rt: HostRuntime) -> Result<(), Fail> {
    for text in [
        b" ".as_slice(),
        b" turn",
        b"turn ",
        b"turn\r",
        b"Turn",
        b"now",
        b"now 01",
        b"now 4294967296",
        b"now 1 18446744073709551616",
        b"now 1 1 2 3 4 5 6 7 8 9 10 11 12 13 14 15 16 17",
        b"now 1  2",
        b"now -1",
        b"fail 1 broken 7",
        b"fail 1 failed",
        b"then 1 2 3",
        b"then 1 2 - 3 4",
        b"race 1 2",
        b"all 1 2 3 4 5 6 7 8 9 10",
        b"limits 7 1",
        b"limits 12 1",
        b"limits 8 0",
        b"limits 4194312 1",
        b"limits 8 1048577",
        b"run 1000001",
        b"step -",
        b"input 1",
        b"promise",
        b"wait 1",
        b"wait 1 1000001",
        b"wait - 1",
        b"wait 1 2 3",
        b"set 1",
        b"set - 1",
        b"add 1",
        b"add 1 -",
        b"add 1 2 3",
        b"empty 1",
        b"clear",
        b"canceler -",
        b"cancel 1 2",
    ] {
        assert!(rt; !is_line(rt.alloc(), text)?);
    }
    Ok(())
}

#[test]
fn tells_what_lines_mean(rt: HostRuntime) -> Result<(), Fail> {
    let alloc = rt.alloc();
    let limits = Limits {
        slots: 16,
        names: 2,
    };
    assert!(rt;
        matches!(read_line(alloc, b"limits 16 2")?, Some(Meaning::Limits(found)) if found == limits)
    );
    let step = StepId(5);
    assert!(rt;
        matches!(read_line(alloc, b"step 5")?, Some(Meaning::Step(found)) if found == step)
    );
    assert!(rt; matches!(read_line(alloc, b"run 9")?, Some(Meaning::Run(9))));
    Ok(())
}

#[test]
fn tells_the_parts_of_commands(rt: HostRuntime) -> Result<(), Fail> {
    let found = match read_line(rt.alloc(), b"then 3 4 5 -")? {
        Some(
            Meaning::Do(
                Command::Then {
                    name,
                    source,
                    value,
                    error,
                },
            ),
        ) => name == Name(3) && source == Name(4) && value == Some(StepId(5)) && error.is_none(),
        _ => false,
    };
    assert!(rt; found);
    let found = match read_line(rt.alloc(), b"fulfil 8 1 2")? {
        Some(Meaning::Do(Command::Fulfil { cell, value })) => {
            cell == Name(8) && value.as_slice() == [1, 2].as_slice()
        }
        _ => false,
    };
    assert!(rt; found);
    let found = match read_line(rt.alloc(), b"add 8 6")? {
        Some(Meaning::Do(Command::Add { group, source })) => group == Name(8) && source == Name(6),
        _ => false,
    };
    assert!(rt; found);
    Ok(())
}

#[test]
fn tells_how_bodies_end(rt: HostRuntime) -> Result<(), Fail> {
    let worked = Exception {
        kind: Kind::Failed,
        code: 1000,
    };
    let found = match read_line(rt.alloc(), b"throw failed 1000")? {
        Some(Meaning::Close(Ending::Throw(exception))) => exception == worked,
        _ => false,
    };
    assert!(rt; found);
    let found = match read_line(rt.alloc(), b"promise 6")? {
        Some(Meaning::Close(Ending::Promise(name))) => name == Name(6),
        _ => false,
    };
    assert!(rt; found);
    Ok(())
}
