//! Bodies and texts worked out by hand.
use crate::{ScriptSteps, print_idle, print_refused};
use itoa::Buffer;
use kj_base::{
    Bytes, Ending, Exception, INPUT_LIMIT, Kind, Name, NoMemory, NodeId, Outcome, StepId, Words,
};
use promise_commands::{Action, Refused, Steps};
use promise_script::{Script, read};
use std::alloc::Global;
use std::test::Fail;

// A step with the word that it gives.
#[derive(Clone, Copy)]
struct StepWord {
    step: u32,
    word: u64,
}

const fn gives(step: u32, word: u64) -> StepWord {
    StepWord { step, word }
}

const OVERLOADED: Outcome = Outcome::Broken(Exception {
    kind: Kind::Overloaded,
    code: 7,
});

fn value(words: &[u64]) -> Outcome {
    let mut value = Words::new();
    for word in words {
        let _fits = value.push(*word);
    }
    Outcome::Value(value)
}

// The text of bodies that make one promise each, and end with one word.
fn bodies_text(alloc: Global, all: &[StepWord]) -> Result<Bytes, NoMemory> {
    let mut text = Bytes::new(alloc);
    let mut buffer = Buffer::new();
    for one in all {
        text.extend(b"step ")?;
        text.extend(buffer.format(one.step).as_bytes())?;
        text.extend(b"\n# a remark\n\nlater ")?;
        text.extend(buffer.format(one.step).as_bytes())?;
        text.extend(b"\nvalue ")?;
        text.extend(buffer.format(one.word).as_bytes())?;
        text.extend(b"\nturn\n")?;
    }
    Ok(text)
}

// The script of a text.
fn script_of(alloc: Global, text: &[u8]) -> Result<Script, Fail> {
    if text.len() > INPUT_LIMIT {
        return Err(Fail::new("the text is too long"));
    }
    match read(alloc, text) {
        Ok(script) => Ok(script),
        Err(_refused) => Err(Fail::new("the text is no script")),
    }
}

// The word that an action ends with.
fn word_of(action: &Action) -> Option<u64> {
    match &action.ending {
        Ending::Value(words) => words.as_slice().first().copied(),
        _ => None,
    }
}

#[test]
fn bodies_come_in_order(rt: HostRuntime) -> Result<(), Fail> {
    let all = [
        gives(2, 20),
        gives(1, 10),
        gives(2, 21),
        gives(1, 11),
        gives(1, 12),
    ];
    let octets = bodies_text(rt.alloc(), &all)?;
    let script = script_of(rt.alloc(), octets.as_slice())?;
    let mut steps = ScriptSteps::new(rt.alloc(), &script)?;
    let runs = [
        gives(1, 10),
        gives(2, 20),
        gives(1, 11),
        gives(2, 21),
        gives(2, 21),
        gives(1, 12),
        gives(2, 21),
        gives(1, 12),
        gives(1, 12),
    ];
    let mut text = Bytes::new(rt.alloc());
    for run in &runs {
        let action = steps.run(NodeId(9), StepId(run.step), &value(&[]))?;
        assert_eq!(rt; word_of(&action), Some(run.word));
        assert_eq!(rt; action.commands.as_slice().len(), 1);
        steps.freed(NodeId(9));
        if run.word == 21 {
            steps.drain_into(&mut text)?;
        }
    }
    Ok(())
}

#[test]
fn steps_without_bodies(rt: HostRuntime) -> Result<(), Fail> {
    let octets = bodies_text(rt.alloc(), &[gives(1, 10), gives(4, 40)])?;
    let script = script_of(rt.alloc(), octets.as_slice())?;
    let mut steps = ScriptSteps::new(rt.alloc(), &script)?;
    for step in [0, 2, 3, 5, 2] {
        let action = steps.run(NodeId(1), StepId(step), &value(&[3]))?;
        assert!(rt; matches!(&action.ending, Ending::Input));
        assert!(rt; action.commands.as_slice().is_empty());
    }
    let action = steps.run(NodeId(1), StepId(4), &value(&[3]))?;
    assert_eq!(rt; word_of(&action), Some(40));
    Ok(())
}

#[test]
fn many_bodies(rt: HostRuntime) -> Result<(), Fail> {
    let mut all = Vec::new(rt.alloc());
    for word in 0..60_u64 {
        all.push(gives(5 - (word % 3) as u32, word))?;
    }
    let octets = bodies_text(rt.alloc(), &all)?;
    let script = script_of(rt.alloc(), octets.as_slice())?;
    let mut steps = ScriptSteps::new(rt.alloc(), &script)?;
    for round in 0..20_u64 {
        for rest in 0..3_u64 {
            let action = steps.run(NodeId(1), StepId(5 - rest as u32), &value(&[]))?;
            assert_eq!(rt; word_of(&action), Some(3 * round + rest));
        }
    }
    let action = steps.run(NodeId(1), StepId(5), &value(&[]))?;
    assert_eq!(rt; word_of(&action), Some(57));
    Ok(())
}

#[test]
fn lines_of_what_was_told(rt: HostRuntime) -> Result<(), Fail> {
    let script = script_of(rt.alloc(), b"step 1\nvalue 10\n")?;
    let mut steps = ScriptSteps::new(rt.alloc(), &script)?;
    let mut text = Bytes::new(rt.alloc());
    steps.drain_into(&mut text)?;
    assert!(rt; text.is_empty());
    let _first = steps.run(NodeId(4), StepId(1), &value(&[7, 9]))?;
    steps.freed(NodeId(4));
    let _second = steps.run(NodeId(18446744073709551615), StepId(0), &OVERLOADED)?;
    steps.drain_into(&mut text)?;
    steps.freed(NodeId(3));
    steps.freed(NodeId(2));
    steps.drain_into(&mut text)?;
    steps.drain_into(&mut text)?;
    let lines =
        b"run 4 1 value 7 9\nfree 4\nrun 18446744073709551615 0 throw overloaded 7\nfree 3\nfree 2\n";
    assert!(rt; text.as_slice() == lines.as_slice());
    Ok(())
}

#[test]
fn other_lines(rt: HostRuntime) -> Result<(), Fail> {
    let mut text = Bytes::new(rt.alloc());
    print_idle(&mut text)?;
    print_refused(&mut text, 3, Refused::Unknown(Name(8)))?;
    print_refused(&mut text, 4, Refused::Taken(Name(0)))?;
    print_refused(&mut text, 10, Refused::Full)?;
    print_refused(&mut text, 11, Refused::WrongKind(Name(4294967295)))?;
    print_refused(&mut text, 12, Refused::Busy(Name(7)))?;
    print_refused(&mut text, 4294967295, Refused::Stopped)?;
    let lines =
        b"idle\nrefused 3 unknown 8\nrefused 4 taken 0\nrefused 10 full\nrefused 11 wrong 4294967295\nrefused 12 busy 7\nrefused 4294967295 stopped\n";
    assert!(rt; text.as_slice() == lines.as_slice());
    Ok(())
}

#[test]
fn kinds_of_exceptions(rt: HostRuntime) -> Result<(), Fail> {
    let script = script_of(rt.alloc(), b"")?;
    let mut steps = ScriptSteps::new(rt.alloc(), &script)?;
    let mut text = Bytes::new(rt.alloc());
    for kind in [
        Kind::Failed,
        Kind::Overloaded,
        Kind::Disconnected,
        Kind::Unimplemented,
    ] {
        let input = Outcome::Broken(Exception { kind, code: 1000 });
        let _action = steps.run(NodeId(1), StepId(2), &input)?;
    }
    steps.drain_into(&mut text)?;
    let lines =
        b"run 1 2 throw failed 1000\nrun 1 2 throw overloaded 1000\nrun 1 2 throw disconnected 1000\nrun 1 2 throw unimplemented 1000\n";
    assert!(rt; text.as_slice() == lines.as_slice());
    Ok(())
}
