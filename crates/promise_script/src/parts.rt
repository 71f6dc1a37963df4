//! What stands behind the first word of a line.
ghost use Rattle.std.specs.Prelude.{◌≡◌, map};
ghost use Rattle.promise_script.specs.Decode.{one_name, two_names, one_step, two_steps, name_and, exception_read, words_read, names_read};

use crate::fields::{read_kind, read_name, read_names, read_number, read_step, read_words};
use kj_base::{Exception, Name, StepId, Words};
use promise_commands::Sources;

pub fn read_one_name(parts: &[&[u8]]) -> Option<Name>
    ensures { result ≡ one_name (map (λ w. w.now) parts.now) }
{
    match parts {
        [] => None,
        [name] => read_name(name),
        [_, _, ..] => None,
    }
}

pub fn read_two_names(parts: &[&[u8]]) -> Option<(Name, Name)>
    ensures { result ≡ two_names (map (λ w. w.now) parts.now) }
{
    match parts {
        [] => None,
        [_] => None,
        [first, second] => {
            let first = read_name(first)?;
            let second = read_name(second)?;
            Some((first, second))
        }
        [_, _, _, ..] => None,
    }
}

// The step for an exception.
fn read_one_step(parts: &[&[u8]]) -> Option<Option<StepId>>
    ensures { result ≡ one_step (map (λ w. w.now) parts.now) }
{
    match parts {
        [] => None,
        [step] => read_step(step),
        [_, _, ..] => None,
    }
}

// The step for a value and the step for an exception.
fn read_two_steps(parts: &[&[u8]]) -> Option<(Option<StepId>, Option<StepId>)>
    ensures { result ≡ two_steps (map (λ w. w.now) parts.now) }
{
    match parts {
        [] => None,
        [_] => None,
        [value, error] => {
            let value = read_step(value)?;
            let error = read_step(error)?;
            Some((value, error))
        }
        [_, _, _, ..] => None,
    }
}

pub fn read_exception(parts: &[&[u8]]) -> Option<Exception>
    ensures { result ≡ exception_read (map (λ w. w.now) parts.now) }
{
    match parts {
        [] => None,
        [_] => None,
        [kind, code] => {
            let kind = read_kind(kind)?;
            let code = read_number(code)?;
            Some(Exception { kind, code })
        }
        [_, _, _, ..] => None,
    }
}

/// A name and the words of a value.
pub fn read_valued(parts: &[&[u8]]) -> Option<(Name, Words)>
    ensures { result ≡ name_and words_read (map (λ w. w.now) parts.now) }
{
    match parts {
        [] => None,
        [name, rest @ ..] => {
            let name = read_name(name)?;
            let words = read_words(rest)?;
            Some((name, words))
        }
    }
}

/// A name and an exception.
pub fn read_broken(parts: &[&[u8]]) -> Option<(Name, Exception)>
    ensures { result ≡ name_and exception_read (map (λ w. w.now) parts.now) }
{
    match parts {
        [] => None,
        [name, rest @ ..] => {
            let name = read_name(name)?;
            let exception = read_exception(rest)?;
            Some((name, exception))
        }
    }
}

/// A set's name and its step.
pub fn read_grouped(parts: &[&[u8]]) -> Option<(Name, Option<StepId>)>
    ensures { result ≡ name_and one_step (map (λ w. w.now) parts.now) }
{
    match parts {
        [] => None,
        [name, rest @ ..] => {
            let name = read_name(name)?;
            let step = read_one_step(rest)?;
            Some((name, step))
        }
    }
}

/// The names of a join and of its parts.
pub fn read_joined(parts: &[&[u8]]) -> Option<(Name, Sources)>
    ensures { result ≡ name_and names_read (map (λ w. w.now) parts.now) }
{
    match parts {
        [] => None,
        [name, rest @ ..] => {
            let name = read_name(name)?;
            let names = read_names(rest)?;
            Some((name, names))
        }
    }
}

/// A name and two more.
pub fn read_raced(parts: &[&[u8]]) -> Option<(Name, (Name, Name))>
    ensures { result ≡ name_and two_names (map (λ w. w.now) parts.now) }
{
    match parts {
        [] => None,
        [name, rest @ ..] => {
            let name = read_name(name)?;
            let sides = read_two_names(rest)?;
            Some((name, sides))
        }
    }
}

// A source and the steps of its continuation.
fn read_source(parts: &[&[u8]]) -> Option<(Name, (Option<StepId>, Option<StepId>))>
    ensures { result ≡ name_and two_steps (map (λ w. w.now) parts.now) }
{
    match parts {
        [] => None,
        [source, rest @ ..] => {
            let source = read_name(source)?;
            let steps = read_two_steps(rest)?;
            Some((source, steps))
        }
    }
}

/// A continuation's name, its source and its steps.
pub fn read_continued(parts: &[&[u8]]) -> Option<(Name, (Name, (Option<StepId>, Option<StepId>)))>
    ensures { result ≡ name_and (name_and two_steps) (map (λ w. w.now) parts.now) }
{
    match parts {
        [] => None,
        [name, rest @ ..] => {
            let name = read_name(name)?;
            let source = read_source(rest)?;
            Some((name, source))
        }
    }
}
