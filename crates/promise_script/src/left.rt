//! The lines outside bodies, read from the text one after another.
ghost use Rattle.std.specs.Prelude.{◌≡◌, ◌<◌, ◌^◌, [], false, length, Ok, None, IfOk, OnErr};
ghost use Rattle.promise_script.specs.Left.{lines_left, said_outside, stays_inside, with_found};
ghost use Rattle.promise_script.specs.ScriptText.{lines_of};

use crate::cuts::first_line;
use crate::lines::find_meaning;
use crate::meaning::Meaning;
use kj_base::NoMemory;
use promise_commands::{Line, NumberedLine};
use std::alloc::Global;
use std::marker::Model;

/// The lines outside bodies that are left of a script. The words of the line that was read last are kept
/// for their memory.
#[derive(Drop)]
pub struct LinesLeft<'a> {
    rest: &'a [u8],
    number: u32,
    words: Vec<&'a [u8]>,
}

impl<'a> Model for LinesLeft<'a> {
    ghost use Rattle.std.specs.Prelude.{List, ◌<◌, ◌+◌, ◌^◌, false, length};
    ghost use Rattle.promise_commands.specs.declared.script.NumberedLine.{NumberedLine};
    ghost use Rattle.promise_script.specs.Left.{lines_left};
    ghost use Rattle.promise_script.specs.ScriptText.{lines_of};

    ghost Value = { List NumberedLine };

    ghost view = { λ l. lines_left l.number false (lines_of l.rest.now) };

    ghost invariant = { λ l. l.number + length l.rest.now < 2 ^ 32 };
}

// What a line does outside bodies, if it does something there.
fn said_outside(inside: bool, meaning: Option<Meaning>) -> Option<Line>
    ensures { result ≡ said_outside inside meaning }
{
    if inside {
        return None;
    }
    match meaning {
        None => None,
        Some(Meaning::Nothing) => None,
        Some(Meaning::Limits(_)) => None,
        Some(Meaning::Do(command)) => Some(Line::Do(command)),
        Some(Meaning::Turn) => Some(Line::Turn),
        Some(Meaning::Run(turns)) => Some(Line::Run(turns)),
        Some(Meaning::Wait(name, turns)) => Some(Line::Wait(name, turns)),
        Some(Meaning::Step(_)) => None,
        Some(Meaning::Close(_)) => None,
    }
}

// Whether the line behind this one stands inside a body.
fn stays_inside(inside: bool, meaning: &Option<Meaning>) -> bool
    ensures { result ≡ stays_inside inside meaning.now }
{
    match meaning {
        None => inside,
        Some(Meaning::Nothing) => inside,
        Some(Meaning::Limits(_)) => inside,
        Some(Meaning::Do(_)) => inside,
        Some(Meaning::Turn) => inside,
        Some(Meaning::Run(_)) => inside,
        Some(Meaning::Wait(_, _)) => inside,
        Some(Meaning::Step(_)) => true,
        Some(Meaning::Close(_)) => false,
    }
}

impl<'a> LinesLeft<'a> {
    /// All lines outside the bodies of a text.
    pub(crate) fn new(alloc: Global, octets: &'a [u8]) -> LinesLeft<'a>
        requires { length octets.now < 2 ^ 32 }
        ensures { result ≡ lines_left 0 false (lines_of octets.now) }
    {
        LinesLeft {
            rest: octets,
            number: 0,
            words: Vec::new(alloc),
        }
    }

    /// The next line; none where none is left.
    pub fn next(&mut self) -> Result<Option<NumberedLine>, NoMemory>
        ensures next { IfOk result (λ found. self.old ≡ with_found found self.new) }
        ensures end { result ≡ Ok None → self.old ≡ [] }
        ensures err { OnErr result (self.new ≡ self.old) }
    {
        let mut rest = self.rest;
        let mut number = self.number;
        let mut inside = false;
        'finding: while !rest.is_empty() {
            let (text, behind) = first_line(rest);
            let meaning = find_meaning(&mut self.words, text)?;
            let stays = stays_inside(inside, &meaning);
            rest = behind;
            number += 1;
            if let Some(line) = said_outside(inside, meaning) {
                self.rest = rest;
                self.number = number;
                return Ok(Some(NumberedLine { number, line }));
            }
            inside = stays;
        }
        self.rest = rest;
        self.number = number;
        Ok(None)
    }
}
