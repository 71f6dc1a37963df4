//! Scripts that keep their text.
ghost use Rattle.std.specs.Prelude.{◌≡◌, length, IfOk};
ghost use Rattle.promise_commands.specs.Script.{body_at};
ghost use Rattle.promise_script.specs.Scripts.{IsScriptText};

use crate::bodies::{passing, read_action};
use crate::cuts::text_from;
use crate::left::LinesLeft;
use crate::spots::Spots;
use kj_base::{Limits, NoMemory, StepId};
use promise_commands::Action;
use std::alloc::Global;
use std::marker::Model;

/// A script: its text, its limits, and where each body stands. Its lines and the actions of its
/// bodies are read from the text again whenever they are asked for, so that a script takes little
/// more memory than its text.
#[derive(Drop)]
pub struct Script<'a> {
    pub(crate) octets: &'a [u8],
    pub(crate) limits: Option<Limits>,
    pub(crate) spots: Spots,
}

impl<'a> Model for Script<'a> {
    ghost use Rattle.promise_commands.specs.Script.{Script};
    ghost use Rattle.promise_script.specs.Kept.{IsTextOf, text_script};

    ghost Value = { Script };

    ghost view = { λ s. text_script s.octets.now };

    ghost invariant = { λ s. IsTextOf s.octets.now s.limits s.spots };
}

impl<'a> Script<'a> {
    /// The octets that it was read from.
    pub fn text(&self) -> &'a [u8]
        ensures { IsScriptText result.now self.now }
    {
        self.octets
    }

    pub fn limits(&self) -> Option<Limits>
        ensures { result ≡ self.now.limits }
    {
        self.limits
    }

    pub fn body_count(&self) -> u32
        ensures { result ≡ length self.now.bodies }
    {
        self.spots.as_slice().len() as u32
    }

    /// The step of a body, counted from 0.
    pub fn step(&self, which: u32) -> StepId
        ensures { result ≡ (body_at self.now.bodies which).step }
    {
        match self.spots.as_slice().get(which as usize) {
            Some(spot) => spot.step,
            None => StepId(0),
        }
    }

    /// The action of a body, counted from 0; no commands and the input where there is no such
    /// body.
    pub fn action(&self, alloc: Global, which: u32) -> Result<Action, NoMemory>
        ensures { IfOk result (λ action. action ≡ (body_at self.now.bodies which).action) }
    {
        match self.spots.as_slice().get(which as usize) {
            Some(spot) => read_action(alloc, text_from(self.octets, spot.place)),
            None => Ok(passing()),
        }
    }

    /// Its lines outside bodies, from the first.
    pub fn lines(&self, alloc: Global) -> LinesLeft<'a>
        ensures { result ≡ self.now.lines }
    {
        LinesLeft::new(alloc, self.octets)
    }
}
