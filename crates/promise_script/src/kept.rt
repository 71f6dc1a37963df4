//! What reading keeps of the lines so far.
ghost use Rattle.std.specs.Prelude.{◌≡◌, IfOk};
ghost use Rattle.promise_script.specs.Kept.{Answers, limited, lined, commanded, begun, closed, stood};

use crate::meaning::Meaning;
use crate::spots::{Spot, Spots};
use kj_base::{Limits, NoMemory, StepId};
use promise_commands::MAX_COMMANDS;

/// The body whose end wasn't read yet, with how many commands it has so far.
#[derive(Drop)]
pub struct Open {
    pub spot: Spot,
    pub commands: usize,
}

/// What is kept of the lines so far: no line itself, and of each body where it stands.
#[derive(Drop)]
pub struct Kept {
    /// Whether a line meant something.
    pub started: bool,
    pub limits: Option<Limits>,
    pub spots: Spots,
    pub body: Option<Open>,
}

// The answers of these functions: whether the line may stand here.
impl Kept {
    fn limit(&mut self, limits: Limits) -> bool
        ensures { Answers result (limited limits self.old) self.new }
    {
        if self.started {
            return false;
        }
        self.started = true;
        self.limits = Some(limits);
        true
    }

    fn line(&mut self) -> bool
        ensures { Answers result (lined self.old) self.new }
    {
        if self.body.is_some() {
            return false;
        }
        self.started = true;
        true
    }

    fn command(&mut self) -> bool
        ensures { Answers result (commanded self.old) self.new }
    {
        match &mut self.body {
            Some(opened) => {
                if opened.commands >= MAX_COMMANDS {
                    return false;
                }
                opened.commands += 1;
                true
            }
            None => self.line(),
        }
    }

    fn begin(&mut self, step: StepId, place: u32) -> bool
        ensures { Answers result (begun step place self.old) self.new }
    {
        if self.body.is_some() {
            return false;
        }
        self.started = true;
        self.body = Some(Open {
            spot: Spot { step, place },
            commands: 0,
        });
        true
    }

    fn close(&mut self) -> Result<bool, NoMemory>
        ensures { IfOk result (λ stands. Answers stands (closed self.old) self.new) }
    {
        match self.body.take() {
            None => Ok(false),
            Some(opened) => {
                self.spots.push(opened.spot)?;
                Ok(true)
            }
        }
    }

    /// Adds what a line means, behind which the text goes on at this place; false where such a
    /// line may not stand here.
    pub fn stand(&mut self, place: u32, meaning: &Meaning) -> Result<bool, NoMemory>
        ensures { IfOk result
            (λ stands. Answers stands (stood place meaning.now self.old) self.new) }
    {
        match meaning {
            Meaning::Nothing => Ok(true),
            Meaning::Limits(limits) => Ok(self.limit(*limits)),
            Meaning::Do(_) => Ok(self.command()),
            Meaning::Turn => Ok(self.line()),
            Meaning::Run(_) => Ok(self.line()),
            Meaning::Wait(_, _) => Ok(self.line()),
            Meaning::Step(step) => Ok(self.begin(*step, place)),
            Meaning::Close(_) => self.close(),
        }
    }
}
