//! A history in little memory.
ghost use Rattle.std.specs.Prelude.{◌≡◌, ◌+◌, ◌<◌, ◌≤◌, [], ◌++◌, length, slice_get, vec_capacity, vec_len, IfOk, Some};
ghost use Rattle.executor_core.specs.declared.call.Call.TheVariants.{Submit, Next, Finish, Cancel, Collect, Close};
ghost use Rattle.executor_core.specs.declared.call.Reply.TheVariants.{Ticket, Start, Stop, Done, Withdrawn, Asked, Ended};
ghost use Rattle.executor_core.specs.Histories.{entry};
ghost use Rattle.executor_core.specs.Lines.{told, part, followed, HasRoom};

use crate::call::{Call, Reply};
use crate::entry::Entry;
use crate::line::{Deed, Line};
use kj_base::{NoMemory, Outcome, StepId, Words};
use std::alloc::Global;
use std::marker::Model;

/// The most entries that a history may have room for.
pub const MAX_ENTRIES: u32 = 1 << 24;

// The most words of one entry.
const MAX_WORDS: usize = 16;

/// The entries of a board in their order, for each of which it makes the room before the first. An entry takes 28 octets, and eight
/// more for each of its words. Contracts see the list of entries, and for how many there is room.
#[derive(Drop)]
pub struct Log {
    lines: Vec<Line>,
    words: Vec<u64>,
}

impl Model for Log {
    ghost use Rattle.std.specs.Prelude.{vec_capacity};
    ghost use Rattle.executor_core.specs.Lines.{Logged, logged, entries_of, Fitting};

    ghost Value = { Logged };

    ghost view = { λ l. logged (entries_of l.words.items l.lines.items) (vec_capacity l.lines) };

    ghost invariant = { λ l. Fitting l.words.items (vec_capacity l.words) l.lines.items
        (vec_capacity l.lines) };
}

impl Log {
    /// No entries, and room for so many.
    pub fn new(alloc: Global, room: u32) -> Result<Log, NoMemory>
        requires { room ≤ MAX_ENTRIES }
        ensures { IfOk result (λ l. (l.entries ≡ []) × (l.room ≡ room)) }
    {
        Ok(Log {
            lines: Vec::with_capacity(alloc, room as usize)?,
            words: Vec::with_capacity(alloc, MAX_WORDS * room as usize)?,
        })
    }

    /// How many entries there are.
    pub fn len(&self) -> usize
        ensures { result ≡ length self.now.entries }
    {
        self.lines.len()
    }

    /// The entry at a place.
    pub fn at(&self, place: usize) -> Entry
        requires { place < length self.now.entries }
        ensures { slice_get self.now.entries place ≡ Some result }
    {
        let line = self.lines[place];
        let words = words_of(self.words.as_slice(), line);
        entry_of(line.caller, line.deed, words)
    }

    /// A caller submitted a request.
    pub fn submit(&mut self, caller: u32, request: u32, step: StepId, words: &Words)
        requires { HasRoom self.old }
        ensures { self.new ≡ followed self.old
            (entry caller (Submit step words.now) (Ticket request)) }
    {
        self.push(caller, Deed::Submitted { request, step }, words.as_slice());
    }

    /// The target was given a request to run.
    pub fn start(&mut self, request: u32, step: StepId, words: &Words)
        requires { HasRoom self.old }
        ensures { self.new ≡ followed self.old (entry 0 Next (Start request step words.now)) }
    {
        self.push(0, Deed::Started { request, step }, words.as_slice());
    }

    /// The target was told that a request is to end.
    pub fn stop(&mut self, request: u32)
        requires { HasRoom self.old }
        ensures { self.new ≡ followed self.old (entry 0 Next (Stop request)) }
    {
        self.push(0, Deed::Stopped(request), &[]);
    }

    /// The target finished a request.
    pub fn finish(&mut self, request: u32, outcome: &Outcome)
        requires { HasRoom self.old }
        ensures { self.new ≡ followed self.old (entry 0 (Finish request outcome.now) Done) }
    {
        match outcome {
            Outcome::Value(words) => self.push(0, Deed::Finished(request), words.as_slice()),
            Outcome::Broken(exception) => {
                let exception = *exception;
                self.push(0, Deed::Failed { request, exception }, &[])
            }
        }
    }

    /// A caller withdrew a request.
    pub fn withdraw(&mut self, caller: u32, request: u32)
        requires { HasRoom self.old }
        ensures { self.new ≡ followed self.old (entry caller (Cancel request) Withdrawn) }
    {
        self.push(caller, Deed::Withdrawn(request), &[]);
    }

    /// A caller asked for the end of a request.
    pub fn ask(&mut self, caller: u32, request: u32)
        requires { HasRoom self.old }
        ensures { self.new ≡ followed self.old (entry caller (Cancel request) Asked) }
    {
        self.push(caller, Deed::Asked(request), &[]);
    }

    /// A caller collected the outcome of a request.
    pub fn collect(&mut self, caller: u32, request: u32, outcome: &Outcome)
        requires { HasRoom self.old }
        ensures { self.new ≡ followed self.old
            (entry caller (Collect request) (Ended outcome.now)) }
    {
        match outcome {
            Outcome::Value(words) => self.push(caller, Deed::Collected(request), words.as_slice()),
            Outcome::Broken(exception) => {
                let exception = *exception;
                self.push(caller, Deed::CollectedFailed { request, exception }, &[])
            }
        }
    }

    /// The target closed the executor.
    pub fn close(&mut self)
        requires { HasRoom self.old }
        ensures { self.new ≡ followed self.old (entry 0 Close Done) }
    {
        self.push(0, Deed::Closed, &[]);
    }

    fn push(&mut self, caller: u32, deed: Deed, words: &[u64])
        requires room { HasRoom self.old }
        requires few { length words.now ≤ 16 }
        ensures { self.new ≡ followed self.old (told caller deed words.now) }
    {
        let line = Line {
            from: self.words.len() as u32,
            count: words.len() as u32,
            caller,
            deed,
        };
        append(&mut self.words, words);
        self.lines.push_reserved(line);
    }
}

// There is room for the words.
fn append(to: &mut Vec<u64>, words: &[u64])
    requires { length to.old.items + length words.now ≤ vec_capacity to.old }
    ensures items { to.new.items ≡ to.old.items ++ words.now }
    ensures room { vec_capacity to.new ≡ vec_capacity to.old }
{
    for word in words {
        to.push_reserved(*word);
    }
}

// The words of a line, among all.
fn words_of(all: &[u64], line: Line) -> Words
    requires within { line.from + line.count ≤ length all.now }
    requires few { line.count ≤ 16 }
    ensures { result ≡ part all.now line }
{
    let from = line.from as usize;
    let mut words = Words::new();
    for word in &all[from..from + line.count as usize] {
        words.push(*word);
    }
    words
}

fn entry_of(caller: u32, deed: Deed, words: Words) -> Entry
    ensures { result ≡ told caller deed words }
{
    let (call, reply) = match deed {
        Deed::Submitted { request, step } => {
            (Call::Submit { step, words }, Reply::Ticket(request))
        }
        Deed::Started { request, step } => (
            Call::Next,
            Reply::Start {
                request,
                step,
                words,
            },
        ),
        Deed::Stopped(request) => (Call::Next, Reply::Stop(request)),
        Deed::Finished(request) => {
            let outcome = Outcome::Value(words);
            (Call::Finish { request, outcome }, Reply::Done)
        }
        Deed::Failed { request, exception } => {
            let outcome = Outcome::Broken(exception);
            (Call::Finish { request, outcome }, Reply::Done)
        }
        Deed::Withdrawn(request) => (Call::Cancel { request }, Reply::Withdrawn),
        Deed::Asked(request) => (Call::Cancel { request }, Reply::Asked),
        Deed::Collected(request) => {
            let outcome = Outcome::Value(words);
            (Call::Collect { request }, Reply::Ended(outcome))
        }
        Deed::CollectedFailed { request, exception } => {
            let outcome = Outcome::Broken(exception);
            (Call::Collect { request }, Reply::Ended(outcome))
        }
        Deed::Closed => (Call::Close, Reply::Done),
    };
    Entry {
        caller,
        call,
        reply,
    }
}
