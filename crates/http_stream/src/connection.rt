//! A connection over a stream, in single moves.
ghost use Rattle.std.specs.Prelude.{◌≡◌, ◌≤◌, ◌+◌, ◌++◌, false, Bool, IfSome, IfOk, OnOk, OnErr, ℕ, List, [], drop, length, Option};
ghost use Rattle.http_frames.specs.declared.Phase.TheVariants.{Going};
ghost use Rattle.http_core.specs.Reading.{phase_of, IsReading, IsReadyRead};
ghost use Rattle.http_stream.specs.Stages.{behind, read_stage, is_drained};

use crate::next::{Next, Wants, after_read, after_reading, after_write, after_writing, wants_at};
use crate::served::Finished;
use crate::stage::{
    Stage, answered_stage, asked_left, closes_after, drained_stage, is_closing, is_drained,
    unlooked,
};
use http_core::read::{Part, RequestRead, is_idle, last, open, read_on};
use http_core::ruled::{RuledHead, RuledRequest};
use http_core::spare::Spare;
use http_core::text::{push_answer, push_fault};
use http_core::{Answer, End, Request, Service};
use http_heads::Head;
use kj_base::{Bytes, NoMemory};
use kj_io::{Got, Put, Stream, read_behind};
use std::alloc::Global;
use std::mem;

// A read takes as many octets as were read before it, within these bounds.
const FEWEST: usize = 4_096;

const MOST: usize = 65_536;

/// One connection over a stream: it reads, answers and writes in single moves, of which each calls
/// the stream once at most. All octets read and all texts made are kept: a stream reads straight
/// behind the octets, and an octet of a body is copied once from there.
#[derive(Drop)]
pub struct StreamConnection<C> {
    alloc: Global,
    stream: C,
    octets: Bytes,
    part: Part,
    request: RuledRequest,
    spare: Spare,
    made: Bytes,
    sent: usize,
    answered: u64,
    abandoned: bool,
    stage: Stage,
    ghost ready: { phase_of part ≡ Going },
    ghost sent_is: { sent ≤ length made },
}

// A request that stands for none. Takes no memory.
fn no_request(alloc: Global) -> RuledRequest {
    RuledHead::new(Head::new(alloc)).with_body(Bytes::new(alloc))
}

impl<C: Stream> StreamConnection<C> {
    ghost use Rattle.kj_io.specs.Streams.{StreamOctets};
    ghost use Rattle.http_core.specs.declared.message.Request.{Request};
    ghost use Rattle.http_core.specs.declared.message.Answer.{Answer};
    ghost use Rattle.http_core.specs.declared.read.Part.{Part};
    ghost use Rattle.http_stream.specs.declared.stage.Stage.TheVariants as stages;
    ghost use Rattle.http_stream.specs.Standing.{Stands, StandsBetween, ReadsAt, IsAtEnd};
    ghost use Rattle.http_stream.specs.Moves.{Begins, wants_of, drained_of, ReadOnce, AnsweredOnce, WroteOnce};
    ghost use Rattle.http_stream.specs.Steps.{IsOver, LooksAt, ReadMove, AnswerMove, WriteMove, IsAsked};
    ghost use Rattle.http_stream.specs.Served.{KeepsPromise, EndsAs};

    /// A connection over a stream that gave and took nothing yet. Takes no memory.
    pub fn new(alloc: Global, stream: C) -> StreamConnection<C>
        requires fresh { IfSome (C.told stream) (λ o. (o.given ≡ []) × (o.written ≡ [])) }
        ensures stands { (told : Option (Request → Answer)) → Stands C.told C.faults told result }
        ensures begins { Begins stream result }
    {
        StreamConnection {
            alloc,
            stream,
            octets: Bytes::new(alloc),
            part: Part::Line(Bytes::new(alloc)),
            request: no_request(alloc),
            spare: Spare::new(alloc),
            made: Bytes::new(alloc),
            sent: 0,
            answered: 0,
            abandoned: false,
            stage: Stage::Reading,
        }
    }

    /// What the connection wants next.
    pub fn wants(&self) -> Wants
        ensures { result ≡ wants_of self.now }
    {
        wants_at(self.abandoned, self.stage, self.sent == self.made.len())
    }

    // What came of the octets behind the last request.
    fn take_read(&mut self, read: RequestRead) -> Result<(), NoMemory>
        requires { IsReadyRead read }
        ensures stands { (told : Option (Request → Answer)) (rest : List ℕ)
            → ReadsAt self.old.octets rest read → StandsBetween C.told C.faults told rest self.old
            → Stands C.told C.faults told self.new }
        ensures ok { OnOk result (self.new.stage ≡ read_stage read) }
        ensures stream { self.new.stream ≡ self.old.stream }
        ensures octets { self.new.octets ≡ self.old.octets }
        ensures sent { self.new.sent ≡ self.old.sent }
        ensures answered { self.new.answered ≡ self.old.answered }
        ensures abandoned { self.new.abandoned ≡ self.old.abandoned }
    {
        match read {
            RequestRead::More(part) => {
                self.part = part;
                self.stage = Stage::Reading;
            }
            RequestRead::Whole(request, left) => {
                self.request = request;
                self.stage = Stage::Asked(left);
            }
            RequestRead::Fault(code) => {
                self.stage = Stage::Broken;
                push_fault(&mut self.made, code)?;
                self.stage = Stage::Settled(End::Bad(code));
            }
        }
        Ok(())
    }

    /// Looks at the octets behind the last request, where the connection wants it. Where memory is
    /// lacking before they were taken, nothing changes.
    pub fn look(&mut self) -> Result<(), NoMemory>
        ensures stands { (told : Option (Request → Answer)) → Stands C.told C.faults told self.old
            → Stands C.told C.faults told self.new }
        ensures looks { OnOk result (LooksAt (wants_of self.old) self.old self.new) }
    {
        let Some(left) = unlooked(self.abandoned, self.stage) else {
            return Ok(());
        };
        let read = open(
            self.alloc,
            &mut self.spare,
            last(self.octets.as_slice(), left),
        )?;
        self.take_read(read)
    }

    // Reads on in a request with the octets that stand behind the first ones.
    fn take_octets(&mut self, from: usize) -> Result<(), NoMemory>
        requires { from ≤ length self.old.octets }
        ensures stands { (told : Option (Request → Answer)) (rest : List ℕ)
            → IsReading self.old.part rest
            → StandsBetween C.told C.faults told (rest ++ drop from self.old.octets) self.old
            → Stands C.told C.faults told self.new }
        ensures drained { OnOk result (is_drained self.new.stage ≡ false) }
        ensures stream { self.new.stream ≡ self.old.stream }
        ensures octets { self.new.octets ≡ self.old.octets }
        ensures sent { self.new.sent ≡ self.old.sent }
        ensures answered { self.new.answered ≡ self.old.answered }
        ensures abandoned { self.new.abandoned ≡ self.old.abandoned }
    {
        self.stage = Stage::Broken;
        let part = mem::replace(&mut self.part, Part::Line(Bytes::new(self.alloc)));
        let piece = &self.octets.as_slice()[from..];
        let read = read_on(self.alloc, &mut self.spare, part, piece)?;
        self.take_read(read)
    }

    // The stream ended: what came of a request that isn't whole is a fault.
    fn take_end(&mut self) -> Result<(), NoMemory>
        ensures stands { (told : Option (Request → Answer)) (rest : List ℕ)
            → IsReading self.old.part rest → IsAtEnd (C.told self.old.stream)
            → self.old.stage ≡ stages.Reading
            → StandsBetween C.told C.faults told rest self.old
            → Stands C.told C.faults told self.new }
        ensures drained { OnOk result (is_drained self.new.stage ≡ false) }
        ensures stream { self.new.stream ≡ self.old.stream }
        ensures octets { self.new.octets ≡ self.old.octets }
        ensures sent { self.new.sent ≡ self.old.sent }
        ensures answered { self.new.answered ≡ self.old.answered }
        ensures abandoned { self.new.abandoned ≡ self.old.abandoned }
    {
        if is_idle(&self.part) {
            self.stage = Stage::Ended(End::Clean);
            return Ok(());
        }
        push_fault(&mut self.made, 400)?;
        self.stage = Stage::Ended(End::Bad(400));
        Ok(())
    }

    /// Reads on in a request that isn't whole: one read of the stream.
    pub fn read(&mut self) -> Result<Got, NoMemory>
        requires { self.old.stage ≡ stages.Reading }
        ensures stands { (told : Option (Request → Answer)) → Stands C.told C.faults told self.old
            → Stands C.told C.faults told self.new }
        ensures once { IfOk result (λ answer. ReadOnce C.told C.faults C.pauses answer self.old
            self.new) }
    {
        let from = self.octets.len();
        let room = from.max(FEWEST).min(MOST);
        let got = read_behind(self.alloc, &mut self.stream, &mut self.octets, room)?;
        match got {
            Got::Bytes(_) => self.take_octets(from)?,
            Got::End => self.take_end()?,
            Got::NotYet => {}
            Got::Failed => self.abandoned = true,
        }
        Ok(got)
    }

    /// The request that is whole, where one is.
    pub fn asked(&self) -> &Request
        ensures { result.now ≡ self.now.request }
    {
        self.request.request()
    }

    /// Makes the text of the answer to the request that is whole; where a drain began, it says that
    /// the connection closes. Where memory is lacking nothing changes.
    pub fn put_answer(&mut self, answer: &Answer, drained: bool) -> Result<(), NoMemory>
        ensures stands { (told : Option (Request → Answer))
            → IfSome told (λ f. answer.now ≡ f self.old.request)
            → Stands C.told C.faults told self.old → Stands C.told C.faults told self.new }
        ensures answered { OnOk result (AnsweredOnce drained answer.now self.old self.new) }
        ensures lacks { OnErr result (self.new ≡ self.old) }
    {
        let Some(left) = asked_left(self.stage) else {
            return Ok(());
        };
        let _room = self.octets.len();
        let goes_on = self.request.persists();
        let closes = closes_after(goes_on, drained);
        push_answer(
            self.alloc,
            &mut self.made,
            self.request.request(),
            answer,
            closes,
        )?;
        self.answered = self.answered.saturating_add(1);
        self.stage = answered_stage(goes_on, drained, left);
        let request = mem::replace(&mut self.request, no_request(self.alloc));
        self.spare.keep(request.into_request());
        Ok(())
    }

    /// One write to the stream, of all texts that were made and not written.
    pub fn write(&mut self) -> Put
        ensures stands { (told : Option (Request → Answer)) → Stands C.told C.faults told self.old
            → Stands C.told C.faults told self.new }
        ensures once { WroteOnce C.told C.faults C.pauses result self.old self.new }
    {
        let put = self.stream.write(&self.made.as_slice()[self.sent..]);
        match put {
            Put::Bytes(count) => self.sent += count,
            Put::NotYet => {}
            Put::Failed => self.abandoned = true,
        }
        put
    }

    /// Where a drain began, no further request is read; one that is whole is still answered.
    pub fn drain(&mut self, drained: bool)
        ensures stands { (told : Option (Request → Answer)) → Stands C.told C.faults told self.old
            → Stands C.told C.faults told self.new }
        ensures drained { self.new ≡ drained_of drained self.old }
    {
        self.stage = drained_stage(drained, self.stage);
    }

    // A read or a look, as the connection wants it.
    pub(crate) fn read_wanted(&mut self, wanted: Wants) -> Result<Next, NoMemory>
        requires { wanted ≡ wants_of self.old }
        ensures stands { (told : Option (Request → Answer)) → Stands C.told C.faults told self.old
            → Stands C.told C.faults told self.new }
        ensures moves { IfOk result (λ next. ReadMove C.told C.faults C.pauses wanted self.old
            self.new next) }
    {
        match wanted {
            Wants::Look => {
                self.look()?;
                after_reading(self.wants())
            }
            Wants::Read => {
                let got = self.read()?;
                after_read(got, self.wants())
            }
            Wants::Answer => after_reading(Wants::Answer),
            Wants::Write => after_reading(Wants::Write),
            Wants::End => after_reading(Wants::End),
            Wants::Abandoned => after_reading(Wants::Abandoned),
            Wants::Memory => Err(NoMemory),
        }
    }

    // An answer of the service, where the connection wants it.
    pub(crate) fn answer_wanted<V: Service>(
        &mut self,
        wanted: Wants,
        service: &mut V,
        drained: bool,
    ) -> Result<Next, NoMemory>
        requires { wanted ≡ wants_of self.old }
        ensures stands { Stands C.told C.faults V.told self.old
            → Stands C.told C.faults V.told self.new }
        ensures moves { IfOk result (λ next. AnswerMove V.told drained wanted self.old self.new
            next) }
        ensures lacks { OnErr result (self.new ≡ self.old) }
        ensures service { IsAsked wanted service.old service.new }
    {
        match wanted {
            Wants::Look => after_reading(Wants::Look),
            Wants::Read => after_reading(Wants::Read),
            Wants::Answer => {
                let answer = service.answer(self.alloc, self.asked())?;
                self.put_answer(&answer, drained)?;
                after_reading(self.wants())
            }
            Wants::Write => after_reading(Wants::Write),
            Wants::End => after_reading(Wants::End),
            Wants::Abandoned => after_reading(Wants::Abandoned),
            Wants::Memory => Err(NoMemory),
        }
    }

    // A write, where the connection wants it.
    pub(crate) fn write_wanted(&mut self, wanted: Wants) -> Result<Next, NoMemory>
        requires { wanted ≡ wants_of self.old }
        ensures stands { (told : Option (Request → Answer)) → Stands C.told C.faults told self.old
            → Stands C.told C.faults told self.new }
        ensures moves { IfOk result (λ next. WriteMove C.told C.faults C.pauses wanted self.old
            self.new next) }
    {
        match wanted {
            Wants::Look => after_writing(Wants::Look),
            Wants::Read => after_writing(Wants::Read),
            Wants::Answer => after_writing(Wants::Answer),
            Wants::Write => {
                let put = self.write();
                after_write(put, self.wants())
            }
            Wants::End => after_writing(Wants::End),
            Wants::Abandoned => after_writing(Wants::Abandoned),
            Wants::Memory => Err(NoMemory),
        }
    }

    /// What a connection was that has ended. Takes no memory.
    pub fn finish(self) -> Finished<C>
        requires { IsOver (wants_of self) }
        ensures ends { EndsAs self result }
        ensures keeps { (told : Option (Request → Answer)) → Stands C.told C.faults told self
            → KeepsPromise C.told C.faults told result }
    {
        let drained = is_drained(self.stage);
        let closes = is_closing(self.stage);
        let sent = self.sent;
        let mut written = self.made;
        written.truncate(sent);
        Finished {
            stream: self.stream,
            read: self.octets,
            written,
            answered: self.answered,
            abandoned: self.abandoned,
            drained,
            closes,
        }
    }
}
