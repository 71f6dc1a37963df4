//! The steps of a connection of a server.
use crate::connection::StreamConnection;
use crate::next::{Next, Wants, is_wait};
use crate::served::Served;
use http_core::Service;
use kj_base::NoMemory;
use kj_io::Stream;
use std::alloc::Global;
use std::marker::{Model, PhantomData};

/// A connection of a server, with the type of the service that answers it. Its type keeps what is
/// promised of the octets written, whatever steps it takes, and in whatever order.
#[derive(Drop)]
pub struct ServedConnection<V: Service, C: Stream> {
    connection: StreamConnection<C>,
    waits: bool,
    service: PhantomData<V>,
}

impl<V: Service, C: Stream> Model for ServedConnection<V, C> {
    ghost use Rattle.http_stream.specs.Standing.{Stands};
    ghost use Rattle.http_stream.specs.Steps.{Held};

    ghost Value = { Held C };

    ghost view = { λ s. record { connection = s.connection; waits = s.waits } };

    ghost invariant = { λ s. Stands C.told C.faults V.told s.connection };
}

impl<V: Service, C: Stream> ServedConnection<V, C> {
    ghost use Rattle.std.specs.Prelude.{◌≡◌, false, IfSome, IfOk, OnErr, [], IsTrue};
    ghost use Rattle.http_stream.specs.Moves.{Begins, wants_of};
    ghost use Rattle.http_stream.specs.Served.{EndsAs};
    ghost use Rattle.http_stream.specs.Steps.{ReadStep, AnswerStep, WriteStep, IsAsked, IsOver};

    /// A connection over a stream that gave and took nothing yet; its first step reads. Takes no
    /// memory.
    pub fn new(alloc: Global, stream: C) -> ServedConnection<V, C>
        requires fresh { IfSome (C.told stream) (λ o. (o.given ≡ []) × (o.written ≡ [])) }
        ensures begins { Begins stream result.connection }
        ensures waits { result.waits ≡ false }
    {
        ServedConnection {
            connection: StreamConnection::new(alloc, stream),
            waits: false,
            service: PhantomData,
        }
    }

    /// The reading step: one read of the stream, where a request isn't whole and all texts were
    /// written. Where a drain began it drops a request that isn't whole.
    pub fn read(&mut self, drained: bool) -> Result<Next, NoMemory>
        ensures { IfOk result (λ next. ReadStep C.told C.faults C.pauses drained self.old self.new
            next) }
    {
        self.waits = false;
        self.connection.drain(drained);
        let wanted = self.connection.wants();
        let next = self.connection.read_wanted(wanted)?;
        self.waits = is_wait(next);
        Ok(next)
    }

    /// The answering step: the text of the answer to a request that is whole. Where a drain began
    /// it says that the connection closes.
    pub fn answer(&mut self, service: &mut V, drained: bool) -> Result<Next, NoMemory>
        ensures step { IfOk result (λ next. AnswerStep V.told drained self.old self.new next) }
        ensures lacks { OnErr result (self.new ≡ record self.old { waits = false }) }
        ensures service { IsAsked (wants_of self.old.connection) service.old service.new }
    {
        self.waits = false;
        let wanted = self.connection.wants();
        let next = self.connection.answer_wanted(wanted, service, drained)?;
        self.waits = is_wait(next);
        Ok(next)
    }

    /// The writing step: one write of all texts that weren't written, unless the next request is
    /// whole already. Where a drain began it drops a request that isn't whole.
    pub fn write(&mut self, drained: bool) -> Result<Next, NoMemory>
        ensures { IfOk result (λ next. WriteStep C.told C.faults C.pauses drained self.old self.new
            next) }
    {
        self.waits = false;
        self.connection.drain(drained);
        self.connection.look()?;
        let wanted = self.connection.wants();
        let next = self.connection.write_wanted(wanted)?;
        self.waits = is_wait(next);
        Ok(next)
    }

    /// Whether its last step waits for its stream.
    pub fn waits(&self) -> bool
        ensures { result ≡ self.now.waits }
    {
        self.waits
    }

    /// Whether it has ended, or is abandoned.
    pub fn is_over(&self) -> bool
        ensures over { IsTrue result → IsOver (wants_of self.now.connection) }
        ensures going { IsOver (wants_of self.now.connection) → IsTrue result }
    {
        match self.connection.wants() {
            Wants::Look => false,
            Wants::Read => false,
            Wants::Answer => false,
            Wants::Write => false,
            Wants::End => true,
            Wants::Abandoned => true,
            Wants::Memory => false,
        }
    }

    /// What a connection was that has ended, with its place. Takes no memory.
    pub fn finish(self, index: u32) -> Served<V, C>
        requires { IsOver (wants_of self.connection) }
        ensures index { result.index ≡ index }
        ensures ends { EndsAs self.connection result.finished }
    {
        Served::new(index, self.connection.finish())
    }
}
