//! Connections that have ended.
use http_core::Service;
use kj_base::Bytes;
use kj_io::Stream;
use std::marker::{Model, PhantomData};

/// A connection that has ended.
#[derive(Drop)]
pub struct Finished<C> {
    pub stream: C,
    /// All octets that were read.
    pub read: Bytes,
    /// All octets that were written.
    pub written: Bytes,
    /// How many requests were answered.
    pub answered: u64,
    /// A call on its stream failed.
    pub abandoned: bool,
    /// A drain ended it.
    pub drained: bool,
    /// The last answer says that the connection closes, since the drain had begun before it.
    pub closes: bool,
}

/// A connection of a server that has ended, with its place. Its type keeps what is promised of the
/// octets written, for a service of type `V`.
#[derive(Drop)]
pub struct Served<V: Service, C: Stream> {
    index: u32,
    finished: Finished<C>,
    service: PhantomData<V>,
}

impl<V: Service, C: Stream> Model for Served<V, C> {
    ghost use Rattle.http_stream.specs.Places.{Placed};
    ghost use Rattle.http_stream.specs.Served.{KeepsPromise};

    ghost Value = { Placed C };

    ghost view = { λ s. record { index = s.index; finished = s.finished } };

    ghost invariant = { λ s. KeepsPromise C.told C.faults V.told s.finished };
}

impl<V: Service, C: Stream> Served<V, C> {
    ghost use Rattle.std.specs.Prelude.{◌≡◌};
    ghost use Rattle.http_stream.specs.Served.{KeepsPromise};

    /// Keeps a promise that holds.
    pub fn new(index: u32, finished: Finished<C>) -> Served<V, C>
        requires { KeepsPromise C.told C.faults V.told finished }
        ensures { result ≡ record { index = index; finished = finished } }
    {
        Served {
            index,
            finished,
            service: PhantomData,
        }
    }

    /// The place of the connection.
    pub fn index(&self) -> u32
        ensures { result ≡ self.now.index }
    {
        self.index
    }

    /// What the connection was, to look at.
    pub fn finished(&self) -> &Finished<C>
        ensures value { result.now ≡ self.now.finished }
        ensures keeps { KeepsPromise C.told C.faults V.told result.now }
    {
        &self.finished
    }

    /// What the connection was. Takes no memory.
    pub fn into_finished(self) -> Finished<C>
        ensures value { result ≡ self.finished }
        ensures keeps { KeepsPromise C.told C.faults V.told result }
    {
        self.finished
    }
}
