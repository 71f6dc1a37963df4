//! A connection over a service.
ghost use Rattle.std.specs.Prelude.{◌≡◌, ◌≢◌, ◌++◌, not, IfSome, IfOk, OnOk, OnErr, ℕ, List, []};
ghost use Rattle.http_heads.specs.Framing.{persists};
ghost use Rattle.http_core.specs.Requests.{reply};
ghost use Rattle.http_core.specs.Reading.{phase_of, IsReadyRead, IsReading};
ghost use Rattle.http_core.specs.Serving.{IsReadyAfter, Serves, Grows};
ghost use Rattle.http_frames.specs.declared.Phase.TheVariants.{Going};

use crate::read::{Part, RequestRead, is_idle, last, open, read_on};
use crate::ruled::RuledRequest;
use crate::spare::Spare;
use crate::text::{push_answer, push_fault};
use crate::{End, Service};
use http_frames::Phase;
use kj_base::{Bytes, NoMemory};
use std::alloc::Global;
use std::mem;

/// What `feed` did.
#[derive(Clone, Copy, Debug, PartialEq, Eq)]
pub enum Fed {
    /// The connection takes more octets.
    More,
    /// It takes no more: octets that come are dropped.
    Closed,
}

/// How a connection stands.
#[derive(Clone, Copy, Debug, PartialEq, Eq)]
pub enum ConnectionState {
    /// It takes octets.
    Going,
    /// Whatever follows, its requests end so.
    Settled(End),
    /// No more octets come, and its requests ended so.
    Ended(End),
    /// No further request is answered.
    Drained,
    /// Memory ran out.
    Broken,
}

// What came of a piece.
#[derive(Debug, Drop)]
pub(crate) enum AfterPiece {
    More(Part),
    Settled(End),
}

// Answers a request, and says whether the connection goes on after it.
fn answer<S: Service>(
    alloc: Global,
    service: &mut S,
    request: &RuledRequest,
    output: &mut Bytes,
) -> Result<bool, NoMemory>
    ensures persists { IfOk result (λ goes_on. goes_on ≡ persists request.now.head) }
    ensures ok { OnOk result (IfSome S.told (λ f. output.new ≡ output.old ++ reply f request.now)) }
    ensures err { OnErr result (output.new ≡ output.old) }
    ensures grows { Grows output.old output.new }
{
    let goes_on = request.persists();
    let request = request.request();
    let answer = service.answer(alloc, request)?;
    push_answer(alloc, output, request, &answer, !goes_on)?;
    Ok(goes_on)
}

// Answers the requests that are whole with a piece.
fn serve<S: Service>(
    alloc: Global,
    service: &mut S,
    spare: &mut Spare,
    part: Part,
    piece: &[u8],
    output: &mut Bytes,
) -> Result<AfterPiece, NoMemory>
    requires { phase_of part ≡ Phase.Going }
    ensures ready { IfOk result IsReadyAfter }
    ensures serves { (bytes : List ℕ) → IsReading part bytes
        → Serves S.told (bytes ++ piece.now) output.old output.new result }
    ensures grows { Grows output.old output.new }
{
    let mut rest = piece;
    let mut step = read_on(alloc, spare, part, rest)?;
    loop {
        match step {
            RequestRead::More(part) => return Ok(AfterPiece::More(part)),
            RequestRead::Fault(code) => {
                push_fault(output, code)?;
                return Ok(AfterPiece::Settled(End::Bad(code)));
            }
            RequestRead::Whole(request, left) => {
                if !answer(alloc, service, &request, output)? {
                    return Ok(AfterPiece::Settled(End::Closed));
                }
                spare.keep(request.into_request());
                rest = last(rest, left);
                step = open(alloc, spare, rest)?;
            }
        }
    }
}

/// Reads requests from octets that come in pieces, and writes the answers of a service.
#[derive(Drop)]
pub struct Connection<S> {
    service: S,
    alloc: Global,
    part: Part,
    spare: Spare,
    output: Bytes,
    state: ConnectionState,
    ghost ready: { phase_of part ≡ Going },
}

impl<S: Service> Connection<S> {
    ghost use Rattle.http_core.specs.Replies.{IsReplies};
    ghost use Rattle.http_core.specs.Standing.{WasFed, state_of, output_of, service_of, fed_of, ended_of, fed_with, drained_of, FeedLeaves, EndLeaves};

    /// Takes no memory.
    pub fn new(alloc: Global, service: S) -> Connection<S>
        ensures served { WasFed S.told result [] [] }
        ensures going { state_of result ≡ ConnectionState.Going }
        ensures output { output_of result ≡ [] }
        ensures service { service_of result ≡ service }
    {
        Connection {
            service,
            alloc,
            part: Part::Line(Bytes::new(alloc)),
            spare: Spare::new(alloc),
            output: Bytes::new(alloc),
            state: ConnectionState::Going,
        }
    }

    /// Takes the next octets, and answers the requests that are whole with them. After want of
    /// memory the output still has the answers that were whole.
    pub fn feed(&mut self, piece: &[u8]) -> Result<Fed, NoMemory>
        ensures says { result ≡ fed_of (state_of self.new) }
        ensures served { (fed taken : List ℕ) → WasFed S.told self.old fed taken
            → WasFed S.told self.new (fed_with (state_of self.old) fed piece.now) taken }
        ensures stays { state_of self.old ≢ ConnectionState.Going → self.new ≡ self.old }
        ensures leaves { state_of self.old ≡ ConnectionState.Going
            → FeedLeaves (state_of self.new) }
        ensures grows { Grows (output_of self.old) (output_of self.new) }
    {
        match self.state {
            ConnectionState::Broken => return Err(NoMemory),
            ConnectionState::Settled(_) => return Ok(Fed::Closed),
            ConnectionState::Ended(_) => return Ok(Fed::Closed),
            ConnectionState::Drained => return Ok(Fed::Closed),
            ConnectionState::Going => {}
        }
        let part = mem::replace(&mut self.part, Part::Line(Bytes::new(self.alloc)));
        match serve(
            self.alloc,
            &mut self.service,
            &mut self.spare,
            part,
            piece,
            &mut self.output,
        ) {
            Err(error) => {
                self.state = ConnectionState::Broken;
                Err(error)
            }
            Ok(AfterPiece::More(part)) => {
                self.part = part;
                Ok(Fed::More)
            }
            Ok(AfterPiece::Settled(end)) => {
                self.state = ConnectionState::Settled(end);
                Ok(Fed::Closed)
            }
        }
    }

    /// No more octets come: what came of a request that isn't whole is a fault.
    pub fn end(&mut self) -> Result<(), NoMemory>
        ensures says { result ≡ ended_of (state_of self.new) }
        ensures served { (fed taken : List ℕ) → WasFed S.told self.old fed taken
            → WasFed S.told self.new fed taken }
        ensures leaves { state_of self.old ≡ ConnectionState.Going → EndLeaves (state_of self.new) }
        ensures grows { Grows (output_of self.old) (output_of self.new) }

        // The output taken and ready is all replies to what was fed.
        ensures replies { OnOk result (state_of self.old ≢ ConnectionState.Drained
            → (fed taken : List ℕ) → WasFed S.told self.old fed taken
            → IfSome S.told (λ f. IsReplies f fed (taken ++ output_of self.new))) }
        ensures stays { state_of self.old ≢ ConnectionState.Going → self.new ≡ self.old }
        ensures service { service_of self.new ≡ service_of self.old }
    {
        match self.state {
            ConnectionState::Broken => return Err(NoMemory),
            ConnectionState::Settled(_) => return Ok(()),
            ConnectionState::Ended(_) => return Ok(()),
            ConnectionState::Drained => return Ok(()),
            ConnectionState::Going => {}
        }
        if is_idle(&self.part) {
            self.state = ConnectionState::Ended(End::Clean);
            return Ok(());
        }
        match push_fault(&mut self.output, 400) {
            Err(error) => {
                self.state = ConnectionState::Broken;
                Err(error)
            }
            Ok(()) => {
                self.state = ConnectionState::Ended(End::Bad(400));
                Ok(())
            }
        }
    }

    /// No further request is answered. Takes no memory.
    pub fn drain(&mut self)
        ensures state { state_of self.new ≡ drained_of (state_of self.old) }
        ensures served { (fed taken : List ℕ) → WasFed S.told self.old fed taken
            → WasFed S.told self.new fed taken }
        ensures output { output_of self.new ≡ output_of self.old }
        ensures service { service_of self.new ≡ service_of self.old }
    {
        match self.state {
            ConnectionState::Going => self.state = ConnectionState::Drained,
            ConnectionState::Settled(_) => {}
            ConnectionState::Ended(_) => {}
            ConnectionState::Drained => {}
            ConnectionState::Broken => {}
        }
    }

    /// What is ready and not yet taken. Takes no memory.
    pub fn take_output(&mut self) -> Bytes
        ensures output { result ≡ output_of self.old }
        ensures taken { output_of self.new ≡ [] }
        ensures served { (fed taken : List ℕ) → WasFed S.told self.old fed taken
            → WasFed S.told self.new fed (taken ++ result) }
        ensures state { state_of self.new ≡ state_of self.old }
        ensures service { service_of self.new ≡ service_of self.old }
    {
        mem::replace(&mut self.output, Bytes::new(self.alloc))
    }

    /// Gives the service back. Takes no memory.
    pub fn service(self) -> S
        ensures { result ≡ service_of self }
    {
        self.service
    }
}
