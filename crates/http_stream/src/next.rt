//! What a connection wants, and what follows a step of it.
ghost use Rattle.std.specs.Prelude.{◌≡◌};
ghost use Rattle.http_stream.specs.Moves.{wants_at, write_or, after_reading, after_writing};
ghost use Rattle.http_stream.specs.Steps.{after_read, after_write, is_wait};

use crate::stage::Stage;
use kj_base::NoMemory;
use kj_io::{Got, Put};

/// What a connection wants next.
#[derive(Clone, Copy, Debug, PartialEq, Eq)]
pub enum Wants {
    /// A look at the octets that stand behind the last request.
    Look,
    /// A read of the stream.
    Read,
    /// An answer to the request that is whole.
    Answer,
    /// A write of the texts that weren't written yet.
    Write,
    /// It has ended: nothing.
    End,
    /// A call on its stream failed: nothing.
    Abandoned,
    /// Memory ran out: nothing.
    Memory,
}

/// The steps of a connection.
#[derive(Clone, Copy, Debug, PartialEq, Eq)]
pub enum ConnectionStep {
    Read,
    Answer,
    Write,
}

/// What follows a step of a connection.
#[derive(Clone, Copy, Debug, PartialEq, Eq)]
pub enum Next {
    /// Another step.
    Go(ConnectionStep),
    /// The step again, once the stream is ready for it.
    Wait(ConnectionStep),
    /// The connection has ended.
    End,
    /// A call on its stream failed: the connection is abandoned.
    Abandoned,
}

// What a connection wants that isn't abandoned; whether all texts were written.
pub(crate) fn wants_at(abandoned: bool, stage: Stage, all_sent: bool) -> Wants
    ensures { result ≡ wants_at abandoned stage all_sent }
{
    if abandoned {
        return Wants::Abandoned;
    }
    match stage {
        Stage::Open(_) => Wants::Look,
        Stage::Reading => write_or(all_sent, Wants::Read),
        Stage::Asked(_) => Wants::Answer,
        Stage::Settled(_) => write_or(all_sent, Wants::End),
        Stage::Ended(_) => write_or(all_sent, Wants::End),
        Stage::Drained(_) => write_or(all_sent, Wants::End),
        Stage::Broken => Wants::Memory,
    }
}

// Texts that weren't written go first.
fn write_or(all_sent: bool, wants: Wants) -> Wants
    ensures { result ≡ write_or all_sent wants }
{
    if all_sent { wants } else { Wants::Write }
}

// What follows a step in which the connection read, or answered.
pub(crate) fn after_reading(wants: Wants) -> Result<Next, NoMemory>
    ensures { result ≡ after_reading wants }
{
    match wants {
        Wants::Look => Ok(Next::Go(ConnectionStep::Write)),
        Wants::Read => Ok(Next::Go(ConnectionStep::Read)),
        Wants::Answer => Ok(Next::Go(ConnectionStep::Answer)),
        Wants::Write => Ok(Next::Go(ConnectionStep::Write)),
        Wants::End => Ok(Next::End),
        Wants::Abandoned => Ok(Next::Abandoned),
        Wants::Memory => Err(NoMemory),
    }
}

// What follows a step in which the connection wrote: a request that is whole goes through the
// reading step.
pub(crate) fn after_writing(wants: Wants) -> Result<Next, NoMemory>
    ensures { result ≡ after_writing wants }
{
    match wants {
        Wants::Look => Ok(Next::Go(ConnectionStep::Write)),
        Wants::Read => Ok(Next::Go(ConnectionStep::Read)),
        Wants::Answer => Ok(Next::Go(ConnectionStep::Read)),
        Wants::Write => Ok(Next::Go(ConnectionStep::Write)),
        Wants::End => Ok(Next::End),
        Wants::Abandoned => Ok(Next::Abandoned),
        Wants::Memory => Err(NoMemory),
    }
}

// What follows a step in which the stream was read and answered so.
pub(crate) fn after_read(got: Got, wants: Wants) -> Result<Next, NoMemory>
    ensures { result ≡ after_read got wants }
{
    match got {
        Got::Bytes(_) => after_reading(wants),
        Got::End => after_reading(wants),
        Got::NotYet => Ok(Next::Wait(ConnectionStep::Read)),
        Got::Failed => after_reading(wants),
    }
}

// What follows a step in which the stream was written to and answered so.
pub(crate) fn after_write(put: Put, wants: Wants) -> Result<Next, NoMemory>
    ensures { result ≡ after_write put wants }
{
    match put {
        Put::Bytes(_) => after_writing(wants),
        Put::NotYet => Ok(Next::Wait(ConnectionStep::Write)),
        Put::Failed => after_writing(wants),
    }
}

// Whether the connection waits for its stream.
pub(crate) fn is_wait(next: Next) -> bool
    ensures { result ≡ is_wait next }
{
    match next {
        Next::Go(_) => false,
        Next::Wait(_) => true,
        Next::End => false,
        Next::Abandoned => false,
    }
}
