//! The command `replay`: recorded connections in, the replies to them out.
ghost use Rattle.std.specs.Prelude.{◌≡◌, IfOk, IfSome, false};
ghost use Rattle.http_core.specs.Replies.{IsReplies};
ghost use Rattle.kj_serve.specs.Outside.{outside_of};
ghost use Rattle.kj_serve.specs.Replay.{ReplayEnds, IsReplyText, whole_in, answers_of};

use crate::output::{finish, write_numbered};
use crate::status::{BAD_INPUT, DONE, NO_MEMORY, READ_FAILED, TOO_LONG};
use conn_record::{RecordRefused, Records, Replies, print_replies, read_records};
use http_core::{Connection, Echo, Service, Target};
use kj_base::{Bytes, INPUT_LIMIT, NoMemory};
use kj_io::{Read, Sink, Source, Spawner, read_whole};
use std::alloc::Global;
use std::sync::Wait;
use std::thread::Threads;

/// The services of the program.
#[derive(Clone, Copy, Debug, PartialEq, Eq)]
pub enum ServiceName {
    /// Answers with the request's body.
    Echo,
    /// Answers with the request's method and target.
    Target,
}

/// Reads a recording and writes the replies to each of its connections, in order; gives the status.
/// So far it serves on no loop and writes no trace: what is given for these isn't used yet.
pub fn replay_command<R: Wait + Threads + Sync, I: Source, O: Sink, W: Spawner>(
    _rt: &R,
    alloc: Global,
    _loops: u32,
    service: ServiceName,
    _trace: bool,
    input: &mut I,
    output: &mut O,
    _spawner: &mut W,
) -> u8
    requires one_loop { _loops ≡ 1 }
    requires no_trace { _trace ≡ false }
    ensures ends { ReplayEnds (answers_of service) result
        (outside_of I.left I.faults O.taken O.faults input.old output.old)
        (outside_of I.left I.faults O.taken O.faults input.new output.new) }
    ensures no_jobs { _spawner.new ≡ _spawner.old }
{
    let octets = match read_whole(alloc, input, INPUT_LIMIT) {
        Read::Whole(octets) => octets,
        Read::TooLong => return TOO_LONG,
        Read::Failed => return READ_FAILED,
        Read::NoMemory => return NO_MEMORY,
    };
    let records = match read_records(alloc, octets.as_slice()) {
        Ok(records) => records,
        Err(refused) => {
            return match whole_in(refused) {
                Some(whole) => write_numbered(alloc, output, b"bad record ", whole, BAD_INPUT),
                None => NO_MEMORY,
            };
        }
    };
    match replies_of(alloc, service, records) {
        Ok(text) => finish(output, text.as_slice(), DONE),
        Err(NoMemory) => NO_MEMORY,
    }
}

// How many connections of a bad recording are whole.
fn whole_in(refused: RecordRefused) -> Option<u32>
    ensures { result ≡ whole_in refused }
{
    match refused {
        RecordRefused::Bad { whole } => Some(whole),
        RecordRefused::NoMemory => None,
    }
}

// The text of the replies to these connections.
fn replies_of(alloc: Global, service: ServiceName, records: Records) -> Result<Bytes, NoMemory>
    ensures { IfOk result (IsReplyText (answers_of service) records) }
{
    match service {
        ServiceName::Echo => serve_all(alloc, Echo, records),
        ServiceName::Target => serve_all(alloc, Target, records),
    }
}

// The same, by one service for all of them. What a connection sent is dropped once it is served, so
// that its memory serves the next reply.
fn serve_all<S: Service + Drop>(
    alloc: Global,
    mut service: S,
    records: Records,
) -> Result<Bytes, NoMemory>
    ensures { IfSome S.told (λ f. IfOk result (IsReplyText f records)) }
{
    let mut replies = Replies::new(alloc);
    for record in records.into_vec() {
        let (written, back) = serve(alloc, service, record.as_slice())?;
        service = back;
        replies.push(written)?;
    }
    print_replies(alloc, &replies)
}

// What is written to a connection that sends these octets, and the service again.
fn serve<S: Service + Drop>(
    alloc: Global,
    service: S,
    octets: &[u8],
) -> Result<(Bytes, S), NoMemory>
    ensures { IfSome S.told (λ f. IfOk result (λ r. IsReplies f octets.now r.0)) }
{
    let mut connection = Connection::new(alloc, service);
    connection.feed(octets)?;
    connection.end()?;
    let written = connection.take_output();
    Ok((written, connection.service()))
}
