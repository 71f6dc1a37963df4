//! The command `run`: a script in, its log out.
ghost use Rattle.kj_serve.specs.Outside.{outside_of};
ghost use Rattle.kj_serve.specs.Run.{RunEnds};

use crate::output::{finish, write_numbered};
use crate::status::{BAD_INPUT, DONE, NO_MEMORY, NOT_BUILT, READ_FAILED, TOO_LONG};
use kj_base::{INPUT_LIMIT, NoMemory};
use kj_io::{Read, Sink, Source, read_whole};
use kj_script::run_script;
use promise_script::{ReadRefused, read};
use std::alloc::Global;

/// Reads a script and writes its log; gives the status.
pub fn run_command<I: Source, O: Sink>(alloc: Global, input: &mut I, output: &mut O) -> u8
    ensures { RunEnds result
        (outside_of I.left I.faults O.taken O.faults input.old output.old)
        (outside_of I.left I.faults O.taken O.faults input.new output.new) }
{
    let octets = match read_whole(alloc, input, INPUT_LIMIT) {
        Read::Whole(octets) => octets,
        Read::TooLong => return TOO_LONG,
        Read::Failed => return READ_FAILED,
        Read::NoMemory => return NO_MEMORY,
    };
    let script = match read(alloc, octets.as_slice()) {
        Ok(script) => script,
        Err(ReadRefused::Bad { line }) => {
            return write_numbered(alloc, output, b"bad line ", line, BAD_INPUT);
        }
        Err(ReadRefused::NotBuilt { line }) => {
            return write_numbered(alloc, output, b"not built line ", line, NOT_BUILT);
        }
        Err(ReadRefused::NoMemory) => return NO_MEMORY,
    };
    match run_script(alloc, &script) {
        Ok(log) => finish(output, log.as_slice(), DONE),
        Err(NoMemory) => NO_MEMORY,
    }
}
