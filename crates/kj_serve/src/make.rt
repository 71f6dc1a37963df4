//! The command `make`: the generator's recording.
ghost use Rattle.std.specs.Prelude.{◌≡◌, ◌⊎◌};
ghost use Rattle.std.specs.Io.KnownBytes.{Appends};
ghost use Rattle.kj_io.specs.Causes.{Rose};
ghost use Rattle.kj_io.specs.Whole.{WroteFront};
ghost use Rattle.kj_serve.specs.Make.{made_text};

use crate::output::finish;
use crate::status::{DONE, NO_MEMORY};
use conn_record::make_recording;
use kj_base::NoMemory;
use kj_io::Sink;
use std::alloc::Global;

/// Writes the recording of a number, with so many connections of so many requests each; gives the
/// status.
pub fn make_command<O: Sink>(
    alloc: Global,
    number: u64,
    conns: u32,
    requests: u32,
    output: &mut O,
) -> u8
    ensures done { result ≡ 0
        → Appends (O.taken output.old) (O.taken output.new) (made_text number conns requests) }
    ensures cause { result ≡ 4 → Rose (O.faults output.old) (O.faults output.new) }
    ensures front { result ≡ 4
        → WroteFront (O.taken output.old) (O.taken output.new) (made_text number conns requests) }
    ensures no_memory { result ≡ 5 → O.taken output.new ≡ O.taken output.old }
    ensures statuses { (result ≡ 0) ⊎ (result ≡ 4) ⊎ (result ≡ 5) }
{
    match make_recording(alloc, number, conns, requests) {
        Ok(text) => finish(output, text.as_slice(), DONE),
        Err(NoMemory) => NO_MEMORY,
    }
}
