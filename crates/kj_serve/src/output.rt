//! The last step of a command: its output is written.
ghost use Rattle.std.specs.Prelude.{◌≡◌, ◌≢◌, ◌⊎◌, IfOk};
ghost use Rattle.std.specs.Io.KnownBytes.{Appends};
ghost use Rattle.kj_io.specs.Causes.{Rose};
ghost use Rattle.kj_io.specs.Whole.{WroteFront};
ghost use Rattle.kj_serve.specs.Outside.{numbered};

use crate::status::{NO_MEMORY, WRITE_FAILED};
use itoa::Buffer;
use kj_base::{Bytes, NoMemory};
use kj_io::{Failed, Sink, write_all};
use std::alloc::Global;

/// Writes all of a text, and gives this status, or that of a write that failed.
pub fn finish<O: Sink>(output: &mut O, text: &[u8], status: u8) -> u8
    requires { status ≢ 4 }
    ensures done { result ≡ status → Appends (O.taken output.old) (O.taken output.new) text.now }
    ensures cause { result ≡ 4 → Rose (O.faults output.old) (O.faults output.new) }
    ensures front { result ≡ 4 → WroteFront (O.taken output.old) (O.taken output.new) text.now }
    ensures statuses { (result ≡ status) ⊎ (result ≡ 4) }
{
    match write_all(output, text) {
        Ok(()) => status,
        Err(Failed) => WRITE_FAILED,
    }
}

/// Writes a line of a number behind these words, and gives this status, or that of a write that
/// failed or of want of memory, with nothing written.
pub fn write_numbered<O: Sink>(
    alloc: Global,
    output: &mut O,
    words: &[u8],
    number: u32,
    status: u8,
) -> u8
    requires no_fault { status ≢ 4 }
    requires no_lack { status ≢ 5 }
    ensures done { result ≡ status
        → Appends (O.taken output.old) (O.taken output.new) (numbered words.now number) }
    ensures cause { result ≡ 4 → Rose (O.faults output.old) (O.faults output.new) }
    ensures front { result ≡ 4
        → WroteFront (O.taken output.old) (O.taken output.new) (numbered words.now number) }
    ensures no_memory { result ≡ 5 → O.taken output.new ≡ O.taken output.old }
    ensures statuses { (result ≡ status) ⊎ (result ≡ 4) ⊎ (result ≡ 5) }
{
    let Ok(line) = numbered_line(alloc, words, number) else {
        return NO_MEMORY;
    };
    finish(output, line.as_slice(), status)
}

// That line.
fn numbered_line(alloc: Global, words: &[u8], number: u32) -> Result<Bytes, NoMemory>
    ensures { IfOk result (λ line. line ≡ numbered words.now number) }
{
    let mut buffer = Buffer::new();
    let mut line = Bytes::from_slice(alloc, words)?;
    line.extend(buffer.format(number).as_bytes())?;
    line.push(b'\n')?;
    Ok(line)
}
