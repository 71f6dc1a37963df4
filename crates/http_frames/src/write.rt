//! Chunks that are written.
ghost use Rattle.std.specs.Prelude.{◌≡◌, ◌<◌, ◌++◌, length, take, OnOk, OnErr};
ghost use Rattle.http_frames.specs.Written.{chunk_of};

use kj_base::{Bytes, NoMemory};
use std::alloc::Global;

// Appends a chunk with its line; after want of memory a part of it may stand behind the octets.
fn append_chunk(alloc: Global, out: &mut Bytes, piece: &[u8]) -> Result<(), NoMemory>
    ensures ok { OnOk result (out.new ≡ out.old ++ chunk_of piece.now) }
    ensures err { OnErr result (take (length out.old) out.new ≡ out.old) }
{
    let size = piece.len();
    let digits = format!(in alloc; "{size:x}")?;
    out.extend(digits.as_bytes())?;
    out.extend(b"\r\n")?;
    out.extend(piece)?;
    out.extend(b"\r\n")
}

/// Appends one chunk with this data (RFC 9112, section 7.1). No data would be the last chunk, which
/// this call does not write.
pub fn write_chunk(alloc: Global, out: &mut Bytes, piece: &[u8]) -> Result<(), NoMemory>
    requires { 0 < length piece.now }
    ensures ok { OnOk result (out.new ≡ out.old ++ chunk_of piece.now) }
    ensures err { OnErr result (out.new ≡ out.old) }
{
    let before = out.len();
    match append_chunk(alloc, out, piece) {
        Ok(()) => Ok(()),
        Err(error) => {
            out.truncate(before);
            Err(error)
        }
    }
}
