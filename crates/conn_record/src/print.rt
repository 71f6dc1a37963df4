//! Recordings and replies as text.
ghost use Rattle.conn_record.specs.declared.read.TheConstants.{MAX_CONNS};
ghost use Rattle.std.specs.Prelude.{◌≡◌, ◌++◌, ◌≤◌, length, IfOk, OnOk};
ghost use Rattle.conn_record.specs.Records.{conn_text, conns_text, record_text, reply_text};

use crate::{Records, Replies};
use itoa::Buffer;
use kj_base::{Bytes, NoMemory};
use std::alloc::Global;

// Appends a connection. An `Err` may leave a part of it.
pub(crate) fn push_conn(out: &mut Bytes, octets: &[u8]) -> Result<(), NoMemory>
    ensures { OnOk result (out.new ≡ out.old ++ conn_text octets.now) }
{
    let mut buffer = Buffer::new();
    out.extend(b"conn ")?;
    out.extend(buffer.format(octets.len()).as_bytes())?;
    out.push(b'\n')?;
    out.extend(octets)?;
    out.push(b'\n')
}

fn push_conns(out: &mut Bytes, conns: &[Bytes]) -> Result<(), NoMemory>
    ensures { OnOk result (out.new ≡ out.old ++ conns_text conns.now) }
{
    for conn in conns {
        push_conn(out, conn.as_slice())?;
    }
    Ok(())
}

/// The text of a recording.
pub fn print_records(alloc: Global, records: &Records) -> Result<Bytes, NoMemory>
    requires { length records.now ≤ MAX_CONNS }
    ensures { IfOk result (λ text. text ≡ record_text records.now) }
{
    let mut out = Bytes::from_slice(alloc, b"kjrec 1\n")?;
    push_conns(&mut out, records.as_slice())?;
    Ok(out)
}

/// The text of the replies.
pub fn print_replies(alloc: Global, replies: &Replies) -> Result<Bytes, NoMemory>
    ensures { IfOk result (λ text. text ≡ reply_text replies.now) }
{
    let mut out = Bytes::from_slice(alloc, b"kjrep 1\n")?;
    push_conns(&mut out, replies.as_slice())?;
    Ok(out)
}
