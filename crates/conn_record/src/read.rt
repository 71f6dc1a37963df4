//! Reads recordings.
ghost use Rattle.std.specs.Prelude.{◌≡◌, ◌++◌, ◌<◌, ◌^◌, ◌⊎◌, ℕ, List, All, length, IfOk, IfErr, MatchOption};
ghost use Rattle.conn_record.specs.Records.{conn_text, record_text, IsRecording, IsNoRecording, IsWholeUpTo, HasNoConn};
ghost use Rattle.conn_record.specs.Refused.{IsRefusal};

use crate::Records;
use crate::number::read_number;
use kj_base::{Bytes, NoMemory};
use std::alloc::Global;
use thiserror::Error;

/// The most connections that a recording may have.
pub const MAX_CONNS: usize = 4_096;

/// Why a recording wasn't read.
#[derive(Clone, Copy, Debug, PartialEq, Eq, Error)]
pub enum RecordRefused {
    /// The octets are no recording; so many connections are whole before the first octet that no recording has there.
    #[error("bad record {whole}")]
    Bad { whole: u32 },
    #[error("out of memory")]
    NoMemory,
}

impl From<NoMemory> for RecordRefused {
    ghost use Rattle.std.specs.Prelude.{◌≡◌};
    ghost use Rattle.conn_record.specs.declared.read.RecordRefused.TheVariants as refused;

    ghost from_gives = { λ _ e. e ≡ refused.NoMemory };

    fn from(_e: NoMemory) -> RecordRefused {
        RecordRefused::NoMemory
    }
}

// The octets of the connection at the front, and what follows its text.
fn read_conn(bytes: &[u8]) -> Option<(&[u8], &[u8])>
    ensures { MatchOption result (HasNoConn bytes.now) (λ r. bytes.now ≡ conn_text r.0.now
        ++ r.1.now) }
{
    let numbered = bytes.strip_prefix(b"conn ")?;
    let (len, octets) = read_number(numbered)?;
    if octets.len() as u64 <= len {
        return None;
    }
    let len = len as usize;
    if octets[len] != b'\n' {
        return None;
    }
    Some((&octets[..len], &octets[len + 1..]))
}

/// Reads the text of a recording, which ends with the bytes.
pub fn read_records(alloc: Global, bytes: &[u8]) -> Result<Records, RecordRefused>
    ensures found { IfOk result (IsRecording bytes.now) }
    ensures refused { IfErr result (IsRefusal bytes.now) }
{
    let Some(mut rest) = bytes.strip_prefix(b"kjrec 1\n") else {
        return Err(RecordRefused::Bad { whole: 0 });
    };
    let mut records = Records::new(alloc);
    while !rest.is_empty() {
        let whole = records.len();
        if whole == MAX_CONNS {
            return Err(RecordRefused::Bad {
                whole: MAX_CONNS as u32,
            });
        }
        let Some((octets, after)) = read_conn(rest) else {
            return Err(RecordRefused::Bad {
                whole: whole as u32,
            });
        };
        records.push(Bytes::from_slice(alloc, octets)?)?;
        rest = after;
    }
    Ok(records)
}

/// A text is that of at most one recording, whose connections have fewer than 2^64 octets each.
pub fn one_recording()
    ensures { (a b : List (List ℕ)) → All (λ conn. length conn < 2 ^ 64) a
        → All (λ conn. length conn < 2 ^ 64) b → record_text a ≡ record_text b → a ≡ b }
{}

/// Octets are the text of a recording, or of none, and then so many of its connections are whole.
pub fn some_recording()
    ensures { (bytes : List ℕ) → length bytes < 2 ^ 64
        → ((conns : List (List ℕ)) × IsRecording bytes conns)
        ⊎ (IsNoRecording bytes × ((whole : ℕ) × IsWholeUpTo bytes whole)) }
{}
