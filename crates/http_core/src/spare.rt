//! Memory of requests that were answered, for those to come.
ghost use Rattle.std.specs.Prelude.{◌≡◌, [], IfOk};

use crate::Request;
use http_heads::Head;
use kj_base::{Bytes, NoMemory};
use std::alloc::Global;
use std::mem;

// A larger body is given back.
const KEPT: usize = 65_536;

/// Nothing that is read into it depends on what it has.
#[derive(Debug, Drop)]
pub struct Spare {
    /// The next head is read into it.
    pub head: Head,
    body: Bytes,
    octets: Bytes,
    line: Bytes,
}

impl Spare {
    /// Takes no memory.
    pub fn new(alloc: Global) -> Spare {
        Spare {
            head: Head::new(alloc),
            body: Bytes::new(alloc),
            octets: Bytes::new(alloc),
            line: Bytes::new(alloc),
        }
    }

    /// The head that was read into it. Takes no memory.
    pub fn take_head(&mut self, alloc: Global) -> Head
        ensures { result ≡ self.old.head }
    {
        mem::replace(&mut self.head, Head::new(alloc))
    }

    /// An empty body. Takes no memory.
    pub fn take_body(&mut self, alloc: Global) -> Bytes
        ensures { result ≡ [] }
    {
        let mut body = mem::replace(&mut self.body, Bytes::new(alloc));
        body.truncate(0);
        body
    }

    /// Memory for what a decoder of chunks keeps between pieces. Takes none.
    pub fn take_line(&mut self, alloc: Global) -> Bytes {
        mem::replace(&mut self.line, Bytes::new(alloc))
    }

    /// Keeps the memory that such a decoder gives back.
    pub fn keep_line(&mut self, line: Bytes) {
        self.line = line;
    }

    /// A copy of these octets.
    pub fn copy(&mut self, alloc: Global, octets: &[u8]) -> Result<Bytes, NoMemory>
        ensures { IfOk result (λ copy. copy ≡ octets.now) }
    {
        let mut copy = mem::replace(&mut self.octets, Bytes::new(alloc));
        copy.truncate(0);
        copy.extend(octets)?;
        Ok(copy)
    }

    /// Keeps the memory of octets that nobody needs any more.
    pub fn keep_octets(&mut self, octets: Bytes) {
        self.octets = octets;
    }

    /// Keeps the memory of a request that nobody needs any more.
    pub fn keep(&mut self, request: Request) {
        let Request { head, body } = request;
        self.head = head;
        if body.len() <= KEPT {
            self.body = body;
        }
    }
}
