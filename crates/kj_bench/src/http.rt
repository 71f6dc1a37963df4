//! What is read: heads and chunked bodies.
ghost use Rattle.std.specs.Prelude.{◌≡◌, ◌≤◌, ◌*◌, IfOk, length};

use crate::bodies::{BodyWay, body_text, read_body};
use crate::heads::{Way, head_text, read_one};
use http_heads::Head;
use kj_base::{Bytes, NoMemory};
use std::alloc::Global;

// What is read.
#[derive(Clone, Copy, Debug, PartialEq, Eq)]
pub(crate) enum Work {
    // A head.
    Head { is_long: bool, way: Way },
    // A body in chunks of so many octets.
    Body { chunk: usize, way: BodyWay },
}

// What was done in a round.
#[derive(Clone, Copy, Debug, PartialEq, Eq)]
pub(crate) struct Done {
    pub octets: u64,
    // Heads, or bodies.
    pub items: u64,
}

pub(crate) const NOTHING: Done = Done {
    octets: 0,
    items: 0,
};

// One item that is the whole text.
pub(crate) fn whole(text: &[u8]) -> Done
    ensures { result ≡ record { octets = length text.now; items = 1 } }
{
    Done {
        octets: text.len() as u64,
        items: 1,
    }
}

// Each work with its word.
pub(crate) static WORKS: [(&str, Work); 22] = [
    (
        "short-heads-octets",
        Work::Head {
            is_long: false,
            way: Way::Octets,
        },
    ),
    (
        "short-heads-parts",
        Work::Head {
            is_long: false,
            way: Way::Parts,
        },
    ),
    (
        "short-heads-copies",
        Work::Head {
            is_long: false,
            way: Way::Copies,
        },
    ),
    (
        "short-heads-fresh",
        Work::Head {
            is_long: false,
            way: Way::Fresh,
        },
    ),
    (
        "short-heads-again",
        Work::Head {
            is_long: false,
            way: Way::Again,
        },
    ),
    (
        "long-heads-octets",
        Work::Head {
            is_long: true,
            way: Way::Octets,
        },
    ),
    (
        "long-heads-parts",
        Work::Head {
            is_long: true,
            way: Way::Parts,
        },
    ),
    (
        "long-heads-copies",
        Work::Head {
            is_long: true,
            way: Way::Copies,
        },
    ),
    (
        "long-heads-fresh",
        Work::Head {
            is_long: true,
            way: Way::Fresh,
        },
    ),
    (
        "long-heads-again",
        Work::Head {
            is_long: true,
            way: Way::Again,
        },
    ),
    (
        "chunks-1-octets",
        Work::Body {
            chunk: 1,
            way: BodyWay::Octets,
        },
    ),
    (
        "chunks-100-octets",
        Work::Body {
            chunk: 100,
            way: BodyWay::Octets,
        },
    ),
    (
        "chunks-65536-octets",
        Work::Body {
            chunk: 65_536,
            way: BodyWay::Octets,
        },
    ),
    (
        "chunks-1-lines",
        Work::Body {
            chunk: 1,
            way: BodyWay::Lines,
        },
    ),
    (
        "chunks-100-lines",
        Work::Body {
            chunk: 100,
            way: BodyWay::Lines,
        },
    ),
    (
        "chunks-65536-lines",
        Work::Body {
            chunk: 65_536,
            way: BodyWay::Lines,
        },
    ),
    (
        "chunks-1-pieces-1",
        Work::Body {
            chunk: 1,
            way: BodyWay::Pieces(1),
        },
    ),
    (
        "chunks-100-pieces-1",
        Work::Body {
            chunk: 100,
            way: BodyWay::Pieces(1),
        },
    ),
    (
        "chunks-65536-pieces-1",
        Work::Body {
            chunk: 65_536,
            way: BodyWay::Pieces(1),
        },
    ),
    (
        "chunks-1-pieces-16384",
        Work::Body {
            chunk: 1,
            way: BodyWay::Pieces(16_384),
        },
    ),
    (
        "chunks-100-pieces-16384",
        Work::Body {
            chunk: 100,
            way: BodyWay::Pieces(16_384),
        },
    ),
    (
        "chunks-65536-pieces-16384",
        Work::Body {
            chunk: 65_536,
            way: BodyWay::Pieces(16_384),
        },
    ),
];

// The body of a round that prints figures: 16 MiB.
pub(crate) const WHOLE_BODY: usize = 16_777_216;

// The body of a round of everything.
pub(crate) const SMALL_BODY: usize = 131_072;

// The work of a word.
pub(crate) fn named(word: &str) -> Option<Work> {
    for (name, work) in WORKS.iter() {
        if *name == word {
            return Some(*work);
        }
    }
    None
}

// What a work reads.
pub(crate) fn text_of(alloc: Global, work: Work, size: usize) -> Result<Bytes, NoMemory> {
    match work {
        Work::Head { is_long, .. } => head_text(alloc, is_long),
        Work::Body { chunk, .. } => body_text(alloc, chunk, size),
    }
}

// One round of a work over what it reads: one item that is the whole text, or none. A head may be
// read into the one that is given.
pub(crate) fn round(
    alloc: Global,
    head: &mut Head,
    work: Work,
    text: &[u8],
) -> Result<Done, NoMemory>
    ensures { IfOk result (λ done. (done.items ≤ 1)
        × (done.octets ≡ done.items * length text.now)) }
{
    match work {
        Work::Head { way, .. } => read_one(alloc, way, head, text),
        Work::Body { way, .. } => read_body(alloc, way, text),
    }
}
