//! Heads of HTTP/1.x requests, and what they say of the body and of the connection
//! (RFC 9112, sections 2 to 6 and 9.3).
#![tactic(auto)]

mod ending;
mod field;
mod front;
mod list;
mod marks;
mod read;
pub mod rules;
mod section;
pub mod text;

pub use ending::{brings_head, brings_section, first_stop, head_has_stop, stop_stays};
pub use field::{Field, Fields, Head};
pub use front::{MAX_BODY, MAX_FIELDS, MAX_OCTETS, front_of};
pub use list::values_join;
pub use read::{fill_head, head_stays, one_head, read_head};
pub use section::{one_section, read_section, section_stays};

/// What the front of a stream is, read as the head of a request.
#[derive(Debug, Drop)]
pub enum HeadRead {
    /// A head, and how many octets it has.
    Whole(Head, usize),
    /// No prefix is a head yet.
    More,
    /// More fields than a head may have: whatever follows, no prefix becomes a head.
    Crowded,
    /// Whatever follows, no prefix becomes a head.
    Bad,
}

/// The same of a head that is read into one that is there.
#[derive(Clone, Copy, Debug, PartialEq, Eq)]
pub enum HeadFill {
    /// How many octets the head has.
    Whole(usize),
    More,
    Crowded,
    Bad,
}

/// What the front of a stream is, read as a section of header fields with the empty line that ends
/// it.
#[derive(Debug, Drop)]
pub enum SectionRead {
    /// The fields, and how many octets the section has.
    Whole(Fields, usize),
    /// No prefix is a section yet.
    More,
    /// More fields than a section may have: whatever follows, no prefix becomes a section.
    Crowded,
    /// Whatever follows, no prefix becomes a section.
    Bad,
}

/// How the body of a request is delimited (RFC 9112, section 6.3).
#[derive(Clone, Copy, Debug, PartialEq, Eq)]
pub enum Framing {
    /// There is no body.
    Empty,
    /// So many octets.
    Length(u64),
    /// The chunked coding (RFC 9112, section 7.1).
    Chunked,
    /// There is no safe framing: the status to answer with.
    Fault(u16),
}

/// What the version and the fields of a request say of what follows its head.
#[derive(Clone, Copy, Debug, PartialEq, Eq)]
pub struct MessageRules {
    pub framing: Framing,
    /// Whether the connection goes on after it.
    pub persists: bool,
}

#[cfg(test)]
mod tests;
