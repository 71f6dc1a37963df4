//! Requests and answers.
use http_heads::Head;
use kj_base::Bytes;

/// A request: its head, and its body without the framing.
#[derive(Debug, Drop)]
pub struct Request {
    pub head: Head,
    pub body: Bytes,
}

/// What a service answers. The body is written in chunks where `chunked` is set and the request is
/// of version 1.1, and whole otherwise.
#[derive(Debug, Drop)]
pub struct Answer {
    /// From 200 to 599.
    pub status: u16,
    pub body: Bytes,
    pub chunked: bool,
}

/// How the requests of a connection end.
#[derive(Clone, Copy, Debug, PartialEq, Eq)]
pub enum End {
    /// After whole requests, or none.
    Clean,
    /// With a request after which the connection closes (RFC 9112, section 9.3).
    Closed,
    /// With octets that are no request: 400 or 501.
    Bad(u16),
}
