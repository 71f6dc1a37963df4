//! Cases worked out by hand from RFC 9112 and this project's own rules. A section in brackets is of
//! RFC 9112 where no other is named.
use super::Read::{self, Bad, Fault, HeadBad, HeadMore, More, Whole};

/// The octets, what they come to, and the body.
pub type Case = (&'static [u8], Read, &'static [u8]);

// Messages: a head, and the body that its framing tells.
static MESSAGES: [Case; 56] = [
    // ---- Start lines and field lines, read as messages.
    // a head without its empty line (2.1)
    (b"GET / HTTP/1.1\r\nHost: a\r\n", HeadMore, b""),
    // a method that may go on (3.1)
    (b"GE", HeadMore, b""),
    // lines that end with LF alone (2.2)
    (b"GET / HTTP/1.1\nHost: a\n\n", Whole(24), b""),
    // an empty line before the request line (2.2)
    (b"\r\nGET / HTTP/1.1\r\nHost: a\r\n\r\n", Whole(29), b""),
    // another major version (2.3)
    (b"GET / HTTP/2.0\r\nHost: a\r\n\r\n", HeadBad, b""),
    // a minor version above 1 (2.3)
    (b"GET / HTTP/1.2\r\nHost: a\r\n\r\n", HeadBad, b""),
    // no target (3)
    (b"GET  HTTP/1.1\r\nHost: a\r\n\r\n", HeadBad, b""),
    // a tab behind the method (3)
    (b"GET\t/ HTTP/1.1\r\nHost: a\r\n\r\n", HeadBad, b""),
    // white space before the colon (5.1)
    (b"GET / HTTP/1.1\r\nHost : a\r\n\r\n", HeadBad, b""),
    // a folded line (5.2)
    (b"GET / HTTP/1.1\r\nHost: a\r\n b\r\n\r\n", HeadBad, b""),
    // a NUL in a value (5.5 of RFC 9110)
    (b"GET / HTTP/1.1\r\nHost: a\0\r\n\r\n", HeadBad, b""),
    // a CR alone in a value (2.2)
    (b"GET / HTTP/1.1\r\nHost: a\rb\r\n\r\n", HeadBad, b""),

    // ---- Host and CONNECT, read as messages.
    // no Host in 1.1 (3.2)
    (b"GET / HTTP/1.1\r\n\r\n", Fault(400), b""),
    // no Host in 1.0 (3.2)
    (b"GET / HTTP/1.0\r\n\r\n", Whole(18), b""),
    // two equal Host lines (3.2)
    (
        b"GET / HTTP/1.1\r\nHost: a\r\nHost: a\r\n\r\n",
        Fault(400),
        b"",
    ),
    // two Host lines in 1.0 (3.2)
    (
        b"GET / HTTP/1.0\r\nHost: a\r\nHost: b\r\n\r\n",
        Fault(400),
        b"",
    ),
    // an empty Host is there (3.2)
    (b"GET / HTTP/1.1\r\nHost:\r\n\r\n", Whole(25), b""),
    // a name in other letters (5.1 of RFC 9110)
    (b"GET / HTTP/1.1\r\nhOsT: a\r\n\r\n", Whole(27), b""),
    // Host comes before CONNECT (own order)
    (b"CONNECT a:1 HTTP/1.1\r\n\r\n", Fault(400), b""),
    // CONNECT is not built (3.2.3)
    (b"CONNECT a:1 HTTP/1.1\r\nHost: a\r\n\r\n", Fault(501), b""),
    // CONNECT in 1.0 needs no Host
    (b"CONNECT a:1 HTTP/1.0\r\n\r\n", Fault(501), b""),
    // CONNECT comes before both framings
    (
        b"CONNECT a:1 HTTP/1.1\r\nHost: a\r\nContent-Length: 1\r\nTransfer-Encoding: chunked\r\n\r\n",
        Fault(501),
        b"",
    ),
    // methods keep their letters (9.1 of RFC 9110)
    (b"connect a:1 HTTP/1.1\r\nHost: a\r\n\r\n", Whole(33), b""),
    // no field of a framing (6.3, rule 7)
    (b"POST / HTTP/1.1\r\nHost: a\r\n\r\nabc", Whole(28), b""),

    // ---- Transfer-Encoding, read as messages.
    // Transfer-Encoding in 1.0 (6.1)
    (
        b"POST / HTTP/1.0\r\nTransfer-Encoding: chunked\r\n\r\n0\r\n\r\n",
        Fault(400),
        b"",
    ),
    // both framings (6.3, rule 3)
    (
        b"POST / HTTP/1.1\r\nHost: a\r\nContent-Length: 5\r\nTransfer-Encoding: chunked\r\n\r\n0\r\n\r\n",
        Fault(400),
        b"",
    ),
    // both framings, Content-Length without a number
    (
        b"POST / HTTP/1.1\r\nHost: a\r\nTransfer-Encoding: chunked\r\nContent-Length: x\r\n\r\n0\r\n\r\n",
        Fault(400),
        b"",
    ),
    // gzip is last (6.3, rule 4)
    (
        b"POST / HTTP/1.1\r\nHost: a\r\nTransfer-Encoding: gzip\r\n\r\n",
        Fault(400),
        b"",
    ),
    // gzip, chunked: a coding that is not built (6.1)
    (
        b"POST / HTTP/1.1\r\nHost: a\r\nTransfer-Encoding: gzip, chunked\r\n\r\n",
        Fault(501),
        b"",
    ),
    // chunked, gzip: chunked is not last (6.3, rule 4)
    (
        b"POST / HTTP/1.1\r\nHost: a\r\nTransfer-Encoding: chunked, gzip\r\n\r\n",
        Fault(400),
        b"",
    ),
    // chunked twice, gzip between (6.1)
    (
        b"POST / HTTP/1.1\r\nHost: a\r\nTransfer-Encoding: chunked, gzip, chunked\r\n\r\n",
        Fault(400),
        b"",
    ),
    // chunked twice (6.1)
    (
        b"POST / HTTP/1.1\r\nHost: a\r\nTransfer-Encoding: chunked, chunked\r\n\r\n",
        Fault(400),
        b"",
    ),
    // chunked has no parameter (7)
    (
        b"POST / HTTP/1.1\r\nHost: a\r\nTransfer-Encoding: chunked;q=1\r\n\r\n",
        Fault(400),
        b"",
    ),
    // two words are one element
    (
        b"POST / HTTP/1.1\r\nHost: a\r\nTransfer-Encoding: gzip chunked\r\n\r\n",
        Fault(400),
        b"",
    ),
    // empty elements and other letters (7; 5.6.1 of RFC 9110)
    (
        b"POST / HTTP/1.1\r\nHost: a\r\nTransfer-Encoding: ,cHuNkEd,\r\n\r\n0\r\n\r\n",
        Whole(63),
        b"",
    ),
    // a list without elements
    (
        b"POST / HTTP/1.1\r\nHost: a\r\nTransfer-Encoding: ,\r\n\r\n",
        Fault(400),
        b"",
    ),
    // two lines are one list (5.3 of RFC 9110)
    (
        b"POST / HTTP/1.1\r\nHost: a\r\nTransfer-Encoding: gzip\r\nTransfer-Encoding: chunked\r\n\r\n",
        Fault(501),
        b"",
    ),
    // two lines, chunked first
    (
        b"POST / HTTP/1.1\r\nHost: a\r\nTransfer-Encoding: chunked\r\nTransfer-Encoding: gzip\r\n\r\n",
        Fault(400),
        b"",
    ),
    // identity is gone (7)
    (
        b"POST / HTTP/1.1\r\nHost: a\r\nTransfer-Encoding: identity\r\n\r\n",
        Fault(400),
        b"",
    ),

    // ---- Lists of Content-Length, read as messages.
    // equal numbers in one list (8.6 of RFC 9110)
    (
        b"POST / HTTP/1.1\r\nHost: a\r\nContent-Length: 5, 5\r\n\r\nabcde",
        Whole(55),
        b"abcde",
    ),
    // equal numbers in two lines, with empty elements
    (
        b"POST / HTTP/1.1\r\nHost: a\r\nContent-Length: 5,\r\nContent-Length: ,005\r\n\r\nabcde",
        Whole(75),
        b"abcde",
    ),
    // two numbers differ (6.3, rule 5)
    (
        b"POST / HTTP/1.1\r\nHost: a\r\nContent-Length: 5, 6\r\n\r\n",
        Fault(400),
        b"",
    ),
    // two lines differ (6.3, rule 5)
    (
        b"POST / HTTP/1.1\r\nHost: a\r\nContent-Length: 5\r\nContent-Length: 6\r\n\r\n",
        Fault(400),
        b"",
    ),
    // a sign (8.6 of RFC 9110)
    (
        b"POST / HTTP/1.1\r\nHost: a\r\nContent-Length: +5\r\n\r\n",
        Fault(400),
        b"",
    ),
    // a minus
    (
        b"POST / HTTP/1.1\r\nHost: a\r\nContent-Length: -1\r\n\r\n",
        Fault(400),
        b"",
    ),
    // a blank between digits
    (
        b"POST / HTTP/1.1\r\nHost: a\r\nContent-Length: 5 5\r\n\r\n",
        Fault(400),
        b"",
    ),
    // hexadecimal digits
    (
        b"POST / HTTP/1.1\r\nHost: a\r\nContent-Length: 0x5\r\n\r\n",
        Fault(400),
        b"",
    ),
    // an empty value
    (
        b"POST / HTTP/1.1\r\nHost: a\r\nContent-Length:\r\n\r\n",
        Fault(400),
        b"",
    ),

    // ---- Numbers of Content-Length, read as messages.
    // thirty noughts and a 5
    (
        b"POST / HTTP/1.1\r\nHost: a\r\nContent-Length: 0000000000000000000000000000005\r\n\r\nabcde",
        Whole(82),
        b"abcde",
    ),
    // 2^64 + 5 does not wrap
    (
        b"POST / HTTP/1.1\r\nHost: a\r\nContent-Length: 18446744073709551621\r\n\r\nabcde",
        Fault(400),
        b"",
    ),
    // the largest number
    (
        b"POST / HTTP/1.1\r\nHost: a\r\nContent-Length: 16777216\r\n\r\nabcde",
        More,
        b"",
    ),
    // one more than the largest
    (
        b"POST / HTTP/1.1\r\nHost: a\r\nContent-Length: 16777217\r\n\r\n",
        Fault(400),
        b"",
    ),
    // no octets
    (
        b"POST / HTTP/1.1\r\nHost: a\r\nContent-Length: 0\r\n\r\nGET",
        Whole(47),
        b"",
    ),
    // an octet is missing (6.3)
    (
        b"POST / HTTP/1.1\r\nHost: a\r\nContent-Length: 5\r\n\r\nabcd",
        More,
        b"",
    ),
    // octets behind the body (9.3.2)
    (
        b"POST / HTTP/1.1\r\nHost: a\r\nContent-Length: 3\r\n\r\nabcGET",
        Whole(50),
        b"abc",
    ),
    // a blank and a tab around the number (5.5 of RFC 9110)
    (
        b"POST / HTTP/1.1\r\nHost: a\r\ncontent-length: \t3 \t\r\n\r\nabc",
        Whole(53),
        b"abc",
    ),
];

// Chunked bodies by themselves.
static BODIES: [Case; 38] = [
    // ---- Lines of chunks that are in order, read as bodies.
    // a chunk with an extension (7.1.1)
    (b"3;x=1\r\nabc\r\n0\r\n\r\nGET", Whole(17), b"abc"),
    // the last chunk alone (7.1)
    (b"0\r\n\r\n", Whole(5), b""),
    // zeros alone are the last chunk
    (b"000\r\n\r\n", Whole(7), b""),
    // two chunks
    (b"3\r\nabc\r\n2\r\nde\r\n0\r\n\r\n", Whole(20), b"abcde"),
    // a size in upper letters
    (b"A\r\n0123456789\r\n0\r\n\r\n", Whole(20), b"0123456789"),
    // blanks behind the digits (own rule)
    (b"a \t\r\n0123456789\r\n0\r\n\r\n", Whole(22), b"0123456789"),
    // a blank before the extension
    (b"3 ;x\r\nabc\r\n0\r\n\r\n", Whole(16), b"abc"),
    // an extension of allowed octets (own rule)
    (b"3; ~\t\x80\xff\r\nabc\r\n0\r\n\r\n", Whole(19), b"abc"),
    // an extension of the last chunk
    (b"0;last\r\n\r\n", Whole(10), b""),

    // ---- Lines of chunks that are not, read as bodies.
    // a DEL in an extension
    (b"3;\x7f\r\nabc\r\n", Bad, b""),
    // a NUL in an extension
    (b"3;\0\r\nabc\r\n", Bad, b""),
    // a blank before the digits
    (b" 3\r\nabc\r\n", Bad, b""),
    // a letter behind the digits
    (b"3x\r\nabc\r\n", Bad, b""),
    // a prefix of hexadecimal digits
    (b"0x3\r\nabc\r\n", Bad, b""),
    // a sign
    (b"-3\r\nabc\r\n", Bad, b""),
    // no digits
    (b";\r\n", Bad, b""),
    // an empty line in place of a chunk
    (b"\r\n", Bad, b""),
    // LF alone ends no line
    (b"3\nabc\n0\n\n", More, b""),
    // LF alone in a line
    (b"3\nabc\r\n", Bad, b""),
    // CR alone in a line
    (b"3\rabc", Bad, b""),

    // ---- Sizes and data, read as bodies.
    // sixteen digits
    (b"0000000000000003\r\nabc\r\n0\r\n\r\n", Whole(28), b"abc"),
    // seventeen digits
    (b"00000000000000003\r\nabc\r\n", Bad, b""),
    // a size above every limit
    (b"ffffffffffffffff\r\nabc", Bad, b""),
    // the largest size
    (b"1000000\r\nabc", More, b""),
    // one more than the largest
    (b"1000001\r\n", Bad, b""),
    // two chunks that pass the limit together
    (b"1\r\na\r\n1000000\r\n", Bad, b""),
    // data without its end
    (b"3\r\nab", More, b""),
    // data without its LF
    (b"3\r\nabc\r", More, b""),
    // LF alone behind the data
    (b"3\r\nabc\n0\r\n\r\n", Bad, b""),
    // CR alone behind the data
    (b"3\r\nabc\r0\r\n\r\n", Bad, b""),

    // ---- Ends of data, and trailers, read as bodies.
    // more data than announced
    (b"3\r\nabcd\r\n0\r\n\r\n", Bad, b""),
    // a trailer (7.1.2)
    (b"0\r\nT: 1\r\n\r\nGET", Whole(11), b""),
    // LF alone ends the trailer (2.2)
    (b"0\r\n\nGET", Whole(4), b""),
    // a trailer without its empty line
    (b"0\r\nT: 1\r\n", More, b""),
    // a trailer's line that begins with a blank (5.2)
    (b"0\r\n T: 1\r\n\r\n", Bad, b""),
    // a trailer's line without a colon (5)
    (b"0\r\nT 1\r\n\r\n", Bad, b""),
    // a trailer frames nothing (6.5.1 of RFC 9110)
    (b"0\r\nContent-Length: 5\r\n\r\nhello", Whole(24), b""),
    // CR alone in a trailer (2.2)
    (b"0\r\n\rGET\r\n\r\n", Bad, b""),
];

pub fn messages() -> &'static [Case] {
    &MESSAGES
}

pub fn bodies() -> &'static [Case] {
    &BODIES
}
