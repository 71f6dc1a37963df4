//! The line of a chunk (RFC 9112, sections 7.1 and 7.1.1, with limits of this project's own).
ghost use Rattle.std.specs.Prelude.{◌≡◌, ◌+◌, ◌≤◌, min, false, length, IsTrue, IfSome, IfNone};
ghost use Rattle.std.specs.List.{list_all, prefix_len};
ghost use Rattle.std.specs.Char.{is_ascii_hexdigit};
ghost use Rattle.std.specs.Str.Parse.{digits_value};
ghost use Rattle.httparse.specs.Grammar.{is_value_byte};
ghost use Rattle.http_frames.specs.Chunks.{digit_count, is_extension, is_size_line, size_of};

use http_heads::MAX_BODY;
use http_heads::text::trim_start;
use httparse::{is_header_value_token, parse_hex_digit};

/// The most octets of a line without its CRLF.
pub const MAX_LINE: usize = 4094;

// One more than a body may have.
const OVER: u64 = MAX_BODY as u64 + 1;

// How many hexadecimal digits the line begins with.
fn digit_count(line: &[u8]) -> usize
    ensures count { result ≡ digit_count line.now }
    ensures bound { result ≤ length line.now }
{
    line.iter().take_while(|b| b.is_ascii_hexdigit()).count()
}

fn is_text(text: &[u8]) -> bool
    ensures { result ≡ list_all is_value_byte text.now }
{
    text.iter().all(|b| is_header_value_token(*b))
}

fn is_extension(text: &[u8]) -> bool
    ensures { result ≡ is_extension text.now }
{
    match text {
        [] => true,
        [b';', text @ ..] => is_text(text),
        _ => false,
    }
}

// Whether a line that begins with so many digits is one that a chunk begins with.
fn is_sized(line: &[u8], count: usize) -> bool
    requires count { count ≡ digit_count line.now }
    requires bound { count ≤ length line.now }
    ensures { result ≡ is_size_line line.now }
{
    0 < count && count <= 16 && line.len() <= MAX_LINE && is_extension(trim_start(&line[count..]))
}

// The number that the digits write, or one too large where it is larger.
fn value_of(digits: &[u8]) -> u64
    requires { IsTrue (list_all is_ascii_hexdigit digits.now) }
    ensures { result ≡ min (digits_value 16 digits.now) (MAX_BODY + 1) }
{
    let mut size = 0;
    for b in digits {
        let digit = parse_hex_digit(*b).unwrap();
        size = (size * 16 + digit).min(OVER);
    }
    size
}

/// The number that a line, without its CRLF, begins with, or one too large where it is larger.
/// None where no chunk begins with such a line.
pub fn line_size(line: &[u8]) -> Option<u64>
    ensures sized { IfSome result (λ size. IsTrue (is_size_line line.now)
        × (size ≡ min (size_of line.now) (MAX_BODY + 1))) }
    ensures no_size { IfNone result (is_size_line line.now ≡ false) }
{
    let count = digit_count(line);
    if !is_sized(line, count) {
        return None;
    }
    Some(value_of(&line[..count]))
}
