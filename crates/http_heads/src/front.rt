//! The part of a stream that a head or a section may fill.
ghost use Rattle.std.specs.Prelude.{◌≡◌, take};

/// The most octets that a head, or a section of fields, may have with its empty line.
pub const MAX_OCTETS: usize = 65_536;

/// The most fields that a head or a section may have.
pub const MAX_FIELDS: usize = 100;

/// The most octets that a body may have.
pub const MAX_BODY: usize = 16_777_216;

/// The first octets, at most so many.
pub fn front_of(bytes: &[u8], most: usize) -> &[u8]
    ensures { result.now ≡ take most bytes.now }
{
    if bytes.len() > most {
        &bytes[..most]
    } else {
        bytes
    }
}
