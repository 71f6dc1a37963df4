//! Where a text is cut.
ghost use Rattle.std.specs.Prelude.{◌≡◌, ◌<◌, ◌≤◌, ◌+◌, ◌-◌, ◌==◌, ◌∷◌, length, drop};
ghost use Rattle.std.specs.List.{position};
ghost use Rattle.promise_script.specs.ScriptText.{lines_of, first_word};

// Where an octet stands first.
fn find_octet(octets: &[u8], sought: u8) -> Option<usize>
    ensures { result ≡ position (λ c. c == sought) octets.now }
{
    octets.iter().position(|octet| *octet == sought)
}

/// The first line of octets that are left, and what follows its end.
pub fn first_line(rest: &[u8]) -> (&[u8], &[u8])
    requires { 0 < length rest.now }
    ensures lines { lines_of rest.now ≡ result.0.now ∷ lines_of result.1.now }
    ensures shorter { length result.1.now < length rest.now }
    ensures parts { length result.0.now + length result.1.now ≤ length rest.now }
    ensures tail { result.1.now ≡ drop (length rest.now - length result.1.now) rest.now }
{
    match find_octet(rest, b'\n') {
        Some(at) => (&rest[..at], &rest[at + 1..]),
        None => (rest, &rest[rest.len()..]),
    }
}

/// The octets up to the first space.
pub fn first_word_of(text: &[u8]) -> &[u8]
    ensures { result.now ≡ first_word text.now }
{
    match find_octet(text, b' ') {
        Some(at) => &text[..at],
        None => text,
    }
}

/// What stands from this place on.
pub fn text_from(octets: &[u8], place: u32) -> &[u8]
    ensures { result.now ≡ drop place octets.now }
{
    let place = place as usize;
    if place < octets.len() {
        &octets[place..]
    } else {
        &octets[octets.len()..]
    }
}
