//! Lists of values, cut at commas (RFC 9110, section 5.6.1).
ghost use Rattle.std.specs.Prelude.{◌≡◌, ◌≤◌, List, ℕ, ◌++◌, [], ◌∷◌, length, MatchOption, if◌then◌else◌};
ghost use Rattle.std.specs.Iterator.{YieldsFirstRef, item_count};
ghost use Rattle.httparse.specs.Ascii.{comma};
ghost use Rattle.http_heads.specs.Values.{is_same, is_named, is_blank, elements, elements_of_rest, left_of, list_of};
ghost use Rattle.http_heads.specs.Left.{elements_left};

use crate::field::Field;
use crate::text::trim;

/// Whether these are the same bytes, without regard to ASCII case.
pub fn is_same(a: &[u8], b: &[u8]) -> bool
    ensures { result ≡ is_same a.now b.now }
{
    a.eq_ignore_ascii_case(b)
}

/// Whether a field has this name, without regard to ASCII case (RFC 9110, 5.1).
pub fn is_named(name: &[u8], field: &Field) -> bool
    ensures { result ≡ is_named name.now field.now }
{
    is_same(field.name.as_slice(), name)
}

// The first piece of a value, and what is left after its comma.
fn cut(value: &[u8]) -> (&[u8], Option<&[u8]>)
    ensures elements { elements value.now
        ≡ (if is_blank result.0.now then elements_of_rest result.1 else result.0.now ∷
        elements_of_rest result.1) }
    ensures shorter { left_of result.1 ≤ length value.now }
{
    match value.iter().position(|b| *b == b',') {
        Some(comma) => (trim(&value[..comma]), Some(&value[comma + 1..])),
        None => (trim(value), None),
    }
}

// The next element of what is left of a value, and what is left then.
fn next_element(rest: Option<&[u8]>) -> Option<(&[u8], Option<&[u8]>)>
    ensures { MatchOption result (elements_of_rest rest.entry ≡ [])
        (λ r. elements_of_rest rest.entry ≡ r.0.now ∷ elements_of_rest r.1) }
{
    let mut rest = rest;
    while let Some(value) = rest {
        let (element, after) = cut(value);
        rest = after;
        if !element.is_empty() {
            return Some((element, rest));
        }
    }
    None
}

/// The elements that the fields of a name make together.
#[derive(Drop)]
pub struct Elements<'a> {
    name: &'a [u8],
    rest: Option<&'a [u8]>,
    fields: &'a [Field],
}

impl<'a> Elements<'a> {
    /// The elements of all fields of this name.
    pub fn new(name: &'a [u8], fields: &'a [Field]) -> Elements<'a>
        ensures { elements_left result ≡ list_of name.now fields.now }
    {
        Elements {
            name,
            rest: None,
            fields,
        }
    }
}

impl<'a> Iterator for Elements<'a> {
    type Item = &'a [u8];

    ghost next_gives = { YieldsFirstRef elements_left };

    ghost remaining = { item_count elements_left };

    fn next(&mut self) -> Option<&'a [u8]> {
        loop {
            if let Some((element, rest)) = next_element(self.rest) {
                self.rest = rest;
                return Some(element);
            }
            self.rest = None;
            let [field, fields @ ..] = self.fields else {
                return None;
            };
            self.fields = fields;
            if is_named(self.name, field) {
                self.rest = Some(field.value.as_slice());
            }
        }
    }
}

/// Values that are joined by a comma have the elements of both, so the list of several fields is
/// that of their values joined by commas (RFC 9110, section 5.3).
pub fn values_join()
    ensures { (a b : List ℕ) → elements (a ++ comma ∷ b) ≡ elements a ++ elements b }
{}
