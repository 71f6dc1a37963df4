//! Sections of header fields: the lines of a head behind its start line, or a trailer.
ghost use Rattle.std.specs.Prelude.{◌≡◌, ◌<◌, List, ℕ, ◌++◌, length, take, map, IfOk, OnOk, Ok};
ghost use Rattle.httparse.specs.Spans.{IsSectionWithin, header_bytes};
ghost use Rattle.http_heads.specs.declared.field.Field.{Field};
ghost use Rattle.http_heads.specs.Section.{ReadsAs, ParsesAs, StartsWithSection, name_and_value};

use crate::SectionRead;
use crate::field::Fields;
use crate::front::{MAX_FIELDS, MAX_OCTETS, front_of};
use httparse::spans::{EMPTY_HEADER_SPAN, HeaderSpan, parse_headers};
use httparse::{Error, Status};
use kj_base::NoMemory;
use std::alloc::Global;

// Copies the fields that the first spans cover.
pub(crate) fn fill_fields(
    alloc: Global,
    fields: &mut Fields,
    bytes: &[u8],
    spans: &[HeaderSpan],
    count: usize,
) -> Result<(), NoMemory>
    requires { IsSectionWithin bytes.now spans.now (length bytes.now) count }
    ensures { OnOk result
        (map name_and_value fields.new ≡ map (header_bytes bytes.now) (take count spans.now)) }
{
    fields.clear();
    fields.reserve(count)?;
    for i in 0..count {
        let span = spans[i];
        fields.append(alloc, span.name.of(bytes), span.value.of(bytes))?;
    }
    Ok(())
}

// Reads a section of any length.
fn parse(alloc: Global, bytes: &[u8]) -> Result<SectionRead, NoMemory>
    ensures { IfOk result (ParsesAs bytes.now) }
{
    let mut spans = [EMPTY_HEADER_SPAN; MAX_FIELDS];
    match parse_headers(bytes, &mut spans) {
        Ok(Status::Complete((len, count))) => {
            let mut fields = Fields::new(alloc);
            fill_fields(alloc, &mut fields, bytes, &spans, count)?;
            Ok(SectionRead::Whole(fields, len))
        }
        Ok(Status::Partial) => Ok(SectionRead::More),
        Err(Error::TooManyHeaders) => Ok(SectionRead::Crowded),
        Err(_) => Ok(SectionRead::Bad),
    }
}

/// Reads the section of fields at the front of a stream, with the empty line that ends it
/// (RFC 9112, sections 5 and 7.1.2).
pub fn read_section(alloc: Global, bytes: &[u8]) -> Result<SectionRead, NoMemory>
    // A section, nothing complete, or nothing that can become complete.
    ensures reads { IfOk result (ReadsAs bytes.now) }

    // These come only where fewer octets are there than a section may have.
    ensures more { result ≡ Ok SectionRead.More → length bytes.now < MAX_OCTETS }
    ensures crowded { result ≡ Ok SectionRead.Crowded → length bytes.now < MAX_OCTETS }
{
    let front = front_of(bytes, MAX_OCTETS);
    match parse(alloc, front)? {
        SectionRead::Whole(fields, len) => Ok(SectionRead::Whole(fields, len)),
        SectionRead::More if bytes.len() < MAX_OCTETS => Ok(SectionRead::More),
        SectionRead::Crowded if bytes.len() < MAX_OCTETS => Ok(SectionRead::Crowded),
        SectionRead::More => Ok(SectionRead::Bad),
        SectionRead::Crowded => Ok(SectionRead::Bad),
        SectionRead::Bad => Ok(SectionRead::Bad),
    }
}

/// Octets begin with at most one section, whatever follows it.
pub fn one_section()
    ensures { (bytes more : List ℕ) (a b : List Field) (m n : ℕ) (rest other : List ℕ)
        → StartsWithSection bytes a m rest
        → StartsWithSection (bytes ++ more) b n other
        → (a ≡ b) × (m ≡ n) × (other ≡ rest ++ more) }
{}

/// A section stays one, whatever follows it.
pub fn section_stays()
    ensures { (bytes more : List ℕ) (fields : List Field) (len : ℕ) (rest : List ℕ)
        → StartsWithSection bytes fields len rest
        → StartsWithSection (bytes ++ more) fields len (rest ++ more) }
{}
