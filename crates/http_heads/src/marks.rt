//! The fields that rule a message, found in one pass.
ghost use Rattle.std.specs.Prelude.{◌≡◌};
ghost use Rattle.http_heads.specs.Marks.{with_marks, mark, IsMarked};

use crate::field::Field;
use crate::list::is_named;

/// Which of them there are.
#[derive(Clone, Copy, Debug, PartialEq, Eq)]
pub struct Marks {
    /// A Host line.
    pub host: bool,
    /// More than one.
    pub hosts: bool,
    /// Transfer-Encoding.
    pub coded: bool,
    /// Content-Length.
    pub sized: bool,
    /// Connection.
    pub optioned: bool,
}

const NO_MARKS: Marks = Marks {
    host: false,
    hosts: false,
    coded: false,
    sized: false,
    optioned: false,
};

// With those that one more field has.
fn with_marks(marks: Marks, host: bool, coded: bool, sized: bool, optioned: bool) -> Marks
    ensures { result ≡ with_marks marks host coded sized optioned }
{
    Marks {
        host: marks.host | host,
        hosts: marks.hosts | (marks.host & host),
        coded: marks.coded | coded,
        sized: marks.sized | sized,
        optioned: marks.optioned | optioned,
    }
}

// With those of one more field, whose name is compared only with one of its length.
fn mark(marks: Marks, field: &Field) -> Marks
    ensures { result ≡ mark marks field.now }
{
    let len = field.name.len();
    if len == 4 {
        return with_marks(marks, is_named(b"host", field), false, false, false);
    }
    if len == 17 {
        return with_marks(
            marks,
            false,
            is_named(b"transfer-encoding", field),
            false,
            false,
        );
    }
    if len == 14 {
        return with_marks(
            marks,
            false,
            false,
            is_named(b"content-length", field),
            false,
        );
    }
    if len == 10 {
        return with_marks(marks, false, false, false, is_named(b"connection", field));
    }
    with_marks(marks, false, false, false, false)
}

/// Those of the fields of a message.
pub fn marks_of(fields: &[Field]) -> Marks
    ensures { IsMarked fields.now result }
{
    let mut marks = NO_MARKS;
    for field in fields {
        marks = mark(marks, field);
    }
    marks
}
