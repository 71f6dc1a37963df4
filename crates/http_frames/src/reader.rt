//! A chunked body read octet by octet, with each octet looked at once.
ghost use Rattle.std.specs.Prelude.{◌≡◌, ℕ, ◌+◌, ◌-◌, ◌<◌, ◌≤◌, [], length, take, drop, ◌++◌, ◌∷◌, MatchOption, IfOk, IfSome, IfNone};
ghost use Rattle.http_frames.specs.Chunks.{NoCr};
ghost use Rattle.http_frames.specs.Pieces.{IsWholeChunk};

use crate::line::{MAX_LINE, line_size};
use http_heads::{
    Fields, MAX_BODY, MAX_OCTETS, SectionRead, brings_section, front_of, read_section,
};
use kj_base::{Bytes, NoMemory};
use std::alloc::Global;

/// Which part of a chunked body comes next.
#[derive(Clone, Copy, Debug, PartialEq, Eq)]
pub enum Stage {
    /// The line of a chunk; what came of it is kept.
    Line,
    /// The LF of a line whose CR came; the line is kept.
    LineEnd,
    /// So many octets of a chunk's data.
    Data(usize),
    /// The CR behind a chunk's data.
    DataCr,
    /// The LF behind a chunk's data and CR.
    DataLf,
    /// The trailer; what came of it is kept.
    Trailer,
    /// A trailer with more fields than it may have.
    Crowded,
}

/// What the front of a piece did.
#[derive(Debug, Drop)]
pub enum Intake {
    /// So many octets of it were taken.
    Took(usize),
    /// The body is whole with so many octets of it, and its trailer has these fields.
    Whole(Fields, usize),
    /// The octets begin no body.
    Bad,
}

/// What is kept of a chunked body that is being read.
#[derive(Debug, Drop)]
pub struct Reader {
    alloc: Global,
    pub body: Bytes,
    pub pending: Bytes,
    pub stage: Stage,
}

// Where the first CR stands.
fn find_cr(bytes: &[u8]) -> Option<usize>
    ensures bound { MatchOption result (NoCr bytes.now) (λ at. at < length bytes.now) }
    ensures first { MatchOption result (NoCr bytes.now) (λ at. NoCr (take at bytes.now)
        × (bytes.now ≡ take at bytes.now ++ 13 ∷ drop (at + 1) bytes.now)) }
{
    match bytes.iter().position(|b| *b == b'\r') {
        Some(at) => Some(at),
        None => None,
    }
}

// The first octets up to an LF, at most so many.
fn first_line(piece: &[u8], most: usize) -> &[u8]
    ensures front { (n : ℕ) × (result.now ≡ take n piece.now) }
    ensures bound { length result.now ≤ most }
    ensures some { 0 < length piece.now → 0 < most → 0 < length result.now }
{
    let front = front_of(piece, most);
    match front.iter().position(|b| *b == b'\n') {
        Some(at) => &front[..at + 1],
        None => front,
    }
}

// What follows a CRLF at the front.
fn behind_crlf(bytes: &[u8]) -> Option<&[u8]>
    ensures { IfSome result (λ rest. bytes.now ≡ 13 ∷ 10 ∷ rest.now) }
{
    match bytes {
        [b'\r', b'\n', rest @ ..] => Some(rest),
        _ => None,
    }
}

// The line and the data of a chunk of at most so much data that stands at the front.
fn whole_chunk(piece: &[u8], room: usize) -> Option<(&[u8], &[u8])>
    requires { room ≤ MAX_BODY }
    ensures chunk { IfSome result (λ c. IsWholeChunk c.0.now c.1.now piece.now) }
    ensures fits { IfSome result (λ c. length c.1.now ≤ room) }
{
    let at = find_cr(front_of(piece, MAX_LINE))?;
    let (line, behind) = piece.split_at(at);
    let size = line_size(line)?;
    if size == 0 || size > room as u64 {
        return None;
    }
    let content = behind_crlf(behind)?;
    if content.len() < size as usize {
        return None;
    }
    let (octets, rest) = content.split_at(size as usize);
    behind_crlf(rest)?;
    Some((line, octets))
}

impl Reader {
    ghost use Rattle.http_frames.specs.Pieces.{IsSoundReader, IsReadBy, ReadsPiece, IsProgress, TookAll};
    ghost use Rattle.http_frames.specs.declared.reader.Stage.TheVariants.{Line, LineEnd, Data, DataCr, DataLf, Trailer, Crowded};

    /// The body is read into the memory of these octets, which are dropped, and what is kept beside
    /// it into that of the others.
    pub fn new(alloc: Global, mut body: Bytes, mut kept: Bytes) -> Reader
        ensures sound { IsSoundReader result }
        ensures read { IsReadBy result [] }
        ensures body { result.body ≡ [] }
    {
        body.truncate(0);
        kept.truncate(0);
        Reader {
            alloc,
            body,
            pending: kept,
            stage: Stage::Line,
        }
    }

    // Takes a chunk that the piece has as a whole, as far as nothing of a line came before. `None`
    // says nothing of the piece.
    fn take_chunk(&mut self, piece: &[u8]) -> Result<Option<usize>, NoMemory>
        requires sound { IsSoundReader self.old }
        requires stage { self.old.stage ≡ Line }
        requires bare { self.old.pending ≡ [] }
        ensures some { IfOk result (λ taken. IfSome taken (λ n. (0 < n)
            × ReadsPiece self.old piece.now self.new (Intake.Took n))) }
        ensures none { IfOk result (λ taken. IfNone taken (self.new ≡ self.old)) }
        ensures line { IfOk result (λ _. (self.new.stage ≡ Line) × (self.new.pending ≡ [])) }
    {
        let room = MAX_BODY - self.body.len();
        let Some((line, octets)) = whole_chunk(piece, room) else {
            return Ok(None);
        };
        self.body.extend(octets)?;
        Ok(Some(line.len() + octets.len() + 4))
    }

    // Takes the chunks at the front that the piece has as a whole, as far as nothing of a line came
    // before. That there are none says nothing of the piece.
    fn take_chunks(&mut self, piece: &[u8]) -> Result<usize, NoMemory>
        requires sound { IsSoundReader self.old }
        requires stage { self.old.stage ≡ Line }
        requires bare { self.old.pending ≡ [] }
        ensures took { IfOk result (λ n. ReadsPiece self.old piece.now self.new (Intake.Took n)) }
        ensures none { IfOk result (λ n. n ≡ 0 → self.new ≡ self.old) }
    {
        let mut at = 0;
        while let Some(count) = self.take_chunk(&piece[at..])? {
            at += count;
        }
        Ok(at)
    }

    // Takes the front of a piece at the line of a chunk.
    fn take_at_line(&mut self, piece: &[u8]) -> Result<Intake, NoMemory>
        requires sound { IsSoundReader self.old }
        requires stage { self.old.stage ≡ Line }
        requires some { 0 < length piece.now }
        ensures steps { IfOk result (ReadsPiece self.old piece.now self.new) }
        ensures progress { IfOk result IsProgress }
    {
        if !self.pending.is_empty() {
            return self.take_line(piece);
        }
        match self.take_chunks(piece)? {
            0 => self.take_line(piece),
            count => Ok(Intake::Took(count)),
        }
    }

    fn take_line(&mut self, piece: &[u8]) -> Result<Intake, NoMemory>
        requires sound { IsSoundReader self.old }
        requires stage { self.old.stage ≡ Line }
        requires some { 0 < length piece.now }
        ensures steps { IfOk result (ReadsPiece self.old piece.now self.new) }
        ensures progress { IfOk result IsProgress }
    {
        let room = MAX_LINE - self.pending.len();
        let Some(at) = find_cr(piece) else {
            if piece.len() > room {
                return Ok(Intake::Bad);
            }
            self.pending.extend(piece)?;
            return Ok(Intake::Took(piece.len()));
        };
        if at > room {
            return Ok(Intake::Bad);
        }
        self.pending.extend(&piece[..at])?;
        self.stage = Stage::LineEnd;
        Ok(Intake::Took(at + 1))
    }

    fn take_line_end(&mut self, piece: &[u8]) -> Intake
        requires sound { IsSoundReader self.old }
        requires stage { self.old.stage ≡ LineEnd }
        requires some { 0 < length piece.now }
        ensures steps { ReadsPiece self.old piece.now self.new result }
        ensures progress { IsProgress result }
    {
        if piece[0] != b'\n' {
            return Intake::Bad;
        }
        let Some(size) = line_size(self.pending.as_slice()) else {
            return Intake::Bad;
        };
        if size > (MAX_BODY - self.body.len()) as u64 {
            return Intake::Bad;
        }
        self.pending.truncate(0);
        if size == 0 {
            self.stage = Stage::Trailer;
            return Intake::Took(1);
        }
        self.stage = Stage::Data(size as usize);
        Intake::Took(1)
    }

    fn take_data(&mut self, left: usize, piece: &[u8]) -> Result<Intake, NoMemory>
        requires sound { IsSoundReader self.old }
        requires stage { self.old.stage ≡ Data left }
        requires some { 0 < length piece.now }
        ensures steps { IfOk result (ReadsPiece self.old piece.now self.new) }
        ensures progress { IfOk result IsProgress }
    {
        if piece.len() < left {
            self.body.extend(piece)?;
            self.stage = Stage::Data(left - piece.len());
            Ok(Intake::Took(piece.len()))
        } else {
            self.body.extend(&piece[..left])?;
            self.stage = Stage::DataCr;
            Ok(Intake::Took(left))
        }
    }

    fn take_data_cr(&mut self, piece: &[u8]) -> Intake
        requires sound { IsSoundReader self.old }
        requires stage { self.old.stage ≡ DataCr }
        requires some { 0 < length piece.now }
        ensures steps { ReadsPiece self.old piece.now self.new result }
        ensures progress { IsProgress result }
    {
        if piece[0] != b'\r' {
            return Intake::Bad;
        }
        self.stage = Stage::DataLf;
        Intake::Took(1)
    }

    fn take_data_lf(&mut self, piece: &[u8]) -> Intake
        requires sound { IsSoundReader self.old }
        requires stage { self.old.stage ≡ DataLf }
        requires some { 0 < length piece.now }
        ensures steps { ReadsPiece self.old piece.now self.new result }
        ensures progress { IsProgress result }
    {
        if piece[0] != b'\n' {
            return Intake::Bad;
        }
        self.pending.truncate(0);
        self.stage = Stage::Line;
        Intake::Took(1)
    }

    fn take_trailer(&mut self, piece: &[u8]) -> Result<Intake, NoMemory>
        requires sound { IsSoundReader self.old }
        requires stage { self.old.stage ≡ Trailer }
        requires some { 0 < length piece.now }
        ensures steps { IfOk result (ReadsPiece self.old piece.now self.new) }
        ensures progress { IfOk result IsProgress }
    {
        let before = self.pending.len();
        let front = first_line(piece, MAX_OCTETS - before);
        self.pending.extend(front)?;
        let full = self.pending.len() == MAX_OCTETS;
        if !full && !brings_section(self.pending.as_slice(), before) {
            return Ok(Intake::Took(front.len()));
        }
        match read_section(self.alloc, self.pending.as_slice())? {
            SectionRead::Whole(trailer, len) => Ok(Intake::Whole(trailer, len - before)),
            SectionRead::More => Ok(Intake::Took(front.len())),
            SectionRead::Crowded => {
                self.stage = Stage::Crowded;
                Ok(Intake::Took(front.len()))
            }
            SectionRead::Bad => Ok(Intake::Bad),
        }
    }

    fn take_crowded(&mut self, piece: &[u8]) -> Result<Intake, NoMemory>
        requires sound { IsSoundReader self.old }
        requires stage { self.old.stage ≡ Crowded }
        requires some { 0 < length piece.now }
        ensures steps { IfOk result (ReadsPiece self.old piece.now self.new) }
        ensures progress { IfOk result IsProgress }
    {
        let front = front_of(piece, MAX_OCTETS - self.pending.len());
        self.pending.extend(front)?;
        if self.pending.len() == MAX_OCTETS {
            return Ok(Intake::Bad);
        }
        Ok(Intake::Took(front.len()))
    }

    // Takes the front of a piece that is not empty.
    fn take(&mut self, piece: &[u8]) -> Result<Intake, NoMemory>
        requires sound { IsSoundReader self.old }
        requires some { 0 < length piece.now }
        ensures steps { IfOk result (ReadsPiece self.old piece.now self.new) }
        ensures progress { IfOk result IsProgress }
    {
        match self.stage {
            Stage::Line => self.take_at_line(piece),
            Stage::LineEnd => Ok(self.take_line_end(piece)),
            Stage::Data(left) => self.take_data(left, piece),
            Stage::DataCr => Ok(self.take_data_cr(piece)),
            Stage::DataLf => Ok(self.take_data_lf(piece)),
            Stage::Trailer => self.take_trailer(piece),
            Stage::Crowded => self.take_crowded(piece),
        }
    }

    /// Takes the whole piece, or as much as ends the body.
    pub fn read(&mut self, piece: &[u8]) -> Result<Intake, NoMemory>
        requires sound { IsSoundReader self.old }
        ensures steps { IfOk result (ReadsPiece self.old piece.now self.new) }
        ensures all { IfOk result (TookAll piece.now) }
    {
        let mut at = 0;
        while at < piece.len() {
            match self.take(&piece[at..])? {
                Intake::Took(count) => at += count,
                Intake::Whole(trailer, count) => return Ok(Intake::Whole(trailer, at + count)),
                Intake::Bad => return Ok(Intake::Bad),
            }
        }
        Ok(Intake::Took(at))
    }
}
