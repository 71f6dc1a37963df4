//! The outcome of a join, one Side after another.
ghost use Rattle.std.specs.Prelude.{◌≡◌, ◌++◌, [], length, nat_le};
ghost use Rattle.promise_walks.specs.Sums.{plus, plus_kept, total, words_or_too_long};

use kj_base::{Exception, Kind, Outcome, Words};

/// The code of the exception where the values of a join have more words than a value may have.
const TOO_LONG: u32 = 6;

/// The outcomes of some Sides of a join, joined.
#[derive(Drop)]
pub enum Sum {
    /// Their words, one after another.
    Words(Words),
    /// Values with more words than a value may have.
    TooLong,
    /// The first exception among them.
    Broken(Exception),
}

// No outcome.
pub(crate) fn no_sum() -> Sum
    ensures { result ≡ Sum.Words [] }
{
    Sum::Words(Words::new())
}

// More words.
fn append(words: Words, more: &Words) -> Sum
    ensures { result
        ≡ words_or_too_long (nat_le (length (words ++ more.now)) 16) (words ++ more.now) }
{
    let mut words = words;
    let source = more.as_slice();
    'adding: for word in source {
        if !words.push(*word) {
            return Sum::TooLong;
        }
    }
    Sum::Words(words)
}

// One outcome more: the first exception stays, and a later one comes before too many words.
pub(crate) fn plus(sum: Sum, outcome: Outcome) -> Sum
    ensures { result ≡ plus sum outcome }
{
    match sum {
        Sum::Words(words) => match outcome {
            Outcome::Value(more) => append(words, &more),
            Outcome::Broken(exception) => Sum::Broken(exception),
        },
        Sum::TooLong => match outcome {
            Outcome::Value(_) => Sum::TooLong,
            Outcome::Broken(exception) => Sum::Broken(exception),
        },
        Sum::Broken(exception) => Sum::Broken(exception),
    }
}

// An outcome more, where there is one.
pub(crate) fn plus_kept(sum: Sum, outcome: Option<Outcome>) -> Sum
    ensures { result ≡ plus_kept sum outcome }
{
    match outcome {
        Some(outcome) => plus(sum, outcome),
        None => sum,
    }
}

// The outcome of a join.
pub(crate) fn total(sum: Sum) -> Outcome
    ensures { result ≡ total sum }
{
    match sum {
        Sum::Words(words) => Outcome::Value(words),
        Sum::TooLong => Outcome::Broken(Exception {
            kind: Kind::Failed,
            code: TOO_LONG,
        }),
        Sum::Broken(exception) => Outcome::Broken(exception),
    }
}
