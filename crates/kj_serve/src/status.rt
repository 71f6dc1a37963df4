//! The statuses that the program ends with.
ghost use Rattle.std.specs.Prelude.{◌≡◌, ◌≢◌};
ghost use Rattle.std.specs.declared.io.ErrorKind.TheVariants.{OutOfMemory};

use std::io::ErrorKind;

/// The input was read to its end, and all was written.
pub const DONE: u8 = 0;
/// The input is no recording, or no script.
pub const BAD_INPUT: u8 = 1;
/// The words are no form of the program.
pub const WRONG_WORDS: u8 = 2;
/// A read failed.
pub const READ_FAILED: u8 = 3;
/// A write failed.
pub const WRITE_FAILED: u8 = 4;
/// Memory ran out.
pub const NO_MEMORY: u8 = 5;
/// The input is longer than its limit.
pub const TOO_LONG: u8 = 6;
/// The script has a line that isn't built yet.
pub const NOT_BUILT: u8 = 9;

/// The status of words that could not be read: they are no form, unless memory ran out.
pub fn of_unread_words(kind: ErrorKind) -> u8
    ensures memory { kind ≡ OutOfMemory → result ≡ 5 }
    ensures others { kind ≢ OutOfMemory → result ≡ 2 }
{
    match kind {
        ErrorKind::OutOfMemory => NO_MEMORY,
        _ => WRONG_WORDS,
    }
}
