//! Limits that several crates speak of.

/// How many slots for nodes the loop of a script has that gives no limits.
pub const SLOTS: u32 = 65_536;

/// How many names such a loop has.
pub const NAMES: u32 = 4_096;

/// The most slots that a loop may have.
pub const MAX_SLOTS: u32 = 4_194_304;

/// The most names that a loop may have.
pub const MAX_NAMES: u32 = 1_048_576;

/// The most octets that an input of the program may have.
pub const INPUT_LIMIT: usize = 16_777_216;
