//! The names that a server's commands speak of, all above 2^31.

/// The set of the connections' tasks.
pub const TASKS: u32 = 2_147_483_649;

/// The cell whose value begins the drain.
pub const DRAIN_CELL: u32 = 2_147_483_650;

/// The fork of the drain, of which each connection that waits has a branch.
pub const DRAIN_FORK: u32 = 2_147_483_651;

// Promises that no action leaves in the map of names.

/// A promise that is ready.
pub const LEAF: u32 = 2_147_483_652;

/// What an action builds last: its promise, or the task of a connection.
pub const LAST: u32 = 2_147_483_653;

/// The promise that a stream is ready.
pub const READABLE: u32 = 2_147_483_654;

/// A branch of the drain's fork, and then a join.
pub const JOIN: u32 = 2_147_483_655;

/// The first of a stream that is ready and a drain.
pub const RACE: u32 = 2_147_483_656;

/// The cell of the connection at place 0; those of the others follow it.
pub const FIRST_CELL: u32 = 2_147_483_664;

/// The most connections at once: a loop has no more names.
pub const MAX_CONNECTIONS: u32 = 1_048_576;
