//! Numbers with names of their own.

/// The number of a node: 1, 2, 3 and so on in the order of building, never used again.
#[derive(Clone, Copy, Debug, PartialEq, Eq)]
pub struct NodeId(pub u64);

/// The number of a step, which the host gives its meaning.
#[derive(Clone, Copy, Debug, PartialEq, Eq)]
pub struct StepId(pub u32);

/// A name of a promise, a cell or another thing that commands speak of.
#[derive(Clone, Copy, Debug, Default, PartialEq, Eq)]
pub struct Name(pub u32);

/// How many slots for nodes a loop has, and how many names there may be.
#[derive(Clone, Copy, Debug, PartialEq, Eq)]
pub struct Limits {
    pub slots: u32,
    pub names: u32,
}
