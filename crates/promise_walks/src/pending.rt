//! Nodes that go on once the tree below them was evaluated.
use crate::shape::Parts;
use crate::sums::Sum;
use kj_base::{Link, Outcome, StepId};

/// A Then with its tree: the step for a value, and the step for an exception.
#[derive(Clone, Copy, Debug, PartialEq, Eq)]
pub struct Continuation {
    pub node: Link,
    pub value: Option<StepId>,
    pub error: Option<StepId>,
    pub tree: Link,
}

/// A node that goes on once the tree below it was evaluated.
#[derive(Drop)]
pub enum Pending {
    Then(Continuation),
    /// The Side that won a race.
    Won {
        side: Link,
        tree: Link,
    },
    /// A Side of a join, the Sides behind it, and what those before it gave.
    Part {
        side: Link,
        tree: Link,
        behind: Parts,
        sum: Sum,
    },
}

// Where an evaluation is: above a tree that is still to be evaluated, or back with an outcome.
#[derive(Drop)]
pub(crate) enum At {
    Down(Link),
    Up(Outcome),
}
