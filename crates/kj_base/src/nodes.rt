//! Nodes as a store keeps them.
ghost use Rattle.std.specs.Prelude.{◌≡◌};

use crate::numbers::{Name, NodeId, StepId};
use crate::outcomes::Outcome;

/// The place of a node in its store, which is used again when the node was freed.
#[derive(Clone, Copy, Debug, PartialEq, Eq)]
pub struct Slot(pub u32);

/// A node that another one knows: its number, which decides, and the slot where it was placed.
#[derive(Clone, Copy, Debug, PartialEq, Eq)]
pub struct Link {
    pub slot: Slot,
    pub number: NodeId,
}

/// What an eager promise, a wrapped one or a hub has: its tree, and once its event has fired the
/// outcome.
#[derive(Drop)]
pub enum Content {
    Tree(Link),
    Kept(Outcome),
}

/// What the Side of a race or a join has.
#[derive(Drop)]
pub enum Stage {
    /// Its tree, whose event hasn't fired.
    Waits(Link),
    /// Its tree, whose event has fired.
    Fired(Link),
    /// The outcome that a Side of a fast join keeps.
    Keeps(Outcome),
    /// Nothing is left.
    Gone,
}

/// The form of a node, with links in place of trees. A tree that was freed is none.
#[derive(Drop)]
pub enum Form {
    /// Ready with an outcome.
    Ready {
        outcome: Outcome,
    },
    /// Ready with the empty value.
    Later,
    /// The same, and its event comes after all others.
    Last,
    /// Ready once it was settled.
    Cell {
        outcome: Option<Outcome>,
    },
    /// One of the branches of a hub.
    Branch {
        hub: Link,
    },
    /// A step for a value and a step for an exception, over a tree.
    Then {
        value: Option<StepId>,
        error: Option<StepId>,
        tree: Option<Link>,
    },
    /// Over a Then whose step may give a promise.
    Chain {
        link: Link,
    },
    /// Evaluates its tree when it fires, and keeps the outcome.
    Eager {
        content: Content,
    },
    /// The same, and a canceler can settle it.
    Wrap {
        canceler: Name,
        content: Content,
    },
    /// A promise with branches, and whether its name lives.
    Hub {
        content: Content,
        is_named: bool,
    },
    /// One part of a race or a join.
    Side {
        stage: Stage,
    },
    /// Two Sides, whose numbers follow each other; and the one that fired first.
    Race {
        left: Link,
        winner: Option<NodeId>,
    },
    /// So many Sides, whose numbers follow each other; a fast join is ready at the first exception.
    Join {
        is_fast: bool,
        first: Link,
        count: u8,
    },
    /// A task of a set or of the loop, over a tree.
    Task {
        tree: Option<Link>,
    },
    /// The request of another loop, over a tree.
    Request {
        name: Name,
        tree: Option<Link>,
    },
}

/// A node: plain data that a store only keeps.
#[derive(Drop)]
pub struct Node {
    pub number: NodeId,
    pub form: Form,
}

/// One or two nodes, placed one before the other, the first of them before a live slot or anew.
#[derive(Clone, Copy, Debug, PartialEq, Eq)]
pub struct Row {
    pub before: Option<Slot>,
    pub count: u8,
}

impl Content {
    /// The same content; takes no memory.
    pub fn copy(&self) -> Content
        ensures { result ≡ self.now }
    {
        match self {
            Content::Tree(link) => Content::Tree(*link),
            Content::Kept(outcome) => Content::Kept(outcome.copy()),
        }
    }
}

impl Stage {
    /// The same stage; takes no memory.
    pub fn copy(&self) -> Stage
        ensures { result ≡ self.now }
    {
        match self {
            Stage::Waits(link) => Stage::Waits(*link),
            Stage::Fired(link) => Stage::Fired(*link),
            Stage::Keeps(outcome) => Stage::Keeps(outcome.copy()),
            Stage::Gone => Stage::Gone,
        }
    }
}

impl Form {
    /// The same form; takes no memory.
    pub fn copy(&self) -> Form
        ensures { result ≡ self.now }
    {
        match self {
            Form::Ready { outcome } => Form::Ready {
                outcome: outcome.copy(),
            },
            Form::Later => Form::Later,
            Form::Last => Form::Last,
            Form::Cell { outcome } => Form::Cell {
                outcome: copy_kept(outcome),
            },
            Form::Branch { hub } => Form::Branch { hub: *hub },
            Form::Then { value, error, tree } => Form::Then {
                value: *value,
                error: *error,
                tree: *tree,
            },
            Form::Chain { link } => Form::Chain { link: *link },
            Form::Eager { content } => Form::Eager {
                content: content.copy(),
            },
            Form::Wrap { canceler, content } => Form::Wrap {
                canceler: *canceler,
                content: content.copy(),
            },
            Form::Hub { content, is_named } => Form::Hub {
                content: content.copy(),
                is_named: *is_named,
            },
            Form::Side { stage } => Form::Side {
                stage: stage.copy(),
            },
            Form::Race { left, winner } => Form::Race {
                left: *left,
                winner: *winner,
            },
            Form::Join {
                is_fast,
                first,
                count,
            } => Form::Join {
                is_fast: *is_fast,
                first: *first,
                count: *count,
            },
            Form::Task { tree } => Form::Task { tree: *tree },
            Form::Request { name, tree } => Form::Request {
                name: *name,
                tree: *tree,
            },
        }
    }
}

// The same outcome, where there is one.
fn copy_kept(outcome: &Option<Outcome>) -> Option<Outcome>
    ensures { result ≡ outcome.now }
{
    match outcome {
        Some(outcome) => Some(outcome.copy()),
        None => None,
    }
}
