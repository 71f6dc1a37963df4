//! What a script, a step or a host asks of a loop.
ghost use Rattle.std.specs.Prelude.{◌≡◌};

use crate::sources::Sources;
use kj_base::{Exception, Name, StepId, Words};

/// A command. A promise that is named as a source leaves the map of names.
#[derive(Drop)]
pub enum Command {
    /// A promise that is ready with a value (kj/async.h, a constant promise).
    Now {
        name: Name,
        value: Words,
    },
    /// A promise that is ready with an exception.
    Broken {
        name: Name,
        exception: Exception,
    },
    /// A promise that is ready with the empty value, and whose event comes in a later turn (kj/async.h, `evalLater`).
    Later {
        name: Name,
    },
    /// The same, and its event comes after all others (kj/async.h, `evalLast`).
    Last {
        name: Name,
    },
    /// A promise and its fulfiller (kj/async.h, `newPromiseAndFulfiller`).
    Pair {
        name: Name,
        cell: Name,
    },
    /// A continuation of the source: a step for a value, a step for an exception (kj/async.h, `then`).
    Then {
        name: Name,
        source: Name,
        value: Option<StepId>,
        error: Option<StepId>,
    },
    /// The same, and a step may give a promise.
    Chain {
        name: Name,
        source: Name,
        value: Option<StepId>,
        error: Option<StepId>,
    },
    /// The source is evaluated as soon as it is ready (kj/async.h, `eagerlyEvaluate`).
    Eager {
        name: Name,
        source: Name,
    },
    /// The source becomes a hub, of which there can be branches (kj/async.h, `fork`).
    Fork {
        hub: Name,
        source: Name,
    },
    /// A branch of a hub (kj/async.h, `ForkedPromise::addBranch`).
    Branch {
        name: Name,
        hub: Name,
    },
    /// The one of two promises that is ready first (kj/async.h, `exclusiveJoin`).
    Race {
        name: Name,
        left: Name,
        right: Name,
    },
    /// All of these promises (kj/async.h, `joinPromises`).
    All {
        name: Name,
        parts: Sources,
    },
    /// The same, ready at the first exception (kj/async.h, `joinPromisesFailFast`).
    Fast {
        name: Name,
        parts: Sources,
    },
    /// The cell of a fulfiller gets a value (kj/async.h, `PromiseFulfiller::fulfill`).
    Fulfil {
        cell: Name,
        value: Words,
    },
    /// The cell of a fulfiller gets an exception (kj/async.h, `PromiseFulfiller::reject`).
    Reject {
        cell: Name,
        exception: Exception,
    },
    /// A fulfiller goes.
    DropCell {
        cell: Name,
    },
    /// The source goes into the loop's own set of tasks (kj/async.h, `detach`).
    Detach {
        source: Name,
    },
    /// A set of tasks, with a step for their exceptions (kj/async.h, `TaskSet`).
    NewSet {
        group: Name,
        error: Option<StepId>,
    },
    /// The source goes into a set as a task (kj/async.h, `TaskSet::add`).
    Add {
        group: Name,
        source: Name,
    },
    /// A promise that a set is empty (kj/async.h, `TaskSet::onEmpty`).
    OnEmpty {
        name: Name,
        group: Name,
    },
    /// The tasks of a set go.
    Clear {
        group: Name,
    },
    /// A canceler (kj/async.h, `Canceler`).
    NewCanceler {
        canceler: Name,
    },
    /// What a canceler wraps ends as cancelled (kj/async.h, `Canceler::cancel`).
    Cancel {
        canceler: Name,
    },
    /// A name goes with the promise, the set or the canceler that it holds, or with its reference of a hub
    /// (kj/async.h, the destructor of a `Promise`).
    Drop {
        name: Name,
    },
}

/// What stands in the places of an array of commands that aren't used.
impl Default for Command {
    fn default() -> Command {
        Command::Later { name: Name(0) }
    }
}

impl Command {
    /// The same command; takes no memory.
    pub fn copy(&self) -> Command
        ensures { result ≡ self.now }
    {
        match self {
            Command::Now { name, value } => Command::Now {
                name: *name,
                value: value.copy(),
            },
            Command::Broken { name, exception } => Command::Broken {
                name: *name,
                exception: *exception,
            },
            Command::Later { name } => Command::Later { name: *name },
            Command::Last { name } => Command::Last { name: *name },
            Command::Pair { name, cell } => Command::Pair {
                name: *name,
                cell: *cell,
            },
            Command::Then {
                name,
                source,
                value,
                error,
            } => Command::Then {
                name: *name,
                source: *source,
                value: *value,
                error: *error,
            },
            Command::Chain {
                name,
                source,
                value,
                error,
            } => Command::Chain {
                name: *name,
                source: *source,
                value: *value,
                error: *error,
            },
            Command::Eager { name, source } => Command::Eager {
                name: *name,
                source: *source,
            },
            Command::Fork { hub, source } => Command::Fork {
                hub: *hub,
                source: *source,
            },
            Command::Branch { name, hub } => Command::Branch {
                name: *name,
                hub: *hub,
            },
            Command::Race { name, left, right } => Command::Race {
                name: *name,
                left: *left,
                right: *right,
            },
            Command::All { name, parts } => Command::All {
                name: *name,
                parts: parts.copy(),
            },
            Command::Fast { name, parts } => Command::Fast {
                name: *name,
                parts: parts.copy(),
            },
            Command::Fulfil { cell, value } => Command::Fulfil {
                cell: *cell,
                value: value.copy(),
            },
            Command::Reject { cell, exception } => Command::Reject {
                cell: *cell,
                exception: *exception,
            },
            Command::DropCell { cell } => Command::DropCell { cell: *cell },
            Command::Detach { source } => Command::Detach { source: *source },
            Command::NewSet { group, error } => Command::NewSet {
                group: *group,
                error: *error,
            },
            Command::Add { group, source } => Command::Add {
                group: *group,
                source: *source,
            },
            Command::OnEmpty { name, group } => Command::OnEmpty {
                name: *name,
                group: *group,
            },
            Command::Clear { group } => Command::Clear { group: *group },
            Command::NewCanceler { canceler } => Command::NewCanceler {
                canceler: *canceler,
            },
            Command::Cancel { canceler } => Command::Cancel {
                canceler: *canceler,
            },
            Command::Drop { name } => Command::Drop { name: *name },
        }
    }
}
