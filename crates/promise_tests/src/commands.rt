//! Commands for tests, each in few words.
use kj_base::{Exception, Kind, Name, StepId, Words};
use promise_commands::{Command, Sources};

pub fn later(name: u32) -> Command {
    Command::Later { name: Name(name) }
}

pub fn now(name: u32) -> Command {
    Command::Now {
        name: Name(name),
        value: Words::new(),
    }
}

pub fn broken(name: u32) -> Command {
    Command::Broken {
        name: Name(name),
        exception: Exception {
            kind: Kind::Failed,
            code: 1002,
        },
    }
}

pub fn then(name: u32, source: u32, step: StepId) -> Command {
    Command::Then {
        name: Name(name),
        source: Name(source),
        value: Some(step),
        error: None,
    }
}

pub fn chain(name: u32, source: u32, step: StepId) -> Command {
    Command::Chain {
        name: Name(name),
        source: Name(source),
        value: Some(step),
        error: None,
    }
}

pub fn eager(name: u32, source: u32) -> Command {
    Command::Eager {
        name: Name(name),
        source: Name(source),
    }
}

pub fn pair(name: u32, cell: u32) -> Command {
    Command::Pair {
        name: Name(name),
        cell: Name(cell),
    }
}

pub fn fulfil(cell: u32) -> Command {
    Command::Fulfil {
        cell: Name(cell),
        value: Words::new(),
    }
}

pub fn fork(hub: u32, source: u32) -> Command {
    Command::Fork {
        hub: Name(hub),
        source: Name(source),
    }
}

pub fn branch(name: u32, hub: u32) -> Command {
    Command::Branch {
        name: Name(name),
        hub: Name(hub),
    }
}

pub fn race(name: u32, left: u32, right: u32) -> Command {
    Command::Race {
        name: Name(name),
        left: Name(left),
        right: Name(right),
    }
}

pub fn all(name: u32, left: u32, right: u32) -> Command {
    let mut parts = Sources::new();
    parts.push(Name(left));
    parts.push(Name(right));
    Command::All {
        name: Name(name),
        parts,
    }
}

pub fn detach(source: u32) -> Command {
    Command::Detach {
        source: Name(source),
    }
}

pub fn new_set(group: u32, error: Option<StepId>) -> Command {
    Command::NewSet {
        group: Name(group),
        error,
    }
}

pub fn add(group: u32, source: u32) -> Command {
    Command::Add {
        group: Name(group),
        source: Name(source),
    }
}

pub fn on_empty(name: u32, group: u32) -> Command {
    Command::OnEmpty {
        name: Name(name),
        group: Name(group),
    }
}
