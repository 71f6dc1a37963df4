//! What a caller counts of its own calls.

/// How often a submitter got which answer.
#[derive(Clone, Copy, Debug, PartialEq, Eq)]
pub struct Tally {
    pub taken: u32,
    pub refused: u32,
    pub withdrawn: u32,
    pub asked: u32,
    pub ended: u32,
}

impl Tally {
    pub fn new() -> Tally {
        Tally {
            taken: 0,
            refused: 0,
            withdrawn: 0,
            asked: 0,
            ended: 0,
        }
    }
}

/// How often a target started, was told to stop, and finished.
#[derive(Clone, Copy, Debug, PartialEq, Eq)]
pub struct Served {
    pub started: u32,
    pub stopped: u32,
    pub finished: u32,
}

impl Served {
    pub fn new() -> Served {
        Served {
            started: 0,
            stopped: 0,
            finished: 0,
        }
    }
}

// One more.
pub(crate) fn count(of: &mut u32) {
    *of = of.saturating_add(1);
}
