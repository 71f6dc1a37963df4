//! A number that only grows, and who sleeps until it does. No proof rests on it.
use std::sync::Wait;
use std::sync::atomic::{AtomicU64, Ordering};

// It has a cache line of its own, or nearly.
#[derive(Drop)]
pub(crate) struct Bell {
    rung: AtomicU64,
    // How many have lain down since, less how often it rang for one: no fewer than sleep.
    sleepers: AtomicU64,
    _apart: [u64; 6],
}

impl Bell {
    pub(crate) fn new() -> Bell {
        Bell {
            rung: AtomicU64::new(0),
            sleepers: AtomicU64::new(0),
            _apart: [0; 6],
        }
    }

    // How often it rang.
    pub(crate) fn rung(&self) -> u64 {
        self.rung.load(Ordering::SeqCst)
    }

    // Ends one sleep, where there is one. Each that lay down is rung for once.
    pub(crate) fn ring_for_one(&self) {
        let sleepers = self.sleepers.load(Ordering::SeqCst);
        if sleepers == 0 {
            return;
        }
        let rest = sleepers - 1;
        if self
            .sleepers
            .compare_exchange(sleepers, rest, Ordering::SeqCst, Ordering::SeqCst)
            .is_ok()
        {
            self.rung.fetch_add(1, Ordering::SeqCst);
            self.rung.wake_one();
        }
    }

    // Rings where somebody sleeps.
    pub(crate) fn ring_for_sleepers(&self) {
        if self.sleepers.load(Ordering::SeqCst) != 0 {
            self.rung.fetch_add(1, Ordering::SeqCst);
            self.rung.wake_all();
        }
    }

    // From now on a ring wakes.
    pub(crate) fn lie_down(&self) {
        self.sleepers.fetch_add(1, Ordering::SeqCst);
    }

    pub(crate) fn get_up(&self) {
        self.sleepers.fetch_sub(1, Ordering::SeqCst);
    }

    // Sleeps until it rings, unless it has rung more often already.
    pub(crate) fn sleep<R: Wait>(&self, rt: &R, rung: u64) {
        self.rung.park(rt, (rung & 0xffff_ffff) as u32);
    }
}

// How many bells there are for those who hold tickets.
const ROW: usize = 16;

// Where those sleep who wait for a lock.
#[derive(Drop)]
pub(crate) struct Bells {
    // Those who wait until they may draw a ticket.
    pub(crate) gate: Bell,
    // Those who wait for ticket n sleep at bell n modulo 16.
    row: [Bell; ROW],
}

impl Bells {
    pub(crate) fn new() -> Bells {
        Bells {
            gate: Bell::new(),
            row: [
                Bell::new(),
                Bell::new(),
                Bell::new(),
                Bell::new(),
                Bell::new(),
                Bell::new(),
                Bell::new(),
                Bell::new(),
                Bell::new(),
                Bell::new(),
                Bell::new(),
                Bell::new(),
                Bell::new(),
                Bell::new(),
                Bell::new(),
                Bell::new(),
            ],
        }
    }

    pub(crate) fn of(&self, ticket: u64) -> &Bell {
        &self.row[(ticket % ROW as u64) as usize]
    }
}
