//! Jobs that threads run, and who may start them.
ghost use Rattle.std.specs.Prelude.{◌≡◌, ◌≤◌, ◌<◌, ℕ, length, vec_len, IfOk, IfErr, true, false};
ghost use Rattle.std.specs.List.{All};
ghost use Rattle.std.specs.Thread.{IsSync, IsSend};
ghost use Rattle.kj_io.specs.Causes.{Rose, HasCause};
ghost use Rattle.kj_io.specs.Jobs.{Each};

use std::sync::Wait;
use std::thread;
use std::thread::for_each_mut;

/// A job of a thread. Its one meaning relates the job before its work to the job after.
pub trait Job: Send {
    /// When its work may be called.
    ghost ready: { Self → Type 0 };

    /// What its work makes of it.
    ghost done: { Self → Self → Type 0 };

    fn work<R: Wait + thread::Threads + Sync>(&mut self, rt: &R)
        requires { ready self.old }
        ensures { done self.old self.new };
}

/// Jobs that were not started, as they were.
#[derive(Drop)]
pub struct NotStarted<J> {
    pub jobs: Vec<J>,
}

/// It says whether jobs may be started, and counts its refusals.
pub trait Spawner {
    ghost faults: { Self → ℕ };

    /// How often it refused so far; it stops at `u64::MAX`.
    fn faults(&self) -> u64
        ensures { result ≡ faults self.now };

    fn may_start(&mut self) -> bool
        ensures later { faults self.old ≤ faults self.new }
        ensures refused { result ≡ false → Rose (faults self.old) (faults self.new) };
}

/// Runs the jobs, each on a thread of its own where one can be made, and gives them back in order.
/// Where the spawner refuses, no job's work is called.
pub fn run_all<W: Spawner, J: Job, R: Wait + thread::Threads + Sync>(
    rt: &R,
    spawner: &mut W,
    mut jobs: Vec<J>,
) -> Result<Vec<J>, NotStarted<J>>
    requires { All J.ready jobs.items }
    ensures count { IfOk result (λ v. vec_len v ≡ vec_len jobs) }
    ensures done { IfOk result (λ v. Each J.done jobs.items v.items) }
    ensures not_started { IfErr result (λ e. e.jobs.items ≡ jobs.items) }
    ensures cause { HasCause (W.faults spawner.old) (W.faults spawner.new) result }
{
    if !spawner.may_start() {
        return Err(NotStarted { jobs });
    }
    if !jobs.is_empty() {
        work_each(rt, jobs.as_mut_slice());
    }
    Ok(jobs)
}

// Works each job, on threads of their own where these can be made.
fn work_each<J: Job, R: Wait + thread::Threads + Sync>(rt: &R, jobs: &mut [J])
    requires some { 0 < length jobs.old }
    requires ready { All J.ready jobs.old }
    ensures { Each J.done jobs.old jobs.new }
{
    let count = jobs.len();
    for_each_mut(
        rt,
        jobs,
        count,
        &|_: usize, job: &mut J|
            requires { IsSync R.row × IsSend J.row × J.ready job.now }
            ensures { J.done job.entry.now job.exit.now }
        { work_one(rt, job) },
    );
}

// One job's work, with its own contract as the thread's.
fn work_one<J: Job, R: Wait + thread::Threads + Sync>(rt: &R, job: &mut J)
    requires { J.ready job.old }
    ensures { J.done job.old job.new }
{
    job.work(rt);
}

/// The spawner of the program: it never refuses.
#[derive(Clone, Copy, Debug, PartialEq, Eq)]
pub struct Threads;

impl Spawner for Threads {
    ghost faults = { λ _. 0 };

    fn faults(&self) -> u64 {
        0
    }

    fn may_start(&mut self) -> bool {
        true
    }
}

/// A spawner that refuses when it is told to, and else does as `Threads`.
#[derive(Clone, Copy, Debug, PartialEq, Eq)]
pub struct Refusing {
    refuses: bool,
    faults: u64,
}

impl Refusing {
    /// A spawner that always refuses, or never.
    pub fn new(refuses: bool) -> Refusing
        ensures { result ≡ record { refuses = refuses; faults = 0 } }
    {
        Refusing { refuses, faults: 0 }
    }
}

impl Spawner for Refusing {
    ghost faults = { λ s. s.faults };

    fn faults(&self) -> u64 {
        self.faults
    }

    fn may_start(&mut self) -> bool {
        if self.refuses {
            self.faults = self.faults.saturating_add(1);
        }
        !self.refuses
    }
}
