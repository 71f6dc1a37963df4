//! How an executor begins and ends, and how its passes are split and joined.
ghost use Rattle.std.specs.Prelude.{◌≡◌, ◌+◌, ◌-◌, ◌/◌, ◌≤◌, [], ◌++◌, true, IfOk, IfErr};
ghost use Rattle.count_lock.specs.Passes.{constant, seen, mine, kin, family_of, number, first_spare, end_spare, IsSamePass, IsUnsplit, Accounts};
ghost use Rattle.count_lock.specs.Rule.{StartsWith, longer, of, Made};
ghost use Rattle.executor_core.specs.Histories.{Legal, board_of, AllSpent, Settled};
ghost use Rattle.xthread.specs.Told.{caller_of, IsReady};

use crate::boxed::Boxed;
use crate::executor::{Executor, ExecutorPass, MAX_REQUESTS};
use count_lock::{CountLock, SplitRefused};
use executor_core::Entries;
use kj_base::{NoMemory, Sent};
use std::alloc::Global;
use std::sync::Wait;

impl<P: Sent + Drop, R: Send + Drop> Executor<P, R> {
    /// An executor that takes up to `requests` requests in all, and the target's pass. It makes the room for all that may
    /// follow: six entries for each request, and one more, and for each a word that tells of its end.
    pub fn new(
        alloc: Global,
        requests: u32,
    ) -> Result<(Executor<P, R>, ExecutorPass<P, R>), NoMemory>
        requires { (1 ≤ requests) × (requests ≤ MAX_REQUESTS) }
        ensures ready { IfOk result (λ r. IsReady r.0.lock r.1) }
        ensures target { IfOk result (λ r. (constant r.1 ≡ requests) × (number r.1 ≡ 0)
            × IsUnsplit r.1) }
        ensures empty { IfOk result (λ r. (seen r.1 ≡ []) × (mine r.1 ≡ []) × (kin r.1 ≡ [])) }
    {
        let boxed = Boxed::new(alloc, requests)?;
        match CountLock::new(alloc, boxed, requests) {
            Ok((lock, pass)) => Ok((Executor { lock }, pass)),
            Err((error, _boxed)) => Err(error),
        }
    }

    /// A pass with a number of its own, which has seen as much.
    pub fn split(&self, pass: &mut ExecutorPass<P, R>) -> Result<ExecutorPass<P, R>, SplitRefused>
        requires { IsReady self.now.lock pass.old }
        ensures ready { IsReady self.now.lock pass.new × (number pass.new ≡ number pass.old) }
        ensures same { (seen pass.new ≡ seen pass.old) × (mine pass.new ≡ mine pass.old)
            × (kin pass.new ≡ kin pass.old) }
        ensures ok { IfOk result (λ p. IsReady self.now.lock p
            × (number p ≡ first_spare pass.old)) }
        ensures made { IfOk result (λ p. (seen p ≡ seen pass.old) × (mine p ≡ []) × (kin p ≡ [])) }
        ensures spare { IfOk result (λ p. (first_spare pass.new ≡ first_spare pass.old + 1)
            × (end_spare pass.new ≡ first_spare p) × (end_spare p ≡ end_spare pass.old)
            × (first_spare p + (end_spare pass.old - first_spare pass.old - 1) / 2
            ≡ end_spare pass.old)) }
        ensures accounts { IfOk result (λ p. Accounts caller_of pass.new (seen pass.new)
            × Accounts caller_of p (seen p)) }
        ensures err { IfErr result (λ _. (first_spare pass.old ≡ end_spare pass.old)
            × IsSamePass pass.old pass.new) }
    {
        self.lock.split(pass)
    }

    /// The pass then has the longer of what both have seen. All that the other submitted has to be withdrawn or collected. What the
    /// other made is all that ever has its number.
    pub fn join(&self, into: &mut ExecutorPass<P, R>, from: ExecutorPass<P, R>)
        requires into { IsReady self.now.lock into.old }
        requires from { IsReady self.now.lock from }
        requires spent { AllSpent (mine from) }
        ensures ready { IsReady self.now.lock into.new }
        ensures same { IsSamePass into.old into.new × (mine into.new ≡ mine into.old) }
        ensures kin { kin into.new ≡ family_of from ++ kin into.old }
        ensures seen { (seen into.new ≡ longer (seen into.old) (seen from))
            × StartsWith (seen into.new) (seen into.old) × StartsWith (seen into.new) (seen from) }
        ensures accounts { Accounts caller_of into.new (seen into.new) }
    {
        self.lock.join(into, from);
    }

    /// Waits for its turn, ends the executor and gives its whole history: the pass's own entries, and those of each pass that was
    /// joined into it, are in it once.
    pub fn history<W: Wait>(self, rt: &W, pass: ExecutorPass<P, R>) -> Entries
        requires { IsReady self.lock pass }
        ensures seen { StartsWith result (seen pass) }
        ensures mine { of caller_of (number pass) result ≡ mine pass }
        ensures kin { Made caller_of result (kin pass) }
        ensures legal { Legal (constant pass) result }
        ensures settled { (board_of (constant pass) result).closed ≡ true
            → Settled (constant pass) result }
    {
        let Executor { lock } = self;
        lock.close(rt, pass).into_entries()
    }
}
