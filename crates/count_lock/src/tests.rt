//! A list of marks under the lock.
ghost use Rattle.std.specs.Prelude.{◌≡◌, ◌+◌, ◌^◌, ◌<◌, [], ◌∷◌, ◌++◌, length, true, false, None, vec_capacity, IfOk};
ghost use Rattle.std.proofs.Common.{rules, inl};
ghost use Rattle.count_lock.specs.Passes.{constant, seen, mine, number, IsPassOf, IsResting, IsSamePass};
ghost use Rattle.count_lock.specs.Rule.{StartsWith};

use crate::{CountLock, Kept, Pass, SplitRefused};
use std::alloc::{AllocError, Global};
use std::sync::Wait;
use std::test::Fail;
use std::thread::{Threads, join};

#[derive(Clone, Copy, Drop)]
struct Mark {
    by: u32,
    value: u64,
}

#[derive(Drop)]
struct Marks {
    log: Vec<Mark>,
}

impl Kept for Marks {
    type Entry = Mark;

    ghost entries = { λ t. t.log.items };

    ghost by = { λ e. e.by };

    ghost constant = { λ t. 7 };

    // No mark ends a word.
    ghost fin = { λ c es k. None };

    ghost fin_laws = { record {
      stays = λ c es more k p h. h;
      within = λ c es k p h. Prim.search
          rules;
      fresh = λ c es e k p h. inl h;
    } };

    fn constant(&self) -> u64 {
        7
    }
}

impl Marks {
    fn with_room(alloc: Global, count: usize) -> Result<Marks, AllocError>
        ensures { IfOk result (λ t. t.log.items ≡ []) }
    {
        Ok(Marks {
            log: Vec::with_capacity(alloc, count)?,
        })
    }

    fn is_full(&self) -> bool
        ensures { result ≡ false → (length self.now.log.items < vec_capacity self.now.log)
            × (length self.now.log.items + 1 < 2 ^ 64) }
    {
        self.log.len() >= self.log.capacity()
    }

    fn add(&mut self, mark: Mark)
        requires { length self.old.log.items < vec_capacity self.old.log }
        ensures { self.new.log.items ≡ self.old.log.items ++ mark ∷ [] }
    {
        self.log.push_reserved(mark);
    }
}

// Writes one mark, where there is room.
fn write<R: Wait>(rt: &R, lock: &CountLock<Marks>, pass: &mut Pass<Marks>, value: u64) -> bool
    requires lock { IsPassOf lock.now pass.old × IsResting pass.old }
    ensures pass { IsSamePass pass.old pass.new × IsResting pass.new }
    ensures seen { StartsWith (seen pass.new) (seen pass.old) }
    ensures written { result ≡ true
        → mine pass.new ≡ mine pass.old ++ record { by = number pass.old; value = value } ∷ [] }
    ensures full { result ≡ false → mine pass.new ≡ mine pass.old }
{
    let mut held = lock.acquire(rt, pass);
    if held.value().is_full() {
        held.release_unchanged(lock, pass);
        return false;
    }
    let mark = Mark {
        by: pass.number(),
        value,
    };
    held.value_mut().add(mark);
    held.release(lock, pass, mark);
    true
}

fn many<R: Wait>(rt: &R, lock: &CountLock<Marks>, mut pass: Pass<Marks>) -> Pass<Marks>
    requires { IsPassOf lock.now pass × IsResting pass }
    ensures { IsPassOf lock.now result × IsResting result }
{
    for i in 0..500 {
        write(rt, lock, &mut pass, i);
    }
    pass
}

fn two<R: Wait + Threads + Sync>(
    rt: &R,
    lock: &CountLock<Marks>,
    one: Pass<Marks>,
    two: Pass<Marks>,
) -> (Pass<Marks>, Pass<Marks>)
    requires one { IsPassOf lock.now one × IsResting one }
    requires two { IsPassOf lock.now two × IsResting two }
    ensures one { IsPassOf lock.now result.0 × IsResting result.0 }
    ensures two { IsPassOf lock.now result.1 × IsResting result.1 }
{
    join(
        rt,
        move || -> Pass<Marks>
            requires { IsPassOf lock.now one × IsResting one }
            ensures { IsPassOf lock.entry.now result × IsResting result }
        { many(rt, lock, one) },
        move || -> Pass<Marks>
            requires { IsPassOf lock.now two × IsResting two }
            ensures { IsPassOf lock.entry.now result × IsResting result }
        { many(rt, lock, two) },
    )
}

#[test]
fn two_threads_write_all(rt: HostRuntime) -> Result<(), Fail> {
    let alloc = rt.alloc();
    let marks = Marks::with_room(alloc, 1000)?;
    let Ok((lock, mut first)) = CountLock::new(alloc, marks, 3) else {
        return Err(Fail::new("refused"));
    };
    let Ok(second) = lock.split(&mut first) else {
        return Err(Fail::new("refused"));
    };
    assert!(rt; second.number() == 1);
    let (mut first, second) = two(&rt, &lock, first, second);
    assert!(rt; !write(&rt, &lock, &mut first, 0));
    assert!(rt; lock.ended(&mut first, 2).is_none());
    lock.join(&mut first, second);
    let marks = lock.close(&rt, first);
    let mine = marks.log.iter().filter(|mark| mark.by == 0).count();
    assert!(rt; marks.log.len() == 1000 && mine == 500);
    Ok(())
}

// The least spare number is given, and half of the others go with it, so that a chain of 32 splits ends with none.
#[test]
fn numbers_run_out(rt: HostRuntime) -> Result<(), Fail> {
    let alloc = rt.alloc();
    let marks = Marks::with_room(alloc, 1)?;
    let Ok((lock, mut pass)) = CountLock::new(alloc, marks, 0) else {
        return Err(Fail::new("refused"));
    };
    let mut splits = 0;
    for i in 0..40u32 {
        match lock.split(&mut pass) {
            Ok(next) => pass = next,
            Err(SplitRefused::Numbers) => break,
        }
        splits = i + 1;
    }
    assert!(rt; splits == 32 && pass.number() == u32::MAX);
    let marks = lock.close(&rt, pass);
    assert!(rt; marks.log.is_empty());
    Ok(())
}
