//! The calls of the lock, of a pass and of the value that is out.
ghost use Rattle.std.specs.Prelude.{◌≡◌, true, IfSome, IfNone, ◌+◌, ◌-◌, ◌/◌, ◌^◌, ◌<◌, ◌≤◌, ℕ, [], ◌∷◌, ◌++◌, length, IfOk, IfErr, MatchResult, Some, None};
ghost use Rattle.std.specs.Borrow.{sem};
ghost use Rattle.count_lock.specs.Lent.{LendsValue};
ghost use Rattle.count_lock.specs.Rule.{StartsWith, longer, of, is_in, Made, Turned};
ghost use Rattle.count_lock.specs.declared.view.Stage.TheVariants.{Idle, Turn};
ghost use Rattle.count_lock.specs.Passes.{constant, constant_of, words_of, seen, known, place, marked, mine, kin, family_of, number, first_spare, end_spare, IsSameSeat, IsPassOf, IsSamePass, IsResting, HasTurn, HasNoted, IsUnsplit, Accounts};

use crate::bell::Bells;
use crate::held::{Held, Noted};
use crate::kept::Kept;
use crate::lock::CountLock;
use crate::owner::Owner;
use crate::pass::{Pass, SplitRefused};
use crate::plays::{Both, Halves};
use crate::view::{Key, View};
use atomic_table::{Refused, Seat, Table};
use kj_base::NoMemory;
use std::alloc::Global;
use std::hint::spin_loop;
use std::sync::Wait;
use std::thread::yield_now;

// How often the holder of a ticket looks before it sleeps.
const SPIN: u32 = 128;
// How often a pass looks at the gate, and its longest pause between two looks.
const LOOKS: u32 = 12;

const SHORTEST: u32 = 16;

const LONGEST: u32 = 4096;
// How often it gives its processor away before it sleeps.
const YIELDS: u32 = 4;

impl<T: Kept> Pass<T> {
    /// The number that its entries bear.
    pub fn number(&self) -> u32
        ensures { result ≡ number self.now }
    {
        self.number
    }

    /// What it makes can be told from what any other pass makes.
    pub fn owner(&self) -> Owner
        ensures { (result.table_id ≡ self.now.seat.table_id) × (result.number ≡ number self.now) }
    {
        Owner::of(&self.seat, self.number as u64)
    }
}

impl<T> Held<T> {
    /// The value that is out.
    pub fn value(&self) -> &T
        ensures { result.now ≡ self.now.value }
    {
        &self.value
    }

    /// The value that is out, to be changed.
    pub fn value_mut(&mut self) -> &mut T
        ensures* writes_back { sem 𝓛 (LendsValue T.row self.entry result) }
        ensures value { result.now ≡ self.old.value }
    {
        &mut self.value
    }
}

impl<T: Kept> CountLock<T> {
    /// A lock with `words` words beside its own three, and its first pass.
    /// Where there is no memory, the value comes back as it was.
    pub fn new(
        alloc: Global,
        value: T,
        words: u32,
    ) -> Result<(CountLock<T>, Pass<T>), (NoMemory, T)>
        requires { T.entries value ≡ [] }
        ensures lock { IfOk result (λ r. (constant_of r.0 ≡ T.constant value)
            × (words_of r.0 ≡ words)) }
        ensures pass { IfOk result (λ r. IsPassOf r.0 r.1 × IsResting r.1 × (number r.1 ≡ 0)
            × (first_spare r.1 ≡ 1) × (end_spare r.1 ≡ 4294967296)) }
        ensures empty { IfOk result (λ r. (seen r.1 ≡ []) × (mine r.1 ≡ []) × (kin r.1 ≡ [])) }
        ensures err { IfErr result (λ e. e.1 ≡ value) }
    {
        let key = Key {
            constant: value.constant(),
            words: words as u64,
        };
        let Ok(mut slots) = Vec::with_capacity(alloc, 1) else {
            return Err((NoMemory, value));
        };
        let Ok(row) = Vec::from_elem(alloc, 0u64, words as usize + 3) else {
            slots.destroy_empty();
            return Err((NoMemory, value));
        };
        slots.push_reserved(Some(value));
        match Table::new(alloc, row.as_slice(), slots, &key) {
            Ok((table, seat)) => Ok((
                CountLock {
                    table,
                    bells: Bells::new(),
                },
                Pass {
                    number: 0,
                    from: 1,
                    until: 1 << 32,
                    seat,
                },
            )),
            Err(Refused { mut slots }) => {
                let back = slots.pop();
                slots.destroy_empty();
                match back {
                    Some(Some(value)) => Err((NoMemory, value)),
                    _ => unreachable!(),
                }
            }
        }
    }

    /// A pass with a number of its own, which has seen as much.
    pub fn split(&self, pass: &mut Pass<T>) -> Result<Pass<T>, SplitRefused>
        requires lock { IsPassOf self.now pass.old × IsResting pass.old }
        ensures lock { IsPassOf self.now pass.new × IsResting pass.new
            × (number pass.new ≡ number pass.old) }
        ensures same { (seen pass.new ≡ seen pass.old) × (mine pass.new ≡ mine pass.old)
            × (kin pass.new ≡ kin pass.old) }
        ensures ok { IfOk result (λ p. IsPassOf self.now p × IsResting p
            × (number p ≡ first_spare pass.old)) }
        ensures made { IfOk result (λ p. (seen p ≡ seen pass.old) × (mine p ≡ []) × (kin p ≡ [])) }
        ensures spare { IfOk result (λ p. (first_spare pass.new ≡ first_spare pass.old + 1)
            × (end_spare pass.new ≡ first_spare p) × (end_spare p ≡ end_spare pass.old)
            × (first_spare p + (end_spare pass.old - first_spare pass.old - 1) / 2
            ≡ end_spare pass.old)) }
        ensures accounts { IfOk result (λ p. Accounts T.by pass.new (seen pass.new)
            × Accounts T.by p (seen p)) }
        ensures err { IfErr result (λ _. (first_spare pass.old ≡ end_spare pass.old)
            × IsSamePass pass.old pass.new) }
    {
        if pass.from == pass.until {
            return Err(SplitRefused::Numbers);
        }
        let number = pass.from as u32;
        let until = pass.until;
        let from = until - (until - pass.from - 1) / 2;
        let seat = self.table.shared.split_seat::<Halves>(&mut pass.seat);
        pass.from += 1;
        pass.until = from;
        self.attest(&mut pass.seat);
        let mut made = Pass {
            number,
            from,
            until,
            seat,
        };
        self.attest(&mut made.seat);
        Ok(made)
    }

    /// The pass then has the longer of what both have seen. The other is among its kin: what it made is all that it ever makes.
    pub fn join(&self, into: &mut Pass<T>, from: Pass<T>)
        requires into { IsPassOf self.now into.old × IsResting into.old }
        requires from { IsPassOf self.now from × IsResting from }
        ensures pass { IsSamePass into.old into.new × IsResting into.new
            × (mine into.new ≡ mine into.old) }
        ensures seen { (seen into.new ≡ longer (seen into.old) (seen from))
            × StartsWith (seen into.new) (seen into.old) × StartsWith (seen into.new) (seen from) }
        ensures kin { kin into.new ≡ family_of from ++ kin into.old }
        ensures accounts { Accounts T.by into.new (seen into.new) }
    {
        let seat = from.into_seat();
        self.table.shared.join_seat::<Both>(&mut into.seat, seat);
        self.settle(&mut into.seat);
        self.attest(&mut into.seat);
    }

    // No ticket is drawn that isn't served. Anyone may look, and it tells nothing.
    fn is_free(&self) -> bool {
        self.table.shared.peek(0) == self.table.shared.peek(1)
    }

    // Looks whether the lock is free, with longer and longer pauses.
    fn comes_free(&self) -> bool {
        let mut pause: u32 = SHORTEST;
        for _ in 0..LOOKS {
            if self.is_free() {
                return true;
            }
            for _ in 0..pause {
                spin_loop();
            }
            if pause < LONGEST {
                pause *= 2;
            }
        }
        for _ in 0..YIELDS {
            if self.is_free() {
                return true;
            }
            yield_now();
        }
        false
    }

    // Waits without a ticket, so that nobody waits for a sleeper. A release rings for each that lay down at most once, so one that
    // finds the lock taken again lies down anew.
    fn wait_at_gate<R: Wait>(&self, rt: &R) {
        for _ in rt.forever() {
            if self.comes_free() {
                return;
            }
            let rung = self.bells.gate.rung();
            self.bells.gate.lie_down();
            if self.is_free() {
                return;
            }
            self.bells.gate.sleep(rt, rung);
        }
        unreachable!()
    }

    // Wakes the holder of the next ticket, or else one who has none.
    fn wake_next(&self, served: u64) {
        let next = served.wrapping_add(1);
        self.bells.of(next).ring_for_sleepers();
        if self.table.shared.peek(0) == next {
            self.bells.gate.ring_for_one();
        }
    }

    // Draws a ticket and waits until it is served. Then the value is out.
    fn turn<R: Wait>(&self, rt: &R, seat: &mut Seat<Option<T>, View<T::Entry>>)
        requires lock { seat.old.table_id ≡ self.now.table.shared.table_id }
        requires rests { (seat.old.me.0.stage ≡ Idle) × (seat.old.me.1 ≡ []) }
        ensures lock { IsSameSeat seat.old seat.new }
        ensures turn { Turned T.entries T.constant T.by seat.old.me seat.new.me }
    {
        self.wait_at_gate(rt);
        let ticket = self.draw(seat);
        let bell = self.bells.of(ticket);
        let mut looks: u32 = 0;
        for _ in rt.forever() {
            let rung = bell.rung();
            let serving = self.look(seat);
            if serving == ticket {
                if looks > SPIN {
                    bell.get_up();
                }
                return;
            }
            if looks < SPIN {
                looks += 1;
                spin_loop();
            } else if looks == SPIN {
                looks += 1;
                bell.lie_down();
            } else {
                bell.sleep(rt, rung);
            }
        }
        unreachable!()
    }

    /// Waits for its turn.
    pub fn acquire<R: Wait>(&self, rt: &R, pass: &mut Pass<T>) -> Held<T>
        requires lock { IsPassOf self.now pass.old }
        requires rests { IsResting pass.old }
        ensures pass { IsSamePass pass.old pass.new × HasTurn pass.new }
        ensures value { (T.entries result.value ≡ seen pass.new)
            × (T.constant result.value ≡ constant pass.new) }
        ensures seen { StartsWith (seen pass.new) (seen pass.old)
            × StartsWith (seen pass.new) (known pass.old) }
        ensures mine { (mine pass.new ≡ mine pass.old) × (kin pass.new ≡ kin pass.old) }
        ensures accounts { Accounts T.by pass.new (seen pass.new) }
        ensures unsplit { IsUnsplit pass.old → seen pass.new ≡ mine pass.new }
    {
        self.turn(rt, &mut pass.seat);
        Held {
            value: self.take(&mut pass.seat),
        }
    }

    /// The place of the entry that ended a word, where that was marked. It waits for nobody and takes no turn: where it finds none,
    /// no entry that the pass has seen ends the word.
    pub fn ended(&self, pass: &mut Pass<T>, word: u32) -> Option<u64>
        requires lock { IsPassOf self.now pass.old × IsResting pass.old }
        requires word { word < words_of self.now }
        ensures pass { IsSamePass pass.old pass.new × IsResting pass.new }
        ensures same { (seen pass.new ≡ seen pass.old) × (mine pass.new ≡ mine pass.old)
            × (kin pass.new ≡ kin pass.old) }
        ensures some { IfSome result (λ p. T.fin (constant pass.old) (known pass.new) word
            ≡ Some p) }
        ensures none { IfNone result ((known pass.new ≡ known pass.old)
            × (T.fin (constant pass.old) (seen pass.old) word ≡ None)) }
    {
        self.load(&mut pass.seat, word)
    }

    /// Waits for its turn, and ends the lock.
    pub fn close<R: Wait>(self, rt: &R, pass: Pass<T>) -> T
        requires { IsPassOf self pass × IsResting pass }
        ensures seen { StartsWith (T.entries result) (seen pass) }
        ensures mine { of T.by (number pass) (T.entries result) ≡ mine pass }
        ensures kin { Made T.by (T.entries result) (kin pass) }
        ensures constant { T.constant result ≡ constant pass }
    {
        let mut seat = pass.into_seat();
        self.turn(rt, &mut seat);
        self.lay_down(&mut seat);
        let CountLock { table, bells: _ } = self;
        let mut closed = table.close_with(seat);
        let back = closed.take(0);
        closed.free();
        match back {
            Some(value) => value,
            None => unreachable!(),
        }
    }
}

impl<T: Kept> Held<T> {
    /// The value stands for one entry more, which ends no word.
    pub fn release(self, lock: &CountLock<T>, pass: &mut Pass<T>, entry: T::Entry)
        requires lock { IsPassOf lock.now pass.old × HasTurn pass.old }
        requires entry { (T.entries self.value ≡ seen pass.old ++ entry ∷ [])
            × (T.by entry ≡ number pass.old) × (T.constant self.value ≡ constant pass.old) }
        requires plain { (k : ℕ)
            → T.fin (constant pass.old) (seen pass.old ++ entry ∷ []) k
            ≡ Some (length (seen pass.old)) → ⊥ }
        requires room { length (seen pass.old) + 1 < 2 ^ 64 }
        ensures pass { IsSamePass pass.old pass.new × IsResting pass.new }
        ensures seen { (seen pass.new ≡ seen pass.old ++ entry ∷ [])
            × (mine pass.new ≡ mine pass.old ++ entry ∷ []) }
        ensures kin { kin pass.new ≡ kin pass.old }
        ensures accounts { Accounts T.by pass.old (seen pass.old)
            → Accounts T.by pass.new (seen pass.new) }
    {
        let Held { value } = self;
        lock.put(&mut pass.seat, value);
        lock.note(&mut pass.seat);
        let served = lock.pass_on(&mut pass.seat);
        lock.wake_next(served);
    }

    /// Gives the value back as it was; the history stays.
    pub fn release_unchanged(self, lock: &CountLock<T>, pass: &mut Pass<T>)
        requires lock { IsPassOf lock.now pass.old × HasTurn pass.old }
        requires value { (T.entries self.value ≡ seen pass.old)
            × (T.constant self.value ≡ constant pass.old) }
        ensures pass { IsSamePass pass.old pass.new × IsResting pass.new }
        ensures seen { (seen pass.new ≡ seen pass.old) × (mine pass.new ≡ mine pass.old) }
        ensures kin { kin pass.new ≡ kin pass.old }
        ensures accounts { Accounts T.by pass.old (seen pass.old)
            → Accounts T.by pass.new (seen pass.new) }
    {
        let Held { value } = self;
        lock.put(&mut pass.seat, value);
        let served = lock.pass_on(&mut pass.seat);
        lock.wake_next(served);
    }

    /// The value stands for one entry more, which is the last of the history now. The pass keeps the turn.
    pub fn note(self, lock: &CountLock<T>, pass: &mut Pass<T>, entry: T::Entry) -> Noted<T>
        requires lock { IsPassOf lock.now pass.old × HasTurn pass.old }
        requires entry { (T.entries self.value ≡ seen pass.old ++ entry ∷ [])
            × (T.by entry ≡ number pass.old) × (T.constant self.value ≡ constant pass.old) }
        requires room { length (seen pass.old) + 1 < 2 ^ 64 }
        ensures pass { IsSamePass pass.old pass.new × HasNoted pass.new
            × (place pass.new ≡ length (seen pass.old)) × (marked pass.new ≡ []) }
        ensures value { result.value ≡ self.value }
        ensures seen { (seen pass.new ≡ seen pass.old ++ entry ∷ [])
            × (mine pass.new ≡ mine pass.old ++ entry ∷ []) }
        ensures kin { kin pass.new ≡ kin pass.old }
        ensures accounts { Accounts T.by pass.old (seen pass.old)
            → Accounts T.by pass.new (seen pass.new) }
    {
        let Held { value } = self;
        let seat = &mut pass.seat;
        lock.put(seat, value);
        lock.note(seat);
        Noted {
            value: lock.take(seat),
        }
    }
}

impl<T: Kept> Noted<T> {
    /// The value that is out, by which its words can be told.
    pub fn value(&self) -> &T
        ensures { result.now ≡ self.now.value }
    {
        &self.value
    }

    /// Marks a word as ended by the entry.
    pub fn mark(&self, lock: &CountLock<T>, pass: &mut Pass<T>, word: u32, at: u64)
        requires lock { IsPassOf lock.now pass.old × HasNoted pass.old }
        requires word { (word < words_of lock.now) × (at ≡ place pass.old) × (at + 1 < 2 ^ 64) }
        requires ends { T.fin (constant pass.old) (seen pass.old) word ≡ Some at }
        ensures pass { IsSamePass pass.old pass.new × HasNoted pass.new }
        ensures marked { (place pass.new ≡ place pass.old)
            × (marked pass.new ≡ word ∷ marked pass.old) }
        ensures same { (seen pass.new ≡ seen pass.old) × (mine pass.new ≡ mine pass.old)
            × (kin pass.new ≡ kin pass.old) }
    {
        lock.mark(&mut pass.seat, word, at);
    }

    /// Ends the turn, once each word is marked that the entry ends.
    pub fn release(self, lock: &CountLock<T>, pass: &mut Pass<T>)
        requires lock { IsPassOf lock.now pass.old × HasNoted pass.old }
        requires value { (T.entries self.value ≡ seen pass.old)
            × (T.constant self.value ≡ constant pass.old) }
        requires marked { (k : ℕ)
            → T.fin (constant pass.old) (seen pass.old) k ≡ Some (place pass.old)
            → is_in k (marked pass.old) ≡ true }
        ensures pass { IsSamePass pass.old pass.new × IsResting pass.new }
        ensures same { (seen pass.new ≡ seen pass.old) × (mine pass.new ≡ mine pass.old)
            × (kin pass.new ≡ kin pass.old) }
        ensures accounts { Accounts T.by pass.old (seen pass.old)
            → Accounts T.by pass.new (seen pass.new) }
    {
        let Noted { value } = self;
        lock.put(&mut pass.seat, value);
        let served = lock.pass_on(&mut pass.seat);
        lock.wake_next(served);
    }
}
