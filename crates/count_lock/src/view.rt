//! What a seat knows, and the rule. No value of a view is made.
use crate::kept::Kept;
use atomic_table::TableRule;
use std::collections::LinkedList;
use std::marker::PhantomData;

/// Where the pass stands between two calls of the lock and within one.
pub enum Stage {
    /// It holds no ticket.
    Idle,
    /// It holds a ticket that is not served yet.
    Waiting,
    /// Its ticket is served, and the value is out.
    Turn,
    /// Its ticket is served, the value is out, and its entry is in the history.
    Noted,
    /// Its ticket stays served for ever, and the value is at home.
    Last,
    /// It was joined into another.
    Spent,
}

/// A pass that was joined: its number, and the entries that it made.
pub struct Kin<E> {
    pub number: u64,
    pub mine: LinkedList<E>,
}

/// The spare numbers are those from `from` to below `until`. `at` is the ticket, counted without end.
/// `told` is what a joined pass had seen, and `guests` are that pass and its own kin, until the pass has looked at the lock
/// again: then they are among its `kin`. `known` is a beginning of the history in which the ends stand that were loaded. While the
/// pass has noted an entry, `place` is that entry's, and `marked` are the words that it has marked as ended there.
pub struct View<E> {
    pub stage: Stage,
    pub at: u64,
    pub number: u64,
    pub from: u64,
    pub until: u64,
    pub seen: LinkedList<E>,
    pub mine: LinkedList<E>,
    pub kin: LinkedList<Kin<E>>,
    pub told: LinkedList<E>,
    pub guests: LinkedList<Kin<E>>,
    pub known: LinkedList<E>,
    pub place: u64,
    pub marked: LinkedList<u64>,
    pub constant: u64,
}

/// What is fixed when a lock is made: the constant of its value, and how many words follow the first three.
#[derive(Drop)]
pub struct Key {
    pub constant: u64,
    pub words: u64,
}

/// The rule of the lock's table.
pub struct Rule<T> {
    marker: PhantomData<T>,
}

impl<T: Kept> TableRule<Option<T>, View<T::Entry>, Key> for Rule<T> {
    ghost use Rattle.count_lock.specs.Rule.{Ticketed, first_view};

    ghost holds = { λ key. Ticketed T.entries T.constant T.by T.fin key.words };

    ghost first = { λ key. first_view key.constant };
}
