//! The tree of names.
ghost use Rattle.std.specs.Prelude.{◌≡◌, ℕ, [], None, IfOk};
ghost use Rattle.kj_base.specs.declared.numbers.Limits.{Limits};
ghost use Rattle.kj_model.specs.World.{new_world};
ghost use Rattle.name_table.specs.Table.{Stands, count_of, root_at};

use crate::changes;
use crate::cut::Cut;
use crate::map::KeyMap;
use kj_base::{Limits, Link, Name, NoMemory};
use name_table::{awaited_after, left_over};
use promise_names::{Awaited, Held, Leaving, Names};
use std::alloc::Global;
use std::marker::Model;

/// How many trees may be left over.
const LEFT_OVER: usize = 2;

/// Names are numbers of 32 bits, which lie below or from the middle of these.
const NAME_CUT: Cut = Cut {
    at: 0x8000_0000,
    step: 0x4000_0000,
};

/// The numbers of trees have 64 bits.
const ROOT_CUT: Cut = Cut {
    at: 0x8000_0000_0000_0000,
    step: 0x4000_0000_0000_0000,
};

/// What each name holds, in a search tree; and the name of each root that a name promises, in another. No call looks at more
/// nodes than names or numbers have bits, but a `rename` in a loop where two names have promised one tree.
#[derive(Drop)]
pub struct NameTree {
    names: KeyMap<Held>,
    roots: KeyMap<Name>,
    pub(crate) is_known: bool,
    limit: u32,
    awaited: Option<Awaited>,
    over: Vec<Link>,
    stopped: bool,
}

impl Model for NameTree {
    ghost use Rattle.name_table.specs.Table.{Table};

    ghost Value = { Table };

    ghost use Rattle.name_tree.specs.Kept.{view_of, IsKept};

    ghost view = { view_of };

    ghost invariant = { IsKept };
}

impl NameTree {
    /// No names, in a loop with these limits. This takes all memory.
    pub fn new(alloc: Global, limits: Limits) -> Result<NameTree, NoMemory>
        ensures stands { IfOk result
            (λ names. (all : Limits) → all.names ≡ limits.names → Stands names (new_world all)) }
        ensures no_names { IfOk result (λ names. count_of names ≡ 0) }
        ensures no_promises { IfOk result (λ names. (name : ℕ) → root_at names name ≡ None) }
        ensures limit { IfOk result (λ names. names.limit ≡ limits.names) }
        ensures none_over { IfOk result (λ names. names.over ≡ []) }
    {
        let most = u64::from(limits.names) + 1;
        Ok(NameTree {
            names: KeyMap::new(alloc, most, Held::Canceler, NAME_CUT)?,
            roots: KeyMap::new(alloc, most, Name(0), ROOT_CUT)?,
            is_known: true,
            limit: limits.names,
            awaited: None,
            over: Vec::with_capacity(alloc, LEFT_OVER)?,
            stopped: false,
        })
    }
}

impl Names for NameTree {
    ghost use Rattle.std.specs.Prelude.{◌+◌};
    ghost use Rattle.name_table.specs.Table.{Stands, count_of, root_at, trees};

    ghost stands = { Stands };

    ghost roots = { root_at };

    ghost count = { count_of };

    ghost limit = { λ t. t.limit + 1 };

    ghost over = { λ t. trees t.over };

    fn get(&self, name: Name) -> Option<Held> {
        self.names.get(name.0 as u64)
    }

    fn len(&self) -> u64 {
        u64::from(self.limit) + 1 - self.names.spare.len() as u64
    }

    fn limit(&self) -> u32 {
        self.limit
    }

    fn first(&self) -> Option<Name> {
        match self.names.lowest() {
            Some(key) => Some(Name(key as u32)),
            None => None,
        }
    }

    fn set(&mut self, name: Name, held: Held) {
        let (names, roots) = (&mut self.names, &mut self.roots);
        self.is_known = changes::put(names, roots, self.is_known, name, held);
    }

    fn remove(&mut self, name: Name) {
        changes::remove(&mut self.names, &mut self.roots, name);
    }

    fn regroup(&mut self, group: Name, tasks: u64, empty: Option<Link>) {
        changes::regroup(&mut self.names, group, tasks, empty);
    }

    fn rename(&mut self, old: Link, new: Link) {
        let (names, roots) = (&mut self.names, &mut self.roots);
        self.is_known = changes::rename(names, roots, self.is_known, old, new);
        self.awaited = awaited_after(self.awaited, old, new);
    }

    // No name has an ask, and no canceler a Wrap.
    fn left(&mut self, _node: Link, _leaving: Leaving) {}

    fn is_stopped(&self) -> bool {
        self.stopped
    }

    fn stop(&mut self) {
        self.stopped = true;
    }

    fn awaited(&self) -> Option<Awaited> {
        self.awaited
    }

    fn hold(&mut self, name: Name, root: Link) {
        self.awaited = Some(Awaited { name, root });
    }

    fn let_go(&mut self) {
        self.awaited = None;
    }

    fn left_over(&self, place: usize) -> Option<Link> {
        self.over.get(place).copied()
    }

    fn leave_over(&mut self, tree: Link) {
        left_over::push_back(&mut self.over, tree);
    }

    fn lose(&mut self, tree: Link) {
        left_over::push_front(&mut self.over, tree);
    }

    fn take_over(&mut self, tree: Link) {
        left_over::drop_tree(&mut self.over, tree);
    }

    ghost use Rattle.name_table.specs.Laws.{table_nodes_free, table_over_is, table_no_wraps, table_no_requests, table_none_listed, table_once, table_rising, table_limit_is, table_roots_are};

    ghost nodes_free = { table_nodes_free };

    ghost over_is = { table_over_is };

    ghost no_requests = { table_no_requests };

    ghost none_listed = { table_none_listed };

    ghost no_wraps = { table_no_wraps };

    ghost rising = { table_rising };

    ghost once = { table_once };

    ghost limit_is = { table_limit_is };

    ghost roots_are = { table_roots_are };
}
