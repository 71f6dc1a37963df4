//! Names that come and go, and promises that have another tree, beside the names of roots.
ghost use Rattle.std.specs.Prelude.{◌≡◌, ◌+◌, ◌<◌, ◌≤◌, ℕ, None, Some, IsSome, true, vec_len};
ghost use Rattle.promise_names.specs.Held.{AreApart, root_of};
ghost use Rattle.name_tree.specs.Cuts.{name_cut, root_cut};
ghost use Rattle.name_tree.specs.Maps.{IsMap, total_of};
ghost use Rattle.name_tree.specs.Trees.{value_at, count_of, IsSetAt};
ghost use Rattle.name_tree.specs.Roots.{HasNoName};
ghost use Rattle.name_tree.specs.Listed.{root_in, held_told, Knows, IsRenamed};

use crate::held::replace_all;
use crate::map::KeyMap;
use crate::roots::{forget, learn, name_of};
use kj_base::{Link, Name};
use name_table::held_with_tasks;
use promise_names::Held;

// A name holds this now. Answers whether each root is known.
pub(crate) fn put(
    names: &mut KeyMap<Held>,
    roots: &mut KeyMap<Name>,
    is_known: bool,
    name: Name,
    held: Held,
) -> bool
    requires names { IsMap names.old }
    requires names_cut { names.old.cut ≡ name_cut }
    requires room { 0 < vec_len names.old.spare }
    requires roots { IsMap roots.old }
    requires roots_cut { roots.old.cut ≡ root_cut }
    requires known { is_known ≡ true → Knows names.old.tree roots.old.tree }
    ensures set { IsSetAt name.0 (Some held) names.old.tree names.new.tree }
    ensures names { IsMap names.new }
    ensures cut { names.new.cut ≡ names.old.cut }
    ensures total { total_of names.new ≡ total_of names.old }
    ensures few { count_of names.new.tree ≤ count_of names.old.tree + 1 }
    ensures roots { IsMap roots.new }
    ensures roots_cut { roots.new.cut ≡ roots.old.cut }
    ensures roots_total { total_of roots.new ≡ total_of roots.old }
    ensures known { result ≡ true → Knows names.new.tree roots.new.tree }
    ensures stays { is_known ≡ true → HasNoName (root_of (Some held)) roots.old.tree
        → 0 < vec_len roots.old.spare → result ≡ true }
{
    forget(roots, name, names.get(name.0 as u64));
    names.put(name.0 as u64, held);
    learn(roots, name, held) && is_known
}

// A name goes.
pub(crate) fn remove(names: &mut KeyMap<Held>, roots: &mut KeyMap<Name>, name: Name)
    requires names { IsMap names.old }
    requires names_cut { names.old.cut ≡ name_cut }
    requires roots { IsMap roots.old }
    requires roots_cut { roots.old.cut ≡ root_cut }
    ensures set { IsSetAt name.0 None names.old.tree names.new.tree }
    ensures names { IsMap names.new }
    ensures cut { names.new.cut ≡ names.old.cut }
    ensures total { total_of names.new ≡ total_of names.old }
    ensures gone { IsSome (value_at name.0 names.old.tree)
        → count_of names.new.tree + 1 ≡ count_of names.old.tree }
    ensures few { count_of names.new.tree ≤ count_of names.old.tree }
    ensures roots { IsMap roots.new }
    ensures roots_cut { roots.new.cut ≡ roots.old.cut }
    ensures roots_total { total_of roots.new ≡ total_of roots.old }
    ensures known { Knows names.old.tree roots.old.tree → Knows names.new.tree roots.new.tree }
{
    forget(roots, name, names.get(name.0 as u64));
    names.remove(name.0 as u64);
}

// A set has so many tasks now, and this cell waits until it is empty.
pub(crate) fn regroup(names: &mut KeyMap<Held>, group: Name, tasks: u64, empty: Option<Link>)
    requires { IsMap names.old }
    ensures set { IsSetAt group.0 (held_told tasks empty (value_at group.0 names.old.tree))
        names.old.tree names.new.tree }
    ensures names { IsMap names.new }
    ensures cut { names.new.cut ≡ names.old.cut }
    ensures total { total_of names.new ≡ total_of names.old }
    ensures count { count_of names.new.tree ≡ count_of names.old.tree }
{
    if let Some(held) = names.get(group.0 as u64) {
        names.replace(group.0 as u64, held_with_tasks(held, tasks, empty));
    }
}

// The promise of this name has another tree. Answers whether its root is known.
fn give(
    names: &mut KeyMap<Held>,
    roots: &mut KeyMap<Name>,
    name: Name,
    old: Link,
    new: Link,
) -> bool
    requires names { IsMap names.old }
    requires names_cut { names.old.cut ≡ name_cut }
    requires roots { IsMap roots.old }
    requires roots_cut { roots.old.cut ≡ root_cut }
    requires apart { AreApart (λ n. root_in n names.old.tree) }
    requires has { root_in name.0 names.old.tree ≡ Some old.number.0 }
    ensures renamed { IsRenamed old.number.0 new names.old.tree names.new.tree }
    ensures names { IsMap names.new }
    ensures cut { names.new.cut ≡ names.old.cut }
    ensures total { total_of names.new ≡ total_of names.old }
    ensures count { count_of names.new.tree ≡ count_of names.old.tree }
    ensures roots { IsMap roots.new }
    ensures roots_cut { roots.new.cut ≡ roots.old.cut }
    ensures roots_total { total_of roots.new ≡ total_of roots.old }
    ensures known { result ≡ true → Knows names.old.tree roots.old.tree
        → Knows names.new.tree roots.new.tree }
    ensures stays { HasNoName (Some new.number.0) roots.old.tree → 0 < vec_len roots.old.spare
        → result ≡ true }
{
    forget(roots, name, Some(Held::Promise(old)));
    names.replace(name.0 as u64, Held::Promise(new));
    learn(roots, name, Held::Promise(new))
}

// The promise of a tree, where a name has it, has another tree. Answers whether each root is known. While they are, no name
// is looked at that hasn't the tree; they are in each loop, where no two names promise one tree.
pub(crate) fn rename(
    names: &mut KeyMap<Held>,
    roots: &mut KeyMap<Name>,
    is_known: bool,
    old: Link,
    new: Link,
) -> bool
    requires names { IsMap names.old }
    requires names_cut { names.old.cut ≡ name_cut }
    requires roots { IsMap roots.old }
    requires roots_cut { roots.old.cut ≡ root_cut }
    requires known { is_known ≡ true → Knows names.old.tree roots.old.tree }
    requires apart { AreApart (λ n. root_in n names.old.tree) }
    ensures renamed { IsRenamed old.number.0 new names.old.tree names.new.tree }
    ensures names { IsMap names.new }
    ensures cut { names.new.cut ≡ names.old.cut }
    ensures total { total_of names.new ≡ total_of names.old }
    ensures count { count_of names.new.tree ≡ count_of names.old.tree }
    ensures roots { IsMap roots.new }
    ensures roots_cut { roots.new.cut ≡ roots.old.cut }
    ensures roots_total { total_of roots.new ≡ total_of roots.old }
    ensures known { result ≡ true → Knows names.new.tree roots.new.tree }
    ensures stays { is_known ≡ true → HasNoName (Some new.number.0) roots.old.tree
        → 0 < vec_len roots.old.spare → result ≡ true }
{
    match name_of(names, roots, old) {
        Some(name) => give(names, roots, name, old, new) && is_known,
        None => {
            if !is_known {
                replace_all(&mut names.tree, old, new);
            }
            is_known
        }
    }
}
