//! The names of the roots that names promise.
ghost use Rattle.std.specs.Prelude.{◌≡◌, ◌<◌, ◌≤◌, ℕ, None, Some, true, IfSome, vec_len};
ghost use Rattle.promise_names.specs.Held.{root_of};
ghost use Rattle.name_tree.specs.Cuts.{root_cut};
ghost use Rattle.name_tree.specs.Maps.{IsMap, total_of};
ghost use Rattle.name_tree.specs.Trees.{value_at};
ghost use Rattle.name_tree.specs.Listed.{root_in, Knows};
ghost use Rattle.name_tree.specs.Roots.{KeepsOthers, KeepsAll, HasName, HasNoName};

use crate::map::KeyMap;
use kj_base::{Link, Name};
use promise_names::Held;

// The root of this promise no longer has this name.
pub(crate) fn forget(roots: &mut KeyMap<Name>, name: Name, held: Option<Held>)
    requires { IsMap roots.old }
    ensures map { IsMap roots.new }
    ensures cut { roots.new.cut ≡ roots.old.cut }
    ensures total { total_of roots.new ≡ total_of roots.old }
    ensures others { KeepsOthers name.0 roots.old.tree roots.new.tree }
    ensures none { (root : ℕ) → value_at root roots.old.tree ≡ None
        → value_at root roots.new.tree ≡ None }
    ensures room { vec_len roots.old.spare ≤ vec_len roots.new.spare }
    ensures gone { (root : ℕ) → root_of held ≡ Some root → value_at root roots.new.tree ≡ Some name
        → ⊥ }
{
    if let Some(Held::Promise(root)) = held {
        if roots.get(root.number.0) == Some(name) {
            roots.remove(root.number.0);
        }
    }
}

// The root of this promise has this name; no answer of true where it has another one, or no room.
pub(crate) fn learn(roots: &mut KeyMap<Name>, name: Name, held: Held) -> bool
    requires map { IsMap roots.old }
    requires cut { roots.old.cut ≡ root_cut }
    ensures map { IsMap roots.new }
    ensures cut { roots.new.cut ≡ roots.old.cut }
    ensures total { total_of roots.new ≡ total_of roots.old }
    ensures others { KeepsAll roots.old.tree roots.new.tree }
    ensures learnt { result ≡ true → HasName name.0 (root_of (Some held)) roots.new.tree }
    ensures sure { HasNoName (root_of (Some held)) roots.old.tree → 0 < vec_len roots.old.spare
        → result ≡ true }
{
    match held {
        Held::Promise(root) => learn_root(roots, name, root),
        _ => true,
    }
}

// The same for a root.
fn learn_root(roots: &mut KeyMap<Name>, name: Name, root: Link) -> bool
    requires map { IsMap roots.old }
    requires cut { roots.old.cut ≡ root_cut }
    ensures map { IsMap roots.new }
    ensures cut { roots.new.cut ≡ roots.old.cut }
    ensures total { total_of roots.new ≡ total_of roots.old }
    ensures others { KeepsAll roots.old.tree roots.new.tree }
    ensures learnt { result ≡ true → HasName name.0 (Some root.number.0) roots.new.tree }
    ensures sure { HasNoName (Some root.number.0) roots.old.tree → 0 < vec_len roots.old.spare
        → result ≡ true }
{
    match roots.get(root.number.0) {
        Some(other) => other.0 == name.0,
        None => {
            let has_room = roots.has_room();
            if has_room {
                roots.put(root.number.0, name);
            }
            has_room
        }
    }
}

// Whether it promises this root.
fn promises(held: Option<Held>, root: Link) -> bool
    ensures root { result ≡ true → root_of held ≡ Some root.number.0 }
    ensures all { root_of held ≡ Some root.number.0 → result ≡ true }
{
    match held {
        Some(Held::Promise(other)) => other.number.0 == root.number.0,
        _ => false,
    }
}

// The name that promises this root.
pub(crate) fn name_of(names: &KeyMap<Held>, roots: &KeyMap<Name>, root: Link) -> Option<Name>
    requires names { IsMap names.now }
    requires roots { IsMap roots.now }
    ensures found { IfSome result (λ name. root_in name.0 names.now.tree ≡ Some root.number.0) }
    ensures none { result ≡ None → Knows names.now.tree roots.now.tree → (n : ℕ)
        → root_in n names.now.tree ≡ Some root.number.0 → ⊥ }
{
    match roots.get(root.number.0) {
        Some(name) if promises(names.get(name.0 as u64), root) => Some(name),
        _ => None,
    }
}
