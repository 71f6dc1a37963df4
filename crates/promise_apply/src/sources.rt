//! The sources of a command, with their trees.
ghost use Rattle.std.specs.Prelude.{◌≡◌, ◌≤◌, ◌==◌, [], ℕ, None, Some, IfSome, is_some, length};
ghost use Rattle.std.specs.List.{list_any};
ghost use Rattle.kj_model.specs.World.{World, CellOf, HubOf, held_at};
ghost use Rattle.kj_model.specs.Nodes.{is_in};
ghost use Rattle.promise_commands.specs.Commands.{name_numbers};
ghost use Rattle.promise_nodes.specs.Shown.{link_number};
ghost use Rattle.promise_apply.specs.Joining.{AreSources, are_sources, source_names};
ghost use Rattle.promise_apply.specs.declared.sources.Source.{Source as Taken};

use arrayvec::ArrayVec;
use kj_base::{Link, Name, NodeId, Slot};
use promise_commands::MAX_PARTS;
use promise_names::{Held, Names};

/// A promise that a command takes, and its tree.
#[derive(Clone, Copy, Debug, PartialEq, Eq)]
pub struct Source {
    pub name: Name,
    pub root: Link,
}

/// What stands in the places of an array of sources that aren't used.
impl Default for Source {
    fn default() -> Source {
        Source {
            name: Name(0),
            root: Link {
                slot: Slot(0),
                number: NodeId(0),
            },
        }
    }
}

/// The tree that a name promises.
pub(crate) fn root_named<M: Names>(names: &M, source: Name) -> Option<Link>
    ensures { link_number result ≡ M.roots names.now source.0 }
{
    match names.get(source) {
        Some(Held::Promise(root)) => Some(root),
        _ => None,
    }
}

/// The cell of a fulfiller.
pub(crate) fn cell_named<M: Names>(names: &M, name: Name) -> Option<Link>
    ensures { (w : World) (cell : ℕ) → M.stands names.now w
        → held_at name.0 w.names ≡ Some (CellOf cell) → link_number result ≡ Some cell }
{
    match names.get(name) {
        Some(Held::CellOf(cell)) => Some(cell),
        _ => None,
    }
}

/// The hub that a name has.
pub(crate) fn hub_named<M: Names>(names: &M, name: Name) -> Option<Link>
    ensures { (w : World) (hub : ℕ) → M.stands names.now w
        → held_at name.0 w.names ≡ Some (HubOf hub) → link_number result ≡ Some hub }
{
    match names.get(name) {
        Some(Held::HubOf(hub)) => Some(hub),
        _ => None,
    }
}

fn some_named(sources: &[Source], name: Name) -> bool
    ensures { result ≡ list_any (λ (s : Taken). s.name.0 == name.0) sources.now }
{
    sources.iter().any(|source| source.name.0 == name.0)
}

fn is_among(sources: &[Source], name: Name) -> bool
    ensures { result ≡ is_in name.0 (source_names sources.now) }
{
    some_named(sources, name)
}

/// The promises with these names, and their trees; none where a name promises nothing or is named twice.
pub(crate) fn sources_named<M: Names>(
    names: &M,
    wanted: &[Name],
) -> Option<ArrayVec<Source, MAX_PARTS>>
    requires few { length wanted.now ≤ MAX_PARTS }
    ensures sources { IfSome result (λ found. AreSources (M.roots names.now) found.items) }
    ensures names { IfSome result (λ found. source_names found.items ≡ name_numbers wanted.now) }
    ensures found { is_some result ≡ are_sources (M.roots names.now) [] (name_numbers wanted.now) }
{
    let mut found = ArrayVec::new();
    for name in wanted {
        if is_among(found.as_slice(), *name) {
            return None;
        }
        let Some(root) = root_named(names, *name) else {
            return None;
        };
        found.push(Source { name: *name, root });
    }
    Some(found)
}
