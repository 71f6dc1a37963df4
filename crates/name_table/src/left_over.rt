//! The trees that are left over, in order.
ghost use Rattle.std.specs.Prelude.{◌≡◌, ◌<◌, ◌≤◌, ◌++◌, ◌∷◌, [], IfOk, slice_get, vec_len, vec_capacity, filter, not, ◌==◌};
ghost use Rattle.name_table.specs.Table.{is_other};

use kj_base::Link;

/// A tree, before the others. There is room, so this takes no memory.
pub fn push_front(trees: &mut Vec<Link>, tree: Link)
    requires { vec_len trees.old < vec_capacity trees.old }
    ensures items { trees.new.items ≡ tree ∷ trees.old.items }
    ensures capacity { vec_capacity trees.old ≤ vec_capacity trees.new }
{
    let _ = trees.insert(0, tree);
}

/// The same behind the others.
pub fn push_back(trees: &mut Vec<Link>, tree: Link)
    requires { vec_len trees.old < vec_capacity trees.old }
    ensures items { trees.new.items ≡ trees.old.items ++ tree ∷ [] }
    ensures capacity { vec_capacity trees.old ≤ vec_capacity trees.new }
{
    let _ = trees.push(tree);
}

/// A tree goes.
pub fn drop_tree(trees: &mut Vec<Link>, tree: Link)
    ensures items { trees.new.items ≡ filter (is_other tree.number.0) trees.old.items }
    ensures capacity { vec_capacity trees.new ≡ vec_capacity trees.old }
{
    trees.retain(
        |other| -> bool
            ensures { result ≡ is_other tree.number.0 other.now }
        { other.number.0 != tree.number.0 },
    );
}
