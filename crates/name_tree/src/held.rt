//! What names hold, in trees.
ghost use Rattle.std.specs.Prelude.{◌≡◌, ℕ};
ghost use Rattle.name_tree.specs.Trees.{count_of, IsSplit};
ghost use Rattle.name_tree.specs.Listed.{IsRenamed};

use crate::tree::Tree;
use kj_base::Link;
use name_table::held_after;
use promise_names::Held;

// A tree is replaced by another under each name.
pub(crate) fn replace_all(tree: &mut Tree<Held>, old: Link, new: Link)
    ensures renamed { IsRenamed old.number.0 new tree.old tree.new }
    ensures count { count_of tree.new ≡ count_of tree.old }
    ensures split { (at step : ℕ) → IsSplit at step tree.old → IsSplit at step tree.new }
{
    if let Tree::Fork(node) = tree {
        node.value = held_after(node.value, old, new);
        replace_all(&mut node.low, old, new);
        replace_all(&mut node.high, old, new);
    }
}
