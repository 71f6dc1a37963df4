//! Stacks that have room.
ghost use Rattle.std.specs.Prelude.{◌≡◌, ◌<◌, ◌≤◌, ◌+◌, ◌++◌, [], ◌∷◌, nat_le, vec_len, vec_capacity};

/// Whether a stack of this height has used up the depth that the definitions give to trees.
pub(crate) fn is_deep(slots: u32, height: usize) -> bool
    ensures { result ≡ nat_le (slots + 1) height }
{
    height > slots as usize
}

/// One more item at the end, for which there is room.
pub(crate) fn put_last<T: Drop>(items: &mut Vec<T>, item: T)
    requires { vec_len items.old < vec_capacity items.old }
    ensures items { items.new.items ≡ items.old.items ++ item ∷ [] }
    ensures len { vec_len items.new ≡ vec_len items.old + 1 }
    ensures capacity { vec_capacity items.old ≤ vec_capacity items.new }
{
    let _ = items.push(item);
}
