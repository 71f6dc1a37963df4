//! Rings through slots.
ghost use Rattle.std.specs.Prelude.{◌≡◌, ◌≢◌, ◌<◌, ◌≤◌, ◌+◌, ℕ, length};
ghost use Rattle.promise_graph.specs.Rings.{ArePaired, IsCut, IsJoined, MayBeListed, next_at, prev_at};

use crate::fields::Rings;

// A slot leaves its ring: the one before it and the one behind it are neighbours now.
pub(crate) fn cut(rings: &mut Rings, slot: u32)
    requires paired { ArePaired rings.old (length rings.old.nexts.items) }
    requires within { slot < length rings.old.nexts.items }
    ensures { IsCut rings.old rings.new slot }
{
    let behind = rings.nexts[slot as usize];
    let before = rings.prevs[slot as usize];
    rings.nexts[before as usize] = behind;
    rings.prevs[behind as usize] = before;
    rings.nexts[slot as usize] = slot;
    rings.prevs[slot as usize] = slot;
}

// A slot that is in no ring becomes the last before a hub.
pub(crate) fn join(rings: &mut Rings, slot: u32, hub: u32)
    requires paired { ArePaired rings.old (length rings.old.nexts.items) }
    requires within { slot < length rings.old.nexts.items }
    requires hub_within { hub < length rings.old.nexts.items }
    requires apart { slot ≢ hub }
    requires alone { next_at rings.old slot ≡ slot }
    ensures { IsJoined rings.old rings.new slot hub }
{
    let last = rings.prevs[hub as usize];
    rings.nexts[last as usize] = slot;
    rings.prevs[slot as usize] = last;
    rings.nexts[slot as usize] = hub;
    rings.prevs[hub as usize] = slot;
}

// A slot becomes the last before a head, if it is to be listed.
pub(crate) fn list_if(rings: &mut Rings, slot: u32, head: u32, is_listed: bool)
    requires paired { ArePaired rings.old (head + 1) }
    requires within { slot < head }
    ensures { MayBeListed is_listed rings.old rings.new slot head }
{
    if is_listed {
        cut(rings, slot);
        join(rings, slot, head);
    }
}

// The slot before this one.
pub(crate) fn in_front(rings: &Rings, slot: u32) -> u32
    requires { slot < length rings.now.prevs.items }
    ensures { result ≡ prev_at rings.now slot }
{
    rings.prevs[slot as usize]
}

// The slot behind this one.
pub(crate) fn behind(rings: &Rings, slot: u32) -> u32
    requires { slot < length rings.now.nexts.items }
    ensures { result ≡ next_at rings.now slot }
{
    rings.nexts[slot as usize]
}
