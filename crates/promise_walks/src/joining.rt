//! The outcomes of a join's Sides.
ghost use Rattle.std.specs.Prelude.{◌≡◌, ◌<◌, ◌≤◌, ◌+◌, ◌-◌, ◌*◌, Result, length, vec_len, vec_capacity};
ghost use Rattle.kj_model.specs.World.{State, Setting, World};
ghost use Rattle.kj_model.specs.Value.{kept_in, value_to};
ghost use Rattle.kj_model.specs.Outcomes.{joined};
ghost use Rattle.promise_walks.specs.Shapes.{numbers_of};
ghost use Rattle.promise_walks.specs.Values.{Valuing};
ghost use Rattle.promise_walks.specs.Climbs.{ArePlain, IsTaken, stack_taken, all_summed, climb, is_at, weigh, weigh_at, cost};

use crate::land::Land;
use crate::looks::{SideLook, kept, look_side};
use crate::pending::{At, Pending};
use crate::pushing::put_last;
use crate::shape::Parts;
use crate::sums::{Sum, no_sum, plus, plus_kept, total};
use kj_base::{Link, Outcome};

// The outcomes that the Sides of a fast join keep, joined.
pub(crate) fn join_kept<L: Land>(land: &L, sides: Parts) -> Outcome
    ensures { (w : World) → L.stands land.now w
        → joined (kept_in w.nodes (numbers_of sides)) ≡ result }
{
    let mut sum = no_sum();
    let mut left = sides;
    'joining: while left.count > 0 {
        sum = plus_kept(sum, kept(land, left.next));
        left = left.rest();
    }
    total(sum)
}

// One Side: its outcome joins those before it, or its tree is evaluated first.
fn take_side<L: Land>(
    land: &L,
    stack: &mut Vec<Pending>,
    sum: Sum,
    side: Link,
    behind: Parts,
) -> Result<Sum, Link>
    requires plain { ArePlain (L.is_plain land.now) stack.old.items }
    requires room { vec_len stack.old < vec_capacity stack.old }
    ensures stack { stack.new.items ≡ stack_taken stack.old.items sum side behind result }
    ensures taken { (value : Valuing) (s : State) → L.stands land.now s.world
        → IsTaken value s sum side behind result }
    ensures plain { ArePlain (L.is_plain land.now) stack.new.items }
    ensures room { vec_capacity stack.old ≤ vec_capacity stack.new }
{
    match look_side(land, side) {
        SideLook::Known(outcome) => Ok(plus(sum, outcome)),
        SideLook::Fired(tree) => {
            put_last(
                stack,
                Pending::Part {
                    side,
                    tree,
                    behind,
                    sum,
                },
            );
            Err(tree)
        }
    }
}

// These Sides in index order, after those that gave the sum: the end, or the first of them whose tree is evaluated first.
pub(crate) fn go_through<L: Land>(land: &L, stack: &mut Vec<Pending>, sum: Sum, sides: Parts) -> At
    requires plain { ArePlain (L.is_plain land.now) stack.old.items }
    requires bound { vec_len stack.old < L.slots land.now + 1 }
    requires room { L.slots land.now + 1 ≤ vec_capacity stack.old }
    ensures same { (setting : Setting) (s : State) → L.stands land.now s.world
        → climb setting (L.slots land.now + 1) stack.old.items (all_summed
        (value_to setting (L.slots land.now - length stack.old.items)) sum (numbers_of sides) s)
        ≡ is_at setting (L.slots land.now + 1) stack.new.items result s }
    ensures weight { weigh (L.slots land.now + 1) stack.new.items
        + weigh_at (L.slots land.now + 1 - length stack.new.items) result
        ≤ weigh (L.slots land.now + 1) stack.old.items + sides.count
        * (cost (L.slots land.now - length stack.old.items) + 1) }
    ensures plain { ArePlain (L.is_plain land.now) stack.new.items }
    ensures bound { vec_len stack.new ≤ L.slots land.now + 1 }
    ensures room { vec_capacity stack.old ≤ vec_capacity stack.new }
{
    let mut sum = sum;
    let mut left = sides;
    'through: while left.count > 0 {
        let behind = left.rest();
        match take_side(land, stack, sum, left.next, behind) {
            Ok(more) => sum = more,
            Err(tree) => return At::Down(tree),
        }
        left = behind;
    }
    At::Up(total(sum))
}
