//! New sets and cancelers. No keeper of names gives a canceler Wraps yet.
ghost use Rattle.std.specs.Prelude.{◌≡◌, ◌≤◌, [], ◌∷◌, None, Some};
ghost use Rattle.kj_base.specs.Commands.{Command as CommandSeen, Cancel};
ghost use Rattle.kj_model.specs.Changes.{named};
ghost use Rattle.kj_model.specs.Uses.{use_as, IsNew};
ghost use Rattle.promise_commands.specs.Refusals.{refusal_of};
ghost use Rattle.promise_names.specs.Held.{AreFree, IsCounted, IsLoopsOwn, held_shown, root_of};
ghost use Rattle.promise_apply.specs.Building.{Both};
ghost use Rattle.promise_apply.specs.Applying.{Applies, IsCommand};

use crate::naming::{Role, Use};
use crate::refusing::check;
use kj_base::Name;
use promise_commands::Refused;
use promise_names::{Held, Names};
use promise_nodes::Nodes;

/// A new name holds a set or a canceler.
pub(crate) fn apply_holder<N: Nodes, M: Names>(
    nodes: &N,
    names: &mut M,
    name: Name,
    held: Held,
) -> Result<(), Refused>
    requires kind { IsLoopsOwn held }
    requires counted { IsCounted [] held }
    requires root { root_of (Some held) ≡ None }
    requires free { AreFree (M.roots names.old) (N.is_taken nodes.now) (N.next nodes.now) }
    requires few { M.count names.old ≤ M.limit names.old }
    ensures applied { (c : CommandSeen)
        → IsCommand c (use_as IsNew name.0 ∷ []) (λ w. []) (named name.0 (held_shown [] held))
        → Applies (Both (N.stands nodes.now) (M.stands names.old))
        (Both (N.stands nodes.now) (M.stands names.new)) N.rule (refusal_of result) c }
    ensures free { AreFree (M.roots names.new) (N.is_taken nodes.now) (N.next nodes.now) }
    ensures few { M.count names.new ≤ M.limit names.new }
    ensures limit { M.limit names.new ≡ M.limit names.old }
    ensures over { M.over names.new ≡ M.over names.old }
{
    check(
        nodes,
        names,
        &[Use {
            role: Role::New,
            name,
        }],
        &[],
    )?;
    names.set(name, held);
    Ok(())
}

/// What a canceler wraps ends, of which there is nothing.
pub(crate) fn apply_cancel<N: Nodes, M: Names>(
    nodes: &N,
    names: &M,
    canceler: Name,
) -> Result<(), Refused>
    ensures applied { Applies (Both (N.stands nodes.now) (M.stands names.now))
        (Both (N.stands nodes.now) (M.stands names.now)) N.rule (refusal_of result)
        (Cancel canceler.0) }
{
    check(
        nodes,
        names,
        &[Use {
            role: Role::Canceler,
            name: canceler,
        }],
        &[],
    )
}
