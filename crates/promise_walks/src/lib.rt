//! Freeing, searching and evaluating the trees of a loop, without recursion, over any keeper of nodes.
#![tactic(auto)]

mod closing;
mod emptying;
mod evaluating;
mod falling;
mod freeing;
mod guard;
mod holding;
mod hubs;
mod joining;
mod land;
mod linking;
mod looks;
mod pending;
mod pushing;
mod shape;
mod sums;

pub use emptying::announce_empty;
pub use evaluating::evaluate;
pub use falling::{would_free, would_free_members};
pub use freeing::{Frame, free_part, free_tree, free_unreferenced};
pub use guard::Guard;
pub use holding::holds;
pub use hubs::unname_hub;
pub use land::{Given, Land, put_bare};
pub use linking::evaluate_link;
pub use pending::{Continuation, Pending};
pub use shape::Parts;
pub use sums::Sum;
