//! An executor: calls between loops that can be cancelled safely, each a call of one board, in one history.
//!
//! Every caller has a pass. The pass with number 0 is the target's, which runs the requests; the others submit,
//! cancel and collect. Payloads and results move with the requests.
#![tactic(auto)]

mod answers;
mod boxed;
mod calls;
mod executor;
mod guarded;
mod place;
mod sharing;
mod stock;
mod target;
mod ticket;
mod turns;

pub use answers::{Back, Cancelled, Collected, Next};
pub use boxed::Boxed;
pub use executor::{Executor, ExecutorPass, MAX_REQUESTS};
pub use ticket::Ticket;
