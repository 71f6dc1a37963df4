//! A ticket lock round a value that stands for a list of entries, the history of the lock.
//!
//! Each caller has a pass. It knows a beginning of the history, and which entries of it are its own.
#![tactic(auto)]

mod bell;
mod calls;
mod held;
mod kept;
mod lock;
mod owner;
mod pass;
mod plays;
mod steps;
#[cfg(test)]
mod tests;
mod view;

pub use held::{Held, Noted};
pub use kept::Kept;
pub use lock::CountLock;
pub use owner::Owner;
pub use pass::{Pass, SplitRefused};
