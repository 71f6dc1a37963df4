//! The steps of a script with their bodies, and the text of its log.
#![tactic(auto)]

mod kept;
mod order;
mod print;
mod steps;
mod told;

pub use kept::Kept;
pub use order::Entry;
pub use print::{kind_word, print_idle, print_number, print_refused, print_waited, print_words};
pub use steps::ScriptSteps;
pub use told::Told;

#[cfg(test)]
mod tests;
