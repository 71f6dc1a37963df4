//! The text of a script, from the script.
#![tactic(auto)]

mod commands;
mod laws;
mod lines;
mod script;
#[cfg(test)]
mod tests;
mod words;

pub use laws::read_again;
pub use lines::{print_body, print_limits, print_line};
pub use script::print;
