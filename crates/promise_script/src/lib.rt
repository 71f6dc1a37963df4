//! Scripts of the loop over the layers as text.
#![tactic(auto)]

mod bodies;
mod commands;
mod cuts;
mod fields;
mod kept;
mod laws;
mod left;
mod lines;
mod meaning;
mod parts;
mod reader;
#[cfg(test)]
mod reading_tests;
mod script;
mod spots;
#[cfg(test)]
mod tests;
mod verbs;

pub use laws::{one_line, one_script, some_script};
pub use left::LinesLeft;
pub use lines::read_line;
pub use meaning::{MAX_TURNS, MAX_WORDS, Meaning, SLOTS_STEP};
pub use reader::{ReadRefused, read};
pub use script::Script;
