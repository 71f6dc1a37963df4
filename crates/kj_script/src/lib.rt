//! Scripts of promise commands, run from their first line to the closing of their loop.
#![tactic(auto)]

mod lines;
mod run;
#[cfg(test)]
mod tests;

pub use run::run_script;
