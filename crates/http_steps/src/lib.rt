//! A server of HTTP/1.x as the steps of promises.
#![tactic(auto)]

mod actions;
mod names;
mod server;
mod server_step;
mod table;
#[cfg(test)]
mod tests;

pub use actions::{ABANDONED, NO_PAYLOAD};
pub use names::{DRAIN_CELL, DRAIN_FORK, FIRST_CELL, MAX_CONNECTIONS, TASKS};
pub use server::HttpSteps;
pub use server_step::{ANSWER, COUNT, DRAIN, FAILED, READ, SERVE, ServerStep, WRITE};
