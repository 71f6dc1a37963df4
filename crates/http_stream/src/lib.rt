//! One connection of HTTP/1.x over a stream, in single moves.
#![tactic(auto)]

mod connection;
mod next;
mod served;
mod served_connection;
mod stage;
#[cfg(test)]
mod tests;

pub use connection::StreamConnection;
pub use next::{ConnectionStep, Next, Wants};
pub use served::{Finished, Served};
pub use served_connection::ServedConnection;
pub use stage::Stage;
