//! A connection that reads requests of HTTP/1.x and writes the answers of a service.
#![tactic(auto)]

mod connection;
mod laws;
mod message;
pub mod read;
pub mod ruled;
mod service;
pub mod spare;
#[cfg(test)]
mod tests;
pub mod text;

pub use connection::{Connection, ConnectionState, Fed};
pub use laws::{one_output, one_reading, some_output, some_reading};
pub use message::{Answer, End, Request};
pub use service::{Echo, Service, Target};
