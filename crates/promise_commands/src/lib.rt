//! Commands, the actions of steps, and whoever runs steps.
#![tactic(auto)]

mod action;
mod command;
mod refused;
mod script;
mod sources;
mod steps;
mod waited;

pub use action::{Action, Commands, MAX_COMMANDS};
pub use command::Command;
pub use refused::Refused;
pub use script::{Line, NumberedLine};
pub use sources::{MAX_PARTS, Sources};
pub use steps::Steps;
pub use waited::Waited;
