//! The layers of the loop over the plain keepers: nodes in a table with the plain queue, and names in a table. What any
//! keepers must have is shown of these here, and the layers run.
#![tactic(auto)]

#[cfg(test)]
mod answers;
#[cfg(test)]
mod calls;
#[cfg(test)]
mod closings;
#[cfg(test)]
mod commands;
#[cfg(test)]
mod evaluations;
#[cfg(test)]
mod fallings;
#[cfg(test)]
mod sets;
mod tables;
mod teller;
#[cfg(test)]
mod turns;
#[cfg(test)]
mod waits;

pub use tables::{TableEvaluator, evaluator_over_tables};
pub use teller::{Teller, Told};
