//! The definitions of a loop. They are in `specs`; the functions here have no body, and their
//! contracts are
//! scripts worked out by hand and laws of the definitions.
#![tactic(auto)]

pub mod laws;
pub mod order;
pub mod owned;
pub mod owning;
pub mod refusing;
pub mod sharing;
pub mod stopping;
pub mod waiting;
