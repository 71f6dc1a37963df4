//! What each world of a loop keeps: each live node stands in one place. The functions here have no body, and their
//! contracts are laws of the definitions in `kj_model`, for every list of calls.
#![tactic(auto)]

pub mod laws;
pub mod running;
