//! What of a loop doesn't depend on when asks, ended requests and abandoned cells are taken. The functions here have
//! no body, and their contracts are laws of the definitions in `kj_model`.
#![tactic(auto)]

pub mod arming;
pub mod taking;
pub mod told;
