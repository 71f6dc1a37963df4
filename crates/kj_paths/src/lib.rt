//! Where the nodes of a loop lie in arenas: the live nodes of one arena are one path. The functions
//! here have no body, and their contracts are laws of the definitions in `kj_model`, for every list
//! of calls.
#![tactic(auto)]

pub mod laws;
