//! Worked scripts on corners of the definitions: each has another log under one wrong definition.
//! The functions here
//! have no body, and their contracts say what each script's log is.
#![tactic(auto)]

pub mod arenas;
pub mod corners;
