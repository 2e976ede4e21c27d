//! The machine of records under other names of its keys.
#![tactic(auto)]

pub mod laws;
