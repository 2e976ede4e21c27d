//! What the crates of tests share.
#![tactic(auto)]

pub mod finding;
pub mod judge;
pub mod plain;
pub mod wrong;
