//! Boxes of Rattle behind pointers of C.
#![tactic(auto)]

pub mod cell;
pub mod holds;
mod kept;
