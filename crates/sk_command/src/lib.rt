//! The command line of `speculate`: what its words ask for, the input that they name, and how a run
//! ends.
#![tactic(auto)]

pub mod end;
pub mod help;
pub mod job;
pub mod message;
pub mod open_input;
pub mod read_all;
