//! A speculative kernel over its user's own keys, values and outputs, whose steps are taken outside.
#![tactic(auto)]

mod asking;
mod decided;
pub mod laws;
mod lists;
mod refusal;
pub mod speculator;
mod step;
mod writes;

pub use decided::{Committed, Failed, Undone};
pub use refusal::Refusal;
pub use speculator::Speculator;
pub use step::Step;
