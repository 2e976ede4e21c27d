//! A kernel over byte strings whose guesses are decided by their numbers, with the step that is being written.
#![tactic(auto)]

mod held;
mod output;
mod parts;
mod tokens;

pub use held::Held;
pub use output::Output;
pub use parts::VALUE_LIMIT;
