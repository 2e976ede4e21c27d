//! Byte strings, each kept once, with a number for each.
#![tactic(auto)]

mod hints;
mod index;
mod number;
mod places;

pub use index::Index;
pub use number::Number;
