//! What is asked of a kernel in words: the entity that words name, as the report names it, and the lines that ask.
#![tactic(auto)]

pub mod asked;
pub mod laws;
pub mod named;
pub mod question;

pub use asked::Asked;
pub use named::{Object, entity};
pub use question::Question;
