//! The lines of a scenario's file that explain an answer: that of its event, and that of the script at which its process stood.
#![tactic(auto)]

pub mod script;
pub mod source;
pub mod told;

pub use source::{Source, Stand};
