//! The step function of the store over commands, and that its plain run is the plain store.
#![tactic(auto)]

pub mod laws;
mod reserved;

pub use reserved::names_reserved;
