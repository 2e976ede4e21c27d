//! Decides what of the work of processes may be shown, and what is taken back.
#![tactic(auto)]

mod back;
mod begun;
mod epochs;
mod event;
pub mod laws;
mod refused;
mod steps;

pub use back::Back;
pub use epochs::Epochs;
pub use event::Event;
pub use refused::Refused;
